//! Makes a cookie of the columns of a row.
ghost use Rattle.std.specs.Option.{option_copied};
ghost use Rattle.std.specs.Prelude.{◌≡◌, IfOk, None, option_map, string_bytes};
ghost use Rattle.jiff.specs.Words.{signed_nanos};
ghost use Rattle.cookie_raw.specs.Raw.{pair};
ghost use Rattle.cookie_raw.specs.Views.{expires_value};
ghost use Rattle.cookie_parts.specs.Views.{domain_value};
ghost use Rattle.cookie_table.specs.Views.{columns_row, domain_view, raw_view};

use crate::reading::{Columns, Domain, Raw};
use cookie_parts::{Cookie, CookieDomain, CookiePath};
use cookie_raw::{RawCookie, RawCookieBuilder};
use std::alloc::{AllocError, Global};

impl<'a> Columns<'a> {
    /// Makes the cookie, with strings of its own. Fails only if out of memory.
    pub(crate) fn to_cookie(&self, alloc: Global) -> Result<Cookie<'static>, AllocError>
        ensures { IfOk result (λ cookie. cookie ≡ columns_row self.now) }
    {
        let raw = self.raw.to_raw(alloc)?;
        let domain = self.domain.to_domain(alloc)?;
        let path = String::from_str(alloc, self.path.text)?;
        let path = CookiePath::of_saved(path, self.path.is_from_attribute);
        Ok(Cookie::new(raw, domain, path, self.expires))
    }
}

impl<'a> Domain<'a> {
    // Makes the domain.
    fn to_domain(self, alloc: Global) -> Result<CookieDomain, AllocError>
        ensures { IfOk result (λ domain. domain_value domain ≡ domain_view self.entry) }
    {
        Ok(match self {
            Domain::HostOnly(text) => CookieDomain::HostOnly(String::from_str(alloc, text)?),
            Domain::Suffix(text) => CookieDomain::Suffix(String::from_str(alloc, text)?),
            Domain::NotPresent => CookieDomain::NotPresent,
            Domain::Empty => CookieDomain::Empty,
        })
    }
}

impl<'a> Raw<'a> {
    // Makes the raw cookie.
    fn to_raw(&self, alloc: Global) -> Result<RawCookie<'static>, AllocError>
        ensures { IfOk result (λ raw. raw ≡ raw_view self.now) }
    {
        let name = String::from_str(alloc, self.name)?;
        let value = String::from_str(alloc, self.value)?;
        let builder = self.begin(name, value);
        let builder = with_domain(alloc, builder, self.domain)?;
        Ok(with_path(alloc, builder, self.path)?.build())
    }

    // Begins the raw cookie: all of it but Domain and Path.
    fn begin(&self, name: String, value: String) -> RawCookieBuilder
        ensures { result ≡ record (pair (string_bytes name) (string_bytes value)) {
          secure = self.now.secure;
          http_only = self.now.http_only;
          same_site = self.now.same_site;
          max_age = option_map signed_nanos self.now.max_age;
          expires = option_map expires_value self.now.expires;
        } }
    {
        let mut builder = RawCookieBuilder::new(name, value);
        if let Some(secure) = self.secure {
            builder = builder.secure(secure);
        }
        if let Some(http_only) = self.http_only {
            builder = builder.http_only(http_only);
        }
        if let Some(same_site) = self.same_site {
            builder = builder.same_site(same_site);
        }
        if let Some(max_age) = self.max_age {
            builder = builder.max_age(max_age);
        }
        if let Some(expires) = self.expires {
            builder = builder.expires(expires);
        }
        builder
    }
}

// Adds a Domain attribute, if there is one. The builder drops the dot that is put before it.
fn with_domain(
    alloc: Global,
    builder: RawCookieBuilder,
    domain: Option<&str>,
) -> Result<RawCookieBuilder, AllocError>
    requires { builder.domain ≡ None }
    ensures { IfOk result (λ built. built ≡ record builder { domain = option_copied domain.entry }) }
{
    let Some(domain) = domain else {
        return Ok(builder);
    };
    let mut dotted = String::from_str(alloc, ".")?;
    dotted.push_str(domain)?;
    Ok(builder.domain(dotted))
}

// Adds a Path attribute, if there is one.
fn with_path(
    alloc: Global,
    builder: RawCookieBuilder,
    path: Option<&str>,
) -> Result<RawCookieBuilder, AllocError>
    requires { builder.path ≡ None }
    ensures { IfOk result (λ built. built ≡ record builder { path = option_copied path.entry }) }
{
    match path {
        Some(path) => Ok(builder.path(String::from_str(alloc, path)?)),
        None => Ok(builder),
    }
}
