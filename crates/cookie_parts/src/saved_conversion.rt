//! Conversion between a cookie and its saved form.
ghost use Rattle.std.specs.Prelude.{◌≡◌, ◌⊎◌, Err, IfErr, IfOk, IsSome, Ok, OnErr};
ghost use Rattle.cookie_parts.specs.Domain.{text_if_any};
ghost use Rattle.cookie_parts.specs.SavedConversion.{cookie_of_saved, domain_of_saved, expires_of_saved, saved_domain, saved_expires, saved_of};
ghost use Rattle.cookie_parts.specs.Views.{domain_value, expiry_value};
ghost use Rattle.cookie_forms.specs.Saved.{domain_view, expiry_view, saved_view};

use crate::{Cookie, CookieDomain, CookieError, CookieExpiration, CookiePath, Error};
use cookie_forms::{Saved, SavedDomain, SavedExpiry};
use cookie_raw::RawCookie;
use std::alloc::{AllocError, Global};

impl<'a> Cookie<'a> {
    /// Returns the saved form: the raw cookie as a `Set-Cookie` header value, and the path, domain
    /// and expiry unchanged.
    pub fn to_saved(&self, alloc: Global) -> Result<Saved, AllocError>
        ensures saved { IfOk result (λ saved. saved_view saved ≡ saved_of self.now) }
    {
        Ok(Saved {
            raw_cookie: self.raw.to_text(alloc)?,
            path: self.path.to_string_in(alloc)?,
            from_attr: self.path.is_from_path_attr(),
            domain: saved_domain(&self.domain)?,
            expires: saved_expiry(self.expires),
        })
    }
}

impl Cookie<'static> {
    /// Makes a cookie from its saved form.
    ///
    /// The path, domain and expiry are taken as saved, without validation.
    ///
    /// # Errors
    ///
    /// - `Cookie(Parse)`: `raw_cookie` is not a valid `Set-Cookie` header value.
    /// - `Memory`: out of memory. Never returned in place of `Cookie(Parse)`.
    pub fn from_saved(alloc: Global, saved: Saved) -> Result<Cookie<'static>, Error>
        ensures cookie { IfOk result (λ cookie. cookie_of_saved (saved_view saved) ≡ Ok cookie) }
        ensures errors { IfErr result (λ e. (e ≡ Error.Memory)
            ⊎ ((e ≡ Error.Cookie CookieError.Parse) × (cookie_of_saved (saved_view saved) ≡ Err CookieError.Parse))) }
        ensures early { cookie_of_saved (saved_view saved) ≡ Err CookieError.Parse
            → result ≡ Err (Error.Cookie CookieError.Parse) }
    {
        let Saved {
            raw_cookie,
            path,
            from_attr,
            domain,
            expires,
        } = saved;
        let raw = match RawCookie::parse(raw_cookie.as_str()) {
            Ok(raw) => raw.into_owned(alloc)?,
            Err(_) => return Err(Error::Cookie(CookieError::Parse)),
        };
        Ok(Cookie {
            raw,
            path: CookiePath::of_saved(path, from_attr),
            domain: domain_of_saved(domain),
            expires: expiry_of_saved(expires),
        })
    }
}

// The saved form of the domain.
fn saved_domain(domain: &CookieDomain) -> Result<SavedDomain, AllocError>
    ensures saved { IfOk result (λ saved. domain_view saved ≡ saved_domain (domain_value domain.now)) }
    ensures memory { OnErr result (IsSome (text_if_any (domain_value domain.now))) }
{
    Ok(match domain {
        CookieDomain::HostOnly(domain) => SavedDomain::HostOnly(domain.clone()?),
        CookieDomain::Suffix(domain) => SavedDomain::Suffix(domain.clone()?),
        CookieDomain::NotPresent => SavedDomain::NotPresent,
        CookieDomain::Empty => SavedDomain::Empty,
    })
}

// The domain of its saved form.
fn domain_of_saved(saved: SavedDomain) -> CookieDomain
    ensures { domain_value result ≡ domain_of_saved (domain_view saved) }
{
    match saved {
        SavedDomain::HostOnly(domain) => CookieDomain::HostOnly(domain),
        SavedDomain::Suffix(domain) => CookieDomain::Suffix(domain),
        SavedDomain::NotPresent => CookieDomain::NotPresent,
        SavedDomain::Empty => CookieDomain::Empty,
    }
}

// The saved form of the expiry.
fn saved_expiry(expires: CookieExpiration) -> SavedExpiry
    ensures { expiry_view result ≡ saved_expires (expiry_value expires) }
{
    match expires {
        CookieExpiration::AtUtc(end) => SavedExpiry::AtUtc(end),
        CookieExpiration::SessionEnd => SavedExpiry::SessionEnd,
    }
}

// The expiry of its saved form.
fn expiry_of_saved(saved: SavedExpiry) -> CookieExpiration
    ensures { expiry_value result ≡ expires_of_saved (expiry_view saved) }
{
    match saved {
        SavedExpiry::AtUtc(end) => CookieExpiration::AtUtc(end),
        SavedExpiry::SessionEnd => CookieExpiration::SessionEnd,
    }
}
