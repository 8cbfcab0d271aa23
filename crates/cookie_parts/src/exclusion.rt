//! Why a request does not have a cookie, RFC 6265 5.4.
ghost use Rattle.std.specs.Prelude.{◌≡◌, ◌↔◌, IfSome, IsTrue, None};
ghost use Rattle.cookie_words.specs.Moments.{moment_of};
ghost use Rattle.cookie_parts.specs.Exclusion.{exclusion, exclusion_text, is_domain_for, is_given, IsExcluded};
ghost use Rattle.cookie_parts.specs.Views.{domain_value};

use crate::utils::{is_http_scheme, is_secure};
use crate::{Cookie, CookieDomain, cookie_path};
use jiff::civil::DateTime;
use std::fmt;
use url::Url;

/// Why a request does not have a cookie.
#[derive(Clone, Copy, Debug, PartialEq, Eq)]
pub enum Exclusion {
    /// The cookie's domain does not match the host of the URL, or is empty or `.`.
    Domain,
    /// The cookie's path does not match the path of the URL, or does not begin with `/`.
    Path,
    /// The cookie is Secure, and the URL is not: its scheme is not `https`, and its host is not the
    /// local machine.
    Secure,
    /// The cookie is HttpOnly, and the scheme of the URL does not begin with `http`.
    HttpOnly,
    /// The cookie's expiry is the time of the request or earlier.
    Expired,
}

impl Exclusion {
    /// Returns the message.
    pub fn text(&self) -> &'static str
        ensures { result.now ≡ exclusion_text self.now }
    {
        match self {
            Exclusion::Domain => "domain does not match",
            Exclusion::Path => "path does not match",
            Exclusion::Secure => "Secure cookie, but the URL is not secure",
            Exclusion::HttpOnly => "HttpOnly cookie, but the URL is not an HTTP one",
            Exclusion::Expired => "expired",
        }
    }
}

impl fmt::Display for Exclusion {
    ghost use Rattle.std.specs.Prelude.{Some};

    ghost output = { λ e. Some (exclusion_text e) };

    ghost styled_output = { λ e _. Some (exclusion_text e) };

    fn fmt<W: fmt::Write>(&self, f: &mut fmt::Formatter<W>) -> fmt::Result {
        f.write_str(self.text())
    }
}

impl<'a> Cookie<'a> {
    /// Returns why a request to `url` at `now` does not have this cookie, RFC 6265 5.4, or `None` if
    /// it has.
    ///
    /// Returns the first reason in the order of [`Exclusion`]'s variants.
    pub fn exclusion(&self, url: &Url, now: DateTime) -> Option<Exclusion>
        ensures value { result ≡ exclusion url.now (moment_of now) self.now }
        ensures none { (result ≡ None) ↔ IsTrue (is_given url.now (moment_of now) self.now) }
        ensures reason { IfSome result (λ reason. IsExcluded reason url.now (moment_of now) self.now) }
    {
        if !is_domain_for(&self.domain, url) {
            Some(Exclusion::Domain)
        } else if !cookie_path::is_match(self.path.as_str(), url) {
            Some(Exclusion::Path)
        } else if self.is_secure() && !is_secure(url) {
            Some(Exclusion::Secure)
        } else if self.is_http_only() && !is_http_scheme(url) {
            Some(Exclusion::HttpOnly)
        } else if self.is_expired(now) {
            Some(Exclusion::Expired)
        } else {
            None
        }
    }
}

// Whether the domain matches the URL, and is neither empty nor `.`.
fn is_domain_for(domain: &CookieDomain, url: &Url) -> bool
    ensures { result ≡ is_domain_for url.now (domain_value domain.now) }
{
    domain.matches(url) && !domain.as_str().is_empty() && domain.as_str() != "."
}
