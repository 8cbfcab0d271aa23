//! Cookies with their domain, path and expiry, RFC 6265 5.3 and 5.4.
ghost use Rattle.std.specs.Prelude.{◌≡◌, ◌&&◌, false, is_none, true, Err, IfOk, MatchResult, Some};
ghost use Rattle.std.specs.Option.{option_or};
ghost use Rattle.cookie_words.specs.Moments.{moment_of};
ghost use Rattle.cookie_raw.specs.Raw.{pair};
ghost use Rattle.cookie_raw.specs.SetCookie.{reading};
ghost use Rattle.cookie_parts.specs.Cookie.{cookie_from_header, cookie_matches, cookie_of, domain_for, early, early_error, expired_row, is_expired, is_http_only, is_out_of_reach, is_persistent, is_secure_only, to_raw, domain_attribute, expires_attribute, path_attribute, Row};
ghost use Rattle.cookie_parts.specs.Domain.{domain_from_attribute};
ghost use Rattle.cookie_parts.specs.Expiry.{expiry_of};
ghost use Rattle.cookie_parts.specs.Hosts.{host_of};
ghost use Rattle.cookie_parts.specs.Outcomes.{ReturnsOrMemory};
ghost use Rattle.cookie_parts.specs.Path.{path_or_default};
ghost use Rattle.cookie_parts.specs.Views.{domain_value, expiry_value};

use crate::utils::{is_http_scheme, is_secure};
use crate::{CookieDomain, CookieError, CookieExpiration, CookiePath, Error};
use cookie_raw::{Expiration, RawCookie, RawCookieBuilder, SameSite};
use cookie_words::epoch;
use jiff::civil::DateTime;
use std::alloc::{AllocError, Global};
use std::marker::Model;
use url::Url;

/// A cookie, or the error for which it was rejected.
pub type CookieResult<'a> = Result<Cookie<'a>, CookieError>;

/// A cookie of a user agent: a raw cookie with its domain, path and expiry.
#[derive(Debug, Drop)]
pub struct Cookie<'a> {
    // Fields are laid out in source order: those that every lookup reads come first, side by side.
    /// The domain: the hosts that receive the cookie.
    pub domain: CookieDomain,
    /// When the cookie expires.
    pub expires: CookieExpiration,
    pub(crate) raw: RawCookie<'a>,
    /// The path that the cookie is limited to.
    pub path: CookiePath,
}

impl<'a> Model for Cookie<'a> {
    ghost Value = { Row };

    ghost view = { λ c. record {
      raw = c.raw;
      domain = domain_value c.domain;
      path = c.path;
      expires = expiry_value c.expires;
    } };
}

impl<'a> Cookie<'a> {
    /// Makes a cookie of its parts, without validation.
    pub fn new(
        raw: RawCookie<'a>,
        domain: CookieDomain,
        path: CookiePath,
        expires: CookieExpiration,
    ) -> Cookie<'a>
        ensures { result ≡ record { raw = raw.entry; domain = domain_value domain; path = path; expires = expiry_value expires } }
    {
        Cookie {
            raw,
            domain,
            path,
            expires,
        }
    }

    /// Parses a `Set-Cookie` header value received from `url` at `now`, RFC 6265 5.2 and 5.3.
    ///
    /// # Errors
    ///
    /// In the order in which they are checked:
    /// - `Parse`: `text` has no name-value pair, or the name is empty.
    /// - `NonHttpScheme`: the cookie is HttpOnly and `url`'s scheme does not begin with `http`.
    /// - `NonRelativeScheme`: there is no Domain attribute, or an empty one, and `url` has no host.
    /// - `Parse`: the Domain attribute is not a valid domain name.
    /// - `DomainMismatch`: the Domain attribute does not domain-match the host of `url`.
    /// - `Memory`: out of memory. Never returned in place of the first `Parse`, `NonHttpScheme`, or
    ///   `NonRelativeScheme` without a Domain attribute.
    pub fn parse(alloc: Global, text: &'a str, url: &Url, now: DateTime) -> CookieResult<'a>
        ensures value { ReturnsOrMemory (λ cookie. cookie) result (cookie_from_header text.now url.now (moment_of now)) }
        ensures early { (error : CookieError) → early (reading text.now) url.now ≡ Some error → result ≡ Err error }
    {
        match RawCookie::parse(text) {
            Ok(raw) => Cookie::from_raw_cookie(alloc, raw, url, now),
            Err(_) => Err(CookieError::Parse),
        }
    }

    /// Parses as [`parse`](Self::parse) does, and returns a cookie that borrows nothing.
    ///
    /// # Errors
    ///
    /// Those of [`parse`](Self::parse). `Memory` also if the strings of the cookie cannot be copied.
    pub fn parse_owned(
        alloc: Global,
        header_value: &str,
        url: &Url,
        now: DateTime,
    ) -> CookieResult<'static>
        ensures value { ReturnsOrMemory (λ cookie. cookie) result (cookie_from_header header_value.now url.now (moment_of now)) }
        ensures early { (error : CookieError) → early (reading header_value.now) url.now ≡ Some error → result ≡ Err error }
    {
        let Ok(raw) = RawCookie::parse(header_value) else {
            return Err(CookieError::Parse);
        };
        Cookie::from_raw_owned(alloc, raw, url, now)
    }

    /// Makes a cookie as [`try_from_raw_cookie`](Self::try_from_raw_cookie) does, and returns one that
    /// borrows nothing.
    ///
    /// # Errors
    ///
    /// Those of [`try_from_raw_cookie`](Self::try_from_raw_cookie). `Memory` also if the strings of the
    /// cookie cannot be copied.
    pub fn from_raw_owned(
        alloc: Global,
        raw: RawCookie<'_>,
        url: &Url,
        now: DateTime,
    ) -> CookieResult<'static>
        ensures value { ReturnsOrMemory (λ cookie. cookie) result (cookie_of raw.entry url.now (moment_of now)) }
        ensures early { (error : CookieError) → early_error raw.entry url.now ≡ Some error → result ≡ Err error }
    {
        // A `?` would move the cookie once more.
        match Cookie::from_raw_cookie(alloc, raw, url, now) {
            Ok(cookie) => match cookie.into_owned(alloc) {
                Ok(owned) => Ok(owned),
                Err(_) => Err(CookieError::Memory),
            },
            Err(error) => Err(error),
        }
    }

    /// Makes a cookie from a raw cookie received from `url` at `now`, RFC 6265 5.3.
    ///
    /// # Errors
    ///
    /// In the order in which they are checked:
    /// - `NonHttpScheme`: the cookie is HttpOnly and `url`'s scheme does not begin with `http`.
    /// - `NonRelativeScheme`: there is no Domain attribute, or an empty one, and `url` has no host.
    /// - `Parse`: the Domain attribute is not a valid domain name.
    /// - `DomainMismatch`: the Domain attribute does not domain-match the host of `url`.
    /// - `Memory`: out of memory. Never returned in place of `NonHttpScheme`, or of
    ///   `NonRelativeScheme` without a Domain attribute.
    #[tactic(auto, unfolding(crate::specs::Cookie::cookie_of))]
    pub fn try_from_raw_cookie(
        alloc: Global,
        raw: &RawCookie<'a>,
        url: &Url,
        now: DateTime,
    ) -> CookieResult<'a>
        ensures value { ReturnsOrMemory (λ cookie. cookie) result (cookie_of raw.now url.now (moment_of now)) }
        ensures early { (error : CookieError) → early_error raw.now url.now ≡ Some error → result ≡ Err error }
    {
        if let Some(error) = early_error(raw, url) {
            return Err(error);
        }
        match raw.clone() {
            Ok(raw) => Cookie::from_raw_cookie(alloc, raw, url, now),
            Err(_) => Err(CookieError::Memory),
        }
    }

    // As `try_from_raw_cookie`, but takes ownership of the raw cookie.
    #[tactic(auto, unfolding(crate::specs::Cookie::cookie_of))]
    fn from_raw_cookie(
        alloc: Global,
        raw: RawCookie<'a>,
        url: &Url,
        now: DateTime,
    ) -> CookieResult<'a>
        ensures value { ReturnsOrMemory (λ cookie. cookie) result (cookie_of raw.entry url.now (moment_of now)) }
        ensures early { (error : CookieError) → early_error raw.entry url.now ≡ Some error → result ≡ Err error }
    {
        if is_out_of_reach(&raw, url) {
            return Err(CookieError::NonHttpScheme);
        }
        let domain = domain_for(alloc, &raw, url)?;
        let path = path_for(alloc, &raw, url)?;
        let expires = expiry_at(&raw, now);
        Ok(Cookie {
            raw,
            path,
            domain,
            expires,
        })
    }

    /// Returns the raw cookie.
    pub fn raw(&self) -> &RawCookie<'a>
        ensures { result.now ≡ self.now.raw }
    {
        &self.raw
    }

    /// Returns the name.
    pub fn name(&self) -> &str
        ensures { result.now ≡ self.now.raw.name }
    {
        self.raw.name()
    }

    /// Returns the value.
    pub fn value(&self) -> &str
        ensures { result.now ≡ self.now.raw.value }
    {
        self.raw.value()
    }

    /// Returns whether the cookie is Secure, the secure-only-flag of RFC 6265 5.3.
    pub fn is_secure(&self) -> bool
        ensures { result ≡ is_secure_only self.now.raw }
    {
        self.raw.is_secure()
    }

    /// Returns whether the cookie is HttpOnly, the http-only-flag of RFC 6265 5.3.
    pub fn is_http_only(&self) -> bool
        ensures { result ≡ is_http_only self.now.raw }
    {
        self.raw.is_http_only()
    }

    /// Returns the SameSite attribute.
    pub fn same_site(&self) -> Option<SameSite>
        ensures { result ≡ self.now.raw.same_site }
    {
        self.raw.same_site()
    }

    /// Returns whether the cookie matches `url`, RFC 6265 5.4: domain, path, Secure and HttpOnly.
    ///
    /// The expiry is not tested; see [`is_expired`](Self::is_expired).
    pub fn matches(&self, url: &Url) -> bool
        ensures { result ≡ cookie_matches self.now url.now }
    {
        self.domain.matches(url)
            && self.path.matches(url)
            && (!self.raw.is_secure() || is_secure(url))
            && (!self.raw.is_http_only() || is_http_scheme(url))
    }

    /// Returns whether the cookie is HttpOnly and the scheme of `url` does not begin with `http`.
    pub fn is_out_of_reach(&self, url: &Url) -> bool
        ensures { result ≡ is_out_of_reach self.now.raw url.now }
    {
        is_out_of_reach(&self.raw, url)
    }

    /// Returns whether this is a persistent cookie, not a session cookie, RFC 6265 5.3.
    pub fn is_persistent(&self) -> bool
        ensures { result ≡ is_persistent self.now.expires }
    {
        match self.expires {
            CookieExpiration::AtUtc(_) => true,
            CookieExpiration::SessionEnd => false,
        }
    }

    /// Expires the cookie: sets its expiry to 1970-01-01T00:00:00.
    pub fn expire(&mut self)
        ensures { self.new ≡ expired_row self.old }
    {
        self.expires = CookieExpiration::AtUtc(epoch());
    }

    /// Returns whether the cookie has expired: its expiry is `now` or earlier.
    pub fn is_expired(&self, now: DateTime) -> bool
        ensures { result ≡ is_expired (moment_of now) self.now }
    {
        self.expires.is_expired(now)
    }

    /// Returns whether the cookie's expiry is `moment` or earlier.
    pub fn expires_by(&self, moment: &DateTime) -> bool
        ensures { result ≡ is_expired (moment_of moment.now) self.now }
    {
        self.expires.expires_by(moment)
    }

    /// Returns an equal cookie that borrows nothing.
    pub fn into_owned(self, alloc: Global) -> Result<Cookie<'static>, AllocError>
        ensures { IfOk result (λ owned. owned ≡ self.entry) }
    {
        let Cookie {
            raw,
            path,
            domain,
            expires,
        } = self;
        Ok(Cookie {
            raw: raw.into_owned(alloc)?,
            path,
            domain,
            expires,
        })
    }

    /// Converts the cookie back to a raw cookie.
    ///
    /// The result has the name and value, Expires for a persistent cookie, Path if a Path attribute
    /// set it, and Domain for a domain cookie. All other attributes are dropped.
    pub fn into_raw(self, alloc: Global) -> Result<RawCookie<'static>, AllocError>
        ensures { IfOk result (λ raw. raw ≡ to_raw self.entry) }
    {
        to_raw(alloc, self)
    }
}

impl<'a> Clone for Cookie<'a> {
    ghost is_clone = { λ cookie copy. copy ≡ cookie };

    fn clone(&self) -> Result<Cookie<'a>, AllocError> {
        Ok(Cookie {
            raw: self.raw.clone()?,
            path: self.path.clone()?,
            domain: self.domain.clone()?,
            expires: self.expires,
        })
    }
}

impl<'a> PartialEq for Cookie<'a> {
    ghost use Rattle.std.specs.Cmp.{partial_equiv_from_equiv};
    ghost use Rattle.cookie_parts.specs.Cookie.{same_cookie, same_cookie_equiv};

    ghost eq = { same_cookie };

    ghost laws = { partial_equiv_from_equiv same_cookie_equiv };

    fn eq(&self, other: &Cookie<'a>) -> bool {
        self.raw == other.raw
            && self.path == other.path
            && self.domain == other.domain
            && self.expires == other.expires
    }
}

// The raw cookie of `Cookie::into_raw`.
fn to_raw(alloc: Global, cookie: Cookie<'_>) -> Result<RawCookie<'static>, AllocError>
    ensures { IfOk result (λ raw. raw ≡ to_raw cookie.entry) }
{
    let builder = builder_of(alloc, &cookie.raw)?;
    let builder = with_expiration(builder, cookie.expires);
    Ok(with_domain(with_path(builder, cookie.path), cookie.domain).build())
}

// A builder with the name and value of the raw cookie.
fn builder_of(alloc: Global, raw: &RawCookie<'_>) -> Result<RawCookieBuilder, AllocError>
    ensures { IfOk result (λ builder. builder ≡ pair raw.now.name raw.now.value) }
{
    let name = String::from_str(alloc, raw.name())?;
    let value = String::from_str(alloc, raw.value())?;
    Ok(RawCookieBuilder::new(name, value))
}

// Adds Expires for a persistent cookie.
fn with_expiration(builder: RawCookieBuilder, expires: CookieExpiration) -> RawCookieBuilder
    ensures { result ≡ record builder { expires = option_or (expires_attribute (expiry_value expires)) builder.expires } }
{
    match expires {
        CookieExpiration::AtUtc(end) => builder.expires(Expiration::DateTime(end)),
        CookieExpiration::SessionEnd => builder,
    }
}

// Adds Path if a Path attribute set it.
fn with_path(builder: RawCookieBuilder, path: CookiePath) -> RawCookieBuilder
    ensures { result ≡ record builder { path = option_or (path_attribute path) builder.path } }
{
    if path.is_from_path_attr() {
        builder.path(path.into_string())
    } else {
        builder
    }
}

// Adds Domain for a domain cookie.
fn with_domain(builder: RawCookieBuilder, domain: CookieDomain) -> RawCookieBuilder
    ensures { result ≡ record builder { domain = option_or (domain_attribute (domain_value domain)) builder.domain } }
{
    match domain {
        CookieDomain::Suffix(domain) => builder.domain(domain),
        _ => builder,
    }
}

// Whether the cookie is HttpOnly and the URL's scheme does not begin with `http`.
fn is_out_of_reach(raw: &RawCookie<'_>, url: &Url) -> bool
    ensures { result ≡ is_out_of_reach raw.now url.now }
{
    raw.is_http_only() && !is_http_scheme(url)
}

// The error, if one can be found without allocating.
fn early_error(raw: &RawCookie<'_>, url: &Url) -> Option<CookieError>
    ensures { result ≡ early_error raw.now url.now }
{
    if is_out_of_reach(raw, url) {
        Some(CookieError::NonHttpScheme)
    } else if raw.domain().is_none() && url.host_str().is_none() {
        Some(CookieError::NonRelativeScheme)
    } else {
        None
    }
}

// The expiry, RFC 6265 5.3 step 3: by Max-Age, else by Expires, else a session cookie.
fn expiry_at(raw: &RawCookie<'_>, now: DateTime) -> CookieExpiration
    ensures { expiry_value result ≡ expiry_of raw.now (moment_of now) }
{
    match (raw.max_age(), raw.expires()) {
        (Some(age), _) => CookieExpiration::from_duration(age, now),
        (None, Some(expiration)) => CookieExpiration::from_expiration(expiration),
        (None, None) => CookieExpiration::SessionEnd,
    }
}

// The Domain attribute if it matches the URL, or a host-only domain, RFC 6265 5.3 step 6.
fn domain_for(alloc: Global, raw: &RawCookie<'_>, url: &Url) -> Result<CookieDomain, CookieError>
    ensures value { ReturnsOrMemory domain_value result (domain_for (domain_from_attribute raw.now.domain) url.now) }
    ensures early { is_none raw.now.domain && is_none (host_of url.now) ≡ true → result ≡ Err CookieError.NonRelativeScheme }
{
    match CookieDomain::try_from_raw(alloc, raw) {
        Ok(CookieDomain::NotPresent | CookieDomain::Empty) => CookieDomain::host_only(alloc, url),
        Ok(domain) => {
            if domain.matches(url) {
                Ok(domain)
            } else {
                Err(CookieError::DomainMismatch)
            }
        }
        Err(Error::Idna(_)) => Err(CookieError::Parse),
        Err(_) => Err(CookieError::Memory),
    }
}

// The Path attribute if it begins with `/`, else the default-path, RFC 6265 5.2.4.
fn path_for(alloc: Global, raw: &RawCookie<'_>, url: &Url) -> Result<CookiePath, CookieError>
    ensures { MatchResult result (λ path. path ≡ path_or_default raw.now.path url.now) (λ error. error ≡ CookieError.Memory) }
{
    let chosen = match raw.path() {
        Some(path) => CookiePath::new(alloc, path, url),
        None => CookiePath::default_path(alloc, url),
    };
    match chosen {
        Ok(path) => Ok(path),
        Err(_) => Err(CookieError::Memory),
    }
}
