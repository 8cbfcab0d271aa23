//! Why a cookie was rejected.
ghost use Rattle.std.specs.Prelude.{◌≡◌};
ghost use Rattle.cookie_parts.specs.Errors.{cookie_error_text};
ghost use Rattle.cookie_parts.specs.declared.cookie_error.CookieError.TheVariants.{Parse};

use cookie_raw::RawCookieParseError;
use std::fmt;

/// Why a cookie was rejected.
#[derive(Clone, Copy, Debug, PartialEq, Eq)]
pub enum CookieError {
    /// The cookie, or the unexpired stored cookie of the same domain, path and name, is HttpOnly,
    /// and the scheme of the URL does not begin with `http`.
    NonHttpScheme,
    /// The cookie names no domain, and the URL has no host to use instead.
    NonRelativeScheme,
    /// The cookie's domain does not domain-match the host of the URL.
    DomainMismatch,
    /// The cookie has already expired, and no unexpired cookie of the same domain, path and name is
    /// stored that it could expire.
    Expired,
    /// The header value is not a cookie, or its Domain attribute is not a valid domain name.
    Parse,
    /// The cookie's domain is a public suffix other than the host of the URL.
    PublicSuffix,
    /// The cookie has no domain. A store's insertions never return this.
    UnspecifiedDomain,
    /// Out of memory.
    Memory,
}

impl CookieError {
    /// Returns the error message.
    pub fn text(&self) -> &'static str
        ensures { result.now ≡ cookie_error_text self.now }
    {
        match self {
            CookieError::NonHttpScheme =>
                "request-uri is not an http scheme but HttpOnly attribute set",
            CookieError::NonRelativeScheme =>
                "request-uri is not a relative scheme; cannot determine host",
            CookieError::DomainMismatch => "request-uri does not domain-match the cookie",
            CookieError::Expired => "attempted to utilize an Expired Cookie",
            CookieError::Parse => "unable to parse string as cookie::Cookie",
            CookieError::PublicSuffix => "domain-attribute value is a public suffix",
            CookieError::UnspecifiedDomain => "domain-attribute is not specified",
            CookieError::Memory => "out of memory",
        }
    }
}

impl fmt::Display for CookieError {
    ghost use Rattle.std.specs.Prelude.{Some};

    ghost output = { λ e. Some (cookie_error_text e) };

    ghost styled_output = { λ e _. Some (cookie_error_text e) };

    fn fmt<W: fmt::Write>(&self, f: &mut fmt::Formatter<W>) -> fmt::Result {
        f.write_str(self.text())
    }
}

impl std::error::Error for CookieError {}

impl From<RawCookieParseError> for CookieError {
    ghost from_gives = { λ _ error. error ≡ Parse };

    fn from(_error: RawCookieParseError) -> CookieError {
        CookieError::Parse
    }
}
