//! Why a cookie was rejected under the draft's rules.
ghost use Rattle.std.specs.Prelude.{◌≡◌};
ghost use Rattle.cookie_strict.specs.StrictErrors.{strict_error_text};
ghost use Rattle.cookie_strict.specs.declared.error.StrictError.TheVariants.{Cookie};

use cookie_parts::{CookieError, StoreAction};
use std::fmt;

/// The result of inserting a cookie under the draft's rules.
pub type StrictResult = Result<StoreAction, StrictError>;

/// Why a cookie was rejected under the draft's rules.
#[derive(Clone, Copy, Debug, PartialEq, Eq)]
pub enum StrictError {
    /// The header value has a control character other than HTAB.
    ControlCharacter,
    /// The name and the value together are longer than 4,096 bytes.
    TooLong,
    /// The store rejects the cookie, or out of memory.
    Cookie(CookieError),
    /// The response is to a cross-site request that may not set the cookie.
    CrossSite,
    /// The cookie is Secure, and the URL is not secure.
    InsecureUrl,
    /// The cookie has SameSite=None and is not Secure.
    InsecureSameSiteNone,
    /// The name begins with `__Secure-`, `__Host-`, `__Http-` or `__Host-Http-`, and the cookie has
    /// not the attributes that the prefix demands.
    Prefix,
    /// Neither the cookie nor the URL is secure, and the cookie overlays a stored Secure cookie.
    SecureStored,
    /// The cookie is not Secure, and a Secure cookie would be evicted for it.
    SecureLimit,
}

impl StrictError {
    /// Returns the error message.
    pub fn text(&self) -> &'static str
        ensures { result.now ≡ strict_error_text self.now }
    {
        match self {
            StrictError::ControlCharacter => "Set-Cookie value has a control character",
            StrictError::TooLong => "name and value are longer than 4096 bytes",
            StrictError::Cookie(error) => error.text(),
            StrictError::CrossSite => "cookie of a cross-site response is not SameSite=None",
            StrictError::InsecureUrl => "cookie is Secure but request-uri is not secure",
            StrictError::InsecureSameSiteNone => "cookie has SameSite=None but is not Secure",
            StrictError::Prefix => "cookie lacks what the prefix of its name demands",
            StrictError::SecureStored => "cookie would overlay a stored Secure cookie",
            StrictError::SecureLimit => "domain has its limit of Secure cookies",
        }
    }
}

impl fmt::Display for StrictError {
    ghost use Rattle.std.specs.Prelude.{Some};

    ghost output = { λ e. Some (strict_error_text e) };

    ghost styled_output = { λ e _. Some (strict_error_text e) };

    fn fmt<W: fmt::Write>(&self, f: &mut fmt::Formatter<W>) -> fmt::Result {
        f.write_str(self.text())
    }
}

impl std::error::Error for StrictError {}

impl From<CookieError> for StrictError {
    ghost from_gives = { λ error strict. strict ≡ Cookie error };

    fn from(error: CookieError) -> StrictError {
        StrictError::Cookie(error)
    }
}
