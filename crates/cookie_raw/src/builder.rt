//! Building raw cookies.
ghost use Rattle.std.specs.Prelude.{◌≡◌, Some, string_bytes};
ghost use Rattle.cookie_words.specs.Strings.{without_dot};
ghost use Rattle.jiff.specs.Words.{signed_nanos};
ghost use Rattle.cookie_raw.specs.Raw.{pair};
ghost use Rattle.cookie_raw.specs.Views.{expires_value};

use crate::max_age::MaxAge;
use crate::{Expiration, RawCookie, SameSite};
use jiff::SignedDuration;
use std::borrow::CowStr;
use std::marker::Model;

/// A builder of raw cookies.
///
/// The parts are not validated. If [`RawCookie::is_plain`] returns true for the cookie, printing it
/// and parsing the result gives an equal cookie.
#[derive(Drop)]
pub struct RawCookieBuilder {
    cookie: RawCookie<'static>,
}

impl Model for RawCookieBuilder {
    ghost use Rattle.cookie_raw.specs.Raw.{Raw};

    ghost Value = { Raw };

    ghost view = { λ builder. builder.cookie };
}

impl RawCookieBuilder {
    /// Begins a cookie with a name and a value, and no attributes.
    pub fn new(name: String, value: String) -> RawCookieBuilder
        ensures { result ≡ pair (string_bytes name) (string_bytes value) }
    {
        RawCookieBuilder {
            cookie: RawCookie {
                name: CowStr::Owned(name),
                value: CowStr::Owned(value),
                domain: None,
                path: None,
                secure: None,
                http_only: None,
                same_site: None,
                max_age: MaxAge::new(None),
                expires: None,
            },
        }
    }

    /// Begins with all parts of `cookie`.
    pub fn from_cookie(cookie: RawCookie<'static>) -> RawCookieBuilder
        ensures { result ≡ cookie.entry }
    {
        RawCookieBuilder::from(cookie)
    }

    /// Sets the value.
    pub fn value(self, value: String) -> RawCookieBuilder
        ensures { result ≡ record self { value = string_bytes value } }
    {
        let value = CowStr::Owned(value);
        let cookie = RawCookie {
            value,
            ..self.cookie
        };
        RawCookieBuilder { cookie }
    }

    /// Sets the Expires attribute.
    pub fn expires(self, expires: Expiration) -> RawCookieBuilder
        ensures { result ≡ record self { expires = Some (expires_value expires) } }
    {
        let cookie = RawCookie {
            expires: Some(expires),
            ..self.cookie
        };
        RawCookieBuilder { cookie }
    }

    /// Sets the Max-Age attribute.
    pub fn max_age(self, max_age: SignedDuration) -> RawCookieBuilder
        ensures { result ≡ record self { max_age = Some (signed_nanos max_age) } }
    {
        let cookie = RawCookie {
            max_age: MaxAge::new(Some(max_age)),
            ..self.cookie
        };
        RawCookieBuilder { cookie }
    }

    /// Sets the Path attribute.
    pub fn path(self, path: String) -> RawCookieBuilder
        ensures { result ≡ record self { path = Some (string_bytes path) } }
    {
        let cookie = RawCookie {
            path: Some(CowStr::Owned(path)),
            ..self.cookie
        };
        RawCookieBuilder { cookie }
    }

    /// Sets the Domain attribute. One leading dot is ignored.
    pub fn domain(self, domain: String) -> RawCookieBuilder
        ensures { result ≡ record self { domain = Some (without_dot (string_bytes domain)) } }
    {
        let cookie = RawCookie {
            domain: Some(CowStr::Owned(domain)),
            ..self.cookie
        };
        RawCookieBuilder { cookie }
    }

    /// Sets whether the cookie is Secure.
    ///
    /// A cookie whose SameSite is `None` is printed with Secure unless this is set to false.
    pub fn secure(self, secure: bool) -> RawCookieBuilder
        ensures { result ≡ record self { secure = Some secure } }
    {
        let cookie = RawCookie {
            secure: Some(secure),
            ..self.cookie
        };
        RawCookieBuilder { cookie }
    }

    /// Sets whether the cookie is HttpOnly.
    pub fn http_only(self, http_only: bool) -> RawCookieBuilder
        ensures { result ≡ record self { http_only = Some http_only } }
    {
        let cookie = RawCookie {
            http_only: Some(http_only),
            ..self.cookie
        };
        RawCookieBuilder { cookie }
    }

    /// Sets the SameSite attribute.
    pub fn same_site(self, same_site: SameSite) -> RawCookieBuilder
        ensures { result ≡ record self { same_site = Some same_site } }
    {
        let cookie = RawCookie {
            same_site: Some(same_site),
            ..self.cookie
        };
        RawCookieBuilder { cookie }
    }

    /// Returns the cookie.
    pub fn build(self) -> RawCookie<'static>
        ensures { result ≡ self }
    {
        self.cookie
    }
}

impl From<RawCookie<'static>> for RawCookieBuilder {
    ghost from_gives = { λ raw builder. builder ≡ raw };

    fn from(raw: RawCookie<'static>) -> RawCookieBuilder {
        RawCookieBuilder { cookie: raw }
    }
}
