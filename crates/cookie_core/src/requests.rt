//! The cookies of a request, RFC 6265 5.4, in other forms than [`CookieStore::matches`] returns.
ghost use Rattle.std.specs.Prelude.{◌≡◌, ◌≢◌, [], map, IfOk, OnErr};
ghost use Rattle.cookie_words.specs.Moments.{moment_of};
ghost use Rattle.cookie_laws.specs.Given.{given};
ghost use Rattle.cookie_laws.specs.Header.{InHeaderOrder};
ghost use Rattle.cookie_rows.specs.RequestCookies.{name_and_value};

use crate::CookieStore;
use cookie_parts::Cookie;
use cookie_rows::{RequestCookies, RequestValues};
use jiff::civil::DateTime;
use std::alloc::AllocError;
use url::Url;

impl CookieStore {
    /// Returns the cookies that [`matches`](Self::matches) does, in the order of the Cookie header.
    ///
    /// Cookies with longer paths come first, and among equal lengths those created first, RFC 6265
    /// 5.4 step 2. A cookie that replaces another keeps its place in creation order, even if that
    /// one had expired and was not yet removed. Loaded cookies are created in the order of the
    /// list. Allocates only if a cookie matches.
    pub fn cookies_in_order(
        &self,
        url: &Url,
        now: DateTime,
    ) -> Result<Vec<&Cookie<'static>>, AllocError>
        ensures order { IfOk result
            (λ cookies. InHeaderOrder url.now (moment_of now) self.now (map (λ c. c.now) cookies.items)) }
        ensures memory { OnErr result (given url.now (moment_of now) self.now.rows ≢ []) }
    {
        self.rows.in_header_order(self.allocator(), url, now)
    }

    /// Returns the names and values of the cookies of [`matches`](Self::matches), in the same
    /// order.
    ///
    /// Allocates only if a cookie matches.
    pub fn get_request_values(
        &self,
        url: &Url,
        now: DateTime,
    ) -> Result<RequestValues<'_>, AllocError>
        ensures values { IfOk result (λ values. values ≡ map name_and_value (given url.now (moment_of now) self.now.rows)) }
        ensures memory { OnErr result (given url.now (moment_of now) self.now.rows ≢ []) }
    {
        self.rows.request_values(self.allocator(), url, now)
    }

    /// Returns the raw cookies of the cookies of [`matches`](Self::matches), in the same order.
    ///
    /// Allocates only if a cookie matches.
    #[deprecated(note = "use `get_request_values`")]
    pub fn get_request_cookies(
        &self,
        url: &Url,
        now: DateTime,
    ) -> Result<RequestCookies<'_>, AllocError>
        ensures cookies { IfOk result (λ cookies. cookies ≡ map (λ c. c.raw) (given url.now (moment_of now) self.now.rows)) }
        ensures memory { OnErr result (given url.now (moment_of now) self.now.rows ≢ []) }
    {
        self.rows.request_cookies(self.allocator(), url, now)
    }
}
