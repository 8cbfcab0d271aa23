//! The Secure cookies of a domain under a limit.
ghost use Rattle.std.specs.Prelude.{◌≡◌};
ghost use Rattle.cookie_words.specs.Moments.{moment_of};
ghost use Rattle.cookie_laws.specs.Rows.{key_of};
ghost use Rattle.cookie_laws.specs.SecureLast.{is_full_of_secure};

use crate::CookieStore;
use cookie_parts::Cookie;
use jiff::civil::DateTime;

impl CookieStore {
    /// Returns whether the cookie's domain has as many Secure cookies that have not expired at `now`
    /// as the domain limit, or more. `false` without a limit.
    pub fn is_full_of_secure(&self, cookie: &Cookie<'static>, now: DateTime) -> bool
        ensures { result ≡ is_full_of_secure self.now (moment_of now) (key_of cookie.now) }
    {
        self.rows.is_full_of_secure(cookie, self.limit, now)
    }
}
