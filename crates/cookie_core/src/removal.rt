//! Removing cookies.
ghost use Rattle.std.specs.Prelude.{◌≡◌, ◌+◌, Bool, length};
ghost use Rattle.std.specs.Fn.{FnReturnsAt};
ghost use Rattle.cookie_words.specs.Moments.{moment_of};
ghost use Rattle.cookie_parts.specs.Cookie.{Row};
ghost use Rattle.cookie_laws.specs.Contents.{retained, unexpired, ReturnsTest};
ghost use Rattle.cookie_laws.specs.Rows.{key_at};
ghost use Rattle.cookie_laws.specs.Runs.{step, Clear, Remove, Removed};
ghost use Rattle.cookie_rows.specs.Retained.{has_other_domain};

use crate::CookieStore;
use cookie_laws::preserved_by_calls;
use cookie_parts::Cookie;
use jiff::civil::DateTime;

impl CookieStore {
    /// Removes and returns the cookie with this domain, path and name, expired or not.
    ///
    /// The others keep their order.
    pub fn remove(&mut self, domain: &str, path: &str, name: &str) -> Option<Cookie<'static>>
        ensures reply { Removed result
            ≡ (step (Remove (key_at domain.now path.now name.now)) self.old).reply }
        ensures store { self.new ≡ (step (Remove (key_at domain.now path.now name.now)) self.old).store }
    {
        // for the checker: what the index says of the rows, it says of the remaining ones
        preserved_by_calls();
        self.rows.remove(domain, path, name)
    }

    /// Removes the cookies of this domain, expired or not, and returns how many.
    ///
    /// The others keep their order. Allocates nothing, and takes no more time in a store with cookies
    /// of more domains.
    pub fn remove_domain(&mut self, domain: &str) -> usize
        ensures store { self.new ≡ retained (has_other_domain domain.now) self.old }
        ensures removed { result + length self.new.rows ≡ length self.old.rows }
    {
        self.rows.remove_domain(domain)
    }

    /// Removes the cookies that have expired at `now`, RFC 6265 5.3, and returns how many.
    ///
    /// The others keep their order. Allocates nothing. At `now` and later,
    /// [`matches`](Self::matches) returns the same cookies as without the removal, since it never
    /// returns an expired cookie.
    pub fn remove_expired(&mut self, now: DateTime) -> usize
        ensures store { self.new ≡ unexpired (moment_of now) self.old }
        ensures removed { result + length self.new.rows ≡ length self.old.rows }
    {
        self.rows.remove_expired(now)
    }

    /// Keeps the cookies for which `keep` returns true, and removes the others.
    ///
    /// The kept ones stay in order, and in creation order. `keep` is called for each cookie, expired
    /// or not. Allocates nothing.
    pub fn retain<F: Fn(&Cookie<'_>) -> bool>(&mut self, keep: F)
        requires { F.IsAlwaysCallable keep }
        ensures { (test : Row → Bool) → ReturnsTest (FnReturnsAt F.Fn keep) test → self.new ≡ retained test self.old }
    {
        self.secure = None;
        self.rows.retain(keep);
    }

    /// Removes all cookies. The public suffix list and the limit are kept.
    pub fn clear(&mut self)
        ensures { self.new ≡ (step Clear self.old).store }
    {
        self.secure = None;
        self.rows.clear();
    }
}
