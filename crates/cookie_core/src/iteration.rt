//! The stored cookies one after the other, and their number.
ghost use Rattle.std.specs.Prelude.{◌≡◌, ◌==◌, length};
ghost use Rattle.cookie_words.specs.Moments.{moment_of};
ghost use Rattle.cookie_laws.specs.Rows.{unexpired_rows};

use crate::CookieStore;
use cookie_parts::Cookie;
use cookie_rows::{IterAny, IterUnexpired};
use jiff::civil::DateTime;

impl CookieStore {
    /// Returns the number of stored cookies, expired or not.
    pub fn len(&self) -> usize
        ensures { result ≡ length self.now.rows }
    {
        self.rows.len()
    }

    /// Returns whether no cookie is stored, not even an expired one.
    pub fn is_empty(&self) -> bool
        ensures { result ≡ (length self.now.rows == 0) }
    {
        self.rows.iter().next().is_none()
    }

    /// Returns the number of cookies that have not expired at `now`. Allocates nothing.
    pub fn len_unexpired(&self, now: DateTime) -> usize
        ensures { result ≡ length (unexpired_rows (moment_of now) self.now.rows) }
    {
        self.rows.len_unexpired(now)
    }

    /// Returns an iterator over all stored cookies, expired or not, in the store's order.
    pub fn iter_any(&self) -> IterAny<'_>
        ensures { result ≡ self.now.rows }
    {
        self.rows.iter()
    }

    /// Returns an iterator over the cookies that have not expired at `now`, in the store's order.
    pub fn iter_unexpired(&self, now: DateTime) -> IterUnexpired<'_>
        ensures { result ≡ unexpired_rows (moment_of now) self.now.rows }
    {
        self.rows.iter_unexpired(now)
    }
}

/// A `for` loop over `&store` is one over [`CookieStore::iter_any`].
impl<'a> IntoIterator for &'a CookieStore {
    type Item = &'a Cookie<'static>;

    type IntoIter = IterAny<'a>;

    ghost into_iter_gives = { λ store iter. iter ≡ store.now.rows };

    fn into_iter(self) -> IterAny<'a> {
        self.iter_any()
    }
}
