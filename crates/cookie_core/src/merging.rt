//! Merging the cookies of another store.
ghost use Rattle.std.specs.Prelude.{◌≡◌, ◌≢◌, ◌+◌, if◌then◌else◌, [], count_by, length, IfOk, OnErr, OnOk};
ghost use Rattle.cookie_words.specs.Moments.{moment_of};
ghost use Rattle.cookie_laws.specs.Runs.{replies, store_after};
ghost use Rattle.cookie_core.specs.Merging.{is_stored, own_insertion, own_insertions, own_page, MergesSome};

use crate::CookieStore;
use cookie_parts::utils::parse_url;
use cookie_parts::{Cookie, CookieError};
use jiff::civil::DateTime;
use std::alloc::{AllocError, Global};
use url::Url;

impl CookieStore {
    /// Inserts the cookies of another store, in its order. Returns how many were left out.
    ///
    /// Each is inserted as [`insert`](Self::insert) does with a cookie received at `now` from
    /// `https://DOMAIN/`, with the cookie's own domain. Left out are those that it rejects, and those
    /// whose domain is not the host of a URL.
    ///
    /// # Errors
    ///
    /// `AllocError`: out of memory. Some of the cookies are inserted, and those behind them are not.
    pub fn merge(&mut self, other: &CookieStore, now: DateTime) -> Result<usize, AllocError>
        ensures merged { OnOk result (self.new ≡ store_after (own_insertions (moment_of now) other.now.rows) self.old) }
        ensures left_out { IfOk result (λ left_out. left_out
            + count_by is_stored (replies (own_insertions (moment_of now) other.now.rows) self.old) ≡ length other.now.rows) }
        ensures stopped { OnErr result (MergesSome (moment_of now) other.now.rows self.old self.new) }
        ensures memory { OnErr result (other.now.rows ≢ []) }
    {
        let mut left_out = other.len();
        for cookie in other.iter_any() {
            if self.insert_from_own_page(cookie, now)? {
                left_out -= 1;
            }
        }
        Ok(left_out)
    }

    // Inserts a copy of a cookie as if it was received from its own page. Returns whether it was
    // stored.
    fn insert_from_own_page(
        &mut self,
        cookie: &Cookie<'static>,
        now: DateTime,
    ) -> Result<bool, AllocError>
        ensures store { OnOk result (self.new ≡ store_after (own_insertion (moment_of now) cookie.now) self.old) }
        ensures stored { IfOk result (λ stored.
            (if stored then 1 else 0) ≡ count_by is_stored (replies (own_insertion (moment_of now) cookie.now) self.old)) }
        ensures unchanged { OnErr result (self.new ≡ self.old) }
    {
        let Some(page) = own_page(self.alloc, cookie)? else {
            return Ok(false);
        };
        match self.insert(cookie.clone()?, &page, now) {
            Ok(_) => Ok(true),
            Err(CookieError::Memory) => Err(AllocError),
            Err(_) => Ok(false),
        }
    }
}

/// Returns the page `https://DOMAIN/` of the cookie's domain, or `None` if that is not a URL.
///
/// # Errors
///
/// `AllocError`: out of memory.
pub fn own_page(alloc: Global, cookie: &Cookie<'_>) -> Result<Option<Url>, AllocError>
    ensures { IfOk result (λ page. page ≡ own_page cookie.now) }
{
    let mut page = String::from_str(alloc, "https://")?;
    page.push_str(cookie.domain.as_str())?;
    page.push('/')?;
    parse_url(alloc, page.as_str())
}
