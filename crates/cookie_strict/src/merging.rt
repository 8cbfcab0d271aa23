//! Merging the cookies of another store under the draft's rules.
ghost use Rattle.std.specs.Prelude.{◌≡◌, ◌≢◌, ◌+◌, if◌then◌else◌, [], length, IfOk, OnErr, OnOk};
ghost use Rattle.cookie_words.specs.Moments.{moment_of};
ghost use Rattle.cookie_core.specs.Merging.{own_insertion, own_insertions};
ghost use Rattle.cookie_strict.specs.StrictMerging.{how_many_allowed, MergesSomeStrictly};
ghost use Rattle.cookie_strict.specs.StrictRuns.{strict_store_after};

use crate::{StrictError, insert};
use cookie_core::{CookieStore, own_page};
use cookie_parts::{Cookie, CookieError};
use jiff::civil::DateTime;
use std::alloc::AllocError;

/// Inserts the cookies of another store under the draft's rules, in its order. Returns how many were
/// left out.
///
/// Each is inserted as [`insert`] does with a cookie received at `now` from `https://DOMAIN/`, with the
/// cookie's own domain. Left out are those that it rejects, and those whose domain is not the host of a
/// URL.
///
/// # Errors
///
/// `AllocError`: out of memory. Some of the cookies are inserted, and those behind them are not.
pub fn merge(
    store: &mut CookieStore,
    other: &CookieStore,
    now: DateTime,
) -> Result<usize, AllocError>
    ensures merged { OnOk result (store.new ≡ strict_store_after (own_insertions (moment_of now) other.now.rows) store.old) }
    ensures left_out { IfOk result (λ left_out. left_out
        + how_many_allowed (own_insertions (moment_of now) other.now.rows) store.old ≡ length other.now.rows) }
    ensures stopped { OnErr result (MergesSomeStrictly (moment_of now) other.now.rows store.old store.new) }
    ensures memory { OnErr result (other.now.rows ≢ []) }
{
    let mut left_out = other.len();
    for cookie in other.iter_any() {
        if insert_from_own_page(store, cookie, now)? {
            left_out -= 1;
        }
    }
    Ok(left_out)
}

// Inserts a copy of a cookie as if it was received from its own page. Returns whether it was stored.
fn insert_from_own_page(
    store: &mut CookieStore,
    cookie: &Cookie<'static>,
    now: DateTime,
) -> Result<bool, AllocError>
    ensures store { OnOk result (store.new ≡ strict_store_after (own_insertion (moment_of now) cookie.now) store.old) }
    ensures stored { IfOk result (λ stored.
        (if stored then 1 else 0) ≡ how_many_allowed (own_insertion (moment_of now) cookie.now) store.old) }
    ensures unchanged { OnErr result (store.new ≡ store.old) }
{
    let Some(page) = own_page(store.allocator(), cookie)? else {
        return Ok(false);
    };
    match insert(store, cookie.clone()?, &page, now) {
        Ok(_) => Ok(true),
        Err(StrictError::Cookie(CookieError::Memory)) => Err(AllocError),
        Err(_) => Ok(false),
    }
}
