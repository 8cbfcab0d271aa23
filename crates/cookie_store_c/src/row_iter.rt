//! The cookies that a call lists: all those of a store, or those of a request.
ghost use Rattle.std.specs.Prelude.{◌≡◌, length, map};
ghost use Rattle.cookie_store_c.specs.RowIters.{chosen_rows, remaining_rows};

use cookie_store::{Cookie, CookieStore, IterAny};
use std::slice;

/// An iterator over cookies.
#[derive(Drop)]
pub enum RowIter<'a> {
    /// All cookies of a store, in its order.
    All(IterAny<'a>),
    /// The cookies of a request.
    Request(slice::Iter<'a, &'a Cookie<'static>>),
}

impl<'a> RowIter<'a> {
    /// Returns an iterator over the cookies of a request, or else over all those of the store.
    pub(crate) fn new(
        store: &'a CookieStore,
        request: &'a [&'a Cookie<'static>],
        is_request: bool,
    ) -> RowIter<'a>
        ensures { remaining_rows result ≡ chosen_rows store.now (map (λ c. c.now) request.now) is_request }
    {
        if is_request {
            RowIter::Request(request.iter())
        } else {
            RowIter::All(store.iter_any())
        }
    }
}

impl<'a> Iterator for RowIter<'a> {
    type Item = &'a Cookie<'static>;

    ghost use Rattle.std.specs.Iterator.{YieldsFirstRef, item_count};
    ghost use Rattle.cookie_store_c.specs.RowIters.{remaining_rows};

    ghost next_gives = { YieldsFirstRef remaining_rows };

    ghost remaining = { item_count remaining_rows };

    fn next(&mut self) -> Option<&'a Cookie<'static>> {
        match self {
            RowIter::All(rows) => rows.next(),
            RowIter::Request(cookies) => cookies.next().copied(),
        }
    }
}

/// Returns the number of cookies of a request, or else of all those of the store.
pub(crate) fn row_count<'a>(
    store: &'a CookieStore,
    request: &'a [&'a Cookie<'static>],
    is_request: bool,
) -> usize
    ensures { result ≡ length (chosen_rows store.now (map (λ c. c.now) request.now) is_request) }
{
    if is_request {
        request.len()
    } else {
        store.len()
    }
}
