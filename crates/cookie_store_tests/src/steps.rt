//! Steps of a test: calls of a store, with what they must return.
use crate::checks::is_equal;
use crate::texts::{are_given, are_listed, are_sent, url};
use cookie_store::psl::List;
use cookie_store::{CookieStore, InsertResult, StoreAction};
use jiff::civil::{DateTime, date};
use std::alloc::Global;
use std::process::Abort;

pub const INSERTED: InsertResult = Ok(StoreAction::Inserted);

pub const UPDATED: InsertResult = Ok(StoreAction::UpdatedExisting);

pub const EXPIRED: InsertResult = Ok(StoreAction::ExpiredExisting);

// A URL, a `Set-Cookie` value received from it, and the reply; all stored cookies by domain, path
// and name; a URL and the cookies that match it; a URL and its Cookie header.
#[derive(Clone, Copy, Debug)]
pub enum Step {
    Set(&'static str, &'static str, InsertResult),
    Listed(&'static str),
    Given(&'static str, &'static str),
    Sent(&'static str, &'static str),
}

// The time of most tests.
pub fn new_year() -> DateTime {
    date(2026, 1, 1).at(0, 0, 0, 0)
}

// A public suffix list.
pub fn list(rt: &impl Abort, alloc: Global, text: &str) -> List {
    List::from_text(alloc, text).expect(rt, "a list")
}

// A store with the list.
pub fn store_under(rt: &impl Abort, alloc: Global, text: &str) -> CookieStore {
    CookieStore::new_with_public_suffix(alloc, Some(list(rt, alloc, text)))
}

// The reply to a `Set-Cookie` value received from the URL.
pub fn reply(
    rt: &impl Abort,
    alloc: Global,
    store: &mut CookieStore,
    from: &str,
    text: &str,
    now: DateTime,
) -> InsertResult {
    store.parse(text, &url(rt, alloc, from), now)
}

// Executes one step at the time, and checks it.
fn take(rt: &impl Abort, alloc: Global, store: &mut CookieStore, step: &Step, now: DateTime) {
    match *step {
        Step::Set(from, text, wanted) => {
            let reply = reply(rt, alloc, store, from, text, now);
            is_equal(rt, &reply, &wanted, step);
        }
        Step::Listed(wanted) => are_listed(rt, alloc, store, wanted, step),
        Step::Given(from, wanted) => are_given(rt, alloc, store, (from, wanted), now, step),
        Step::Sent(from, wanted) => are_sent(rt, alloc, store, (from, wanted), now, step),
    }
}

// Executes all steps at the time, and checks them.
pub fn take_all(
    rt: &impl Abort,
    alloc: Global,
    store: &mut CookieStore,
    steps: &[Step],
    now: DateTime,
) {
    for step in steps {
        take(rt, alloc, store, step, now);
    }
}
