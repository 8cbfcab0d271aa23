//! Each call that allocates returns what it must, or out of memory if an allocation failed, and
//! then the store is unchanged. `tools/fail_allocation.c` makes each allocation fail in turn.
mod insertion;
pub mod runs;
pub mod saving;

use crate::allocations::saving::has_loaded;
use crate::built::{Item, built, items, store_of};
use crate::checks::is_equal;
use crate::formats::{Shape, end_of, is_saved_as};
use crate::requests::{Request, is_returned};
use crate::saved_files::{LINES, OF_TWO_HOSTS};
use crate::steps::{new_year, store_under};
use crate::texts::url;
use cookie_store::serde::FormatError;
use cookie_store::{CookieStore, Error, HashKey};
use std::alloc::{AllocError, Global};
use std::hash::RandomState;
use std::process::Abort;
use std::vec::IntoIter;

// An allocation of a size that is used for nothing else. Returns whether it succeeded.
fn mark(alloc: Global, size: usize) -> bool {
    let mark: Result<Vec<u8>, AllocError> = Vec::with_capacity(alloc, size);
    mark.is_ok()
}

// Marks the start of the allocations that are to fail.
pub fn start(alloc: Global) {
    let _is_ample = mark(alloc, 48_271);
}

// Marks their end. Returns whether none of them failed.
pub fn end(alloc: Global) -> bool {
    mark(alloc, 48_281)
}

pub const FROM: &str = "http://a.b.example.com/p/q";

const X: &str = "x=1; Domain=b.example.com; Path=/";

const Z: &str = "z=1; Domain=b.example.com; Path=/p";

const Y: &str = "y=1; Domain=example.com; Path=/";

const U: &str = "u=1; Domain=example.com; Path=/p";

// As many cookies as a vector holds before it grows, all matching `FROM`.
const FOUR: [&str; 4] = [X, Z, Y, U];

const GIVEN: &str = "x=1; z=1; y=1; u=1";

// One cookie more, so that the vector has grown.
const FIVE: [&str; 5] = [X, Z, Y, U, "t=1"];

const GIVEN_OF_FIVE: &str = "x=1; z=1; y=1; u=1; t=1";

// The same cookies, longer paths first.
const SENT_OF_FIVE: &str = "z=1; u=1; t=1; x=1; y=1";

// A store with a public suffix list and these cookies.
fn store_of_texts(rt: &impl Abort, alloc: Global, texts: &[&str]) -> CookieStore {
    let url = url(rt, alloc, FROM);
    let mut store = store_under(rt, alloc, "com");
    for text in texts {
        store.parse(text, &url, new_year()).expect(rt, "memory");
    }
    store
}

// A call, and the cookies that it returns for `FROM`.
static REQUESTS: [(Request, &str); 7] = [
    (Request::Matches, GIVEN_OF_FIVE),
    (Request::Counted, GIVEN_OF_FIVE),
    (Request::InOrder, SENT_OF_FIVE),
    (Request::Header, SENT_OF_FIVE),
    (Request::Values, GIVEN_OF_FIVE),
    (Request::Cookies, GIVEN_OF_FIVE),
    (Request::Strict, SENT_OF_FIVE),
];

fn have_cookies(rt: &impl Abort, alloc: Global, store: &CookieStore) {
    let url = url(rt, alloc, FROM);
    for row in &REQUESTS {
        is_returned(rt, alloc, row.0, store, &url, row.1);
    }
}

#[test]
fn requests_have_cookies(rt: HostRuntime) {
    let store = store_of_texts(&rt, rt.alloc(), &FIVE);
    have_cookies(&rt, rt.alloc(), &store);
    drop(store);
}

// Clones the store, and checks the cookies of the copy as lines of JSON, or that an allocation
// failed.
pub fn is_cloned(rt: &impl Abort, alloc: Global, store: &CookieStore, lines: &str) {
    start(alloc);
    let outcome: Result<CookieStore, AllocError> = store.clone();
    let outcome = outcome.map_err(Error::from).map_err(FormatError::Store);
    has_loaded(rt, alloc, Shape::JsonLines, outcome, lines);
}

// Sets the hash key, and checks that the cookies stay.
pub fn is_keyed(
    rt: &impl Abort,
    alloc: Global,
    store: &mut CookieStore,
    key: HashKey,
    lines: &str,
) {
    start(alloc);
    let outcome = store.set_hash_key(key);
    let is_ample = end(alloc);
    is_equal(rt, &(outcome.is_ok() || !is_ample), &true, &"the key");
    is_saved_as(rt, alloc, Shape::JsonLines, store, lines);
}

#[test]
fn a_store_is_cloned_and_gets_a_hash_key(rt: HostRuntime) {
    let state = RandomState::new(&rt).expect(&rt, "random bytes");
    let mut store = store_of(&rt, rt.alloc(), &OF_TWO_HOSTS);
    is_cloned(&rt, rt.alloc(), &store, LINES);
    is_keyed(&rt, rt.alloc(), &mut store, HashKey::Random(state), LINES);
    drop(store);
}

// Builds a store, and checks its cookies as lines of JSON, or that an allocation failed.
pub fn is_built(rt: &impl Abort, alloc: Global, items: IntoIter<Item>, lines: &str) {
    start(alloc);
    let outcome = built(alloc, items);
    has_loaded(rt, alloc, Shape::JsonLines, outcome, lines);
}

#[test]
fn a_store_is_built(rt: HostRuntime) {
    let items = items(&rt, rt.alloc(), &OF_TWO_HOSTS).into_iter();
    is_built(&rt, rt.alloc(), items, LINES);
}

// Checks that the error of an item is returned, or that an allocation failed.
fn is_stopped(rt: &impl Abort, alloc: Global, items: IntoIter<Item>) {
    start(alloc);
    let outcome = built(alloc, items);
    let is_ample = end(alloc);
    let end = end_of(&outcome);
    let is_well = end == "a failed call" || !is_ample && end == "out of memory";
    is_equal(rt, &is_well, &true, &end);
    drop(outcome);
}

#[test]
fn an_error_stops_the_building(rt: HostRuntime) {
    let mut items = items(&rt, rt.alloc(), &OF_TWO_HOSTS);
    items.push(Err(Error::Io)).expect(&rt, "memory");
    is_stopped(&rt, rt.alloc(), items.into_iter());
}
