//! Runs of calls, and the cookies of a response, with each allocation failing.
use super::{FOUR, FROM, GIVEN, end, start, store_of_texts};
use crate::checks::is_equal;
use crate::insertion::set_call;
use crate::responses::respond;
use crate::steps::new_year;
use crate::texts::{are_given, given};
use cookie_store::{Call, CookieStore};
use std::alloc::Global;
use std::process::Abort;

// `Set-Cookie` values received from `FROM`, and what a store of four cookies returns for it after
// none, one, two ..
static VALUES: [&str; 4] = [
    "t=1",
    "s=1; Max-Age=0",
    "y=2; Domain=example.com; Path=/",
    "w=1; Domain=b.example.com; Path=/",
];

static AFTER: [&str; 5] = [
    GIVEN,
    "x=1; z=1; y=1; u=1; t=1",
    "x=1; z=1; y=1; u=1; t=1",
    "x=1; z=1; y=2; u=1; t=1",
    LAST,
];

const LAST: &str = "x=1; w=1; z=1; y=2; u=1; t=1";

fn calls(rt: &impl Abort, alloc: Global) -> Vec<Call> {
    let mut calls = Vec::new(alloc);
    for value in &VALUES {
        let call = set_call(rt, alloc, FROM, value);
        calls.push(call).expect(rt, "memory");
    }
    calls
}

// How many calls were executed: all, or fewer if an allocation failed.
pub fn count_done(
    rt: &impl Abort,
    alloc: Global,
    store: &mut CookieStore,
    calls: Vec<Call>,
) -> usize {
    let count = calls.len();
    start(alloc);
    let outcome = store.apply_all(calls);
    let is_ample = end(alloc);
    let done = match &outcome {
        Ok(replies) => {
            is_equal(rt, &replies.len(), &count, &"all calls");
            count
        }
        Err(stopped) => {
            let counts = (stopped.replies.len(), is_ample);
            is_equal(rt, &counts, &(stopped.count, false), &"the first calls");
            stopped.count
        }
    };
    drop(outcome);
    done
}

fn are_executed(rt: &impl Abort, alloc: Global, store: &mut CookieStore) {
    let count = count_done(rt, alloc, store, calls(rt, alloc));
    let after = AFTER.get(count).expect(rt, "at most all calls");
    are_given(rt, alloc, store, (FROM, after), new_year(), &count);
}

#[test]
fn calls_are_executed(rt: HostRuntime) {
    let mut store = store_of_texts(&rt, rt.alloc(), &FOUR);
    are_executed(&rt, rt.alloc(), &mut store);
    drop(store);
}

// Checks that the store has the cookies of the response, or the first ones.
fn has_cookies(rt: &impl Abort, alloc: Global, store: &CookieStore, has_all: bool) {
    let given = given(rt, alloc, store, FROM, new_year());
    let is_after = AFTER.contains(&given.as_str());
    is_equal(rt, &is_after, &true, &given);
    is_equal(rt, &(given.as_str() == LAST || !has_all), &true, &given);
}

// Stores the cookies of a response: all, or the first ones if an allocation failed.
fn are_stored(rt: &impl Abort, alloc: Global, is_strict: bool) {
    let mut store = store_of_texts(rt, alloc, &FOUR);
    let outcome = respond(rt, alloc, is_strict, &mut store, &VALUES, FROM);
    let is_ample = end(alloc);
    is_equal(rt, &(outcome.is_ok() || !is_ample), &true, &is_strict);
    has_cookies(rt, alloc, &store, outcome.is_ok());
    drop(store);
}

#[test]
fn the_cookies_of_a_response_are_stored(rt: HostRuntime) {
    for is_strict in [false, true] {
        are_stored(&rt, rt.alloc(), is_strict);
    }
}
