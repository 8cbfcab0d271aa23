//! Stores of 2,000 cookies, and a response and a request with 60 cookies of 120 KB.
use super::cookies::{COOKIES, EACH, address, cookie_of, file, text, value};
use crate::allocations::runs::count_done;
use crate::allocations::{is_built, is_cloned, is_keyed};
use crate::built::Item;
use crate::checks::is_equal;
use crate::formats::{Shape, is_saved_as};
use crate::insertion::set_call;
use crate::merged::merged;
use crate::requests::{Request, is_returned};
use crate::responses::respond;
use crate::steps::{INSERTED, new_year, reply};
use crate::texts::url;
use cookie_store::{Call, CookieStore, HashKey};
use std::alloc::Global;
use std::hash::RandomState;
use std::process::Abort;

fn put(rt: &impl Abort, alloc: Global, store: &mut CookieStore, number: usize) {
    let address = address(rt, alloc, number);
    let value = value(rt, alloc, number, "");
    let reply = reply(
        rt,
        alloc,
        store,
        address.as_str(),
        value.as_str(),
        new_year(),
    );
    is_equal(rt, &reply, &INSERTED, &number);
}

// A store of the first cookies.
pub fn store_of_first(rt: &impl Abort, alloc: Global, count: usize) -> CookieStore {
    let mut store = CookieStore::new(alloc);
    for number in 0..count {
        put(rt, alloc, &mut store, number);
    }
    store
}

fn lines(rt: &impl Abort, alloc: Global) -> String {
    file(rt, alloc, Shape::JsonLines, COOKIES)
}

fn is_cloned_and_keyed(rt: &impl Abort, alloc: Global, store: &mut CookieStore, key: HashKey) {
    let lines = lines(rt, alloc);
    is_cloned(rt, alloc, store, lines.as_str());
    is_keyed(rt, alloc, store, key, lines.as_str());
}

#[test]
fn a_store_of_many_is_cloned_and_gets_a_hash_key(rt: HostRuntime) {
    let state = RandomState::new(&rt).expect(&rt, "random bytes");
    let mut store = store_of_first(&rt, rt.alloc(), COOKIES);
    is_cloned_and_keyed(&rt, rt.alloc(), &mut store, HashKey::Random(state));
    drop(store);
}

fn has_lines(rt: &impl Abort, alloc: Global, store: &CookieStore) {
    let lines = lines(rt, alloc);
    is_saved_as(rt, alloc, Shape::JsonLines, store, lines.as_str());
}

fn are_merged(rt: &impl Abort, alloc: Global, other: &CookieStore, is_strict: bool) {
    let mut store = CookieStore::new(alloc);
    let left_out = merged(&mut store, other, is_strict).expect(rt, "memory");
    is_equal(rt, &left_out, &0, &is_strict);
    has_lines(rt, alloc, &store);
    drop(store);
}

#[test]
fn a_store_of_many_is_merged(rt: HostRuntime) {
    let other = store_of_first(&rt, rt.alloc(), COOKIES);
    are_merged(&rt, rt.alloc(), &other, false);
    are_merged(&rt, rt.alloc(), &other, true);
    drop(other);
}

fn items(rt: &impl Abort, alloc: Global) -> Vec<Item> {
    let mut items = Vec::new(alloc);
    for number in 0..COOKIES {
        let cookie = cookie_of(rt, alloc, number, "");
        items.push(Ok(cookie)).expect(rt, "memory");
    }
    items
}

#[test]
fn a_store_is_built_of_many(rt: HostRuntime) {
    let lines = lines(&rt, rt.alloc());
    let items = items(&rt, rt.alloc()).into_iter();
    is_built(&rt, rt.alloc(), items, lines.as_str());
}

fn call(rt: &impl Abort, alloc: Global, number: usize) -> Call {
    let address = address(rt, alloc, number);
    let value = value(rt, alloc, number, "");
    set_call(rt, alloc, address.as_str(), value.as_str())
}

fn calls(rt: &impl Abort, alloc: Global) -> Vec<Call> {
    let mut calls = Vec::new(alloc);
    for number in 0..COOKIES {
        let call = call(rt, alloc, number);
        calls.push(call).expect(rt, "memory");
    }
    calls
}

#[test]
fn many_calls_are_executed(rt: HostRuntime) {
    let mut store = CookieStore::new(rt.alloc());
    let count = count_done(&rt, rt.alloc(), &mut store, calls(&rt, rt.alloc()));
    is_equal(&rt, &count, &COOKIES, &"the calls");
    has_lines(&rt, rt.alloc(), &store);
    drop(store);
}

static REQUESTS: [Request; 7] = [
    Request::Matches,
    Request::Counted,
    Request::InOrder,
    Request::Header,
    Request::Values,
    Request::Cookies,
    Request::Strict,
];

const FROM: &str = "http://h0.example/";

// Checks what each call returns.
fn are_returned(rt: &impl Abort, alloc: Global, store: &CookieStore, header: &str) {
    let url = url(rt, alloc, FROM);
    for request in &REQUESTS {
        is_returned(rt, alloc, *request, store, &url, header);
    }
}

// Stores the cookies of the response, whose values are lines.
fn stores_lines(
    rt: &impl Abort,
    alloc: Global,
    is_strict: bool,
    store: &mut CookieStore,
    lines: &str,
) {
    let values: Vec<&str> = lines.lines().collect(alloc).expect(rt, "memory");
    let outcome = respond(rt, alloc, is_strict, store, values.as_slice(), FROM);
    outcome.expect(rt, "memory");
}

fn are_stored(rt: &impl Abort, alloc: Global, is_strict: bool, lines: &str, header: &str) {
    let mut store = CookieStore::new(alloc);
    stores_lines(rt, alloc, is_strict, &mut store, lines);
    are_returned(rt, alloc, &store, header);
    drop(store);
}

fn have_sixty(rt: &impl Abort, alloc: Global, filler: &str) {
    let lines = text(rt, alloc, Shape::Values, "\n", (0, EACH), filler);
    let header = text(rt, alloc, Shape::Pairs, "; ", (0, EACH), filler);
    are_stored(rt, alloc, false, lines.as_str(), header.as_str());
    are_stored(rt, alloc, true, lines.as_str(), header.as_str());
}

#[test]
fn a_response_and_a_request_have_sixty_cookies(rt: HostRuntime) {
    let filler = "v".repeat(rt.alloc(), 2_000).expect(&rt, "memory");
    have_sixty(&rt, rt.alloc(), filler.as_str());
}
