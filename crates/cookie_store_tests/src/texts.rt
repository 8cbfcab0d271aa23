//! Cookies as strings.
use crate::checks::is_text;
use cookie_store::{Cookie, CookieStore};
use jiff::civil::DateTime;
use std::alloc::Global;
use std::fmt::Debug;
use std::process::Abort;
use url::Url;

// Parses a URL that is valid.
pub fn url(rt: &impl Abort, alloc: Global, text: &str) -> Url {
    Url::parse(alloc, text).expect(rt, "a URL")
}

// Appends the words, with the separator before them unless the string is empty.
pub fn add(rt: &impl Abort, text: &mut String, separator: &str, words: &[&str]) {
    if !text.is_empty() {
        text.push_str(separator).expect(rt, "memory");
    }
    for word in words {
        text.push_str(word).expect(rt, "memory");
    }
}

// Appends the cookies as a Cookie header, in the order given.
pub fn push_cookies(rt: &impl Abort, text: &mut String, cookies: &[&Cookie<'static>]) {
    for cookie in cookies {
        add(rt, text, "; ", &[cookie.name(), "=", cookie.value()]);
    }
}

// The cookies that match the URL, as a header.
pub fn given(
    rt: &impl Abort,
    alloc: Global,
    store: &CookieStore,
    from: &str,
    now: DateTime,
) -> String {
    let url = url(rt, alloc, from);
    let cookies = store.matches(&url, now).expect(rt, "memory");
    let mut header = String::new(store.allocator());
    push_cookies(rt, &mut header, cookies.as_slice());
    header
}

// Checks the cookies that match a URL at the time.
pub fn are_given(
    rt: &impl Abort,
    alloc: Global,
    store: &CookieStore,
    wanted: (&str, &str),
    now: DateTime,
    row: &impl Debug,
) {
    let header = given(rt, alloc, store, wanted.0, now);
    is_text(rt, header.as_str(), wanted.1, row);
}

// Checks the Cookie header of a request for the URL; `wanted` is empty if there is none.
pub fn are_sent(
    rt: &impl Abort,
    alloc: Global,
    store: &CookieStore,
    wanted: (&str, &str),
    now: DateTime,
    row: &impl Debug,
) {
    let url = url(rt, alloc, wanted.0);
    let header = store.cookie_header(&url, now).expect(rt, "memory");
    is_text(rt, header.as_deref().unwrap_or(""), wanted.1, row);
}

// Appends the domain, path and name of all stored cookies.
fn push_rows(rt: &impl Abort, text: &mut String, store: &CookieStore) {
    for row in store {
        let words = [row.domain.as_str(), " ", row.path.as_str(), " ", row.name()];
        add(rt, text, ", ", &words);
    }
}

// Checks the domain, path and name of all stored cookies.
pub fn are_listed(
    rt: &impl Abort,
    alloc: Global,
    store: &CookieStore,
    wanted: &str,
    row: &impl Debug,
) {
    let mut listed = String::new(alloc);
    push_rows(rt, &mut listed, store);
    is_text(rt, listed.as_str(), wanted, row);
}
