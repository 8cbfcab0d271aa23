//! Cookies of responses, and what is logged of them.
use crate::allocations::start;
use crate::checks::is_equal;
use crate::steps::new_year;
use crate::texts::{are_given, url};
use cookie_store::{Bulk, CookieStore, RawCookie, strict};
use log::Log;
use log::sink::{Discard, Memory};
use std::alloc::{AllocError, Global};
use std::process::Abort;
use url::Url;

// The `Set-Cookie` values of a response, the cookies that match its URL after it, and the log
// lines.
type Case = (
    &'static [&'static str],
    &'static str,
    &'static [&'static str],
);

static CASES: [Case; 3] = [
    (&[], "", &[]),
    (
        &["a=1", "b=2; Secure", "c=3; Domain=x.org"],
        "a=1; b=2",
        &[
            "inserting Set-Cookie 'a=1'",
            "inserting secure cookie 'b'",
            "inserting Set-Cookie 'c=3; Domain=x.org'",
            "unable to store Set-Cookie: request-uri does not domain-match the cookie",
        ],
    ),
    (
        &["b=3", "c=3; Max-Age=0", "a=1; HttpOnly", "b=4"],
        "b=4; a=1",
        &[
            "inserting Set-Cookie 'b=3'",
            "inserting Set-Cookie 'c=3; Max-Age=0'",
            "unable to store Set-Cookie: attempted to utilize an Expired Cookie",
            "inserting Set-Cookie 'a=1; HttpOnly'",
            "inserting Set-Cookie 'b=4'",
        ],
    ),
];

fn raw_cookies<'t>(rt: &impl Abort, alloc: Global, values: &[&'t str]) -> Vec<RawCookie<'t>> {
    let mut cookies = Vec::new(alloc);
    for value in values {
        let cookie = RawCookie::parse(value).expect(rt, "a cookie");
        cookies.push(cookie).expect(rt, "memory");
    }
    cookies
}

fn store_raw_cookies(
    rt: &impl Abort,
    alloc: Global,
    store: &mut CookieStore,
    values: &[&str],
    url: &Url,
) -> Result<(), AllocError> {
    let cookies = raw_cookies(rt, alloc, values).into_iter();
    start(alloc);
    store.store_response_cookies(&Discard, cookies, url, new_year())
}

// Stores the cookies of a response, by RFC 6265 or by the rules of browsers. Only what the call
// allocates counts, from its start on.
pub fn respond(
    rt: &impl Abort,
    alloc: Global,
    is_strict: bool,
    store: &mut CookieStore,
    values: &[&str],
    from: &str,
) -> Result<(), AllocError> {
    let url = url(rt, alloc, from);
    if is_strict {
        start(alloc);
        strict::store_response_cookies(store, values, &url, new_year())
    } else {
        store_raw_cookies(rt, alloc, store, values, &url)
    }
}

// Checks the cookies stored after the response, in a store that was empty.
fn is_stored(rt: &impl Abort, alloc: Global, logger: &impl Log, case: &Case) {
    let url = url(rt, alloc, "http://a.com/");
    let cookies = raw_cookies(rt, alloc, case.0).into_iter();
    let mut store = CookieStore::new(alloc);
    let outcome = store.store_response_cookies(logger, cookies, &url, new_year());
    outcome.expect(rt, "memory");
    let wanted = ("https://a.com/", case.1);
    are_given(rt, alloc, &store, wanted, new_year(), &case.1);
    drop(store);
}

// Checks that a log line is this string at the level debug, without the value of a Secure cookie.
fn is_logged(rt: &impl Abort, line: &str, text: &str) {
    let (place, logged) = line.split_once("] ").expect(rt, "a level");
    is_equal(rt, &place.starts_with("[DEBUG "), &true, &line);
    is_equal(rt, &logged, &text, &line);
    is_equal(rt, &line.contains('2'), &false, &line);
}

fn are_logged(rt: &impl Abort, lines: &[String], texts: &[&'static str]) {
    is_equal(rt, &lines.len(), &texts.len(), &lines);
    for (line, text) in lines.iter().zip(texts) {
        is_logged(rt, line.as_str(), text);
    }
}

#[test]
fn the_cookies_of_a_response_are_logged(rt: HostRuntime) {
    for case in &CASES {
        let logger = Memory::new(rt.alloc());
        is_stored(&rt, rt.alloc(), &logger, case);
        are_logged(&rt, logger.into_lines().as_slice(), case.2);
    }
}
