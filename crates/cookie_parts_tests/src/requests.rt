//! What cookies return for a request, and their attributes.
use crate::checks::{is_equal, is_text};
use crate::parts::{NOW, moment, url};
use cookie_parts::{Cookie, Exclusion};
use cookie_raw::SameSite;
use std::alloc::Global;
use std::process::Abort;

// The cookie of a header value received from the URL at `NOW`.
fn received<'a>(rt: &impl Abort, alloc: Global, from: &str, text: &'a str) -> Cookie<'a> {
    let url = url(rt, alloc, from);
    Cookie::parse(alloc, text, &url, moment(rt, NOW)).expect(rt, "memory")
}

// A URL, a header value received from it at `NOW`, the URL of a request a minute later, and why that
// does not have the cookie.
type Request = (&'static str, &'static str, &'static str, Option<Exclusion>);

const LATER: &str = "2026-01-01T00:01:00";

const PAGE: &str = "https://www.example.com/a/b";

static REQUESTS: [Request; 22] = [
    (
        "http://example.com",
        "a=1; Secure",
        "http://example.com",
        Some(Exclusion::Secure),
    ),
    (
        "http://example.com",
        "a=1; HttpOnly",
        "http://example.com",
        None,
    ),
    (
        "http://example.com",
        "a=1; HttpOnly",
        "ftp://example.com",
        Some(Exclusion::HttpOnly),
    ),
    (
        "http://example.com",
        "a=1; HttpOnly",
        "data:x",
        Some(Exclusion::Domain),
    ),
    // The local machine counts as secure.
    ("http://localhost", "a=1; Secure", "http://localhost", None),
    ("http://127.0.0.1", "a=1; Secure", "http://127.0.0.1", None),
    ("http://127.1.0.1", "a=1; Secure", "http://127.1.0.1", None),
    ("http://[::1]", "a=1; Secure", "http://[::1]", None),
    (
        "http://128.0.0.1",
        "a=1; Secure",
        "http://128.0.0.1",
        Some(Exclusion::Secure),
    ),
    (
        "http://localhost.com",
        "a=1; Secure",
        "http://localhost.com",
        Some(Exclusion::Secure),
    ),
    (
        PAGE,
        "k=1; Domain=example.com",
        "http://example.com/a/c",
        None,
    ),
    (PAGE, "k=1; Secure; HttpOnly; Max-Age=61", PAGE, None),
    (
        PAGE,
        "k=1; Domain=example.com",
        "data:x",
        Some(Exclusion::Domain),
    ),
    (
        PAGE,
        "k=1",
        "http://www.example.com/ab",
        Some(Exclusion::Path),
    ),
    (PAGE, "k=1; Path=/A", PAGE, Some(Exclusion::Path)),
    (
        PAGE,
        "k=1; Secure",
        "http://www.example.com/a/",
        Some(Exclusion::Secure),
    ),
    (
        PAGE,
        "k=1; HttpOnly",
        "ftp://www.example.com/a/",
        Some(Exclusion::HttpOnly),
    ),
    (PAGE, "k=1; Max-Age=60", PAGE, Some(Exclusion::Expired)),
    // The first of several reasons.
    (
        PAGE,
        "k=1; Secure; HttpOnly; Max-Age=1",
        "ftp://example.com/",
        Some(Exclusion::Domain),
    ),
    (
        PAGE,
        "k=1; Secure; HttpOnly; Max-Age=1",
        "ftp://www.example.com/",
        Some(Exclusion::Path),
    ),
    (
        PAGE,
        "k=1; Secure; HttpOnly; Max-Age=1",
        "ftp://www.example.com/a",
        Some(Exclusion::Secure),
    ),
    (
        PAGE,
        "k=1; HttpOnly; Max-Age=1",
        "ftp://www.example.com/a",
        Some(Exclusion::HttpOnly),
    ),
];

fn is_excluded(rt: &impl Abort, alloc: Global, row: &Request) {
    let cookie = received(rt, alloc, row.0, row.1);
    let at = url(rt, alloc, row.2);
    let results = (
        cookie.matches(&at),
        cookie.exclusion(&at, moment(rt, LATER)),
    );
    let is_match = matches!(row.3, None | Some(Exclusion::Expired));
    is_equal(rt, &results, &(is_match, row.3), row);
    drop(at);
    drop(cookie);
}

#[test]
fn a_request_has_no_cookie_for_a_reason(rt: HostRuntime) {
    for row in &REQUESTS {
        is_excluded(&rt, rt.alloc(), row);
    }
}

// Whether a cookie is Secure, HttpOnly and persistent, and its SameSite attribute.
type Attributes = (bool, bool, bool, Option<SameSite>);

// A header value received from http://a.com/, the attributes of its cookie, and the raw cookie of that.
static ATTRIBUTES: [(&str, Attributes, &str); 6] = [
    (
        "a=1; Path=/x; Domain=a.com; Secure; HttpOnly; Max-Age=5",
        (true, true, true, None),
        "a=1; Path=/x; Domain=a.com; Expires=Thu, 01 Jan 2026 00:00:05 GMT",
    ),
    ("a=1", (false, false, false, None), "a=1"),
    ("a=", (false, false, false, None), "a="),
    ("a=; Path=; Domain=", (false, false, false, None), "a="),
    (
        "a=1; Secure; SameSite=None",
        (true, false, false, Some(SameSite::None)),
        "a=1",
    ),
    (
        "a=1; HttpOnly; SameSite=lax",
        (false, true, false, Some(SameSite::Lax)),
        "a=1",
    ),
];

// Checks the attributes.
fn has_attributes(rt: &impl Abort, cookie: &Cookie<'_>, wanted: &Attributes) {
    let attributes = (
        cookie.is_secure(),
        cookie.is_http_only(),
        cookie.is_persistent(),
        cookie.same_site(),
    );
    is_equal(rt, &attributes, wanted, &cookie.name());
}

// Checks the raw cookie of a copy.
fn has_raw(rt: &impl Abort, alloc: Global, cookie: &Cookie<'_>, wanted: &str) {
    let copy = cookie.clone().expect(rt, "memory");
    is_equal(rt, &(copy == *cookie), &true, &wanted);
    let raw = copy.into_raw(alloc).expect(rt, "memory");
    let text = raw.to_text(alloc).expect(rt, "memory");
    is_text(rt, text.as_str(), wanted, &wanted);
    drop(text);
    drop(raw);
}

fn expires(rt: &impl Abort, alloc: Global, row: &(&str, Attributes, &str)) {
    let mut cookie = received(rt, alloc, "http://a.com/", row.0);
    has_attributes(rt, &cookie, &row.1);
    has_raw(rt, alloc, &cookie, row.2);
    let now = moment(rt, NOW);
    is_equal(rt, &cookie.is_expired(now), &false, row);
    cookie.expire();
    let is_expired = (cookie.is_expired(now), cookie.expires_by(&now));
    is_equal(rt, &is_expired, &(true, true), row);
    drop(cookie);
}

#[test]
fn cookies_have_attributes_and_expire(rt: HostRuntime) {
    for row in &ATTRIBUTES {
        expires(&rt, rt.alloc(), row);
    }
}
