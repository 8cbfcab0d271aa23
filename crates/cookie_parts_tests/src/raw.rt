//! `Set-Cookie` header values, as they are parsed and printed.
use crate::checks::{is_equal, is_printed, is_text};
use crate::parts::{moment, moment_if_any, owned};
use cookie_raw::RawCookieParseError::{EmptyName, MissingPair};
use cookie_raw::{Expiration, RawCookie, RawCookieBuilder, RawCookieParseError, SameSite, laws};
use jiff::SignedDuration;
use std::alloc::Global;
use std::process::Abort;

// The expected parts of a header value: name, value, domain and path; Secure, HttpOnly and SameSite;
// Max-Age in seconds and the time of Expires.
#[derive(Clone, Copy)]
struct Parts {
    pair: (&'static str, &'static str),
    domain: Option<&'static str>,
    path: Option<&'static str>,
    flags: (Option<bool>, Option<bool>, Option<SameSite>),
    max_age: Option<i64>,
    expires: Option<&'static str>,
}

const PAIR: Parts = Parts {
    pair: ("a", "1"),
    domain: None,
    path: None,
    flags: (None, None, None),
    max_age: None,
    expires: None,
};

static PARSED: [(&str, Parts); 22] = [
    ("\u{a0}a\u{a0}=1", PAIR),
    (
        "a\nb=1",
        Parts {
            pair: ("a\nb", "1"),
            ..PAIR
        },
    ),
    (
        "a=",
        Parts {
            pair: ("a", ""),
            ..PAIR
        },
    ),
    (
        " a = \"b=c\" ",
        Parts {
            pair: ("a", "\"b=c\""),
            ..PAIR
        },
    ),
    ("a=1", PAIR),
    (
        "a=1; Domain=.a.com; Domain=; Path=/x; Path=",
        Parts {
            domain: Some("a.com"),
            path: Some(""),
            ..PAIR
        },
    ),
    (
        "a=1; DOMAIN=b.org; path=/p; Secure; Max-Age=5; unknown",
        Parts {
            domain: Some("b.org"),
            path: Some("/p"),
            flags: (Some(true), None, None),
            max_age: Some(5),
            ..PAIR
        },
    ),
    (
        "a=1; Domain=..x",
        Parts {
            domain: Some(".x"),
            ..PAIR
        },
    ),
    // Empty values are kept; attributes without a name, and a `Domain` without `=`, are ignored.
    (
        "a=1; Path=",
        Parts {
            path: Some(""),
            ..PAIR
        },
    ),
    (
        "a=; Path=; Domain=.",
        Parts {
            pair: ("a", ""),
            domain: Some(""),
            path: Some(""),
            ..PAIR
        },
    ),
    ("a=1;;; ;=x;Domain", PAIR),
    (
        "a=1; httponly",
        Parts {
            flags: (None, Some(true), None),
            ..PAIR
        },
    ),
    (
        "a=1; SECURE=no; samesite=LAX; SameSite=x; Expires=Tue, 11 Aug 2015 16:41:42 GMT; Expires=x",
        Parts {
            flags: (Some(true), None, Some(SameSite::Lax)),
            expires: Some("2015-08-11T16:41:42"),
            ..PAIR
        },
    ),
    // Max-Age.
    (
        "a=1; Max-Age=-",
        Parts {
            max_age: Some(0),
            ..PAIR
        },
    ),
    (
        "a=1; Max-Age=-1",
        Parts {
            max_age: Some(0),
            ..PAIR
        },
    ),
    (
        "a=1; Max-Age=007",
        Parts {
            max_age: Some(7),
            ..PAIR
        },
    ),
    ("a=1; Max-Age=--1", PAIR),
    ("a=1; Max-Age=+5", PAIR),
    ("a=1; Max-Age=1x", PAIR),
    ("a=1; Max-Age=", PAIR),
    (
        "a=1; Max-Age=9223372036854775808",
        Parts {
            max_age: Some(9223372036854775807),
            ..PAIR
        },
    ),
    (
        "a=1; Max-Age=9; Max-Age=5; Max-Age=1x",
        Parts {
            max_age: Some(5),
            ..PAIR
        },
    ),
];

// Checks the parts of the cookie.
fn has_parts(rt: &impl Abort, cookie: &RawCookie<'_>, wanted: &Parts, text: &str) {
    let pairs = (cookie.name_value(), (cookie.name(), cookie.value()));
    is_equal(rt, &pairs, &(wanted.pair, wanted.pair), &text);
    let scope = (cookie.domain(), cookie.path());
    is_equal(rt, &scope, &(wanted.domain, wanted.path), &text);
    let flags = (cookie.secure(), cookie.http_only(), cookie.same_site());
    is_equal(rt, &flags, &wanted.flags, &text);
    let age = wanted.max_age.map(SignedDuration::from_secs);
    let end = moment_if_any(rt, wanted.expires).map(Expiration::DateTime);
    is_equal(
        rt,
        &(cookie.max_age(), cookie.expires()),
        &(age, end),
        &text,
    );
}

fn kept(rt: &impl Abort, alloc: Global, text: &str) -> RawCookie<'static> {
    let cookie = RawCookie::parse(text).expect(rt, "a cookie");
    cookie.into_owned(alloc).expect(rt, "memory")
}

#[test]
fn header_values_are_parsed(rt: HostRuntime) {
    for (text, wanted) in &PARSED {
        let cookie = RawCookie::parse(text).expect(&rt, "a cookie");
        has_parts(&rt, &cookie, wanted, text);
        drop(cookie);
    }
}

// Header values that are not ones of cookies, and the error.
static REJECTED: [(&str, RawCookieParseError); 5] = [
    ("", MissingPair),
    ("a", MissingPair),
    ("; a=1", MissingPair),
    ("=1", EmptyName),
    ("=;a=1", EmptyName),
];

#[test]
fn header_values_are_rejected(rt: HostRuntime) {
    for (text, error) in &REJECTED {
        is_equal(&rt, &RawCookie::parse(text).err(), &Some(*error), text);
    }
}

// What a cookie is built from: a header value, few parts or all, the last day of a year as Expires,
// or a header value whose value is replaced by `new`.
enum Origin {
    Text(&'static str),
    Open,
    Whole,
    Until(&'static str),
    Renewed(&'static str),
}

fn builder(rt: &impl Abort, alloc: Global, name: &str) -> RawCookieBuilder {
    RawCookieBuilder::new(owned(rt, alloc, name), owned(rt, alloc, "1"))
}

fn built(rt: &impl Abort, alloc: Global, origin: &Origin) -> RawCookie<'static> {
    match origin {
        Origin::Text(text) => kept(rt, alloc, text),
        Origin::Open => builder(rt, alloc, "b")
            .secure(false)
            .same_site(SameSite::None)
            .build(),
        Origin::Whole => builder(rt, alloc, "c")
            .expires(Expiration::Session)
            .max_age(SignedDuration::new(-1, -500_000_000))
            .path(owned(rt, alloc, "/p"))
            .domain(owned(rt, alloc, ".d.org"))
            .secure(true)
            .http_only(true)
            .build(),
        Origin::Until(end) => builder(rt, alloc, "a")
            .expires(Expiration::DateTime(moment(rt, end)))
            .build(),
        Origin::Renewed(text) => RawCookieBuilder::from_cookie(kept(rt, alloc, text))
            .value(owned(rt, alloc, "new"))
            .build(),
    }
}

// A cookie, what it prints, and whether it is plain.
static PRINTED: [(Origin, &str, bool); 18] = [
    (
        Origin::Text("a=1; Expires=Tue, 11 Aug 2015 16:41:42 GMT; Max-Age=10; HttpOnly"),
        "a=1; HttpOnly; Max-Age=10; Expires=Tue, 11 Aug 2015 16:41:42 GMT",
        true,
    ),
    (
        Origin::Text("a=1; SameSite=None"),
        "a=1; SameSite=None; Secure",
        false,
    ),
    (
        Origin::Text("a=1; SECURE=no; samesite=LAX; SameSite=x"),
        "a=1; SameSite=Lax; Secure",
        true,
    ),
    (
        Origin::Text("2=two; SameSite=None; Secure; Path=/; Expires=Tue, 03 Aug 2100 00:38:37 GMT"),
        "2=two; SameSite=None; Secure; Path=/; Expires=Tue, 03 Aug 2100 00:38:37 GMT",
        true,
    ),
    (
        Origin::Text("1=one; Expires=3 aug 2000 0:38:37"),
        "1=one; Expires=Thu, 03 Aug 2000 00:38:37 GMT",
        true,
    ),
    (
        Origin::Text("a=1; Domain=.a.com; Path=x"),
        "a=1; Path=x; Domain=a.com",
        true,
    ),
    (Origin::Text("a=1; Domain=..x"), "a=1; Domain=.x", false),
    (Origin::Text("a=1; Domain=."), "a=1; Domain=", false),
    (
        Origin::Text(" a = \"b=c\" ; Max-Age=007"),
        "a=\"b=c\"; Max-Age=7",
        true,
    ),
    (Origin::Open, "b=1; SameSite=None", false),
    (
        Origin::Whole,
        "c=1; HttpOnly; Secure; Path=/p; Domain=d.org; Max-Age=-1",
        false,
    ),
    // A year before 0 is not printed.
    (
        Origin::Until("9999-12-31T00:00:00"),
        "a=1; Expires=Fri, 31 Dec 9999 00:00:00 GMT",
        true,
    ),
    (
        Origin::Until("0000-12-31T00:00:00"),
        "a=1; Expires=Sun, 31 Dec 0000 00:00:00 GMT",
        false,
    ),
    (Origin::Until("-000001-12-31T00:00:00"), "a=1", false),
    (Origin::Until("-009999-12-31T00:00:00"), "a=1", false),
    // Replacing the value changes nothing else.
    (Origin::Renewed("a=1"), "a=new", true),
    (Origin::Renewed("a="), "a=new", true),
    (
        Origin::Renewed(
            "c=3; Domain=d.org; Path=/p; Secure; HttpOnly; SameSite=Lax; Max-Age=5; Expires=Tue, 03 Aug 2100 00:38:37 GMT",
        ),
        "c=new; HttpOnly; SameSite=Lax; Secure; Path=/p; Domain=d.org; Max-Age=5; Expires=Tue, 03 Aug 2100 00:38:37 GMT",
        true,
    ),
];

// Checks that what the cookie prints parses as a copy of it exactly if it is plain.
fn reads_back(rt: &impl Abort, cookie: &RawCookie<'_>, printed: &str, is_plain: bool) {
    let copy = cookie.clone().expect(rt, "memory");
    let parsed = RawCookie::parse(printed).expect(rt, "a cookie");
    let is_same = parsed == copy;
    is_equal(
        rt,
        &(cookie.is_plain(), is_same),
        &(is_plain, is_plain),
        &printed,
    );
    drop(parsed);
    drop(copy);
}

// Checks also what it prints.
pub(crate) fn prints(
    rt: &impl Abort,
    alloc: Global,
    cookie: &RawCookie<'_>,
    printed: &str,
    is_plain: bool,
) {
    let text = cookie.to_text(alloc).expect(rt, "memory");
    is_text(rt, text.as_str(), printed, &is_plain);
    is_printed(rt, alloc, cookie, printed);
    reads_back(rt, cookie, printed, is_plain);
    drop(text);
}

#[test]
fn cookies_are_printed(rt: HostRuntime) {
    laws::reads_back();
    for (origin, printed, is_plain) in &PRINTED {
        let cookie = built(&rt, rt.alloc(), origin);
        prints(&rt, rt.alloc(), &cookie, printed, *is_plain);
        drop(cookie);
    }
}
