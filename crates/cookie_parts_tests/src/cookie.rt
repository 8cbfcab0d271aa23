//! Cookies of header values and of saved forms.
use crate::checks::{is_equal, is_text};
use crate::parts::{NOW, moment, url};
use cookie_parts::{Cookie, CookieError, CookieResult};
use cookie_raw::RawCookie;
use cookie_saved::{from_text, to_text};
use std::alloc::Global;
use std::fmt::Debug;
use std::process::Abort;
use url::Url;

// A call that returns the cookie of a header value.
#[derive(Clone, Copy, Debug)]
pub(crate) enum Call {
    Parse,
    ParseOwned,
    TryFromRaw,
}

// The result of the call at `NOW`.
pub(crate) fn cookie_by<'a>(
    rt: &impl Abort,
    alloc: Global,
    call: Call,
    text: &'a str,
    url: &Url,
) -> CookieResult<'a> {
    let now = moment(rt, NOW);
    match call {
        Call::Parse => Cookie::parse(alloc, text, url, now),
        Call::ParseOwned => Cookie::parse_owned(alloc, text, url, now),
        Call::TryFromRaw => {
            let raw = RawCookie::parse(text).expect(rt, "a cookie");
            Cookie::try_from_raw_cookie(alloc, &raw, url, now)
        }
    }
}

// A copy of the cookie by way of its saved form.
fn copied(rt: &impl Abort, alloc: Global, cookie: &Cookie<'_>) -> Cookie<'static> {
    let copy = cookie.clone().expect(rt, "memory");
    let owned = copy.into_owned(alloc).expect(rt, "memory");
    let saved = owned.to_saved(alloc).expect(rt, "memory");
    drop(owned);
    Cookie::from_saved(alloc, saved).expect(rt, "memory")
}

// Checks the saved form of the cookie.
fn is_saved_as(
    rt: &impl Abort,
    alloc: Global,
    cookie: &Cookie<'_>,
    wanted: &str,
    row: &impl Debug,
) {
    let saved = cookie.to_saved(alloc).expect(rt, "memory");
    let text = to_text(alloc, &saved).expect(rt, "memory");
    is_text(rt, text.as_str(), wanted, row);
    drop(text);
    drop(saved);
}

// Checks the saved form of the cookie and of its copy.
pub(crate) fn is_cookie(
    rt: &impl Abort,
    alloc: Global,
    cookie: &Cookie<'_>,
    wanted: &str,
    row: &impl Debug,
) {
    is_saved_as(rt, alloc, cookie, wanted, row);
    let copy = copied(rt, alloc, cookie);
    is_saved_as(rt, alloc, &copy, wanted, row);
    drop(copy);
}

// A call, a URL, a header value received from it, and the saved form of its cookie.
static RECEIVED: [(Call, &str, &str, &str); 15] = [
    (
        Call::Parse,
        "http://foo.example.com",
        "a=1; Domain=example.com",
        r#"{"domain":{"Suffix":"example.com"},"expires":"SessionEnd","path":["/",false],"raw_cookie":"a=1; Domain=example.com"}"#,
    ),
    (
        Call::ParseOwned,
        "http://foo.example.com",
        "a=1; Domain=.foo.example.com",
        r#"{"domain":{"Suffix":"foo.example.com"},"expires":"SessionEnd","path":["/",false],"raw_cookie":"a=1; Domain=foo.example.com"}"#,
    ),
    (
        Call::TryFromRaw,
        "http://127.0.0.1/",
        "a=1; Domain=127.0.0.1",
        r#"{"domain":{"Suffix":"127.0.0.1"},"expires":"SessionEnd","path":["/",false],"raw_cookie":"a=1; Domain=127.0.0.1"}"#,
    ),
    (
        Call::Parse,
        "http://example.com",
        "a=1; Domain=EXAMPLE.com",
        r#"{"domain":{"Suffix":"example.com"},"expires":"SessionEnd","path":["/",false],"raw_cookie":"a=1; Domain=EXAMPLE.com"}"#,
    ),
    (
        Call::Parse,
        "http://foo.example.com",
        "a=1",
        r#"{"domain":{"HostOnly":"foo.example.com"},"expires":"SessionEnd","path":["/",false],"raw_cookie":"a=1"}"#,
    ),
    (
        Call::Parse,
        "http://example.com/foo/bar/",
        "a=1; Path=",
        r#"{"domain":{"HostOnly":"example.com"},"expires":"SessionEnd","path":["/foo/bar",false],"raw_cookie":"a=1; Path="}"#,
    ),
    (
        Call::ParseOwned,
        "http://example.com/foo/bar/",
        "a=1; Path=baz",
        r#"{"domain":{"HostOnly":"example.com"},"expires":"SessionEnd","path":["/foo/bar",false],"raw_cookie":"a=1; Path=baz"}"#,
    ),
    (
        Call::TryFromRaw,
        "http://example.com/foo/bar/",
        "a=1; Path=/baz",
        r#"{"domain":{"HostOnly":"example.com"},"expires":"SessionEnd","path":["/baz",true],"raw_cookie":"a=1; Path=/baz"}"#,
    ),
    (
        Call::Parse,
        "http://foo.example.com/foo/bar",
        "cookie2=value2; Domain=example.com",
        r#"{"domain":{"Suffix":"example.com"},"expires":"SessionEnd","path":["/foo",false],"raw_cookie":"cookie2=value2; Domain=example.com"}"#,
    ),
    (
        Call::Parse,
        "http://foo.example.com/foo",
        "cookie3=value3; Path=/foo/bar",
        r#"{"domain":{"HostOnly":"foo.example.com"},"expires":"SessionEnd","path":["/foo/bar",true],"raw_cookie":"cookie3=value3; Path=/foo/bar"}"#,
    ),
    (
        Call::ParseOwned,
        "http://example.com/",
        "a=1; Expires=Tue, 03 Aug 2100 00:38:37 GMT; Secure",
        r#"{"domain":{"HostOnly":"example.com"},"expires":{"AtUtc":"2100-08-03T00:38:37Z"},"path":["/",false],"raw_cookie":"a=1; Secure; Expires=Tue, 03 Aug 2100 00:38:37 GMT"}"#,
    ),
    // Max-Age takes precedence over Expires.
    (
        Call::TryFromRaw,
        "http://[::1]/x/y",
        "a=1; Expires=Wed, 31 Dec 2025 00:00:00 GMT; Max-Age=60",
        r#"{"domain":{"HostOnly":"[::1]"},"expires":{"AtUtc":"2026-01-01T00:01:00Z"},"path":["/x",false],"raw_cookie":"a=1; Max-Age=60; Expires=Wed, 31 Dec 2025 00:00:00 GMT"}"#,
    ),
    (
        Call::Parse,
        "http://example.com/",
        "a=1; Max-Age=9223372036854775808",
        r#"{"domain":{"HostOnly":"example.com"},"expires":{"AtUtc":"9999-12-31T23:59:59Z"},"path":["/",false],"raw_cookie":"a=1; Max-Age=9223372036854775807"}"#,
    ),
    (
        Call::Parse,
        "http://example.com/",
        "a=1; Max-Age=-1",
        r#"{"domain":{"HostOnly":"example.com"},"expires":{"AtUtc":"1970-01-01T00:00:00Z"},"path":["/",false],"raw_cookie":"a=1; Max-Age=0"}"#,
    ),
    (
        Call::Parse,
        "http://example.com/",
        "a=1; Max-Age=1x",
        r#"{"domain":{"HostOnly":"example.com"},"expires":"SessionEnd","path":["/",false],"raw_cookie":"a=1"}"#,
    ),
];

fn is_received(rt: &impl Abort, alloc: Global, row: &(Call, &str, &str, &str)) {
    let url = url(rt, alloc, row.1);
    let cookie = cookie_by(rt, alloc, row.0, row.2, &url).expect(rt, "memory");
    is_cookie(rt, alloc, &cookie, row.3, row);
    drop(cookie);
    drop(url);
}

#[test]
fn header_values_are_parsed(rt: HostRuntime) {
    for row in &RECEIVED {
        is_received(&rt, rt.alloc(), row);
    }
}

// A call, a URL, a header value received from it, and the error.
static REJECTED: [(Call, &str, &str, CookieError); 11] = [
    (
        Call::Parse,
        "http://foo.example.com",
        "a=1; Domain=oo.example.com",
        CookieError::DomainMismatch,
    ),
    (
        Call::ParseOwned,
        "http://foo.example.com",
        "a=1; Domain=bar.example.com",
        CookieError::DomainMismatch,
    ),
    (
        Call::TryFromRaw,
        "http://foo.example.com",
        "a=1; Domain=baz.foo.example.com",
        CookieError::DomainMismatch,
    ),
    (
        Call::Parse,
        "foo://x.A.B/",
        "k=1; Domain=a.b",
        CookieError::DomainMismatch,
    ),
    (
        Call::Parse,
        "http://127.0.0.1/",
        "a=1; Domain=0.0.1",
        CookieError::DomainMismatch,
    ),
    (
        Call::Parse,
        "http://a.com/",
        "a=1; Domain=..",
        CookieError::DomainMismatch,
    ),
    (Call::Parse, "http://example.com", "a", CookieError::Parse),
    (
        Call::ParseOwned,
        "http://foo.example.com",
        "a=1; Domain=xn--a.example",
        CookieError::Parse,
    ),
    (Call::Parse, "data:x", "a=1", CookieError::NonRelativeScheme),
    (
        Call::TryFromRaw,
        "ftp://example.com/",
        "a=1; HttpOnly",
        CookieError::NonHttpScheme,
    ),
    (
        Call::ParseOwned,
        "ftp://example.com/",
        "a=1; HttpOnly",
        CookieError::NonHttpScheme,
    ),
];

fn is_rejected(rt: &impl Abort, alloc: Global, row: &(Call, &str, &str, CookieError)) {
    let url = url(rt, alloc, row.1);
    let error = cookie_by(rt, alloc, row.0, row.2, &url).err();
    is_equal(rt, &error, &Some(row.3), row);
    drop(url);
}

#[test]
fn header_values_are_rejected(rt: HostRuntime) {
    for row in &REJECTED {
        is_rejected(&rt, rt.alloc(), row);
    }
}

// Saved forms, whose cookies have the saved path, whatever the Path attribute is.
static SAVED: [&str; 7] = [
    r#"{"domain":{"HostOnly":"example.com"},"expires":"SessionEnd","path":["/p",true],"raw_cookie":"a=1; Path=/p"}"#,
    r#"{"domain":{"Suffix":"example.com"},"expires":{"AtUtc":"0000-01-01T00:00:00Z"},"path":["/p",true],"raw_cookie":"a=1; Path=/p"}"#,
    r#"{"domain":"NotPresent","expires":{"AtUtc":"9999-12-31T23:59:59Z"},"path":["/p",true],"raw_cookie":"a=1; Path=/p"}"#,
    r#"{"domain":"Empty","expires":{"AtUtc":"1970-01-01T00:00:00Z"},"path":["/x",true],"raw_cookie":"a=1; Path=/p"}"#,
    r#"{"domain":"Empty","expires":"SessionEnd","path":["/x",false],"raw_cookie":"a=1; Path=/p"}"#,
    r#"{"domain":"Empty","expires":"SessionEnd","path":["x/y",true],"raw_cookie":"a=1; Path=/p"}"#,
    r#"{"domain":"Empty","expires":"SessionEnd","path":["",false],"raw_cookie":"a=1; Path=/p"}"#,
];

fn is_loaded(rt: &impl Abort, alloc: Global, text: &str) {
    let saved = from_text(alloc, text).expect(rt, "memory");
    let cookie = Cookie::from_saved(alloc, saved).expect(rt, "memory");
    is_cookie(rt, alloc, &cookie, text, &text);
    drop(cookie);
}

#[test]
fn saved_forms_are_converted(rt: HostRuntime) {
    for text in &SAVED {
        is_loaded(&rt, rt.alloc(), text);
    }
}
