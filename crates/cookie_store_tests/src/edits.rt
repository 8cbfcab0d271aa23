//! Edits of `cookies.txt` files.
use crate::allocations::{end, start};
use crate::built::{UrlAndValue, cookie, store_of};
use crate::checks::{is_equal, is_text};
use cookie_store::edit::{put_line, retain_lines};
use cookie_store::netscape::NetscapeError;
use cookie_store::{Cookie, CookieStore};
use std::alloc::{AllocError, Global};
use std::process::Abort;

// A file, a cookie, and the file with the line of the cookie, or the error.
type Put = (
    &'static str,
    UrlAndValue,
    Result<&'static str, NetscapeError>,
);

static PUT: [Put; 5] = [
    // A new cookie comes last. A last line gets the line end that it lacks, which is that of the
    // first.
    (
        "",
        ("http://a.com/", "a=1"),
        Ok("a.com\tFALSE\t/\tFALSE\t0\ta\t1\n"),
    ),
    (
        "# a\n",
        ("https://a.com/p/", "a=1; Domain=a.com; Secure; HttpOnly"),
        Ok("# a\n#HttpOnly_.a.com\tTRUE\t/p\tTRUE\t0\ta\t1\n"),
    ),
    (
        "# a\r\n\nb",
        ("http://a.com/", "a=1"),
        Ok("# a\r\n\nb\r\na.com\tFALSE\t/\tFALSE\t0\ta\t1\r\n"),
    ),
    // The first line of the cookie is replaced, and the others are removed. A session cookie has an
    // empty expiry if another one has.
    (
        "\n a.com\tFALSE\t/\tFALSE\t0\ta\t1 \nb\n.a.com\tTRUE\t/\tTRUE\t5\ta\t2\na.com\tFALSE\t/\tFALSE\t\tb\t1",
        ("http://a.com/", "a=3"),
        Ok("\na.com\tFALSE\t/\tFALSE\t\ta\t3\nb\na.com\tFALSE\t/\tFALSE\t\tb\t1"),
    ),
    (
        "# a\n",
        ("http://a.com/", "a=1\t2"),
        Err(NetscapeError::Unrepresentable),
    ),
];

// Puts the line, and checks the file, the error, or that an allocation failed.
pub fn is_put(
    rt: &impl Abort,
    alloc: Global,
    file: &str,
    cookie: &Cookie<'static>,
    wanted: Result<&str, NetscapeError>,
) {
    start(alloc);
    let outcome = put_line(alloc, file, cookie);
    let is_ample = end(alloc);
    match outcome {
        Ok(edited) => is_text(rt, edited.as_str(), wanted.unwrap_or(""), &"the file"),
        Err(NetscapeError::Memory) => is_equal(rt, &is_ample, &false, &cookie.name()),
        Err(error) => is_equal(rt, &Err(error), &wanted, &cookie.name()),
    }
}

// A file, the cookies of a store, and the file without the lines of other cookies.
type Retained = (&'static str, &'static [UrlAndValue], &'static str);

static RETAINED: [Retained; 2] = [
    ("", &[("http://a.com/", "a=1")], ""),
    (
        "# a\r\na.com\tFALSE\t/\tFALSE\t0\ta\t1\r\nb\na.com\tFALSE\t/\tFALSE\t0\tb\t1\n\na.com\tFALSE\t/p\tFALSE\t0\ta\t1",
        &[("http://a.com/", "a=2")],
        "# a\r\na.com\tFALSE\t/\tFALSE\t0\ta\t1\r\nb\n\n",
    ),
];

// Removes the lines, and checks the file, or that an allocation failed.
pub fn is_retained(rt: &impl Abort, alloc: Global, file: &str, store: &CookieStore, wanted: &str) {
    start(alloc);
    let outcome = retain_lines(alloc, file, store);
    let is_ample = end(alloc);
    match outcome {
        Ok(edited) => is_text(rt, edited.as_str(), wanted, &"the file"),
        Err(AllocError) => is_equal(rt, &is_ample, &false, &"the file"),
    }
}

fn has_line(rt: &impl Abort, alloc: Global, put: &Put) {
    let cookie = cookie(rt, alloc, &put.1);
    is_put(rt, alloc, put.0, &cookie, put.2);
    drop(cookie);
}

fn has_own_lines(rt: &impl Abort, alloc: Global, retained: &Retained) {
    let store = store_of(rt, alloc, retained.1);
    is_retained(rt, alloc, retained.0, &store, retained.2);
    drop(store);
}

mod allocations {
    use super::{PUT, RETAINED, has_line, has_own_lines};

    #[test]
    fn a_line_is_put(rt: HostRuntime) {
        for put in &PUT {
            has_line(&rt, rt.alloc(), put);
        }
    }

    #[test]
    fn lines_are_retained(rt: HostRuntime) {
        for retained in &RETAINED {
            has_own_lines(&rt, rt.alloc(), retained);
        }
    }
}
