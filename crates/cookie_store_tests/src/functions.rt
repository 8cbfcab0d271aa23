//! The functions that are passed to saving and loading, which are called once for each cookie and
//! line that counts.
use crate::built::{UrlAndValue, store_of};
use crate::checks::{is_equal, is_message};
use crate::formats::cookie_of;
use crate::steps::new_year;
use cookie_fakes::Fake;
use cookie_store::device::Counted;
use cookie_store::{Bulk, Cookie, CookieStore, Error};
use std::alloc::Global;
use std::cell::Cell;
use std::process::Abort;

// The name of the cookie, or an error for one name.
fn name_of(
    alloc: Global,
    calls: &Cell<usize>,
    rejected: &str,
    cookie: &Cookie<'_>,
) -> Result<String, Error> {
    calls.set(calls.get().saturating_add(1));
    let name = String::from_str(alloc, cookie.name())?;
    if cookie.name() == rejected {
        return Err(Error::Other(name));
    }
    Ok(name)
}

const FROM: &str = "http://a.com/";

// A session cookie between persistent ones.
static RECEIVED: [UrlAndValue; 4] = [
    (FROM, "a=1; Max-Age=300"),
    (FROM, "s=1"),
    (FROM, "b=1; Max-Age=300"),
    (FROM, "c=1; Max-Age=300"),
];

// The name with an error, what is written of the persistent cookies, and the number of calls.
type Saved = (&'static str, &'static str, usize);

static SAVED: [Saved; 4] = [
    ("", "a\nb\nc\n", 3),
    ("a", "", 1),
    ("b", "a\n", 2),
    ("c", "a\nb\n", 3),
];

fn is_saved(rt: &impl Abort, alloc: Global, store: &CookieStore, row: &Saved) {
    let calls: Cell<usize> = Cell::new(0);
    let mut writer = Counted::new(Fake::new(Vec::new(alloc), usize::MAX, 0));
    let outcome = store.save(
        &mut writer,
        |cookie| name_of(alloc, &calls, row.0, cookie),
        new_year(),
    );
    is_message(rt, alloc, outcome, row.0, row);
    let written = writer.into_inner().inner;
    let result = (written.as_slice(), calls.get());
    is_equal(rt, &result, &(row.1.as_bytes(), row.2), row);
}

#[test]
fn an_error_of_the_function_stops_the_saving(rt: HostRuntime) {
    let store = store_of(&rt, rt.alloc(), &RECEIVED);
    for row in &SAVED {
        is_saved(&rt, rt.alloc(), &store, row);
    }
    drop(store);
}

// A cookie for each line but `b`.
fn cookie_of_line<'l>(
    alloc: Global,
    calls: &Cell<usize>,
    line: &'l str,
) -> Result<Cookie<'l>, Error> {
    calls.set(calls.get().saturating_add(1));
    if line == "b" {
        return Err(Error::Other(String::from_str(alloc, line)?));
    }
    cookie_of(alloc, "any=1")
}

// Bytes, the number of calls, the bytes left unread, and the message of the error.
type Loaded = (&'static [u8], usize, &'static [u8], &'static str);

static LOADED: [Loaded; 21] = [
    (b"", 0, b"", ""),
    (b"a", 1, b"", ""),
    (b"a\n", 1, b"", ""),
    (b"a\nbc", 2, b"", ""),
    (b"\n", 1, b"", ""),
    (b"\n\n", 2, b"", ""),
    (b"a\n\n", 2, b"", ""),
    (b"\r\n\r\n", 2, b"", ""),
    (b"a\r\n\nc", 3, b"", ""),
    (b"a\r\n\nc\r\n", 3, b"", ""),
    (b"a\r\r\n\rc\r", 2, b"", ""),
    (b"\r", 1, b"", ""),
    (b"a\n\r", 2, b"", ""),
    (b"\xc3\xa9\n\x00\n\xe2\x82\xac", 3, b"", ""),
    (b"a\nb\nc\n", 2, b"c\n", "b"),
    (b"a\nb", 2, b"", "b"),
    (b"b\r\n\xff\n", 1, b"\xff\n", "b"),
    (b"a\n\xff\n", 1, b"", "the input is not UTF-8"),
    (b"a\n\xff\nb\n", 1, b"b\n", "the input is not UTF-8"),
    (b"\n\xc3\n\xa9\n", 1, b"\xa9\n", "the input is not UTF-8"),
    (b"a\xff", 0, b"", "the input is not UTF-8"),
];

// Loads with reads of one byte.
fn is_loaded(rt: &impl Abort, alloc: Global, row: &Loaded) {
    let calls: Cell<usize> = Cell::new(0);
    let mut reader = Counted::new(Fake::new(row.0, 1, 0));
    let outcome: Result<CookieStore, Error> = CookieStore::load(
        alloc,
        &mut reader,
        |line| cookie_of_line(alloc, &calls, line),
        new_year(),
    );
    let result = (calls.get(), reader.into_inner().inner);
    is_equal(rt, &result, &(row.1, row.2), row);
    is_message(rt, alloc, outcome, row.3, row);
}

#[test]
fn an_error_of_the_function_stops_the_loading(rt: HostRuntime) {
    for row in &LOADED {
        is_loaded(&rt, rt.alloc(), row);
    }
}
