//! Stored cookies: found by domain, path and name, counted, and removed. These calls allocate
//! nothing.
use crate::checks::{is_equal, is_text};
use crate::steps::{EXPIRED, INSERTED, Step, new_year, take_all};
use crate::texts::add;
use cookie_store::psl::List;
use cookie_store::{Cookie, CookieStore};
use jiff::civil::{DateTime, date};
use std::alloc::Global;
use std::process::Abort;

// A session cookie, a cookie that expires after a minute, and an expired one.
static ROWS: [Step; 4] = [
    Step::Set("http://a.com/", "s=1", INSERTED),
    Step::Set("http://b.com/", "e=3; Path=/p", INSERTED),
    Step::Set("http://a.com/", "m=2; Max-Age=60", INSERTED),
    Step::Set("http://b.com/", "e=4; Path=/p; Max-Age=0", EXPIRED),
];

// A domain, a path, a name, the value of that cookie, and its value if it is unexpired after the
// minute.
type Found = (
    &'static str,
    &'static str,
    &'static str,
    Option<&'static str>,
    Option<&'static str>,
);

static FOUND: [Found; 5] = [
    ("a.com", "/", "s", Some("1"), Some("1")),
    ("a.com", "/", "m", Some("2"), None),
    ("b.com", "/p", "e", Some("3"), None),
    ("b.com", "/", "e", None, None),
    ("a.com", "/", "S", None, None),
];

// The value of a cookie, if there is one.
fn value_of<'a>(row: Option<&'a Cookie<'static>>) -> Option<&'a str> {
    match row {
        Some(row) => Some(row.value()),
        None => None,
    }
}

fn is_found(rt: &impl Abort, store: &CookieStore, found: &Found, now: DateTime) {
    let (domain, path, name, any, unexpired) = *found;
    let values = (
        value_of(store.get_any(domain, path, name)),
        value_of(store.get(domain, path, name, now)),
    );
    is_equal(rt, &values, &(any, unexpired), found);
    let are_there = (
        store.contains_any(domain, path, name),
        store.contains(domain, path, name, now),
    );
    is_equal(rt, &are_there, &(any.is_some(), unexpired.is_some()), found);
}

fn push_unexpired(rt: &impl Abort, names: &mut String, store: &CookieStore, now: DateTime) {
    for cookie in store.iter_unexpired(now) {
        add(rt, names, " ", &[cookie.name()]);
    }
}

fn are_unexpired(rt: &impl Abort, alloc: Global, store: &CookieStore, now: DateTime, wanted: &str) {
    let mut names = String::new(alloc);
    push_unexpired(rt, &mut names, store, now);
    is_text(rt, names.as_str(), wanted, &now);
}

// Checks how many cookies there are, and how many of them are unexpired.
fn are_counted(rt: &impl Abort, store: &CookieStore, now: DateTime, wanted: (usize, usize)) {
    let counts = (store.len(), store.len_unexpired(now));
    is_equal(rt, &counts, &wanted, &now);
    is_equal(rt, &store.is_empty(), &(wanted.0 == 0), &now);
}

#[test]
fn stored_cookies_are_found_and_removed(rt: HostRuntime) {
    let mut store = CookieStore::new(rt.alloc());
    store.set_domain_limit(50);
    store.set_suffix_list(List::new(rt.alloc()));
    take_all(&rt, rt.alloc(), &mut store, &ROWS, new_year());
    store.index_secure();
    let now = date(2026, 1, 1).at(0, 1, 0, 0);
    for found in &FOUND {
        is_found(&rt, &store, found, now);
    }
    are_unexpired(&rt, rt.alloc(), &store, now, "s");
    are_counted(&rt, &store, now, (3, 1));
    is_equal(&rt, &store.remove_expired(now), &2, &now);
    store.retain(|cookie| cookie.name() != "s");
    are_counted(&rt, &store, now, (0, 0));
    drop(store);
}
