//! Cookies of one store that are merged into another.
use crate::checks::is_equal;
use crate::formats::{Form, from_text};
use crate::steps::{INSERTED, Step, new_year, store_under, take_all};
use crate::texts::are_listed;
use cookie_store::{CookieStore, strict};
use std::alloc::{AllocError, Global};
use std::process::Abort;

// What the store has before.
static STORED: [Step; 1] = [Step::Set("http://a.com/", "z=1", INSERTED)];

// What is merged: a cookie of a host, a domain cookie whose name demands a host-only one, a domain
// cookie of a public suffix, and a cookie whose domain is not a host.
const FILE: &str = "a.com\tFALSE\t/\tTRUE\t0\tp\t1\n.a.com\tTRUE\t/\tTRUE\t0\t__Host-q\t2\n\
    .com\tTRUE\t/\tFALSE\t0\tr\t3\na b\tFALSE\t/\tFALSE\t0\ts\t4\n";

// Whether the rules of browsers hold, how many cookies are left out, and the cookies stored then.
type Merge = (bool, usize, &'static str);

static MERGES: [Merge; 2] = [
    (false, 1, "a.com / z, a.com / p, a.com / __Host-q, com / r"),
    (true, 2, "a.com / z, a.com / p, com / r"),
];

pub fn merged(
    store: &mut CookieStore,
    other: &CookieStore,
    is_strict: bool,
) -> Result<usize, AllocError> {
    if is_strict {
        strict::merge(store, other, new_year())
    } else {
        store.merge(other, new_year())
    }
}

fn is_merged(rt: &impl Abort, alloc: Global, other: &CookieStore, merge: &Merge) {
    let (is_strict, left_out, wanted) = *merge;
    let mut store = store_under(rt, alloc, "com\n");
    take_all(rt, alloc, &mut store, &STORED, new_year());
    let counted = merged(&mut store, other, is_strict).expect(rt, "memory");
    is_equal(rt, &counted, &left_out, merge);
    are_listed(rt, alloc, &store, wanted, merge);
    drop(store);
}

#[test]
fn cookies_are_merged_by_the_rules_of_the_store(rt: HostRuntime) {
    let other = from_text(rt.alloc(), Form::Netscape, true, FILE).expect(&rt, "a file");
    for merge in &MERGES {
        is_merged(&rt, rt.alloc(), &other, merge);
    }
    drop(other);
}
