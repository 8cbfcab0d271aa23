//! The calls that insert a cookie, with each allocation failing.
use super::{FOUR, FROM, GIVEN, end, store_of_texts};
use crate::checks::is_equal;
use crate::insertion::{InsertCall, OUT_OF_MEMORY, reply_by};
use crate::steps::new_year;
use crate::strict::{EXPIRED, INSERTED, UPDATED};
use crate::texts::{are_given, url};
use cookie_store::strict::{StrictError, StrictResult};
use cookie_store::{CookieError, CookieStore};
use std::alloc::Global;
use std::process::Abort;

// A URL, a `Set-Cookie` value received from it, the length of an attribute behind it, the reply,
// and what a store of four cookies returns for the URL after it.
type Case = (
    &'static str,
    &'static str,
    usize,
    StrictResult,
    &'static str,
);

// A new cookie in an existing path, whose domain is mapped to ASCII; in a new path of an existing
// domain; in a new domain; one that replaces; one that expires a stored cookie; and one that has
// expired.
const CASES: [Case; 6] = [
    (
        FROM,
        "w=1; Domain=\u{ff42}.example.com; Path=/",
        0,
        INSERTED,
        "x=1; w=1; z=1; y=1; u=1",
    ),
    (
        FROM,
        "v=1; Domain=b.example.com; Path=/p/q",
        0,
        INSERTED,
        "x=1; z=1; v=1; y=1; u=1",
    ),
    (FROM, "t=1", 0, INSERTED, "x=1; z=1; y=1; u=1; t=1"),
    (
        FROM,
        "y=2; Domain=example.com; Path=/",
        0,
        UPDATED,
        "x=1; z=1; y=2; u=1",
    ),
    (
        FROM,
        "y=2; Domain=example.com; Path=/; Max-Age=0",
        0,
        EXPIRED,
        "x=1; z=1; u=1",
    ),
    (
        FROM,
        "s=1; Max-Age=0",
        0,
        Err(StrictError::Cookie(CookieError::Expired)),
        GIVEN,
    ),
];

// An HttpOnly cookie from this URL is rejected.
const FTP: &str = "ftp://a.b.example.com/p/q";

const HTTP_ONLY: StrictResult = Err(StrictError::Cookie(CookieError::NonHttpScheme));

// By the rules of browsers an attribute of 1,025 bytes is ignored.
const STRICT_CASES: [Case; 10] = [
    (FTP, "t=1", 1_024, INSERTED, "x=1; z=1; y=1; u=1; t=1"),
    (FTP, "t=1", 1_025, INSERTED, "x=1; z=1; y=1; u=1; t=1"),
    (
        FTP,
        "w=1; Domain=B.example.com; Path=/",
        0,
        INSERTED,
        "x=1; w=1; z=1; y=1; u=1",
    ),
    (
        FTP,
        "w=1; Domain=\u{ff42}.example.com; Path=/",
        0,
        Err(StrictError::Cookie(CookieError::DomainMismatch)),
        GIVEN,
    ),
    (
        FTP,
        "y=2; Domain=example.com; Path=/",
        0,
        UPDATED,
        "x=1; z=1; y=2; u=1",
    ),
    (FTP, "t=1; Secure", 0, Err(StrictError::InsecureUrl), GIVEN),
    (
        FTP,
        "t=\x7f",
        1_025,
        Err(StrictError::ControlCharacter),
        GIVEN,
    ),
    (
        FTP,
        "t",
        1_025,
        Err(StrictError::Cookie(CookieError::Parse)),
        GIVEN,
    ),
    (FTP, "t=1; HttpOnly", 0, HTTP_ONLY, GIVEN),
    (FTP, "t=1; HttpOnly", 1_025, HTTP_ONLY, GIVEN),
];

static INSERTIONS: [(InsertCall, &[Case]); 6] = [
    (InsertCall::Parse, &CASES),
    (InsertCall::InsertRaw, &CASES),
    (InsertCall::Insert, &CASES),
    (InsertCall::Apply, &CASES),
    (InsertCall::StrictParse, &STRICT_CASES),
    (InsertCall::StrictInsert, &CASES),
];

// The header value with an attribute whose value has this length.
fn with_attribute(rt: &impl Abort, alloc: Global, value: &str, length: usize) -> String {
    let attribute = "a".repeat(alloc, length).expect(rt, "memory");
    format!(in alloc; "{value}; Comment={attribute}").expect(rt, "memory")
}

// Checks the reply and what the store returns after it. If an allocation failed, the call may have
// run out of memory, and the store is unchanged.
fn is_inserted(
    rt: &impl Abort,
    alloc: Global,
    call: InsertCall,
    store: &mut CookieStore,
    case: &Case,
) {
    let url = url(rt, alloc, case.0);
    let text = with_attribute(rt, alloc, case.1, case.2);
    let reply = reply_by(rt, alloc, call, store, text.as_str(), &url);
    let ran_out = !end(alloc) && reply == OUT_OF_MEMORY;
    let wanted = if ran_out { OUT_OF_MEMORY } else { case.3 };
    is_equal(rt, &reply, &wanted, &(call, case));
    let after = (case.0, if ran_out { GIVEN } else { case.4 });
    are_given(rt, alloc, store, after, new_year(), &case.1);
}

// Checks that the store still has its list.
fn rejects_by_its_list(rt: &impl Abort, alloc: Global, store: &mut CookieStore) {
    let url = url(rt, alloc, FROM);
    let reply = store.parse("s=1; Domain=com", &url, new_year());
    is_equal(rt, &reply, &Err(CookieError::PublicSuffix), &"the list");
}

fn are_inserted(rt: &impl Abort, alloc: Global, call: InsertCall, cases: &[Case]) {
    for case in cases {
        let mut store = store_of_texts(rt, alloc, &FOUR);
        is_inserted(rt, alloc, call, &mut store, case);
        rejects_by_its_list(rt, alloc, &mut store);
        drop(store);
    }
}

#[test]
fn cookies_are_inserted(rt: HostRuntime) {
    for row in &INSERTIONS {
        are_inserted(&rt, rt.alloc(), row.0, row.1);
    }
}

// With a limit of two, the cookie that was created first is evicted.
static EVICTING: Case = (
    FROM,
    "v=1; Domain=b.example.com; Path=/p/q",
    0,
    INSERTED,
    "z=1; v=1; y=1; u=1",
);

#[test]
fn a_cookie_is_inserted_under_a_limit(rt: HostRuntime) {
    let mut store = store_of_texts(&rt, rt.alloc(), &FOUR).with_domain_limit(2);
    is_inserted(&rt, rt.alloc(), InsertCall::Parse, &mut store, &EVICTING);
    drop(store);
}
