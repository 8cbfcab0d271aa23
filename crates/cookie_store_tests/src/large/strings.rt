//! Long names, values, attributes, URLs and public suffix lists.
use crate::checks::{is_equal, is_text};
use crate::insertion::{InsertCall, reply_by};
use crate::strict::INSERTED;
use crate::texts::{add, url};
use cookie_store::CookieStore;
use cookie_store::inputs::{parse_suffixes, parse_unambiguous};
use cookie_store::psl::List;
use cookie_store::strict::{StrictError, StrictResult};
use std::alloc::Global;
use std::process::Abort;

// A page, whose URL has 3,072 bytes, in a folder with a path of 3,051 bytes.
fn page(rt: &impl Abort, alloc: Global) -> String {
    let name = "p".repeat(alloc, 3_050).expect(rt, "memory");
    format!(in alloc; "http://a.example/{name}/page").expect(rt, "memory")
}

const TOO_LONG: StrictResult = Err(StrictError::TooLong);

// A call, the lengths of the name, of the value and of the name in the Path attribute, the reply,
// and the length of the path that is stored.
type Long = (InsertCall, usize, usize, usize, StrictResult, usize);

// By the rules of browsers name and value have at most 4,096 bytes, and a longer attribute than
// 1,024 bytes is ignored.
static LONG: [Long; 18] = [
    (InsertCall::Parse, 1, 4_095, 102_400, INSERTED, 102_401),
    (InsertCall::InsertRaw, 1, 4_095, 102_400, INSERTED, 102_401),
    (InsertCall::Insert, 1, 4_095, 102_400, INSERTED, 102_401),
    (InsertCall::Apply, 1, 4_095, 102_400, INSERTED, 102_401),
    (InsertCall::StrictParse, 1, 4_095, 102_400, INSERTED, 3_051),
    (
        InsertCall::StrictInsert,
        1,
        4_095,
        102_400,
        INSERTED,
        102_401,
    ),
    (InsertCall::Parse, 1, 102_400, 4_095, INSERTED, 4_096),
    (InsertCall::InsertRaw, 1, 102_400, 4_095, INSERTED, 4_096),
    (InsertCall::Insert, 1, 102_400, 4_095, INSERTED, 4_096),
    (InsertCall::Apply, 1, 102_400, 4_095, INSERTED, 4_096),
    (InsertCall::StrictParse, 1, 4_096, 0, TOO_LONG, 0),
    (InsertCall::StrictParse, 4_095, 1, 0, INSERTED, 1),
    (InsertCall::StrictParse, 4_096, 1, 0, TOO_LONG, 0),
    (InsertCall::StrictParse, 2_048, 2_048, 0, INSERTED, 1),
    (InsertCall::StrictParse, 2_048, 2_049, 0, TOO_LONG, 0),
    (InsertCall::StrictInsert, 2_048, 2_049, 0, TOO_LONG, 0),
    (InsertCall::StrictParse, 1, 1, 1_023, INSERTED, 1_024),
    (InsertCall::StrictParse, 1, 1, 1_024, INSERTED, 3_051),
];

fn set_cookie(rt: &impl Abort, alloc: Global, long: &Long) -> String {
    let name = "n".repeat(alloc, long.1).expect(rt, "memory");
    let value = "v".repeat(alloc, long.2).expect(rt, "memory");
    let path = "q".repeat(alloc, long.3).expect(rt, "memory");
    format!(in alloc; "{name}={value}; Path=/{path}").expect(rt, "memory")
}

// Checks the lengths of the name, the value and the path of the cookie, if there is one.
fn has_cookie(rt: &impl Abort, store: &CookieStore, long: &Long) {
    let lengths = match store.iter_any().next() {
        Some(cookie) => (
            cookie.name().len(),
            cookie.value().len(),
            cookie.path.as_str().len(),
        ),
        None => (long.1, long.2, 0),
    };
    is_equal(rt, &lengths, &(long.1, long.2, long.5), long);
}

fn is_inserted(rt: &impl Abort, alloc: Global, page: &str, long: &Long) {
    let url = url(rt, alloc, page);
    let text = set_cookie(rt, alloc, long);
    let mut store = CookieStore::new(alloc);
    let reply = reply_by(rt, alloc, long.0, &mut store, text.as_str(), &url);
    is_equal(rt, &reply, &long.4, long);
    has_cookie(rt, &store, long);
    drop(store);
}

#[test]
fn long_header_values_are_inserted(rt: HostRuntime) {
    let page = page(&rt, rt.alloc());
    for long in &LONG {
        is_inserted(&rt, rt.alloc(), page.as_str(), long);
    }
}

#[test]
fn a_long_url_is_parsed(rt: HostRuntime) {
    let page = page(&rt, rt.alloc());
    let url = parse_unambiguous(rt.alloc(), page.as_str()).expect(&rt, "memory");
    let url = url.expect(&rt, "a URL");
    is_text(&rt, url.as_str(), page.as_str(), &"its string");
}

// A public suffix list of some 430 KB.
fn rules(rt: &impl Abort, alloc: Global) -> String {
    let mut rules = String::new(alloc);
    for number in 0..30_000 {
        let rule = format!(in alloc; "s{number}.example").expect(rt, "memory");
        add(rt, &mut rules, "\n", &[rule.as_str()]);
    }
    rules
}

// A domain, and whether it is a public suffix of the list.
static DOMAINS: [(&str, bool); 4] = [
    ("s0.example", true),
    ("s15000.example", true),
    ("s29999.example", true),
    ("s30000.example", false),
];

// Checks the rules of the list, and whether one matches each top-level domain.
fn has_rules(rt: &impl Abort, list: &List, has_default_rule: bool) {
    for row in &DOMAINS {
        let is_suffix = list.registrable_domain(row.0).is_none();
        is_equal(rt, &is_suffix, &row.1, row);
    }
    let suffix = list.suffix("example").expect(rt, "a suffix");
    is_equal(rt, &suffix.is_known(), &has_default_rule, &"the rule `*`");
}

#[test]
fn a_long_list_is_parsed_and_cloned(rt: HostRuntime) {
    let rules = rules(&rt, rt.alloc());
    let list = List::from_text(rt.alloc(), rules.as_str()).expect(&rt, "a list");
    let copy = list.clone().expect(&rt, "memory");
    has_rules(&rt, &copy, false);
    let list = list.with_default_rule().expect(&rt, "memory");
    has_rules(&rt, &list, true);
    drop(copy);
    drop(list);
}

#[test]
fn a_long_file_of_a_list_is_parsed(rt: HostRuntime) {
    let rules = rules(&rt, rt.alloc());
    let list = parse_suffixes(rt.alloc(), rules.as_str(), false).expect(&rt, "a list");
    has_rules(&rt, &list, true);
    drop(list);
}
