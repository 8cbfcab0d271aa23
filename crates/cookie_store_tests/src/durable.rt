//! Calls of a durable store over files in memory: each change is there when they are opened again.
ghost use Rattle.sqlite_store.specs.FileStore.{view};
ghost use Rattle.cookie_durable.specs.Durable.{IsInStep};

use crate::built::cookie;
use crate::checks::{is_equal, is_text};
use crate::steps::{EXPIRED, INSERTED, UPDATED, list, new_year};
use crate::texts::{push_cookies, url};
use cookie_durable::strict::{self, Context, StrictError, StrictResult};
use cookie_durable::{DurableError, DurableStore};
use cookie_store::{
    Call, Cookie, CookieError, HashKey, InsertResult, Reply, StoreAction, StoreAlloc,
};
use sqlite_disk::{Files, Memory};
use sqlite_pager::Options;
use sqlite_store::FileStore;
use sqlite_trees::store::Store;
use std::alloc::Global;
use std::hash::RandomState;
use std::process::Abort;
use std::test::Fail;

const FROM: &str = "https://shop.example/";

const CROSS_SITE: Context = Context {
    is_same_site: false,
    is_top_level: false,
    is_safe: false,
    is_lax_by_default: true,
};

// How many cookies are inserted at once, and how long the value of each is: more than a page.
const MANY: usize = 600;

const LONG: usize = 5000;

// A call, and what it returns. A cookie is a `Set-Cookie` value received from `FROM`.
#[derive(Clone, Copy, Debug)]
enum Change {
    Parse(&'static str, InsertResult),
    ParseUnderList(&'static str, InsertResult),
    ParseCrossSite(&'static str, StrictResult),
    Insert(&'static str, InsertResult),
    InsertStrictly(&'static str, StrictResult),
    Apply(&'static str, InsertResult),
    ApplyEach(&'static str, &'static str),
    ApplyAll(&'static str, &'static str),
    Remove(&'static str, bool),
    RemoveExpired(usize),
    RemoveDomain(&'static str, usize),
    RemoveAll,
    Clear,
}

// Calls, and the cookies that the files have after each, in creation order.
static STEPS: [(Change, &str); 19] = [
    (Change::Parse("a=1", INSERTED), "a=1"),
    (Change::Insert("b=2", INSERTED), "a=1; b=2"),
    (
        Change::ParseCrossSite("c=3", Err(StrictError::CrossSite)),
        "a=1; b=2",
    ),
    (
        Change::ParseCrossSite("c=3; SameSite=None; Secure", Ok(StoreAction::Inserted)),
        "a=1; b=2; c=3",
    ),
    (
        Change::InsertStrictly("__Host-d=4", Err(StrictError::Prefix)),
        "a=1; b=2; c=3",
    ),
    (
        Change::InsertStrictly("d=4", Ok(StoreAction::Inserted)),
        "a=1; b=2; c=3; d=4",
    ),
    (Change::Remove("b", true), "a=1; c=3; d=4"),
    (Change::Remove("b", false), "a=1; c=3; d=4"),
    (
        Change::ParseUnderList("e=5; Domain=example", Err(CookieError::PublicSuffix)),
        "a=1; c=3; d=4",
    ),
    (Change::Apply("a=5; Max-Age=60", UPDATED), "a=5; c=3; d=4"),
    (Change::ApplyEach("c=6", "e=7"), "a=5; c=6; d=4; e=7"),
    (Change::ApplyAll("d=8", "f=9"), "a=5; c=6; d=8; e=7; f=9"),
    (
        Change::Parse("a=5; Max-Age=0", EXPIRED),
        "a=5; c=6; d=8; e=7; f=9",
    ),
    (Change::RemoveExpired(1), "c=6; d=8; e=7; f=9"),
    (Change::RemoveDomain("example", 0), "c=6; d=8; e=7; f=9"),
    (Change::RemoveDomain("shop.example", 4), ""),
    (Change::Parse("a=1", INSERTED), "a=1"),
    (Change::RemoveAll, ""),
    (Change::Clear, ""),
];

fn set_call(rt: &impl Abort, alloc: Global, text: &str) -> Call {
    Call::Set {
        text: String::from_str(alloc, text).expect(rt, "a string"),
        url: url(rt, alloc, FROM),
        now: new_year(),
    }
}

fn set_calls(rt: &impl Abort, alloc: Global, first: &str, last: &str) -> Vec<Call> {
    let mut calls = Vec::new(alloc);
    calls.push(set_call(rt, alloc, first)).expect(rt, "a call");
    calls.push(set_call(rt, alloc, last)).expect(rt, "a call");
    calls
}

// Executes a call that parses a header value.
fn parse<S: Store>(
    rt: &impl Abort,
    alloc: Global,
    durable: &mut DurableStore<S>,
    change: Change,
) -> Result<(), DurableError>
    requires { IsInStep durable.old (S.Store.view durable.old.file) }
{
    let (url, now) = (url(rt, alloc, FROM), new_year());
    match change {
        Change::Parse(text, wanted) => {
            let reply = durable.parse(alloc, text, &url, now)?;
            is_equal(rt, &reply, &wanted, &text);
        }
        Change::ParseUnderList(text, wanted) => {
            durable.set_suffix_list(list(rt, alloc, "example"));
            let reply = durable.parse(alloc, text, &url, now)?;
            is_equal(rt, &reply, &wanted, &text);
        }
        Change::ParseCrossSite(text, wanted) => {
            let reply = strict::parse_in_context(durable, alloc, text, &url, CROSS_SITE, now)?;
            is_equal(rt, &reply, &wanted, &text);
        }
        _ => return insert(rt, alloc, durable, change),
    }
    Ok(())
}

// Executes a call that inserts a cookie.
fn insert<S: Store>(
    rt: &impl Abort,
    alloc: Global,
    durable: &mut DurableStore<S>,
    change: Change,
) -> Result<(), DurableError>
    requires { IsInStep durable.old (S.Store.view durable.old.file) }
{
    let (url, now) = (url(rt, alloc, FROM), new_year());
    match change {
        Change::Insert(text, wanted) => {
            let reply = durable.insert(alloc, cookie(rt, alloc, &(FROM, text)), &url, now)?;
            is_equal(rt, &reply, &wanted, &text);
        }
        Change::InsertStrictly(text, wanted) => {
            let cookie = cookie(rt, alloc, &(FROM, text));
            let reply = strict::insert(durable, alloc, cookie, &url, now)?;
            is_equal(rt, &reply, &wanted, &text);
        }
        Change::Apply(text, wanted) => {
            let reply = durable.apply(alloc, set_call(rt, alloc, text))?;
            let is_wanted = matches!(reply, Reply::Stored(reply) if reply == wanted);
            is_equal(rt, &is_wanted, &true, &text);
        }
        Change::ApplyEach(first, last) => {
            let calls = set_calls(rt, alloc, first, last);
            durable.apply_each(alloc, calls).1?;
        }
        Change::ApplyAll(first, last) => {
            let calls = set_calls(rt, alloc, first, last);
            durable.apply_all(alloc, calls).1?;
        }
        _ => return remove(rt, alloc, durable, change),
    }
    Ok(())
}

// Executes a call that removes cookies.
fn remove<S: Store>(
    rt: &impl Abort,
    alloc: Global,
    durable: &mut DurableStore<S>,
    change: Change,
) -> Result<(), DurableError>
    requires { IsInStep durable.old (S.Store.view durable.old.file) }
{
    match change {
        Change::Remove(name, wanted) => {
            let removed = durable.remove(alloc, "shop.example", "/", name)?;
            is_equal(rt, &removed.is_some(), &wanted, &name);
            Ok(())
        }
        Change::RemoveExpired(wanted) => {
            let count = durable.remove_expired(alloc, new_year())?;
            is_equal(rt, &count, &wanted, &"expired cookies");
            Ok(())
        }
        Change::RemoveDomain(domain, wanted) => {
            let count = durable.remove_domain(alloc, domain)?;
            is_equal(rt, &count, &wanted, &domain);
            Ok(())
        }
        Change::RemoveAll => durable.retain(alloc, |_cookie: &Cookie<'_>| -> bool { false }),
        _ => durable.clear(alloc),
    }
}

fn no_files(alloc: Global) -> Files<Memory> {
    Files {
        log: Memory::new(alloc),
        db: Memory::new(alloc),
    }
}

fn open(
    rt: &impl Abort,
    alloc: StoreAlloc,
    files: Files<Memory>,
    keep_session: bool,
) -> DurableStore<FileStore<Memory>>
    ensures { IsInStep result (view result.file) }
{
    assert!(rt; files.may_be_used());
    match DurableStore::open_files(alloc, files, Options::new(7), keep_session) {
        Ok(durable) => durable,
        Err(_) => panic!(rt; "the files are not opened"),
    }
}

// Opens the files, executes the call, and closes them.
fn execute(
    rt: &impl Abort,
    alloc: StoreAlloc,
    files: Files<Memory>,
    change: Change,
) -> Files<Memory> {
    let mut durable = open(rt, alloc, files, true);
    parse(rt, alloc.alloc, &mut durable, change).expect(rt, "a commit");
    durable.into_file().close()
}

// Opens the files, checks their cookies, and closes them.
fn check(
    rt: &impl Abort,
    alloc: StoreAlloc,
    files: Files<Memory>,
    keep_session: bool,
    wanted: &str,
) -> Files<Memory> {
    let durable = open(rt, alloc, files, keep_session);
    let mut text = String::new(alloc.alloc);
    for cookie in durable.store().iter_any() {
        push_cookies(rt, &mut text, &[cookie]);
    }
    is_text(rt, text.as_str(), wanted, &wanted);
    durable.into_file().close()
}

// Executes all calls, and checks the cookies after each.
fn execute_all(rt: &impl Abort, alloc: StoreAlloc) {
    let mut files = no_files(alloc.alloc);
    for (change, wanted) in &STEPS {
        files = execute(rt, alloc, files, *change);
        files = check(rt, alloc, files, true, wanted);
    }
}

#[test]
fn changes_are_found_again(rt: HostRuntime) {
    execute_all(&rt, StoreAlloc::from(rt.alloc()));
}

#[test]
fn changes_are_found_again_under_a_random_key(rt: HostRuntime) -> Result<(), Fail> {
    let alloc = StoreAlloc {
        alloc: rt.alloc(),
        hash_key: HashKey::Random(RandomState::new(&rt)?),
    };
    execute_all(&rt, alloc);
    Ok(())
}

#[test]
fn session_cookies_are_removed_by_an_open(rt: HostRuntime) {
    let alloc = StoreAlloc::from(rt.alloc());
    let change = Change::ApplyAll("a=1", "b=2; Max-Age=60");
    let files = execute(&rt, alloc, no_files(rt.alloc()), change);
    let files = check(&rt, alloc, files, true, "a=1; b=2");
    let files = check(&rt, alloc, files, false, "b=2");
    let _ = check(&rt, alloc, files, true, "b=2");
}

// Calls that set a cookie at each of many paths. Its value is the number of the path and then long.
fn many_calls(rt: &impl Abort, alloc: Global) -> Vec<Call> {
    let long = "v".repeat(alloc, LONG).expect(rt, "a string");
    let mut calls = Vec::new(alloc);
    for number in 0..MANY {
        let text = format!(in alloc; "n={number}{}; Path=/{number}", long.as_str());
        let text = text.expect(rt, "a string");
        calls
            .push(set_call(rt, alloc, text.as_str()))
            .expect(rt, "a call");
    }
    calls
}

// Checks the value of the cookie at the path: what it begins with, and its length.
fn is_found<S: Store>(
    rt: &impl Abort,
    durable: &DurableStore<S>,
    path: &str,
    wanted: (&'static str, usize),
) {
    let found = durable.store().get_any("shop.example", path, "n");
    let value = found.map(|cookie| cookie.value()).unwrap_or("");
    is_equal(rt, &value.starts_with(wanted.0), &true, &path);
    is_equal(rt, &value.len(), &wanted.1, &path);
}

#[test]
fn many_cookies_are_found_again(rt: HostRuntime) {
    let alloc = StoreAlloc::from(rt.alloc());
    let mut durable = open(&rt, alloc, no_files(rt.alloc()), true);
    let (replies, executed) = durable.apply_all(rt.alloc(), many_calls(&rt, rt.alloc()));
    drop(replies);
    executed.expect(&rt, "a commit");
    let durable = open(&rt, alloc, durable.into_file().close(), true);
    is_equal(&rt, &durable.store().len(), &MANY, &"cookies");
    is_found(&rt, &durable, "/0", ("0v", 5001));
    is_found(&rt, &durable, "/299", ("299v", 5003));
    is_found(&rt, &durable, "/599", ("599v", 5003));
    drop(durable);
}
