//! The calls that insert a cookie.
use crate::allocations::start;
use crate::built::cookie;
use crate::steps::new_year;
use crate::texts::url;
use cookie_store::strict::{self, StrictError, StrictResult};
use cookie_store::{Call, CookieError, CookieStore, InsertResult, RawCookie, Reply};
use std::alloc::Global;
use std::process::Abort;
use url::Url;

// A call that inserts a cookie.
#[derive(Clone, Copy, Debug)]
pub enum InsertCall {
    Parse,
    InsertRaw,
    Insert,
    Apply,
    StrictParse,
    StrictInsert,
}

pub const OUT_OF_MEMORY: StrictResult = Err(StrictError::Cookie(CookieError::Memory));

fn as_strict(reply: InsertResult) -> StrictResult {
    Ok(reply?)
}

fn reply_to_raw(
    rt: &impl Abort,
    alloc: Global,
    store: &mut CookieStore,
    text: &str,
    url: &Url,
) -> InsertResult {
    let raw = RawCookie::parse(text).expect(rt, "a cookie");
    start(alloc);
    store.insert_raw(&raw, url, new_year())
}

fn reply_to_cookie(
    rt: &impl Abort,
    alloc: Global,
    store: &mut CookieStore,
    text: &str,
    url: &Url,
) -> InsertResult {
    let cookie = cookie(rt, alloc, &(url.as_str(), text));
    start(alloc);
    store.insert(cookie, url, new_year())
}

fn strict_reply_to_cookie(
    rt: &impl Abort,
    alloc: Global,
    store: &mut CookieStore,
    text: &str,
    url: &Url,
) -> StrictResult {
    let cookie = cookie(rt, alloc, &(url.as_str(), text));
    start(alloc);
    strict::insert(store, cookie, url, new_year())
}

pub fn set_call(rt: &impl Abort, alloc: Global, from: &str, text: &str) -> Call {
    Call::Set {
        text: String::from_str(alloc, text).expect(rt, "memory"),
        url: url(rt, alloc, from),
        now: new_year(),
    }
}

fn reply_to_call(alloc: Global, store: &mut CookieStore, call: Call) -> InsertResult {
    start(alloc);
    let outcome = store.apply(call);
    let reply = match &outcome {
        Ok(Reply::Stored(reply)) => *reply,
        _ => Err(CookieError::Memory),
    };
    drop(outcome);
    reply
}

// Inserts the cookie of a `Set-Cookie` value received from the URL. Only what the call allocates
// counts, from its start on.
pub fn reply_by(
    rt: &impl Abort,
    alloc: Global,
    call: InsertCall,
    store: &mut CookieStore,
    text: &str,
    url: &Url,
) -> StrictResult {
    match call {
        InsertCall::Parse => {
            start(alloc);
            as_strict(store.parse(text, url, new_year()))
        }
        InsertCall::InsertRaw => as_strict(reply_to_raw(rt, alloc, store, text, url)),
        InsertCall::Insert => as_strict(reply_to_cookie(rt, alloc, store, text, url)),
        InsertCall::Apply => {
            let call = set_call(rt, alloc, url.as_str(), text);
            as_strict(reply_to_call(alloc, store, call))
        }
        InsertCall::StrictParse => {
            start(alloc);
            strict::parse(store, text, url, new_year())
        }
        InsertCall::StrictInsert => strict_reply_to_cookie(rt, alloc, store, text, url),
    }
}
