//! Stores that are built from cookies.
use crate::steps::new_year;
use crate::texts::url;
use cookie_store::serde::FormatError;
use cookie_store::{Cookie, CookieStore, Error, HashKey, StoreAlloc};
use std::alloc::Global;
use std::process::Abort;
use std::vec::IntoIter;

// A URL and a `Set-Cookie` value received from it.
pub type UrlAndValue = (&'static str, &'static str);

pub type Item = Result<Cookie<'static>, Error>;

pub fn cookie(rt: &impl Abort, alloc: Global, came: &(&str, &str)) -> Cookie<'static> {
    let url = url(rt, alloc, came.0);
    Cookie::parse_owned(alloc, came.1, &url, new_year()).expect(rt, "a cookie")
}

pub fn items(rt: &impl Abort, alloc: Global, came: &[UrlAndValue]) -> Vec<Item> {
    let mut items = Vec::new(alloc);
    for came in came {
        let cookie = cookie(rt, alloc, came);
        items.push(Ok(cookie)).expect(rt, "memory");
    }
    items
}

// The store built from the items, expired cookies included, or their first error.
pub fn built(alloc: Global, items: IntoIter<Item>) -> Result<CookieStore, FormatError> {
    let alloc = StoreAlloc {
        alloc,
        hash_key: HashKey::Fixed,
    };
    CookieStore::from_cookies(alloc, items, true, new_year()).map_err(FormatError::Store)
}

// A store of the cookies, expired ones included.
pub fn store_of(rt: &impl Abort, alloc: Global, came: &[UrlAndValue]) -> CookieStore {
    let items = items(rt, alloc, came).into_iter();
    built(alloc, items).expect(rt, "a store")
}
