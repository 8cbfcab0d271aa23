//! Files that extensions of browsers and Playwright export.
ghost use Rattle.std.specs.Prelude.{◌≡◌};
ghost use Rattle.cookies.specs.ExportItems.{expiry_name};

use crate::error::FileError;
use crate::export_item::{is_partitioned, read_cookie};
use crate::format::Export;
use cookie_store::saved::SavedError;
use cookie_store::{Cookie, CookieStore, Error, StoreAlloc};
use jiff::civil::DateTime;
use serde_json::Value;
use std::alloc::{AllocError, Global};

/// What an export holds.
#[derive(Drop)]
pub struct Exported {
    /// The cookies.
    pub store: CookieStore,
    /// The numbers of the items that are not cookies, counted from 1.
    pub malformed: Vec<usize>,
    /// How many items are partitioned cookies, which a store would send with requests of every site.
    pub partitioned: usize,
}

/// Reads the cookies of an export, expired ones and session cookies included. Of cookies with the same
/// domain, path and name the last is kept.
pub fn read_exported(
    alloc: StoreAlloc,
    export: Export,
    contents: &[u8],
    now: DateTime,
) -> Result<Exported, FileError> {
    let json = read_json(alloc, contents)?;
    match list_of(export, &json) {
        Some(items) => read_list(alloc, export, items, now),
        None => Err(FileError::NotExported(export)),
    }
}

// Reads the list of an export.
fn read_list(
    alloc: StoreAlloc,
    export: Export,
    items: &[Value],
    now: DateTime,
) -> Result<Exported, FileError> {
    read_items(alloc.alloc, export, items)?.into_store(alloc, now)
}

/// The cookies of an export, and what is left out.
#[derive(Drop)]
pub struct Items {
    cookies: Vec<Result<Cookie<'static>, Error>>,
    malformed: Vec<usize>,
    partitioned: usize,
}

impl Items {
    /// Returns those of an export without items.
    pub fn new(alloc: Global) -> Items {
        Items {
            cookies: Vec::new(alloc),
            malformed: Vec::new(alloc),
            partitioned: 0,
        }
    }

    /// Adds the item of this number, which is not a cookie if `cookie` is `None`.
    pub fn add(
        &mut self,
        number: usize,
        cookie: Option<Cookie<'static>>,
        is_partitioned: bool,
    ) -> Result<(), AllocError> {
        match cookie {
            Some(_) if is_partitioned => {
                self.partitioned = self.partitioned.saturating_add(1);
            }
            Some(cookie) => self.cookies.push(Ok(cookie))?,
            None => self.malformed.push(number)?,
        }
        Ok(())
    }

    /// Returns a store of the cookies, with what is left out.
    pub fn into_store(self, alloc: StoreAlloc, now: DateTime) -> Result<Exported, FileError> {
        let Items {
            cookies,
            malformed,
            partitioned,
        } = self;
        Ok(Exported {
            store: CookieStore::from_cookies(alloc, cookies.into_iter(), true, now)?,
            malformed,
            partitioned,
        })
    }
}

// Reads the items of a list.
fn read_items(alloc: Global, export: Export, items: &[Value]) -> Result<Items, AllocError> {
    let expiry = expiry_name(export);
    let mut read = Items::new(alloc);
    for (index, item) in items.iter().enumerate() {
        let cookie = read_cookie(alloc, item, expiry)?;
        read.add(index.saturating_add(1), cookie, is_partitioned(item))?;
    }
    Ok(read)
}

// Reads a value in JSON.
fn read_json(alloc: StoreAlloc, contents: &[u8]) -> Result<Value, FileError> {
    let Ok(text) = str::from_utf8(contents) else {
        return Err(FileError::from(Error::NotUtf8));
    };
    match Value::from_str(alloc.alloc, text) {
        Ok(value) => Ok(value),
        Err(error) if error.is_memory() => Err(FileError::from(Error::Memory)),
        Err(_) => Err(FileError::from(Error::Saved(SavedError::Json))),
    }
}

// Returns the items of an export, or `None` if it has no list of them.
fn list_of(export: Export, json: &Value) -> Option<&[Value]> {
    let list = match export {
        Export::Browser => json.as_array()?,
        Export::Playwright => json.get("cookies")?.as_array()?,
    };
    Some(list.as_slice())
}

// Returns the name of the member that has the expiry.
fn expiry_name(export: Export) -> &'static str
    ensures { result.now ≡ expiry_name export }
{
    match export {
        Export::Browser => "expirationDate",
        Export::Playwright => "expires",
    }
}
