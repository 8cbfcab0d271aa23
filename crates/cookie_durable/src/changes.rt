//! Changes of the table for the cookies that changed.
ghost use Rattle.std.specs.Prelude.{◌≡◌, None, map, option_map, IfOk, IfSome, List, OnOk};
ghost use Rattle.std.specs.List.{All};
ghost use Rattle.std.specs.Map.{values_of};
ghost use Rattle.std.specs.Option.{option_copied};
ghost use Rattle.sqlite_value.specs.Order.{Row as TableRow};
ghost use Rattle.cookie_laws.specs.Contents.{Contents};
ghost use Rattle.durable_table.specs.Changes.{after, HasRowid};
ghost use Rattle.cookie_durable.specs.Numbering.{id_of, key_in, IsNumbered, PutsCookie, SetsId, Touches, WritesCookie};

use crate::numbering::{Ids, Names, id_for};
use cookie_core::CookieStore;
use cookie_forms::SavedError;
use cookie_parts::Cookie;
use cookie_table::to_row;
use durable_table::Change;
use sqlite_trees::error::StoreError;
use std::alloc::{AllocError, Global};

/// Adds to `changes` the change that writes the cookie with this key, or deletes its row if the store
/// has none.
pub(crate) fn add_change(
    alloc: Global,
    store: &CookieStore,
    names: Names,
    ids: &mut Ids,
    next: &mut i64,
    changes: &mut Vec<Change>,
) -> Result<(), StoreError>
    ensures numbered { OnOk result ((before : Contents) (rows : List TableRow) → Touches (key_in names) before store.now
        → IsNumbered before ids.old.entries next.old (after changes.old.items rows)
        → IsNumbered store.now ids.new.entries next.new (after changes.new.items rows)) }
    ensures keyed { All HasRowid changes.old.items → All HasRowid changes.new.items }
{
    let cookie = store.get_any(names.0.as_str(), names.1.as_str(), names.2.as_str());
    if let Some(change) = change_for(alloc, cookie, names, ids, next)? {
        changes.push(change)?;
    }
    Ok(())
}

// Returns the change that writes the cookie, or deletes its row if the store has none.
fn change_for(
    alloc: Global,
    cookie: Option<&Cookie<'static>>,
    names: Names,
    ids: &mut Ids,
    next: &mut i64,
) -> Result<Option<Change>, StoreError>
    ensures change { IfOk result (λ change. WritesCookie (option_copied cookie.entry) (key_in names) ids.old.entries next.old ids.new.entries next.new change) }
    ensures keyed { IfOk result (λ change. IfSome change HasRowid) }
{
    match cookie {
        Some(cookie) => Ok(Some(put_for(alloc, cookie, names, ids, next)?)),
        None => Ok(delete_for(&names, ids)),
    }
}

// Returns the change that writes the cookie.
fn put_for(
    alloc: Global,
    cookie: &Cookie<'static>,
    names: Names,
    ids: &mut Ids,
    next: &mut i64,
) -> Result<Change, StoreError>
    ensures change { IfOk result (PutsCookie cookie.now (key_in names) ids.old.entries next.old ids.new.entries next.new) }
    ensures keyed { IfOk result HasRowid }
{
    let id = id_for(ids, next, names)?;
    match to_row(alloc, id, cookie) {
        Ok(row) => Ok(Change::Put(row)),
        Err(SavedError::Memory) => Err(StoreError::OutOfMemory),
        Err(_) => Err(StoreError::Unstorable),
    }
}

// Removes the rowid, and returns the change that deletes its row, if there is one.
fn delete_for(names: &Names, ids: &mut Ids) -> Option<Change>
    ensures ids { SetsId (key_in names.now) None ids.old.entries ids.new.entries }
    ensures change { result ≡ option_map Change.Delete (id_of (key_in names.now) ids.old.entries) }
{
    match ids.swap_remove(names) {
        Some(id) => Some(Change::Delete(id)),
        None => None,
    }
}

/// Returns the changes that delete the rows of all rowids.
pub(crate) fn deletions(alloc: Global, ids: &Ids) -> Result<Vec<Change>, AllocError>
    ensures changes { IfOk result (λ changes. changes.items ≡ map Change.Delete (values_of ids.now.entries)) }
    ensures keyed { IfOk result (λ changes. All HasRowid changes.items) }
{
    deletions_of(alloc, ids.values().as_slice())
}

/// Returns the changes that delete the rows of these rowids.
pub(crate) fn deletions_of(alloc: Global, ids: &[i64]) -> Result<Vec<Change>, AllocError>
    ensures changes { IfOk result (λ changes. changes.items ≡ map Change.Delete ids.now) }
    ensures keyed { IfOk result (λ changes. All HasRowid changes.items) }
{
    let mut changes = Vec::new(alloc);
    for id in ids {
        changes.push(Change::Delete(*id))?;
    }
    Ok(changes)
}
