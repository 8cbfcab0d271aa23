//! Rowids of cookies that are gone.
ghost use Rattle.std.specs.Prelude.{◌≡◌, map, IfOk, OnOk};
ghost use Rattle.std.specs.List.{All};
ghost use Rattle.durable_table.specs.Changes.{HasRowid};
ghost use Rattle.cookie_durable.specs.Numbering.{key_in};
ghost use Rattle.cookie_durable.specs.Sweeping.{gone_ids, has_cookie, kept_ids, AreDistinct};

use crate::changes::deletions_of;
use crate::numbering::{Ids, Names};
use cookie_core::CookieStore;
use durable_table::Change;
use std::alloc::{AllocError, Global};

/// Removes the rowids of the cookies that the store no longer has, and returns the changes that
/// delete their rows.
pub(crate) fn sweep(
    alloc: Global,
    store: &CookieStore,
    ids: &mut Ids,
) -> Result<Vec<Change>, AllocError>
    ensures ids { OnOk result (ids.new.entries ≡ kept_ids store.now ids.old.entries) }
    ensures changes { IfOk result (λ changes. changes.items ≡ map Change.Delete (gone_ids store.now ids.old.entries)) }
    ensures keyed { IfOk result (λ changes. All HasRowid changes.items) }
    ensures distinct { AreDistinct ids.old.entries }
{
    let gone = find_gone(alloc, store, ids)?;
    let changes = deletions_of(alloc, gone.as_slice())?;
    ids.retain(
        |names: &Names, id: &mut i64| -> bool
            ensures { (result ≡ has_cookie store.entry.now (key_in names.now)) × (id.new ≡ id.old) }
        { is_kept(store, names) },
    );
    Ok(changes)
}

// Returns the rowids of the cookies that the store no longer has.
fn find_gone(alloc: Global, store: &CookieStore, ids: &Ids) -> Result<Vec<i64>, AllocError>
    ensures gone { IfOk result (λ gone. gone.items ≡ gone_ids store.now ids.now.entries) }
    ensures distinct { AreDistinct ids.now.entries }
{
    let mut gone = Vec::new(alloc);
    for at in 0..ids.len() {
        let (names, id) = ids.get_index(at).unwrap();
        if !is_kept(store, names) {
            gone.push(*id)?;
        }
    }
    Ok(gone)
}

// Whether the store has the cookie.
fn is_kept(store: &CookieStore, names: &Names) -> bool
    ensures { result ≡ has_cookie store.now (key_in names.now) }
{
    store.contains_any(names.0.as_str(), names.1.as_str(), names.2.as_str())
}
