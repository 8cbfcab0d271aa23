//! The rowids of the cookies.
ghost use Rattle.std.specs.Prelude.{◌≡◌, ◌+ℤ◌, pos, Some, IfOk, OnOk};
ghost use Rattle.cookie_laws.specs.Rows.{key_at};
ghost use Rattle.cookie_durable.specs.Numbering.{id_of, key_in, GivesId, SetsId};

use cookie_rows::HashKey;
use indexmap::IndexMap;
use sqlite_trees::error::StoreError;
use std::alloc::{AllocError, Global};

/// The domain, the path and the name of a cookie.
pub(crate) type Names = (String, String, String);

/// The rowids of cookies, in any order.
pub(crate) type Ids = IndexMap<Names, i64, HashKey>;

/// Copies a domain, a path and a name.
pub(crate) fn names_of(
    alloc: Global,
    domain: &str,
    path: &str,
    name: &str,
) -> Result<Names, AllocError>
    ensures { IfOk result (λ names. key_in names ≡ key_at domain.now path.now name.now) }
{
    let domain = String::from_str(alloc, domain)?;
    let path = String::from_str(alloc, path)?;
    let name = String::from_str(alloc, name)?;
    Ok((domain, path, name))
}

/// Returns the rowid of a cookie: its own, or the next one.
///
/// # Errors
///
/// - `Full`: no rowid is left.
/// - `OutOfMemory`: out of memory.
pub(crate) fn id_for(ids: &mut Ids, next: &mut i64, names: Names) -> Result<i64, StoreError>
    ensures id { IfOk result (λ id. GivesId (id_of (key_in names) ids.old.entries) next.old id next.new) }
    ensures ids { IfOk result (λ id. SetsId (key_in names) (Some id) ids.old.entries ids.new.entries) }
{
    if let Some(id) = ids.get(&names).copied() {
        return Ok(id);
    }
    let id = take_next(next)?;
    ids.insert(names, id)?;
    Ok(id)
}

// Returns the next rowid, and counts it up.
fn take_next(next: &mut i64) -> Result<i64, StoreError>
    ensures id { IfOk result (λ id. id ≡ next.old) }
    ensures next { OnOk result (next.new ≡ next.old +ℤ pos 1) }
{
    let id = *next;
    match id.checked_add(1) {
        Some(after) => {
            *next = after;
            Ok(id)
        }
        None => Err(StoreError::Full),
    }
}
