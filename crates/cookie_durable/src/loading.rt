//! Loads the cookies of a table.
ghost use Rattle.std.specs.Prelude.{◌≡◌, ◌∷◌, ◌++◌, [], None, Some, List, IfOk, OnOk};
ghost use Rattle.sqlite_value.specs.Order.{Row as TableRow};
ghost use Rattle.sqlite_trees.specs.Tree.{IsTable};
ghost use Rattle.sqlite_trees.specs.View.{IsClean, IsQuiet};
ghost use Rattle.durable_table.specs.Transactions.{IsReady};
ghost use Rattle.cookie_laws.specs.Contents.{contents_of};
ghost use Rattle.cookie_laws.specs.Rows.{key_of};
ghost use Rattle.cookie_table.specs.FromColumns.{cookie_in};
ghost use Rattle.cookie_durable.specs.Durable.{IsUnwritten};
ghost use Rattle.cookie_durable.specs.Numbering.{id_of, IsNumbered, SetsId};

use crate::OpenError;
use crate::numbering::{Ids, names_of};
use cookie_forms::SavedError;
use cookie_parts::Cookie;
use cookie_rows::{Rows, StoreAlloc};
use cookie_table::from_row;
use cookie_words::epoch;
use indexmap::IndexMap;
use sqlite_trees::store::{Direction, Store};
use sqlite_value::row::Row;
use sqlite_value::value::ValueRef;
use std::alloc::Global;

/// The cookies of the first rows of a table, with their rowids.
#[derive(Drop)]
pub(crate) struct Loaded {
    pub(crate) rows: Rows,
    pub(crate) ids: Ids,
    pub(crate) next: i64,
}

/// Reads the cookies of the table in the order of their rowids.
///
/// # Errors
///
/// - `File`: the file failed.
/// - `Damaged`: a row is not that of a cookie, or two rows have the same domain, path and name.
/// - `Full`: the last rowid is the greatest that there is.
/// - `OutOfMemory`: out of memory.
pub(crate) fn load<S: Store>(
    alloc: StoreAlloc,
    file: &mut S,
    table: u32,
) -> Result<Loaded, OpenError>
    requires { IsClean (S.Store.view file.old) → IsReady table (S.Store.view file.old) }
    ensures loaded { IfOk result (λ loaded. IsClean (S.Store.view file.new)
        → IsNumbered (contents_of loaded.rows None None) loaded.ids.entries loaded.next ((S.Store.view file.old).committed table)) }
    ensures unwritten { OnOk result (IsClean (S.Store.view file.new) → IsUnwritten (S.Store.view file.old) (S.Store.view file.new)) }
    ensures quiet { IsQuiet S.Store.view S.Store.faults S.Store.recovers S.Store.is_shielded file.old file.new }
{
    file.seek(0, table, &Row::new(alloc.alloc), Direction::Forward)?;
    let mut loaded = Loaded {
        rows: Rows::new(alloc),
        ids: IndexMap::with_hasher(alloc.alloc, alloc.hash_key),
        next: 1,
    };
    let mut row = Row::new(alloc.alloc);
    'rows: for _ in 0..u64::MAX {
        if !file.next(0, &mut row)? {
            return Ok(loaded);
        }
        add(alloc.alloc, &mut loaded, &row)?;
    }
    Err(OpenError::Full)
}

// Adds the cookie of the next row.
fn add(alloc: Global, loaded: &mut Loaded, row: &Row) -> Result<(), OpenError>
    ensures { OnOk result ((rows : List TableRow) → IsTable (rows ++ row.now ∷ [])
        → IsNumbered (contents_of loaded.old.rows None None) loaded.old.ids.entries loaded.old.next rows
        → IsNumbered (contents_of loaded.new.rows None None) loaded.new.ids.entries loaded.new.next (rows ++ row.now ∷ [])) }
{
    let ValueRef::Int(id) = row.get(0) else {
        return Err(OpenError::Damaged);
    };
    let Some(next) = id.checked_add(1) else {
        return Err(OpenError::Full);
    };
    let cookie = read_cookie(alloc, row)?;
    add_id(alloc, &mut loaded.ids, &cookie, id)?;
    loaded.rows.take(cookie, true, epoch())?;
    loaded.next = next;
    Ok(())
}

// Adds the rowid of a cookie, which must not have one.
fn add_id(alloc: Global, ids: &mut Ids, cookie: &Cookie<'static>, id: i64) -> Result<(), OpenError>
    ensures new { OnOk result (id_of (key_of cookie.now) ids.old.entries ≡ None) }
    ensures ids { OnOk result (SetsId (key_of cookie.now) (Some id) ids.old.entries ids.new.entries) }
{
    let names = names_of(
        alloc,
        cookie.domain.as_str(),
        cookie.path.as_str(),
        cookie.name(),
    )?;
    if ids.get(&names).is_some() {
        return Err(OpenError::Damaged);
    }
    match ids.insert(names, id) {
        Ok(_) => {}
        Err(_) => return Err(OpenError::OutOfMemory),
    }
    Ok(())
}

// Reads the cookie of a row.
fn read_cookie(alloc: Global, row: &Row) -> Result<Cookie<'static>, OpenError>
    ensures { IfOk result (λ cookie. cookie_in row.now ≡ Some cookie) }
{
    match from_row(alloc, row) {
        Ok(cookie) => Ok(cookie),
        Err(SavedError::Memory) => Err(OpenError::OutOfMemory),
        Err(_) => Err(OpenError::Damaged),
    }
}
