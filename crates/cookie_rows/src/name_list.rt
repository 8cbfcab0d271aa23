//! The rows of one domain and path, in a list.
ghost use Rattle.std.specs.Prelude.{◌≡◌, ◌≢◌, [], ◌≤◌, ◌<◌, ℕ, IsTrue, IfOk, IfSome, None, OnErr, OnOk, Some, length, map, position, slice_get, string_bytes};
ghost use Rattle.std.specs.Option.{option_copied};
ghost use Rattle.std.specs.Map.{values_of};
ghost use Rattle.ordered_map.specs.Entries.{entries};
ghost use Rattle.cookie_rows.specs.GroupChanges.{row_named};
ghost use Rattle.cookie_rows.specs.Items.{AreNamed, expire_item, is_item_named, put_item, remove_item, rows_of, Item};
ghost use Rattle.cookie_rows.specs.Least.{TakesOut};
ghost use Rattle.cookie_rows.specs.NameMaps.{names_differ, names_in};
ghost use Rattle.cookie_rows.specs.Retained.{RetainsItems, ReturnsFor};

use crate::boxed::BoxedCookie;
use crate::hashing::HashKey;
use cookie_parts::Cookie;
use ordered_map::OrderedMap;
use std::alloc::{AllocError, Global};

/// The most rows of a list. To search 32 rows takes about as long as a lookup in a table, which has a
/// copy of each name besides.
pub(crate) const MOST_LISTED: usize = 32;

// Adds the row at the end.
pub(crate) fn push_row(rows: &mut Vec<BoxedCookie>, row: BoxedCookie) -> Result<(), AllocError>
    requires new { row_named row.row.raw.name (rows_of rows.old.items) ≡ None }
    requires differ { IsTrue (names_differ rows.old.items) }
    ensures added { OnOk result (rows.new.items ≡ put_item row.row row.number rows.old.items) }
    ensures unchanged { OnErr result (rows.new.items ≡ rows.old.items) }
    ensures differ { IsTrue (names_differ rows.new.items) }
{
    rows.push(row)?;
    Ok(())
}

// The position of the row of this name, if there is one.
fn position_of(rows: &[BoxedCookie], name: &str) -> Option<usize>
    ensures place { result ≡ position (is_item_named name.now) rows.now }
    ensures within { IfSome result (λ at. at < length rows.now) }
{
    rows.iter().position(|row| name == row.cookie().name())
}

// The row of this name, if there is one.
pub(crate) fn row_among<'a>(rows: &'a [BoxedCookie], name: &str) -> Option<&'a Cookie<'static>>
    ensures { option_copied result ≡ row_named name.now (rows_of rows.now) }
{
    match position_of(rows, name) {
        Some(at) => Some(rows[at].cookie()),
        None => None,
    }
}

// Replaces the row of the cookie's name.
pub(crate) fn replace_among(rows: &mut Vec<BoxedCookie>, cookie: Cookie<'static>)
    requires stored { row_named cookie.raw.name (rows_of rows.old.items) ≢ None }
    ensures put { (number : ℕ) → rows.new.items ≡ put_item cookie.entry number rows.old.items }
    ensures names { names_in rows.new.items ≡ names_in rows.old.items }
{
    match position_of(rows, cookie.name()) {
        Some(at) => rows[at].set(cookie),
        None => {}
    }
}

// Expires the row of this name, if there is one.
pub(crate) fn expire_among(rows: &mut Vec<BoxedCookie>, name: &str)
    ensures expired_row { rows.new.items ≡ expire_item name.now rows.old.items }
    ensures names { names_in rows.new.items ≡ names_in rows.old.items }
{
    match position_of(rows, name) {
        Some(at) => rows[at].expire(),
        None => {}
    }
}

// Removes and returns the row of this name, if there is one. The others keep their order.
pub(crate) fn remove_among(rows: &mut Vec<BoxedCookie>, name: &str) -> Option<Cookie<'static>>
    requires { IsTrue (names_differ rows.old.items) }
    ensures value { result ≡ row_named name.now (rows_of rows.old.items) }
    ensures removed { rows.new.items ≡ remove_item name.now rows.old.items }
    ensures differ { IsTrue (names_differ rows.new.items) }
{
    match position_of(rows, name) {
        Some(at) => Some(rows.remove(at).into_cookie()),
        None => None,
    }
}

// Removes the row at a position. The others keep their order.
pub(crate) fn remove_at_among(rows: &mut Vec<BoxedCookie>, position: usize)
    requires differ { IsTrue (names_differ rows.old.items) }
    ensures removed { (item : Item) → slice_get rows.old.items position ≡ Some item → TakesOut item rows.old.items rows.new.items }
    ensures differ { IsTrue (names_differ rows.new.items) }
{
    if position < rows.len() {
        rows.remove(position);
    }
}

// Keeps the rows for which `keep` returns true.
pub(crate) fn retain_among<F: Fn(&Cookie<'_>, u64) -> bool>(rows: &mut Vec<BoxedCookie>, keep: &F)
    requires callable { F.IsAlwaysCallable keep.now }
    requires differ { IsTrue (names_differ rows.old.items) }
    ensures retained { RetainsItems (ReturnsFor (F.post keep.now)) rows.old.items rows.new.items }
    ensures differ { IsTrue (names_differ rows.new.items) }
{
    rows.retain(
        move |row: &BoxedCookie| -> bool
            requires { F.IsAlwaysCallable keep.now }
            ensures { ReturnsFor (F.post keep.entry.now) row.now result }
        { keep(row.cookie(), row.number()) },
    );
}

// Returns copies of the names.
fn names_of(alloc: Global, rows: &[BoxedCookie]) -> Result<Vec<String>, AllocError>
    ensures { IfOk result (λ names. map string_bytes names.items ≡ names_in rows.now) }
{
    let mut names = Vec::with_capacity(alloc, rows.len())?;
    for row in rows {
        names.push(String::from_str(alloc, row.cookie().name())?)?;
    }
    Ok(names)
}

// Returns an empty table with room for the rows and one more, and the names of the rows.
pub(crate) fn table_for(
    alloc: Global,
    hash_key: HashKey,
    rows: &[BoxedCookie],
) -> Result<(Box<OrderedMap<BoxedCookie, HashKey>>, Vec<String>), AllocError>
    ensures empty { IfOk result (λ created. entries created.0.value ≡ []) }
    ensures room { IfOk result (λ created. length rows.now < created.0.value.room) }
    ensures names { IfOk result (λ created. map string_bytes created.1.items ≡ names_in rows.now) }
{
    let names = names_of(alloc, rows)?;
    let table = OrderedMap::with_capacity_and_hasher(alloc, rows.len() + 1, hash_key)?;
    Ok((Box::new(alloc, table)?, names))
}

// Moves the rows into the empty table, each under its name.
pub(crate) fn fill_table(
    table: &mut OrderedMap<BoxedCookie, HashKey>,
    names: Vec<String>,
    rows: Vec<BoxedCookie>,
)
    requires empty { entries table.old ≡ [] }
    requires room { length rows.items ≤ table.old.room }
    requires names { map string_bytes names.items ≡ names_in rows.items }
    requires differ { IsTrue (names_differ rows.items) }
    ensures rows { values_of (entries table.new) ≡ rows.items }
    ensures named { AreNamed (entries table.new) }
{
    let mut names = names.into_iter();
    for row in rows {
        if let Some(name) = names.next() {
            table.push(name, row).unwrap();
        }
    }
}
