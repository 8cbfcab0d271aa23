//! The rows of one domain and path, by name.
ghost use Rattle.std.specs.Prelude.{◌≡◌, ◌≢◌, ◌<◌, ◌+◌, ◌^◌, ◌∷◌, [], ◌==◌, ℕ, length, map, option_map, slice_get, slice_index_or, None, Some, IfOk, IfSome, IsTrue, OnErr, OnOk, ◌≤◌, vec_capacity};
ghost use Rattle.ordered_map.specs.Entries.{in_order};
ghost use Rattle.std.specs.Option.{option_copied};
ghost use Rattle.cookie_rows.specs.GroupChanges.{row_named};
ghost use Rattle.cookie_rows.specs.Items.{expire_item, put_item, remove_item, rows_of, Item};
ghost use Rattle.cookie_rows.specs.Least.{TakesOut};
ghost use Rattle.cookie_rows.specs.NameMaps.{items_of, names_differ, stored_rows, HasNames};
ghost use Rattle.cookie_rows.specs.Stored.{StoredItems, placed_rows};
ghost use Rattle.cookie_lookup.specs.Positions.{entry_order};
ghost use Rattle.cookie_rows.specs.Retained.{RetainsItems, ReturnsFor};

use crate::boxed::BoxedCookie;
use crate::copying::{Rehash, rehashed_map};
use crate::hashing::HashKey;
use crate::level_iter::LevelIter;
use crate::name_list::{
    MOST_LISTED, expire_among, fill_table, push_row, remove_among, remove_at_among, replace_among,
    retain_among, row_among, table_for,
};
use crate::name_table::{
    add_in, expire_in, remove_at_in, remove_in, replace_in, retain_in, row_in,
};
use cookie_parts::Cookie;
use ordered_map::OrderedMap;
use std::alloc::{AllocError, Global};
use std::cmp::Ordering;
use std::marker::Model;
use std::{mem, slice};

/// Rows by name: a single row in place, at most [`MOST_LISTED`] in a list, more in a table, which
/// stays one. Lists and tables are boxed, so that a `NameMap` is small.
#[derive(Drop)]
pub(crate) enum NameMap {
    Empty,
    Single(BoxedCookie),
    List(Box<Vec<BoxedCookie>>),
    Table(Box<OrderedMap<BoxedCookie, HashKey>>),
}

/// The rows of one domain and path, by name.
#[derive(Drop)]
pub(crate) struct Names {
    rows: NameMap,
}

impl Model for Names {
    ghost Value = { StoredItems };

    ghost view = { λ names. stored_rows names.rows };

    ghost invariant = { λ names. HasNames names.rows };
}

impl Rehash for Names {
    ghost is_copy = { λ names copy. in_order copy ≡ in_order names };

    fn rehashed(&self, alloc: Global, hash_key: HashKey) -> Result<Names, AllocError> {
        Ok(Names {
            rows: rehashed(&self.rows, alloc, hash_key)?,
        })
    }
}

impl Names {
    // Returns the group of this row alone.
    pub(crate) fn of_one(row: BoxedCookie) -> Names
        ensures { in_order result ≡ row ∷ [] }
    {
        Names {
            rows: NameMap::Single(row),
        }
    }

    // The number of rows.
    pub(crate) fn len(&self) -> usize
        ensures stored { result ≡ length self.now }
        ensures in_order { result ≡ length (in_order self.now) }
        ensures small { result < 2 ^ 63 }
    {
        match &self.rows {
            NameMap::Empty => 0,
            NameMap::Single(_) => 1,
            NameMap::List(rows) => rows.len(),
            NameMap::Table(rows) => rows.len(),
        }
    }

    // Whether there are no rows.
    pub(crate) fn is_empty(&self) -> bool
        ensures { result ≡ (length (in_order self.now) == 0) }
    {
        self.len() == 0
    }

    // The rows, in order.
    pub(crate) fn rows(&self) -> LevelIter<'_, BoxedCookie>
        ensures { result ≡ in_order self.now }
    {
        match &self.rows {
            NameMap::Empty => LevelIter::of_list(&[]),
            NameMap::Single(row) => LevelIter::of_list(slice::from_ref(row)),
            NameMap::List(rows) => LevelIter::of_list(rows.as_ref()),
            NameMap::Table(rows) => LevelIter::of_table(rows.values()),
        }
    }

    // The row at a position, with its place in the order of the rows.
    pub(crate) fn at(&self, position: usize) -> Option<(usize, &BoxedCookie)>
        ensures place { option_map (λ found. found.0) result ≡ slice_get (map (λ i. i.0) self.now) position }
        ensures item { option_map (λ found. found.1.now) result ≡ slice_get (map (λ i. i.1) self.now) position }
    {
        match &self.rows {
            NameMap::Empty => None,
            NameMap::Single(row) => { if position == 0 { Some((0, row)) } else { None } }
            NameMap::List(rows) => match rows.get(position) {
                Some(row) => Some((position, row)),
                None => None,
            },
            NameMap::Table(rows) => match rows.at(position) {
                Some((place, _, row)) => Some((place, row)),
                None => None,
            },
        }
    }

    // Compares two rows at positions by their places. For the checker, equal places are compared by
    // position; there are none.
    pub(crate) fn compare(&self, a: usize, b: usize) -> Ordering
        ensures { result ≡ entry_order (placed_rows self.now) a b }
    {
        self.place(a).cmp(&self.place(b)).then(a.cmp(&b))
    }

    // The place of the row at a position.
    fn place(&self, position: usize) -> usize
        ensures { result ≡ slice_index_or (map (λ i. i.0) self.now) position 0 }
    {
        match self.at(position) {
            Some((place, _)) => place,
            None => 0,
        }
    }

    // The row at a position.
    pub(crate) fn row(&self, position: usize) -> Option<&Cookie<'static>>
        ensures cookie { option_map (λ c. c.now) result ≡ slice_get (map (λ i. i.1.row) self.now) position }
        ensures room { IfSome result (λ _. position + 1 < 2 ^ 64) }
    {
        // for the checker: positions are small
        let _len = self.len();
        match self.at(position) {
            Some((_, row)) => Some(row.cookie()),
            None => None,
        }
    }

    // The row of this name, if there is one.
    pub(crate) fn get(&self, name: &str) -> Option<&Cookie<'static>>
        ensures { option_copied result ≡ row_named name.now (rows_of (in_order self.now)) }
    {
        match &self.rows {
            NameMap::Empty => None,
            NameMap::Single(row) => single_of(row, name),
            NameMap::List(rows) => row_among(rows.as_ref(), name),
            NameMap::Table(rows) => row_in(rows.as_ref(), name),
        }
    }

    // Replaces the row of the cookie's name.
    pub(crate) fn replace(&mut self, cookie: Cookie<'static>)
        requires stored { row_named cookie.raw.name (rows_of (in_order self.old)) ≢ None }
        ensures { (number : ℕ) → in_order self.new ≡ put_item cookie.entry number (in_order self.old) }
    {
        replace_row(&mut self.rows, cookie);
    }

    // Adds the row at the end.
    pub(crate) fn add(
        &mut self,
        alloc: Global,
        hash_key: HashKey,
        row: BoxedCookie,
    ) -> Result<(), AllocError>
        requires new { row_named row.row.raw.name (rows_of (in_order self.old)) ≡ None }
        ensures added { OnOk result (in_order self.new ≡ put_item row.row row.number (in_order self.old)) }
        ensures unchanged { OnErr result (in_order self.new ≡ in_order self.old) }
    {
        let rows = mem::replace(&mut self.rows, NameMap::Empty);
        let (rows, outcome) = with_row(rows, alloc, hash_key, row);
        self.rows = rows;
        outcome
    }

    // Keeps the rows for which `keep` returns true.
    pub(crate) fn retain<F: Fn(&Cookie<'_>, u64) -> bool>(&mut self, keep: &F)
        requires { F.IsAlwaysCallable keep.now }
        ensures { RetainsItems (ReturnsFor (F.post keep.now)) (in_order self.old) (in_order self.new) }
    {
        retain_rows(&mut self.rows, keep);
    }

    // Expires the row of this name.
    pub(crate) fn expire(&mut self, name: &str)
        ensures { in_order self.new ≡ expire_item name.now (in_order self.old) }
    {
        expire_row(&mut self.rows, name)
    }

    // Removes the row of this name. The others keep their order.
    pub(crate) fn remove(&mut self, name: &str) -> Option<Cookie<'static>>
        ensures value { result ≡ row_named name.now (rows_of (in_order self.old)) }
        ensures removed { in_order self.new ≡ remove_item name.now (in_order self.old) }
    {
        let (rows, row) = without_row(mem::replace(&mut self.rows, NameMap::Empty), name);
        self.rows = rows;
        row
    }

    // Removes the row at a position. The others keep their order.
    pub(crate) fn remove_at(&mut self, position: usize)
        ensures { (item : Item) → slice_get (map (λ i. i.1) self.old) position ≡ Some item → TakesOut item (in_order self.old) (in_order self.new) }
    {
        remove_row_at(&mut self.rows, position);
    }
}

// The single row, if it has this name.
fn single_of<'a>(row: &'a BoxedCookie, name: &str) -> Option<&'a Cookie<'static>>
    ensures { option_copied result ≡ row_named name.now (row.now.row ∷ []) }
{
    let cookie = row.cookie();
    if cookie.name() == name {
        Some(cookie)
    } else {
        None
    }
}

// A copy of the rows, hashed by this key.
fn rehashed(rows: &NameMap, alloc: Global, hash_key: HashKey) -> Result<NameMap, AllocError>
    requires named { HasNames rows.now }
    ensures items { IfOk result (λ copies. items_of copies ≡ items_of rows.now) }
    ensures named { IfOk result HasNames }
{
    match rows {
        NameMap::Empty => Ok(NameMap::Empty),
        NameMap::Single(row) => Ok(NameMap::Single(row.clone()?)),
        NameMap::List(rows) => Ok(NameMap::List(rows.clone()?)),
        NameMap::Table(rows) => {
            let copies = rehashed_map(rows, alloc, hash_key)?;
            Ok(NameMap::Table(Box::new(alloc, copies)?))
        }
    }
}

// Replaces the row of the cookie's name.
fn replace_row(rows: &mut NameMap, cookie: Cookie<'static>)
    requires named { HasNames rows.old }
    requires stored { row_named cookie.raw.name (rows_of (items_of rows.old)) ≢ None }
    ensures put { (number : ℕ) → items_of rows.new ≡ put_item cookie.entry number (items_of rows.old) }
    ensures named { HasNames rows.new }
{
    match rows {
        NameMap::Empty => {}
        NameMap::Single(row) => row.set(cookie),
        NameMap::List(rows) => replace_among(rows.as_mut(), cookie),
        NameMap::Table(rows) => replace_in(rows.as_mut(), cookie),
    }
}

// Adds the row at the end. Returns the rows unchanged if out of memory.
fn with_row(
    rows: NameMap,
    alloc: Global,
    hash_key: HashKey,
    row: BoxedCookie,
) -> (NameMap, Result<(), AllocError>)
    requires named { HasNames rows }
    requires new { row_named row.row.raw.name (rows_of (items_of rows)) ≡ None }
    ensures added { OnOk result.1 (items_of result.0 ≡ put_item row.row row.number (items_of rows)) }
    ensures unchanged { OnErr result.1 (items_of result.0 ≡ items_of rows) }
    ensures named { HasNames result.0 }
{
    match rows {
        NameMap::Empty => (NameMap::Single(row), Ok(())),
        NameMap::Single(first) => with_second(first, alloc, row),
        NameMap::List(rows) => with_next(rows, alloc, hash_key, row),
        NameMap::Table(mut table) => {
            let outcome = add_in(&mut table, alloc, row);
            (NameMap::Table(table), outcome)
        }
    }
}

// Adds the row after a single one. Returns the single row alone if out of memory.
fn with_second(
    first: BoxedCookie,
    alloc: Global,
    row: BoxedCookie,
) -> (NameMap, Result<(), AllocError>)
    requires new { row_named row.row.raw.name (first.row ∷ []) ≡ None }
    ensures added { OnOk result.1 (items_of result.0 ≡ first ∷ row ∷ []) }
    ensures unchanged { OnErr result.1 (items_of result.0 ≡ first ∷ []) }
    ensures named { HasNames result.0 }
{
    match room_for_two(alloc) {
        Ok(rows) => (NameMap::List(pair(rows, first, row)), Ok(())),
        Err(error) => (NameMap::Single(first), Err(error)),
    }
}

// Returns an empty list with room for two rows.
fn room_for_two(alloc: Global) -> Result<Box<Vec<BoxedCookie>>, AllocError>
    ensures empty { IfOk result (λ rows. rows.value.items ≡ []) }
    ensures room { IfOk result (λ rows. 2 ≤ vec_capacity rows.value) }
{
    let rows = Vec::with_capacity(alloc, 2)?;
    Ok(Box::new(alloc, rows)?)
}

// Returns a list of two rows.
fn pair(
    rows: Box<Vec<BoxedCookie>>,
    first: BoxedCookie,
    second: BoxedCookie,
) -> Box<Vec<BoxedCookie>>
    requires empty { rows.value.items ≡ [] }
    requires room { 2 ≤ vec_capacity rows.value }
    ensures { result.value.items ≡ first ∷ second ∷ [] }
{
    let mut rows = rows;
    rows.push_reserved(first);
    rows.push_reserved(second);
    rows
}

// Adds the row at the end of a list. A full list becomes a table. On an error the rows are
// unchanged.
fn with_next(
    mut rows: Box<Vec<BoxedCookie>>,
    alloc: Global,
    hash_key: HashKey,
    row: BoxedCookie,
) -> (NameMap, Result<(), AllocError>)
    requires differ { IsTrue (names_differ rows.value.items) }
    requires new { row_named row.row.raw.name (rows_of rows.value.items) ≡ None }
    ensures added { OnOk result.1 (items_of result.0 ≡ put_item row.row row.number rows.value.items) }
    ensures unchanged { OnErr result.1 (items_of result.0 ≡ rows.value.items) }
    ensures named { HasNames result.0 }
{
    if rows.len() < MOST_LISTED {
        let outcome = push_row(&mut rows, row);
        return (NameMap::List(rows), outcome);
    }
    match table_for(alloc, hash_key, &rows) {
        Ok((mut table, names)) => {
            fill_table(&mut table, names, Box::into_inner(rows));
            let outcome = add_in(&mut table, alloc, row);
            (NameMap::Table(table), outcome)
        }
        Err(error) => (NameMap::List(rows), Err(error)),
    }
}

// Keeps the rows for which `keep` returns true.
fn retain_rows<F: Fn(&Cookie<'_>, u64) -> bool>(rows: &mut NameMap, keep: &F)
    requires callable { F.IsAlwaysCallable keep.now }
    requires named { HasNames rows.old }
    ensures retained { RetainsItems (ReturnsFor (F.post keep.now)) (items_of rows.old) (items_of rows.new) }
    ensures named { HasNames rows.new }
{
    match rows {
        NameMap::Empty => {}
        NameMap::Single(row) => {
            if !keep(row.cookie(), row.number()) {
                *rows = NameMap::Empty;
            }
        }
        NameMap::List(rows) => retain_among(rows.as_mut(), keep),
        NameMap::Table(rows) => retain_in(rows.as_mut(), keep),
    }
}

// Expires the row of this name.
fn expire_row(rows: &mut NameMap, name: &str)
    requires named { HasNames rows.old }
    ensures expired_row { items_of rows.new ≡ expire_item name.now (items_of rows.old) }
    ensures named { HasNames rows.new }
{
    match rows {
        NameMap::Empty => {}
        NameMap::Single(row) => {
            if row.cookie().name() == name {
                row.expire();
            }
        }
        NameMap::List(rows) => expire_among(rows.as_mut(), name),
        NameMap::Table(rows) => expire_in(rows.as_mut(), name),
    }
}

// Removes the row of this name. Returns the remaining rows, and the removed one.
fn without_row(rows: NameMap, name: &str) -> (NameMap, Option<Cookie<'static>>)
    requires named { HasNames rows }
    ensures value { result.1 ≡ row_named name.now (rows_of (items_of rows)) }
    ensures removed { items_of result.0 ≡ remove_item name.now (items_of rows) }
    ensures named { HasNames result.0 }
{
    match rows {
        NameMap::Empty => (NameMap::Empty, None),
        NameMap::Single(row) => {
            if row.cookie().name() == name {
                (NameMap::Empty, Some(row.into_cookie()))
            } else {
                (NameMap::Single(row), None)
            }
        }
        NameMap::List(mut rows) => {
            let row = remove_among(rows.as_mut(), name);
            (NameMap::List(rows), row)
        }
        NameMap::Table(mut table) => {
            let row = remove_in(table.as_mut(), name);
            (NameMap::Table(table), row)
        }
    }
}

// Removes the row at a position.
fn remove_row_at(rows: &mut NameMap, position: usize)
    requires named { HasNames rows.old }
    ensures removed { (item : Item) → slice_get (map (λ i. i.1) (stored_rows rows.old)) position ≡ Some item → TakesOut item (items_of rows.old) (items_of rows.new) }
    ensures named { HasNames rows.new }
{
    match rows {
        NameMap::Empty => {}
        NameMap::Single(_) => {
            if position == 0 {
                *rows = NameMap::Empty;
            }
        }
        NameMap::List(rows) => remove_at_among(rows.as_mut(), position),
        NameMap::Table(rows) => remove_at_in(rows.as_mut(), position),
    }
}
