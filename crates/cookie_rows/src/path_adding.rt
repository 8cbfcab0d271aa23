//! A row is added to the groups of a domain.
ghost use Rattle.std.specs.Prelude.{◌≡◌, ◌∷◌, [], ◌≤◌, string_bytes, None, IfOk, OnErr, OnOk, bytes_eq, false};
ghost use Rattle.std.specs.String.{string_eq};
ghost use Rattle.ordered_map.specs.Entries.{entries, in_order};
ghost use Rattle.cookie_rows.specs.PathMaps.{groups_of};
ghost use Rattle.cookie_rows.specs.Items.{find_item_paths, put_item_paths};

use crate::boxed::BoxedCookie;
use crate::hashing::HashKey;
use crate::names::Names;
use crate::path_table::add_in;
use crate::paths::PathMap;
use ordered_map::OrderedMap;
use std::alloc::{AllocError, Global};

// Adds the row at the end of its path's group. Returns the groups unchanged if out of memory.
pub(crate) fn with_row(
    groups: PathMap,
    alloc: Global,
    hash_key: HashKey,
    row: BoxedCookie,
) -> (PathMap, Result<(), AllocError>)
    requires new { find_item_paths row.row.path.text row.row.raw.name (groups_of groups) ≡ None }
    ensures added { OnOk result.1 (groups_of result.0 ≡ put_item_paths row.row row.number (groups_of groups)) }
    ensures unchanged { OnErr result.1 (groups_of result.0 ≡ groups_of groups) }
{
    match groups {
        PathMap::Empty => match String::from_str(alloc, row.cookie().path.as_str()) {
            Ok(path) => (PathMap::Single(path, Names::of_one(row)), Ok(())),
            Err(error) => (PathMap::Empty, Err(error)),
        },
        PathMap::Single(path, mut names) => {
            if path.as_str() == row.cookie().path.as_str() {
                let outcome = names.add(alloc, hash_key, row);
                (PathMap::Single(path, names), outcome)
            } else {
                with_second(path, names, alloc, hash_key, row)
            }
        }
        PathMap::Table(mut table) => {
            let outcome = add_in(table.as_mut(), alloc, hash_key, row);
            (PathMap::Table(table), outcome)
        }
    }
}

// Adds the row, of another path, after a single group. Returns that group alone if out of memory.
fn with_second(
    first: String,
    names: Names,
    alloc: Global,
    hash_key: HashKey,
    row: BoxedCookie,
) -> (PathMap, Result<(), AllocError>)
    requires other { bytes_eq row.row.path.text (string_bytes first) ≡ false }
    ensures added { OnOk result.1 (groups_of result.0 ≡ (string_bytes first, in_order names) ∷ (row.row.path.text, row ∷ []) ∷ []) }
    ensures unchanged { OnErr result.1 (groups_of result.0 ≡ (string_bytes first, in_order names) ∷ []) }
{
    match table_for(alloc, hash_key, &row) {
        Ok((table, path)) => (pair(table, first, names, path, row), Ok(())),
        Err(error) => (PathMap::Single(first, names), Err(error)),
    }
}

// Returns an empty table with room for two groups, and the row's path.
fn table_for(
    alloc: Global,
    hash_key: HashKey,
    row: &BoxedCookie,
) -> Result<(Box<OrderedMap<Names, HashKey>>, String), AllocError>
    ensures empty { IfOk result (λ created. entries created.0.value ≡ []) }
    ensures room { IfOk result (λ created. 2 ≤ created.0.value.room) }
    ensures path { IfOk result (λ created. string_bytes created.1 ≡ row.now.row.path.text) }
{
    let path = String::from_str(alloc, row.cookie().path.as_str())?;
    let table = OrderedMap::with_capacity_and_hasher(alloc, 2, hash_key)?;
    Ok((Box::new(alloc, table)?, path))
}

// Returns a table of a group, and of a second one with a single row.
fn pair(
    mut table: Box<OrderedMap<Names, HashKey>>,
    first: String,
    names: Names,
    path: String,
    row: BoxedCookie,
) -> PathMap
    requires empty { entries table.value ≡ [] }
    requires room { 2 ≤ table.value.room }
    requires differ { string_eq path first ≡ false }
    ensures { groups_of result ≡ (string_bytes first, in_order names) ∷ (string_bytes path, row ∷ []) ∷ [] }
{
    table.push(first, names).unwrap();
    table.push(path, Names::of_one(row)).unwrap();
    PathMap::Table(table)
}
