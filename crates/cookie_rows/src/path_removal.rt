//! A row is expired in the groups of a domain, or removed from them.
ghost use Rattle.std.specs.Prelude.{◌≡◌, ◌∷◌, [], string_bytes, List, Some, ℕ};
ghost use Rattle.ordered_map.specs.Entries.{in_order};
ghost use Rattle.cookie_rows.specs.PathMaps.{groups_of, stored_groups};
ghost use Rattle.cookie_rows.specs.Items.{expire_item_paths, find_item_paths, remove_item_paths, Item};
ghost use Rattle.cookie_rows.specs.Least.{stored_at, RemovesAt};

use crate::names::Names;
use crate::path_table::{expire_in, remove_at_in, remove_in};
use crate::paths::PathMap;
use cookie_parts::Cookie;

// Expires the row of this path and name. Returns the groups.
pub(crate) fn with_expired(groups: PathMap, path: &str, name: &str) -> PathMap
    ensures { groups_of result ≡ expire_item_paths path.now name.now (groups_of groups) }
{
    match groups {
        PathMap::Empty => PathMap::Empty,
        PathMap::Single(own, mut names) => {
            if own.as_str() != path {
                return PathMap::Single(own, names);
            }
            names.expire(name);
            PathMap::Single(own, names)
        }
        PathMap::Table(mut table) => {
            expire_in(&mut table, path, name);
            PathMap::Table(table)
        }
    }
}

// Removes the row of this path and name, and its group if it was the last row there. Returns the
// remaining groups, and the removed row.
pub(crate) fn without_row(
    groups: PathMap,
    path: &str,
    name: &str,
) -> (PathMap, Option<Cookie<'static>>)
    ensures value { result.1 ≡ find_item_paths path.now name.now (groups_of groups) }
    ensures removed { groups_of result.0 ≡ remove_item_paths path.now name.now (groups_of groups) }
{
    match groups {
        PathMap::Empty => (PathMap::Empty, None),
        PathMap::Single(own, names) => without_named(own, names, path, name),
        PathMap::Table(mut table) => {
            let row = remove_in(table.as_mut(), path, name);
            (PathMap::Table(table), row)
        }
    }
}

// Removes the row from a single group, and the group if it was its last row.
fn without_named(
    own: String,
    mut names: Names,
    path: &str,
    name: &str,
) -> (PathMap, Option<Cookie<'static>>)
    ensures value { result.1 ≡ find_item_paths path.now name.now ((string_bytes own, in_order names) ∷ []) }
    ensures removed { groups_of result.0 ≡ remove_item_paths path.now name.now ((string_bytes own, in_order names) ∷ []) }
{
    if own.as_str() != path {
        return (PathMap::Single(own, names), None);
    }
    let row = names.remove(name);
    if names.is_empty() {
        (PathMap::Empty, row)
    } else {
        (PathMap::Single(own, names), row)
    }
}

// Removes the row at a position, and its group if it was the last row there. Returns the remaining
// groups.
pub(crate) fn without_row_at(groups: PathMap, path: usize, row: usize) -> PathMap
    ensures { (text : List ℕ) (item : Item) → stored_at (stored_groups groups) path row ≡ Some (text, item)
        → RemovesAt item (groups_of groups) (groups_of result) }
{
    match groups {
        PathMap::Empty => PathMap::Empty,
        PathMap::Single(own, mut names) => {
            if path != 0 {
                return PathMap::Single(own, names);
            }
            names.remove_at(row);
            if names.is_empty() {
                PathMap::Empty
            } else {
                PathMap::Single(own, names)
            }
        }
        PathMap::Table(mut table) => {
            remove_at_in(table.as_mut(), path, row);
            PathMap::Table(table)
        }
    }
}
