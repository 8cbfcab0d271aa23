//! The groups of one domain in a table, by path.
ghost use Rattle.std.specs.Prelude.{◌≡◌, ◌≢◌, ◌==◌, bytes_eq, length, map, not, option_map, slice_get, string_bytes, List, None, Some, IfSome, OnErr, OnOk, ℕ};
ghost use Rattle.std.specs.Map.{lookup};
ghost use Rattle.ordered_map.specs.Entries.{in_order};
ghost use Rattle.cookie_lookup.specs.SearchView.{group_position, under};
ghost use Rattle.cookie_rows.specs.GroupChanges.{changed_at, is_empty_at};
ghost use Rattle.cookie_rows.specs.Items.{expire_item_paths, find_item_paths, put_item_paths, remove_item, remove_item_paths, Item};
ghost use Rattle.cookie_rows.specs.Eviction.{is_single, moved_to_end_if};
ghost use Rattle.cookie_rows.specs.Least.{stored_at, RemovesAt, TakesAt};
ghost use Rattle.cookie_rows.specs.Retained.{RetainsItems, RetainsPaths, ReturnsFor};
ghost use Rattle.cookie_rows.specs.Stored.{paths_in, stored_in};

use crate::boxed::BoxedCookie;
use crate::hashing::HashKey;
use crate::names::Names;
use cookie_parts::Cookie;
use ordered_map::OrderedMap;
use std::alloc::{AllocError, Global};

// Returns the group of this path in a table, and its position.
pub(crate) fn found_in<'a>(
    groups: &'a OrderedMap<Names, HashKey>,
    path: &str,
) -> Option<(usize, &'a Names)>
    ensures position { option_map (λ found. found.0) result ≡ group_position path.now (map (λ p. p.1) (stored_in groups.now)) }
    ensures names { IfSome result (λ found. found.1.now ≡ under found.0 (map (λ p. p.1) (stored_in groups.now))) }
    ensures in_order { option_map (λ found. in_order found.1.now) result ≡ lookup (bytes_eq path.now) (paths_in groups.now) }
{
    let position = groups.position(path)?;
    match groups.at(position) {
        Some((_, _, names)) => Some((position, names)),
        None => None,
    }
}

// Replaces the row of the cookie's path and name in a table.
pub(crate) fn replace_in(groups: &mut OrderedMap<Names, HashKey>, cookie: Cookie<'static>)
    requires stored { find_item_paths cookie.path.text cookie.raw.name (paths_in groups.old) ≢ None }
    ensures { (number : ℕ) → paths_in groups.new ≡ put_item_paths cookie.entry number (paths_in groups.old) }
{
    match groups.get_mut(cookie.path.as_str()) {
        Some(group) => group.replace(cookie),
        None => {}
    }
}

// Adds the row at the end of its path's group in a table.
pub(crate) fn add_in(
    groups: &mut OrderedMap<Names, HashKey>,
    alloc: Global,
    hash_key: HashKey,
    row: BoxedCookie,
) -> Result<(), AllocError>
    requires new { find_item_paths row.row.path.text row.row.raw.name (paths_in groups.old) ≡ None }
    ensures added { OnOk result (paths_in groups.new ≡ put_item_paths row.row row.number (paths_in groups.old)) }
    ensures unchanged { OnErr result (paths_in groups.new ≡ paths_in groups.old) }
{
    match groups.get_mut(row.cookie().path.as_str()) {
        Some(group) => group.add(alloc, hash_key, row),
        None => {
            let path = String::from_str(alloc, row.cookie().path.as_str())?;
            groups.push(path, Names::of_one(row))
        }
    }
}

// Keeps the rows of a table for which `keep` returns true, and drops empty groups.
pub(crate) fn retain_in<F: Fn(&Cookie<'_>, u64) -> bool>(
    groups: &mut OrderedMap<Names, HashKey>,
    keep: &F,
)
    requires { F.IsAlwaysCallable keep.now }
    ensures { RetainsPaths (ReturnsFor (F.post keep.now)) (paths_in groups.old) (paths_in groups.new) }
{
    groups.retain(
        move |_path: &String, names: &mut Names| -> bool
            requires { F.IsAlwaysCallable keep.now }
            ensures { (RetainsItems (ReturnsFor (F.post keep.entry.now)) (in_order names.old) (in_order names.new)) × (result ≡ not (length (in_order names.new) == 0)) }
        {
            names.retain(keep);
            !names.is_empty()
        },
    );
}

// Moves the group of this path to the end of a table, if it has a single row.
pub(crate) fn move_to_end_in(groups: &mut OrderedMap<Names, HashKey>, path: &str)
    ensures { paths_in groups.new ≡ moved_to_end_if is_single path.now (paths_in groups.old) }
{
    let Some(names) = groups.get(path) else {
        return;
    };
    if names.len() == 1 {
        groups.move_to_end(path);
    }
}

// Expires the row of this path and name in a table.
pub(crate) fn expire_in(groups: &mut OrderedMap<Names, HashKey>, path: &str, name: &str)
    ensures { paths_in groups.new ≡ expire_item_paths path.now name.now (paths_in groups.old) }
{
    match groups.get_mut(path) {
        Some(group) => group.expire(name),
        None => {}
    }
}

// Removes the row from its group in a table. Returns it, and whether the group is now empty.
fn take_named(
    groups: &mut OrderedMap<Names, HashKey>,
    path: &str,
    name: &str,
) -> (Option<Cookie<'static>>, bool)
    ensures value { result.0 ≡ find_item_paths path.now name.now (paths_in groups.old) }
    ensures groups { paths_in groups.new ≡ changed_at (remove_item name.now) path.now (paths_in groups.old) }
    ensures is_empty { result.1 ≡ is_empty_at path.now (paths_in groups.new) }
{
    match groups.get_mut(path) {
        Some(group) => {
            let row = group.remove(name);
            (row, group.is_empty())
        }
        None => (None, false),
    }
}

// Removes the row of this path and name from a table, and its group if it was the last row there.
pub(crate) fn remove_in(
    groups: &mut OrderedMap<Names, HashKey>,
    path: &str,
    name: &str,
) -> Option<Cookie<'static>>
    ensures value { result ≡ find_item_paths path.now name.now (paths_in groups.old) }
    ensures removed { paths_in groups.new ≡ remove_item_paths path.now name.now (paths_in groups.old) }
{
    let (row, is_empty) = take_named(groups, path, name);
    if is_empty {
        groups.remove(path);
    }
    row
}

// Removes the row at a position from its group in a table. Returns whether the group is now empty.
fn take_at(groups: &mut OrderedMap<Names, HashKey>, path: usize, row: usize) -> bool
    ensures taken { (text : List ℕ) (item : Item) → stored_at (stored_in groups.old) path row ≡ Some (text, item)
        → TakesAt text item (paths_in groups.old) (paths_in groups.new) }
    ensures is_empty { (text : List ℕ) (item : Item) → stored_at (stored_in groups.old) path row ≡ Some (text, item)
        → result ≡ is_empty_at text (paths_in groups.new) }
    ensures keys { option_map (λ e. string_bytes e.1.0) (slice_get groups.new.by_position path) ≡ option_map (λ e. string_bytes e.1.0) (slice_get groups.old.by_position path) }
{
    // for the checker: the keys differ
    let _ = groups.len();
    match groups.at_mut(path) {
        Some(group) => {
            group.remove_at(row);
            group.is_empty()
        }
        None => false,
    }
}

// Removes the row at a position from a table, and its group if it was the last row there.
pub(crate) fn remove_at_in(groups: &mut OrderedMap<Names, HashKey>, path: usize, row: usize)
    ensures { (text : List ℕ) (item : Item) → stored_at (stored_in groups.old) path row ≡ Some (text, item)
        → RemovesAt item (paths_in groups.old) (paths_in groups.new) }
{
    if take_at(groups, path, row) {
        groups.remove_at(path);
    }
}
