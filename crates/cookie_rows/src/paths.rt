//! The rows of one domain, by path.
ghost use Rattle.std.specs.Prelude.{◌≡◌, ◌≢◌, [], ◌==◌, ◌+◌, ◌^◌, ◌<◌, ◌≤◌, bytes_eq, is_none, length, map, nat_lt, option_map, slice_get, slice_index_or, List, None, Some, IfNone, IfOk, IfSome, OnErr, OnOk, ℕ};
ghost use Rattle.std.specs.Map.{lookup};
ghost use Rattle.std.specs.Option.{option_copied};
ghost use Rattle.ordered_map.specs.Entries.{in_order};
ghost use Rattle.cookie_words.specs.Moments.{moment_of};
ghost use Rattle.cookie_lookup.specs.SearchView.{group_position, under};
ghost use Rattle.cookie_lookup.specs.Positions.{paths_in_order, paths_order};
ghost use Rattle.cookie_rows.specs.PathMaps.{groups_of, stored_groups};
ghost use Rattle.cookie_rows.specs.Items.{expire_item_paths, find_item_paths, put_item_paths, remove_item_paths, Item};
ghost use Rattle.cookie_rows.specs.Eviction.{is_single, is_single_paths, filter_paths, moved_to_end_if, survives, rank_of, ranks_of, EvictsInPaths, IsFirstSurvivor};
ghost use Rattle.cookie_rows.specs.Least.{items_in_paths, stored_at, AreNumbered, RemovesAt, RemovesLeast};
ghost use Rattle.cookie_rows.specs.Retained.{RetainsPaths, ReturnsFor};
ghost use Rattle.cookie_rows.specs.Stored.{StoredPaths, placed_paths};

use crate::boxed::{BoxedCookie, push_ranks};
use crate::copying::{Rehash, rehashed_map};
use crate::eviction_order::EvictionOrder;
use crate::hashing::HashKey;
use crate::least::least_of;
use crate::level_iter::LevelIter;
use crate::names::Names;
use crate::path_adding::with_row;
use crate::path_removal::{with_expired, without_row, without_row_at};
use crate::path_table::{found_in, move_to_end_in, replace_in, retain_in};
use cookie_parts::Cookie;
use jiff::civil::DateTime;
use ordered_map::OrderedMap;
use std::alloc::{AllocError, Global};
use std::cmp::Ordering;
use std::marker::Model;
use std::{mem, slice};

/// Groups by path. A single group is stored in place, so that a domain with one path needs no table.
#[derive(Drop)]
pub(crate) enum PathMap {
    Empty,
    Single(String, Names),
    Table(Box<OrderedMap<Names, HashKey>>),
}

/// The rows of one domain, by path.
#[derive(Drop)]
pub(crate) struct Paths {
    groups: PathMap,
}

impl Model for Paths {
    ghost Value = { StoredPaths };

    ghost view = { λ paths. stored_groups paths.groups };
}

impl Rehash for Paths {
    ghost is_copy = { λ paths copy. paths_in_order copy ≡ paths_in_order paths };

    fn rehashed(&self, alloc: Global, hash_key: HashKey) -> Result<Paths, AllocError> {
        Ok(Paths {
            groups: rehashed(&self.groups, alloc, hash_key)?,
        })
    }
}

impl Paths {
    // Returns the groups of this row alone.
    pub(crate) fn of_one(alloc: Global, row: BoxedCookie) -> Result<Paths, AllocError>
        ensures { IfOk result (λ paths. paths_in_order paths ≡ put_item_paths row.row row.number []) }
    {
        let path = String::from_str(alloc, row.cookie().path.as_str())?;
        Ok(Paths {
            groups: PathMap::Single(path, Names::of_one(row)),
        })
    }

    // The number of paths.
    pub(crate) fn len(&self) -> usize
        ensures stored { result ≡ length self.now }
        ensures in_order { result ≡ length (paths_in_order self.now) }
        ensures small { result < 2 ^ 63 }
    {
        match &self.groups {
            PathMap::Empty => 0,
            PathMap::Single(_, _) => 1,
            PathMap::Table(groups) => groups.len(),
        }
    }

    // Whether there are no groups.
    pub(crate) fn is_empty(&self) -> bool
        ensures { result ≡ (length (paths_in_order self.now) == 0) }
    {
        self.len() == 0
    }

    // The groups, in order.
    pub(crate) fn groups(&self) -> LevelIter<'_, Names>
        ensures { result ≡ map (λ p. p.1) (in_order self.now) }
    {
        match &self.groups {
            PathMap::Empty => LevelIter::of_list(&[]),
            PathMap::Single(_, names) => LevelIter::of_list(slice::from_ref(names)),
            PathMap::Table(groups) => LevelIter::of_table(groups.values()),
        }
    }

    // The group of this path, and its position.
    pub(crate) fn find(&self, path: &str) -> Option<(usize, &Names)>
        ensures position { option_map (λ found. found.0) result ≡ group_position path.now (map (λ p. p.1) self.now) }
        ensures names { IfSome result (λ found. found.1.now ≡ under found.0 (map (λ p. p.1) self.now)) }
        ensures in_order { option_map (λ found. in_order found.1.now) result ≡ lookup (bytes_eq path.now) (paths_in_order self.now) }
    {
        match &self.groups {
            PathMap::Empty => None,
            PathMap::Single(own, names) => {
                if own.as_str() == path {
                    Some((0, names))
                } else {
                    None
                }
            }
            PathMap::Table(groups) => found_in(groups.as_ref(), path),
        }
    }

    // The path and the group at a position, with its place in the order of the groups.
    pub(crate) fn at(&self, position: usize) -> Option<(usize, &str, &Names)>
        ensures place { option_map (λ found. found.0) result ≡ slice_get (map (λ p. p.0) self.now) position }
        ensures path { option_map (λ found. found.1.now) result ≡ slice_get (map (λ p. p.1.0) self.now) position }
        ensures names { option_map (λ found. found.2.now) result ≡ slice_get (map (λ p. p.1.1) self.now) position }
    {
        match &self.groups {
            PathMap::Empty => None,
            PathMap::Single(path, names) => {
                if position == 0 {
                    Some((0, path.as_str(), names))
                } else {
                    None
                }
            }
            PathMap::Table(groups) => groups.at(position),
        }
    }

    // Compares two rows, each at the positions of its path and of itself, by their places. For the
    // checker, equal places are compared by position; there are none.
    pub(crate) fn compare(&self, a: (usize, usize), b: (usize, usize)) -> Ordering
        ensures { result ≡ paths_order (placed_paths self.now) a b }
    {
        if a.0 != b.0 {
            let places = self.place(a.0).cmp(&self.place(b.0));
            return places.then(a.0.cmp(&b.0));
        }
        match self.at(a.0) {
            Some((_, _, names)) => names.compare(a.1, b.1),
            None => a.1.cmp(&b.1),
        }
    }

    // The place of the path at a position.
    fn place(&self, position: usize) -> usize
        ensures { result ≡ slice_index_or (map (λ p. p.0) self.now) position 0 }
    {
        match self.at(position) {
            Some((place, _, _)) => place,
            None => 0,
        }
    }

    // The row of this path and name, if there is one.
    pub(crate) fn get(&self, path: &str, name: &str) -> Option<&Cookie<'static>>
        ensures { option_copied result ≡ find_item_paths path.now name.now (paths_in_order self.now) }
    {
        match self.find(path) {
            Some((_, group)) => group.get(name),
            None => None,
        }
    }

    // Replaces the row of the cookie's path and name.
    pub(crate) fn replace(&mut self, cookie: Cookie<'static>)
        requires stored { find_item_paths cookie.path.text cookie.raw.name (paths_in_order self.old) ≢ None }
        ensures { (number : ℕ) → paths_in_order self.new ≡ put_item_paths cookie.entry number (paths_in_order self.old) }
    {
        replace_path(&mut self.groups, cookie);
    }

    // Adds the row at the end of its path's group.
    pub(crate) fn add(
        &mut self,
        alloc: Global,
        hash_key: HashKey,
        row: BoxedCookie,
    ) -> Result<(), AllocError>
        requires new { find_item_paths row.row.path.text row.row.raw.name (paths_in_order self.old) ≡ None }
        ensures added { OnOk result (paths_in_order self.new ≡ put_item_paths row.row row.number (paths_in_order self.old)) }
        ensures unchanged { OnErr result (paths_in_order self.new ≡ paths_in_order self.old) }
    {
        let groups = mem::replace(&mut self.groups, PathMap::Empty);
        let (groups, outcome) = with_row(groups, alloc, hash_key, row);
        self.groups = groups;
        outcome
    }

    // Replaces the row of the cookie's path and name and keeps its number, or adds a new row with
    // this number. Returns whether the row is new.
    #[inline(always)]
    pub(crate) fn put(
        &mut self,
        alloc: Global,
        hash_key: HashKey,
        cookie: Cookie<'static>,
        number: u64,
    ) -> Result<bool, AllocError>
        ensures put { OnOk result (paths_in_order self.new ≡ put_item_paths cookie.entry number (paths_in_order self.old)) }
        ensures is_new { IfOk result (λ is_new. is_new ≡ is_none (find_item_paths cookie.entry.path.text cookie.entry.raw.name (paths_in_order self.old))) }
        ensures unchanged { OnErr result (paths_in_order self.new ≡ paths_in_order self.old) }
        ensures memory { OnErr result (find_item_paths cookie.entry.path.text cookie.entry.raw.name (paths_in_order self.old) ≡ None) }
    {
        if self.get(cookie.path.as_str(), cookie.name()).is_some() {
            self.replace(cookie);
            return Ok(false);
        }
        self.add(alloc, hash_key, BoxedCookie::new(alloc, cookie, number)?)?;
        Ok(true)
    }

    // Whether there are fewer rows than `limit`.
    pub(crate) fn has_fewer_than(&self, limit: usize) -> bool
        ensures { result ≡ nat_lt (length (items_in_paths (paths_in_order self.now))) limit }
    {
        match self.room(limit) {
            Some(room) => room > 0,
            None => false,
        }
    }

    // How many rows can be added so that there are at most `limit`. `None` if there are more now.
    pub(crate) fn room(&self, limit: usize) -> Option<usize>
        ensures room { IfSome result (λ room. length (items_in_paths (paths_in_order self.now)) + room ≡ limit) }
        ensures none { IfNone result (limit < length (items_in_paths (paths_in_order self.now))) }
    {
        let mut room = limit;
        for names in self.groups() {
            room = room.checked_sub(names.len())?;
        }
        Some(room)
    }

    // The number of rows.
    fn row_count(&self) -> usize
        requires few { length (items_in_paths (paths_in_order self.now)) < 2 ^ 64 }
        ensures { result ≡ length (items_in_paths (paths_in_order self.now)) }
    {
        let mut count: usize = 0;
        for names in self.groups() {
            count += names.len();
        }
        count
    }

    // Adds a new row to at least `limit` rows and evicts rows, so that `limit` are stored. Returns
    // how many were evicted. Unchanged if out of memory.
    pub(crate) fn insert_at_limit(
        &mut self,
        alloc: Global,
        hash_key: HashKey,
        row: BoxedCookie,
        limit: usize,
        order: EvictionOrder,
        now: DateTime,
    ) -> Result<usize, AllocError>
        requires limit { 0 < limit }
        requires full { limit ≤ length (items_in_paths (paths_in_order self.old)) }
        requires numbered { AreNumbered (put_item_paths row.row row.number (paths_in_order self.old)) }
        requires new { find_item_paths row.row.path.text row.row.raw.name (paths_in_order self.old) ≡ None }
        ensures evicts { OnOk result (EvictsInPaths limit order (moment_of now) row.row row.number (paths_in_order self.old) (paths_in_order self.new)) }
        ensures evicted { IfOk result (λ evicted. length (items_in_paths (paths_in_order self.new)) + evicted ≡ length (items_in_paths (paths_in_order self.old)) + 1) }
        ensures unchanged { OnErr result (paths_in_order self.new ≡ paths_in_order self.old) }
    {
        let path = String::from_str(alloc, row.cookie().path.as_str())?;
        let evicted = self.add_and_evict(alloc, hash_key, row, limit, order, now)?;
        move_path_to_end(&mut self.groups, path.as_str());
        Ok(evicted)
    }

    // The same, but the group of the row's path keeps its place.
    fn add_and_evict(
        &mut self,
        alloc: Global,
        hash_key: HashKey,
        row: BoxedCookie,
        limit: usize,
        order: EvictionOrder,
        now: DateTime,
    ) -> Result<usize, AllocError>
        requires limit { 0 < limit }
        requires full { limit ≤ length (items_in_paths (paths_in_order self.old)) }
        requires numbered { AreNumbered (put_item_paths row.row row.number (paths_in_order self.old)) }
        requires new { find_item_paths row.row.path.text row.row.raw.name (paths_in_order self.old) ≡ None }
        ensures evicts { OnOk result (EvictsInPaths limit order (moment_of now) row.row row.number (paths_in_order self.old)
            (moved_to_end_if is_single row.row.path.text (paths_in_order self.new))) }
        ensures evicted { IfOk result (λ evicted. length (items_in_paths (paths_in_order self.new)) + evicted ≡ length (items_in_paths (paths_in_order self.old)) + 1) }
        ensures unchanged { OnErr result (paths_in_order self.new ≡ paths_in_order self.old) }
    {
        if self.room(limit).is_some() {
            self.add(alloc, hash_key, row)?;
            self.remove_least(order, now);
            return Ok(1);
        }
        let (first, count) = self.first_survivor(alloc, &row, limit, order, now)?;
        self.add(alloc, hash_key, row)?;
        self.evict_before(first, order, now);
        Ok(count - self.row_count())
    }

    // Removes the row that is evicted first, and its group if it was the last row there.
    fn remove_least(&mut self, order: EvictionOrder, now: DateTime)
        ensures { RemovesLeast order (moment_of now) (paths_in_order self.old) (paths_in_order self.new) }
    {
        if let Some(least) = least_of(self, order, now) {
            self.remove_at(least.path, least.row);
        }
    }

    // Removes the row at a position, and its group if it was the last row there.
    fn remove_at(&mut self, path: usize, row: usize)
        ensures { (text : List ℕ) (item : Item) → stored_at self.old path row ≡ Some (text, item)
            → RemovesAt item (paths_in_order self.old) (paths_in_order self.new) }
    {
        let groups = mem::replace(&mut self.groups, PathMap::Empty);
        self.groups = without_row_at(groups, path, row);
    }

    // Returns the rank in eviction order of the first row that survives once this new row is
    // added to at least `limit` rows, and the number of rows with the new one.
    fn first_survivor(
        &self,
        alloc: Global,
        row: &BoxedCookie,
        limit: usize,
        order: EvictionOrder,
        now: DateTime,
    ) -> Result<((u64, u64), usize), AllocError>
        requires limit { 0 < limit }
        requires full { limit ≤ length (items_in_paths (paths_in_order self.now)) }
        ensures first { IfOk result (λ found. IsFirstSurvivor limit order (moment_of now) (rank_of order (moment_of now) row.now) (paths_in_order self.now) found.0) }
        ensures count { IfOk result (λ found. found.1 ≡ length (items_in_paths (paths_in_order self.now)) + 1) }
    {
        let mut ranks = self.ranks(alloc, order, now)?;
        ranks.push(row.rank(order, now))?;
        let count = ranks.len();
        let place = count - limit;
        let (_, first, _) = ranks.select_nth_unstable(place);
        Ok((*first, count))
    }

    // The ranks of the rows in eviction order.
    fn ranks(
        &self,
        alloc: Global,
        order: EvictionOrder,
        now: DateTime,
    ) -> Result<Vec<(u64, u64)>, AllocError>
        ensures { IfOk result (λ ranks. ranks.items ≡ ranks_of order (moment_of now) (paths_in_order self.now)) }
    {
        let mut ranks = Vec::new(alloc);
        for names in self.groups() {
            push_ranks(&mut ranks, names, order, now)?;
        }
        Ok(ranks)
    }

    // Keeps the rows for which `keep` returns true, and drops empty groups.
    pub(crate) fn retain<F: Fn(&Cookie<'_>, u64) -> bool>(&mut self, keep: &F)
        requires { F.IsAlwaysCallable keep.now }
        ensures { RetainsPaths (ReturnsFor (F.post keep.now)) (paths_in_order self.old) (paths_in_order self.new) }
    {
        match &mut self.groups {
            PathMap::Empty => {}
            PathMap::Single(_, names) => {
                names.retain(keep);
                if names.is_empty() {
                    self.groups = PathMap::Empty;
                }
            }
            PathMap::Table(groups) => retain_in(groups.as_mut(), keep),
        }
    }

    // Keeps the rows that do not come before `first` in eviction order, and drops empty groups.
    fn evict_before(&mut self, first: (u64, u64), order: EvictionOrder, now: DateTime)
        ensures { paths_in_order self.new ≡ filter_paths (survives order (moment_of now) first) (paths_in_order self.old) }
    {
        let keep = move |cookie: &Cookie<'_>, number: u64| -> bool
            ensures { result ≡ survives order (moment_of now) first (record { row = cookie.now; number = number }) }
        { (order.class_of(cookie, now), number) >= first };
        self.retain(&keep);
    }

    // Whether there is exactly one row.
    pub(crate) fn is_single(&self) -> bool
        ensures { result ≡ is_single_paths (paths_in_order self.now) }
    {
        match (self.len(), self.at(0)) {
            (1, Some((_, _, names))) => names.len() == 1,
            _ => false,
        }
    }

    // Expires the row of this path and name.
    pub(crate) fn expire(&mut self, path: &str, name: &str)
        ensures { paths_in_order self.new ≡ expire_item_paths path.now name.now (paths_in_order self.old) }
    {
        let groups = mem::replace(&mut self.groups, PathMap::Empty);
        self.groups = with_expired(groups, path, name);
    }

    // Removes the row of this path and name. The others keep their order.
    pub(crate) fn remove(&mut self, path: &str, name: &str) -> Option<Cookie<'static>>
        ensures value { result ≡ find_item_paths path.now name.now (paths_in_order self.old) }
        ensures removed { paths_in_order self.new ≡ remove_item_paths path.now name.now (paths_in_order self.old) }
    {
        let groups = mem::replace(&mut self.groups, PathMap::Empty);
        let (groups, row) = without_row(groups, path, name);
        self.groups = groups;
        row
    }
}

// A copy of the rows, hashed by this key.
fn rehashed(groups: &PathMap, alloc: Global, hash_key: HashKey) -> Result<PathMap, AllocError>
    ensures { IfOk result (λ copies. groups_of copies ≡ groups_of groups.now) }
{
    match groups {
        PathMap::Empty => Ok(PathMap::Empty),
        PathMap::Single(path, names) => Ok(PathMap::Single(
            path.clone()?,
            names.rehashed(alloc, hash_key)?,
        )),
        PathMap::Table(groups) => {
            let copies = rehashed_map(groups, alloc, hash_key)?;
            Ok(PathMap::Table(Box::new(alloc, copies)?))
        }
    }
}

// Replaces the row of the cookie's path and name.
fn replace_path(groups: &mut PathMap, cookie: Cookie<'static>)
    requires stored { find_item_paths cookie.path.text cookie.raw.name (groups_of groups.old) ≢ None }
    ensures { (number : ℕ) → groups_of groups.new ≡ put_item_paths cookie.entry number (groups_of groups.old) }
{
    match groups {
        PathMap::Empty => {}
        PathMap::Single(_, names) => names.replace(cookie),
        PathMap::Table(groups) => replace_in(groups.as_mut(), cookie),
    }
}

// Moves the group of this path to the end, if it has a single row.
fn move_path_to_end(groups: &mut PathMap, path: &str)
    ensures { groups_of groups.new ≡ moved_to_end_if is_single path.now (groups_of groups.old) }
{
    match groups {
        PathMap::Empty | PathMap::Single(_, _) => {}
        PathMap::Table(groups) => move_to_end_in(groups.as_mut(), path),
    }
}
