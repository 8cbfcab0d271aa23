//! Iterators over the entries of a map, in the order of insertion.
ghost use Rattle.std.specs.Prelude.{◌≡◌, List, String};
ghost use Rattle.std.specs.Map.{values_of};
ghost use Rattle.std.specs.Slice.Iter.{iter_rest};
ghost use Rattle.std.specs.declared.alloc.Global.{Global as Heap};
ghost use Rattle.ordered_map.specs.Layout.{entries_of};

use crate::gaps::Placed;
use indexmap::IndexMap;
use std::hash::BuildHasher;
use std::marker::Model;
use std::slice;

/// An iterator over the keys of a map with their values, in the order of insertion.
#[derive(Drop)]
pub struct Iter<'a, V, S: BuildHasher> {
    order: slice::Iter<'a, usize>,
    entries: &'a IndexMap<String, Placed<V>, S>,
}

impl<'a, V, S: BuildHasher> Model for Iter<'a, V, S> {
    ghost Value = { List (String Heap × V) };

    ghost view = { λ iter. entries_of iter.entries.now.entries (iter_rest iter.order) };
}

impl<'a, V, S: BuildHasher> Iter<'a, V, S> {
    /// Returns an iterator over the entries at these positions.
    pub(crate) fn new(
        entries: &'a IndexMap<String, Placed<V>, S>,
        order: &'a [usize],
    ) -> Iter<'a, V, S>
        ensures { result ≡ entries_of entries.now.entries order.now }
    {
        Iter {
            order: order.iter(),
            entries,
        }
    }
}

impl<'a, V, S: BuildHasher> Iterator for Iter<'a, V, S> {
    type Item = (&'a String, &'a V);

    ghost use Rattle.std.specs.Iterator.{YieldsFirstBy, item_count};
    ghost use Rattle.std.specs.Map.Iter.{deref_pair};

    ghost next_gives = { YieldsFirstBy deref_pair (λ entries. entries) };

    ghost remaining = { item_count (λ entries. entries) };

    fn next(&mut self) -> Option<(&'a String, &'a V)> {
        loop {
            let Some(position) = self.order.next() else {
                return None;
            };
            if let Some((key, placed)) = self.entries.get_index(*position) {
                return Some((key, &placed.value));
            }
        }
    }
}

/// An iterator over the values of a map, in the order of insertion of their keys.
#[derive(Drop)]
pub struct Values<'a, V, S: BuildHasher> {
    entries: Iter<'a, V, S>,
}

impl<'a, V, S: BuildHasher> Model for Values<'a, V, S> {
    ghost Value = { List V };

    ghost view = { λ iter. values_of iter.entries };
}

impl<'a, V, S: BuildHasher> Values<'a, V, S> {
    /// Returns an iterator over the values of these entries.
    pub(crate) fn new(entries: Iter<'a, V, S>) -> Values<'a, V, S>
        ensures { result ≡ values_of entries.entry }
    {
        Values { entries }
    }
}

impl<'a, V, S: BuildHasher> Iterator for Values<'a, V, S> {
    type Item = &'a V;

    ghost use Rattle.std.specs.Iterator.{YieldsFirstRef, item_count};

    ghost next_gives = { YieldsFirstRef (λ values. values) };

    ghost remaining = { item_count (λ values. values) };

    fn next(&mut self) -> Option<&'a V> {
        match self.entries.next() {
            Some((_, value)) => Some(value),
            None => None,
        }
    }
}
