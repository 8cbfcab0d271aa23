//! Values by string, in the order of insertion.
ghost use Rattle.std.specs.Prelude.{◌≡◌, ◌==◌, ◌+◌, ◌^◌, ◌<◌, ◌≤◌, ◌++◌, ◌∷◌, [], length, map, option_map, position, slice_get, string_bytes, None, IfNone, IfOk, IsOk, OnErr, OnOk, OnSome};
ghost use Rattle.std.specs.Map.{lookup, remove_entry, values_of};
ghost use Rattle.std.specs.Map.Calls.{CallableOnEachPair, CalledAtPair, RetainsPairs, TakesPair};
ghost use Rattle.std.specs.Borrow.{sem};
ghost use Rattle.std.specs.Option.{option_copied, option_copied_mut};
ghost use Rattle.ordered_map.specs.Entries.{entries, is_text, moved_to_end, text_at, HasDistinctKeys};
ghost use Rattle.ordered_map.specs.Borrows.{lends_value};

use crate::gaps::{GAP, Placed, close_many_gaps, free_place, swap_remove_placed};
use crate::iter::{Iter, Values};
use crate::retain::retain_place;
use indexmap::IndexMap;
use std::alloc::{AllocError, Global};
use std::hash::BuildHasher;
use std::marker::Model;

/// Values by string, in the order of insertion. A removal keeps the order of the others, and takes
/// amortized constant time.
#[derive(Drop)]
pub struct OrderedMap<V, S: BuildHasher> {
    entries: IndexMap<String, Placed<V>, S>,
    // at each place the position of its entry, or `GAP`
    order: Vec<usize>,
}

impl<V, S: BuildHasher> Model for OrderedMap<V, S> {
    ghost use Rattle.std.specs.Prelude.{◌-◌, length, vec_capacity, vec_len};
    ghost use Rattle.indexmap.specs.IndexMap.{hasher_of, index_map_len, spare};
    ghost use Rattle.ordered_map.specs.Entries.{Ordered};

    ghost Value = { Ordered V S };

    ghost use Rattle.ordered_map.specs.Layout.{by_position, room_of, IsWhole};

    ghost view = { λ m. record {
      by_position = by_position m.entries.entries;
      hasher = hasher_of m.entries;
      room = room_of (spare m.entries) (vec_capacity m.order - vec_len m.order) (index_map_len m.entries);
    } };

    ghost invariant = { λ m. IsWhole m.entries.entries m.order.items (vec_capacity m.order) };
}

impl<V, S: BuildHasher> OrderedMap<V, S> {
    /// Returns an empty map, which allocates nothing until the first entry is added.
    pub fn with_hasher(alloc: Global, hasher: S) -> OrderedMap<V, S>
        ensures empty { entries result ≡ [] }
        ensures hasher { result.hasher ≡ hasher }
    {
        OrderedMap {
            entries: IndexMap::with_hasher(alloc, hasher),
            order: Vec::new(alloc),
        }
    }

    /// Returns the hasher.
    pub fn hasher(&self) -> &S
        ensures { result.now ≡ self.now.hasher }
    {
        self.entries.hasher()
    }

    /// Returns the allocator.
    pub fn allocator(&self) -> &Global {
        self.entries.allocator()
    }

    /// Returns the number of entries.
    pub fn len(&self) -> usize
        ensures len { result ≡ length (entries self.now) }
        ensures small { result < 2 ^ 63 }
        ensures distinct { HasDistinctKeys self.now }
    {
        self.entries.len()
    }

    /// Returns whether there are no entries.
    pub fn is_empty(&self) -> bool
        ensures { result ≡ (length (entries self.now) == 0) }
    {
        self.len() == 0
    }

    /// Returns an iterator over the keys with their values, in the order of insertion.
    pub fn iter(&self) -> Iter<'_, V, S>
        ensures { result ≡ entries self.now }
    {
        Iter::new(&self.entries, &self.order)
    }

    /// Returns an iterator over the values, in the order of insertion of their keys.
    pub fn values(&self) -> Values<'_, V, S>
        ensures { result ≡ values_of (entries self.now) }
    {
        Values::new(self.iter())
    }

    /// Returns the value of this key.
    pub fn get(&self, key: &str) -> Option<&V>
        ensures { option_copied result ≡ lookup (is_text key.now) (entries self.now) }
    {
        match self.entries.get(key) {
            Some(placed) => Some(&placed.value),
            None => None,
        }
    }

    /// Returns the position of this key. It stays the same until an entry is removed.
    pub fn position(&self, key: &str) -> Option<usize>
        ensures position { result ≡ position (is_text key.now) (map (λ p. p.1.0) self.now.by_position) }
        ensures distinct { HasDistinctKeys self.now }
    {
        self.entries.get_index_of(key)
    }

    /// Returns the place, the key and the value of the entry at this position.
    pub fn at(&self, position: usize) -> Option<(usize, &str, &V)>
        ensures place { option_map (λ found. found.0) result ≡ option_map (λ p. p.0) (slice_get self.now.by_position position) }
        ensures key { option_map (λ found. found.1.now) result ≡ option_map (λ p. string_bytes p.1.0) (slice_get self.now.by_position position) }
        ensures value { option_map (λ found. found.2.now) result ≡ option_map (λ p. p.1.1) (slice_get self.now.by_position position) }
    {
        match self.entries.get_index(position) {
            Some((key, placed)) => Some((placed.place, key.as_str(), &placed.value)),
            None => None,
        }
    }

    /// Returns the value of this key, to write.
    pub fn get_mut(&mut self, key: &str) -> Option<&mut V>
        ensures* writes_back { sem 𝓛 (lends_value V.row S.row S.Hasher.row S.BuildHasher S.Hasher.Hasher self.entry key.now result) }
        ensures value { option_copied_mut result ≡ lookup (is_text key.now) (entries self.old) }
    {
        match self.position(key) {
            Some(position) => self.at_mut(position),
            None => None,
        }
    }

    /// Returns the value of the entry at this position, to write.
    pub fn at_mut(&mut self, position: usize) -> Option<&mut V>
        ensures* writes_back { sem 𝓛 (lends_value V.row S.row S.Hasher.row S.BuildHasher S.Hasher.Hasher self.entry (text_at self.old position) result) }
        ensures value { option_copied_mut result ≡ option_map (λ p. p.1.1) (slice_get self.old.by_position position) }
    {
        match self.entries.get_index_mut(position) {
            Some(placed) => Some(&mut placed.value),
            None => None,
        }
    }
}

impl<V: Drop, S: BuildHasher> OrderedMap<V, S> {
    /// Adds an entry with a new key at the end. On an error the map is unchanged.
    pub fn push(&mut self, key: String, value: V) -> Result<(), AllocError>
        requires new { lookup (is_text (string_bytes key)) (entries self.old) ≡ None }
        ensures pushed { OnOk result (entries self.new ≡ entries self.old ++ (key, value) ∷ []) }
        ensures unchanged { OnErr result (self.new.by_position ≡ self.old.by_position) }
        ensures hasher { self.new.hasher ≡ self.old.hasher }
        ensures succeeds { 0 < self.old.room → IsOk result }
        ensures room { self.old.room ≤ self.new.room + 1 }
    {
        let position = self.entries.len();
        // one place for this entry, and others so that moves to the end seldom close gaps
        self.order.reserve(2 + position / 2)?;
        let place = self.order.len();
        self.entries.insert(key, Placed { place, value })?;
        self.order.push_reserved(position);
        Ok(())
    }

    /// Removes all entries. Keeps the memory.
    pub fn clear(&mut self)
        ensures empty { entries self.new ≡ [] }
        ensures hasher { self.new.hasher ≡ self.old.hasher }
        ensures room { self.old.room ≤ self.new.room }
    {
        self.entries.clear();
        self.order.clear();
    }

    /// Removes the entry of this key, and returns its value. The others keep their order. Takes
    /// amortized constant time, and allocates nothing.
    pub fn remove(&mut self, key: &str) -> Option<V>
        ensures value { result ≡ lookup (is_text key.now) (entries self.old) }
        ensures removed { entries self.new ≡ remove_entry (is_text key.now) (entries self.old) }
        ensures hasher { self.new.hasher ≡ self.old.hasher }
        ensures room { self.old.room ≤ self.new.room }
    {
        match self.position(key) {
            Some(position) => self.remove_at(position),
            None => None,
        }
    }

    /// Removes the entry at this position, and returns its value. The others keep their order.
    /// Takes amortized constant time, and allocates nothing.
    pub fn remove_at(&mut self, position: usize) -> Option<V>
        ensures value { result ≡ option_map (λ p. p.1.1) (slice_get self.old.by_position position) }
        ensures removed { OnSome result (entries self.new ≡ remove_entry (is_text (text_at self.old position)) (entries self.old)) }
        ensures unchanged { IfNone result (self.new.by_position ≡ self.old.by_position) }
        ensures hasher { self.new.hasher ≡ self.old.hasher }
        ensures room { self.old.room ≤ self.new.room }
    {
        let Some(removed) = swap_remove_placed(&mut self.entries, &mut self.order, position) else {
            return None;
        };
        close_many_gaps(&mut self.entries, &mut self.order);
        Some(removed.value)
    }

    /// Keeps the entries for which `keep` returns true, in their order. `keep` is called in that
    /// order. Takes linear time, and allocates nothing.
    pub fn retain<F: FnMut(&String, &mut V) -> bool>(&mut self, mut keep: F)
        requires { CallableOnEachPair (CalledAtPair F.FnMut) (TakesPair F.FnMut) keep (entries self.old) }
        ensures retained { RetainsPairs (CalledAtPair F.FnMut) keep (entries self.old) (entries self.new) }
        ensures hasher { self.new.hasher ≡ self.old.hasher }
        ensures room { self.old.room ≤ self.new.room }
    {
        for place in 0..self.order.len() {
            retain_place(&mut self.entries, &mut self.order, place, &mut keep);
        }
        close_many_gaps(&mut self.entries, &mut self.order);
    }

    /// Moves the entry of this key to the end. Takes amortized constant time, and allocates
    /// nothing.
    pub fn move_to_end(&mut self, key: &str)
        ensures moved { entries self.new ≡ moved_to_end (is_text key.now) (entries self.old) }
        ensures hasher { self.new.hasher ≡ self.old.hasher }
        ensures room { self.old.room ≤ self.new.room + 1 }
    {
        let Some(position) = self.entries.get_index_of(key) else {
            return;
        };
        let end = self.order.len();
        let Some(moved) = self.entries.get_index_mut(position) else {
            return;
        };
        let place = moved.place;
        moved.place = end;
        self.order[place] = GAP;
        self.order.push_reserved(position);
        free_place(&mut self.entries, &mut self.order);
    }
}

impl<V: Drop, S: BuildHasher + Drop> OrderedMap<V, S> {
    /// Returns an empty map with room for `n` entries.
    pub fn with_capacity_and_hasher(
        alloc: Global,
        n: usize,
        hasher: S,
    ) -> Result<OrderedMap<V, S>, AllocError>
        ensures empty { IfOk result (λ created. entries created ≡ []) }
        ensures hasher { IfOk result (λ created. created.hasher ≡ hasher) }
        ensures room { IfOk result (λ created. n ≤ created.room) }
    {
        let Some(places) = n.checked_add(n / 2 + 1) else {
            return Err(AllocError);
        };
        let order = Vec::with_capacity(alloc, places)?;
        let entries = IndexMap::with_capacity_and_hasher(alloc, n, hasher)?;
        Ok(OrderedMap { entries, order })
    }
}
