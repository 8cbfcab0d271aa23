//! The steps of `OrderedMap::retain`, a place at a time.
ghost use Rattle.std.specs.Prelude.{◌≡◌, ◌+◌, ◌<◌, ◌≤◌, drop, take, All, vec_capacity, vec_len};
ghost use Rattle.std.specs.Map.Calls.{CalledAtPair, TakesPair};
ghost use Rattle.indexmap.specs.IndexMap.{hasher_of, index_map_len, spare};
ghost use Rattle.ordered_map.specs.Layout.{entries_at, entries_of, IsStored};
ghost use Rattle.ordered_map.specs.RetainsTo.{RetainsTo};

use crate::gaps::{Placed, swap_remove_placed};
use indexmap::IndexMap;
use std::hash::BuildHasher;

/// Calls `keep` at the entry of this place, if there is one, and removes the entry if `keep`
/// returns false.
pub(crate) fn retain_place<V: Drop, S: BuildHasher, F: FnMut(&String, &mut V) -> bool>(
    entries: &mut IndexMap<String, Placed<V>, S>,
    order: &mut Vec<usize>,
    place: usize,
    keep: &mut F,
)
    requires stored { IsStored entries.old.entries order.old.items }
    requires within { place < vec_len order.old }
    requires callable { All (λ e. TakesPair F.FnMut keep.old e.0 e.1) (entries_at entries.old.entries order.old.items place) }
    ensures stored { IsStored entries.new.entries order.new.items }
    ensures before { entries_of entries.new.entries (take place order.new.items) ≡ entries_of entries.old.entries (take place order.old.items) }
    ensures here { RetainsTo (CalledAtPair F.FnMut) keep.old (entries_at entries.old.entries order.old.items place)
        (entries_at entries.new.entries order.new.items place) keep.new }
    ensures after { entries_of entries.new.entries (drop (place + 1) order.new.items) ≡ entries_of entries.old.entries (drop (place + 1) order.old.items) }
    ensures places { vec_len order.new ≡ vec_len order.old }
    ensures capacity { vec_capacity order.new ≡ vec_capacity order.old }
    ensures len { index_map_len entries.new ≤ index_map_len entries.old }
    ensures spare { spare entries.old ≤ spare entries.new }
    ensures hasher { hasher_of entries.new ≡ hasher_of entries.old }
{
    let position = order[place];
    if position >= entries.len() {
        return;
    }
    let (key, placed) = entries.pair_mut(position);
    if !keeps(keep, key, &mut placed.value) {
        let _ = swap_remove_placed(entries, order, position);
    }
}

// Returns what `keep` returns of this entry.
#[inline(always)]
fn keeps<V, F: FnMut(&String, &mut V) -> bool>(keep: &mut F, key: &String, value: &mut V) -> bool
    requires { TakesPair F.FnMut keep.old key.now value.old }
    ensures { CalledAtPair F.FnMut keep.old key.now value.old result value.new keep.new }
{
    keep(key, value)
}
