//! Entries with their places, and the gaps between the places.
ghost use Rattle.std.specs.Prelude.{◌≡◌, ◌<◌, ◌≤◌, option_map, slice_get, vec_capacity, vec_len, IfNone, IfSome};
ghost use Rattle.indexmap.specs.IndexMap.{hasher_of, index_map_len, spare};
ghost use Rattle.ordered_map.specs.Entries.{in_order};
ghost use Rattle.ordered_map.specs.Layout.{by_position, IsStored, LeavesGap};

use indexmap::IndexMap;
use std::hash::BuildHasher;

/// The position at a place from which the entry was removed. No entry has it.
pub(crate) const GAP: usize = usize::MAX;

/// A value, and its place in the order of insertion.
#[derive(Drop)]
pub(crate) struct Placed<V> {
    pub(crate) place: usize,
    pub(crate) value: V,
}

/// Removes the entry at this position, and leaves a gap at its place. The last entry moves to the
/// position.
pub(crate) fn swap_remove_placed<V: Drop, S: BuildHasher>(
    entries: &mut IndexMap<String, Placed<V>, S>,
    order: &mut Vec<usize>,
    position: usize,
) -> Option<Placed<V>>
    requires { IsStored entries.old.entries order.old.items }
    ensures stored { IsStored entries.new.entries order.new.items }
    ensures removed { result ≡ option_map (λ e. e.1) (slice_get entries.old.entries position) }
    ensures gap { IfSome result (λ p. LeavesGap p.place entries.old.entries order.old.items entries.new.entries order.new.items) }
    ensures unchanged { IfNone result (entries.new.entries ≡ entries.old.entries) }
    ensures places { vec_len order.new ≡ vec_len order.old }
    ensures capacity { vec_capacity order.new ≡ vec_capacity order.old }
    ensures len { index_map_len entries.new ≤ index_map_len entries.old }
    ensures spare { spare entries.old ≤ spare entries.new }
    ensures hasher { hasher_of entries.new ≡ hasher_of entries.old }
{
    let Some((_, last)) = entries.last() else {
        return None;
    };
    let last_place = last.place;
    let Some((_, removed)) = entries.swap_remove_index(position) else {
        return None;
    };
    // the last entry has the position of the removed one now
    order[last_place] = position;
    order[removed.place] = GAP;
    Some(removed)
}

/// Closes the gaps if more than half of the places are gaps.
pub(crate) fn close_many_gaps<V, S: BuildHasher>(
    entries: &mut IndexMap<String, Placed<V>, S>,
    order: &mut Vec<usize>,
)
    requires { IsStored entries.old.entries order.old.items }
    ensures stored { IsStored entries.new.entries order.new.items }
    ensures entries { in_order (by_position entries.new.entries) ≡ in_order (by_position entries.old.entries) }
    ensures shorter { vec_len order.new ≤ vec_len order.old }
    ensures capacity { vec_capacity order.new ≡ vec_capacity order.old }
    ensures len { index_map_len entries.new ≡ index_map_len entries.old }
    ensures spare { spare entries.new ≡ spare entries.old }
    ensures hasher { hasher_of entries.new ≡ hasher_of entries.old }
{
    if order.len() / 2 > entries.len() {
        close_gaps(entries, order);
    }
}

/// Closes the gaps if no place is free, or more than half of the places are gaps.
pub(crate) fn free_place<V, S: BuildHasher>(
    entries: &mut IndexMap<String, Placed<V>, S>,
    order: &mut Vec<usize>,
)
    requires stored { IsStored entries.old.entries order.old.items }
    requires gap { index_map_len entries.old < vec_len order.old }
    ensures stored { IsStored entries.new.entries order.new.items }
    ensures entries { in_order (by_position entries.new.entries) ≡ in_order (by_position entries.old.entries) }
    ensures free { vec_len order.new < vec_capacity order.new }
    ensures shorter { vec_len order.new ≤ vec_len order.old }
    ensures capacity { vec_capacity order.new ≡ vec_capacity order.old }
    ensures len { index_map_len entries.new ≡ index_map_len entries.old }
    ensures spare { spare entries.new ≡ spare entries.old }
    ensures hasher { hasher_of entries.new ≡ hasher_of entries.old }
{
    if order.len() == order.capacity() || order.len() / 2 > entries.len() {
        close_gaps(entries, order);
    }
}

/// Closes all gaps, in one pass that hashes and allocates nothing.
pub(crate) fn close_gaps<V, S: BuildHasher>(
    entries: &mut IndexMap<String, Placed<V>, S>,
    order: &mut Vec<usize>,
)
    requires { IsStored entries.old.entries order.old.items }
    ensures stored { IsStored entries.new.entries order.new.items }
    ensures entries { in_order (by_position entries.new.entries) ≡ in_order (by_position entries.old.entries) }
    ensures closed { vec_len order.new ≡ index_map_len entries.new }
    ensures shorter { vec_len order.new ≤ vec_len order.old }
    ensures capacity { vec_capacity order.new ≡ vec_capacity order.old }
    ensures len { index_map_len entries.new ≡ index_map_len entries.old }
    ensures spare { spare entries.new ≡ spare entries.old }
    ensures hasher { hasher_of entries.new ≡ hasher_of entries.old }
{
    let mut next_place = 0;
    for place in 0..order.len() {
        let position = order[place];
        if let Some(placed) = entries.get_index_mut(position) {
            placed.place = next_place;
            order[next_place] = position;
            next_place += 1;
        }
    }
    order.truncate(next_place);
}
