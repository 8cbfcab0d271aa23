//! Copies of maps with another hash key.
ghost use Rattle.std.specs.Prelude.{◌≢◌, [], IfOk, OnErr};
ghost use Rattle.ordered_map.specs.Entries.{entries};
ghost use Rattle.cookie_rows.specs.Copies.{AreCopies};

use crate::hashing::HashKey;
use ordered_map::OrderedMap;
use std::alloc::{AllocError, Global};

/// A map value that may contain maps, which are copied with it.
pub(crate) trait Rehash: Drop {
    ghost is_copy: { Self → Self → Type 0 };

    /// Returns a copy whose maps hash by this key.
    fn rehashed(&self, alloc: Global, hash_key: HashKey) -> Result<Self, AllocError>
        ensures { IfOk result (λ copy. is_copy self.now copy) };
}

/// Returns a copy of the map, hashed by this key. Allocates only if there is an entry.
pub(crate) fn rehashed_map<V: Rehash>(
    map: &OrderedMap<V, HashKey>,
    alloc: Global,
    hash_key: HashKey,
) -> Result<OrderedMap<V, HashKey>, AllocError>
    ensures copies { IfOk result (λ copy. AreCopies V.is_copy (entries map.now) (entries copy)) }
    ensures memory { OnErr result (entries map.now ≢ []) }
{
    // for the checker: the keys differ
    let _ = map.len();
    let mut copy = OrderedMap::with_hasher(alloc, hash_key);
    for (text, value) in map.iter() {
        copy.push(text.clone()?, value.rehashed(alloc, hash_key)?)?;
    }
    Ok(copy)
}
