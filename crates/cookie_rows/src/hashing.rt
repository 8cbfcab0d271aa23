//! The hash key of a store's maps.
use std::alloc::Global;
use std::hash::{BuildHasher, DefaultHasher, RandomState};

/// The key by which the maps of a store hash domains, paths and names. It does not change what any
/// call returns.
#[derive(Clone, Copy)]
pub enum HashKey {
    /// A fixed, public key, the same in every program.
    Fixed,
    /// A random key, against servers that choose strings whose hashes collide under a known key.
    Random(RandomState),
}

impl BuildHasher for HashKey {
    type Hasher = DefaultHasher;

    ghost use Rattle.cookie_rows.specs.Hashing.{initial_hasher};

    ghost build_hasher = { initial_hasher };

    fn build_hasher(&self) -> DefaultHasher {
        match self {
            HashKey::Fixed => DefaultHasher::new(),
            HashKey::Random(state) => state.build_hasher(),
        }
    }
}

/// An allocator, and the hash key for a store's maps. Converted from an allocator alone, it has the
/// fixed key.
#[derive(Clone, Copy)]
pub struct StoreAlloc {
    /// The allocator.
    pub alloc: Global,
    /// The hash key.
    pub hash_key: HashKey,
}

impl From<Global> for StoreAlloc {
    ghost use Rattle.std.specs.Prelude.{◌≡◌};
    ghost use Rattle.cookie_rows.specs.declared.hashing.HashKey.TheVariants.{Fixed};

    ghost from_gives = { λ alloc with_key. with_key ≡ record { alloc = alloc; hash_key = Fixed } };

    fn from(alloc: Global) -> StoreAlloc {
        StoreAlloc {
            alloc,
            hash_key: HashKey::Fixed,
        }
    }
}
