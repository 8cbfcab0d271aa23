//! The shard of a root, for stores that are split by site.
ghost use Rattle.std.specs.Prelude.{◌≡◌};
ghost use Rattle.cookie_strict.specs.ShardNumber.{fnv1a, shard_of};

// The offset basis and the prime of FNV-1a in 64 bits.
const FNV_BASIS: u64 = 14_695_981_039_346_656_037;

const FNV_PRIME: u64 = 1_099_511_628_211;

/// Returns the number of the shard that has the cookies of this root, below `shards`, or `None` if
/// `shards` is 0: the 64-bit FNV-1a hash of its bytes modulo `shards`. This never changes, so that
/// the numbers may be saved.
///
/// The hash has no key: hosts can be chosen so that they fall into one shard.
pub fn shard_of(root: &str, shards: u32) -> Option<u32>
    ensures { result ≡ shard_of root.now shards }
{
    let shard = fnv1a(root.as_bytes()).checked_rem(u64::from(shards))?;
    u32::try_from(shard).ok()
}

// Returns the 64-bit FNV-1a hash of the bytes.
fn fnv1a(bytes: &[u8]) -> u64
    ensures { result ≡ fnv1a bytes.now }
{
    let mut hash = FNV_BASIS;
    for byte in bytes {
        hash = (hash ^ u64::from(*byte)).wrapping_mul(FNV_PRIME);
    }
    hash
}
