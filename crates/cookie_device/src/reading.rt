//! Reading into a vector.
ghost use Rattle.std.specs.Prelude.{◌≡◌, ◌↔◌, ℕ, ◌+◌, ◌-◌, ◌^◌, ◌<◌, ◌≤◌, List, ◌++◌, false, length, IfOk, IsTrue, OnErr, OnOk};
ghost use Rattle.std.specs.Io.KnownBytes.{Consumes, IsAtEnd};
ghost use Rattle.cookie_device.specs.FillError.{CountsReadFailure};

use crate::device::Source;
use crate::lines::FillError;
use std::alloc::Global;

/// The most bytes of one read.
pub(crate) const READ_LIMIT: usize = 4_096;

/// Returns all bytes of `source`, up to its end.
///
/// On an error, the bytes read until then are lost.
pub fn read_all<R: Source>(alloc: Global, source: &mut R) -> Result<Vec<u8>, FillError>
    requires countable { (R.state source.old).failed < 2 ^ 64 - 1 }
    ensures all { IfOk result (λ bytes. Consumes (R.state source.old).remaining (R.state source.new).remaining bytes.items
        × ((R.state source.old).reads_left ≤ (R.state source.new).reads_left + length bytes.items + 1)) }
    ensures end { OnOk result (IsAtEnd (R.state source.new).remaining) }
    ensures part { OnErr result ((bytes : List ℕ) × Consumes (R.state source.old).remaining (R.state source.new).remaining bytes
        × ((R.state source.old).reads_left ≤ (R.state source.new).reads_left + length bytes)) }
    ensures count { CountsReadFailure result (R.state source.old).failed (R.state source.new).failed }
{
    let mut bytes = Vec::new(alloc);
    while read_more(&mut bytes, source)? {}
    Ok(bytes)
}

// Appends the bytes of one read and returns whether there were any. If not, the source is at its
// end. On an error, `bytes` is unchanged.
pub(crate) fn read_more<R: Source>(bytes: &mut Vec<u8>, source: &mut R) -> Result<bool, FillError>
    requires countable { (R.state source.old).failed < 2 ^ 64 - 1 }
    ensures more { (part : List ℕ) × (bytes.new.items ≡ bytes.old.items ++ part)
        × Consumes (R.state source.old).remaining (R.state source.new).remaining part × (length part ≤ READ_LIMIT) }
    ensures came { IfOk result (λ came. IsTrue came ↔ (length bytes.old.items < length bytes.new.items)) }
    ensures end { IfOk result (λ came. came ≡ false → IsAtEnd (R.state source.new).remaining) }
    ensures err { OnErr result (bytes.new.items ≡ bytes.old.items) }
    ensures count { CountsReadFailure result (R.state source.old).failed (R.state source.new).failed }
    ensures fewer { OnOk result ((R.state source.old).reads_left ≡ (R.state source.new).reads_left + 1) }
    ensures as_many { OnErr result ((R.state source.new).reads_left ≡ (R.state source.old).reads_left) }
{
    bytes.reserve(READ_LIMIT)?;
    let mut chunk = [0; READ_LIMIT];
    let count = source.read(&mut chunk)?;
    bytes.extend_from_slice(&chunk[..count]).unwrap();
    Ok(count > 0)
}
