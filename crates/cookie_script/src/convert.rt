//! Converts lines of JSON, as older programs save cookies, into a RON list.
ghost use Rattle.std.specs.Prelude.{◌≡◌, ◌-◌, ◌^◌, ◌<◌, ℕ, IfErr, OnOk};
ghost use Rattle.std.specs.Io.KnownBytes.{IsAtEnd};
ghost use Rattle.cookie_script.specs.Conversion.{list_fault, Converts, FailsToConvert};
ghost use Rattle.cookie_script.specs.Errors.{CountsConvertFailure};
ghost use Rattle.cookie_parts.specs.declared.error.Error.{Error};
ghost use Rattle.cookie_store.specs.Loading.{ReadsEachOnce};
ghost use Rattle.cookie_store.specs.RonLists.{SerializesToRonList};
ghost use Rattle.cookie_store.specs.SavedLists.{FailsToSaveList, WritesList};

use crate::error::ConvertFault;
use cookie_device::{Sink, Source};
use cookie_store::serde::{migrate_lines, ron};
use cookie_store::{CookieStore, Error, StoreAlloc};

/// Reads each line of `source` as a cookie saved in JSON, expired cookies included, and writes the
/// resulting rows to `sink` as a RON list and a line feed.
///
/// Nothing is written before all lines are read and the whole list is built. If a write fails, a
/// prefix of the list was written.
pub fn convert<A: Into<StoreAlloc>, R: Source, W: Sink>(
    alloc: A,
    source: &mut R,
    sink: &mut W,
) -> Result<(), ConvertFault>
    requires readable { (R.state source.old).failed < 2 ^ 64 - 1 }
    requires writable { (W.state sink.old).failed < 2 ^ 64 - 1 }
    ensures whole { OnOk result (Converts (R.state source.old).remaining (W.state sink.old).contents (W.state sink.new).contents) }
    ensures read { OnOk result (IsAtEnd (R.state source.new).remaining) }
    ensures failed { IfErr result (λ fault. FailsToConvert fault (R.state source.old) (R.state source.new)
        (W.state sink.old) (W.state sink.new)) }
    ensures count { CountsConvertFailure result (R.state source.old).failed (R.state source.new).failed (W.state sink.old).failed (W.state sink.new).failed }
    ensures reads { ReadsEachOnce (R.state source.old) (R.state source.new) }
{
    let store = migrate_lines(alloc, source)?;
    write_list(&store, sink)
}

// Writes the rows of the store as a RON list and a line feed.
fn write_list<W: Sink>(store: &CookieStore, sink: &mut W) -> Result<(), ConvertFault>
    requires { (W.state sink.old).failed < 2 ^ 64 - 1 }
    ensures whole { OnOk result (WritesList SerializesToRonList store.now.rows (W.state sink.old).contents (W.state sink.new).contents) }
    ensures failed { IfErr result (λ fault. (error : Error) × (fault ≡ list_fault error)
        × FailsToSaveList SerializesToRonList error store.now.rows (W.state sink.old) (W.state sink.new)) }
    ensures count { (reads : ℕ) → CountsConvertFailure result reads reads (W.state sink.old).failed (W.state sink.new).failed }
{
    match ron::save_incl_expired_and_nonpersistent(store, sink) {
        Ok(()) => Ok(()),
        Err(error) => Err(list_fault(error)),
    }
}

// Returns why a list was not written. Each row has a saved form, so without a failed write it is out
// of memory.
fn list_fault(error: Error) -> ConvertFault
    ensures { result ≡ list_fault error }
{
    match error {
        Error::Io => ConvertFault::Write,
        _ => ConvertFault::Memory,
    }
}
