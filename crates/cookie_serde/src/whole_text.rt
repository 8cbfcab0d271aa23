//! A list as one string: reading and writing it, and the rows of its cookies.
ghost use Rattle.std.specs.Prelude.{◌≡◌, ◌≢◌, ◌⊎◌, ◌+◌, ◌-◌, ◌^◌, ◌<◌, [], IfErr, IfOk, IfSome, OnOk};
ghost use Rattle.std.specs.Io.KnownBytes.{Appends, IsAtEnd};
ghost use Rattle.cookie_device.specs.Device.{AppendsPrefix};
ghost use Rattle.cookie_serde.specs.SavedLists.{IsAll, StopsWithin};
ghost use Rattle.cookie_serde.specs.Loading.{ReadsEachOnce};
ghost use Rattle.cookie_serde.specs.Saving.{line_text};
ghost use Rattle.cookie_serde.specs.Selections.{built_from};

use crate::which::{Which, take};
use cookie_device::{FillError, Sink, Source, read_all, write_line};
use cookie_parts::{Cookie, Error};
use cookie_rows::{Rows, StoreAlloc};
use std::alloc::Global;

/// Writes the string and a line feed.
pub(crate) fn write_text<W: Sink>(sink: &mut W, text: &String) -> Result<(), Error>
    requires writable { (W.state sink.old).failed < 2 ^ 64 - 1 }
    ensures whole { OnOk result (Appends (W.state sink.old).contents (W.state sink.new).contents (line_text text.now)) }
    ensures count { OnOk result ((W.state sink.new).failed ≡ (W.state sink.old).failed) }
    ensures stopped { IfErr result (λ error. AppendsPrefix (W.state sink.old).contents (W.state sink.new).contents (line_text text.now)
        × (error ≡ Error.Io) × ((W.state sink.new).failed ≡ (W.state sink.old).failed + 1)) }
{
    match write_line(sink, text.as_bytes()) {
        Ok(()) => Ok(()),
        Err(_) => Err(Error::Io),
    }
}

/// Reads the source to its end.
pub(crate) fn read_bytes<R: Source>(alloc: Global, source: &mut R) -> Result<Vec<u8>, Error>
    requires readable { (R.state source.old).failed < 2 ^ 64 - 1 }
    ensures all { IfOk result (λ bytes. IsAll (R.state source.old).remaining bytes.items) }
    ensures end { OnOk result (IsAtEnd (R.state source.new).remaining) }
    ensures count { OnOk result ((R.state source.new).failed ≡ (R.state source.old).failed) }
    ensures stopped { IfErr result (λ error.
        IfSome (R.state source.old).remaining (StopsWithin (R.state source.old) (R.state source.new))
        × (((error ≡ Error.Io) × ((R.state source.new).failed ≡ (R.state source.old).failed + 1))
        ⊎ ((error ≡ Error.Memory) × ((R.state source.new).failed ≡ (R.state source.old).failed)))) }
    ensures reads { ReadsEachOnce (R.state source.old) (R.state source.new) }
{
    match read_all(alloc, source) {
        Ok(bytes) => Ok(bytes),
        Err(FillError::Read) => Err(Error::Io),
        Err(FillError::Memory) => Err(Error::Memory),
    }
}

/// The rows of those of the cookies that are loaded, inserted in order. Allocates only if there are
/// cookies.
pub(crate) fn rows_of(
    alloc: StoreAlloc,
    cookies: Vec<Cookie<'_>>,
    which: Which,
) -> Result<Rows, Error>
    ensures built { IfOk result (λ rows. rows ≡ built_from which cookies.entry.items) }
    ensures memory { IfErr result (λ error. (error ≡ Error.Memory) × (cookies.entry.items ≢ [])) }
{
    let mut rows = Rows::new(alloc);
    let alloc = alloc.alloc;
    for cookie in cookies {
        let cookie = cookie.into_owned(alloc)?;
        take(&mut rows, cookie, &which)?;
    }
    Ok(rows)
}
