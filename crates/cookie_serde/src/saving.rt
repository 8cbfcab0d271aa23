//! Saving rows as lines.
ghost use Rattle.std.specs.Prelude.{◌≡◌, ◌-◌, ◌+◌, ◌^◌, ◌<◌, ◌⊎◌, Err, IfErr, OnOk};
ghost use Rattle.std.specs.Fn.{FnReturnsAt};
ghost use Rattle.std.specs.Io.KnownBytes.{Keeps};
ghost use Rattle.cookie_serde.specs.Saving.{BeginsRow, FailsToSave, WritesRow, WritesRows};
ghost use Rattle.cookie_serde.specs.Selections.{selected};

use crate::which::Which;
use cookie_core::CookieStore;
use cookie_device::{Sink, write_line};
use cookie_parts::{Cookie, Error};

/// Writes the string that `text_of` returns for each row that is saved, and a line feed.
pub(crate) fn save_rows<W: Sink, F: Fn(&Cookie<'_>) -> Result<String, Error>>(
    store: &CookieStore,
    sink: &mut W,
    text_of: F,
    which: Which,
) -> Result<(), Error>
    requires callable { F.IsAlwaysCallable text_of }
    requires writable { (W.state sink.old).failed < 2 ^ 64 - 1 }
    ensures whole { OnOk result (WritesRows (FnReturnsAt F.Fn text_of) (selected which store.now.rows)
        (W.state sink.old).contents (W.state sink.new).contents) }
    ensures count { OnOk result ((W.state sink.new).failed ≡ (W.state sink.old).failed) }
    ensures stopped { IfErr result (λ error. FailsToSave (FnReturnsAt F.Fn text_of) error
        (selected which store.now.rows)
        (W.state sink.old) (W.state sink.new)) }
{
    for row in store.iter_any() {
        if which.selects(row) {
            save_row(row, sink, &text_of)?;
        }
    }
    Ok(())
}

// Writes the string that `text_of` returns for the row, and a line feed.
fn save_row<W: Sink, F: Fn(&Cookie<'_>) -> Result<String, Error>>(
    row: &Cookie<'static>,
    sink: &mut W,
    text_of: &F,
) -> Result<(), Error>
    requires callable { F.IsAlwaysCallable text_of.now }
    requires writable { (W.state sink.old).failed < 2 ^ 64 - 1 }
    ensures whole { OnOk result (WritesRow (FnReturnsAt F.Fn text_of.now) row.now (W.state sink.old).contents (W.state sink.new).contents) }
    ensures count { OnOk result ((W.state sink.new).failed ≡ (W.state sink.old).failed) }
    ensures stopped { IfErr result (λ error.
        (FnReturnsAt F.Fn text_of.now row.now (Err error) × Keeps (W.state sink.old).contents (W.state sink.new).contents
        × ((W.state sink.new).failed ≡ (W.state sink.old).failed))
        ⊎ (BeginsRow (FnReturnsAt F.Fn text_of.now) row.now (W.state sink.old).contents (W.state sink.new).contents
        × (error ≡ Error.Io) × ((W.state sink.new).failed ≡ (W.state sink.old).failed + 1))) }
{
    let text = text_of(row)?;
    match write_line(sink, text.as_bytes()) {
        Ok(()) => Ok(()),
        Err(_) => Err(Error::Io),
    }
}
