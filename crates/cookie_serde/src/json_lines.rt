//! Saving and loading rows as lines of JSON.
ghost use Rattle.std.specs.Prelude.{◌≡◌, ◌-◌, ◌^◌, ◌<◌, IfErr, IfOk, OnOk};
ghost use Rattle.std.specs.Io.KnownBytes.{IsAtEnd};
ghost use Rattle.cookie_forms.specs.ToJson.{is_early};
ghost use Rattle.cookie_parts.specs.SavedConversion.{saved_of};
ghost use Rattle.cookie_serde.specs.JsonLines.{JsonParsesTo, SerializesToJson};
ghost use Rattle.cookie_serde.specs.LoadError.{StopsLoading};
ghost use Rattle.cookie_serde.specs.Loading.{BuildsFrom, FailsToLoad, ReadsEachOnce};
ghost use Rattle.cookie_serde.specs.Saving.{FailsToSave, WritesRows};
ghost use Rattle.cookie_serde.specs.Selections.{selected};

use crate::loading::{LoadError, numbered_rows};
use crate::saving::save_rows;
use crate::which::Which;
use cookie_core::CookieStore;
use cookie_device::{Sink, Source};
use cookie_forms::{SavedError, format_saved, from_text};
use cookie_parts::{Cookie, CookieExpiration, Error};
use cookie_rows::{Rows, StoreAlloc};
use std::alloc::Global;

/// Writes the saved form of each row that is saved as a line of JSON.
pub(crate) fn save_json_rows<W: Sink>(
    store: &CookieStore,
    sink: &mut W,
    which: Which,
) -> Result<(), Error>
    requires writable { (W.state sink.old).failed < 2 ^ 64 - 1 }
    ensures whole { OnOk result (WritesRows SerializesToJson (selected which store.now.rows)
        (W.state sink.old).contents (W.state sink.new).contents) }
    ensures count { OnOk result ((W.state sink.new).failed ≡ (W.state sink.old).failed) }
    ensures stopped { IfErr result (λ error. FailsToSave SerializesToJson error
        (selected which store.now.rows)
        (W.state sink.old) (W.state sink.new)) }
{
    let alloc = store.allocator();
    let text_of = |cookie: &Cookie<'_>| -> Result<String, Error>
        ensures { SerializesToJson cookie.now result }
    { json_line(alloc, cookie) };
    save_rows(store, sink, text_of, which)
}

// The saved form of the cookie as JSON without spaces. `Saved(Moment)` if it expires before the
// year 0, checked before anything is allocated.
fn json_line(alloc: Global, cookie: &Cookie<'_>) -> Result<String, Error>
    ensures { SerializesToJson cookie.now result }
{
    if expires_early(cookie) {
        return Err(Error::Saved(SavedError::Moment));
    }
    Ok(format_saved(alloc, &cookie.to_saved(alloc)?)?)
}

/// Whether the cookie expires before the year 0.
pub(crate) fn expires_early(cookie: &Cookie<'_>) -> bool
    ensures { result ≡ is_early (saved_of cookie.now) }
{
    match cookie.expires {
        CookieExpiration::AtUtc(end) => end.year() < 0,
        CookieExpiration::SessionEnd => false,
    }
}

/// The rows of those of the cookies that are loaded, of which each line of the source is the saved
/// form as JSON.
pub(crate) fn load_json_rows<R: Source>(
    alloc: StoreAlloc,
    source: &mut R,
    which: Which,
) -> Result<Rows, Error>
    requires readable { (R.state source.old).failed < 2 ^ 64 - 1 }
    ensures built { IfOk result (λ rows. BuildsFrom JsonParsesTo (R.state source.old).remaining which rows) }
    ensures read { OnOk result (IsAtEnd (R.state source.new).remaining × ((R.state source.new).failed ≡ (R.state source.old).failed)) }
    ensures failed { IfErr result (λ error. FailsToLoad JsonParsesTo error
        (R.state source.old) (R.state source.new)) }
    ensures reads { ReadsEachOnce (R.state source.old) (R.state source.new) }
{
    Ok(numbered_json_rows(alloc, source, which)?)
}

/// As [`load_json_rows`], with the number of the line in the error.
pub(crate) fn numbered_json_rows<R: Source>(
    alloc: StoreAlloc,
    source: &mut R,
    which: Which,
) -> Result<Rows, LoadError>
    requires readable { (R.state source.old).failed < 2 ^ 64 - 1 }
    ensures built { IfOk result (λ rows. BuildsFrom JsonParsesTo (R.state source.old).remaining which rows) }
    ensures read { OnOk result (IsAtEnd (R.state source.new).remaining × ((R.state source.new).failed ≡ (R.state source.old).failed)) }
    ensures failed { IfErr result (λ fault. StopsLoading JsonParsesTo fault
        (R.state source.old) (R.state source.new)) }
    ensures reads { ReadsEachOnce (R.state source.old) (R.state source.new) }
{
    numbered_rows(
        alloc,
        source,
        |line: &str| -> Result<Cookie<'_>, Error>
            ensures { JsonParsesTo line.now result }
        { cookie_of_json_line(alloc.alloc, line) },
        which,
    )
}

// The cookie of a line: `Saved(Json)`, `Saved(Shape)` or `Saved(Moment)` if it is not a saved cookie
// in JSON, or `Cookie(Parse)` if its `Set-Cookie` value is not a cookie.
fn cookie_of_json_line(alloc: Global, line: &str) -> Result<Cookie<'static>, Error>
    ensures { JsonParsesTo line.now result }
{
    let saved = from_text(alloc, line)?;
    Cookie::from_saved(alloc, saved)
}
