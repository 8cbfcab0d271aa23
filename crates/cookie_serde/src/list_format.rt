//! Saving and loading rows as one list, in JSON or RON.
ghost use Rattle.std.specs.Prelude.{◌≡◌, ◌≢◌, ◌⊎◌, ◌-◌, ◌^◌, ◌<◌, [], map, Err, IfErr, IfOk, Ok, OnErr, OnOk};
ghost use Rattle.std.specs.Io.KnownBytes.{IsAtEnd};
ghost use Rattle.std.specs.List.{list_any};
ghost use Rattle.std.specs.Result.{result_map_both};
ghost use Rattle.cookie_forms.specs.Saved.{saved_view};
ghost use Rattle.cookie_forms.specs.ToJson.{is_early};
ghost use Rattle.cookie_parts.specs.SavedConversion.{saved_of};
ghost use Rattle.cookie_serde.specs.ListFormats.{ParsesTo, SerializesTo};
ghost use Rattle.cookie_serde.specs.JsonLists.{JsonListParsesTo};
ghost use Rattle.cookie_serde.specs.SavedLists.{BuildsFromList, BuildsFromText, FailsAtText, FailsToLoadList, FailsToSaveList, WritesList};
ghost use Rattle.cookie_serde.specs.Loading.{ReadsEachOnce};
ghost use Rattle.cookie_serde.specs.RonLists.{RonListParsesTo};
ghost use Rattle.cookie_serde.specs.SavedForms.{cookies_of_saved, BuildsFromSaved};
ghost use Rattle.cookie_serde.specs.Selections.{selected};

use crate::json_lines::expires_early;
use crate::which::{Which, take};
use crate::whole_text::{read_bytes, write_text};
use cookie_core::CookieStore;
use cookie_device::{Sink, Source};
use cookie_forms::{Saved, SavedError, format_list, list_from_text};
use cookie_parts::{Cookie, Error};
use cookie_ron::{from_ron, print_list};
use cookie_rows::{Rows, StoreAlloc};
use std::alloc::AllocError;

/// The format of a list of saved cookies.
#[derive(Clone, Copy)]
pub(crate) enum ListFormat {
    /// A JSON array, with a line for each item and member.
    Json,
    /// A list in RON.
    Ron,
}

/// Writes the list of the rows that are saved, and a line feed.
pub(crate) fn save_list<W: Sink>(
    format: ListFormat,
    store: &CookieStore,
    sink: &mut W,
    which: Which,
) -> Result<(), Error>
    requires writable { (W.state sink.old).failed < 2 ^ 64 - 1 }
    ensures whole { OnOk result (WritesList (SerializesTo format) (selected which store.now.rows)
        (W.state sink.old).contents (W.state sink.new).contents) }
    ensures count { OnOk result ((W.state sink.new).failed ≡ (W.state sink.old).failed) }
    ensures stopped { IfErr result (λ error. FailsToSaveList (SerializesTo format) error
        (selected which store.now.rows)
        (W.state sink.old) (W.state sink.new)) }
{
    let text = list_text(format, store, which)?;
    write_text(sink, &text)
}

/// The list of the rows that are saved. `Saved(Moment)` if one expires before the year 0, checked
/// before anything is allocated.
pub(crate) fn list_text(
    format: ListFormat,
    store: &CookieStore,
    which: Which,
) -> Result<String, Error>
    ensures { SerializesTo format (selected which store.now.rows) result }
{
    if any_early(store, which) {
        return Err(Error::Saved(SavedError::Moment));
    }
    let list = saved_list(store, which)?;
    match format {
        ListFormat::Json => Ok(format_list(store.allocator(), &list)?),
        ListFormat::Ron => Ok(print_list(store.allocator(), &list)?),
    }
}

// Whether one of the rows that are saved expires before the year 0.
fn any_early(store: &CookieStore, which: Which) -> bool
    ensures { result ≡ list_any is_early (map saved_of (selected which store.now.rows)) }
{
    for row in store.iter_any() {
        if which.selects(row) && expires_early(row) {
            return true;
        }
    }
    false
}

// The saved forms of the rows that are saved.
fn saved_list(store: &CookieStore, which: Which) -> Result<Vec<Saved>, AllocError>
    ensures saved { IfOk result (λ list. map saved_view list.items
        ≡ map saved_of (selected which store.now.rows)) }
    ensures memory { OnErr result (selected which store.now.rows ≢ []) }
{
    let alloc = store.allocator();
    let mut list = Vec::new(alloc);
    for row in store.iter_any() {
        if which.selects(row) {
            list.push(row.to_saved(alloc)?)?;
        }
    }
    Ok(list)
}

/// The rows of those of the cookies that are loaded, of the list that the source has.
pub(crate) fn load_list_rows<R: Source>(
    format: ListFormat,
    alloc: StoreAlloc,
    source: &mut R,
    which: Which,
) -> Result<Rows, Error>
    requires readable { (R.state source.old).failed < 2 ^ 64 - 1 }
    ensures built { IfOk result (λ rows. BuildsFromList (ParsesTo format) (R.state source.old).remaining which rows) }
    ensures read { OnOk result (IsAtEnd (R.state source.new).remaining × ((R.state source.new).failed ≡ (R.state source.old).failed)) }
    ensures failed { IfErr result (λ error. FailsToLoadList (ParsesTo format) error
        (R.state source.old) (R.state source.new)) }
    ensures reads { ReadsEachOnce (R.state source.old) (R.state source.new) }
{
    let bytes = read_bytes(alloc.alloc, source)?;
    match str::from_utf8(&bytes) {
        Ok(text) => list_rows(format, alloc, text, which),
        Err(_) => Err(Error::NotUtf8),
    }
}

/// The rows of those of the cookies that are loaded, of the list that `text` is.
pub(crate) fn list_rows(
    format: ListFormat,
    alloc: StoreAlloc,
    text: &str,
    which: Which,
) -> Result<Rows, Error>
    ensures built { IfOk result (λ rows. BuildsFromText (ParsesTo format) text.now which rows) }
    ensures failed { IfErr result (λ error. FailsAtText (ParsesTo format) error text.now) }
{
    match format {
        ListFormat::Json => rows_of_json(alloc, text, which),
        ListFormat::Ron => rows_of_ron(alloc, text, which),
    }
}

// The rows of a JSON array: `Saved(Json)`, `Saved(Shape)` or `Saved(Moment)` if `text` is not a list
// of saved cookies, or `Cookie(Parse)` if a `Set-Cookie` value is not a cookie.
fn rows_of_json(alloc: StoreAlloc, text: &str, which: Which) -> Result<Rows, Error>
    ensures built { IfOk result (λ rows. BuildsFromText JsonListParsesTo text.now which rows) }
    ensures failed { IfErr result (λ error. FailsAtText JsonListParsesTo error text.now) }
{
    let list = list_from_text(alloc.alloc, text)?;
    rows_of_list(alloc, list, which)
}

// The rows of a list in RON: `Saved(Ron)` if `text` is not one, `Saved(Moment)` if an expiry is not a
// valid time, `Cookie(Parse)` if a `Set-Cookie` value is not a cookie.
fn rows_of_ron(alloc: StoreAlloc, text: &str, which: Which) -> Result<Rows, Error>
    ensures built { IfOk result (λ rows. BuildsFromText RonListParsesTo text.now which rows) }
    ensures failed { IfErr result (λ error. FailsAtText RonListParsesTo error text.now) }
{
    let list = from_ron(alloc.alloc, text)?;
    rows_of_list(alloc, list, which)
}

// The rows of saved forms, or `Cookie(Parse)` if a `Set-Cookie` value is not a cookie.
fn rows_of_list(alloc: StoreAlloc, list: Vec<Saved>, which: Which) -> Result<Rows, Error>
    ensures built { IfOk result (BuildsFromSaved (map saved_view list.items) which) }
    ensures errors { IfErr result (λ error. (error ≡ Error.Memory)
        ⊎ (result_map_both (λ cookies. cookies) Error.Cookie (cookies_of_saved (map saved_view list.items)) ≡ Err error)) }
    ensures memory { OnErr result (list.items ≢ []) }
{
    let mut rows = Rows::new(alloc);
    for saved in list {
        take(&mut rows, Cookie::from_saved(alloc.alloc, saved)?, &which)?;
    }
    Ok(rows)
}
