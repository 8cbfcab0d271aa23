//! Saving and loading a store in a format.
ghost use Rattle.std.specs.Prelude.{◌≡◌, ◌-◌, ◌^◌, ◌<◌, None, IfErr, IfOk, OnOk};
ghost use Rattle.std.specs.Io.KnownBytes.{IsAtEnd};
ghost use Rattle.cookie_laws.specs.Contents.{rows_in_order};
ghost use Rattle.cookie_serde.specs.Formats.{BuildsAs, FailsToLoadAs, FailsToParseAs, FailsToSaveAs, LoadsAs, SerializesAs, WritesAs};
ghost use Rattle.cookie_serde.specs.Loading.{ReadsEachOnce};
ghost use Rattle.cookie_serde.specs.Selections.{selected};

use crate::list_format::{ListFormat, list_rows, list_text, load_list_rows, save_list};
use crate::which::Which;
use crate::{FormatError, netscape};
use cookie_core::CookieStore;
use cookie_device::{Sink, Source};
use cookie_rows::{Rows, StoreAlloc};

/// The format of a saved store.
#[derive(Clone, Copy, Debug, PartialEq, Eq)]
pub enum Format {
    /// A JSON array, as in the module [`json`](crate::json).
    Json,
    /// A list in RON, as in the module [`ron`](crate::ron).
    Ron,
    /// A `cookies.txt` file, as in the module [`netscape`](crate::netscape).
    Netscape,
}

/// Writes cookies in the format, in the store's order, and a line feed.
///
/// # Errors
///
/// In the order in which they are checked:
/// - `Store(Saved(Moment))`: a cookie expires before the year 0, which JSON and RON cannot represent.
///   Nothing is written.
/// - `Unrepresentable`: a `cookies.txt` file cannot represent a cookie:
///   [`is_representable`](cookie_netscape::is_representable) returns false for it. Nothing is
///   written.
/// - `Store(Memory)`: out of memory. Nothing is written.
/// - `Store(Io)`: the writer failed. A beginning of the list or file may be written.
pub fn save_as<W: Sink>(
    store: &CookieStore,
    writer: &mut W,
    format: Format,
    which: Which,
) -> Result<(), FormatError>
    requires writable { (W.state writer.old).failed < 2 ^ 64 - 1 }
    ensures whole { OnOk result (WritesAs format (selected which store.now.rows) (W.state writer.old).contents (W.state writer.new).contents) }
    ensures count { OnOk result ((W.state writer.new).failed ≡ (W.state writer.old).failed) }
    ensures stopped { IfErr result (λ error. FailsToSaveAs format error (selected which store.now.rows) (W.state writer.old) (W.state writer.new)) }
{
    match format {
        Format::Json => Ok(save_list(ListFormat::Json, store, writer, which)?),
        Format::Ron => Ok(save_list(ListFormat::Ron, store, writer, which)?),
        Format::Netscape => Ok(netscape::save_among(store, writer, which)?),
    }
}

/// Loads a store from cookies in the format.
///
/// They are all that the reader has, in the form that [`save_as`] writes. A cookie replaces an
/// earlier one with the same domain, path and name. The store has no public suffix list and no limit.
///
/// # Errors
///
/// In the order in which they are checked:
/// - `Store(Io)`: the reader failed.
/// - `Store(NotUtf8)`: the bytes are not UTF-8.
/// - `Store(Saved(Json))`, `Store(Saved(Shape))`, `Store(Saved(Ron))`, `Store(Saved(Moment))` or
///   `Store(Cookie(Parse))`: they are not a list of cookies in JSON or RON, as
///   [`json::load`](crate::json::load) and [`ron::load`](crate::ron::load) say.
/// - `BadLine`: a line of a `cookies.txt` file is malformed; the error has its number.
///
/// `Store(Memory)`: out of memory.
pub fn load_as<A: Into<StoreAlloc>, R: Source>(
    alloc: A,
    reader: &mut R,
    format: Format,
    which: Which,
) -> Result<CookieStore, FormatError>
    requires readable { (R.state reader.old).failed < 2 ^ 64 - 1 }
    ensures built { IfOk result (λ store. LoadsAs format (R.state reader.old).remaining which (rows_in_order store)) }
    ensures suffixes { IfOk result (λ store. store.suffixes ≡ None) }
    ensures limit { IfOk result (λ store. store.limit ≡ None) }
    ensures read { OnOk result (IsAtEnd (R.state reader.new).remaining × ((R.state reader.new).failed ≡ (R.state reader.old).failed)) }
    ensures failed { IfErr result (λ error. FailsToLoadAs format error (R.state reader.old) (R.state reader.new)) }
    ensures reads { ReadsEachOnce (R.state reader.old) (R.state reader.new) }
{
    let alloc = alloc.into();
    let rows = rows_in(alloc, reader, format, which)?;
    Ok(CookieStore::from_rows(alloc.alloc, rows))
}

// The rows of those of the cookies that are loaded, which the source has.
fn rows_in<R: Source>(
    alloc: StoreAlloc,
    source: &mut R,
    format: Format,
    which: Which,
) -> Result<Rows, FormatError>
    requires readable { (R.state source.old).failed < 2 ^ 64 - 1 }
    ensures built { IfOk result (λ rows. LoadsAs format (R.state source.old).remaining which rows) }
    ensures read { OnOk result (IsAtEnd (R.state source.new).remaining × ((R.state source.new).failed ≡ (R.state source.old).failed)) }
    ensures failed { IfErr result (λ error. FailsToLoadAs format error (R.state source.old) (R.state source.new)) }
    ensures reads { ReadsEachOnce (R.state source.old) (R.state source.new) }
{
    match format {
        Format::Json => Ok(load_list_rows(ListFormat::Json, alloc, source, which)?),
        Format::Ron => Ok(load_list_rows(ListFormat::Ron, alloc, source, which)?),
        Format::Netscape => Ok(netscape::load_rows(alloc, source, which)?),
    }
}

/// Formats cookies, in the store's order: what [`save_as`] writes, without the line feed at the end.
///
/// # Errors
///
/// In the order in which they are checked:
/// - `Store(Saved(Moment))`: a cookie expires before the year 0, which JSON and RON cannot represent.
/// - `Unrepresentable`: a `cookies.txt` file cannot represent a cookie.
/// - `Store(Memory)`: out of memory.
pub fn to_text_as(store: &CookieStore, format: Format, which: Which) -> Result<String, FormatError>
    ensures { SerializesAs format (selected which store.now.rows) result }
{
    match format {
        Format::Json => Ok(list_text(ListFormat::Json, store, which)?),
        Format::Ron => Ok(list_text(ListFormat::Ron, store, which)?),
        Format::Netscape => Ok(netscape::text_among(store, which)?),
    }
}

/// Parses cookies in the format into a store, as [`load_as`] does.
///
/// # Errors
///
/// Those of [`load_as`] but for `Store(Io)` and `Store(NotUtf8)`.
pub fn from_text_as<A: Into<StoreAlloc>>(
    alloc: A,
    text: &str,
    format: Format,
    which: Which,
) -> Result<CookieStore, FormatError>
    ensures built { IfOk result (λ store. BuildsAs format text.now which (rows_in_order store)) }
    ensures suffixes { IfOk result (λ store. store.suffixes ≡ None) }
    ensures limit { IfOk result (λ store. store.limit ≡ None) }
    ensures failed { IfErr result (λ error. FailsToParseAs format error text.now) }
{
    let alloc = alloc.into();
    let rows = rows_of_text(alloc, text, format, which)?;
    Ok(CookieStore::from_rows(alloc.alloc, rows))
}

// The rows of those of the cookies that are loaded, which `text` has.
fn rows_of_text(
    alloc: StoreAlloc,
    text: &str,
    format: Format,
    which: Which,
) -> Result<Rows, FormatError>
    ensures built { IfOk result (λ rows. BuildsAs format text.now which rows) }
    ensures failed { IfErr result (λ error. FailsToParseAs format error text.now) }
{
    match format {
        Format::Json => Ok(list_rows(ListFormat::Json, alloc, text, which)?),
        Format::Ron => Ok(list_rows(ListFormat::Ron, alloc, text, which)?),
        Format::Netscape => Ok(netscape::rows_of_text(alloc, text, which)?),
    }
}
