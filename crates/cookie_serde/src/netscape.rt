//! Saving and loading a store as a `cookies.txt` file, Netscape's format as curl reads and writes
//! it.
//!
//! A line has no SameSite and no other attribute, no fraction of a second in the expiry, and not
//! whether a Path attribute set the path: a loaded cookie has a path as if one had. Its domain is in
//! lower case. [`netscape::laws`](cookie_netscape::laws) states what reads back.
ghost use Rattle.std.specs.Prelude.{◌≡◌, ◌+◌, ◌-◌, ◌^◌, ◌<◌, None, filter, IfErr, IfOk, OnErr, OnOk, string_bytes};
ghost use Rattle.std.specs.Io.KnownBytes.{Appends, IsAtEnd};
ghost use Rattle.std.specs.List.{list_all};
ghost use Rattle.cookie_words.specs.Moments.{moment_of};
ghost use Rattle.cookie_device.specs.Device.{AppendsPrefix};
ghost use Rattle.cookie_netscape.specs.Files.{FailsToRead};
ghost use Rattle.cookie_netscape.specs.Written.{is_representable, written_text};
ghost use Rattle.cookie_laws.specs.Contents.{rows_in_order};
ghost use Rattle.cookie_serde.specs.Loading.{ReadsEachOnce};
ghost use Rattle.cookie_serde.specs.NetscapeLists.{BuildsFromNetscape, BuildsWellFormed, FailsToLoadNetscape, FailsToLoadWellFormed, FailsToReadFile, FailsToSaveNetscape, HasCookieOrMalformed, IsFile, LoadsNetscape, LoadsWellFormed, SerializesToNetscape, WritesNetscape, unrepresentable_count};
ghost use Rattle.cookie_serde.specs.Saving.{line_text, saved_rows};
ghost use Rattle.cookie_serde.specs.Selections.{selected};

use crate::which::{Which, take};
use crate::whole_text::{read_bytes, write_text};
use cookie_core::CookieStore;
use cookie_device::{Sink, Source};
use cookie_netscape::laws::reads_line_by_line;
use cookie_netscape::{NetscapeError, is_representable, new_text, push_cookie, read_cookie};
use cookie_parts::Error;
use cookie_rows::{Rows, StoreAlloc};
use jiff::civil::DateTime;
use std::alloc::{AllocError, Global};

/// The cookies of the well-formed lines of a `cookies.txt` file, and the numbers of the others.
#[derive(Drop)]
pub struct WellFormed {
    /// The cookies of the well-formed lines.
    pub store: CookieStore,
    /// The numbers of the malformed lines, counted from 1, in order.
    pub malformed: Vec<usize>,
}

/// The cookies that the format can represent as a `cookies.txt` file, and the number of the others.
#[derive(Debug, Drop)]
pub struct Representable {
    /// The file, without the line feed at its end.
    pub text: String,
    /// The number of cookies that are left out.
    pub left_out: usize,
}

/// Writes the unexpired persistent cookies as a `cookies.txt` file, in the store's order.
///
/// The first line is `# Netscape HTTP Cookie File`, and each cookie has a line.
///
/// # Errors
///
/// In the order in which they are checked:
/// - `Unrepresentable`: [`is_representable`] returns false for a cookie to be saved. Nothing is
///   written.
/// - `Memory`: out of memory. Nothing is written.
/// - `Io`: the writer failed. A beginning of the file may be written.
pub fn save<W: Sink>(
    store: &CookieStore,
    writer: &mut W,
    now: DateTime,
) -> Result<(), NetscapeError>
    requires writable { (W.state writer.old).failed < 2 ^ 64 - 1 }
    ensures whole { OnOk result (WritesNetscape (saved_rows (moment_of now) store.now.rows)
        (W.state writer.old).contents (W.state writer.new).contents) }
    ensures count { OnOk result ((W.state writer.new).failed ≡ (W.state writer.old).failed) }
    ensures stopped { IfErr result (λ error. FailsToSaveNetscape error (saved_rows (moment_of now) store.now.rows)
        (W.state writer.old) (W.state writer.new)) }
{
    save_among(store, writer, Which::Persistent(now))
}

/// Writes all cookies as a `cookies.txt` file, expired cookies and session cookies included.
///
/// The order, the first line and the errors are those of [`save`].
pub fn save_incl_expired_and_nonpersistent<W: Sink>(
    store: &CookieStore,
    writer: &mut W,
) -> Result<(), NetscapeError>
    requires writable { (W.state writer.old).failed < 2 ^ 64 - 1 }
    ensures whole { OnOk result (WritesNetscape store.now.rows (W.state writer.old).contents (W.state writer.new).contents) }
    ensures count { OnOk result ((W.state writer.new).failed ≡ (W.state writer.old).failed) }
    ensures stopped { IfErr result (λ error. FailsToSaveNetscape error store.now.rows (W.state writer.old) (W.state writer.new)) }
{
    save_among(store, writer, Which::All)
}

/// Writes those of the cookies that the format can represent as a `cookies.txt` file, in the store's
/// order, and returns the number of the others.
///
/// The first line is that of [`save`].
///
/// # Errors
///
/// In the order in which they are checked:
/// - `Memory`: out of memory. Nothing is written.
/// - `Io`: the writer failed. A beginning of the file may be written.
pub fn save_representable<W: Sink>(
    store: &CookieStore,
    writer: &mut W,
    which: Which,
) -> Result<usize, NetscapeError>
    requires writable { (W.state writer.old).failed < 2 ^ 64 - 1 }
    ensures whole { OnOk result (WritesNetscape (filter is_representable (selected which store.now.rows))
        (W.state writer.old).contents (W.state writer.new).contents) }
    ensures left_out { IfOk result (λ left_out. left_out ≡ unrepresentable_count (selected which store.now.rows)) }
    ensures count { OnOk result ((W.state writer.new).failed ≡ (W.state writer.old).failed) }
    ensures stopped { IfErr result (λ error. FailsToSaveNetscape error (filter is_representable (selected which store.now.rows))
        (W.state writer.old) (W.state writer.new)) }
{
    let file = to_text_representable(store, which)?;
    write_file(writer, &file.text)?;
    Ok(file.left_out)
}

/// Loads a store from a `cookies.txt` file, skipping expired cookies.
///
/// The file is all that the reader has; [`netscape::from_text`](cookie_netscape::from_text) says
/// which lines are read. A cookie replaces an earlier one with the same domain, path and name. The
/// store has no public suffix list and no limit.
///
/// # Errors
///
/// In the order in which they are checked:
/// - `Io`: the reader failed.
/// - `NotUtf8`: the bytes are not UTF-8.
/// - `BadLine`: a line is malformed; the error has its number.
///
/// `Memory`: out of memory, for the bytes or for a cookie of the lines before any malformed one.
pub fn load<A: Into<StoreAlloc>, R: Source>(
    alloc: A,
    reader: &mut R,
    now: DateTime,
) -> Result<CookieStore, NetscapeError>
    requires readable { (R.state reader.old).failed < 2 ^ 64 - 1 }
    ensures built { IfOk result (λ store. LoadsNetscape (R.state reader.old).remaining (Which.Unexpired now) (rows_in_order store)) }
    ensures suffixes { IfOk result (λ store. store.suffixes ≡ None) }
    ensures limit { IfOk result (λ store. store.limit ≡ None) }
    ensures read { OnOk result (IsAtEnd (R.state reader.new).remaining × ((R.state reader.new).failed ≡ (R.state reader.old).failed)) }
    ensures failed { IfErr result (λ error. FailsToLoadNetscape error (R.state reader.old) (R.state reader.new)) }
    ensures reads { ReadsEachOnce (R.state reader.old) (R.state reader.new) }
{
    let alloc = alloc.into();
    let rows = load_rows(alloc, reader, Which::Unexpired(now))?;
    Ok(CookieStore::from_rows(alloc.alloc, rows))
}

/// Loads a store from a `cookies.txt` file, expired cookies included; `now` is not used.
///
/// Otherwise as [`load`].
pub fn load_all<A: Into<StoreAlloc>, R: Source>(
    alloc: A,
    reader: &mut R,
    now: DateTime,
) -> Result<CookieStore, NetscapeError>
    requires readable { (R.state reader.old).failed < 2 ^ 64 - 1 }
    ensures built { IfOk result (λ store. LoadsNetscape (R.state reader.old).remaining Which.All (rows_in_order store)) }
    ensures suffixes { IfOk result (λ store. store.suffixes ≡ None) }
    ensures limit { IfOk result (λ store. store.limit ≡ None) }
    ensures read { OnOk result (IsAtEnd (R.state reader.new).remaining × ((R.state reader.new).failed ≡ (R.state reader.old).failed)) }
    ensures failed { IfErr result (λ error. FailsToLoadNetscape error (R.state reader.old) (R.state reader.new)) }
    ensures reads { ReadsEachOnce (R.state reader.old) (R.state reader.new) }
{
    let alloc = alloc.into();
    let rows = load_rows(alloc, reader, Which::All)?;
    Ok(CookieStore::from_rows(alloc.alloc, rows))
}

/// Loads a store from the well-formed lines of a `cookies.txt` file, and returns the numbers of the
/// malformed ones.
///
/// The lines and the store are otherwise those of [`load`].
///
/// # Errors
///
/// In the order in which they are checked:
/// - `Io`: the reader failed.
/// - `NotUtf8`: the bytes are not UTF-8.
///
/// `Memory`: out of memory, for the bytes, for a cookie or for the number of a malformed line.
pub fn load_well_formed<A: Into<StoreAlloc>, R: Source>(
    alloc: A,
    reader: &mut R,
    which: Which,
) -> Result<WellFormed, NetscapeError>
    requires readable { (R.state reader.old).failed < 2 ^ 64 - 1 }
    ensures built { IfOk result (λ loaded. LoadsWellFormed (R.state reader.old).remaining which
        (rows_in_order loaded.store) loaded.malformed.items) }
    ensures suffixes { IfOk result (λ loaded. loaded.store.suffixes ≡ None) }
    ensures limit { IfOk result (λ loaded. loaded.store.limit ≡ None) }
    ensures read { OnOk result (IsAtEnd (R.state reader.new).remaining × ((R.state reader.new).failed ≡ (R.state reader.old).failed)) }
    ensures failed { IfErr result (λ error. FailsToLoadWellFormed error (R.state reader.old) (R.state reader.new)) }
    ensures reads { ReadsEachOnce (R.state reader.old) (R.state reader.new) }
{
    let alloc = alloc.into();
    let text = read_file(alloc.alloc, reader)?;
    Ok(well_formed(alloc, &text, which)?)
}

/// Formats the unexpired persistent cookies as a `cookies.txt` file, in the store's order.
///
/// It is the file that [`save`] writes, without the line feed at its end.
///
/// # Errors
///
/// In the order in which they are checked:
/// - `Unrepresentable`: [`is_representable`] returns false for a cookie to be saved.
/// - `Memory`: out of memory.
pub fn to_text(store: &CookieStore, now: DateTime) -> Result<String, NetscapeError>
    ensures { SerializesToNetscape (saved_rows (moment_of now) store.now.rows) result }
{
    text_among(store, Which::Persistent(now))
}

/// Formats all cookies as a `cookies.txt` file, expired cookies and session cookies included.
///
/// Otherwise as [`to_text`].
pub fn to_text_incl_expired_and_nonpersistent(store: &CookieStore) -> Result<String, NetscapeError>
    ensures { SerializesToNetscape store.now.rows result }
{
    text_among(store, Which::All)
}

/// Formats those of the cookies that the format can represent as a `cookies.txt` file, in the store's
/// order, and counts the others.
///
/// It is the file that [`save_representable`] writes, without the line feed at its end.
///
/// # Errors
///
/// `AllocError`: out of memory.
pub fn to_text_representable(store: &CookieStore, which: Which) -> Result<Representable, AllocError>
    ensures text { IfOk result (λ file. string_bytes file.text
        ≡ written_text (filter is_representable (selected which store.now.rows))) }
    ensures left_out { IfOk result (λ file. file.left_out ≡ unrepresentable_count (selected which store.now.rows)) }
{
    let mut text = new_text(store.allocator())?;
    let mut left_out: usize = 0;
    for row in store.iter_any() {
        if !which.selects(row) {
            continue;
        }
        if is_representable(row) {
            push_cookie(&mut text, row)?;
        } else {
            // for the checker: no store has as many rows as do not fit
            left_out = left_out.checked_add(1).ok_or(AllocError)?;
        }
    }
    Ok(Representable { text, left_out })
}

/// Parses a `cookies.txt` file into a store, skipping expired cookies.
///
/// The file is as [`load`] reads it, and the store as `load` returns it.
///
/// # Errors
///
/// Lines are read in order, and the first error is returned:
/// - `BadLine`: a line is malformed; the error has its number.
/// - `Memory`: out of memory for a cookie.
pub fn from_text<A: Into<StoreAlloc>>(
    alloc: A,
    text: &str,
    now: DateTime,
) -> Result<CookieStore, NetscapeError>
    ensures built { IfOk result (λ store. BuildsFromNetscape text.now (Which.Unexpired now) (rows_in_order store)) }
    ensures suffixes { IfOk result (λ store. store.suffixes ≡ None) }
    ensures limit { IfOk result (λ store. store.limit ≡ None) }
    ensures failed { IfErr result (λ error. FailsToRead error text.now) }
{
    let alloc = alloc.into();
    let rows = rows_of_text(alloc, text, Which::Unexpired(now))?;
    Ok(CookieStore::from_rows(alloc.alloc, rows))
}

/// Parses a `cookies.txt` file into a store, expired cookies included; `now` is not used.
///
/// Otherwise as [`from_text`].
pub fn from_text_all<A: Into<StoreAlloc>>(
    alloc: A,
    text: &str,
    now: DateTime,
) -> Result<CookieStore, NetscapeError>
    ensures built { IfOk result (λ store. BuildsFromNetscape text.now Which.All (rows_in_order store)) }
    ensures suffixes { IfOk result (λ store. store.suffixes ≡ None) }
    ensures limit { IfOk result (λ store. store.limit ≡ None) }
    ensures failed { IfErr result (λ error. FailsToRead error text.now) }
{
    let alloc = alloc.into();
    let rows = rows_of_text(alloc, text, Which::All)?;
    Ok(CookieStore::from_rows(alloc.alloc, rows))
}

/// Parses the well-formed lines of a `cookies.txt` file into a store, and returns the numbers of the
/// malformed ones.
///
/// The file is as [`load_well_formed`] reads it, and the store as `load_well_formed` returns it.
///
/// # Errors
///
/// `AllocError`: out of memory, for a cookie or for the number of a malformed line. A file that has
/// neither never fails.
pub fn from_text_well_formed<A: Into<StoreAlloc>>(
    alloc: A,
    text: &str,
    which: Which,
) -> Result<WellFormed, AllocError>
    ensures built { IfOk result (λ loaded. BuildsWellFormed text.now which
        (rows_in_order loaded.store) loaded.malformed.items) }
    ensures suffixes { IfOk result (λ loaded. loaded.store.suffixes ≡ None) }
    ensures limit { IfOk result (λ loaded. loaded.store.limit ≡ None) }
    ensures memory { OnErr result (HasCookieOrMalformed text.now) }
{
    well_formed(alloc.into(), text, which)
}

/// Writes the rows that are saved.
pub(crate) fn save_among<W: Sink>(
    store: &CookieStore,
    sink: &mut W,
    which: Which,
) -> Result<(), NetscapeError>
    requires writable { (W.state sink.old).failed < 2 ^ 64 - 1 }
    ensures whole { OnOk result (WritesNetscape (selected which store.now.rows)
        (W.state sink.old).contents (W.state sink.new).contents) }
    ensures count { OnOk result ((W.state sink.new).failed ≡ (W.state sink.old).failed) }
    ensures stopped { IfErr result (λ error. FailsToSaveNetscape error
        (selected which store.now.rows) (W.state sink.old) (W.state sink.new)) }
{
    let text = text_among(store, which)?;
    write_file(sink, &text)
}

// Writes the file and a line feed.
fn write_file<W: Sink>(sink: &mut W, text: &String) -> Result<(), NetscapeError>
    requires writable { (W.state sink.old).failed < 2 ^ 64 - 1 }
    ensures whole { OnOk result (Appends (W.state sink.old).contents (W.state sink.new).contents (line_text text.now)) }
    ensures count { OnOk result ((W.state sink.new).failed ≡ (W.state sink.old).failed) }
    ensures stopped { IfErr result (λ error. AppendsPrefix (W.state sink.old).contents (W.state sink.new).contents (line_text text.now)
        × (error ≡ NetscapeError.Io) × ((W.state sink.new).failed ≡ (W.state sink.old).failed + 1)) }
{
    match write_text(sink, text) {
        Ok(()) => Ok(()),
        Err(_) => Err(NetscapeError::Io),
    }
}

/// The file of the rows that are saved, without the line feed at its end.
pub(crate) fn text_among(store: &CookieStore, which: Which) -> Result<String, NetscapeError>
    ensures { SerializesToNetscape (selected which store.now.rows) result }
{
    if !are_representable(store, which) {
        return Err(NetscapeError::Unrepresentable);
    }
    Ok(to_text_representable(store, which)?.text)
}

// Whether the format can represent all rows that are saved.
fn are_representable(store: &CookieStore, which: Which) -> bool
    ensures { result ≡ list_all is_representable (selected which store.now.rows) }
{
    for row in store.iter_any() {
        if which.selects(row) && !is_representable(row) {
            return false;
        }
    }
    true
}

/// The rows of those of the cookies that are loaded, of the file that the source has.
pub(crate) fn load_rows<R: Source>(
    alloc: StoreAlloc,
    source: &mut R,
    which: Which,
) -> Result<Rows, NetscapeError>
    requires readable { (R.state source.old).failed < 2 ^ 64 - 1 }
    ensures built { IfOk result (λ rows. LoadsNetscape (R.state source.old).remaining which rows) }
    ensures read { OnOk result (IsAtEnd (R.state source.new).remaining × ((R.state source.new).failed ≡ (R.state source.old).failed)) }
    ensures failed { IfErr result (λ error. FailsToLoadNetscape error (R.state source.old) (R.state source.new)) }
    ensures reads { ReadsEachOnce (R.state source.old) (R.state source.new) }
{
    let text = read_file(alloc.alloc, source)?;
    rows_of_text(alloc, &text, which)
}

// The file that the source has.
fn read_file<R: Source>(alloc: Global, source: &mut R) -> Result<String, NetscapeError>
    requires readable { (R.state source.old).failed < 2 ^ 64 - 1 }
    ensures file { IfOk result (λ text. IsFile (R.state source.old).remaining (string_bytes text)) }
    ensures read { OnOk result (IsAtEnd (R.state source.new).remaining × ((R.state source.new).failed ≡ (R.state source.old).failed)) }
    ensures failed { IfErr result (λ error. FailsToReadFile error (R.state source.old) (R.state source.new)) }
    ensures reads { ReadsEachOnce (R.state source.old) (R.state source.new) }
{
    let bytes = match read_bytes(alloc, source) {
        Ok(bytes) => bytes,
        Err(Error::Io) => return Err(NetscapeError::Io),
        Err(_) => return Err(NetscapeError::Memory),
    };
    match String::from_utf8(bytes) {
        Ok(text) => Ok(text),
        Err(_) => Err(NetscapeError::NotUtf8),
    }
}

/// The rows of those of the cookies that are loaded, of the file that `text` is.
pub(crate) fn rows_of_text(
    alloc: StoreAlloc,
    text: &str,
    which: Which,
) -> Result<Rows, NetscapeError>
    ensures built { IfOk result (λ rows. BuildsFromNetscape text.now which rows) }
    ensures failed { IfErr result (λ error. FailsToRead error text.now) }
{
    // for the checker: the file may be read line by line
    reads_line_by_line();
    let mut rows = Rows::new(alloc);
    for (index, line) in text.lines().enumerate() {
        if let Some(cookie) = read_cookie(alloc.alloc, line, index + 1)? {
            take(&mut rows, cookie, &which)?;
        }
    }
    Ok(rows)
}

// The store of those of the cookies that are loaded, of the well-formed lines of the file that
// `text` is, and the numbers of the malformed ones.
fn well_formed(alloc: StoreAlloc, text: &str, which: Which) -> Result<WellFormed, AllocError>
    ensures built { IfOk result (λ loaded. BuildsWellFormed text.now which
        (rows_in_order loaded.store) loaded.malformed.items) }
    ensures suffixes { IfOk result (λ loaded. loaded.store.suffixes ≡ None) }
    ensures limit { IfOk result (λ loaded. loaded.store.limit ≡ None) }
    ensures memory { OnErr result (HasCookieOrMalformed text.now) }
{
    let mut rows = Rows::new(alloc);
    let mut malformed = Vec::new(alloc.alloc);
    for (index, line) in text.lines().enumerate() {
        match read_cookie(alloc.alloc, line, index + 1) {
            Ok(Some(cookie)) => take(&mut rows, cookie, &which)?,
            Ok(None) => {}
            Err(NetscapeError::BadLine { line: number }) => malformed.push(number)?,
            Err(_) => return Err(AllocError),
        }
    }
    Ok(WellFormed {
        store: CookieStore::from_rows(alloc.alloc, rows),
        malformed,
    })
}
