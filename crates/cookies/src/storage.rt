//! Cookies as the contents of a file.
ghost use Rattle.std.specs.Prelude.{◌≡◌, ◌-◌, ◌^◌, ◌<◌, [], IfOk, OnOk, Some, filter, min, string_bytes};
ghost use Rattle.cookie_netscape.specs.Written.{is_representable};
ghost use Rattle.cookie_store.specs.Contents.{rows_in_order};
ghost use Rattle.cookie_store.specs.NetscapeLists.{file_text, unrepresentable_count};
ghost use Rattle.cookie_store.specs.Selections.{selected};
ghost use Rattle.cookies.specs.Storage.{Holds, HoldsWellFormed, WritesFile, same_site_count};

use crate::error::FileError;
use crate::format::FileFormat;
use cookie_store::device::{Counted, Sink};
use cookie_store::netscape::is_representable;
use cookie_store::serde::netscape::{
    Representable, WellFormed, load_well_formed, to_text_representable,
};
use cookie_store::serde::{FormatError, Which, load_as, migrate_lines, save_as};
use cookie_store::{Bulk, CookieStore, Error, StoreAlloc};

/// Reads the cookies in `contents`, expired ones and session cookies included.
pub fn read_cookies(
    alloc: StoreAlloc,
    format: FileFormat,
    contents: &[u8],
) -> Result<CookieStore, FileError>
    ensures { IfOk result (λ store. Holds format contents.now (rows_in_order store)) }
{
    let mut source = Counted::new(contents);
    match format {
        FileFormat::Saved(format) => Ok(load_as(alloc, &mut source, format, Which::All)?),
        FileFormat::JsonLines => Ok(migrate_lines(alloc, &mut source)?),
    }
}

/// Reads the cookies in `contents`, without the malformed lines of a `cookies.txt`.
pub fn read_well_formed(
    alloc: StoreAlloc,
    format: FileFormat,
    contents: &[u8],
) -> Result<WellFormed, FileError>
    ensures { IfOk result (λ loaded. HoldsWellFormed format contents.now (rows_in_order loaded.store) loaded.malformed.items) }
{
    if !format.is_cookies_txt() {
        return Ok(WellFormed {
            store: read_cookies(alloc, format, contents)?,
            malformed: Vec::new(alloc.alloc),
        });
    }
    let mut source = Counted::new(contents);
    Ok(load_well_formed(alloc, &mut source, Which::All)?)
}

/// Returns the contents of a file with all cookies, expired ones and session cookies included.
pub fn written_cookies(format: FileFormat, store: &CookieStore) -> Result<Vec<u8>, FileError>
    ensures { IfOk result (λ contents. WritesFile format store.now.rows (Some []) (Some contents.items)) }
{
    let mut sink = Counted::new(Vec::new(store.allocator()));
    match write_cookies(format, store, &mut sink) {
        Ok(()) => Ok(sink.into_inner()),
        // A write to a vector fails only if memory ran out.
        Err(FileError::Cookies(FormatError::Store(Error::Io))) => {
            Err(FileError::from(Error::Memory))
        }
        Err(error) => Err(error),
    }
}

/// Returns a `cookies.txt` file with all cookies that it can represent, expired ones and session cookies
/// included.
pub fn representable_cookies(store: &CookieStore) -> Result<Representable, FileError>
    ensures text { IfOk result (λ file. string_bytes file.text ≡ file_text (filter is_representable (selected Which.All store.now.rows))) }
    ensures count { IfOk result (λ file. file.left_out ≡ unrepresentable_count (selected Which.All store.now.rows)) }
{
    let mut file = to_text_representable(store, Which::All)?;
    file.text.push('\n')?;
    Ok(file)
}

/// Returns how many of the cookies that a `cookies.txt` can represent have a SameSite attribute, at most
/// `usize::MAX`.
pub fn same_site_count(store: &CookieStore) -> usize
    ensures { result ≡ min (same_site_count store.now.rows) (2 ^ 64 - 1) }
{
    let mut count: usize = 0;
    for cookie in store.iter_any() {
        if cookie.same_site().is_some() && is_representable(cookie) {
            count = count.saturating_add(1);
        }
    }
    count
}

// Writes all cookies, expired ones and session cookies included.
fn write_cookies<W: Sink>(
    format: FileFormat,
    store: &CookieStore,
    sink: &mut W,
) -> Result<(), FileError>
    requires { (W.state sink.old).failed < 2 ^ 64 - 1 }
    ensures { OnOk result (WritesFile format store.now.rows (W.state sink.old).contents (W.state sink.new).contents) }
{
    match format {
        FileFormat::Saved(format) => Ok(save_as(store, sink, format, Which::All)?),
        FileFormat::JsonLines => Ok(store.save_incl_expired_and_nonpersistent_json(sink)?),
    }
}
