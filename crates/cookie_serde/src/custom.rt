//! Saving and loading a store as one list, by functions of your own.
ghost use Rattle.std.specs.Prelude.{◌≡◌, ◌≢◌, ◌-◌, ◌^◌, ◌<◌, [], None, IfErr, IfOk, OnErr, OnOk};
ghost use Rattle.std.specs.Fn.{FnReturnsAt};
ghost use Rattle.std.specs.Io.KnownBytes.{IsAtEnd};
ghost use Rattle.cookie_words.specs.Moments.{moment_of};
ghost use Rattle.cookie_laws.specs.Contents.{rows_in_order};
ghost use Rattle.cookie_serde.specs.SavedLists.{BuildsFromList, FailsToLoadList, FailsToSaveList, ParsesToCookies, ParsesToVec, RejectsText, SerializesCopies, WritesList};
ghost use Rattle.cookie_serde.specs.Loading.{ReadsEachOnce};
ghost use Rattle.cookie_serde.specs.Saving.{saved_rows};
ghost use Rattle.cookie_serde.specs.Selections.{selected};

use crate::which::Which;
use crate::whole_text::{read_bytes, rows_of, write_text};
use cookie_core::{AsStore, CookieStore};
use cookie_device::{Sink, Source};
use cookie_parts::{Cookie, Error, StoreResult};
use cookie_rows::{Rows, StoreAlloc};
use jiff::civil::DateTime;
use std::alloc::AllocError;

/// Writes the unexpired persistent cookies as one list, and a line feed.
///
/// `cookies_to_string` makes the list. It is called once, with copies of the cookies in the store's
/// order, before anything is written.
///
/// # Errors
///
/// In the order in which they can come:
/// - `Memory`: out of memory for the copies. Nothing is written.
/// - The error that `cookies_to_string` returns. Nothing is written.
/// - `Io`: the writer failed. A beginning of the list may be written.
pub fn save<S: AsStore, W: Sink, F: Fn(&Vec<Cookie<'_>>) -> Result<String, Error>>(
    store: &S,
    writer: &mut W,
    cookies_to_string: F,
    now: DateTime,
) -> StoreResult<()>
    requires callable { F.IsAlwaysCallable cookies_to_string }
    requires writable { (W.state writer.old).failed < 2 ^ 64 - 1 }
    ensures whole { OnOk result (WritesList (SerializesCopies (FnReturnsAt F.Fn cookies_to_string))
        (saved_rows (moment_of now) (S.contents store.now).rows) (W.state writer.old).contents (W.state writer.new).contents) }
    ensures count { OnOk result ((W.state writer.new).failed ≡ (W.state writer.old).failed) }
    ensures stopped { IfErr result (λ error. FailsToSaveList (SerializesCopies (FnReturnsAt F.Fn cookies_to_string)) error
        (saved_rows (moment_of now) (S.contents store.now).rows)
        (W.state writer.old) (W.state writer.new)) }
{
    save_copies(
        store.as_store(),
        writer,
        cookies_to_string,
        Which::Persistent(now),
    )
}

/// Writes all cookies as one list, expired cookies and session cookies included, and a line feed.
///
/// Otherwise as [`save`].
pub fn save_incl_expired_and_nonpersistent<
    S: AsStore,
    W: Sink,
    F: Fn(&Vec<Cookie<'_>>) -> Result<String, Error>,
>(store: &S, writer: &mut W, cookies_to_string: F) -> StoreResult<()>
    requires callable { F.IsAlwaysCallable cookies_to_string }
    requires writable { (W.state writer.old).failed < 2 ^ 64 - 1 }
    ensures whole { OnOk result (WritesList (SerializesCopies (FnReturnsAt F.Fn cookies_to_string)) (S.contents store.now).rows
        (W.state writer.old).contents (W.state writer.new).contents) }
    ensures count { OnOk result ((W.state writer.new).failed ≡ (W.state writer.old).failed) }
    ensures stopped { IfErr result (λ error. FailsToSaveList (SerializesCopies (FnReturnsAt F.Fn cookies_to_string)) error
        (S.contents store.now).rows
        (W.state writer.old) (W.state writer.new)) }
{
    save_copies(store.as_store(), writer, cookies_to_string, Which::All)
}

/// Loads a store from one list, skipping expired cookies.
///
/// All that the reader has is passed to `cookies_from_str`. A cookie replaces an earlier one with
/// the same domain, path and name. The store has no public suffix list and no limit.
///
/// # Errors
///
/// In the order in which they can come:
/// - `Io`: the reader failed.
/// - `NotUtf8`: the bytes are not UTF-8.
/// - The error that `cookies_from_str` returns.
///
/// `Memory`: out of memory, for the reader's bytes or for a cookie that `cookies_from_str`
/// returned.
pub fn load<
    S: AsStore,
    A: Into<StoreAlloc>,
    R: Source,
    F: Fn(&str) -> Result<Vec<Cookie<'_>>, Error>,
>(alloc: A, reader: &mut R, cookies_from_str: F, now: DateTime) -> StoreResult<S>
    requires callable { F.IsAlwaysCallable cookies_from_str }
    requires readable { (R.state reader.old).failed < 2 ^ 64 - 1 }
    ensures built { IfOk result (λ store. BuildsFromList (ParsesToVec (FnReturnsAt F.Fn cookies_from_str)) (R.state reader.old).remaining
        (Which.Unexpired now) (rows_in_order (S.contents store))) }
    ensures suffixes { IfOk result (λ store. (S.contents store).suffixes ≡ None) }
    ensures limit { IfOk result (λ store. (S.contents store).limit ≡ None) }
    ensures read { OnOk result (IsAtEnd (R.state reader.new).remaining × ((R.state reader.new).failed ≡ (R.state reader.old).failed)) }
    ensures failed { IfErr result (λ error. FailsToLoadList (ParsesToVec (FnReturnsAt F.Fn cookies_from_str)) error
        (R.state reader.old) (R.state reader.new)) }
    ensures reads { ReadsEachOnce (R.state reader.old) (R.state reader.new) }
{
    let alloc = alloc.into();
    let rows = load_list(alloc, reader, cookies_from_str, Which::Unexpired(now))?;
    Ok(S::of_store(CookieStore::from_rows(alloc.alloc, rows)))
}

/// Loads a store from one list, expired cookies included; `now` is not used.
///
/// Otherwise as [`load`].
pub fn load_all<
    S: AsStore,
    A: Into<StoreAlloc>,
    R: Source,
    F: Fn(&str) -> Result<Vec<Cookie<'_>>, Error>,
>(alloc: A, reader: &mut R, cookies_from_str: F, now: DateTime) -> StoreResult<S>
    requires callable { F.IsAlwaysCallable cookies_from_str }
    requires readable { (R.state reader.old).failed < 2 ^ 64 - 1 }
    ensures built { IfOk result (λ store. BuildsFromList (ParsesToVec (FnReturnsAt F.Fn cookies_from_str)) (R.state reader.old).remaining
        Which.All (rows_in_order (S.contents store))) }
    ensures suffixes { IfOk result (λ store. (S.contents store).suffixes ≡ None) }
    ensures limit { IfOk result (λ store. (S.contents store).limit ≡ None) }
    ensures read { OnOk result (IsAtEnd (R.state reader.new).remaining × ((R.state reader.new).failed ≡ (R.state reader.old).failed)) }
    ensures failed { IfErr result (λ error. FailsToLoadList (ParsesToVec (FnReturnsAt F.Fn cookies_from_str)) error
        (R.state reader.old) (R.state reader.new)) }
    ensures reads { ReadsEachOnce (R.state reader.old) (R.state reader.new) }
{
    let alloc = alloc.into();
    let rows = load_list(alloc, reader, cookies_from_str, Which::All)?;
    Ok(S::of_store(CookieStore::from_rows(alloc.alloc, rows)))
}

// Passes copies of the rows that are saved to `text_of`, and writes its string and a line feed.
fn save_copies<W: Sink, F: Fn(&Vec<Cookie<'_>>) -> Result<String, Error>>(
    store: &CookieStore,
    sink: &mut W,
    text_of: F,
    which: Which,
) -> Result<(), Error>
    requires callable { F.IsAlwaysCallable text_of }
    requires writable { (W.state sink.old).failed < 2 ^ 64 - 1 }
    ensures whole { OnOk result (WritesList (SerializesCopies (FnReturnsAt F.Fn text_of))
        (selected which store.now.rows) (W.state sink.old).contents (W.state sink.new).contents) }
    ensures count { OnOk result ((W.state sink.new).failed ≡ (W.state sink.old).failed) }
    ensures stopped { IfErr result (λ error. FailsToSaveList (SerializesCopies (FnReturnsAt F.Fn text_of)) error
        (selected which store.now.rows)
        (W.state sink.old) (W.state sink.new)) }
{
    let copies = copies_of(store, which)?;
    let text = text_of(&copies)?;
    write_text(sink, &text)
}

// Copies of the rows that are saved.
fn copies_of(store: &CookieStore, which: Which) -> Result<Vec<Cookie<'static>>, AllocError>
    ensures copies { IfOk result (λ copies. copies.items ≡ selected which store.now.rows) }
    ensures memory { OnErr result (selected which store.now.rows ≢ []) }
{
    let mut copies = Vec::new(store.allocator());
    for row in store.iter_any() {
        if which.selects(row) {
            copies.push(row.clone()?)?;
        }
    }
    Ok(copies)
}

// The rows of those of the cookies that are loaded, which `cookies_of` returns for all bytes of the
// source.
fn load_list<R: Source, F: Fn(&str) -> Result<Vec<Cookie<'_>>, Error>>(
    alloc: StoreAlloc,
    source: &mut R,
    cookies_of: F,
    which: Which,
) -> Result<Rows, Error>
    requires callable { F.IsAlwaysCallable cookies_of }
    requires readable { (R.state source.old).failed < 2 ^ 64 - 1 }
    ensures built { IfOk result (λ rows. BuildsFromList (ParsesToVec (FnReturnsAt F.Fn cookies_of)) (R.state source.old).remaining
        which rows) }
    ensures read { OnOk result (IsAtEnd (R.state source.new).remaining × ((R.state source.new).failed ≡ (R.state source.old).failed)) }
    ensures failed { IfErr result (λ error. FailsToLoadList (ParsesToVec (FnReturnsAt F.Fn cookies_of)) error
        (R.state source.old) (R.state source.new)) }
    ensures reads { ReadsEachOnce (R.state source.old) (R.state source.new) }
{
    let bytes = read_bytes(alloc.alloc, source)?;
    let cookies = parse_list(&bytes, &cookies_of)?;
    rows_of(alloc, cookies, which)
}

// The cookies that `cookies_of` returns for the bytes, or `NotUtf8`.
fn parse_list<'l, F: Fn(&str) -> Result<Vec<Cookie<'_>>, Error>>(
    bytes: &'l [u8],
    cookies_of: &F,
) -> Result<Vec<Cookie<'l>>, Error>
    requires { F.IsAlwaysCallable cookies_of.now }
    ensures parsed { IfOk result (λ cookies. ParsesToCookies (ParsesToVec (FnReturnsAt F.Fn cookies_of.now)) bytes.now cookies.items) }
    ensures errors { IfErr result (λ error. RejectsText (ParsesToVec (FnReturnsAt F.Fn cookies_of.now)) error bytes.now) }
{
    match str::from_utf8(bytes) {
        Ok(text) => cookies_of(text),
        Err(_) => Err(Error::NotUtf8),
    }
}
