//! Saving and loading a store as one list in RON.
ghost use Rattle.std.specs.Prelude.{◌≡◌, ◌-◌, ◌^◌, ◌<◌, None, IfErr, IfOk, OnOk};
ghost use Rattle.std.specs.Io.KnownBytes.{IsAtEnd};
ghost use Rattle.cookie_words.specs.Moments.{moment_of};
ghost use Rattle.cookie_serde.specs.RonLists.{RonListParsesTo, SerializesToRonList};
ghost use Rattle.cookie_laws.specs.Contents.{rows_in_order};
ghost use Rattle.cookie_serde.specs.SavedLists.{BuildsFromList, BuildsFromText, FailsAtText, FailsToLoadList, FailsToSaveList, WritesList};
ghost use Rattle.cookie_serde.specs.Loading.{ReadsEachOnce};
ghost use Rattle.cookie_serde.specs.Saving.{saved_rows};

use crate::list_format::{ListFormat, list_rows, list_text, load_list_rows, save_list};
use crate::which::Which;
use cookie_core::CookieStore;
use cookie_device::{Sink, Source};
use cookie_parts::StoreResult;
use cookie_rows::StoreAlloc;
use jiff::civil::DateTime;

/// Writes the unexpired persistent cookies as a list in RON, in the store's order, and a line feed.
///
/// Each field has a line of its own.
///
/// # Errors
///
/// In the order in which they are checked:
/// - `Saved(Moment)`: a cookie expires before the year 0. Nothing is written or allocated.
/// - `Memory`: out of memory. Nothing is written.
/// - `Io`: the writer failed. A beginning of the list may be written.
pub fn save<W: Sink>(store: &CookieStore, writer: &mut W, now: DateTime) -> StoreResult<()>
    requires writable { (W.state writer.old).failed < 2 ^ 64 - 1 }
    ensures whole { OnOk result (WritesList SerializesToRonList (saved_rows (moment_of now) store.now.rows)
        (W.state writer.old).contents (W.state writer.new).contents) }
    ensures count { OnOk result ((W.state writer.new).failed ≡ (W.state writer.old).failed) }
    ensures stopped { IfErr result (λ error. FailsToSaveList SerializesToRonList error (saved_rows (moment_of now) store.now.rows)
        (W.state writer.old) (W.state writer.new)) }
{
    save_list(ListFormat::Ron, store, writer, Which::Persistent(now))
}

/// Writes all cookies as a list in RON and a line feed, expired cookies and session cookies
/// included.
///
/// The order, the layout and the errors are those of [`save`].
pub fn save_incl_expired_and_nonpersistent<W: Sink>(
    store: &CookieStore,
    writer: &mut W,
) -> StoreResult<()>
    requires writable { (W.state writer.old).failed < 2 ^ 64 - 1 }
    ensures whole { OnOk result (WritesList SerializesToRonList store.now.rows (W.state writer.old).contents (W.state writer.new).contents) }
    ensures count { OnOk result ((W.state writer.new).failed ≡ (W.state writer.old).failed) }
    ensures stopped { IfErr result (λ error. FailsToSaveList SerializesToRonList error store.now.rows
        (W.state writer.old) (W.state writer.new)) }
{
    save_list(ListFormat::Ron, store, writer, Which::All)
}

/// Loads a store from a list in RON, skipping expired cookies.
///
/// The list is all that the reader has, in the form that [`save`] writes. A cookie replaces an
/// earlier one with the same domain, path and name. The store has no public suffix list and no
/// limit.
///
/// # Errors
///
/// In the order in which they are checked:
/// - `Io`: the reader failed.
/// - `NotUtf8`: the bytes are not UTF-8.
/// - `Saved(Ron)`: they are not a list in RON.
/// - `Saved(Moment)`: an expiry is not a valid time.
/// - `Cookie(Parse)`: a `Set-Cookie` value is not a cookie.
///
/// `Memory`: out of memory.
pub fn load<A: Into<StoreAlloc>, R: Source>(
    alloc: A,
    reader: &mut R,
    now: DateTime,
) -> StoreResult<CookieStore>
    requires readable { (R.state reader.old).failed < 2 ^ 64 - 1 }
    ensures built { IfOk result (λ store. BuildsFromList RonListParsesTo (R.state reader.old).remaining (Which.Unexpired now) (rows_in_order store)) }
    ensures suffixes { IfOk result (λ store. store.suffixes ≡ None) }
    ensures limit { IfOk result (λ store. store.limit ≡ None) }
    ensures read { OnOk result (IsAtEnd (R.state reader.new).remaining × ((R.state reader.new).failed ≡ (R.state reader.old).failed)) }
    ensures failed { IfErr result (λ error. FailsToLoadList RonListParsesTo error
        (R.state reader.old) (R.state reader.new)) }
    ensures reads { ReadsEachOnce (R.state reader.old) (R.state reader.new) }
{
    let alloc = alloc.into();
    let rows = load_list_rows(ListFormat::Ron, alloc, reader, Which::Unexpired(now))?;
    Ok(CookieStore::from_rows(alloc.alloc, rows))
}

/// Loads a store from a list in RON, expired cookies included; `now` is not used.
///
/// Otherwise as [`load`].
pub fn load_all<A: Into<StoreAlloc>, R: Source>(
    alloc: A,
    reader: &mut R,
    now: DateTime,
) -> StoreResult<CookieStore>
    requires readable { (R.state reader.old).failed < 2 ^ 64 - 1 }
    ensures built { IfOk result (λ store. BuildsFromList RonListParsesTo (R.state reader.old).remaining Which.All (rows_in_order store)) }
    ensures suffixes { IfOk result (λ store. store.suffixes ≡ None) }
    ensures limit { IfOk result (λ store. store.limit ≡ None) }
    ensures read { OnOk result (IsAtEnd (R.state reader.new).remaining × ((R.state reader.new).failed ≡ (R.state reader.old).failed)) }
    ensures failed { IfErr result (λ error. FailsToLoadList RonListParsesTo error
        (R.state reader.old) (R.state reader.new)) }
    ensures reads { ReadsEachOnce (R.state reader.old) (R.state reader.new) }
{
    let alloc = alloc.into();
    let rows = load_list_rows(ListFormat::Ron, alloc, reader, Which::All)?;
    Ok(CookieStore::from_rows(alloc.alloc, rows))
}

/// Formats the unexpired persistent cookies as a list in RON, in the store's order.
///
/// It is the list that [`save`] writes, without the line feed.
///
/// # Errors
///
/// In the order in which they are checked:
/// - `Saved(Moment)`: a cookie expires before the year 0. Nothing is allocated.
/// - `Memory`: out of memory.
pub fn to_text(store: &CookieStore, now: DateTime) -> StoreResult<String>
    ensures { SerializesToRonList (saved_rows (moment_of now) store.now.rows) result }
{
    list_text(ListFormat::Ron, store, Which::Persistent(now))
}

/// Formats all cookies as a list in RON, expired cookies and session cookies included.
///
/// Otherwise as [`to_text`].
pub fn to_text_incl_expired_and_nonpersistent(store: &CookieStore) -> StoreResult<String>
    ensures { SerializesToRonList store.now.rows result }
{
    list_text(ListFormat::Ron, store, Which::All)
}

/// Parses a list in RON into a store, skipping expired cookies.
///
/// The list is as [`load`] reads it, and the store as `load` returns it.
///
/// # Errors
///
/// In the order in which they are checked:
/// - `Saved(Ron)`: `text` is not a list in RON.
/// - `Saved(Moment)`: an expiry is not a valid time.
/// - `Cookie(Parse)`: a `Set-Cookie` value is not a cookie.
///
/// `Memory`: out of memory.
pub fn from_text<A: Into<StoreAlloc>>(
    alloc: A,
    text: &str,
    now: DateTime,
) -> StoreResult<CookieStore>
    ensures built { IfOk result (λ store. BuildsFromText RonListParsesTo text.now (Which.Unexpired now) (rows_in_order store)) }
    ensures suffixes { IfOk result (λ store. store.suffixes ≡ None) }
    ensures limit { IfOk result (λ store. store.limit ≡ None) }
    ensures failed { IfErr result (λ error. FailsAtText RonListParsesTo error text.now) }
{
    let alloc = alloc.into();
    let rows = list_rows(ListFormat::Ron, alloc, text, Which::Unexpired(now))?;
    Ok(CookieStore::from_rows(alloc.alloc, rows))
}

/// Parses a list in RON into a store, expired cookies included; `now` is not used.
///
/// Otherwise as [`from_text`].
pub fn from_text_all<A: Into<StoreAlloc>>(
    alloc: A,
    text: &str,
    now: DateTime,
) -> StoreResult<CookieStore>
    ensures built { IfOk result (λ store. BuildsFromText RonListParsesTo text.now Which.All (rows_in_order store)) }
    ensures suffixes { IfOk result (λ store. store.suffixes ≡ None) }
    ensures limit { IfOk result (λ store. store.limit ≡ None) }
    ensures failed { IfErr result (λ error. FailsAtText RonListParsesTo error text.now) }
{
    let alloc = alloc.into();
    let rows = list_rows(ListFormat::Ron, alloc, text, Which::All)?;
    Ok(CookieStore::from_rows(alloc.alloc, rows))
}
