//! Saving and loading a store as one list in JSON.
ghost use Rattle.std.specs.Prelude.{◌≡◌, ◌-◌, ◌^◌, ◌<◌, None, IfErr, IfOk, OnOk};
ghost use Rattle.std.specs.Io.KnownBytes.{IsAtEnd};
ghost use Rattle.cookie_words.specs.Moments.{moment_of};
ghost use Rattle.cookie_serde.specs.JsonLists.{JsonListParsesTo, SerializesToJsonList};
ghost use Rattle.cookie_laws.specs.Contents.{rows_in_order};
ghost use Rattle.cookie_serde.specs.SavedLists.{BuildsFromList, BuildsFromText, FailsAtText, FailsToLoadList, FailsToSaveList, WritesList};
ghost use Rattle.cookie_serde.specs.Loading.{ReadsEachOnce};
ghost use Rattle.cookie_serde.specs.Saving.{saved_rows};

use crate::list_format::{ListFormat, list_rows, list_text, load_list_rows, save_list};
use crate::which::Which;
use cookie_core::CookieStore;
use cookie_device::{Sink, Source};
use cookie_parts::StoreResult;
use cookie_rows::StoreAlloc;
use jiff::civil::DateTime;

/// Writes the unexpired persistent cookies as a JSON array, in the store's order, and a line feed.
///
/// Each item and each member has a line of its own.
///
/// # Errors
///
/// In the order in which they are checked:
/// - `Saved(Moment)`: a cookie expires before the year 0. Nothing is written or allocated.
/// - `Memory`: out of memory. Nothing is written.
/// - `Io`: the writer failed. A beginning of the list may be written.
pub fn save<W: Sink>(store: &CookieStore, writer: &mut W, now: DateTime) -> StoreResult<()>
    requires writable { (W.state writer.old).failed < 2 ^ 64 - 1 }
    ensures whole { OnOk result (WritesList SerializesToJsonList (saved_rows (moment_of now) store.now.rows)
        (W.state writer.old).contents (W.state writer.new).contents) }
    ensures count { OnOk result ((W.state writer.new).failed ≡ (W.state writer.old).failed) }
    ensures stopped { IfErr result (λ error. FailsToSaveList SerializesToJsonList error (saved_rows (moment_of now) store.now.rows)
        (W.state writer.old) (W.state writer.new)) }
{
    save_list(ListFormat::Json, store, writer, Which::Persistent(now))
}

/// Writes all cookies as a JSON array and a line feed, expired cookies and session cookies
/// included.
///
/// The order, the layout and the errors are those of [`save`].
pub fn save_incl_expired_and_nonpersistent<W: Sink>(
    store: &CookieStore,
    writer: &mut W,
) -> StoreResult<()>
    requires writable { (W.state writer.old).failed < 2 ^ 64 - 1 }
    ensures whole { OnOk result (WritesList SerializesToJsonList store.now.rows (W.state writer.old).contents (W.state writer.new).contents) }
    ensures count { OnOk result ((W.state writer.new).failed ≡ (W.state writer.old).failed) }
    ensures stopped { IfErr result (λ error. FailsToSaveList SerializesToJsonList error store.now.rows
        (W.state writer.old) (W.state writer.new)) }
{
    save_list(ListFormat::Json, store, writer, Which::All)
}

/// Loads a store from a JSON array, skipping expired cookies.
///
/// The array is all that the reader has, in the form that [`save`] writes. A cookie replaces an
/// earlier one with the same domain, path and name. The store has no public suffix list and no
/// limit.
///
/// # Errors
///
/// In the order in which they are checked:
/// - `Io`: the reader failed.
/// - `NotUtf8`: the bytes are not UTF-8.
/// - `Saved(Json)`: they are not JSON.
/// - `Saved(Shape)`: the value is not a list of saved cookies, or has a float in it.
/// - `Saved(Moment)`: an expiry is not a valid time.
/// - `Cookie(Parse)`: a `Set-Cookie` value is not a cookie.
///
/// `Memory`: out of memory.
pub fn load<A: Into<StoreAlloc>, R: Source>(
    alloc: A,
    reader: &mut R,
    now: DateTime,
) -> StoreResult<CookieStore>
    requires readable { (R.state reader.old).failed < 2 ^ 64 - 1 }
    ensures built { IfOk result (λ store. BuildsFromList JsonListParsesTo (R.state reader.old).remaining (Which.Unexpired now) (rows_in_order store)) }
    ensures suffixes { IfOk result (λ store. store.suffixes ≡ None) }
    ensures limit { IfOk result (λ store. store.limit ≡ None) }
    ensures read { OnOk result (IsAtEnd (R.state reader.new).remaining × ((R.state reader.new).failed ≡ (R.state reader.old).failed)) }
    ensures failed { IfErr result (λ error. FailsToLoadList JsonListParsesTo error
        (R.state reader.old) (R.state reader.new)) }
    ensures reads { ReadsEachOnce (R.state reader.old) (R.state reader.new) }
{
    let alloc = alloc.into();
    let rows = load_list_rows(ListFormat::Json, alloc, reader, Which::Unexpired(now))?;
    Ok(CookieStore::from_rows(alloc.alloc, rows))
}

/// Loads a store from a JSON array, expired cookies included; `now` is not used.
///
/// Otherwise as [`load`].
pub fn load_all<A: Into<StoreAlloc>, R: Source>(
    alloc: A,
    reader: &mut R,
    now: DateTime,
) -> StoreResult<CookieStore>
    requires readable { (R.state reader.old).failed < 2 ^ 64 - 1 }
    ensures built { IfOk result (λ store. BuildsFromList JsonListParsesTo (R.state reader.old).remaining Which.All (rows_in_order store)) }
    ensures suffixes { IfOk result (λ store. store.suffixes ≡ None) }
    ensures limit { IfOk result (λ store. store.limit ≡ None) }
    ensures read { OnOk result (IsAtEnd (R.state reader.new).remaining × ((R.state reader.new).failed ≡ (R.state reader.old).failed)) }
    ensures failed { IfErr result (λ error. FailsToLoadList JsonListParsesTo error
        (R.state reader.old) (R.state reader.new)) }
    ensures reads { ReadsEachOnce (R.state reader.old) (R.state reader.new) }
{
    let alloc = alloc.into();
    let rows = load_list_rows(ListFormat::Json, alloc, reader, Which::All)?;
    Ok(CookieStore::from_rows(alloc.alloc, rows))
}

/// Formats the unexpired persistent cookies as a JSON array, in the store's order.
///
/// It is the list that [`save`] writes, without the line feed.
///
/// # Errors
///
/// In the order in which they are checked:
/// - `Saved(Moment)`: a cookie expires before the year 0. Nothing is allocated.
/// - `Memory`: out of memory.
pub fn to_text(store: &CookieStore, now: DateTime) -> StoreResult<String>
    ensures { SerializesToJsonList (saved_rows (moment_of now) store.now.rows) result }
{
    list_text(ListFormat::Json, store, Which::Persistent(now))
}

/// Formats all cookies as a JSON array, expired cookies and session cookies included.
///
/// Otherwise as [`to_text`].
pub fn to_text_incl_expired_and_nonpersistent(store: &CookieStore) -> StoreResult<String>
    ensures { SerializesToJsonList store.now.rows result }
{
    list_text(ListFormat::Json, store, Which::All)
}

/// Parses a JSON array into a store, skipping expired cookies.
///
/// The list is as [`load`] reads it, and the store as `load` returns it.
///
/// # Errors
///
/// In the order in which they are checked:
/// - `Saved(Json)`: `text` is not JSON.
/// - `Saved(Shape)`: its value is not a list of saved cookies, or has a float in it.
/// - `Saved(Moment)`: an expiry is not a valid time.
/// - `Cookie(Parse)`: a `Set-Cookie` value is not a cookie.
///
/// `Memory`: out of memory.
pub fn from_text<A: Into<StoreAlloc>>(
    alloc: A,
    text: &str,
    now: DateTime,
) -> StoreResult<CookieStore>
    ensures built { IfOk result (λ store. BuildsFromText JsonListParsesTo text.now (Which.Unexpired now) (rows_in_order store)) }
    ensures suffixes { IfOk result (λ store. store.suffixes ≡ None) }
    ensures limit { IfOk result (λ store. store.limit ≡ None) }
    ensures failed { IfErr result (λ error. FailsAtText JsonListParsesTo error text.now) }
{
    let alloc = alloc.into();
    let rows = list_rows(ListFormat::Json, alloc, text, Which::Unexpired(now))?;
    Ok(CookieStore::from_rows(alloc.alloc, rows))
}

/// Parses a JSON array into a store, expired cookies included; `now` is not used.
///
/// Otherwise as [`from_text`].
pub fn from_text_all<A: Into<StoreAlloc>>(
    alloc: A,
    text: &str,
    now: DateTime,
) -> StoreResult<CookieStore>
    ensures built { IfOk result (λ store. BuildsFromText JsonListParsesTo text.now Which.All (rows_in_order store)) }
    ensures suffixes { IfOk result (λ store. store.suffixes ≡ None) }
    ensures limit { IfOk result (λ store. store.limit ≡ None) }
    ensures failed { IfErr result (λ error. FailsAtText JsonListParsesTo error text.now) }
{
    let alloc = alloc.into();
    let rows = list_rows(ListFormat::Json, alloc, text, Which::All)?;
    Ok(CookieStore::from_rows(alloc.alloc, rows))
}
