//! Calls of a store that take many cookies: those of a response, and those saved or loaded as
//! lines.
ghost use Rattle.std.specs.Prelude.{◌≡◌, ◌-◌, ◌^◌, ◌<◌, None, IfErr, IfOk, OnErr, OnOk};
ghost use Rattle.std.specs.Fn.{FnReturnsAt};
ghost use Rattle.std.specs.Io.KnownBytes.{IsAtEnd};
ghost use Rattle.std.specs.Iterator.{IsFinite};
ghost use Rattle.cookie_words.specs.Moments.{moment_of};
ghost use Rattle.cookie_laws.specs.Contents.{rows_in_order};
ghost use Rattle.cookie_serde.specs.JsonLines.{JsonParsesTo, SerializesToJson};
ghost use Rattle.cookie_serde.specs.Loading.{BuildsFrom, FailsToLoad, ReadsEachOnce};
ghost use Rattle.cookie_core.specs.Responses.{InsertsAll, InsertsSome};
ghost use Rattle.cookie_serde.specs.Saving.{saved_rows, FailsToSave, WritesRows};

use crate::json_lines::{load_json_rows, save_json_rows};
use crate::loading::load_rows;
use crate::saving::save_rows;
use crate::which::Which;
use cookie_core::{AsStore, CookieStore, insert_each};
use cookie_device::{Sink, Source};
use cookie_parts::{Cookie, Error, StoreResult};
use cookie_raw::RawCookie;
use cookie_rows::StoreAlloc;
use jiff::civil::DateTime;
use log::Log;
use std::alloc::AllocError;
use url::Url;

/// The calls of a [`CookieStore`] that take many cookies: those of a response, and those saved or
/// loaded as lines.
pub trait Bulk: AsStore {
    /// Writes the unexpired persistent cookies as lines, in the store's order.
    ///
    /// A line is the string that `cookie_to_string` returns for the cookie, and a line feed. Saving
    /// itself allocates nothing.
    ///
    /// # Errors
    ///
    /// The first error stops saving. The lines of the cookies before it are written.
    /// - The error that `cookie_to_string` returns.
    /// - `Io`: the writer failed. Of the cookie's line, a beginning may be written.
    final fn save<W: Sink, F: Fn(&Cookie<'_>) -> Result<String, Error>>(
        &self,
        writer: &mut W,
        cookie_to_string: F,
        now: DateTime,
    ) -> StoreResult<()>
        requires callable { F.IsAlwaysCallable cookie_to_string }
        requires writable { (W.state writer.old).failed < 2 ^ 64 - 1 }
        ensures whole { OnOk result (WritesRows (FnReturnsAt F.Fn cookie_to_string)
            (saved_rows (moment_of now) (Self.contents self.now).rows) (W.state writer.old).contents (W.state writer.new).contents) }
        ensures count { OnOk result ((W.state writer.new).failed ≡ (W.state writer.old).failed) }
        ensures stopped { IfErr result (λ error. FailsToSave (FnReturnsAt F.Fn cookie_to_string) error
            (saved_rows (moment_of now) (Self.contents self.now).rows)
            (W.state writer.old) (W.state writer.new)) }
    {
        save_rows(
            self.as_store(),
            writer,
            cookie_to_string,
            Which::Persistent(now),
        )
    }

    /// Writes all cookies as lines, expired cookies and session cookies included, in the store's
    /// order.
    ///
    /// The lines and the errors are those of [`save`](Self::save).
    final fn save_incl_expired_and_nonpersistent<
        W: Sink,
        F: Fn(&Cookie<'_>) -> Result<String, Error>,
    >(&self, writer: &mut W, cookie_to_string: F) -> StoreResult<()>
        requires callable { F.IsAlwaysCallable cookie_to_string }
        requires writable { (W.state writer.old).failed < 2 ^ 64 - 1 }
        ensures whole { OnOk result (WritesRows (FnReturnsAt F.Fn cookie_to_string) (Self.contents self.now).rows
            (W.state writer.old).contents (W.state writer.new).contents) }
        ensures count { OnOk result ((W.state writer.new).failed ≡ (W.state writer.old).failed) }
        ensures stopped { IfErr result (λ error. FailsToSave (FnReturnsAt F.Fn cookie_to_string) error (Self.contents self.now).rows
            (W.state writer.old) (W.state writer.new)) }
    {
        save_rows(self.as_store(), writer, cookie_to_string, Which::All)
    }

    /// Writes the unexpired persistent cookies as lines of JSON, in the store's order.
    ///
    /// A line is the saved form of the cookie as a JSON object, and a line feed.
    ///
    /// # Errors
    ///
    /// The first error stops saving. The lines of the cookies before it are written.
    /// - `Saved(Moment)`: the cookie expires before the year 0. Checked before anything is
    ///   allocated for it.
    /// - `Memory`: out of memory.
    /// - `Io`: the writer failed. Of the cookie's line, a beginning may be written.
    #[deprecated(note = "use `serde::json`")]
    final fn save_json<W: Sink>(&self, writer: &mut W, now: DateTime) -> StoreResult<()>
        requires writable { (W.state writer.old).failed < 2 ^ 64 - 1 }
        ensures whole { OnOk result (WritesRows SerializesToJson (saved_rows (moment_of now) (Self.contents self.now).rows)
            (W.state writer.old).contents (W.state writer.new).contents) }
        ensures count { OnOk result ((W.state writer.new).failed ≡ (W.state writer.old).failed) }
        ensures stopped { IfErr result (λ error. FailsToSave SerializesToJson error
            (saved_rows (moment_of now) (Self.contents self.now).rows)
            (W.state writer.old) (W.state writer.new)) }
    {
        save_json_rows(self.as_store(), writer, Which::Persistent(now))
    }

    /// Writes all cookies as lines of JSON, expired cookies and session cookies included.
    ///
    /// The order, the lines and the errors are those of [`save_json`](Self::save_json).
    #[deprecated(note = "use `serde::json`")]
    final fn save_incl_expired_and_nonpersistent_json<W: Sink>(
        &self,
        writer: &mut W,
    ) -> StoreResult<()>
        requires writable { (W.state writer.old).failed < 2 ^ 64 - 1 }
        ensures whole { OnOk result (WritesRows SerializesToJson (Self.contents self.now).rows (W.state writer.old).contents (W.state writer.new).contents) }
        ensures count { OnOk result ((W.state writer.new).failed ≡ (W.state writer.old).failed) }
        ensures stopped { IfErr result (λ error. FailsToSave SerializesToJson error (Self.contents self.now).rows
            (W.state writer.old) (W.state writer.new)) }
    {
        save_json_rows(self.as_store(), writer, Which::All)
    }

    /// Loads a store from lines, skipping expired cookies.
    ///
    /// Each line is passed to `cookie_from_str`, without its line ending. A cookie replaces an
    /// earlier one with the same domain, path and name. The store has no public suffix list and no
    /// limit. A line ends with a line feed, or with a carriage return and a line feed; the last
    /// line may have no ending.
    ///
    /// # Errors
    ///
    /// The first error stops loading.
    /// - `Io`: the reader failed.
    /// - `NotUtf8`: a line is not UTF-8.
    /// - The error that `cookie_from_str` returns.
    /// - `Memory`: out of memory, for the reader's bytes or for a cookie that `cookie_from_str`
    ///   returned.
    final fn load<A: Into<StoreAlloc>, R: Source, F: Fn(&str) -> Result<Cookie<'_>, Error>>(
        alloc: A,
        reader: &mut R,
        cookie_from_str: F,
        now: DateTime,
    ) -> StoreResult<Self>
        requires callable { F.IsAlwaysCallable cookie_from_str }
        requires readable { (R.state reader.old).failed < 2 ^ 64 - 1 }
        ensures built { IfOk result (λ store. BuildsFrom (FnReturnsAt F.Fn cookie_from_str) (R.state reader.old).remaining
            (Which.Unexpired now) (rows_in_order (Self.contents store))) }
        ensures suffixes { IfOk result (λ store. (Self.contents store).suffixes ≡ None) }
        ensures limit { IfOk result (λ store. (Self.contents store).limit ≡ None) }
        ensures read { OnOk result (IsAtEnd (R.state reader.new).remaining × ((R.state reader.new).failed ≡ (R.state reader.old).failed)) }
        ensures failed { IfErr result (λ error. FailsToLoad (FnReturnsAt F.Fn cookie_from_str) error
            (R.state reader.old) (R.state reader.new)) }
        ensures reads { ReadsEachOnce (R.state reader.old) (R.state reader.new) }
    {
        let alloc = alloc.into();
        let rows = load_rows(alloc, reader, cookie_from_str, Which::Unexpired(now))?;
        Ok(Self::of_store(CookieStore::from_rows(alloc.alloc, rows)))
    }

    /// Loads a store from lines, expired cookies included; `now` is not used.
    ///
    /// Otherwise as [`load`](Self::load).
    final fn load_all<A: Into<StoreAlloc>, R: Source, F: Fn(&str) -> Result<Cookie<'_>, Error>>(
        alloc: A,
        reader: &mut R,
        cookie_from_str: F,
        now: DateTime,
    ) -> StoreResult<Self>
        requires callable { F.IsAlwaysCallable cookie_from_str }
        requires readable { (R.state reader.old).failed < 2 ^ 64 - 1 }
        ensures built { IfOk result (λ store. BuildsFrom (FnReturnsAt F.Fn cookie_from_str) (R.state reader.old).remaining
            Which.All (rows_in_order (Self.contents store))) }
        ensures suffixes { IfOk result (λ store. (Self.contents store).suffixes ≡ None) }
        ensures limit { IfOk result (λ store. (Self.contents store).limit ≡ None) }
        ensures read { OnOk result (IsAtEnd (R.state reader.new).remaining × ((R.state reader.new).failed ≡ (R.state reader.old).failed)) }
        ensures failed { IfErr result (λ error. FailsToLoad (FnReturnsAt F.Fn cookie_from_str) error
            (R.state reader.old) (R.state reader.new)) }
        ensures reads { ReadsEachOnce (R.state reader.old) (R.state reader.new) }
    {
        let alloc = alloc.into();
        let rows = load_rows(alloc, reader, cookie_from_str, Which::All)?;
        Ok(Self::of_store(CookieStore::from_rows(alloc.alloc, rows)))
    }

    /// Loads a store from lines of JSON, skipping expired cookies.
    ///
    /// Each line is the saved form of a cookie, as [`save_json`](Self::save_json) writes it.
    /// Otherwise as [`load`](Self::load).
    ///
    /// # Errors
    ///
    /// The first error stops loading.
    /// - `Io`: the reader failed.
    /// - `Memory`: out of memory.
    ///
    /// At a line, in the order in which they are checked:
    /// - `NotUtf8`: the line is not UTF-8.
    /// - `Saved(Json)`: it is not JSON.
    /// - `Saved(Shape)`: its value is not a saved cookie, or has a float in it.
    /// - `Saved(Moment)`: its expiry is not a valid time.
    /// - `Cookie(Parse)`: its `Set-Cookie` value is not a cookie.
    #[deprecated(note = "use `serde::json`")]
    final fn load_json<A: Into<StoreAlloc>, R: Source>(
        alloc: A,
        reader: &mut R,
        now: DateTime,
    ) -> StoreResult<Self>
        requires readable { (R.state reader.old).failed < 2 ^ 64 - 1 }
        ensures built { IfOk result (λ store. BuildsFrom JsonParsesTo (R.state reader.old).remaining (Which.Unexpired now) (rows_in_order (Self.contents store))) }
        ensures suffixes { IfOk result (λ store. (Self.contents store).suffixes ≡ None) }
        ensures limit { IfOk result (λ store. (Self.contents store).limit ≡ None) }
        ensures read { OnOk result (IsAtEnd (R.state reader.new).remaining × ((R.state reader.new).failed ≡ (R.state reader.old).failed)) }
        ensures failed { IfErr result (λ error. FailsToLoad JsonParsesTo error
            (R.state reader.old) (R.state reader.new)) }
        ensures reads { ReadsEachOnce (R.state reader.old) (R.state reader.new) }
    {
        let alloc = alloc.into();
        let rows = load_json_rows(alloc, reader, Which::Unexpired(now))?;
        Ok(Self::of_store(CookieStore::from_rows(alloc.alloc, rows)))
    }

    /// Loads a store from lines of JSON, expired cookies included; `now` is not used.
    ///
    /// Otherwise as [`load_json`](Self::load_json).
    #[deprecated(note = "use `serde::json`")]
    final fn load_json_all<A: Into<StoreAlloc>, R: Source>(
        alloc: A,
        reader: &mut R,
        now: DateTime,
    ) -> StoreResult<Self>
        requires readable { (R.state reader.old).failed < 2 ^ 64 - 1 }
        ensures built { IfOk result (λ store. BuildsFrom JsonParsesTo (R.state reader.old).remaining Which.All (rows_in_order (Self.contents store))) }
        ensures suffixes { IfOk result (λ store. (Self.contents store).suffixes ≡ None) }
        ensures limit { IfOk result (λ store. (Self.contents store).limit ≡ None) }
        ensures read { OnOk result (IsAtEnd (R.state reader.new).remaining × ((R.state reader.new).failed ≡ (R.state reader.old).failed)) }
        ensures failed { IfErr result (λ error. FailsToLoad JsonParsesTo error
            (R.state reader.old) (R.state reader.new)) }
        ensures reads { ReadsEachOnce (R.state reader.old) (R.state reader.new) }
    {
        let alloc = alloc.into();
        let rows = load_json_rows(alloc, reader, Which::All)?;
        Ok(Self::of_store(CookieStore::from_rows(alloc.alloc, rows)))
    }

    /// Inserts the cookies of a response received from `url`, in order.
    ///
    /// Each is inserted as by [`CookieStore::insert_raw`]; those that are rejected are skipped.
    /// Each cookie, and the error of each that is rejected, is logged at the level debug. Of a
    /// Secure cookie only the name is logged.
    ///
    /// # Errors
    ///
    /// `AllocError`: out of memory. The cookies before the one that failed remain stored.
    final fn store_response_cookies<'c, L: Log, I: Iterator<Item = RawCookie<'c>> + Drop>(
        &mut self,
        logger: &L,
        mut cookies: I,
        url: &Url,
        now: DateTime,
    ) -> Result<(), AllocError>
        requires can { I.can_next cookies }
        requires ends { IsFinite (I.remaining cookies) }
        ensures taken { OnOk result (InsertsAll I.next_gives cookies url.now (moment_of now) (Self.contents self.old) (Self.contents self.new)) }
        ensures stopped { OnErr result (InsertsSome I.next_gives cookies url.now (moment_of now) (Self.contents self.old) (Self.contents self.new)) }
    {
        insert_each(self, logger, &mut cookies, url, now)
    }
}

impl Bulk for CookieStore {}
