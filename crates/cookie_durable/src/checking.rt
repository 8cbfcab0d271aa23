//! Checks of a cookie before anything changes.
ghost use Rattle.std.specs.Prelude.{◌≡◌, ◌↔◌, ◌⊎◌, ◌<◌, ◌^◌, false, Err, IfErr, IfOk, IsTrue, OnOk, Some};
ghost use Rattle.std.specs.Option.{option_copied};
ghost use Rattle.cookie_words.specs.Moments.{moment_of};
ghost use Rattle.cookie_laws.specs.Rows.{key_of};
ghost use Rattle.cookie_table.specs.Columns.{table_row};
ghost use Rattle.cookie_durable.specs.Checks.{is_unstorable, is_unstorable_at, len_if_any, text_len, IsReasonFor};
ghost use Rattle.cookie_durable.specs.Durable.{IsNotWritten};
ghost use Rattle.cookie_durable.specs.Numbering.{key_in};

use crate::numbering::{Names, names_of};
use crate::{DurableError, DurableStore};
use cookie_forms::SavedError;
use cookie_parts::Cookie;
use cookie_table::to_row;
use jiff::civil::DateTime;
use sqlite_trees::store::Store;
use sqlite_value::row::Row;
use std::alloc::Global;

// A row may have a billion bytes, with 18 for each value: the rest is left for these and for times.
const MOST_TEXT: u128 = 999_999_000;

impl<S: Store> DurableStore<S> {
    /// Checks whether the cookie can be written, and returns its domain, path and name.
    ///
    /// # Errors
    ///
    /// In the order in which they are checked:
    /// - `Failed`: an earlier call returned `NotWritten`.
    /// - `Unstorable`: its strings have more than 999,999,000 bytes together, or its expiry or Expires
    ///   attribute is before the year 0.
    /// - `Full`: no rowid is left.
    /// - `OutOfMemory`: out of memory.
    pub(crate) fn names_to_write(
        &self,
        alloc: Global,
        cookie: &Cookie<'static>,
    ) -> Result<Names, DurableError>
        ensures key { IfOk result (λ names. key_in names ≡ key_of cookie.now) }
        ensures works { OnOk result (self.now.is_failed ≡ false) }
        ensures failed { IsTrue self.now.is_failed → result ≡ Err DurableError.Failed }
        ensures unstorable { self.now.is_failed ≡ false → IsTrue (is_unstorable cookie.now) → result ≡ Err DurableError.Unstorable }
        ensures reason { IfErr result (λ e. IsReasonFor e self.now is_unstorable (Some cookie.now)) }
        ensures early { IfErr result (λ e. ¬ IsNotWritten e) }
    {
        if self.is_failed {
            return Err(DurableError::Failed);
        }
        row_for(alloc, 0, cookie)?;
        if self.next == i64::MAX {
            return Err(DurableError::Full);
        }
        let names = names_of(
            alloc,
            cookie.domain.as_str(),
            cookie.path.as_str(),
            cookie.name(),
        )?;
        Ok(names)
    }

    /// Checks whether a cookie that is received now under the rules of browsers can be written, and
    /// returns its domain, path and name. The rules cut its expiry to 400 days from `now`.
    ///
    /// # Errors
    ///
    /// Those of [`names_to_write`](Self::names_to_write), and `Unstorable` also if `now` is before the
    /// year 0.
    pub(crate) fn names_to_write_at(
        &self,
        alloc: Global,
        cookie: &Cookie<'static>,
        now: DateTime,
    ) -> Result<Names, DurableError>
        ensures key { IfOk result (λ names. key_in names ≡ key_of cookie.now) }
        ensures works { OnOk result (self.now.is_failed ≡ false) }
        ensures failed { IsTrue self.now.is_failed → result ≡ Err DurableError.Failed }
        ensures unstorable { self.now.is_failed ≡ false → IsTrue (is_unstorable_at (moment_of now) cookie.now) → result ≡ Err DurableError.Unstorable }
        ensures reason { IfErr result (λ e. IsReasonFor e self.now (is_unstorable_at (moment_of now)) (Some cookie.now)) }
        ensures early { IfErr result (λ e. ¬ IsNotWritten e) }
    {
        if !self.is_failed && now.year() < 0 {
            return Err(DurableError::Unstorable);
        }
        self.names_to_write(alloc, cookie)
    }
}

/// Returns the row of this rowid that holds the cookie.
///
/// # Errors
///
/// In the order in which they are checked:
/// - `Unstorable`: its strings have more than 999,999,000 bytes together, or its expiry or Expires
///   attribute is before the year 0.
/// - `OutOfMemory`: out of memory.
pub(crate) fn row_for(alloc: Global, id: i64, cookie: &Cookie<'static>) -> Result<Row, DurableError>
    ensures row { IfOk result (λ row. row ≡ table_row id cookie.now) }
    ensures unstorable { IsTrue (is_unstorable cookie.now) ↔ (result ≡ Err DurableError.Unstorable) }
    ensures errors { IfErr result (λ e. (e ≡ DurableError.Unstorable) ⊎ (e ≡ DurableError.OutOfMemory)) }
{
    if text_len(cookie) > MOST_TEXT {
        return Err(DurableError::Unstorable);
    }
    match to_row(alloc, id, cookie) {
        Ok(row) => Ok(row),
        Err(SavedError::Memory) => Err(DurableError::OutOfMemory),
        Err(_) => Err(DurableError::Unstorable),
    }
}

// The bytes of all strings of the cookie.
fn text_len(cookie: &Cookie<'static>) -> u128
    ensures { result ≡ text_len cookie.now }
{
    cookie.domain.as_str().len() as u128
        + cookie.path.as_str().len() as u128
        + cookie.name().len() as u128
        + cookie.value().len() as u128
        + len_if_any(cookie.raw().domain())
        + len_if_any(cookie.raw().path())
}

// The length of a string, 0 if there is none.
fn len_if_any(text: Option<&str>) -> u128
    ensures value { result ≡ len_if_any (option_copied text.entry) }
    ensures small { result < 2 ^ 64 }
{
    match text {
        Some(text) => text.len() as u128,
        None => 0,
    }
}
