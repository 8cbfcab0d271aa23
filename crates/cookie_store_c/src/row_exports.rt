//! The functions that C programs call to read cookies. `cookie_store.h` documents them.
ghost use Rattle.std.specs.Prelude.{◌≡◌, IsOk, IsSome};
ghost use Rattle.cookie_store_c.specs.CookieRows.{IsRequestRowsIn, ReportsRows, WritesSomeRows};
ghost use Rattle.cookie_store_c.specs.Headers.{own_request};
ghost use Rattle.cookie_store_c.specs.Inputs.{text_and_time};
ghost use Rattle.cookie_store_c.specs.Statuses.{IsCodeOf};

use crate::cookie_row::{CookieRow, write_rows};
use crate::handle::StoreHandle;
use crate::header::own_request;
use crate::request_rows::write_request_rows;
use crate::status::Status;
use std::alloc::Global;

/// Writes all cookies, expired ones included, into `rows`, and their strings into `strings`.
///
/// The store is unchanged. `rows_needed` and `strings_needed` are set to the lengths that the
/// buffers need, and to 0 on any error but `NoRoom`.
///
/// # Errors
///
/// In the order in which they are checked; `rows` and `strings` are unchanged:
/// - `NoStore`: the handle has no store.
/// - `NoMemory`: the strings together have 2^64 bytes or more.
/// - `NoRoom`: `rows` or `strings` is too short.
#[unsafe(no_mangle)]
pub extern "C" fn cookie_store_rows(
    alloc: Global,
    handle: &mut StoreHandle,
    rows: &mut [CookieRow],
    strings: &mut [u8],
    rows_needed: &mut usize,
    strings_needed: &mut usize,
) -> u32
    ensures reported { IsCodeOf result (λ status. ReportsRows handle.old.store_ptr.store rows.old strings.old
        (record { status = status; rows = rows.new; strings = strings.new; rows_needed = rows_needed.new; strings_needed = strings_needed.new })) }
    ensures store { handle.new.store_ptr.store ≡ handle.old.store_ptr.store }
    ensures strict { handle.new.is_strict ≡ handle.old.is_strict }
{
    (*rows_needed, *strings_needed) = (0, 0);
    let Some(store) = handle.take(alloc) else {
        return Status::NoStore.code();
    };
    let status = write_rows(
        &store,
        &[],
        false,
        rows,
        strings,
        rows_needed,
        strings_needed,
    );
    handle.put(alloc, store);
    status.code()
}

/// Writes the cookies of a request for `url`, in the order of the Cookie header, into `rows`, and
/// their strings into `strings`.
///
/// The store is unchanged. `rows_needed` and `strings_needed` are set to the lengths that the
/// buffers need, and to 0 on any error but `NoRoom`.
///
/// # Errors
///
/// In the order in which they are checked; `rows` and `strings` are unchanged:
/// - `NoStore`: the handle has no store.
/// - `NotUtf8`: `url` is not UTF-8.
/// - `BadTime`: `now` is not in the years -9999 to 9999.
/// - `BadUrl`: `url` is not a valid URL.
/// - `NoRoom`: `rows` or `strings` is too short.
/// - `NoMemory`: out of memory. May be returned instead of any error but the first three.
#[unsafe(no_mangle)]
pub extern "C" fn cookie_store_cookies_for(
    alloc: Global,
    handle: &mut StoreHandle,
    url: &[u8],
    now: i64,
    rows: &mut [CookieRow],
    strings: &mut [u8],
    rows_needed: &mut usize,
    strings_needed: &mut usize,
) -> u32
    ensures reported { IsCodeOf result (λ status. WritesSomeRows (IsRequestRowsIn (own_request handle.old.is_strict) handle.old.store_ptr.store url.now now)
        (IsSome handle.old.store_ptr.store × IsOk (text_and_time url.now now)) rows.old strings.old
        (record { status = status; rows = rows.new; strings = strings.new; rows_needed = rows_needed.new; strings_needed = strings_needed.new })) }
    ensures store { handle.new.store_ptr.store ≡ handle.old.store_ptr.store }
    ensures strict { handle.new.is_strict ≡ handle.old.is_strict }
{
    (*rows_needed, *strings_needed) = (0, 0);
    let Some(store) = handle.take(alloc) else {
        return Status::NoStore.code();
    };
    let status = write_request_rows(
        alloc,
        &store,
        own_request(handle.is_strict),
        url,
        now,
        rows,
        strings,
        rows_needed,
        strings_needed,
    );
    handle.put(alloc, store);
    status.code()
}
