//! The functions that C programs call to save and load a store. `cookie_store.h` documents them.
ghost use Rattle.std.specs.Prelude.{◌≡◌, ◌⊎◌, false, length, None, Some, IsOk};
ghost use Rattle.cookie_store_c.specs.Buffers.{WritesText};
ghost use Rattle.cookie_store_c.specs.Calls.{flag_after_new, in_store, RunsOut};
ghost use Rattle.cookie_store_c.specs.LoadedStores.{numbers_of, to_load, with_numbers, LoadsAndReports};
ghost use Rattle.cookie_store_c.specs.Options.{options_in};
ghost use Rattle.cookie_store_c.specs.SavedStores.{count_with, left_out_in, saved_in};
ghost use Rattle.cookie_store_c.specs.Statuses.{IsCodeOf};

use crate::buffer::copy_numbers;
use crate::exports::begin;
use crate::handle::StoreHandle;
use crate::loading::{self, Rejection};
use crate::saving;
use crate::status::Status;
use cookie_store::serde::netscape::WellFormed;
use std::alloc::Global;

/// Writes cookies in a format and a line feed into `out`. `format` and `which` are numbers of
/// `enum cookie_store_format` and `enum cookie_store_which`.
///
/// The store is unchanged. `needed` is set to the length of what is written, and `left_out` to the
/// number of cookies that the format cannot represent and that are left out, which only the lenient
/// `cookies.txt` does; both to 0 on any error but `NoRoom`.
///
/// # Errors
///
/// In the order in which they are checked; `out` is unchanged:
/// - `NoStore`: the handle has no store.
/// - `BadOption`: `format` or `which` is no such number.
/// - `BadTime`: `now` is not in the years -9999 to 9999, also if all cookies are saved.
/// - `BadExpiry`: a cookie to be saved as a list expires before the year 0.
/// - `Unrepresentable`: a `cookies.txt` cannot represent a cookie to be saved.
/// - `NoRoom`: `out` is shorter than `needed`.
/// - `NoMemory`: out of memory. May be returned instead of `NoRoom` or success.
#[unsafe(no_mangle)]
pub extern "C" fn cookie_store_save(
    alloc: Global,
    handle: &mut StoreHandle,
    format: u32,
    which: u32,
    now: i64,
    out: &mut [u8],
    needed: &mut usize,
    left_out: &mut usize,
) -> u32
    ensures text { IsCodeOf result (λ status. WritesText (in_store (saved_in (options_in format which now)) handle.old.store_ptr.store)
        (IsOk (in_store (saved_in (options_in format which now)) handle.old.store_ptr.store)) out.old status out.new needed.new) }
    ensures left_out { IsCodeOf result (λ status. left_out.new
        ≡ count_with status (in_store (left_out_in (options_in format which now)) handle.old.store_ptr.store)) }
    ensures store { handle.new.store_ptr.store ≡ handle.old.store_ptr.store }
    ensures strict { handle.new.is_strict ≡ handle.old.is_strict }
{
    (*needed, *left_out) = (0, 0);
    let Some(store) = handle.take(alloc) else {
        return Status::NoStore.code();
    };
    let status = saving::save(&store, format, which, now, out, needed, left_out);
    handle.put(alloc, store);
    status.code()
}

/// Creates a store from cookies in a format. `format` and `which` are numbers of
/// `enum cookie_store_format` and `enum cookie_store_which`.
///
/// The store has no public suffix list and no limit, and its maps hash by `key`. The numbers of the
/// malformed lines are written to `lines`, as many as fit, and `malformed` is set to how many there
/// are: all those that the lenient `cookies.txt` leaves out, or the first one after `BadLine`.
///
/// # Errors
///
/// In the order in which they are checked; the handle is unchanged:
/// - `HasStore`: the handle has a store.
/// - `BadOption`: `format` or `which` is no such number.
/// - `BadTime`: `now` is not in the years -9999 to 9999, also if all cookies are loaded.
/// - `NotUtf8`: `list` is not UTF-8.
/// - `BadJson`, `BadShape`, `BadRon`, `BadExpiry` or `Parse`: `list` is not a valid list of cookies.
/// - `BadLine`: a line of a `cookies.txt` is malformed.
/// - `NoMemory`: out of memory. May be returned instead of any error but the first four.
#[unsafe(no_mangle)]
pub extern "C" fn cookie_store_load(
    alloc: Global,
    handle: &mut StoreHandle,
    key: &[u8],
    format: u32,
    which: u32,
    list: &[u8],
    now: i64,
    lines: &mut [usize],
    malformed: &mut usize,
) -> u32
    ensures outcome { IsCodeOf result (λ status.
        LoadsAndReports handle.old.store_ptr.store (to_load (options_in format which now) list.now) lines.old
        (record { status = status; store = handle.new.store_ptr.store }) lines.new malformed.new
        ⊎ ((lines.new ≡ lines.old) × (malformed.new ≡ 0)
        × RunsOut ((handle.old.store_ptr.store ≡ None) × IsOk (to_load (options_in format which now) list.now))
        handle.old.store_ptr.store status handle.new.store_ptr.store)) }
    ensures strict { handle.new.is_strict ≡ flag_after_new false handle.old.store_ptr.store handle.new.store_ptr.store handle.old.is_strict }
{
    *malformed = 0;
    if let Some(store) = handle.take(alloc) {
        handle.put(alloc, store);
        return Status::HasStore.code();
    }
    match loading::load(alloc, key, format, which, list, now) {
        Ok(loaded) => begin_loaded(alloc, handle, loaded, lines, malformed).code(),
        Err(rejection) => report(rejection, lines, malformed).code(),
    }
}

// Puts the store into the handle, which is empty, and reports the malformed lines; or returns
// `NoMemory`.
fn begin_loaded(
    alloc: Global,
    handle: &mut StoreHandle,
    loaded: WellFormed,
    lines: &mut [usize],
    malformed: &mut usize,
) -> Status
    requires empty { handle.old.store_ptr.store ≡ None }
    requires none { malformed.old ≡ 0 }
    ensures outcome { ((result ≡ Status.Done) × (handle.new.store_ptr.store ≡ Some loaded.store)
        × (lines.new ≡ with_numbers loaded.malformed.items lines.old) × (malformed.new ≡ length loaded.malformed.items))
        ⊎ ((result ≡ Status.NoMemory) × (handle.new.store_ptr.store ≡ None) × (lines.new ≡ lines.old) × (malformed.new ≡ 0)) }
    ensures strict { handle.new.is_strict ≡ flag_after_new false None handle.new.store_ptr.store handle.old.is_strict }
{
    let WellFormed {
        store,
        malformed: numbers,
    } = loaded;
    let status = begin(alloc, handle, store, false);
    if status == Status::Done {
        copy_numbers(&numbers, lines);
        *malformed = numbers.len();
    }
    status
}

// Returns the status, and reports the malformed line, if there is one.
fn report(rejection: Rejection, lines: &mut [usize], malformed: &mut usize) -> Status
    requires none { malformed.old ≡ 0 }
    ensures status { result ≡ rejection.status }
    ensures lines { lines.new ≡ with_numbers (numbers_of rejection.line) lines.old }
    ensures malformed { malformed.new ≡ length (numbers_of rejection.line) }
{
    if let Some(line) = rejection.line {
        copy_numbers(&[line], lines);
        *malformed = 1;
    }
    rejection.status
}
