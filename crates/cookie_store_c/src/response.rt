//! Parsing all header values of a response.
ghost use Rattle.std.specs.Prelude.{◌≡◌, ◌==◌, ℕ, List, length, sum, true, Ok, Some, ℤ};
ghost use Rattle.cookie_words.specs.Moments.{moment_of};
ghost use Rattle.cookie_store_c.specs.Calls.{ParsesValue};
ghost use Rattle.cookie_store_c.specs.Inputs.{request};
ghost use Rattle.cookie_store_c.specs.Responses.{are_lengths, values_in, values_of, ParsesEach, ParsesResponse};
ghost use Rattle.cookie_store_c.specs.Statuses.{IsCodeOf};

use crate::calls::insert_text;
use crate::handle::StoreHandle;
use crate::inputs::{request, text_in};
use crate::status::Status;
use cookie_store::CookieStore;
use jiff::civil::DateTime;
use std::alloc::Global;
use url::Url;

/// Parses the `Set-Cookie` header values of a response received from `url`, in order, and inserts
/// each cookie as `cookie_store_parse` does. The header values lie in `values` one after the other, and
/// `lens` has their lengths.
///
/// `statuses` is set to the numbers of their statuses. A cookie that is rejected, or for which memory
/// runs out, is not stored, and the others are.
///
/// # Errors
///
/// In the order in which they are checked; the store and `statuses` are unchanged:
/// - `NoStore`: the handle has no store.
/// - `BadOption`: the lengths do not add up to that of `values`, or `statuses` is not as long as `lens`.
/// - `NotUtf8`: `url` is not UTF-8.
/// - `BadTime`: `now` is not in the years -9999 to 9999.
/// - `BadUrl`: `url` is not a valid URL.
/// - `NoMemory`: out of memory for the URL. May be returned instead of `BadUrl` or success.
#[unsafe(no_mangle)]
pub extern "C" fn cookie_store_parse_each(
    alloc: Global,
    handle: &mut StoreHandle,
    url: &[u8],
    values: &[u8],
    lens: &[usize],
    now: i64,
    statuses: &mut [u32],
) -> u32
    ensures outcome { IsCodeOf result (λ status. ParsesResponse handle.old.is_strict url.now now handle.old.store_ptr.store
        (values_in values.now lens.now (length statuses.old)) statuses.old
        (record { status = status; store = handle.new.store_ptr.store; codes = statuses.new })) }
    ensures strict { handle.new.is_strict ≡ handle.old.is_strict }
{
    let Some(mut store) = handle.take(alloc) else {
        return Status::NoStore.code();
    };
    let is_strict = handle.is_strict;
    let status = parse_each(
        alloc, &mut store, is_strict, url, values, lens, now, statuses,
    );
    handle.put(alloc, store);
    status.code()
}

// Parses the header values, under the rules of browsers if `is_strict` is true.
fn parse_each(
    alloc: Global,
    store: &mut CookieStore,
    is_strict: bool,
    url: &[u8],
    values: &[u8],
    lens: &[usize],
    now: i64,
    statuses: &mut [u32],
) -> Status
    ensures { ParsesResponse is_strict url.now now (Some store.old) (values_in values.now lens.now (length statuses.old)) statuses.old
        (record { status = result; store = Some store.new; codes = statuses.new }) }
{
    if !are_lengths(lens, values.len(), statuses.len()) {
        return Status::BadOption;
    }
    let (url, now) = match request(alloc, url, now) {
        Ok(inputs) => inputs,
        Err(status) => return status,
    };
    parse_values(store, is_strict, &url, values, lens, now, statuses);
    Status::Done
}

// Returns whether the lengths add up to `total`, and there are `count` of them.
fn are_lengths(lens: &[usize], total: usize, count: usize) -> bool
    ensures { result ≡ are_lengths lens.now total count }
{
    add_up_to(lens, total) && lens.len() == count
}

// Returns whether the lengths add up to `total`.
fn add_up_to(lens: &[usize], total: usize) -> bool
    ensures { result ≡ (sum lens.now == total) }
{
    let mut rest = total;
    for len in lens {
        match rest.checked_sub(*len) {
            Some(after) => rest = after,
            None => return false,
        }
    }
    rest == 0
}

// Parses the header values received from `url`, and sets `statuses` to the numbers of their statuses.
fn parse_values(
    store: &mut CookieStore,
    is_strict: bool,
    url: &Url,
    values: &[u8],
    lens: &[usize],
    now: DateTime,
    statuses: &mut [u32],
)
    requires { are_lengths lens.now (length values.now) (length statuses.old) ≡ true }
    ensures { (text : List ℕ) (second : ℤ) → request text second ≡ Ok (url.now, moment_of now)
        → ParsesEach is_strict text second (values_of lens.now values.now) store.old statuses.new store.new }
{
    let mut rest = values;
    for (index, len) in lens.iter().enumerate() {
        let (value, after) = rest.split_at(*len);
        statuses[index] = parse_value(store, is_strict, url, value, now).code();
        rest = after;
    }
}

// Parses a header value received from `url`, and inserts the cookie.
fn parse_value(
    store: &mut CookieStore,
    is_strict: bool,
    url: &Url,
    value: &[u8],
    now: DateTime,
) -> Status
    ensures { (text : List ℕ) (second : ℤ) → request text second ≡ Ok (url.now, moment_of now)
        → ParsesValue is_strict text second value.now store.old result store.new }
{
    match text_in(value) {
        Ok(text) => insert_text(store, is_strict, text, url, now),
        Err(status) => status,
    }
}
