//! Lists the cookies of a request.
ghost use Rattle.std.specs.Prelude.{◌≡◌, ◌⊎◌, map, Err, IsOk};
ghost use Rattle.std.specs.Result.{result_map_both};
ghost use Rattle.cookie_store_c.specs.CookieRows.{IsRequestRows, WritesSomeRows};
ghost use Rattle.cookie_store_c.specs.Inputs.{request, text_and_time};

use crate::cookie_row::{CookieRow, write_rows};
use crate::header::header_cookies;
use crate::inputs::request;
use crate::status::Status;
use cookie_store::strict::Context;
use cookie_store::{Cookie, CookieStore};
use std::alloc::Global;

/// Writes the cookies of a request for `url`, in the order of the Cookie header, into `rows`, and
/// their strings, one after the other, into `strings`. With a context it leaves out the cookies that the
/// request must not have.
pub(crate) fn write_request_rows(
    alloc: Global,
    store: &CookieStore,
    context: Option<Context>,
    url: &[u8],
    now: i64,
    rows: &mut [CookieRow],
    strings: &mut [u8],
    rows_needed: &mut usize,
    strings_needed: &mut usize,
) -> Status
    ensures { WritesSomeRows (IsRequestRows context store.now (request url.now now)) (IsOk (text_and_time url.now now)) rows.old strings.old
        (record { status = result; rows = rows.new; strings = strings.new; rows_needed = rows_needed.new; strings_needed = strings_needed.new }) }
{
    (*rows_needed, *strings_needed) = (0, 0);
    match request_cookies(alloc, store, context, url, now) {
        Ok(cookies) => write_rows(
            store,
            &cookies,
            true,
            rows,
            strings,
            rows_needed,
            strings_needed,
        ),
        Err(status) => status,
    }
}

// Returns the cookies of a request for `url`, in the order of the Cookie header.
fn request_cookies<'s>(
    alloc: Global,
    store: &'s CookieStore,
    context: Option<Context>,
    url: &[u8],
    now: i64,
) -> Result<Vec<&'s Cookie<'static>>, Status>
    ensures { IsRequestRows context store.now (request url.now now) (result_map_both (λ cookies. map (λ c. c.now) cookies.items) (λ status. status) result)
        ⊎ ((result ≡ Err Status.NoMemory) × IsOk (text_and_time url.now now)) }
{
    let (url, now) = request(alloc, url, now)?;
    match header_cookies(store, context, &url, now) {
        Ok(cookies) => Ok(cookies),
        Err(_) => Err(Status::NoMemory),
    }
}
