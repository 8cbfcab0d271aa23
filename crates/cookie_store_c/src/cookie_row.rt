//! Lists cookies, as a cookie editor shows them.
ghost use Rattle.std.specs.Prelude.{◌≡◌, ◌⊎◌, ◌^◌, ◌≤◌, flat_map, length, map};
ghost use Rattle.std.specs.Option.{MatchOption};
ghost use Rattle.cookie_parts.specs.Views.{expiry_value};
ghost use Rattle.cookie_store_c.specs.Buffers.{at_start};
ghost use Rattle.cookie_store_c.specs.CookieRows.{expiry_second, nothing_written, row_strings, same_site_code, cookie_row, rows_outcome, IsTooLong};
ghost use Rattle.cookie_store_c.specs.RowIters.{chosen_rows, remaining_rows};
ghost use Rattle.cookie_store_c.specs.declared.status.Status.TheVariants.{NoMemory};

use crate::buffer::{put_all, with_lengths};
use crate::row_iter::{RowIter, row_count};
use crate::status::Status;
use cookie_store::raw::SameSite;
use cookie_store::{Cookie, CookieDomain, CookieExpiration, CookieStore};
use cookie_words::epoch_second;

/// A cookie without its strings, which are stored elsewhere: domain, path, name, value.
///
/// Each C `bool` is a byte here, 0 or 1, since a caller may pass any byte.
#[repr(C)]
#[derive(Clone, Copy)]
pub struct CookieRow {
    pub domain_len: usize,
    pub path_len: usize,
    pub name_len: usize,
    pub value_len: usize,
    /// The second in which it expires, counted from the epoch; 0 for a session cookie.
    pub expires: i64,
    pub persistent: u8,
    pub host_only: u8,
    /// Whether the path is that of a Path attribute.
    pub has_path: u8,
    pub secure: u8,
    pub http_only: u8,
    /// The number of the SameSite attribute in `cookie_store.h`; 0 without one.
    pub same_site: u32,
}

/// Writes the cookies of a request, or else all those of the store, into `rows`, and their strings,
/// one after the other, into `strings`.
pub(crate) fn write_rows<'a>(
    store: &'a CookieStore,
    request: &'a [&'a Cookie<'static>],
    is_request: bool,
    rows: &mut [CookieRow],
    strings: &mut [u8],
    rows_needed: &mut usize,
    strings_needed: &mut usize,
) -> Status
    ensures { (record { status = result; rows = rows.new; strings = strings.new; rows_needed = rows_needed.new; strings_needed = strings_needed.new }
        ≡ rows_outcome (chosen_rows store.now (map (λ c. c.now) request.now) is_request) rows.old strings.old)
        ⊎ (IsTooLong (chosen_rows store.now (map (λ c. c.now) request.now) is_request)
        × (record { status = result; rows = rows.new; strings = strings.new; rows_needed = rows_needed.new; strings_needed = strings_needed.new }
        ≡ nothing_written NoMemory rows.old strings.old)) }
{
    (*rows_needed, *strings_needed) = (0, 0);
    let Some(length) = strings_len(RowIter::new(store, request, is_request)) else {
        return Status::NoMemory;
    };
    let count = row_count(store, request, is_request);
    (*rows_needed, *strings_needed) = (count, length);
    if rows.len() < count || strings.len() < length {
        return Status::NoRoom;
    }
    put_rows(RowIter::new(store, request, is_request), rows);
    put_strings(RowIter::new(store, request, is_request), strings);
    Status::Done
}

// Returns the total length of the strings of all rows, or `None` on overflow.
fn strings_len(all: RowIter<'_>) -> Option<usize>
    ensures { MatchOption result (2 ^ 64 ≤ length (flat_map row_strings (remaining_rows all.entry))) (λ n. n ≡ length (flat_map row_strings (remaining_rows all.entry))) }
{
    let mut total = 0;
    for row in all {
        total = with_lengths(
            total,
            &[
                row.domain.as_str(),
                row.path.as_str(),
                row.name(),
                row.value(),
            ],
        )?;
    }
    Some(total)
}

// Writes the strings of all rows to the start of the buffer.
fn put_strings(all: RowIter<'_>, strings: &mut [u8])
    requires { length (flat_map row_strings (remaining_rows all)) ≤ length strings.old }
    ensures { strings.new ≡ at_start (flat_map row_strings (remaining_rows all.entry)) strings.old }
{
    let mut place = 0;
    for row in all {
        place = put_all(
            strings,
            place,
            &[
                row.domain.as_str(),
                row.path.as_str(),
                row.name(),
                row.value(),
            ],
        );
    }
}

// Writes all rows to the start of the buffer.
fn put_rows(all: RowIter<'_>, rows: &mut [CookieRow])
    requires { length (remaining_rows all) ≤ length rows.old }
    ensures { rows.new ≡ at_start (map cookie_row (remaining_rows all.entry)) rows.old }
{
    let mut place = 0;
    for row in all {
        rows[place] = reported(row);
        place += 1;
    }
}

fn reported(row: &Cookie<'static>) -> CookieRow
    ensures { result ≡ cookie_row row.now }
{
    CookieRow {
        domain_len: row.domain.as_str().len(),
        path_len: row.path.as_str().len(),
        name_len: row.name().len(),
        value_len: row.value().len(),
        expires: expiry_second(&row.expires),
        persistent: u8::from(row.is_persistent()),
        host_only: u8::from(matches!(row.domain, CookieDomain::HostOnly(_))),
        has_path: u8::from(row.path.is_from_path_attr()),
        secure: u8::from(row.is_secure()),
        http_only: u8::from(row.is_http_only()),
        same_site: same_site_code(row.same_site()),
    }
}

// Returns the number of a SameSite attribute in `cookie_store.h`.
fn same_site_code(same_site: Option<SameSite>) -> u32
    ensures { result ≡ same_site_code same_site }
{
    match same_site {
        None => 0,
        Some(SameSite::Strict) => 1,
        Some(SameSite::Lax) => 2,
        Some(SameSite::None) => 3,
    }
}

fn expiry_second(end: &CookieExpiration) -> i64
    ensures { result ≡ expiry_second (expiry_value end.now) }
{
    match end {
        CookieExpiration::AtUtc(moment) => epoch_second(*moment),
        CookieExpiration::SessionEnd => 0,
    }
}
