//! The table of `cookies show`.
ghost use Rattle.std.specs.Prelude.{◌≡◌, map, IfOk, OnOk, string_bytes};
ghost use Rattle.std.specs.Str.{NoCharPasses};
ghost use Rattle.cookie_words.specs.Moments.{moment_of};
ghost use Rattle.cookie_parts.specs.Views.{domain_value, expiry_value};
ghost use Rattle.cookies.specs.Cells.{cells_of, domain_cell, expiry_cell, flags_cell, same_site_flag, value_cell, with_flag};
ghost use Rattle.cookies.specs.Escapes.{is_escaped};

use crate::columns::{COLUMNS, Cells, columns};
use crate::escape::{escaped, push_escaped};
use cookie_store::raw::SameSite;
use cookie_store::saved::moment_text;
use cookie_store::{Cookie, CookieDomain, CookieExpiration, CookieStore, Error, RawCookie};
use jiff::civil::DateTime;
use std::alloc::{AllocError, Global};

/// The number of characters of a value that are shown.
const SHOWN_CHARS: usize = 40;

/// The headings of the columns.
const HEADINGS: [&str; COLUMNS] = ["DOMAIN", "PATH", "NAME", "VALUE", "EXPIRES", "FLAGS"];

/// Returns the table of all cookies in the store's order, a heading first.
pub fn table(store: &CookieStore, now: DateTime) -> Result<String, Error> {
    Ok(columns(store.allocator(), &HEADINGS, &rows(store, now)?)?)
}

// Returns a row for each cookie.
fn rows(store: &CookieStore, now: DateTime) -> Result<Vec<Cells>, Error>
    ensures { IfOk result (λ rows. map (map string_bytes) rows.items ≡ map (cells_of (moment_of now)) store.now.rows) }
{
    let alloc = store.allocator();
    let mut rows = Vec::with_capacity(alloc, store.len())?;
    for cookie in store.iter_any() {
        rows.push(row(alloc, cookie, now)?)?;
    }
    Ok(rows)
}

// Returns the cells of a cookie.
fn row(alloc: Global, cookie: &Cookie<'_>, now: DateTime) -> Result<Cells, Error>
    ensures { IfOk result (λ cells. map string_bytes cells ≡ cells_of (moment_of now) cookie.now) }
{
    Ok([
        domain_cell(alloc, &cookie.domain)?,
        escaped(alloc, cookie.path.as_str())?,
        escaped(alloc, cookie.name())?,
        value_cell(alloc, cookie.value())?,
        expiry_cell(alloc, cookie.expires, now)?,
        flags_cell(alloc, cookie.raw())?,
    ])
}

/// Returns a domain, after a dot if it is that of a domain cookie.
pub fn domain_cell(alloc: Global, domain: &CookieDomain) -> Result<String, AllocError>
    ensures value { IfOk result (λ cell. string_bytes cell ≡ domain_cell (domain_value domain.now)) }
    ensures safe { IfOk result (λ cell. NoCharPasses is_escaped (string_bytes cell)) }
{
    let text = escaped(alloc, domain.as_str())?;
    match domain {
        CookieDomain::Suffix(_) => format!(in alloc; ".{text}"),
        _ => Ok(text),
    }
}

// Returns a value. One of more than `SHOWN_CHARS` characters is cut and ends in `…`.
fn value_cell(alloc: Global, value: &str) -> Result<String, AllocError>
    ensures value { IfOk result (λ cell. string_bytes cell ≡ value_cell value.now) }
    ensures safe { IfOk result (λ cell. NoCharPasses is_escaped (string_bytes cell)) }
{
    let mut cell = String::new(alloc);
    let mut count = 0;
    for c in value.chars() {
        if count == SHOWN_CHARS {
            cell.push('…')?;
            return Ok(cell);
        }
        push_escaped(&mut cell, c)?;
        count += 1;
    }
    Ok(cell)
}

/// Returns an expiry, with a mark if it has passed.
pub fn expiry_cell(alloc: Global, expires: CookieExpiration, now: DateTime) -> Result<String, Error>
    ensures { IfOk result (λ cell. string_bytes cell ≡ expiry_cell (moment_of now) (expiry_value expires)) }
{
    let CookieExpiration::AtUtc(moment) = expires else {
        return Ok(String::from_str(alloc, "session")?);
    };
    let mut cell = moment_text(alloc, moment)?;
    if expires.is_expired(now) {
        cell.push_str(" (expired)")?;
    }
    Ok(cell)
}

/// Returns the flags of a cookie between commas, or `-` if it has none.
pub fn flags_cell(alloc: Global, raw: &RawCookie<'_>) -> Result<String, AllocError>
    ensures { IfOk result (λ cell. string_bytes cell ≡ flags_cell raw.now) }
{
    let mut cell = String::new(alloc);
    if raw.is_secure() {
        push_flag(&mut cell, "secure")?;
    }
    if raw.is_http_only() {
        push_flag(&mut cell, "httponly")?;
    }
    if let Some(same_site) = raw.same_site() {
        push_flag(&mut cell, same_site_flag(same_site))?;
    }
    if cell.is_empty() {
        cell.push('-')?;
    }
    Ok(cell)
}

// Appends a flag, after a comma unless it is the first.
fn push_flag(cell: &mut String, flag: &str) -> Result<(), AllocError>
    ensures { OnOk result (string_bytes cell.new ≡ with_flag (string_bytes cell.old) flag.now) }
{
    if !cell.is_empty() {
        cell.push(',')?;
    }
    cell.push_str(flag)
}

fn same_site_flag(same_site: SameSite) -> &'static str
    ensures { result.now ≡ same_site_flag same_site }
{
    match same_site {
        SameSite::Strict => "samesite=strict",
        SameSite::Lax => "samesite=lax",
        SameSite::None => "samesite=none",
    }
}
