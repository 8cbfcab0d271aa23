//! Reads the values of a row.
ghost use Rattle.std.specs.Option.{option_copied};
ghost use Rattle.std.specs.Prelude.{◌≡◌, option_map};
ghost use Rattle.jiff.specs.Words.{signed_nanos};
ghost use Rattle.sqlite_value.specs.declared.value.Value.TheVariants as Value;
ghost use Rattle.sqlite_value.specs.Order.{column};
ghost use Rattle.cookie_raw.specs.Views.{expires_value};
ghost use Rattle.cookie_parts.specs.Views.{expiry_value};
ghost use Rattle.cookie_table.specs.FromColumns.{age_in, attribute_in, expiry_in, flag_in, if_any, is_null, number_in, site_in, text_in};

use cookie_forms::read_moment;
use cookie_parts::CookieExpiration;
use cookie_raw::{Expiration, SameSite};
use jiff::SignedDuration;
use jiff::civil::DateTime;
use sqlite_value::row::Row;
use sqlite_value::value::ValueRef;

// Whether the value is NULL, which stands for an absent part.
fn is_null(row: &Row, at: usize) -> bool
    ensures { result ≡ is_null (column row.now at) }
{
    matches!(row.get(at), ValueRef::Null)
}

/// Reads a string.
pub(crate) fn text_at(row: &Row, at: usize) -> Option<&str>
    ensures { option_copied result ≡ text_in (column row.now at) }
{
    match row.get(at) {
        ValueRef::Text(bytes) => text_of(bytes),
        _ => None,
    }
}

// The string of these bytes, if they are UTF-8.
fn text_of(bytes: &[u8]) -> Option<&str>
    ensures { option_copied result ≡ text_in (Value.Text bytes.now) }
{
    match str::from_utf8(bytes) {
        Ok(text) => Some(text),
        Err(_) => None,
    }
}

/// Reads a natural number.
pub(crate) fn number_at(row: &Row, at: usize) -> Option<u64>
    ensures { result ≡ number_in (column row.now at) }
{
    match row.get(at) {
        ValueRef::Int(number) => u64::try_from(number).ok(),
        _ => None,
    }
}

/// Reads a flag.
pub(crate) fn flag_at(row: &Row, at: usize) -> Option<bool>
    ensures { result ≡ flag_in (column row.now at) }
{
    match number_at(row, at)? {
        0 => Some(false),
        1 => Some(true),
        _ => None,
    }
}

// Reads a SameSite attribute.
fn site_at(row: &Row, at: usize) -> Option<SameSite>
    ensures { result ≡ site_in (column row.now at) }
{
    match number_at(row, at)? {
        0 => Some(SameSite::None),
        1 => Some(SameSite::Lax),
        2 => Some(SameSite::Strict),
        _ => None,
    }
}

// Reads a Max-Age attribute.
fn age_at(row: &Row, at: usize) -> Option<SignedDuration>
    ensures { option_map signed_nanos result ≡ age_in (column row.now at) }
{
    match row.get(at) {
        ValueRef::Int(seconds) => Some(SignedDuration::from_secs(seconds)),
        _ => None,
    }
}

// Reads an Expires attribute.
fn attribute_at(row: &Row, at: usize) -> Option<Expiration>
    ensures { option_map expires_value result ≡ attribute_in (column row.now at) }
{
    let text = text_at(row, at)?;
    if text.is_empty() {
        return Some(Expiration::Session);
    }
    Some(Expiration::DateTime(read_moment(text)?))
}

/// Reads an expiry.
pub(crate) fn expiry_at(row: &Row, at: usize) -> Option<CookieExpiration>
    ensures { option_map expiry_value result ≡ expiry_in (column row.now at) }
{
    if is_null(row, at) {
        return Some(CookieExpiration::SessionEnd);
    }
    Some(CookieExpiration::AtUtc(read_moment(text_at(row, at)?)?))
}

/// Reads an optional string.
pub(crate) fn opt_text_at(row: &Row, at: usize) -> Option<Option<&str>>
    ensures { option_map option_copied result ≡ if_any text_in (column row.now at) }
{
    if is_null(row, at) {
        return Some(None);
    }
    Some(Some(text_at(row, at)?))
}

/// Reads an optional flag.
pub(crate) fn opt_flag_at(row: &Row, at: usize) -> Option<Option<bool>>
    ensures { result ≡ if_any flag_in (column row.now at) }
{
    if is_null(row, at) {
        return Some(None);
    }
    Some(Some(flag_at(row, at)?))
}

/// Reads an optional SameSite attribute.
pub(crate) fn opt_site_at(row: &Row, at: usize) -> Option<Option<SameSite>>
    ensures { result ≡ if_any site_in (column row.now at) }
{
    if is_null(row, at) {
        return Some(None);
    }
    Some(Some(site_at(row, at)?))
}

/// Reads an optional Max-Age attribute.
pub(crate) fn opt_age_at(row: &Row, at: usize) -> Option<Option<SignedDuration>>
    ensures { option_map (option_map signed_nanos) result ≡ if_any age_in (column row.now at) }
{
    if is_null(row, at) {
        return Some(None);
    }
    Some(Some(age_at(row, at)?))
}

/// Reads an optional Expires attribute.
pub(crate) fn opt_attribute_at(row: &Row, at: usize) -> Option<Option<Expiration>>
    ensures { option_map (option_map expires_value) result ≡ if_any attribute_in (column row.now at) }
{
    if is_null(row, at) {
        return Some(None);
    }
    Some(Some(attribute_at(row, at)?))
}
