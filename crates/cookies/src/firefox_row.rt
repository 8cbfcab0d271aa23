//! A cookie in Firefox's table `moz_cookies`.
ghost use Rattle.std.specs.Prelude.{◌≡◌, ◌*ℤ◌, option_map};
ghost use Rattle.cookie_parts.specs.Expiry.{expiry_of_max_age};
ghost use Rattle.cookie_parts.specs.Views.{expiry_value};
ghost use Rattle.cookie_words.specs.Moments.{epoch};
ghost use Rattle.cookies.specs.FirefoxRows.{expiry_unit, fields_in_row, flag_at, is_isolated, nanoseconds_in, number_at, same_site_in_row, text_at, text_in};

use crate::database_header::byte_at;
use crate::export_item::Fields;
use cookie_store::CookieExpiration;
use cookie_store::raw::SameSite;
use cookie_words::epoch;
use jiff::SignedDuration;
use sqlite::Row;
use sqlite::types::ValueRef;

/// The rows of cookies, the oldest first, with the columns that are read here.
pub const ROWS: &str = "\
SELECT host, path, name, value, expiry, isSecure, isHttpOnly, sameSite, originAttributes
FROM moz_cookies
ORDER BY creationTime";

/// The unit of the expiry times of a file, which are counted from 1970.
#[derive(Clone, Copy, Debug, PartialEq, Eq)]
pub enum ExpiryUnit {
    Seconds,
    Milliseconds,
}

impl ExpiryUnit {
    /// Returns the unit of a file: seconds up to version 15 of the schema, milliseconds from then on. SQLite
    /// keeps this version, the `user_version`, in four bytes of the file at 60, the highest first.
    pub fn of_file(contents: &[u8]) -> ExpiryUnit
        ensures { result ≡ expiry_unit contents.now }
    {
        let is_below_256 = byte_at(contents, 60) == 0
            && byte_at(contents, 61) == 0
            && byte_at(contents, 62) == 0;
        if is_below_256 && byte_at(contents, 63) < 16 {
            ExpiryUnit::Seconds
        } else {
            ExpiryUnit::Milliseconds
        }
    }

    // Returns the expiry at a time.
    fn expiry_at(self, time: i64) -> CookieExpiration
        ensures { expiry_value result ≡ expiry_of_max_age (time *ℤ nanoseconds_in self) epoch }
    {
        let age = match self {
            ExpiryUnit::Seconds => SignedDuration::from_secs(time),
            ExpiryUnit::Milliseconds => SignedDuration::from_millis(time),
        };
        CookieExpiration::from_duration(age, epoch())
    }
}

/// Returns whether the cookie is isolated, to a partition or to a container: sent only with the requests of one
/// site's pages, or of one container's tabs.
pub fn is_isolated(row: &Row) -> bool
    ensures { result ≡ is_isolated row.now }
{
    text_at(row, 8) != Some("")
}

/// Reads the fields of a row. Returns `None` if a column but `sameSite` has the wrong type.
#[tactic(auto, unfolding(crate::specs::FirefoxRows::fields_in_row))]
pub fn fields_in_row(row: &Row, unit: ExpiryUnit) -> Option<Fields<'_>>
    ensures { result ≡ fields_in_row unit row.now }
{
    // without a text no row says whether its cookie is isolated
    text_at(row, 8)?;
    let domain = text_at(row, 0)?;
    let is_secure = flag_at(row, 5)?;
    Some(Fields {
        domain,
        is_host_only: !domain.starts_with('.'),
        path: text_at(row, 1)?,
        name: text_at(row, 2)?,
        value: text_at(row, 3)?,
        expires: unit.expiry_at(number_at(row, 4)?),
        is_secure,
        is_http_only: flag_at(row, 6)?,
        same_site: same_site(row, is_secure),
    })
}

// Returns SameSite, of which any other number, such as 256, stands for a cookie without it. Browsers reject
// cookies with SameSite=None that are not Secure, and older versions of Firefox write 0 for cookies without it.
fn same_site(row: &Row, is_secure: bool) -> Option<SameSite>
    ensures { result ≡ same_site_in_row is_secure row.now }
{
    match number_at(row, 7)? {
        0 if is_secure => Some(SameSite::None),
        1 => Some(SameSite::Lax),
        2 => Some(SameSite::Strict),
        _ => None,
    }
}

// Returns the text in a column.
fn text_at(row: &Row, column: usize) -> Option<&str>
    ensures { option_map (λ text. text.now) result ≡ text_at column row.now }
{
    match row.get_ref(column) {
        Ok(ValueRef::Text(bytes)) => text_in(bytes),
        _ => None,
    }
}

// Returns the text of bytes, if they are UTF-8.
fn text_in(bytes: &[u8]) -> Option<&str>
    ensures { option_map (λ text. text.now) result ≡ text_in bytes.now }
{
    match str::from_utf8(bytes) {
        Ok(text) => Some(text),
        Err(_) => None,
    }
}

// Returns whether the number in a column is not 0.
fn flag_at(row: &Row, column: usize) -> Option<bool>
    ensures { result ≡ flag_at column row.now }
{
    match number_at(row, column)? {
        0 => Some(false),
        _ => Some(true),
    }
}

// Returns the number in a column.
fn number_at(row: &Row, column: usize) -> Option<i64>
    ensures { result ≡ number_at column row.now }
{
    match row.get_ref(column) {
        Ok(ValueRef::Int(number)) => Some(number),
        _ => None,
    }
}
