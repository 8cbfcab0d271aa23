//! Writes a cookie as a row of the table `cookies`.
ghost use Rattle.std.specs.Option.{option_copied};
ghost use Rattle.std.specs.Prelude.{◌≡◌, ◌↔◌, ◌⊎◌, ◌++◌, ◌∷◌, [], false, option_map, pos, unwrap_or, Err, IfErr, IfOk, IsTrue, OnOk, Some};
ghost use Rattle.jiff.specs.Words.{signed_nanos};
ghost use Rattle.sqlite_value.specs.declared.value.Value.TheVariants as Value;
ghost use Rattle.cookie_words.specs.Moments.{moment_of};
ghost use Rattle.cookie_raw.specs.Raw as Raw;
ghost use Rattle.cookie_raw.specs.Views.{expires_value};
ghost use Rattle.cookie_forms.specs.MomentText.{whole_seconds};
ghost use Rattle.cookie_parts.specs.Domain.{domain_text, kind_of};
ghost use Rattle.cookie_parts.specs.Expiry as Expiry;
ghost use Rattle.cookie_parts.specs.Views as Views;
ghost use Rattle.cookie_parts.specs.Views.{domain_value};
ghost use Rattle.cookie_table.specs.Columns.{age_value, attribute_value, attributes, expiry_value, flag_value, or_null, site_value, table_row, time_value};
ghost use Rattle.cookie_table.specs.FromColumns.{attribute_in, cookie_in, expiry_in, if_any, text_in};
ghost use Rattle.cookie_table.specs.WholeSeconds.{attribute_in_seconds, expiry_in_seconds, has_early_time, in_whole_seconds, is_early, is_early_attribute, is_early_expiry};

use cookie_forms::laws::moments_read_back;
use cookie_forms::{SavedError, moment_bytes};
use cookie_parts::{Cookie, CookieDomain, CookieExpiration, CookiePath};
use cookie_raw::{Expiration, RawCookie, SameSite};
use jiff::SignedDuration;
use jiff::civil::DateTime;
use sqlite_value::row::Row;
use sqlite_value::value::ValueRef;
use std::alloc::{AllocError, Global};

/// The SQL text that creates the table.
///
/// `id` is the creation order. `kind` is 0 for a host-only cookie, 1 for a domain cookie, 2 for one
/// without a Domain attribute and 3 for one with an empty one; the last two match no host. `expiry`
/// is NULL for a session cookie. Times are strings such as `2026-01-31T23:59:59Z`, in UTC.
/// `sameSite` is 0 for `None`, 1 for `Lax` and 2 for `Strict`. NULL is an attribute that is absent,
/// and the empty string an Expires attribute at the end of the session.
pub const CREATE_TABLE: &str =
    "CREATE TABLE cookies (id INTEGER PRIMARY KEY, host TEXT NOT NULL, kind INTEGER NOT NULL, path TEXT NOT NULL, pathFromAttribute INTEGER NOT NULL, name TEXT NOT NULL, value TEXT NOT NULL, expiry TEXT, isSecure INTEGER, isHttpOnly INTEGER, sameSite INTEGER, domainAttribute TEXT, pathAttribute TEXT, maxAge INTEGER, expiresAttribute TEXT)";

/// Returns the row of this rowid that holds the cookie. It reads back as the cookie, with its times
/// cut to whole seconds.
///
/// # Errors
///
/// - `Moment`: the expiry or the Expires attribute is before the year 0. Tested before anything is
///   allocated.
/// - `Memory`: out of memory.
pub fn to_row(alloc: Global, id: i64, cookie: &Cookie<'_>) -> Result<Row, SavedError>
    ensures row { IfOk result (λ row. row ≡ table_row id cookie.now) }
    ensures reads_back { IfOk result (λ row. cookie_in row ≡ Some (in_whole_seconds cookie.now)) }
    ensures early { IsTrue (has_early_time cookie.now) ↔ (result ≡ Err SavedError.Moment) }
    ensures errors { IfErr result (λ e. (e ≡ SavedError.Moment) ⊎ (e ≡ SavedError.Memory)) }
{
    if has_early_time(cookie) {
        return Err(SavedError::Moment);
    }
    Ok(write_row(alloc, id, cookie)?)
}

// Writes the row of a cookie whose times are not before the year 0.
fn write_row(alloc: Global, id: i64, cookie: &Cookie<'_>) -> Result<Row, AllocError>
    requires { has_early_time cookie.now ≡ false }
    ensures row { IfOk result (λ row. row ≡ table_row id cookie.now) }
    ensures back { OnOk result (cookie_in (table_row id cookie.now) ≡ Some (in_whole_seconds cookie.now)) }
{
    let mut row = Row::new(alloc);
    row.push(ValueRef::Int(id))?;
    row.push(ValueRef::Null)?;
    push_domain(&mut row, &cookie.domain)?;
    push_path(&mut row, &cookie.path)?;
    push_pair(&mut row, cookie.raw())?;
    push_expiry(&mut row, cookie.expires)?;
    push_attributes(&mut row, cookie.raw())?;
    Ok(row)
}

// Whether the expiry or the Expires attribute is before the year 0.
fn has_early_time(cookie: &Cookie<'_>) -> bool
    ensures { result ≡ has_early_time cookie.now }
{
    is_early_expiry(cookie.expires) || is_early_attribute(cookie.raw().expires())
}

fn is_early(time: DateTime) -> bool
    ensures { result ≡ is_early (moment_of time) }
{
    time.year() < 0
}

fn is_early_expiry(expires: CookieExpiration) -> bool
    ensures { result ≡ is_early_expiry (Views.expiry_value expires) }
{
    match expires {
        CookieExpiration::AtUtc(end) => is_early(end),
        CookieExpiration::SessionEnd => false,
    }
}

fn is_early_attribute(expires: Option<Expiration>) -> bool
    ensures { result ≡ unwrap_or (option_map is_early_attribute (option_map expires_value expires)) false }
{
    match expires {
        Some(expires) => is_early_end(expires),
        None => false,
    }
}

fn is_early_end(expires: Expiration) -> bool
    ensures { result ≡ is_early_attribute (expires_value expires) }
{
    match expires {
        Expiration::DateTime(end) => is_early(end),
        Expiration::Session => false,
    }
}

// Appends a string.
fn push_text(row: &mut Row, text: &str) -> Result<(), AllocError>
    ensures ok { OnOk result (row.new ≡ row.old ++ Value.Text text.now ∷ []) }
    ensures back { text_in (Value.Text text.now) ≡ Some text.now }
{
    row.push(ValueRef::Text(text.as_bytes()))
}

// Appends an optional string.
fn push_opt_text(row: &mut Row, text: Option<&str>) -> Result<(), AllocError>
    ensures ok { OnOk result (row.new ≡ row.old ++ or_null Value.Text (option_copied text.entry) ∷ []) }
    ensures back { if_any text_in (or_null Value.Text (option_copied text.entry)) ≡ Some (option_copied text.entry) }
{
    match text {
        Some(text) => push_text(row, text),
        None => row.push(ValueRef::Null),
    }
}

// Appends the string and the kind of the domain.
fn push_domain(row: &mut Row, domain: &CookieDomain) -> Result<(), AllocError>
    ensures ok { OnOk result (row.new ≡ row.old ++ Value.Text (domain_text (domain_value domain.now)) ∷ Value.Int (pos (kind_of (domain_value domain.now))) ∷ []) }
    ensures back { text_in (Value.Text (domain_text (domain_value domain.now))) ≡ Some (domain_text (domain_value domain.now)) }
{
    push_text(row, domain.as_str())?;
    row.push(ValueRef::Int(match domain {
        CookieDomain::HostOnly(_) => 0,
        CookieDomain::Suffix(_) => 1,
        CookieDomain::NotPresent => 2,
        CookieDomain::Empty => 3,
    }))
}

// Appends the path, and whether a Path attribute set it.
fn push_path(row: &mut Row, path: &CookiePath) -> Result<(), AllocError>
    ensures ok { OnOk result (row.new ≡ row.old ++ Value.Text path.now.text ∷ flag_value path.now.is_from_attribute ∷ []) }
    ensures back { text_in (Value.Text path.now.text) ≡ Some path.now.text }
{
    push_text(row, path.as_str())?;
    row.push(ValueRef::Int(i64::from(path.is_from_path_attr())))
}

// Appends the name and the value.
fn push_pair(row: &mut Row, raw: &RawCookie<'_>) -> Result<(), AllocError>
    ensures ok { OnOk result (row.new ≡ row.old ++ Value.Text raw.now.name ∷ Value.Text raw.now.value ∷ []) }
    ensures name { OnOk result (text_in (Value.Text raw.now.name) ≡ Some raw.now.name) }
    ensures value { OnOk result (text_in (Value.Text raw.now.value) ≡ Some raw.now.value) }
{
    push_text(row, raw.name())?;
    push_text(row, raw.value())
}

// Appends a time from the year 0 on.
fn push_time(row: &mut Row, time: DateTime) -> Result<(), AllocError>
    requires { is_early (moment_of time) ≡ false }
    ensures ok { OnOk result (row.new ≡ row.old ++ time_value (moment_of time) ∷ []) }
    ensures expiry { expiry_in (time_value (moment_of time)) ≡ Some (Expiry.AtUtc (whole_seconds (moment_of time))) }
    ensures attribute { if_any attribute_in (time_value (moment_of time)) ≡ Some (Some (Raw.At (whole_seconds (moment_of time)))) }
{
    // for the checker: the string is that of the time
    moments_read_back();
    let text = moment_bytes(time);
    row.push(ValueRef::Text(&text))
}

// Appends the expiry, which is not before the year 0.
fn push_expiry(row: &mut Row, expires: CookieExpiration) -> Result<(), AllocError>
    requires { is_early_expiry (Views.expiry_value expires) ≡ false }
    ensures ok { OnOk result (row.new ≡ row.old ++ expiry_value (Views.expiry_value expires) ∷ []) }
    ensures back { expiry_in (expiry_value (Views.expiry_value expires)) ≡ Some (expiry_in_seconds (Views.expiry_value expires)) }
{
    match expires {
        CookieExpiration::AtUtc(end) => push_time(row, end),
        CookieExpiration::SessionEnd => row.push(ValueRef::Null),
    }
}

// Appends an optional flag.
fn push_flag(row: &mut Row, flag: Option<bool>) -> Result<(), AllocError>
    ensures ok { OnOk result (row.new ≡ row.old ++ or_null flag_value flag ∷ []) }
{
    row.push(match flag {
        Some(is_set) => ValueRef::Int(i64::from(is_set)),
        None => ValueRef::Null,
    })
}

// Appends an optional SameSite attribute.
fn push_site(row: &mut Row, site: Option<SameSite>) -> Result<(), AllocError>
    ensures ok { OnOk result (row.new ≡ row.old ++ or_null site_value site ∷ []) }
{
    row.push(match site {
        Some(SameSite::None) => ValueRef::Int(0),
        Some(SameSite::Lax) => ValueRef::Int(1),
        Some(SameSite::Strict) => ValueRef::Int(2),
        None => ValueRef::Null,
    })
}

// Appends an optional Max-Age.
fn push_age(row: &mut Row, age: Option<SignedDuration>) -> Result<(), AllocError>
    ensures ok { OnOk result (row.new ≡ row.old ++ or_null age_value (option_map signed_nanos age) ∷ []) }
{
    row.push(match age {
        Some(age) => ValueRef::Int(age.as_secs()),
        None => ValueRef::Null,
    })
}

// Appends an optional Expires attribute, which is not before the year 0.
fn push_attribute(row: &mut Row, expires: Option<Expiration>) -> Result<(), AllocError>
    requires { unwrap_or (option_map is_early_attribute (option_map expires_value expires)) false ≡ false }
    ensures ok { OnOk result (row.new ≡ row.old ++ or_null attribute_value (option_map expires_value expires) ∷ []) }
    ensures back { if_any attribute_in (or_null attribute_value (option_map expires_value expires)) ≡ Some (option_map attribute_in_seconds (option_map expires_value expires)) }
{
    match expires {
        Some(expires) => push_end(row, expires),
        None => row.push(ValueRef::Null),
    }
}

// Appends an Expires attribute, which is not before the year 0.
fn push_end(row: &mut Row, expires: Expiration) -> Result<(), AllocError>
    requires { is_early_attribute (expires_value expires) ≡ false }
    ensures ok { OnOk result (row.new ≡ row.old ++ attribute_value (expires_value expires) ∷ []) }
    ensures back { if_any attribute_in (attribute_value (expires_value expires)) ≡ Some (Some (attribute_in_seconds (expires_value expires))) }
{
    match expires {
        Expiration::DateTime(end) => push_time(row, end),
        Expiration::Session => push_text(row, ""),
    }
}

// Appends the attributes of a raw cookie whose Expires is not before the year 0.
fn push_attributes(row: &mut Row, raw: &RawCookie<'_>) -> Result<(), AllocError>
    requires { unwrap_or (option_map is_early_attribute raw.now.expires) false ≡ false }
    ensures ok { OnOk result (row.new ≡ row.old ++ attributes raw.now) }
    ensures domain { OnOk result (if_any text_in (or_null Value.Text raw.now.domain) ≡ Some raw.now.domain) }
    ensures path { OnOk result (if_any text_in (or_null Value.Text raw.now.path) ≡ Some raw.now.path) }
    ensures expires { OnOk result (if_any attribute_in (or_null attribute_value raw.now.expires) ≡ Some (option_map attribute_in_seconds raw.now.expires)) }
{
    push_flag(row, raw.secure())?;
    push_flag(row, raw.http_only())?;
    push_site(row, raw.same_site())?;
    push_opt_text(row, raw.domain())?;
    push_opt_text(row, raw.path())?;
    push_age(row, raw.max_age())?;
    push_attribute(row, raw.expires())
}
