//! Printing a raw cookie as a Set-Cookie header value, RFC 6265 4.1.1.
ghost use Rattle.std.specs.Prelude.{◌≡◌, ◌-◌, ◌<◌, ◌++◌, false, [], codes, get_or, pos, ◌≤ℤ◌, unsigned_abs, option_map, option_and_then, unwrap_or, None, IfOk, string_bytes, Some};
ghost use Rattle.std.specs.Fmt.{WritesOnOk, WritesStyledOnOk};
ghost use Rattle.std.specs.Option.{option_copied};
ghost use Rattle.jiff.specs.Words.{signed_nanos, monday_zero, weekday_of, IsBetween};
ghost use Rattle.cookie_words.specs.Moments.{moment_of};
ghost use Rattle.cookie_raw.specs.CookieDate.{month_names};
ghost use Rattle.cookie_raw.specs.CookieText.{age_text, cookie_text, rfc1123_date, day_names, expires_text, flag, four_digits, is_for_all_sites, optional, site_text, two_digits, WritesNothing};
ghost use Rattle.cookie_raw.specs.Raw.{At};
ghost use Rattle.cookie_raw.specs.Views.{expires_value};

use crate::{Expiration, RawCookie, SameSite};
use itoa::Buffer;
use jiff::SignedDuration;
use jiff::civil::{DateTime, Weekday};
use std::alloc::{AllocError, Global};
use std::fmt;

/// Whether SameSite is `None`.
pub(crate) fn is_for_all_sites(same_site: Option<SameSite>) -> bool
    ensures { result ≡ is_for_all_sites same_site }
{
    matches!(same_site, Some(SameSite::None))
}

fn site_name(same_site: SameSite) -> &'static str
    ensures { result.now ≡ site_text same_site }
{
    match same_site {
        SameSite::Strict => "Strict",
        SameSite::Lax => "Lax",
        SameSite::None => "None",
    }
}

fn day_name(day: Weekday) -> &'static str
    ensures { result.now ≡ get_or day_names (monday_zero day) [] }
{
    match day {
        Weekday::Monday => "Mon",
        Weekday::Tuesday => "Tue",
        Weekday::Wednesday => "Wed",
        Weekday::Thursday => "Thu",
        Weekday::Friday => "Fri",
        Weekday::Saturday => "Sat",
        Weekday::Sunday => "Sun",
    }
}

fn month_name(month: i8) -> &'static str
    requires { IsBetween (pos 1) (pos 12) month }
    ensures { result.now ≡ get_or month_names (unsigned_abs month - 1) [] }
{
    match month {
        1 => "Jan",
        2 => "Feb",
        3 => "Mar",
        4 => "Apr",
        5 => "May",
        6 => "Jun",
        7 => "Jul",
        8 => "Aug",
        9 => "Sep",
        10 => "Oct",
        11 => "Nov",
        _ => "Dec",
    }
}

fn write_two_digits<W: fmt::Write>(f: &mut fmt::Formatter<W>, number: u8) -> fmt::Result
    requires { number < 100 }
    ensures writes { WritesOnOk W.write_str_gives f.old result (two_digits number) f.new }
    ensures styled { WritesStyledOnOk W.write_str_gives f.old result (two_digits number) f.new }
{
    f.write_char((b'0' + number / 10) as char)?;
    f.write_char((b'0' + number % 10) as char)
}

fn write_year<W: fmt::Write>(f: &mut fmt::Formatter<W>, year: i16) -> fmt::Result
    requires { IsBetween (pos 0) (pos 9999) year }
    ensures writes { WritesOnOk W.write_str_gives f.old result (four_digits (unsigned_abs year)) f.new }
    ensures styled { WritesStyledOnOk W.write_str_gives f.old result (four_digits (unsigned_abs year)) f.new }
{
    write_two_digits(f, (year / 100) as u8)?;
    write_two_digits(f, (year % 100) as u8)
}

// Writes the day of the week and of the month, as `Tue, 03`.
fn write_day<W: fmt::Write>(f: &mut fmt::Formatter<W>, date: DateTime) -> fmt::Result
    ensures writes { WritesOnOk W.write_str_gives f.old result
        (get_or day_names (weekday_of date.date) [] ++ codes ", " ++ two_digits date.date.day) f.new }
    ensures styled { WritesStyledOnOk W.write_str_gives f.old result
        (get_or day_names (weekday_of date.date) [] ++ codes ", " ++ two_digits date.date.day) f.new }
{
    f.write_str(day_name(date.weekday()))?;
    f.write_str(", ")?;
    write_two_digits(f, date.day() as u8)
}

// Writes the month and the year, as `Aug 2100`.
fn write_month<W: fmt::Write>(f: &mut fmt::Formatter<W>, date: DateTime) -> fmt::Result
    requires { pos 0 ≤ℤ date.date.year }
    ensures writes { WritesOnOk W.write_str_gives f.old result
        (get_or month_names (date.date.month - 1) [] ++ codes " " ++ four_digits (unsigned_abs date.date.year)) f.new }
    ensures styled { WritesStyledOnOk W.write_str_gives f.old result
        (get_or month_names (date.date.month - 1) [] ++ codes " " ++ four_digits (unsigned_abs date.date.year)) f.new }
{
    f.write_str(month_name(date.month()))?;
    f.write_str(" ")?;
    write_year(f, date.year())
}

// Writes the time, as `00:38:37`.
fn write_clock<W: fmt::Write>(f: &mut fmt::Formatter<W>, date: DateTime) -> fmt::Result
    ensures writes { WritesOnOk W.write_str_gives f.old result
        (two_digits date.time.hour ++ codes ":" ++ two_digits date.time.minute
        ++ codes ":" ++ two_digits date.time.second) f.new }
    ensures styled { WritesStyledOnOk W.write_str_gives f.old result
        (two_digits date.time.hour ++ codes ":" ++ two_digits date.time.minute
        ++ codes ":" ++ two_digits date.time.second) f.new }
{
    write_two_digits(f, date.hour() as u8)?;
    f.write_str(":")?;
    write_two_digits(f, date.minute() as u8)?;
    f.write_str(":")?;
    write_two_digits(f, date.second() as u8)
}

// Writes the date and time, as `Tue, 03 Aug 2100 00:38:37 GMT`.
fn write_date<W: fmt::Write>(f: &mut fmt::Formatter<W>, date: DateTime) -> fmt::Result
    requires { pos 0 ≤ℤ date.date.year }
    ensures writes { WritesOnOk W.write_str_gives f.old result (rfc1123_date (moment_of date)) f.new }
    ensures styled { WritesStyledOnOk W.write_str_gives f.old result (rfc1123_date (moment_of date)) f.new }
{
    write_day(f, date)?;
    f.write_str(" ")?;
    write_month(f, date)?;
    f.write_str(" ")?;
    write_clock(f, date)?;
    f.write_str(" GMT")
}

// Writes an attribute without a value, if it is set.
fn write_flag<W: fmt::Write>(f: &mut fmt::Formatter<W>, label: &str, is_set: bool) -> fmt::Result
    ensures writes { WritesOnOk W.write_str_gives f.old result (flag label.now is_set) f.new }
    ensures styled { WritesStyledOnOk W.write_str_gives f.old result (flag label.now is_set) f.new }
    ensures idle { is_set ≡ false → WritesNothing f.old result f.new }
{
    if is_set { f.write_str(label) } else { Ok(()) }
}

// Writes an attribute and its value, if there is one.
fn write_part<W: fmt::Write>(
    f: &mut fmt::Formatter<W>,
    label: &str,
    value: Option<&str>,
) -> fmt::Result
    ensures writes { WritesOnOk W.write_str_gives f.old result (optional label.now (option_copied value.entry)) f.new }
    ensures styled { WritesStyledOnOk W.write_str_gives f.old result (optional label.now (option_copied value.entry)) f.new }
    ensures idle { option_copied value.entry ≡ None → WritesNothing f.old result f.new }
{
    match value {
        Some(value) => {
            f.write_str(label)?;
            f.write_str(value)
        }
        None => Ok(()),
    }
}

fn write_site<W: fmt::Write>(f: &mut fmt::Formatter<W>, site: Option<SameSite>) -> fmt::Result
    ensures writes { WritesOnOk W.write_str_gives f.old result
        (optional (codes "; SameSite=") (option_map site_text site)) f.new }
    ensures styled { WritesStyledOnOk W.write_str_gives f.old result
        (optional (codes "; SameSite=") (option_map site_text site)) f.new }
    ensures idle { site ≡ None → WritesNothing f.old result f.new }
{
    match site {
        Some(site) => {
            f.write_str("; SameSite=")?;
            f.write_str(site_name(site))
        }
        None => Ok(()),
    }
}

fn write_age<W: fmt::Write>(f: &mut fmt::Formatter<W>, age: Option<SignedDuration>) -> fmt::Result
    ensures writes { WritesOnOk W.write_str_gives f.old result
        (optional (codes "; Max-Age=") (option_map age_text (option_map signed_nanos age))) f.new }
    ensures styled { WritesStyledOnOk W.write_str_gives f.old result
        (optional (codes "; Max-Age=") (option_map age_text (option_map signed_nanos age))) f.new }
    ensures idle { age ≡ None → WritesNothing f.old result f.new }
{
    match age {
        Some(age) => {
            f.write_str("; Max-Age=")?;
            f.write_str(Buffer::new().format(age.as_secs()))
        }
        None => Ok(()),
    }
}

// Writes Expires, unless its year is before 0, which four digits cannot write.
fn write_moment<W: fmt::Write>(f: &mut fmt::Formatter<W>, date: DateTime) -> fmt::Result
    ensures writes { WritesOnOk W.write_str_gives f.old result
        (optional (codes "; Expires=") (expires_text (At (moment_of date)))) f.new }
    ensures styled { WritesStyledOnOk W.write_str_gives f.old result
        (optional (codes "; Expires=") (expires_text (At (moment_of date)))) f.new }
    ensures idle { expires_text (At (moment_of date)) ≡ None → WritesNothing f.old result f.new }
{
    if date.year() < 0 {
        return Ok(());
    }
    f.write_str("; Expires=")?;
    write_date(f, date)
}

fn write_expiration<W: fmt::Write>(f: &mut fmt::Formatter<W>, expires: Expiration) -> fmt::Result
    ensures writes { WritesOnOk W.write_str_gives f.old result
        (optional (codes "; Expires=") (expires_text (expires_value expires))) f.new }
    ensures styled { WritesStyledOnOk W.write_str_gives f.old result
        (optional (codes "; Expires=") (expires_text (expires_value expires))) f.new }
    ensures idle { expires_text (expires_value expires) ≡ None → WritesNothing f.old result f.new }
{
    match expires {
        Expiration::DateTime(date) => write_moment(f, date),
        Expiration::Session => Ok(()),
    }
}

fn write_expires<W: fmt::Write>(
    f: &mut fmt::Formatter<W>,
    expires: Option<Expiration>,
) -> fmt::Result
    ensures writes { WritesOnOk W.write_str_gives f.old result
        (optional (codes "; Expires=") (option_and_then expires_text (option_map expires_value expires))) f.new }
    ensures styled { WritesStyledOnOk W.write_str_gives f.old result
        (optional (codes "; Expires=") (option_and_then expires_text (option_map expires_value expires))) f.new }
    ensures idle { option_and_then expires_text (option_map expires_value expires) ≡ None → WritesNothing f.old result f.new }
{
    match expires {
        Some(expires) => write_expiration(f, expires),
        None => Ok(()),
    }
}

// Writes the name and the value, then HttpOnly, SameSite and Secure.
fn write_pair<W: fmt::Write>(f: &mut fmt::Formatter<W>, cookie: &RawCookie<'_>) -> fmt::Result
    ensures writes { WritesOnOk W.write_str_gives f.old result
        (cookie.now.name ++ codes "=" ++ cookie.now.value
        ++ flag (codes "; HttpOnly") (unwrap_or cookie.now.http_only false)
        ++ optional (codes "; SameSite=") (option_map site_text cookie.now.same_site)
        ++ flag (codes "; Secure") (unwrap_or cookie.now.secure (is_for_all_sites cookie.now.same_site))) f.new }
    ensures styled { WritesStyledOnOk W.write_str_gives f.old result
        (cookie.now.name ++ codes "=" ++ cookie.now.value
        ++ flag (codes "; HttpOnly") (unwrap_or cookie.now.http_only false)
        ++ optional (codes "; SameSite=") (option_map site_text cookie.now.same_site)
        ++ flag (codes "; Secure") (unwrap_or cookie.now.secure (is_for_all_sites cookie.now.same_site))) f.new }
{
    let same_site = cookie.same_site();
    let secure = cookie.secure().unwrap_or(is_for_all_sites(same_site));
    f.write_str(cookie.name())?;
    f.write_str("=")?;
    f.write_str(cookie.value())?;
    write_flag(f, "; HttpOnly", cookie.http_only().unwrap_or(false))?;
    write_site(f, same_site)?;
    write_flag(f, "; Secure", secure)
}

impl<'a> RawCookie<'a> {
    /// Returns the cookie as a Set-Cookie header value, RFC 6265 4.1.1, such as
    /// `a=1; HttpOnly; Path=/; Max-Age=5; Expires=Tue, 03 Aug 2100 00:38:37 GMT`.
    ///
    /// The name and the value come first, then the attributes that are set, in the order HttpOnly,
    /// SameSite, Secure, Path, Domain, Max-Age, Expires. Fails only if out of memory.
    ///
    /// - HttpOnly and Secure are printed if true, Secure also if unset while SameSite is `None`.
    /// - Max-Age is printed in whole seconds; a fraction is cut off.
    /// - Expires is left out for `Expiration::Session` and for years before 0.
    pub fn to_text(&self, alloc: Global) -> Result<String, AllocError>
        ensures { IfOk result (λ text. string_bytes text ≡ cookie_text self.now) }
    {
        self.to_string(alloc)
    }
}

/// Prints what [`to_text`](RawCookie::to_text) returns. A width and other format options have no
/// effect.
impl<'a> fmt::Display for RawCookie<'a> {
    ghost output = { λ cookie. Some (cookie_text cookie) };

    ghost styled_output = { λ cookie _. Some (cookie_text cookie) };

    fn fmt<W: fmt::Write>(&self, f: &mut fmt::Formatter<W>) -> fmt::Result {
        write_pair(f, self)?;
        write_part(f, "; Path=", self.path())?;
        write_part(f, "; Domain=", self.domain())?;
        write_age(f, self.max_age())?;
        write_expires(f, self.expires())
    }
}
