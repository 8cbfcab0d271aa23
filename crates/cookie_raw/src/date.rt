//! Cookie-dates, RFC 6265 5.1.1.
ghost use Rattle.std.specs.Prelude.{◌≡◌, ◌^◌, ◌<◌, ◌≤◌, take, option_map, IfSome};
ghost use Rattle.std.specs.Char.{is_ascii_digit};
ghost use Rattle.std.specs.List.{position, prefix_len};
ghost use Rattle.std.specs.Option.{option_copied};
ghost use Rattle.std.specs.Str.{str_eq_ignore_ascii_case};
ghost use Rattle.cookie_words.specs.Moments.{moment_of};
ghost use Rattle.cookie_raw.specs.CookieDate.{is_delimiter, number_at, after_colon, time_of, day_of, month_names, month_of, full_year, year_of, moment_of_parts, cookie_date, DateParts, TimeParts};
ghost use Rattle.cookie_raw.specs.DateSteps.{with_token};

use cookie_words::{calendar_date, clock_time, digits_value};
use jiff::civil::DateTime;
use std::marker::Model;

const MONTH_NAMES: [[u8; 3]; 12] = [
    *b"Jan", *b"Feb", *b"Mar", *b"Apr", *b"May", *b"Jun", *b"Jul", *b"Aug", *b"Sep", *b"Oct",
    *b"Nov", *b"Dec",
];

/// Parses a cookie-date, RFC 6265 5.1.1. A time zone in it is ignored: the result is in UTC.
///
/// The date has, in any order, a time such as `08:49:37`, a day of the month, a month and a year.
/// Of the month only the first three letters count, in any case. A year of 70 to 99 means 1970 to
/// 1999, and one of 0 to 69 means 2000 to 2069.
///
/// Returns `None` if one of these is missing, if the year is before 1601, or if there is no such
/// day or time.
pub fn read_date(text: &str) -> Option<DateTime>
    ensures { option_map moment_of result ≡ cookie_date text.now }
{
    let mut found = Found {
        time: None,
        day: None,
        month: None,
        year: None,
    };
    for token in text
        .as_bytes()
        .split(|byte| is_delimiter(*byte))
        .filter(|token| !token.is_empty())
    {
        found.take(token);
    }
    found.moment()
}

// The parts of a date found so far.
#[derive(Drop)]
struct Found {
    time: Option<TimeOfDay>,
    day: Option<u32>,
    month: Option<u32>,
    year: Option<u32>,
}

impl Model for Found {
    ghost Value = { DateParts };

    ghost view = { λ found. record {
      time = found.time;
      day = found.day;
      month = found.month;
      year = found.year;
    } };

    ghost invariant = { λ found.
        IfSome found.day (λ day. day < 100)
        × IfSome found.month (λ month. month < 100)
        × IfSome found.year (λ year. year < 10_000) };
}

impl Found {
    // Sets the first part that is still missing and whose form the token has, if there is one.
    fn take(&mut self, token: &[u8])
        ensures { self.new ≡ with_token self.old token.now }
    {
        if self.time.is_none()
            && let Some(time) = time(token)
        {
            self.time = Some(time);
        } else if self.day.is_none()
            && let Some(day) = day(token)
        {
            self.day = Some(day);
        } else if self.month.is_none()
            && let Some(month) = month(token)
        {
            self.month = Some(month);
        } else if self.year.is_none()
            && let Some(year) = year(token)
        {
            self.year = Some(year);
        }
    }

    // Returns the date and time, or `None` if a part is missing or out of range.
    #[tactic(auto, unfolding(crate::specs::CookieDate::moment_of_parts))]
    fn moment(self) -> Option<DateTime>
        ensures { option_map moment_of result ≡ moment_of_parts self }
    {
        let time = self.time?;
        let day = self.day?;
        let month = self.month?;
        let year = self.year?;
        if year < 1601 {
            return None;
        }
        let date = calendar_date(year, month, day)?;
        let time = clock_time(time.hour, time.minute, time.second, 0)?;
        Some(date.to_datetime(time))
    }
}

// The time of a date, which may be out of range.
#[derive(Drop)]
struct TimeOfDay {
    hour: u32,
    minute: u32,
    second: u32,
}

impl Model for TimeOfDay {
    ghost Value = { TimeParts };

    ghost view = { λ time. record { hour = time.hour; minute = time.minute; second = time.second } };

    ghost invariant = { λ time. (time.hour < 100) × (time.minute < 100) × (time.second < 100) };
}

fn is_delimiter(byte: u8) -> bool
    ensures { result ≡ is_delimiter byte }
{
    matches!(byte, b'\t' | b' '..=b'/' | b';'..=b'@' | b'['..=b'`' | b'{'..=b'~')
}

// Counts the digits at the start.
fn digits_at_start(text: &[u8]) -> usize
    ensures { result ≡ prefix_len is_ascii_digit text.now }
{
    text.iter().take_while(|byte| byte.is_ascii_digit()).count()
}

// Parses all digits at the start, if there are `least` to `most`, and returns the rest as well.
#[tactic(auto, unfolding(crate::specs::CookieDate::number_at))]
fn number(text: &[u8], least: usize, most: usize) -> Option<(u32, &[u8])>
    requires { most ≤ 4 }
    ensures value { option_map (λ n. (n.0, n.1.now)) result ≡ number_at least most text.now }
    ensures bound { IfSome result (λ n. n.0 < 10 ^ most) }
{
    let count = digits_at_start(text);
    if count < least || count > most {
        return None;
    }
    let (digits, rest) = text.split_at(count);
    Some((digits_value(digits)?, rest))
}

#[tactic(auto, unfolding(crate::specs::CookieDate::after_colon))]
fn after_colon(text: &[u8]) -> Option<&[u8]>
    ensures { option_copied result ≡ after_colon text.now }
{
    text.strip_prefix(b":")
}

// Parses the `time` of RFC 6265 5.1.1: three numbers separated by `:`.
#[tactic(auto, unfolding(crate::specs::CookieDate::time_of))]
fn time(token: &[u8]) -> Option<TimeOfDay>
    ensures { result ≡ time_of token.now }
{
    let (hour, rest) = number(token, 1, 2)?;
    let (minute, rest) = number(after_colon(rest)?, 1, 2)?;
    let (second, _) = number(after_colon(rest)?, 1, 2)?;
    Some(TimeOfDay {
        hour,
        minute,
        second,
    })
}

// Parses the `day-of-month`: one or two digits at the start.
#[tactic(auto, unfolding(crate::specs::CookieDate::day_of))]
fn day(token: &[u8]) -> Option<u32>
    ensures value { result ≡ day_of token.now }
    ensures bound { IfSome result (λ n. n < 100) }
{
    let (day, _) = number(token, 1, 2)?;
    Some(day)
}

// Returns the index of the month whose name `token` begins with.
fn month_index(token: &[u8]) -> Option<usize>
    ensures value { result ≡ position (str_eq_ignore_ascii_case (take 3 token.now)) month_names }
    ensures bound { IfSome result (λ index. index < 12) }
{
    let start = token.get(..3)?;
    MONTH_NAMES
        .iter()
        .position(|name| start.eq_ignore_ascii_case(name))
}

// Parses the `month`: 1 is January.
#[tactic(auto, unfolding(crate::specs::CookieDate::month_of))]
fn month(token: &[u8]) -> Option<u32>
    ensures value { result ≡ month_of token.now }
    ensures bound { IfSome result (λ n. n < 100) }
{
    let index = month_index(token)?;
    Some(index as u32 + 1)
}

// Parses the `year`: two to four digits at the start.
#[tactic(auto, unfolding(crate::specs::CookieDate::year_of))]
fn year(token: &[u8]) -> Option<u32>
    ensures value { result ≡ year_of token.now }
    ensures bound { IfSome result (λ n. n < 10_000) }
{
    let (year, _) = number(token, 2, 4)?;
    Some(full_year(year))
}

// Expands a two-digit year, RFC 6265 5.1.1 steps 3 and 4.
fn full_year(year: u32) -> u32
    requires { year < 10_000 }
    ensures { result ≡ full_year year }
{
    match year {
        0..=69 => year + 2000,
        70..=99 => year + 1900,
        _ => year,
    }
}
