//! The string that an expiry time is saved as.

ghost use Rattle.std.specs.Prelude.{◌≡◌, ◌↔◌, ◌⊎◌, ◌+◌, ◌^◌, ◌<◌, ◌≤◌, ◌<ℤ◌, ◌≤ℤ◌, pos, Err, IfErr, IfOk, IfSome, IsAscii, IsUtf8, drop, option_map, string_bytes};
ghost use Rattle.cookie_words.specs.Moments.{moment_of};
ghost use Rattle.cookie_forms.specs.MomentText.{number_in, has_separators, nanoseconds_in, fraction_of, parsed_moment, moment_text, two_digits};

use crate::SavedError;
use cookie_words::{calendar_date, clock_time, digits_value};
use jiff::civil::DateTime;
use std::alloc::{AllocError, Global};

/// Formats a time in UTC as `2026-01-31T23:59:59Z`, without its fraction of a second.
///
/// # Errors
///
/// - `Moment`: the time is before the year 0. Tested before anything is allocated.
/// - `Memory`: out of memory.
pub fn moment_text(alloc: Global, moment: DateTime) -> Result<String, SavedError>
    ensures text { IfOk result (λ text. string_bytes text ≡ moment_text (moment_of moment)) }
    ensures early { (moment.date.year <ℤ pos 0) ↔ (result ≡ Err SavedError.Moment) }
    ensures errors { IfErr result (λ e. (e ≡ SavedError.Moment) ⊎ (e ≡ SavedError.Memory)) }
{
    if moment.year() < 0 {
        return Err(SavedError::Moment);
    }
    Ok(format_moment(alloc, moment)?)
}

// Formats a time from the year 0 on.
pub(crate) fn format_moment(alloc: Global, moment: DateTime) -> Result<String, AllocError>
    requires { pos 0 ≤ℤ moment.date.year }
    ensures { IfOk result (λ text. string_bytes text ≡ moment_text (moment_of moment)) }
{
    String::from_str(alloc, str::from_utf8(&moment_bytes(moment)).unwrap())
}

/// Formats a time from the year 0 on, as [`moment_text`] does. The bytes are ASCII.
pub fn moment_bytes(moment: DateTime) -> [u8; 20]
    requires { pos 0 ≤ℤ moment.date.year }
    ensures text { result ≡ moment_text (moment_of moment) }
    ensures utf8 { IsUtf8 result }
{
    let year = moment.year() as u16;
    let [y1, y2] = two_digits((year / 100) as u8);
    let [y3, y4] = two_digits((year % 100) as u8);
    let [m1, m2] = two_digits(moment.month() as u8);
    let [d1, d2] = two_digits(moment.day() as u8);
    let [h1, h2] = two_digits(moment.hour() as u8);
    let [n1, n2] = two_digits(moment.minute() as u8);
    let [s1, s2] = two_digits(moment.second() as u8);
    [
        y1, y2, y3, y4, b'-', m1, m2, b'-', d1, d2, b'T', h1, h2, b':', n1, n2, b':', s1, s2, b'Z',
    ]
}

// Formats a number in two digits.
fn two_digits(number: u8) -> [u8; 2]
    requires { number < 100 }
    ensures digits { result ≡ two_digits number }
    ensures ascii { IsAscii result }
{
    [b'0' + number / 10, b'0' + number % 10]
}

/// Parses a time in UTC such as `2026-01-31T23:59:59Z`, or with one to nine digits of a fraction,
/// such as `2026-01-31T23:59:59.5Z`.
///
/// Returns `None` for any other string and for a date or time that does not exist.
#[tactic(auto, unfolding(crate::specs::MomentText::parsed_moment))]
pub fn read_moment(text: &str) -> Option<DateTime>
    ensures { option_map moment_of result ≡ parsed_moment text.now }
{
    let text = text.as_bytes();
    let year = number(text, 0, 4)?;
    let month = number(text, 5, 2)?;
    let day = number(text, 8, 2)?;
    let hour = number(text, 11, 2)?;
    let minute = number(text, 14, 2)?;
    let second = number(text, 17, 2)?;
    let nanosecond = fraction(text)?;
    if !has_separators(text) {
        return None;
    }
    let date = calendar_date(year, month, day)?;
    let time = clock_time(hour, minute, second, nanosecond)?;
    Some(date.to_datetime(time))
}

// Whether `-`, `-`, `T`, `:` and `:` are at their places.
#[tactic(auto, unfolding(crate::specs::MomentText::has_separators))]
fn has_separators(text: &[u8]) -> bool
    ensures { result ≡ has_separators text.now }
{
    text.get(4) == Some(&b'-')
        && text.get(7) == Some(&b'-')
        && text.get(10) == Some(&b'T')
        && text.get(13) == Some(&b':')
        && text.get(16) == Some(&b':')
}

// Parses `count` digits from index `from` on.
#[tactic(auto, unfolding(crate::specs::MomentText::number_in))]
fn number(text: &[u8], from: usize, count: usize) -> Option<u32>
    requires place { from + count < 2 ^ 64 }
    requires several { 0 < count }
    requires few { count ≤ 9 }
    ensures value { result ≡ number_in text.now from count }
    ensures bound { IfSome result (λ n. n < 10 ^ count) }
{
    digits_value(text.get(from..from + count)?)
}

// Parses what follows the seconds, as nanoseconds: `Z`, or a fraction and `Z`.
#[tactic(auto, unfolding(crate::specs::MomentText::fraction_of))]
fn fraction(text: &[u8]) -> Option<u32>
    ensures value { result ≡ fraction_of (drop 19 text.now) }
    ensures bound { IfSome result (λ n. n < 1_000_000_000) }
{
    match text.get(19..)? {
        [b'Z'] => Some(0),
        [b'.', digits @ .., b'Z'] => nanoseconds(digits),
        _ => None,
    }
}

// Converts one to nine digits of a fraction to nanoseconds.
#[tactic(auto, unfolding(crate::specs::MomentText::nanoseconds_in))]
fn nanoseconds(digits: &[u8]) -> Option<u32>
    ensures value { result ≡ nanoseconds_in digits.now }
    ensures bound { IfSome result (λ n. n < 1_000_000_000) }
{
    if digits.is_empty() || digits.len() > 9 {
        return None;
    }
    let value = digits_value(digits)?;
    Some(value * 10_u32.pow(9 - digits.len() as u32))
}
