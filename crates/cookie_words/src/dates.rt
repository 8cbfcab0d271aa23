//! Dates and times of day from numbers.
ghost use Rattle.std.specs.Prelude.{◌≡◌, ◌<◌, pos, is_some, IfSome};
ghost use Rattle.cookie_words.specs.Moments.{epoch, is_day, is_time, moment_of};

use jiff::civil::{Date, DateTime, Time, date};

/// Returns 1970-01-01T00:00:00.
pub fn epoch() -> DateTime
    ensures { moment_of result ≡ epoch }
{
    date(1970, 1, 1).at(0, 0, 0, 0)
}

/// Returns the date, or `None` if the calendar has no such day.
pub fn calendar_date(year: u32, month: u32, day: u32) -> Option<Date>
    requires year { year < 10_000 }
    requires month { month < 100 }
    requires day { day < 100 }
    ensures found { is_some result ≡ is_day (pos year) month day }
    ensures value { IfSome result
        (λ d. (d.year ≡ pos year) × (d.month ≡ month) × (d.day ≡ day)) }
{
    Date::new(year as i16, month as i8, day as i8).ok()
}

/// Returns the time of day, or `None` if the hour is above 23, or the minute or second above 59.
pub fn clock_time(hour: u32, minute: u32, second: u32, nanosecond: u32) -> Option<Time>
    requires hour { hour < 100 }
    requires minute { minute < 100 }
    requires second { second < 100 }
    requires nanosecond { nanosecond < 1_000_000_000 }
    ensures found { is_some result ≡ is_time hour minute second }
    ensures value { IfSome result (λ t. (t.hour ≡ hour) × (t.minute ≡ minute)
        × (t.second ≡ second) × (t.subsec_nanosecond ≡ nanosecond)) }
{
    Time::new(hour as i8, minute as i8, second as i8, nanosecond as i32).ok()
}
