//! Seconds since 1970-01-01T00:00:00.
ghost use Rattle.std.specs.Prelude.{◌≡◌, option_map};
ghost use Rattle.cookie_words.specs.Moments.{moment_of};
ghost use Rattle.cookie_words.specs.Seconds.{epoch_second, moment_at_second};

use crate::{epoch, moments_round_trip};
use jiff::SignedDuration;
use jiff::civil::DateTime;

/// Returns the second of a time, counted from 1970-01-01T00:00:00 and rounded down.
pub fn epoch_second(moment: DateTime) -> i64
    ensures { result ≡ epoch_second (moment_of moment) }
{
    moment
        .duration_since(epoch())
        .as_nanos()
        .div_euclid(1_000_000_000) as i64
}

/// Returns the time of a second, counted from 1970-01-01T00:00:00, or `None` outside the years -9999
/// to 9999.
pub fn moment_at_second(second: i64) -> Option<DateTime>
    ensures { option_map moment_of result ≡ moment_at_second second }
{
    // for the checker: a `DateTime` is determined by its nanoseconds since the epoch
    moments_round_trip();
    match epoch().checked_add(SignedDuration::from_secs(second)) {
        Ok(moment) => Some(moment),
        Err(_) => None,
    }
}
