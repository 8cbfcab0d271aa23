//! What several crates share: splitting a string, decimal numbers, dates and times. Most of it is
//! definitions, in `specs/`.
#![tactic(auto)]

ghost use Rattle.std.specs.Prelude.{◌≡◌};
ghost use Rattle.jiff_core.specs.declared.civil.datetime.DateTime.{DateTime};
ghost use Rattle.cookie_words.specs.Moments.{moment_at, moment_of, nanoseconds};
ghost use Rattle.cookie_words.specs.Strings.{without_dot};

mod dates;
mod digits;
mod seconds;

pub use dates::{calendar_date, clock_time, epoch};
pub use digits::{digits_value, is_digits};
pub use seconds::{epoch_second, moment_at_second};

/// Converting a `DateTime` of `jiff` to nanoseconds since 1970-01-01T00:00:00 and back gives the
/// same date and time.
#[tactic(auto, using(crate::proofs::Calendar::moment_back))]
pub fn moments_round_trip()
    ensures { (moment : DateTime) → moment_at (nanoseconds (moment_of moment)) ≡ moment_of moment }
{}

/// Returns `text` without one leading dot, or all of it if it has none.
pub fn without_dot(text: &str) -> &str
    ensures { result.now ≡ without_dot text.now }
{
    match text.strip_prefix('.') {
        Some(rest) => rest,
        None => text,
    }
}
