//! When a cookie expires, RFC 6265 5.3 step 3.
ghost use Rattle.std.specs.Prelude.{◌≡◌, min, pos, ◌+ℤ◌, ◌≤ℤ◌, ◌<ℤ◌, IsTrue};
ghost use Rattle.jiff.specs.Words.{signed_nanos};
ghost use Rattle.cookie_words.specs.Moments.{moment_of, nanoseconds, Moment};
ghost use Rattle.cookie_raw.specs.SetCookie.{of_seconds};
ghost use Rattle.cookie_raw.specs.Views.{expires_value};
ghost use Rattle.cookie_parts.specs.Expiry.{expiry_at_time, capped_at_latest, has_passed, latest, expiry_of_max_age, expiry_of_expires, same_expiry, same_expiry_equiv};
ghost use Rattle.cookie_parts.specs.Views.{expiry_value};
ghost use Rattle.std.specs.Ordering.{on};
ghost use Rattle.std.specs.Cmp.{on_equiv, partial_equiv_from_equiv};

use cookie_raw::Expiration;
use cookie_words::{epoch, moments_round_trip};
use jiff::SignedDuration;
use jiff::civil::{DateTime, date};

/// When a cookie expires, RFC 6265 5.3 step 3.
///
/// Expiries are equal if they are in the same second.
#[derive(Clone, Copy, Debug)]
pub enum CookieExpiration {
    /// A persistent cookie: it expires at this time, in UTC.
    AtUtc(DateTime),
    /// A session cookie: it has no expiry time.
    SessionEnd,
}

impl CookieExpiration {
    /// Returns the expiry `secs` seconds after `now`, at most 9999-12-31T23:59:59.
    ///
    /// For 0 seconds it is 1970-01-01T00:00:00.
    pub fn from_secs(secs: u64, now: DateTime) -> CookieExpiration
        ensures { expiry_value result ≡ expiry_of_max_age (of_seconds (min secs 9_223_372_036_854_775_807)) (moment_of now) }
    {
        let secs = i64::try_from(secs).unwrap_or(i64::MAX);
        CookieExpiration::from_duration(SignedDuration::from_secs(secs), now)
    }

    /// Returns the expiry `duration` after `now`, at most 9999-12-31T23:59:59, RFC 6265 5.2.2.
    ///
    /// For a duration of zero or less it is 1970-01-01T00:00:00.
    pub fn from_duration(duration: SignedDuration, now: DateTime) -> CookieExpiration
        ensures { expiry_value result ≡ expiry_of_max_age (signed_nanos duration) (moment_of now) }
    {
        if duration <= SignedDuration::ZERO {
            return CookieExpiration::AtUtc(epoch());
        }
        CookieExpiration::AtUtc(after(now, duration))
    }

    /// Returns the expiry at `moment`, at most 9999-12-31T23:59:59.
    pub fn from_moment(moment: DateTime) -> CookieExpiration
        ensures { expiry_value result ≡ expiry_at_time (moment_of moment) }
    {
        CookieExpiration::AtUtc(cap_at_latest(moment))
    }

    /// Converts the value of an Expires attribute; its time is taken unchanged.
    pub fn from_expiration(expiration: Expiration) -> CookieExpiration
        ensures { expiry_value result ≡ expiry_of_expires (expires_value expiration) }
    {
        match expiration {
            Expiration::DateTime(moment) => CookieExpiration::AtUtc(moment),
            Expiration::Session => CookieExpiration::SessionEnd,
        }
    }

    /// Returns whether the expiry is `now` or earlier. A session cookie has never expired.
    pub fn is_expired(&self, now: DateTime) -> bool
        ensures { result ≡ has_passed (moment_of now) (expiry_value self.now) }
    {
        self.expires_by(&now)
    }

    /// Returns whether the expiry is `moment` or earlier. If so, it is for every later time too.
    pub fn expires_by(&self, moment: &DateTime) -> bool
        ensures value { result ≡ has_passed (moment_of moment.now) (expiry_value self.now) }
        ensures later { (later : Moment) → nanoseconds (moment_of moment.now) ≤ℤ nanoseconds later
            → IsTrue result → IsTrue (has_passed later (expiry_value self.now)) }
    {
        match self {
            CookieExpiration::AtUtc(end) => end <= moment,
            CookieExpiration::SessionEnd => false,
        }
    }
}

impl PartialEq for CookieExpiration {
    ghost eq = { on expiry_value same_expiry };

    ghost laws = { partial_equiv_from_equiv (on_equiv expiry_value same_expiry_equiv) };

    // Ignores fractions of a second.
    fn eq(&self, other: &CookieExpiration) -> bool {
        match (self, other) {
            (CookieExpiration::AtUtc(end), CookieExpiration::AtUtc(other)) => {
                whole_seconds(*end) == whole_seconds(*other)
            }
            (CookieExpiration::SessionEnd, CookieExpiration::SessionEnd) => true,
            _ => false,
        }
    }
}

impl Eq for CookieExpiration {
    ghost laws = { on_equiv expiry_value same_expiry_equiv };
}

// The time without its fraction of a second.
fn whole_seconds(moment: DateTime) -> DateTime
    ensures { moment_of result ≡ record (moment_of moment) { nanosecond = 0 } }
{
    moment
        .date()
        .at(moment.hour(), moment.minute(), moment.second(), 0)
}

// The latest expiry that is computed.
fn latest() -> DateTime
    ensures { moment_of result ≡ latest }
{
    date(9999, 12, 31).at(23, 59, 59, 0)
}

// The time, at most `latest`.
fn cap_at_latest(moment: DateTime) -> DateTime
    ensures { moment_of result ≡ capped_at_latest (nanoseconds (moment_of moment)) }
{
    // for the checker: the nanoseconds since the epoch determine a `DateTime`
    moments_round_trip();
    moment.min(latest())
}

// The time `duration` after `now`, at most `latest`.
fn after(now: DateTime, duration: SignedDuration) -> DateTime
    requires { pos 0 <ℤ signed_nanos duration }
    ensures { moment_of result ≡ capped_at_latest (nanoseconds (moment_of now) +ℤ signed_nanos duration) }
{
    // for the checker: the nanoseconds since the epoch determine a `DateTime`
    moments_round_trip();
    match now.checked_add(duration) {
        Ok(end) => end.min(latest()),
        Err(_) => latest(),
    }
}
