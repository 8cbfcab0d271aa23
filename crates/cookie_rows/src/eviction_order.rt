//! The order in which rows are evicted.
ghost use Rattle.std.specs.Prelude.{◌≡◌};
ghost use Rattle.cookie_words.specs.Moments.{moment_of};
ghost use Rattle.cookie_rows.specs.Eviction.{class_of};

use cookie_parts::Cookie;
use jiff::civil::DateTime;

/// The order in which cookies are evicted so that their domain keeps within its limit.
#[derive(Clone, Copy, Debug, PartialEq, Eq)]
pub enum EvictionOrder {
    /// Expired cookies first, then the others, both in creation order, RFC 6265 5.3.
    ExpiredFirst,
    /// Expired cookies first, then those that are not Secure, then the Secure ones, each in creation
    /// order, draft-ietf-httpbis-rfc6265bis 5.7.
    SecureLast,
}

impl EvictionOrder {
    // Returns the class of a row: rows of lower classes are evicted first. It is a `u64`, as the row's
    // number is: a narrower one leaves padding in a rank, which a pass over the rows would copy.
    pub(crate) fn class_of(self, cookie: &Cookie<'_>, now: DateTime) -> u64
        ensures { result ≡ class_of self (moment_of now) cookie.now }
    {
        if cookie.is_expired(now) {
            return 0;
        }
        match self {
            EvictionOrder::ExpiredFirst => 1,
            EvictionOrder::SecureLast => { if cookie.is_secure() { 2 } else { 1 } }
        }
    }
}
