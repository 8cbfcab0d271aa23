//! The Max-Age of a raw cookie, stored compactly.
ghost use Rattle.std.specs.Prelude.{◌≡◌, IfSome, option_map};
ghost use Rattle.std.proofs.Props.{props};
ghost use Rattle.jiff.specs.Words.{IsWithin, signed_nanos};

use jiff::SignedDuration;
use std::fmt;

/// An optional Max-Age in 16 bytes aligned to 8.
///
/// An `Option<SignedDuration>` takes 32 bytes aligned to 16; with it a `RawCookie` would take 224
/// bytes instead of 192.
#[derive(Clone, Copy)]
pub(crate) struct MaxAge {
    secs: i64,
    // The fraction of a second, with the duration's sign; `None` if there is no Max-Age.
    nanos: Option<i32>,
    ghost in_range: { IfSome nanos (IsWithin 999_999_999) } by { Prim.hlevel props },
}

impl MaxAge {
    ghost use Rattle.cookie_raw.specs.Views.{max_age_nanos};

    pub(crate) fn new(duration: Option<SignedDuration>) -> MaxAge
        ensures { max_age_nanos result ≡ option_map signed_nanos duration }
    {
        match duration {
            Some(duration) => MaxAge {
                secs: duration.as_secs(),
                nanos: Some(duration.subsec_nanos()),
            },
            None => MaxAge {
                secs: 0,
                nanos: None,
            },
        }
    }

    pub(crate) fn duration(self) -> Option<SignedDuration>
        ensures { option_map signed_nanos result ≡ max_age_nanos self }
    {
        match self.nanos {
            Some(nanos) => Some(SignedDuration::new(self.secs, nanos)),
            None => None,
        }
    }
}

/// Prints it as an `Option<SignedDuration>`.
impl fmt::Debug for MaxAge {
    fn fmt<W: fmt::Write>(&self, f: &mut fmt::Formatter<W>) -> fmt::Result {
        fmt::Debug::fmt(&self.duration(), f)
    }
}
