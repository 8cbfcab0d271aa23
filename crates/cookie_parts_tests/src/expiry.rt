//! Expiry times.
use crate::checks::is_equal;
use crate::parts::{NOW, moment, moment_if_any};
use cookie_parts::CookieExpiration;
use cookie_raw::Expiration;
use jiff::SignedDuration;
use jiff::civil::DateTime;
use std::process::Abort;

// What gives an expiry: a time, seconds after a time, or an Expires attribute.
#[derive(Debug)]
enum Source {
    Moment(&'static str),
    Seconds(u64, &'static str),
    Duration(i64, &'static str),
    Attribute(&'static str),
    Session,
}

const LATEST: &str = "9999-12-31T23:59:59";

const EPOCH: &str = "1970-01-01T00:00:00";

const FIRST: &str = "-009999-01-01T00:00:00";

const LAST: &str = "9999-12-31T23:59:59.999999999";

fn expiry_of(rt: &impl Abort, source: &Source) -> CookieExpiration {
    match source {
        Source::Moment(text) => CookieExpiration::from_moment(moment(rt, text)),
        Source::Seconds(seconds, from) => {
            CookieExpiration::from_secs(*seconds, moment(rt, from))
        }
        Source::Duration(seconds, from) => {
            let duration = SignedDuration::from_secs(*seconds);
            CookieExpiration::from_duration(duration, moment(rt, from))
        }
        Source::Attribute(text) => {
            let expires = Expiration::DateTime(moment(rt, text));
            CookieExpiration::from_expiration(expires)
        }
        Source::Session => CookieExpiration::from_expiration(Expiration::Session),
    }
}

// The time to the nanosecond; `None` for a session cookie.
fn time_of(expiry: &CookieExpiration) -> Option<DateTime> {
    match expiry {
        CookieExpiration::AtUtc(time) => Some(*time),
        CookieExpiration::SessionEnd => None,
    }
}

// An expiry, its time, another time, and whether it has expired then.
type Row = (Source, Option<&'static str>, &'static str, bool);

static EXPIRIES: [Row; 16] = [
    (
        Source::Attribute("2015-10-21T07:28:00"),
        Some("2015-10-21T07:28:00"),
        "2015-10-21T07:27:59",
        false,
    ),
    (
        Source::Attribute("2015-10-21T07:28:00"),
        Some("2015-10-21T07:28:00"),
        "2015-10-21T07:28:00",
        true,
    ),
    (Source::Session, None, "2015-10-21T07:27:59", false),
    (Source::Seconds(0, NOW), Some(EPOCH), NOW, true),
    (
        Source::Seconds(60, NOW),
        Some("2026-01-01T00:01:00"),
        NOW,
        false,
    ),
    (Source::Seconds(u64::MAX, NOW), Some(LATEST), NOW, false),
    (
        Source::Seconds(1, FIRST),
        Some("-009999-01-01T00:00:01"),
        FIRST,
        false,
    ),
    (Source::Seconds(1, LAST), Some(LATEST), LAST, true),
    (Source::Duration(-1, NOW), Some(EPOCH), NOW, true),
    (
        Source::Duration(1, FIRST),
        Some("-009999-01-01T00:00:01"),
        FIRST,
        false,
    ),
    (
        Source::Duration(1, NOW),
        Some("2026-01-01T00:00:01"),
        NOW,
        false,
    ),
    (
        Source::Duration(1, "9999-12-31T23:59:59.5"),
        Some(LATEST),
        LATEST,
        true,
    ),
    (Source::Duration(1, LAST), Some(LATEST), LATEST, true),
    (
        Source::Moment("2025-12-31T00:00:00"),
        Some("2025-12-31T00:00:00"),
        "2025-12-30T00:00:00",
        false,
    ),
    // Only the time of an Expires attribute may be after the latest expiry that is computed.
    (Source::Moment(LAST), Some(LATEST), LATEST, true),
    (Source::Attribute(LAST), Some(LAST), LATEST, false),
];

fn is_expiry(rt: &impl Abort, row: &Row) {
    let expiry = expiry_of(rt, &row.0);
    is_equal(rt, &time_of(&expiry), &moment_if_any(rt, row.1), row);
    let at = moment(rt, row.2);
    let results = (expiry.is_expired(at), expiry.expires_by(&at));
    is_equal(rt, &results, &(row.3, row.3), row);
}

#[test]
fn a_cookie_expires_at_its_expiry_time(rt: HostRuntime) {
    for row in &EXPIRIES {
        is_expiry(&rt, row);
    }
}
