//! Cookie-dates, and the times of saved forms.
use crate::checks::is_equal;
use crate::parts::{moment, moment_if_any, sides};
use cookie_raw::read_date;
use cookie_saved::{SavedError, moment_text, read_moment};
use std::alloc::Global;
use std::process::Abort;

// A cookie-date, and its time, if it has one.
static DATES: [&str; 38] = [
    "Sunday, 06-Nov-94 08:49:37 GMT => 1994-11-06T08:49:37",
    "Sun Nov  6 08:49:37 1994 => 1994-11-06T08:49:37",
    "Tue, 11 Aug 2015 16:41:42 GMT => 2015-08-11T16:41:42",
    "Wed, 09 Jun 2021 10:18:14 GMT => 2021-06-09T10:18:14",
    "01 Jan 69 00:00:00 => 2069-01-01T00:00:00",
    "01 Jan 70 00:00:00 => 1970-01-01T00:00:00",
    "31 Dec 99 23:59:59 => 1999-12-31T23:59:59",
    "1:2:3 1 jan 70 => 1970-01-01T01:02:03",
    "31 Dec 1600 00:00:00",
    "31 Dec 1600 23:59:59",
    "1 Jan 1601 00:00:00 => 1601-01-01T00:00:00",
    "29 Feb 2096 23:59:59 => 2096-02-29T23:59:59",
    "29 Feb 2100 00:00:00",
    "31 Feb 2100 00:00:00",
    "1 Jan 10000 0:0:0",
    "24:00:00 1 Jan 2020",
    "23:59:60 1 Jan 2020",
    "0:0:0 0 Jan 2020",
    "0:0:0 32 Jan 2020",
    "1 Jan 2000 24:00:00",
    "1 Jan 2000 00:60:00",
    "1 Jan 2000 00:00:60",
    "001 Jan 2000 00:00:00",
    "10:20:30 1 Jan 2000 => 2000-01-01T10:20:30",
    "1 Jan 2000 10:20:30x => 2000-01-01T10:20:30",
    "1 Jan 2000 10:20:30 11:11:11 => 2000-01-01T10:20:30",
    "10:20:30 1 Jan 11:22:33 => 2011-01-01T10:20:30",
    "12 11 10:00:00 Feb => 2011-02-12T10:00:00",
    "10:00:00 11:30:00 Feb 2020 => 2020-02-11T10:00:00",
    "10:00:00 2020 05 Feb => 2020-02-05T10:00:00",
    "12:00:00 13:00:00 Jan 2000 => 2000-01-13T12:00:00",
    "1\tJANUARY\t2000\t10:20:30 => 2000-01-01T10:20:30",
    "é 1 Jan 2000 10:20:30 => 2000-01-01T10:20:30",
    "1é Jané 2000é 10:20:30é => 2000-01-01T10:20:30",
    "1 Jän 2000 10:20:30",
    "1 2 Jan 2000 10:20:30 => 2000-01-01T10:20:30",
    "1 2000 10:20:30",
    "",
];

#[test]
fn reads_dates(rt: HostRuntime) {
    for row in &DATES {
        let (text, wanted) = sides(row);
        is_equal(&rt, &read_date(text), &moment_if_any(&rt, wanted), row);
    }
}

// A string, and its time, if it is one.
static MOMENTS: [&str; 16] = [
    "2026-01-01T00:00:00Z => 2026-01-01T00:00:00",
    "2024-02-29T23:59:59.5Z => 2024-02-29T23:59:59.5",
    "2026-07-04T13:25:46.000000001Z => 2026-07-04T13:25:46.000000001",
    "0000-01-01T00:00:00Z => 0000-01-01T00:00:00",
    "9999-12-31T23:59:59.999999999Z => 9999-12-31T23:59:59.999999999",
    "2026-13-01T00:00:00Z",
    "2026-02-29T00:00:00Z",
    "2026-01-01T00:00:00.Z",
    "2026-01-01T00:00:00.1234567890Z",
    "2026-01-01T00:00:00z",
    "2026-01-01T24:00:00Z",
    "2026-01-01T00:00:60Z",
    "+026-01-01T00:00:00Z",
    "2026-01-01 00:00:00Z",
    "2026-01-01T00:00:00",
    "",
];

#[test]
fn reads_moments(rt: HostRuntime) {
    for row in &MOMENTS {
        let (text, wanted) = sides(row);
        is_equal(&rt, &read_moment(text), &moment_if_any(&rt, wanted), row);
    }
}

// A time, and its string.
static TEXTS: [(&str, Result<&str, SavedError>); 6] = [
    ("2026-01-01T00:00:00", Ok("2026-01-01T00:00:00Z")),
    ("2024-02-29T23:59:59.999999999", Ok("2024-02-29T23:59:59Z")),
    ("0033-04-05T06:07:08", Ok("0033-04-05T06:07:08Z")),
    ("0000-01-01T00:00:00", Ok("0000-01-01T00:00:00Z")),
    ("9999-12-31T23:59:59", Ok("9999-12-31T23:59:59Z")),
    ("-000001-12-31T23:59:59", Err(SavedError::Moment)),
];

fn is_written(rt: &impl Abort, alloc: Global, row: &(&str, Result<&str, SavedError>)) {
    match moment_text(alloc, moment(rt, row.0)) {
        Ok(text) => is_equal(rt, &Ok(text.as_str()), &row.1, row),
        Err(error) => is_equal(rt, &Err(error), &row.1, row),
    }
}

#[test]
fn writes_moments(rt: HostRuntime) {
    for row in &TEXTS {
        is_written(&rt, rt.alloc(), row);
    }
}
