//! What tables have as strings.
use cookie_parts::utils::parse_url;
use jiff::civil::DateTime;
use std::alloc::Global;
use std::process::Abort;
use url::Url;

// The time at which header values are received.
pub(crate) const NOW: &str = "2026-01-01T00:00:00";

// The string with 65,535 `x` in place of each '…', and with 500 labels `h.` in place of each '·'.
pub(crate) fn expanded(rt: &impl Abort, alloc: Global, text: &str) -> String {
    let mut long = String::new(alloc);
    for c in text.chars() {
        match c {
            '…' => push_run(rt, alloc, &mut long, "x", 65_535),
            '·' => push_run(rt, alloc, &mut long, "h.", 500),
            _ => long.push(c).expect(rt, "memory"),
        }
    }
    long
}

fn push_run(rt: &impl Abort, alloc: Global, text: &mut String, piece: &str, times: usize) {
    let run = piece.repeat(alloc, times).expect(rt, "memory");
    text.push_str(run.as_str()).expect(rt, "memory");
    drop(run);
}

pub(crate) fn owned(rt: &impl Abort, alloc: Global, text: &str) -> String {
    String::from_str(alloc, text).expect(rt, "memory")
}

// Parses a URL that is valid.
pub(crate) fn url(rt: &impl Abort, alloc: Global, text: &str) -> Url {
    let url = parse_url(alloc, text).expect(rt, "memory");
    url.expect(rt, "a URL")
}

// Parses a time such as `2026-01-01T00:00:00`.
pub(crate) fn moment(rt: &impl Abort, text: &str) -> DateTime {
    text.parse::<DateTime>().expect(rt, "a time")
}

// The same, if there is one.
pub(crate) fn moment_if_any(rt: &impl Abort, text: Option<&str>) -> Option<DateTime> {
    match text {
        Some(text) => Some(moment(rt, text)),
        None => None,
    }
}

// The sides of a row such as `left => right`. There may be no right one.
pub(crate) fn sides(row: &str) -> (&str, Option<&str>) {
    match row.split_once(" => ") {
        Some((left, right)) => (left, Some(right)),
        None => (row, None),
    }
}
