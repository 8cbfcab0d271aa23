//! Cookies as rows of a table.
use crate::checks::{is_equal, is_text};
use cookie_forms::SavedError;
use cookie_parts::Cookie;
use cookie_table::{from_row, to_row};
use jiff::civil::date;
use sqlite_value::row::Row;
use sqlite_value::value::ValueRef;
use std::alloc::{AllocError, Global};
use std::process::Abort;
use url::Url;

// Received from https://shop.example/p/q.
static HEADERS: [&str; 7] = [
    "a=1",
    "a=b=c; Domain=shop.example; Path=/x; Secure; HttpOnly; SameSite=None; Max-Age=5",
    "a=; SameSite=Lax; Expires=Tue, 03 Aug 2100 00:38:37 GMT",
    "\u{fc}=\u{f6}; SameSite=None",
    "a=1; Path=rel; SameSite=Strict",
    "a=1; Max-Age=99999999999999999999",
    "a=1; Max-Age=-1; Expires=Fri, 05 Jan 1601 00:00:00 GMT",
];

// The second of these as a row, after its rowid.
static COLUMNS: &str =
    "NULL,shop.example,1,/x,1,a,b=c,2026-01-31T00:00:05Z,1,1,0,shop.example,/x,5,NULL,";

fn parsed(rt: &impl Abort, alloc: Global, header: &str) -> Cookie<'static> {
    let url = Url::parse(alloc, "https://shop.example/p/q").expect(rt, "a URL");
    let now = date(2026, 1, 31).at(0, 0, 0, 0);
    Cookie::parse_owned(alloc, header, &url, now).expect(rt, "a cookie")
}

// The values after the rowid, each with a comma after it.
fn shown(alloc: Global, row: &Row) -> Result<String, AllocError> {
    let mut text = String::new(alloc);
    for at in 1..row.len() {
        match row.get(at) {
            ValueRef::Int(number) => text.push_str(format!(in alloc; "{number}")?.as_str())?,
            ValueRef::Text(bytes) => text.push_str(str::from_utf8(bytes).unwrap_or("?"))?,
            _ => text.push_str("NULL")?,
        }
        text.push_str(",")?;
    }
    Ok(text)
}

fn row_of(rt: &impl Abort, alloc: Global, header: &str) -> Row {
    let cookie = parsed(rt, alloc, header);
    let row = to_row(alloc, 7, &cookie).expect(rt, "memory");
    drop(cookie);
    row
}

fn reads_back(rt: &impl Abort, alloc: Global, row: &Row, header: &str) {
    let cookie = from_row(alloc, row).expect(rt, "a row of a cookie");
    let wanted = parsed(rt, alloc, header);
    is_equal(rt, &cookie, &wanted, &header);
    drop(wanted);
    drop(cookie);
}

#[test]
fn a_row_reads_back(rt: HostRuntime) {
    for header in &HEADERS {
        let row = row_of(&rt, rt.alloc(), header);
        reads_back(&rt, rt.alloc(), &row, header);
        drop(row);
    }
}

#[test]
fn a_row_has_a_value_for_each_column(rt: HostRuntime) {
    let row = row_of(&rt, rt.alloc(), HEADERS[1]);
    let shown = shown(rt.alloc(), &row).expect(&rt, "memory");
    is_text(&rt, shown.as_str(), COLUMNS, &"the columns");
    drop(shown);
    drop(row);
}

#[test]
fn another_row_is_rejected(rt: HostRuntime) {
    let result = from_row(rt.alloc(), &Row::new(rt.alloc()));
    is_equal(
        &rt,
        &result.err(),
        &Some(SavedError::Shape),
        &"an empty row",
    );
}
