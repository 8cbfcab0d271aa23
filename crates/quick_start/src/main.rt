//! Creates a store, inserts a cookie, and prints the `Cookie` header of a request.
#![tactic(auto)]

use cookie_store::CookieStore;
use jiff::civil::{DateTime, date};
use std::test::Fail;
use url::Url;

fn main(rt: HostRuntime) -> Result<(), Fail> {
    let now = date(2026, 1, 1).at(0, 0, 0, 0);
    let page = Url::parse(rt.alloc(), "http://example.com/foo/bar")?;
    let mut store = CookieStore::new(rt.alloc());
    store.parse("cookie1=value1", &page, now)?;
    print_header(&rt, &store, "http://example.com/foo/x", now)
}

/// Prints the `Cookie` header of a request, if cookies match its URL.
fn print_header(
    rt: &HostRuntime,
    store: &CookieStore,
    url: &str,
    now: DateTime,
) -> Result<(), Fail> {
    let url = Url::parse(rt.alloc(), url)?;
    if let Some(header) = store.cookie_header(&url, now)? {
        println!(rt; "Cookie: {header}")?;
    }
    Ok(())
}
