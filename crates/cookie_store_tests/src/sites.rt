//! Sites and roots of hosts, and the cookies of a request by where it came from, under the rules of
//! draft-ietf-httpbis-rfc6265bis.
use crate::built::{UrlAndValue, store_of};
use crate::checks::{is_equal, is_text};
use crate::steps::{list, new_year, store_under};
use crate::strict::SECURE;
use crate::texts::url;
use cookie_store::psl::List;
use cookie_store::strict::{
    Context, Site, cookies_for, is_same_site, is_same_site_in, is_secure_url, root_of,
    root_of_domain, shard_of, site_of,
};
use cookie_store::{CookieStore, cookie_string};
use std::alloc::Global;
use std::process::Abort;
use url::Url;

// Cookies that are stored, the URL of a request, whether it is same-site, top-level, with a safe
// method and Lax by default, and the cookies sent.
type Sent = (
    &'static [UrlAndValue],
    &'static str,
    (bool, bool, bool, bool),
    &'static str,
);

const STORED: &[UrlAndValue] = &[
    (SECURE, "strict=1; SameSite=Strict; Path=/"),
    (SECURE, "lax=1; SameSite=Lax; Path=/"),
    (SECURE, "none=1; SameSite=None; Secure; Path=/"),
    (SECURE, "unset=1; Path=/"),
];

const ALL: &str = "strict=1; lax=1; none=1; unset=1";

const SAME_SITE: (bool, bool, bool, bool) = (true, false, true, true);

static SENT: [Sent; 15] = [
    (STORED, SECURE, (true, true, true, true), ALL),
    (STORED, SECURE, (true, false, false, true), ALL),
    (STORED, SECURE, (true, false, false, false), ALL),
    (
        STORED,
        SECURE,
        (false, true, true, true),
        "lax=1; none=1; unset=1",
    ),
    (
        STORED,
        SECURE,
        (false, true, true, false),
        "lax=1; none=1; unset=1",
    ),
    (STORED, SECURE, (false, true, false, true), "none=1"),
    (STORED, SECURE, (false, false, true, true), "none=1"),
    (
        STORED,
        SECURE,
        (false, true, false, false),
        "none=1; unset=1",
    ),
    (
        STORED,
        SECURE,
        (false, false, true, false),
        "none=1; unset=1",
    ),
    // a request to this machine has Secure cookies
    (
        &[
            ("https://a.localhost/", "s=1; Secure"),
            ("https://a.localhost/", "p=1"),
        ],
        "https://a.localhost/",
        SAME_SITE,
        "s=1; p=1",
    ),
    (
        &[
            ("http://a.localhost/", "s=1; Secure"),
            ("http://a.localhost/", "p=1"),
        ],
        "http://a.localhost/",
        SAME_SITE,
        "s=1; p=1",
    ),
    (
        &[
            ("http://localhost./x", "s=1; Secure"),
            ("http://localhost./x", "p=1"),
        ],
        "http://localhost./x",
        SAME_SITE,
        "s=1; p=1",
    ),
    (
        &[
            ("http://localhost/", "s=1; Secure"),
            ("http://localhost/", "p=1"),
        ],
        "http://localhost/",
        SAME_SITE,
        "s=1; p=1",
    ),
    (
        &[
            ("http://127.0.0.1/", "s=1; Secure"),
            ("http://127.0.0.1/", "p=1"),
        ],
        "http://127.0.0.1/",
        SAME_SITE,
        "s=1; p=1",
    ),
    (
        &[
            ("http://site.example/", "s=1; Secure"),
            ("http://site.example/", "p=1"),
        ],
        "http://site.example/",
        SAME_SITE,
        "p=1",
    ),
];

fn has_cookies(rt: &impl Abort, alloc: Global, store: &CookieStore, url: &Url, sent: &Sent) {
    let (is_same_site, is_top_level, is_safe, is_lax_by_default) = sent.2;
    let context = Context {
        is_same_site,
        is_top_level,
        is_safe,
        is_lax_by_default,
    };
    let cookies = cookies_for(store, url, context, new_year()).expect(rt, "memory");
    let text = cookie_string(alloc, cookies.as_slice()).expect(rt, "memory");
    is_text(rt, text.as_str(), sent.3, sent);
}

fn is_sent(rt: &impl Abort, alloc: Global, sent: &Sent) {
    let store = store_of(rt, alloc, sent.0);
    let url = url(rt, alloc, sent.1);
    has_cookies(rt, alloc, &store, &url, sent);
    drop(store);
}

#[test]
fn a_request_has_the_cookies_of_its_context(rt: HostRuntime) {
    for sent in &SENT {
        is_sent(&rt, rt.alloc(), sent);
    }
}

const SUFFIXES: &str = "co.uk\ncom\njp\n*.kobe.jp\n!city.kobe.jp\n";

// A URL, its site and the root of its host, which are empty if there is none, and whether it is
// secure.
type Sited = (&'static str, &'static str, &'static str, bool);

static SITES: [Sited; 17] = [
    (
        "https://www.site.co.uk/x",
        "https://site.co.uk",
        "site.co.uk",
        true,
    ),
    (
        "https://site.co.uk:8080/",
        "https://site.co.uk",
        "site.co.uk",
        true,
    ),
    (
        "http://a.site.co.uk/",
        "http://site.co.uk",
        "site.co.uk",
        false,
    ),
    ("https://co.uk/", "https://co.uk", "co.uk", true),
    ("https://kobe.jp/", "https://kobe.jp", "kobe.jp", true),
    ("https://b.kobe.jp/", "https://b.kobe.jp", "kobe.jp", true),
    (
        "https://a.b.kobe.jp/",
        "https://a.b.kobe.jp",
        "kobe.jp",
        true,
    ),
    (
        "https://www.city.kobe.jp/",
        "https://city.kobe.jp",
        "kobe.jp",
        true,
    ),
    (
        "https://a.site.com./",
        "https://site.com.",
        "site.com.",
        true,
    ),
    ("https://localhost/", "https://localhost", "localhost", true),
    (
        "http://b.a.localhost/",
        "http://a.localhost",
        "a.localhost",
        true,
    ),
    ("http://127.0.0.1/", "http://127.0.0.1", "127.0.0.1", true),
    ("https://10.1.2.3/", "https://10.1.2.3", "10.1.2.3", true),
    ("http://10.1.2.3/", "http://10.1.2.3", "10.1.2.3", false),
    ("https://[::1]/", "https://[::1]", "[::1]", true),
    ("http://site.com/", "http://site.com", "site.com", false),
    ("data:x", "", "", false),
];

// The scheme and the domain of the site.
fn site_text(rt: &impl Abort, alloc: Global, url: &Url, list: &List) -> String {
    match site_of(url, list) {
        Some(Site { scheme, domain }) => {
            format!(in alloc; "{scheme}://{domain}").expect(rt, "memory")
        }
        None => String::new(alloc),
    }
}

fn has_site(rt: &impl Abort, alloc: Global, list: &List, row: &Sited) {
    let url = url(rt, alloc, row.0);
    let site = site_text(rt, alloc, &url, list);
    is_text(rt, site.as_str(), row.1, row);
    is_text(rt, root_of(&url, list).unwrap_or(""), row.2, row);
    if let Some(host) = url.host_str() {
        is_text(rt, root_of_domain(host, list), row.2, row);
    }
    is_equal(rt, &is_secure_url(&url), &row.3, row);
}

#[test]
fn a_url_has_a_site_and_a_root(rt: HostRuntime) {
    let list = list(&rt, rt.alloc(), SUFFIXES);
    for row in &SITES {
        has_site(&rt, rt.alloc(), &list, row);
    }
    drop(list);
}

// Two URLs, and whether they are same-site with the list and without one.
type Pair = (&'static str, &'static str, bool, bool);

static PAIRS: [Pair; 8] = [
    (
        "https://a.site.co.uk/",
        "https://b.site.co.uk:8080/x",
        true,
        false,
    ),
    (
        "https://a.site.co.uk/",
        "https://a.site.co.uk:8080/x",
        true,
        true,
    ),
    (
        "https://a.site.co.uk/",
        "http://a.site.co.uk/",
        false,
        false,
    ),
    ("https://site.co.uk/", "https://other.co.uk/", false, false),
    ("https://a.site.com/", "https://b.site.com/x", true, false),
    ("https://10.1.2.3/", "https://10.1.2.3/", true, true),
    ("https://10.1.2.3/", "https://11.1.2.3/", false, false),
    ("data:x", "data:x", false, false),
];

fn are_same_site(rt: &impl Abort, alloc: Global, store: &CookieStore, pair: &Pair) {
    let (first, second) = (url(rt, alloc, pair.0), url(rt, alloc, pair.1));
    let in_store = is_same_site_in(store, &first, &second);
    if let Some(list) = store.suffix_list() {
        let listed = is_same_site(&first, &second, list);
        is_equal(rt, &(in_store, listed), &(pair.2, pair.2), pair);
    } else {
        is_equal(rt, &in_store, &pair.3, pair);
    }
}

#[test]
fn urls_are_same_site_with_a_list(rt: HostRuntime) {
    let store = store_under(&rt, rt.alloc(), SUFFIXES);
    for pair in &PAIRS {
        are_same_site(&rt, rt.alloc(), &store, pair);
    }
    drop(store);
}

#[test]
fn urls_are_same_site_without_a_list(rt: HostRuntime) {
    let store = CookieStore::new(rt.alloc());
    for pair in &PAIRS {
        are_same_site(&rt, rt.alloc(), &store, pair);
    }
    drop(store);
}

// A string, a number of shards, and the shard of the string. The hashes are those that the authors
// of FNV publish: cbf29ce484222325, af63dc4c8601ec8c, 85944171f73967e8.
static SHARDS: [(&str, u32, Option<u32>); 9] = [
    ("", 0, None),
    ("", 1, Some(0)),
    ("", 16, Some(5)),
    ("", 0x8000_0000, Some(0x0422_2325)),
    ("", 0xffff_ffff, Some(0x5014_c00a)),
    ("a", 0x8000_0000, Some(0x0601_ec8c)),
    ("a", 0xffff_ffff, Some(0x3565_c8d9)),
    ("foobar", 0x8000_0000, Some(0x7739_67e8)),
    ("foobar", 0xffff_ffff, Some(0x7ccd_a95a)),
];

#[test]
fn a_root_has_a_shard(rt: HostRuntime) {
    for row in &SHARDS {
        is_equal(&rt, &shard_of(row.0, row.1), &row.2, row);
    }
}
