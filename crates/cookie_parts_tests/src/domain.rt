//! Domains, and the hosts that they cover.
use crate::checks::{is_copy, is_equal};
use crate::parts::{owned, url};
use cookie_parts::cookie_domain::is_match;
use cookie_parts::utils::is_host_name;
use cookie_parts::{CookieDomain, CookieError, Error};
use cookie_psl::List;
use cookie_raw::RawCookie;
use std::alloc::Global;
use std::process::Abort;
use url::Url;

// What a domain is built from: a string, a raw cookie's header value, the host of a URL, or the string
// of its variant.
#[derive(Clone, Copy, Debug)]
pub(crate) enum Origin<'a> {
    Text(&'a str),
    Raw(&'a str),
    Host(&'a str),
    HostOnly(&'a str),
    Suffix(&'a str),
    NotPresent,
    Empty,
}

pub(crate) fn built(
    rt: &impl Abort,
    alloc: Global,
    origin: &Origin<'_>,
) -> Result<CookieDomain, Error> {
    match origin {
        Origin::Text(text) => CookieDomain::try_from_str(alloc, text),
        Origin::Raw(text) => {
            let raw = RawCookie::parse(text).expect(rt, "a cookie");
            let domain = CookieDomain::try_from_raw(alloc, &raw);
            drop(raw);
            domain
        }
        Origin::Host(at) => {
            let url = url(rt, alloc, at);
            let domain = CookieDomain::host_only(alloc, &url).map_err(Error::from);
            drop(url);
            domain
        }
        Origin::HostOnly(host) => Ok(CookieDomain::HostOnly(owned(rt, alloc, host))),
        Origin::Suffix(host) => Ok(CookieDomain::Suffix(owned(rt, alloc, host))),
        Origin::NotPresent => Ok(CookieDomain::NotPresent),
        Origin::Empty => Ok(CookieDomain::Empty),
    }
}

// An expected domain: its variant and its string.
type Parts<'a> = (&'static str, &'a str);

fn parts_of(domain: &CookieDomain) -> Parts<'_> {
    match domain {
        CookieDomain::HostOnly(host) => ("HostOnly", host.as_str()),
        CookieDomain::Suffix(host) => ("Suffix", host.as_str()),
        CookieDomain::NotPresent => ("NotPresent", ""),
        CookieDomain::Empty => ("Empty", ""),
    }
}

// Checks the domain, a copy of it and its string.
pub(crate) fn is_domain(rt: &impl Abort, alloc: Global, origin: &Origin<'_>, wanted: Parts<'_>) {
    let domain = built(rt, alloc, origin).expect(rt, "memory");
    is_equal(rt, &parts_of(&domain), &wanted, origin);
    let copy = domain.clone().expect(rt, "memory");
    is_copy(rt, &copy, &domain, origin);
    let text = copy.to_string_in(alloc).expect(rt, "memory");
    is_equal(rt, &text.as_str(), &wanted.1, origin);
    drop(text);
    drop(copy);
    drop(domain);
}

static DOMAINS: [(Origin<'static>, Parts<'static>); 15] = [
    (Origin::Text(""), ("Empty", "")),
    (Origin::Text("."), ("Empty", "")),
    (Origin::Text(".."), ("Suffix", ".")),
    (Origin::Text("example.com"), ("Suffix", "example.com")),
    (Origin::Text(".example.com"), ("Suffix", "example.com")),
    (Origin::Text("..example.com"), ("Suffix", ".example.com")),
    (
        Origin::Text("bücher.example"),
        ("Suffix", "xn--bcher-kva.example"),
    ),
    (Origin::Raw("cookie=value"), ("NotPresent", "")),
    (Origin::Raw("cookie=value; Domain="), ("NotPresent", "")),
    (Origin::Raw("cookie=value; Domain=."), ("Empty", "")),
    (
        Origin::Raw("cookie=value; Domain=.example.com"),
        ("Suffix", "example.com"),
    ),
    (Origin::Host("http://a.example/"), ("HostOnly", "a.example")),
    (Origin::Suffix("example"), ("Suffix", "example")),
    (Origin::NotPresent, ("NotPresent", "")),
    (Origin::Empty, ("Empty", "")),
];

#[test]
fn a_domain_is_for_hosts(rt: HostRuntime) {
    for (origin, wanted) in &DOMAINS {
        is_domain(&rt, rt.alloc(), origin, *wanted);
    }
}

// Origins that are not valid, and the error; `None` is an error of `idna`.
static NO_DOMAINS: [(Origin<'static>, Option<CookieError>); 4] = [
    (Origin::Text("xn--a"), None),
    (Origin::Text("xn--a.example"), None),
    (Origin::Raw("a=1; Domain=xn--a.example"), None),
    (Origin::Host("data:x"), Some(CookieError::NonRelativeScheme)),
];

// The error about a cookie, or that of `idna`.
fn fault_of(error: Option<CookieError>) -> Error {
    match error {
        Some(error) => Error::Cookie(error),
        None => Error::from(idna::Errors::Invalid),
    }
}

#[test]
fn invalid_domain_names_are_rejected(rt: HostRuntime) {
    for (origin, error) in &NO_DOMAINS {
        let fault = built(&rt, rt.alloc(), origin).err();
        is_equal(&rt, &fault, &Some(fault_of(*error)), origin);
        drop(fault);
    }
}

// A domain, a URL, and whether the domain matches the URL's host.
static COVERS: [(Origin<'static>, &str, bool); 27] = [
    (Origin::Text("0.0.1"), "http://127.0.0.1", false),
    (Origin::Text("127.0.0.1"), "http://127.0.0.1", true),
    (Origin::Text("example.com"), "http://foo.example.com", true),
    (Origin::Text("example.com"), "http://fooexample.com", false),
    (Origin::Text("example.com"), "http://xample.com", false),
    (Origin::Text("example.com"), "http://example.org", false),
    (
        Origin::Text("..example.com"),
        "http://foo..example.com",
        true,
    ),
    (
        Origin::Text("..example.com"),
        "http://foo.example.com",
        false,
    ),
    (Origin::Suffix("example.com"), "http://example.org", false),
    (Origin::Suffix("example.com"), "http://xample.com", false),
    (Origin::Suffix("127.0.0.1"), "http://127.0.0.1", true),
    (Origin::Suffix("[::1]"), "http://[::1]", true),
    (Origin::Suffix(""), "http://a.com./", true),
    (Origin::Suffix(""), "http://a.com/", false),
    (
        Origin::Host("http://example.com"),
        "http://example.com",
        true,
    ),
    (
        Origin::Host("http://example.com"),
        "http://example.com:8080/foo/bar",
        true,
    ),
    (
        Origin::Host("http://example.com"),
        "http://127.0.0.1",
        false,
    ),
    (Origin::Host("http://example.com"), "http://[::1]", false),
    (
        Origin::Host("http://example.com"),
        "http://foo.example.com",
        false,
    ),
    (Origin::Host("http://example.com"), "data:x", false),
    (
        Origin::Host("http://127.0.0.1"),
        "http://example.com",
        false,
    ),
    (Origin::Host("http://127.0.0.1"), "http://127.0.0.1", true),
    (
        Origin::Host("http://127.0.0.1"),
        "http://127.0.0.1:8080/foo/bar",
        true,
    ),
    (Origin::Host("http://127.0.0.1"), "http://[::1]", false),
    (Origin::Host("http://[::1]"), "http://example.com", false),
    (Origin::Host("http://[::1]"), "http://[::1]", true),
    (
        Origin::Host("http://[::1]"),
        "http://[::1]:8080/foo/bar",
        true,
    ),
];

fn covers(rt: &impl Abort, alloc: Global, row: &(Origin<'_>, &str, bool)) {
    let (origin, at, wanted) = row;
    let url = url(rt, alloc, at);
    let domain = built(rt, alloc, origin).expect(rt, "memory");
    is_equal(rt, &domain.matches(&url), wanted, row);
    drop(domain);
    drop(url);
}

#[test]
fn a_domain_covers_hosts(rt: HostRuntime) {
    for row in &COVERS {
        covers(&rt, rt.alloc(), row);
    }
}

// A domain as a string, a URL, and whether the domain matches the URL's host.
static NAMED: [(&str, &str, bool); 11] = [
    ("0.0.1", "http://127.0.0.1", false),
    ("127.0.0.1", "http://127.0.0.1", true),
    ("example.com", "http://fooexample.com", false),
    ("example.com", "http://foo.example.com", true),
    (" .EXAMPLE.com ", "http://foo.example.com", true),
    ("bücher.example", "http://bücher.example", true),
    ("", "http://example.com", false),
    (".", "http://example.com.", false),
    ("xn--a", "http://example.com", false),
    ("xn--a", "foo://xn--a", false),
    ("example.com", "data:x", false),
];

#[test]
fn a_domain_name_covers_hosts(rt: HostRuntime) {
    for row in &NAMED {
        let url = url(&rt, rt.alloc(), row.1);
        let is_for = is_match(rt.alloc(), row.0, &url).expect(&rt, "memory");
        is_equal(&rt, &is_for, &row.2, row);
        drop(url);
    }
}

const LIST: &str = "com\n*.ck\n!www.ck\n*.www.ck\n";

// A domain, and whether it is a public suffix.
static PUBLIC_SUFFIXES: [(Origin<'static>, bool); 14] = [
    (Origin::HostOnly("com"), true),
    (Origin::HostOnly("com."), true),
    (Origin::HostOnly("a.com"), false),
    (Origin::HostOnly("zz"), false),
    (Origin::HostOnly("foo.ck"), true),
    (Origin::HostOnly("ck"), false),
    (Origin::HostOnly("www.ck"), false),
    (Origin::HostOnly(""), false),
    (Origin::Suffix("com"), true),
    (Origin::Suffix("foo.ck"), true),
    (Origin::Suffix("ck"), false),
    (Origin::Suffix(""), false),
    (Origin::NotPresent, false),
    (Origin::Empty, false),
];

fn is_public(rt: &impl Abort, alloc: Global, list: &List, row: &(Origin<'_>, bool)) {
    let domain = built(rt, alloc, &row.0).expect(rt, "memory");
    is_equal(rt, &domain.is_public_suffix(list), &row.1, row);
    drop(domain);
}

#[test]
fn a_listed_domain_is_a_public_suffix(rt: HostRuntime) {
    let list = List::from_text(rt.alloc(), LIST).expect(&rt, "memory");
    for row in &PUBLIC_SUFFIXES {
        is_public(&rt, rt.alloc(), &list, row);
    }
    drop(list);
}

// A host, and whether it is a host name.
static NAMES: [(&str, bool); 12] = [
    ("example.com", true),
    ("1.2.3", true),
    ("1.2.3.4.5", true),
    ("256.1.1.1", true),
    ("01.2.3.4", true),
    ("a", true),
    ("", true),
    ("1.2.3.4", false),
    ("0.0.0.0", false),
    ("255.255.255.255", false),
    ("::1", false),
    ("[::1]", false),
];

#[test]
fn an_address_is_no_name(rt: HostRuntime) {
    for (host, wanted) in &NAMES {
        is_equal(&rt, &is_host_name(host), wanted, host);
    }
}
