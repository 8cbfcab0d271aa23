//! Insertion under the rules of draft-ietf-httpbis-rfc6265bis, and what the header values are read
//! as.
use crate::built::{UrlAndValue, store_of};
use crate::checks::{is_equal, is_text};
use crate::steps::{list, new_year};
use crate::texts::url;
use cookie_store::strict::{Context, StrictError, StrictResult, parse, parse_in_context};
use cookie_store::{CookieError, CookieStore, StoreAction};
use std::alloc::Global;
use std::process::Abort;
use url::Url;

pub const INSERTED: StrictResult = Ok(StoreAction::Inserted);

pub const UPDATED: StrictResult = Ok(StoreAction::UpdatedExisting);

pub const EXPIRED: StrictResult = Ok(StoreAction::ExpiredExisting);

pub const SECURE: &str = "https://site.example/app/page";

const ROOT: &str = "https://site.example/";

const PLAIN: &str = "http://site.example/app/page";

const PLAIN_WWW: &str = "http://www.site.example/app/page";

const PLAIN_SHOP: &str = "http://shop.site.example/app/page";

const LOCAL: &str = "http://localhost/app/page";

const LOOPBACK: &str = "http://127.0.0.1/app/page";

const FTP: &str = "ftp://site.example/app/page";

const MISMATCH: StrictResult = Err(StrictError::Cookie(CookieError::DomainMismatch));

const PREFIX: StrictResult = Err(StrictError::Prefix);

const CONTROL_CHARACTER: StrictResult = Err(StrictError::ControlCharacter);

const INSECURE_URL: StrictResult = Err(StrictError::InsecureUrl);

const SECURE_STORED: StrictResult = Err(StrictError::SecureStored);

// Stored cookies.
const NONE: &[UrlAndValue] = &[];

const LOGIN: &[UrlAndValue] = &[(SECURE, "a=b; Secure; Path=/login; Domain=site.example")];

const WWW: &[UrlAndValue] = &[("https://www.site.example/", "a=b; Secure; Path=/")];

const EXPIRED_LOGIN: &[UrlAndValue] = &[(
    SECURE,
    "a=b; Secure; Path=/login; Domain=site.example; Max-Age=0",
)];

const UNSECURE: &[UrlAndValue] = &[(SECURE, "a=b; Path=/login")];

// Stored cookies, a URL, a `Set-Cookie` value received from it, and the result.
type Case = (
    &'static [UrlAndValue],
    &'static str,
    &'static str,
    StrictResult,
);

// Control characters, and header values without a name or a value.
static HEADER_VALUES: [Case; 20] = [
    (NONE, SECURE, "a=b\0c", CONTROL_CHARACTER),
    (NONE, SECURE, "a=b\x01c", CONTROL_CHARACTER),
    (NONE, SECURE, "a=b\x08c", CONTROL_CHARACTER),
    (NONE, SECURE, "a=b\tc", INSERTED),
    (NONE, SECURE, "a=b\nc", CONTROL_CHARACTER),
    (NONE, SECURE, "a=b\x0bc", CONTROL_CHARACTER),
    (NONE, SECURE, "a=b\rc", CONTROL_CHARACTER),
    (NONE, SECURE, "a=b\x1fc", CONTROL_CHARACTER),
    (NONE, SECURE, "a=b c", INSERTED),
    (NONE, SECURE, "a=b~c", INSERTED),
    (NONE, SECURE, "a=b\x7fc", CONTROL_CHARACTER),
    (NONE, SECURE, "a=b\u{80}c", INSERTED),
    (NONE, SECURE, "a\x01=b", CONTROL_CHARACTER),
    (NONE, SECURE, "a=b; Path=/\x01", CONTROL_CHARACTER),
    (NONE, SECURE, "a=b; other=\x1f", CONTROL_CHARACTER),
    (NONE, SECURE, "a\n", CONTROL_CHARACTER),
    (
        NONE,
        SECURE,
        "a",
        Err(StrictError::Cookie(CookieError::Parse)),
    ),
    (
        NONE,
        SECURE,
        "=a",
        Err(StrictError::Cookie(CookieError::Parse)),
    ),
    (
        NONE,
        SECURE,
        "\t=1",
        Err(StrictError::Cookie(CookieError::Parse)),
    ),
    (NONE, SECURE, "\u{a0}=1", INSERTED),
];

// Domain, HttpOnly and Max-Age.
static ATTRIBUTES: [Case; 18] = [
    (NONE, SECURE, "a=b; Domain=other.example", MISMATCH),
    (
        NONE,
        SECURE,
        "a=b; Domain=example",
        Err(StrictError::Cookie(CookieError::PublicSuffix)),
    ),
    (
        NONE,
        SECURE,
        "a=b; Max-Age=0",
        Err(StrictError::Cookie(CookieError::Expired)),
    ),
    (
        NONE,
        FTP,
        "a=b; HttpOnly",
        Err(StrictError::Cookie(CookieError::NonHttpScheme)),
    ),
    (
        NONE,
        PLAIN,
        "a=b; Secure; Max-Age=0",
        Err(StrictError::Cookie(CookieError::Expired)),
    ),
    (NONE, PLAIN, "a=b; Secure; Domain=other.example", MISMATCH),
    (
        NONE,
        PLAIN,
        "__Host-a=b; Domain=example",
        Err(StrictError::Cookie(CookieError::PublicSuffix)),
    ),
    (NONE, SECURE, "a=1; Domain=. site.example", MISMATCH),
    (NONE, SECURE, "a=1; Domain=.\tsite.example", MISMATCH),
    (NONE, SECURE, "a=1; Domain=site.example\u{a0}", MISMATCH),
    (NONE, SECURE, "a=1; Domain=\u{a0}site.example", MISMATCH),
    (NONE, SECURE, "a=1; Domain=s\u{ec}te.example", MISMATCH),
    (NONE, SECURE, "a=1; Domain=site.\u{ff45}xample", MISMATCH),
    (NONE, SECURE, "a=1; Domain=SITE.example", INSERTED),
    (NONE, SECURE, "a=1; Domain=other.example; Domain=", INSERTED),
    (NONE, SECURE, "a=1; Domain=.", INSERTED),
    (NONE, SECURE, "a=1; Max-Age=0\u{a0}", INSERTED),
    (
        NONE,
        SECURE,
        "a=1; Max-Age=-0",
        Err(StrictError::Cookie(CookieError::Expired)),
    ),
];

// Secure and SameSite.
static SECURE_AND_SAME_SITE: [Case; 18] = [
    (NONE, SECURE, "a=b; Secure", INSERTED),
    (NONE, PLAIN, "a=b; Secure", INSECURE_URL),
    (NONE, LOCAL, "a=b; Secure", INSERTED),
    (NONE, LOOPBACK, "a=b; Secure", INSERTED),
    (NONE, PLAIN, "a=b; Secure; SameSite=None", INSECURE_URL),
    (NONE, FTP, "a=b; Secure", INSECURE_URL),
    (
        NONE,
        SECURE,
        "a=b; SameSite=None",
        Err(StrictError::InsecureSameSiteNone),
    ),
    (NONE, SECURE, "a=b; SameSite=none; Secure", INSERTED),
    (
        NONE,
        PLAIN,
        "a=b; SameSite=None",
        Err(StrictError::InsecureSameSiteNone),
    ),
    (NONE, PLAIN, "a=b; SameSite=Lax", INSERTED),
    (NONE, PLAIN, "a=b; SameSite=Strict", INSERTED),
    (NONE, PLAIN, "a=b; SameSite=unknown", INSERTED),
    (NONE, PLAIN, "a=b; SameSite=None; SameSite=Lax", INSERTED),
    (NONE, "http://a.localhost/", "a=1; Secure", INSERTED),
    (NONE, "http://localhost./", "a=1; Secure", INSERTED),
    (NONE, "http://a.b.localhost.:8080/", "a=1; Secure", INSERTED),
    (NONE, "http://alocalhost/", "a=1; Secure", INSECURE_URL),
    (
        NONE,
        "http://localhost.site.example/",
        "a=1; Secure",
        INSECURE_URL,
    ),
];

// Prefixes of names.
static PREFIXES: [Case; 30] = [
    (NONE, SECURE, "__Secure-a=b", PREFIX),
    (NONE, SECURE, "__Secure-a=b; Secure", INSERTED),
    (
        NONE,
        SECURE,
        "__Secure-a=b; Secure; Domain=site.example",
        INSERTED,
    ),
    (NONE, SECURE, "__secure-a=b", PREFIX),
    (NONE, SECURE, "__SECURE-=b", PREFIX),
    (NONE, SECURE, "__Secure=b", INSERTED),
    (NONE, SECURE, "a__Secure-=b", INSERTED),
    (NONE, PLAIN, "__Secure-a=b", PREFIX),
    (NONE, PLAIN, "__Secure-a=b; Secure", INSECURE_URL),
    (NONE, SECURE, "__Host-a=b; Secure; Path=/", INSERTED),
    (NONE, SECURE, "__Host-a=b; Secure", PREFIX),
    (NONE, SECURE, "__Host-a=b; Path=/", PREFIX),
    (NONE, SECURE, "__Host-a=b; Secure; Path=/app", PREFIX),
    (
        NONE,
        SECURE,
        "__Host-a=b; Secure; Path=/; Domain=site.example",
        PREFIX,
    ),
    (
        NONE,
        SECURE,
        "__Host-a=b; Secure; Path=/; Domain=",
        INSERTED,
    ),
    (NONE, SECURE, "__hOST-a=b; Secure; Path=/app", PREFIX),
    (NONE, ROOT, "__Host-a=b; Secure", PREFIX),
    (NONE, SECURE, "__Host=b", INSERTED),
    (NONE, ROOT, "__Host-a=1; Secure; Path=", PREFIX),
    (NONE, ROOT, "__Host-a=1; Secure; Path=x", PREFIX),
    (
        NONE,
        "https://example/",
        "__Host-a=1; Secure; Path=/; Domain=example",
        PREFIX,
    ),
    (NONE, SECURE, "__Http-a=1", PREFIX),
    (NONE, SECURE, "__Http-a=1; Secure", PREFIX),
    (NONE, SECURE, "__Http-a=1; HttpOnly", PREFIX),
    (NONE, SECURE, "__hTTP-a=1; Secure", PREFIX),
    (NONE, SECURE, "__Http=1", INSERTED),
    (NONE, SECURE, "__Host-Http-a=1; Secure; HttpOnly", PREFIX),
    (NONE, SECURE, "__Host-Http-a=1; Secure; Path=/", PREFIX),
    (
        NONE,
        SECURE,
        "__Host-Http-a=1; Secure; HttpOnly; Path=/",
        INSERTED,
    ),
    (
        NONE,
        SECURE,
        "__Host-Http-a=1; Secure; HttpOnly; Path=/; Domain=site.example",
        PREFIX,
    ),
];

// Cookies of the name of a stored one.
static STORED: [Case; 18] = [
    (LOGIN, PLAIN, "a=c; Path=/login", SECURE_STORED),
    (LOGIN, PLAIN, "a=c; Path=/login/en", SECURE_STORED),
    (LOGIN, PLAIN, "a=c; Path=/", INSERTED),
    (LOGIN, PLAIN, "a=c; Path=/foo", INSERTED),
    (LOGIN, PLAIN, "a=c; Path=/loginx", INSERTED),
    (LOGIN, PLAIN, "b=c; Path=/login", INSERTED),
    (LOGIN, PLAIN, "A=c; Path=/login", INSERTED),
    (LOGIN, SECURE, "a=c; Path=/login", UPDATED),
    (
        LOGIN,
        PLAIN_WWW,
        "a=c; Path=/login; Domain=site.example",
        SECURE_STORED,
    ),
    (LOGIN, PLAIN_WWW, "a=c; Path=/login", SECURE_STORED),
    (
        WWW,
        PLAIN,
        "a=c; Path=/; Domain=site.example",
        SECURE_STORED,
    ),
    (WWW, PLAIN, "a=c; Path=/", SECURE_STORED),
    (WWW, PLAIN_SHOP, "a=c; Path=/", INSERTED),
    (
        WWW,
        PLAIN_SHOP,
        "a=c; Path=/; Domain=site.example",
        SECURE_STORED,
    ),
    (LOGIN, PLAIN, "a=c; Path=/login; Max-Age=0", SECURE_STORED),
    (EXPIRED_LOGIN, PLAIN, "a=c; Path=/login", UPDATED),
    (UNSECURE, PLAIN, "a=c; Path=/login", UPDATED),
    (UNSECURE, PLAIN, "a=c; Path=/login; Max-Age=0", EXPIRED),
];

// A store of the cookies, with a public suffix list.
fn store(rt: &impl Abort, alloc: Global, stored: &[UrlAndValue]) -> CookieStore {
    store_of(rt, alloc, stored).with_suffix_list(list(rt, alloc, "example"))
}

fn is_result(rt: &impl Abort, alloc: Global, case: &Case) {
    let (stored, from, text, wanted) = *case;
    let mut store = store(rt, alloc, stored);
    let url = url(rt, alloc, from);
    let result = parse(&mut store, text, &url, new_year());
    is_equal(rt, &result, &wanted, case);
    drop(store);
}

fn are_results(rt: &impl Abort, alloc: Global, cases: &[Case]) {
    for case in cases {
        is_result(rt, alloc, case);
    }
}

#[test]
fn control_characters_are_rejected(rt: HostRuntime) {
    are_results(&rt, rt.alloc(), &HEADER_VALUES);
}

#[test]
fn attributes_are_read(rt: HostRuntime) {
    are_results(&rt, rt.alloc(), &ATTRIBUTES);
}

#[test]
fn secure_cookies_come_from_secure_urls(rt: HostRuntime) {
    are_results(&rt, rt.alloc(), &SECURE_AND_SAME_SITE);
}

#[test]
fn prefixes_demand_attributes(rt: HostRuntime) {
    are_results(&rt, rt.alloc(), &PREFIXES);
}

#[test]
fn stored_secure_cookies_stay(rt: HostRuntime) {
    are_results(&rt, rt.alloc(), &STORED);
}

// A header value, and the cookie that is stored, as a header value.
static VALUES: [(&str, &str); 26] = [
    ("a=1\u{a0}", "a=1\u{a0}"),
    ("a=\u{3000}1", "a=\u{3000}1"),
    ("\u{a0}b=2", "\u{a0}b=2"),
    (" \tc\t = \t3 \t", "c=3"),
    ("d=4;\u{a0}Secure", "d=4"),
    ("d=4; Secure\u{a0}", "d=4"),
    ("d=4;\tSecure \t", "d=4; Secure"),
    ("e=5; Path=/\u{a0}", "e=5; Path=/\u{a0}"),
    ("e=5; Path\t=\t/x\t", "e=5; Path=/x"),
    ("e=5; \u{a0}Path=/x", "e=5"),
    ("f=6; Max-Age=1\u{a0}", "f=6"),
    ("f=6; Max-Age=-", "f=6"),
    ("f=6; Max-Age=60; Max-Age=-", "f=6; Max-Age=60"),
    ("f=6; Max-Age=60; Max-Age=x", "f=6; Max-Age=60"),
    (
        "f=6; Expires=Thu, 01 Jan 2099 00:00:00 GMT; Expires=x",
        "f=6; Expires=Thu, 01 Jan 2099 00:00:00 GMT",
    ),
    ("g=7; Domain=site.example", "g=7; Domain=site.example"),
    ("g=7; Domain=.site.example", "g=7; Domain=site.example"),
    ("g=7; Domain=site.example; Domain=", "g=7"),
    (
        "g=7; Domain=; Domain=site.example",
        "g=7; Domain=site.example",
    ),
    ("g=7; Domain=other.example; Domain", "g=7"),
    ("h=8; SameSite=Strict; SameSite=x", "h=8"),
    ("h=8; SameSite=x; SameSite=Lax", "h=8; SameSite=Lax"),
    ("h=8; SameSite=Lax\u{a0}", "h=8"),
    ("h=8; SameSite=Lax; SameSite", "h=8"),
    ("i=9; Path=/x; Path=/y", "i=9; Path=/y"),
    (
        "__Http-j=1; Secure; HttpOnly",
        "__Http-j=1; HttpOnly; Secure",
    ),
];

// Checks the cookie that is stored of the header value.
fn is_read(rt: &impl Abort, alloc: Global, url: &Url, row: &(&str, &str)) {
    let mut store = store(rt, alloc, NONE);
    let result = parse(&mut store, row.0, url, new_year());
    is_equal(rt, &result, &INSERTED, row);
    has_value(rt, alloc, &store, row);
    drop(store);
}

fn has_value(rt: &impl Abort, alloc: Global, store: &CookieStore, row: &(&str, &str)) {
    let cookie = store.iter_any().next().expect(rt, "a cookie");
    let text = cookie.raw().to_string(alloc).expect(rt, "memory");
    is_text(rt, text.as_str(), row.1, row);
}

#[test]
fn header_values_are_read_by_the_draft(rt: HostRuntime) {
    let url = url(&rt, rt.alloc(), SECURE);
    for row in &VALUES {
        is_read(&rt, rt.alloc(), &url, row);
    }
}

const CROSS_SITE: StrictResult = Err(StrictError::CrossSite);

// Same-site, top-level, Lax by default, a header value of the response, and the result.
type Response = (bool, bool, bool, &'static str, StrictResult);

static RESPONSES: [Response; 12] = [
    (true, false, true, "a=1; SameSite=Strict", INSERTED),
    (true, false, true, "a=1", INSERTED),
    (false, true, true, "a=1; SameSite=Strict", INSERTED),
    (false, true, true, "a=1; SameSite=Lax", INSERTED),
    (false, true, true, "a=1", INSERTED),
    (false, false, true, "a=1; SameSite=Strict", CROSS_SITE),
    (false, false, true, "a=1; SameSite=Lax", CROSS_SITE),
    (false, false, true, "a=1", CROSS_SITE),
    (false, false, false, "a=1", INSERTED),
    (false, false, true, "a=1; SameSite=None; Secure", INSERTED),
    (
        false,
        false,
        true,
        "a=1; SameSite=None",
        Err(StrictError::InsecureSameSiteNone),
    ),
    (
        false,
        false,
        true,
        "a=1; SameSite=None; Secure; SameSite=x",
        CROSS_SITE,
    ),
];

fn is_response(rt: &impl Abort, alloc: Global, url: &Url, response: &Response) {
    let (is_same_site, is_top_level, is_lax_by_default, text, wanted) = *response;
    let context = Context {
        is_same_site,
        is_top_level,
        is_safe: false,
        is_lax_by_default,
    };
    let mut store = store(rt, alloc, NONE);
    let result = parse_in_context(&mut store, text, url, context, new_year());
    is_equal(rt, &result, &wanted, response);
    drop(store);
}

#[test]
fn a_cross_site_response_sets_fewer_cookies(rt: HostRuntime) {
    let url = url(&rt, rt.alloc(), SECURE);
    for response in &RESPONSES {
        is_response(&rt, rt.alloc(), &url, response);
    }
}
