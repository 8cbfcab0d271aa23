//! Each call that may allocate, with large input and ample memory: its result is that of small
//! input, and not out of memory.
use crate::checks::{is_equal, is_text};
use crate::cookie::{Call, cookie_by, is_cookie};
use crate::domain::{Origin, is_domain};
use crate::parts::{expanded, url};
use crate::path::{is_covered, is_path};
use crate::raw::prints;
use crate::saved::{Form, is_printed_again};
use cookie_parts::cookie_domain::is_match;
use cookie_psl::{List, ListError};
use cookie_raw::RawCookie;
use std::alloc::Global;
use std::process::Abort;
use url::Url;

const HOST: &str = "·example";

const PAGE: &str = "http://·example/…/page";

// A header value of 130 KB.
const RECEIVED: &str = "a=…; Path=/…; Domain=·example; Max-Age=60";

// Its cookie as a raw cookie, and the saved form.
const EXPIRES: &str = "a=…; Path=/…; Domain=·example; Expires=Thu, 01 Jan 2026 00:01:00 GMT";

const SAVED: &str =
    r#"{"domain":{"Suffix":"·example"},"expires":{"AtUtc":"2026-01-01T00:01:00Z"},"path":["/…",true],"raw_cookie":"a=…; Path=/…; Domain=·example; Max-Age=60"}"#;

fn page_url(rt: &impl Abort, alloc: Global) -> Url {
    let page = expanded(rt, alloc, PAGE);
    let url = url(rt, alloc, page.as_str());
    is_text(rt, url.as_str(), page.as_str(), &"the URL");
    drop(page);
    url
}

fn is_created(rt: &impl Abort, alloc: Global, call: Call, text: &str) {
    let url = page_url(rt, alloc);
    let cookie = cookie_by(rt, alloc, call, text, &url).expect(rt, "a cookie");
    let wanted = expanded(rt, alloc, SAVED);
    is_cookie(rt, alloc, &cookie, wanted.as_str(), &call);
    drop(wanted);
    drop(cookie);
    drop(url);
}

// The raw cookie of the header value, and that of its cookie.
fn raw_cookie(rt: &impl Abort, alloc: Global, text: &str) -> RawCookie<'static> {
    let raw = RawCookie::parse(text).expect(rt, "a cookie");
    raw.into_owned(alloc).expect(rt, "memory")
}

fn converted(rt: &impl Abort, alloc: Global, text: &str) -> RawCookie<'static> {
    let url = page_url(rt, alloc);
    let cookie = cookie_by(rt, alloc, Call::Parse, text, &url).expect(rt, "a cookie");
    drop(url);
    cookie.into_raw(alloc).expect(rt, "memory")
}

fn are_printed(rt: &impl Abort, alloc: Global, text: &str) {
    let raw = raw_cookie(rt, alloc, text);
    prints(rt, alloc, &raw, text, true);
    drop(raw);
    let wanted = expanded(rt, alloc, EXPIRES);
    let raw = converted(rt, alloc, text);
    prints(rt, alloc, &raw, wanted.as_str(), true);
    drop(raw);
    drop(wanted);
}

#[test]
fn long_cookies_are_created_and_printed(rt: HostRuntime) {
    let text = expanded(&rt, rt.alloc(), RECEIVED);
    for call in [Call::Parse, Call::ParseOwned, Call::TryFromRaw] {
        is_created(&rt, rt.alloc(), call, text.as_str());
    }
    are_printed(&rt, rt.alloc(), text.as_str());
    drop(text);
}

fn are_domains(rt: &impl Abort, alloc: Global, host: &str, page: &str, text: &str) {
    is_domain(rt, alloc, &Origin::Text(host), ("Suffix", host));
    is_domain(rt, alloc, &Origin::Raw(text), ("Suffix", host));
    is_domain(rt, alloc, &Origin::Host(page), ("HostOnly", host));
    let url = url(rt, alloc, page);
    let is_match = is_match(alloc, host, &url).expect(rt, "memory");
    is_equal(rt, &is_match, &true, &"the host");
    drop(url);
}

fn are_paths(rt: &impl Abort, alloc: Global, path: &str, page: &str) {
    is_path(rt, alloc, page, Some(path), (path, true));
    is_path(rt, alloc, page, None, (path, false));
    is_covered(rt, alloc, path, page, true);
}

#[test]
fn long_domains_and_paths_are_parsed(rt: HostRuntime) {
    let host = expanded(&rt, rt.alloc(), HOST);
    let page = expanded(&rt, rt.alloc(), PAGE);
    let text = expanded(&rt, rt.alloc(), RECEIVED);
    let path = expanded(&rt, rt.alloc(), "/…");
    are_domains(&rt, rt.alloc(), host.as_str(), page.as_str(), text.as_str());
    are_paths(&rt, rt.alloc(), path.as_str(), page.as_str());
    drop(path);
    drop(text);
    drop(page);
    drop(host);
}

// A form of one cookie or of several, as it is printed: its beginning, an item and how often it is
// there, and its end.
static FORMS: [(Form, &str, &str, usize, &str); 5] = [
    (
        Form::Cookie,
        r#"{"domain":"Empty","expires":"SessionEnd","path":["/",false],"raw_cookie":"a="#,
        "v",
        102_400,
        r#""}"#,
    ),
    (
        Form::CookieTree,
        r#"{"domain":"Empty","expires":"SessionEnd","path":["/",false],"raw_cookie":"a="#,
        "v",
        102_400,
        r#""}"#,
    ),
    (
        Form::List,
        "[\n",
        r#"  {
    "domain": "Empty",
    "expires": "SessionEnd",
    "path": [
      "/",
      false
    ],
    "raw_cookie": "a=1"
  },
"#,
        5_999,
        r#"  {
    "domain": "Empty",
    "expires": "SessionEnd",
    "path": [
      "/",
      false
    ],
    "raw_cookie": "b=1"
  }
]"#,
    ),
    (
        Form::ListTree,
        "[",
        r#"{"domain":"Empty","expires":{"AtUtc":"2100-01-01T00:00:00Z"},"path":["/",false],"raw_cookie":"a=1"},"#,
        5_999,
        r#"{"domain":"Empty","expires":"SessionEnd","path":["/",false],"raw_cookie":"b=1"}]"#,
    ),
    (
        Form::Ron,
        "[\n",
        r#"    (
        raw_cookie: "a=1",
        path: ("/", false),
        domain: HostOnly("a.example"),
        expires: AtUtc("2100-01-01T00:00:00Z"),
    ),
"#,
        6_000,
        "]",
    ),
];

fn is_form(rt: &impl Abort, alloc: Global, row: &(Form, &str, &str, usize, &str)) {
    let items = row.2.repeat(alloc, row.3).expect(rt, "memory");
    let text = format!(in alloc; "{}{items}{}", row.1, row.4).expect(rt, "memory");
    is_printed_again(rt, alloc, row.0, text.as_str(), Ok(text.as_str()));
    drop(text);
    drop(items);
}

#[test]
fn long_saved_forms_are_read_and_printed(rt: HostRuntime) {
    for row in &FORMS {
        is_form(&rt, rt.alloc(), row);
    }
}

// A rule of n labels and one more.
fn rule(rt: &impl Abort, alloc: Global, labels: usize) -> String {
    let labels = "a.".repeat(alloc, labels).expect(rt, "memory");
    let rule = format!(in alloc; "{labels}a").expect(rt, "memory");
    drop(labels);
    rule
}

// A rule has at most 127 labels.
#[test]
fn rules_have_at_most_127_labels(rt: HostRuntime) {
    let long = rule(&rt, rt.alloc(), 127);
    let error = List::from_text(rt.alloc(), long.as_str()).err();
    is_equal(
        &rt,
        &error,
        &Some(ListError::BadRule { line: 1 }),
        &"a rule of 128",
    );
    let rule = rule(&rt, rt.alloc(), 126);
    let list = List::from_text(rt.alloc(), rule.as_str()).expect(&rt, "a list");
    let domain = "a.".repeat(rt.alloc(), 10_000).expect(&rt, "memory");
    let suffix = list.suffix(domain.as_str()).expect(&rt, "a suffix");
    is_equal(&rt, &suffix.as_str().len(), &254, &"a rule of 127");
    drop(domain);
    drop(list);
    drop(rule);
    drop(long);
}
