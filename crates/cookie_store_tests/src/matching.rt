//! Cookies that match a URL, and the Cookie header of a request.
use crate::formats::{Form, from_text};
use crate::steps::{INSERTED, Step, UPDATED, new_year, take_all};
use cookie_store::{CookieError, CookieStore};
use jiff::civil::DateTime;
use std::alloc::Global;
use std::process::Abort;

const FROM: &str = "http://a.b.example.com/x/y/z";

// An empty store returns nothing; some cookies are rejected, and the others are returned in the
// store's order.
static IN_ORDER: [Step; 19] = [
    Step::Given("http://a.com/p/q", ""),
    Step::Set("http://a.com/", "x=1", INSERTED),
    Step::Set("http://b.com/", "y=1", INSERTED),
    Step::Set("http://a.com/", "z=1; Path=/p", INSERTED),
    Step::Set("http://a.com/", "w=1", INSERTED),
    Step::Set("http://a.com/", "x=2", UPDATED),
    Step::Set(
        "http://foo.example.com/",
        "cookie1=value1; Domain=oo.example.com",
        Err(CookieError::DomainMismatch),
    ),
    Step::Given("http://a.com/p/q", "x=2; w=1; z=1"),
    Step::Given("http://b.com/", "y=1"),
    Step::Set("data:x", "a=1", Err(CookieError::NonRelativeScheme)),
    Step::Given("http://a.com/p/q", "x=2; w=1; z=1"),
    Step::Given("http://b.com/", "y=1"),
    Step::Set("http://a.com/", "a", Err(CookieError::Parse)),
    Step::Given("http://a.com/p/q", "x=2; w=1; z=1"),
    Step::Given("http://b.com/", "y=1"),
    Step::Set(FROM, "c=3; Path=/x", INSERTED),
    Step::Set(FROM, "a=1; Domain=example.com; Path=/", INSERTED),
    Step::Set(FROM, "b=2; Domain=b.example.com; Path=/x/y/z", INSERTED),
    Step::Given(FROM, "c=3; a=1; b=2"),
];

// The earliest time that there is; a script of the program cannot name it.
#[test]
fn cookies_match_in_order_at_the_earliest_time(rt: HostRuntime) {
    let mut store = CookieStore::default(rt.alloc());
    take_all(&rt, rt.alloc(), &mut store, &IN_ORDER, DateTime::MIN);
    drop(store);
}

const DEEP: &str = "http://www.deep.example/a/b/c";

const ROOT_FIRST: &str = "http://www.root.example/app/x";

const APP_FIRST: &str = "http://www.app.example/app/x";

const MIXED: &str = "http://www.mixed.example/a/b/c";

const RFC: &str = "https://example.com/";

// The Cookie header, in the order of RFC 6265 5.4.
static SENT: [Step; 26] = [
    // RFC 6265 3.1
    Step::Set(
        RFC,
        "SID=31d4d96e407aad42; Path=/; Secure; HttpOnly",
        INSERTED,
    ),
    Step::Set(RFC, "lang=en-US; Path=/; Domain=example.com", INSERTED),
    Step::Sent(RFC, "SID=31d4d96e407aad42; lang=en-US"),
    Step::Sent("https://www.example.com/", "lang=en-US"),
    Step::Sent("https://www.example.net/", ""),
    // as Go's net/http/cookiejar lists them
    Step::Set(DEEP, "r1=1; Path=/", INSERTED),
    Step::Set(DEEP, "ab=1; Path=/a/b", INSERTED),
    Step::Set(DEEP, "a1=1; Path=/a", INSERTED),
    Step::Set(DEEP, "r2=1; Path=/", INSERTED),
    Step::Set(DEEP, "c1=1", INSERTED),
    Step::Set(DEEP, "r1=2; Path=/", UPDATED),
    Step::Set(DEEP, "a2=1; Path=/a/", INSERTED),
    Step::Sent(DEEP, "ab=1; c1=1; a2=1; a1=1; r1=2; r2=1"),
    Step::Set(MIXED, "d1=1; Domain=mixed.example; Path=/", INSERTED),
    Step::Set(MIXED, "h1=1; Path=/", INSERTED),
    Step::Set(MIXED, "h2=1; Path=/a", INSERTED),
    Step::Set(MIXED, "d2=1; Domain=mixed.example; Path=/a", INSERTED),
    Step::Set(MIXED, "d1=2; Domain=mixed.example; Path=/", UPDATED),
    Step::Sent(MIXED, "h2=1; d2=1; d1=2; h1=1"),
    // Go's and curl's stores send the longer path first too
    Step::Set(ROOT_FIRST, "id=root; Path=/", INSERTED),
    Step::Set(ROOT_FIRST, "id=app; Path=/app", INSERTED),
    Step::Sent(ROOT_FIRST, "id=app; id=root"),
    Step::Set(APP_FIRST, "id=app; Path=/app", INSERTED),
    Step::Set(APP_FIRST, "id=root; Path=/", INSERTED),
    Step::Sent(APP_FIRST, "id=app; id=root"),
    Step::Given(ROOT_FIRST, "id=root; id=app"),
];

#[test]
fn longer_paths_are_sent_first(rt: HostRuntime) {
    let mut store = CookieStore::new(rt.alloc());
    take_all(&rt, rt.alloc(), &mut store, &SENT, new_year());
    drop(store);
}

// Cookies as they may be loaded: some domains are not a domain name, some paths do not begin with
// `/`. The last cookie is an ordinary one.
const LOADED: &str = r#"[
    (raw_cookie: "a=1", path: ("/", false), domain: HostOnly(""), expires: SessionEnd),
    (raw_cookie: "b=1", path: ("/", false), domain: Suffix(""), expires: SessionEnd),
    (raw_cookie: "c=1", path: ("/", false), domain: NotPresent, expires: SessionEnd),
    (raw_cookie: "d=1", path: ("/", false), domain: Empty, expires: SessionEnd),
    (raw_cookie: "e=1", path: ("/", false), domain: HostOnly("."), expires: SessionEnd),
    (raw_cookie: "f=1", path: ("/", false), domain: Suffix("."), expires: SessionEnd),
    (raw_cookie: "g=1", path: ("", false), domain: HostOnly("a.com"), expires: SessionEnd),
    (raw_cookie: "h=1", path: ("p", true), domain: HostOnly("a.com"), expires: SessionEnd),
    (raw_cookie: "k=1", path: ("/", false), domain: HostOnly("a.com"), expires: SessionEnd),
]"#;

// All are stored, and only the last one matches a URL.
const LOADED_ROWS: [Step; 9] = [
    Step::Listed(" / a,  / b,  / c,  / d, . / e, . / f, a.com  g, a.com p h, a.com / k"),
    Step::Given("http://a.com/p", "k=1"),
    Step::Given("http://a.com./p", ""),
    Step::Given("http://a.com../p", ""),
    Step::Given("http://./p", ""),
    Step::Given("foo://./p", ""),
    Step::Given("foo:///p", ""),
    Step::Given("foo:p", ""),
    Step::Given("data:p", ""),
];

// A list as the Rust crate writes it, with members in the order of their declaration.
const TEN: &str = r#"[
  {
    "raw_cookie": "sid=31d4d96e407aad42; Path=/; Domain=example.com; Secure; HttpOnly",
    "path": [
      "/",
      true
    ],
    "domain": {
      "Suffix": "example.com"
    },
    "expires": "SessionEnd"
  },
  {
    "raw_cookie": "lang=en-US; Path=/; Domain=example.com",
    "path": [
      "/",
      true
    ],
    "domain": {
      "Suffix": "example.com"
    },
    "expires": {
      "AtUtc": "2101-06-09T10:18:14Z"
    }
  },
  {
    "raw_cookie": "cart=\"2 items\"; Path=/shop",
    "path": [
      "/shop",
      true
    ],
    "domain": {
      "HostOnly": "www.example.com"
    },
    "expires": {
      "AtUtc": "2100-01-01T00:00:00.25Z"
    }
  },
  {
    "raw_cookie": "seen=1",
    "path": [
      "/shop/new",
      false
    ],
    "domain": {
      "HostOnly": "www.example.com"
    },
    "expires": {
      "AtUtc": "2000-02-29T23:59:59Z"
    }
  },
  {
    "raw_cookie": "theme=d\u00e4mmrig",
    "path": [
      "/",
      false
    ],
    "domain": {
      "HostOnly": "www.example.com"
    },
    "expires": "SessionEnd"
  },
  {
    "raw_cookie": "a=1; SameSite=None; Secure",
    "path": [
      "/",
      false
    ],
    "domain": {
      "HostOnly": "127.0.0.1"
    },
    "expires": {
      "AtUtc": "9999-12-31T23:59:59Z"
    }
  },
  {
    "raw_cookie": "b=",
    "path": [
      "/",
      false
    ],
    "domain": {
      "HostOnly": "[::1]"
    },
    "expires": {
      "AtUtc": "1970-01-01T00:00:00Z"
    }
  },
  {
    "raw_cookie": "c=\\; Path=/x",
    "path": [
      "/x",
      true
    ],
    "domain": {
      "Suffix": "xn--bcher-kva.example"
    },
    "expires": "SessionEnd"
  },
  {
    "raw_cookie": "d=4",
    "path": [
      "/",
      false
    ],
    "domain": "NotPresent",
    "expires": "SessionEnd"
  },
  {
    "raw_cookie": "lang=de; Path=/; Domain=example.com",
    "path": [
      "/",
      true
    ],
    "domain": {
      "Suffix": "example.com"
    },
    "expires": {
      "AtUtc": "2101-06-09T10:18:15Z"
    }
  }
]
"#;

// All its cookies; the last one of a key replaces the first.
const TEN_ROWS: [Step; 2] = [
    Step::Listed(
        "example.com / sid, example.com / lang, www.example.com /shop cart, www.example.com /shop/new seen, \
        www.example.com / theme, 127.0.0.1 / a, [::1] / b, xn--bcher-kva.example /x c,  / d",
    ),
    Step::Given("http://example.com/", "lang=de"),
];

static LISTS: [(Form, &str, &[Step]); 2] = [
    (Form::Ron, LOADED, &LOADED_ROWS),
    (Form::Json, TEN, &TEN_ROWS),
];

// Executes the steps on the store of the list.
fn is_loaded(rt: &impl Abort, alloc: Global, list: &(Form, &'static str, &'static [Step])) {
    let mut store = from_text(alloc, list.0, true, list.1).expect(rt, "a store");
    take_all(rt, alloc, &mut store, list.2, new_year());
    drop(store);
}

#[test]
fn loaded_cookies_match(rt: HostRuntime) {
    for list in &LISTS {
        is_loaded(&rt, rt.alloc(), list);
    }
}
