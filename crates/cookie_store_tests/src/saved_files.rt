//! What stores are saved as in each format.
use crate::built::UrlAndValue;
use crate::formats::{Form, Shape};
use cookie_store::serde::Format;

pub const FROM: &str = "http://b.a.com/p/q";

const RECEIVED: [UrlAndValue; 2] = [
    (FROM, "a=1; Max-Age=300"),
    (FROM, "b=2; Path=/; Domain=a.com; Max-Age=300"),
];

// As the functions of the tests write them.
const VALUES: &str = "a=1; Max-Age=300\nb=2; Path=/; Domain=a.com; Max-Age=300\n";

const PAIRS: &str = "a=1|b=2|\n";

pub const OF_TWO_HOSTS: [UrlAndValue; 4] = [
    (
        "http://foo.example.com/foo",
        "cookie3=value3; Path=/foo/bar",
    ),
    (
        "http://foo.example.com/foo/bar",
        "cookie2=value2; Domain=example.com",
    ),
    (
        "http://test.com/",
        "2=two; SameSite=None; Secure; Path=/; Expires=Tue, 03 Aug 2100 00:38:37 GMT",
    ),
    (
        "http://test.com/",
        "q=\"\\; Expires=Tue, 03 Aug 2100 00:38:37 GMT",
    ),
];

// Their lines: members in the order of their names, and no spaces.
pub const LINES: &str =
    r#"{"domain":{"HostOnly":"foo.example.com"},"expires":"SessionEnd","path":["/foo/bar",true],"raw_cookie":"cookie3=value3; Path=/foo/bar"}
{"domain":{"Suffix":"example.com"},"expires":"SessionEnd","path":["/foo",false],"raw_cookie":"cookie2=value2; Domain=example.com"}
{"domain":{"HostOnly":"test.com"},"expires":{"AtUtc":"2100-08-03T00:38:37Z"},"path":["/",true],"raw_cookie":"2=two; SameSite=None; Secure; Path=/; Expires=Tue, 03 Aug 2100 00:38:37 GMT"}
{"domain":{"HostOnly":"test.com"},"expires":{"AtUtc":"2100-08-03T00:38:37Z"},"path":["/",false],"raw_cookie":"q=\"\\; Expires=Tue, 03 Aug 2100 00:38:37 GMT"}
"#;

// The lines of the persistent cookies.
const LASTING_LINES: &str =
    r#"{"domain":{"HostOnly":"test.com"},"expires":{"AtUtc":"2100-08-03T00:38:37Z"},"path":["/",true],"raw_cookie":"2=two; SameSite=None; Secure; Path=/; Expires=Tue, 03 Aug 2100 00:38:37 GMT"}
{"domain":{"HostOnly":"test.com"},"expires":{"AtUtc":"2100-08-03T00:38:37Z"},"path":["/",false],"raw_cookie":"q=\"\\; Expires=Tue, 03 Aug 2100 00:38:37 GMT"}
"#;

// A persistent cookie, a session cookie with signs that are escaped, and a cookie of a domain.
const ESCAPED: [UrlAndValue; 3] = [
    (
        "http://test.com/",
        "2=two; SameSite=None; Secure; Path=/; Expires=Tue, 03 Aug 2100 00:38:37 GMT",
    ),
    ("http://test.com/a/b", "s=\"\\"),
    (FROM, "b=2; Path=/; Domain=a.com; Max-Age=300"),
];

// The list of all of them.
pub const JSON: &str = r#"[
  {
    "domain": {
      "HostOnly": "test.com"
    },
    "expires": {
      "AtUtc": "2100-08-03T00:38:37Z"
    },
    "path": [
      "/",
      true
    ],
    "raw_cookie": "2=two; SameSite=None; Secure; Path=/; Expires=Tue, 03 Aug 2100 00:38:37 GMT"
  },
  {
    "domain": {
      "HostOnly": "test.com"
    },
    "expires": "SessionEnd",
    "path": [
      "/a",
      false
    ],
    "raw_cookie": "s=\"\\"
  },
  {
    "domain": {
      "Suffix": "a.com"
    },
    "expires": {
      "AtUtc": "2026-01-01T00:05:00Z"
    },
    "path": [
      "/",
      true
    ],
    "raw_cookie": "b=2; Path=/; Domain=a.com; Max-Age=300"
  }
]
"#;

// The list of the persistent ones.
const LASTING_JSON: &str = r#"[
  {
    "domain": {
      "HostOnly": "test.com"
    },
    "expires": {
      "AtUtc": "2100-08-03T00:38:37Z"
    },
    "path": [
      "/",
      true
    ],
    "raw_cookie": "2=two; SameSite=None; Secure; Path=/; Expires=Tue, 03 Aug 2100 00:38:37 GMT"
  },
  {
    "domain": {
      "Suffix": "a.com"
    },
    "expires": {
      "AtUtc": "2026-01-01T00:05:00Z"
    },
    "path": [
      "/",
      true
    ],
    "raw_cookie": "b=2; Path=/; Domain=a.com; Max-Age=300"
  }
]
"#;

// The same in RON.
pub const RON: &str = r#"[
    (
        raw_cookie: "2=two; SameSite=None; Secure; Path=/; Expires=Tue, 03 Aug 2100 00:38:37 GMT",
        path: ("/", true),
        domain: HostOnly("test.com"),
        expires: AtUtc("2100-08-03T00:38:37Z"),
    ),
    (
        raw_cookie: "s=\"\\",
        path: ("/a", false),
        domain: HostOnly("test.com"),
        expires: SessionEnd,
    ),
    (
        raw_cookie: "b=2; Path=/; Domain=a.com; Max-Age=300",
        path: ("/", true),
        domain: Suffix("a.com"),
        expires: AtUtc("2026-01-01T00:05:00Z"),
    ),
]
"#;

const LASTING_RON: &str = r#"[
    (
        raw_cookie: "2=two; SameSite=None; Secure; Path=/; Expires=Tue, 03 Aug 2100 00:38:37 GMT",
        path: ("/", true),
        domain: HostOnly("test.com"),
        expires: AtUtc("2100-08-03T00:38:37Z"),
    ),
    (
        raw_cookie: "b=2; Path=/; Domain=a.com; Max-Age=300",
        path: ("/", true),
        domain: Suffix("a.com"),
        expires: AtUtc("2026-01-01T00:05:00Z"),
    ),
]
"#;

// A cookie with a lifetime of a second, a session cookie, and a cookie of a domain.
const MIXED: [UrlAndValue; 3] = [
    ("http://a.com/", "b=1; Max-Age=1"),
    ("http://a.com/", "c=1"),
    (FROM, "d=2; Domain=a.com; Max-Age=300"),
];

const NETSCAPE: &str = "# Netscape HTTP Cookie File\n\
    a.com\tFALSE\t/\tFALSE\t1767225601\tb\t1\n\
    a.com\tFALSE\t/\tFALSE\t0\tc\t1\n\
    .a.com\tTRUE\t/p\tFALSE\t1767225900\td\t2\n";

const LASTING_NETSCAPE: &str = "# Netscape HTTP Cookie File\n\
    a.com\tFALSE\t/\tFALSE\t1767225601\tb\t1\n\
    .a.com\tTRUE\t/p\tFALSE\t1767225900\td\t2\n";

// A format, cookies, and what they are saved as: all, and the persistent ones.
pub type File = (Shape, &'static [UrlAndValue], &'static str, &'static str);

static FILES: [File; 13] = [
    (Shape::Values, &RECEIVED, VALUES, VALUES),
    (Shape::Pairs, &RECEIVED, PAIRS, PAIRS),
    (Shape::JsonLines, &OF_TWO_HOSTS, LINES, LASTING_LINES),
    (Shape::JsonLines, &[], "", ""),
    (Shape::Migrated, &OF_TWO_HOSTS, LINES, LASTING_LINES),
    (Shape::File(Form::Json), &ESCAPED, JSON, LASTING_JSON),
    (Shape::File(Form::Json), &[], "[]\n", "[]\n"),
    (Shape::File(Form::Ron), &ESCAPED, RON, LASTING_RON),
    (
        Shape::File(Form::Netscape),
        &MIXED,
        NETSCAPE,
        LASTING_NETSCAPE,
    ),
    (
        Shape::File(Form::WellFormed),
        &MIXED,
        NETSCAPE,
        LASTING_NETSCAPE,
    ),
    (
        Shape::File(Form::As(Format::Json)),
        &ESCAPED,
        JSON,
        LASTING_JSON,
    ),
    (
        Shape::File(Form::As(Format::Ron)),
        &ESCAPED,
        RON,
        LASTING_RON,
    ),
    (
        Shape::File(Form::As(Format::Netscape)),
        &MIXED,
        NETSCAPE,
        LASTING_NETSCAPE,
    ),
];

pub fn files() -> &'static [File] {
    &FILES
}

// What all cookies of the file are saved as, or the persistent ones.
pub fn text_in(file: &File, all: bool) -> &'static str {
    if all { file.2 } else { file.3 }
}
