//! Input that is not of its format.
use crate::checks::is_message;
use crate::formats::{Form, Shape, from_text, load};
use crate::saved_files::{JSON as JSON_LIST, RON as RON_FILE};
use cookie_fakes::Fake;
use cookie_store::serde::Format;
use std::alloc::Global;
use std::process::Abort;

const LINES: Shape = Shape::JsonLines;

const LIST: Shape = Shape::File(Form::Json);

const RON_LIST: Shape = Shape::File(Form::Ron);

const JSON: &str = "the input is not JSON";

const SHAPE: &str = "a value is not a saved cookie";

const RON: &str = "the input is not a list in RON";

const TIME: &str = "an expiry is not a valid time, or is before the year 0";

const COOKIE: &str = "unable to parse string as cookie::Cookie";

const UTF_8: &str = "the input is not UTF-8";

// A format, bytes, and the message of the error, empty for those that are loaded.
type Input = (Shape, &'static [u8], &'static str);

static JSON_LINES: [Input; 15] = [
    (LINES, b"{\n", JSON),
    (LINES, b"\n", JSON),
    (LINES, b"[\n{}\n]\n", JSON),
    (LINES, br#"{"raw_cookie":"a=1""#, JSON),
    (
        LINES,
        br#"{"domain":"Empty","expires":"SessionEnd","path":["/",true],"raw_cookie":"\ud800=1"}"#,
        JSON,
    ),
    (LINES, b"[]\n", SHAPE),
    (LINES, b"7", SHAPE),
    (LINES, br#"{"raw_cookie":"a=1"}"#, SHAPE),
    (
        LINES,
        br#"{"domain":"Empty","expires":"SessionEnd","path":["/"],"raw_cookie":"a=1"}"#,
        SHAPE,
    ),
    (
        LINES,
        br#"{"domain":"Empty","expires":"SessionEnd","path":["/",true],"raw_cookie":"a=1","x":1.5}"#,
        SHAPE,
    ),
    (
        LINES,
        br#"{"domain":"Empty","expires":{"AtUtc":"2100-02-29T00:00:00Z"},"path":["/",true],"raw_cookie":"a=1"}"#,
        TIME,
    ),
    (
        LINES,
        br#"{"domain":"Empty","expires":"SessionEnd","path":["/",true],"raw_cookie":"nopair"}"#,
        COOKIE,
    ),
    (LINES, b"\xff\n", UTF_8),
    (
        LINES,
        br#"{"domain":"Empty","expires":"SessionEnd","path":["/",true],"raw_cookie":"a=1","x":1}"#,
        "",
    ),
    // what another format accepts
    (
        LINES,
        br#"[
  {
    "domain": {
      "HostOnly": "test.com"
    },
    "expires": {
      "AtUtc": "2100-08-03T00:38:37Z"
    },
    "path": [
      "/",
      true
    ],
    "raw_cookie": "2=two; SameSite=None; Secure; Path=/; Expires=Tue, 03 Aug 2100 00:38:37 GMT"
  }
]
"#,
        JSON,
    ),
];

static JSON_LISTS: [Input; 22] = [
    (LIST, b"", JSON),
    (LIST, b"\n", JSON),
    (LIST, b"[", JSON),
    (LIST, b"[]]", JSON),
    (LIST, b"[]\n[]", JSON),
    (LIST, b"[\0]", JSON),
    (LIST, b"\xef\xbb\xbf[]", JSON),
    (LIST, b"[\xff]", UTF_8),
    (LIST, b"\xff", UTF_8),
    (LIST, b"{}", SHAPE),
    (LIST, b"null", SHAPE),
    (LIST, b"[7]", SHAPE),
    (LIST, b"[1.5]", SHAPE),
    (LIST, br#"[{"raw_cookie":"a=1"}]"#, SHAPE),
    (
        LIST,
        br#"[{"domain":"Empty","expires":{"AtUtc":"2100-02-29T00:00:00Z"},"path":["/",true],"raw_cookie":"a=1"}]"#,
        TIME,
    ),
    (
        LIST,
        br#"[{"domain":"Empty","expires":{"AtUtc":"2100-02-29T00:00:00Z"},"path":["/",true],"raw_cookie":"a=1"},
            {"domain":"Empty","expires":"SessionEnd","path":["/"],"raw_cookie":"a=1"}]"#,
        SHAPE,
    ),
    (
        LIST,
        br#"[{"domain":"Empty","expires":"SessionEnd","path":["/",true],"raw_cookie":"nopair"},
            {"domain":"Empty","expires":{"AtUtc":"2100-13-01T00:00:00Z"},"path":["/",true],"raw_cookie":"a=1"}]"#,
        TIME,
    ),
    (
        LIST,
        br#"[{"domain":"Empty","expires":"SessionEnd","path":["/",true],"raw_cookie":"a=1"},
            {"domain":"Empty","expires":"SessionEnd","path":["/",true],"raw_cookie":"nopair"}]"#,
        COOKIE,
    ),
    (
        LIST,
        br#"[{"domain":"Empty","expires":"SessionEnd","path":["/",true],"raw_cookie":"\ud800=1"}]"#,
        JSON,
    ),
    (
        LIST,
        br#"[{"domain":{"HostOnly":"a"},"domain":"Empty","expires":"SessionEnd","path":["/",true],"raw_cookie":"a=1","x":[1]}]"#,
        "",
    ),
    (LIST, b" [ ] ", ""),
    // what another format accepts
    (
        LIST,
        br#"{"domain":"Empty","expires":"SessionEnd","path":["/",true],"raw_cookie":"a=1"}"#,
        SHAPE,
    ),
];

// Lists in RON: what is no list, and values.
static RON_VALUES: [Input; 21] = [
    (RON_LIST, b"", RON),
    (RON_LIST, b"\n", RON),
    (RON_LIST, b"[", RON),
    (RON_LIST, b"[,]", RON),
    (RON_LIST, b"[] []", RON),
    (RON_LIST, b"[\0]", RON),
    (RON_LIST, b"{}", RON),
    (RON_LIST, b"\xef\xbb\xbf[]", RON),
    (RON_LIST, b"[/* none */]", RON),
    (RON_LIST, b"[\xff]", UTF_8),
    (
        RON_LIST,
        br#"[(path: ("/", true), raw_cookie: "a=1", domain: Empty, expires: SessionEnd)]"#,
        RON,
    ),
    (
        RON_LIST,
        br#"[(raw_cookie: "a=\q", path: ("/", true), domain: Empty, expires: SessionEnd)]"#,
        RON,
    ),
    (
        RON_LIST,
        br#"[(raw_cookie: "a=\u{D800}", path: ("/", true), domain: Empty, expires: SessionEnd)]"#,
        RON,
    ),
    (
        RON_LIST,
        br#"[(raw_cookie: "a=1", path: ("/", true), domain: Empty, expires: AtUtc("2100-02-29T00:00:00Z"))]"#,
        TIME,
    ),
    (
        RON_LIST,
        br#"[(raw_cookie: "a=1", path: ("/", true), domain: Empty, expires: AtUtc("2100-02-29T00:00:00Z")), ()]"#,
        RON,
    ),
    (
        RON_LIST,
        br#"[(raw_cookie: "nopair", path: ("/", true), domain: Empty, expires: SessionEnd),
            (raw_cookie: "a=1", path: ("/", true), domain: Empty, expires: AtUtc("2100-13-01T00:00:00Z"))]"#,
        TIME,
    ),
    (
        RON_LIST,
        br#"[(raw_cookie: "nopair", path: ("/", true), domain: Empty, expires: SessionEnd)]"#,
        COOKIE,
    ),
    (
        RON_LIST,
        br#"[(raw_cookie:"a=1",path:("/",true),domain:Empty,expires:SessionEnd)]"#,
        "",
    ),
    (
        RON_LIST,
        br#" [ ( raw_cookie : "\x41=\u{1F36A}" , path : ( "/" , false , ) , domain : Suffix ( "a.com" , ) , expires : SessionEnd , ) , ] "#,
        "",
    ),
    (RON_LIST, b" [ ] ", ""),
    (RON_LIST, b"[(raw_cookie: \"\xc3", UTF_8),
];

// Lists in RON with strings and members of another form, and other white space.
static RON_MEMBERS: [Input; 10] = [
    (
        RON_LIST,
        br#"[(raw_cookie: r"a=1", path: ("/", true), domain: Empty, expires: SessionEnd)]"#,
        RON,
    ),
    (
        RON_LIST,
        br#"[(raw_cookie: b"a=1", path: ("/", true), domain: Empty, expires: SessionEnd)]"#,
        RON,
    ),
    (
        RON_LIST,
        br#"[Cookie(raw_cookie: "a=1", path: ("/", true), domain: Empty, expires: SessionEnd)]"#,
        RON,
    ),
    (
        RON_LIST,
        br#"[(raw_cookie: "a=1", path: ("/", true), domain: Empty)]"#,
        RON,
    ),
    (
        RON_LIST,
        br#"[(raw_cookie: "a=1", path: ("/", true), domain: Empty, expires: SessionEnd, secure: true)]"#,
        RON,
    ),
    (
        RON_LIST,
        br#"[(raw_cookie: "a=1" path: ("/", true), domain: Empty, expires: SessionEnd)]"#,
        RON,
    ),
    (
        RON_LIST,
        br#"[(raw_cookie: "a=\u{41", path: ("/", true), domain: Empty, expires: SessionEnd)]"#,
        RON,
    ),
    (
        RON_LIST,
        br#"[(raw_cookie: "a=1", path: ("/", true), domain: Empty, expires: SessionEnd), // one
        ]"#,
        RON,
    ),
    (
        RON_LIST,
        br#"[(raw_cookie: "a=1", path: ("\x2f", true), domain: HostOnly("a\x2ecom"), expires: AtUtc("\x32100-08-03T00:38:37Z"))]"#,
        "",
    ),
    (
        RON_LIST,
        b"[\r\n(raw_cookie:\"a=1\",\r\npath:(\"/\",true),\r\ndomain:Empty,\r\nexpires:SessionEnd)\r\n]\r\n",
        "",
    ),
];

static MIGRATED: [Input; 10] = [
    (Shape::Migrated, b"", ""),
    (
        Shape::Migrated,
        br#"{"raw_cookie":"a=1","path":["/",false],"domain":{"HostOnly":"a.com"},"expires":"SessionEnd"}"#,
        "",
    ),
    (Shape::Migrated, b"{", "line 1: the input is not JSON"),
    (
        Shape::Migrated,
        br#"{"raw_cookie":"a=1","path":["/",false],"domain":{"HostOnly":"a.com"},"expires":"SessionEnd"}
{
"#,
        "line 2: the input is not JSON",
    ),
    (
        Shape::Migrated,
        br#"{"raw_cookie":"a=1","path":["/",false],"domain":{"HostOnly":"a.com"},"expires":"SessionEnd"}

{"raw_cookie":"a=1","path":["/",false],"domain":{"HostOnly":"a.com"},"expires":"SessionEnd"}
"#,
        "line 2: the input is not JSON",
    ),
    (
        Shape::Migrated,
        b"[]\n{\n",
        "line 1: a value is not a saved cookie",
    ),
    (
        Shape::Migrated,
        br#"{"raw_cookie":"a=1","path":["/",false],"domain":"Empty","expires":"SessionEnd"}
{"raw_cookie":"b=1","path":["/",false],"domain":"Empty","expires":"SessionEnd"}
{"raw_cookie":"c=1","path":["/",false],"domain":"Empty","expires":{"AtUtc":"2100-02-29T00:00:00Z"}}"#,
        "line 3: an expiry is not a valid time, or is before the year 0",
    ),
    (
        Shape::Migrated,
        br#"{"raw_cookie":"nopair","path":["/",false],"domain":"Empty","expires":"SessionEnd"}"#,
        "line 1: unable to parse string as cookie::Cookie",
    ),
    (
        Shape::Migrated,
        br#"{"raw_cookie":"a=1","path":["/",false],"domain":"Empty","expires":{"AtUtc":"-001-01-01T00:00:00Z"}}"#,
        "line 1: an expiry is not a valid time, or is before the year 0",
    ),
    (Shape::Migrated, b"\xff\n", "line 1: the input is not UTF-8"),
];

static OTHER_INPUTS: [Input; 8] = [
    (Shape::Pairs, b"a=1|b", COOKIE),
    (Shape::Pairs, b"a=1\xff", UTF_8),
    (Shape::File(Form::As(Format::Json)), b"a", JSON),
    (Shape::File(Form::As(Format::Ron)), b"a", RON),
    (
        Shape::File(Form::As(Format::Netscape)),
        b"# a\na\n",
        "line 2 is not a cookie",
    ),
    (
        Shape::File(Form::As(Format::Netscape)),
        b"\xef\xbb\xbf\n",
        "line 1 is not a cookie",
    ),
    (Shape::File(Form::Netscape), b"\xff", UTF_8),
    (Shape::File(Form::WellFormed), b"\xff", UTF_8),
];

// Checks the error of loading the bytes.
fn is_loaded(rt: &impl Abort, alloc: Global, input: &Input) {
    let fake = Fake::new(input.1, 9, 0);
    let (outcome, _, _) = load(rt, alloc, input.0, true, fake);
    is_message(rt, alloc, outcome, input.2, input);
}

// The same for a string, if the bytes are one of a list or file.
fn is_parsed(rt: &impl Abort, alloc: Global, input: &Input) {
    if let (Shape::File(form), Ok(text)) = (input.0, str::from_utf8(input.1)) {
        is_rejected(rt, alloc, form, text, input.2, text);
    }
}

// Checks the errors of the inputs.
fn are_loaded(rt: &impl Abort, alloc: Global, inputs: &[Input]) {
    for input in inputs {
        is_loaded(rt, alloc, input);
        is_parsed(rt, alloc, input);
    }
}

#[test]
fn lines_in_another_form_are_rejected(rt: HostRuntime) {
    are_loaded(&rt, rt.alloc(), &JSON_LINES);
}

#[test]
fn a_json_list_in_another_form_is_rejected(rt: HostRuntime) {
    are_loaded(&rt, rt.alloc(), &JSON_LISTS);
}

#[test]
fn a_ron_list_of_other_values_is_rejected(rt: HostRuntime) {
    are_loaded(&rt, rt.alloc(), &RON_VALUES);
}

#[test]
fn a_ron_list_of_other_members_is_rejected(rt: HostRuntime) {
    are_loaded(&rt, rt.alloc(), &RON_MEMBERS);
}

#[test]
fn lines_that_cannot_migrate_are_rejected(rt: HostRuntime) {
    are_loaded(&rt, rt.alloc(), &MIGRATED);
}

#[test]
fn input_of_other_formats_is_rejected(rt: HostRuntime) {
    are_loaded(&rt, rt.alloc(), &OTHER_INPUTS);
}

// A format, what is nested 50,000 times, and the error: no input drives the parser deep.
static DEEP: [(Form, &str, &str); 4] = [
    (Form::Json, "[", JSON),
    (Form::Ron, "[", RON),
    (Form::Ron, "(", RON),
    (Form::Ron, "[(", RON),
];

// Checks the error of the string.
fn is_rejected(rt: &impl Abort, alloc: Global, form: Form, text: &str, error: &str, row: &str) {
    let outcome = from_text(alloc, form, true, text);
    is_message(rt, alloc, outcome, error, &row);
}

#[test]
fn no_list_nests_deep(rt: HostRuntime) {
    for (form, opening, error) in &DEEP {
        let text = opening.repeat(rt.alloc(), 50_000).expect(&rt, "memory");
        is_rejected(&rt, rt.alloc(), *form, text.as_str(), error, opening);
    }
}

// Checks that each proper prefix of the list is rejected, but for the one that lacks the line feed
// only.
fn are_rejected(rt: &impl Abort, alloc: Global, form: Form, list: &str, error: &str) {
    for length in 0..list.len() {
        if let Some(prefix) = list.get(..length) {
            let is_whole = length.saturating_add(1) == list.len();
            let wanted = if is_whole { "" } else { error };
            is_rejected(rt, alloc, form, prefix, wanted, prefix);
        }
    }
}

#[test]
fn a_truncated_list_is_rejected(rt: HostRuntime) {
    are_rejected(&rt, rt.alloc(), Form::Json, JSON_LIST, JSON);
    are_rejected(&rt, rt.alloc(), Form::Ron, RON_FILE, RON);
}
