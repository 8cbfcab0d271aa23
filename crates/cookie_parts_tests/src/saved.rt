//! Saved forms in JSON and RON.
use crate::checks::{is_equal, is_text};
use cookie_saved::{
    Saved, SavedError, from_ron, from_text, from_value, list_from_text, list_from_value,
    list_to_text, list_to_value, to_ron, to_text, to_value,
};
use serde_json::Value;
use std::alloc::Global;
use std::process::Abort;

// A cookie or a list, by the string of its JSON or by the JSON value, or a list in RON.
#[derive(Clone, Copy, Debug)]
pub(crate) enum Form {
    Cookie,
    List,
    CookieTree,
    ListTree,
    Ron,
}

fn tree(rt: &impl Abort, alloc: Global, text: &str) -> Value {
    Value::from_str(alloc, text).expect(rt, "memory")
}

// Prints the JSON value of the cookie.
fn cookie_by_tree(rt: &impl Abort, alloc: Global, saved: &Saved) -> String {
    let tree = to_value(alloc, saved).expect(rt, "memory");
    let text = tree.to_string(alloc).expect(rt, "memory");
    drop(tree);
    text
}

// The same for a list.
fn list_by_tree(rt: &impl Abort, alloc: Global, list: &[Saved]) -> String {
    let tree = list_to_value(alloc, list).expect(rt, "memory");
    let text = tree.to_string(alloc).expect(rt, "memory");
    drop(tree);
    text
}

// Reads the form and prints it again, or returns the error.
fn printed_again(
    rt: &impl Abort,
    alloc: Global,
    form: Form,
    text: &str,
) -> Result<String, SavedError> {
    match form {
        Form::Cookie => to_text(alloc, &from_text(alloc, text)?),
        Form::List => list_to_text(alloc, &list_from_text(alloc, text)?),
        Form::CookieTree => {
            let saved = from_value(alloc, &tree(rt, alloc, text))?;
            Ok(cookie_by_tree(rt, alloc, &saved))
        }
        Form::ListTree => {
            let list = list_from_value(alloc, &tree(rt, alloc, text))?;
            Ok(list_by_tree(rt, alloc, &list))
        }
        Form::Ron => to_ron(alloc, &from_ron(alloc, text)?),
    }
}

// Checks what the form is printed as again, or the error.
pub(crate) fn is_printed_again(
    rt: &impl Abort,
    alloc: Global,
    form: Form,
    text: &str,
    wanted: Result<&str, SavedError>,
) {
    match printed_again(rt, alloc, form, text) {
        Ok(printed) => is_text(rt, printed.as_str(), wanted.unwrap_or("an error"), &text),
        Err(error) => is_equal(rt, &Err(error), &wanted, &text),
    }
}

const SPACED: &str = r#"{"raw_cookie": "a=1", "path": ["/", true],
    "domain": {"HostOnly": "a.com"}, "expires": {"AtUtc": "2100-01-01T00:00:00Z"}}"#;

// Members in the order of their names, and no spaces.
const COMPACT: &str =
    r#"{"domain":{"HostOnly":"a.com"},"expires":{"AtUtc":"2100-01-01T00:00:00Z"},"path":["/",true],"raw_cookie":"a=1"}"#;

const NO_MOMENT: &str = r#"{"raw_cookie": "a=1", "path": ["/", true],
    "domain": "Empty", "expires": {"AtUtc": "2100-02-29T00:00:00Z"}}"#;

const NO_SHAPE: &str = r#"{"raw_cookie": "a=1", "path": ["/"],
    "domain": "Empty", "expires": "SessionEnd"}"#;

const FLOAT: &str = r#"{"x": 1.5, "raw_cookie": "a=1", "path": ["/", true],
    "domain": "NotPresent", "expires": "SessionEnd"}"#;

// A form, an input, and how it is printed again, or the error.
type Row = (Form, &'static str, Result<&'static str, SavedError>);

static JSON: [Row; 33] = [
    (Form::Cookie, SPACED, Ok(COMPACT)),
    (
        Form::Cookie,
        r#"{"path": ["\u002f", true], "path": ["/", false], "domain": {"Suffix": "a.com"},
            "expires": "SessionEnd", "raw_cookie": "a=\"1\""}"#,
        Ok(
            r#"{"domain":{"Suffix":"a.com"},"expires":"SessionEnd","path":["/",false],"raw_cookie":"a=\"1\""}"#,
        ),
    ),
    (
        Form::Cookie,
        r#"{"x": [1, {"y": null}], "raw_cookie": "a=1", "path": ["/", true],
            "domain": {"Suffix": "b", "Suffix": "a.com"}, "expires": "SessionEnd"}"#,
        Ok(
            r#"{"domain":{"Suffix":"a.com"},"expires":"SessionEnd","path":["/",true],"raw_cookie":"a=1"}"#,
        ),
    ),
    (
        Form::Cookie,
        r#"{"raw_cookie": "a=1", "path": ["/", true], "path": 1,
            "domain": "NotPresent", "expires": "SessionEnd"}"#,
        Err(SavedError::Shape),
    ),
    (Form::Cookie, FLOAT, Err(SavedError::Shape)),
    (Form::Cookie, NO_MOMENT, Err(SavedError::Moment)),
    (Form::Cookie, NO_SHAPE, Err(SavedError::Shape)),
    (Form::Cookie, "7", Err(SavedError::Shape)),
    (Form::Cookie, "1e999", Err(SavedError::Json)),
    (Form::Cookie, "{", Err(SavedError::Json)),
    (
        Form::List,
        r#"[{"raw_cookie": "a=1", "path": ["/", true], "domain": "Empty", "expires": "SessionEnd"}]"#,
        Ok(
            r#"[
  {
    "domain": "Empty",
    "expires": "SessionEnd",
    "path": [
      "/",
      true
    ],
    "raw_cookie": "a=1"
  }
]"#,
        ),
    ),
    (Form::List, "[]", Ok("[]")),
    (Form::List, "[7]", Err(SavedError::Shape)),
    (Form::List, SPACED, Err(SavedError::Shape)),
    (Form::List, "[1e999]", Err(SavedError::Json)),
    (Form::List, "[{]", Err(SavedError::Json)),
    (Form::CookieTree, SPACED, Ok(COMPACT)),
    (
        Form::CookieTree,
        r#"{"x": 1, "expires": "SessionEnd", "domain": {"Suffix": ""}, "path": ["", false],
            "raw_cookie": "nopair"}"#,
        Ok(
            r#"{"domain":{"Suffix":""},"expires":"SessionEnd","path":["",false],"raw_cookie":"nopair"}"#,
        ),
    ),
    (Form::CookieTree, FLOAT, Err(SavedError::Shape)),
    (
        Form::CookieTree,
        r#"{"x": [{"y": 1e1}], "raw_cookie": "a=1", "path": ["/", true],
            "domain": "NotPresent", "expires": "SessionEnd"}"#,
        Err(SavedError::Shape),
    ),
    (Form::CookieTree, NO_MOMENT, Err(SavedError::Moment)),
    (Form::CookieTree, NO_SHAPE, Err(SavedError::Shape)),
    (
        Form::CookieTree,
        r#"{"raw_cookie": "a=1", "path": ["/", true, true],
            "domain": "Empty", "expires": {"AtUtc": "2100-02-29T00:00:00Z"}}"#,
        Err(SavedError::Shape),
    ),
    (
        Form::CookieTree,
        r#"{"raw_cookie": "a=1", "path": ["/", true],
            "domain": {"Empty": null}, "expires": "SessionEnd"}"#,
        Err(SavedError::Shape),
    ),
    (
        Form::CookieTree,
        r#"{"raw_cookie": "a=1", "path": ["/", true],
            "domain": {"HostOnly": "a.com", "Suffix": "a.com"}, "expires": "SessionEnd"}"#,
        Err(SavedError::Shape),
    ),
    (
        Form::CookieTree,
        r#"{"path": ["/", true], "domain": "Empty", "expires": "SessionEnd"}"#,
        Err(SavedError::Shape),
    ),
    (
        Form::CookieTree,
        r#"["a=1", ["/", true], "Empty", "SessionEnd"]"#,
        Err(SavedError::Shape),
    ),
    (Form::ListTree, "[]", Ok("[]")),
    (
        Form::ListTree,
        r#"[{"raw_cookie": "a=1", "path": ["/", true], "domain": "Empty", "expires": "SessionEnd"},
            {"raw_cookie": "b=1", "path": ["/", true], "domain": "Empty", "expires": "SessionEnd"}]"#,
        Ok(
            r#"[{"domain":"Empty","expires":"SessionEnd","path":["/",true],"raw_cookie":"a=1"},{"domain":"Empty","expires":"SessionEnd","path":["/",true],"raw_cookie":"b=1"}]"#,
        ),
    ),
    (
        Form::ListTree,
        r#"[{"raw_cookie": "a=1", "path": ["/", true], "domain": "Empty", "expires": "SessionEnd"},
            {"raw_cookie": "a=1", "path": ["/", true], "domain": "Empty",
            "expires": {"AtUtc": "2100-02-29T00:00:00Z"}}]"#,
        Err(SavedError::Moment),
    ),
    // The shape of all items is tested before any time.
    (
        Form::ListTree,
        r#"[{"raw_cookie": "a=1", "path": ["/", true], "domain": "Empty",
            "expires": {"AtUtc": "2100-02-29T00:00:00Z"}},
            {"raw_cookie": "a=1", "path": ["/"], "domain": "Empty", "expires": "SessionEnd"}]"#,
        Err(SavedError::Shape),
    ),
    (Form::ListTree, "[1.5]", Err(SavedError::Shape)),
    (Form::ListTree, SPACED, Err(SavedError::Shape)),
];

#[test]
fn json_is_read_and_printed(rt: HostRuntime) {
    for (form, text, wanted) in &JSON {
        is_printed_again(&rt, rt.alloc(), *form, text, *wanted);
    }
}

const ONE: &str = r#"[
    (
        raw_cookie: "2=two; SameSite=None; Secure; Path=/; Expires=Tue, 03 Aug 2100 00:38:37 GMT",
        path: ("/", true),
        domain: HostOnly("test.com"),
        expires: AtUtc("2100-08-03T00:38:37Z"),
    ),
]"#;

const THREE: &str = r#"[
    (
        raw_cookie: "a=1",
        path: ("/a", false),
        domain: Suffix("b.com"),
        expires: SessionEnd,
    ),
    (
        raw_cookie: "",
        path: ("", true),
        domain: NotPresent,
        expires: AtUtc("0000-01-01T00:00:00Z"),
    ),
    (
        raw_cookie: "c=3",
        path: ("/", true),
        domain: Empty,
        expires: AtUtc("9999-12-31T23:59:59Z"),
    ),
]"#;

// Characters as they are, and by each escape.
const QUOTED: &str =
    "[(raw_cookie: \"a\tb\n \\t\\\"\\u{7}é \\\\\\n\\r\\0\\' \\x41\\x7f\\xE9 \\u{1F36A}\\u{1f36a}\\u{00041} \\u{85}\\u{9f}\\u{a0} \\u{10FFFF}\\u{E000}\\u{d7ff}\",
    path: (\"/\", true), domain: Empty, expires: SessionEnd)]";

const QUOTED_AGAIN: &str = "[
    (
        raw_cookie: \"a\\tb\\n \\t\\\"\\u{7}é \\\\\\n\\r\\u{0}' A\\u{7f}é 🍪🍪A \\u{85}\\u{9f}\u{a0} \u{10FFFF}\u{E000}\u{d7ff}\",
        path: (\"/\", true),
        domain: Empty,
        expires: SessionEnd,
    ),
]";

// A list in RON, and how it is printed again, or the error.
static RON: [(&str, Result<&str, SavedError>); 25] = [
    (ONE, Ok(ONE)),
    (THREE, Ok(THREE)),
    (
        r#"[(raw_cookie:"a=1",path:("/a",false),domain:Suffix("b.com"),expires:SessionEnd),
        (raw_cookie : "", path : ("", true,), domain : NotPresent, expires : AtUtc("0000-01-01T00:00:00.75Z",),),
        (raw_cookie:"c=3",path:("/",true),domain:Empty,expires:AtUtc ( "9999-12-31T23:59:59Z"))]"#,
        Ok(THREE),
    ),
    (QUOTED, Ok(QUOTED_AGAIN)),
    ("[]", Ok("[]")),
    (" [\t] \n\r", Ok("[]")),
    ("[,]", Err(SavedError::Ron)),
    ("[] x", Err(SavedError::Ron)),
    (
        r#"[(raw_cookie: "a=1", path: ("/", true), domain: Empty, expires: SessionEnd)"#,
        Err(SavedError::Ron),
    ),
    (
        r#"[(raw_cookie: "a=1", path: ("/", true), domain: Empty, expires: SessionEnd),,]"#,
        Err(SavedError::Ron),
    ),
    (
        r#"[(path: ("/", true), raw_cookie: "a=1", domain: Empty, expires: SessionEnd)]"#,
        Err(SavedError::Ron),
    ),
    (
        r#"[(raw_cookie: "a=1", path: ("/", True), domain: Empty, expires: SessionEnd)]"#,
        Err(SavedError::Ron),
    ),
    (
        r#"[(raw_cookie: "a=1", path: ("/", true), domain: Empty(), expires: SessionEnd)]"#,
        Err(SavedError::Ron),
    ),
    (
        r#"[(raw_cookie: "a=1", path: ("/", true), domain: Empty, expires: AtUtc("2100-02-29T00:00:00Z"))]"#,
        Err(SavedError::Moment),
    ),
    (
        r#"[(raw_cookie: "a=1", path: ("/", true), domain: Empty, expires: AtUtc("2100-02-29T00:00:00Z"))"#,
        Err(SavedError::Ron),
    ),
    (
        r#"[(raw_cookie: "\q", path: ("/", true), domain: Empty, expires: SessionEnd)]"#,
        Err(SavedError::Ron),
    ),
    (
        r#"[(raw_cookie: "\", path: ("/", true), domain: Empty, expires: SessionEnd)]"#,
        Err(SavedError::Ron),
    ),
    (
        r#"[(raw_cookie: "\x4", path: ("/", true), domain: Empty, expires: SessionEnd)]"#,
        Err(SavedError::Ron),
    ),
    (
        r#"[(raw_cookie: "\x4g", path: ("/", true), domain: Empty, expires: SessionEnd)]"#,
        Err(SavedError::Ron),
    ),
    (
        r#"[(raw_cookie: "\u{}", path: ("/", true), domain: Empty, expires: SessionEnd)]"#,
        Err(SavedError::Ron),
    ),
    (
        r#"[(raw_cookie: "\u{D800}", path: ("/", true), domain: Empty, expires: SessionEnd)]"#,
        Err(SavedError::Ron),
    ),
    (
        r#"[(raw_cookie: "\u{110000}", path: ("/", true), domain: Empty, expires: SessionEnd)]"#,
        Err(SavedError::Ron),
    ),
    (
        r#"[(raw_cookie: "\u{0000041}", path: ("/", true), domain: Empty, expires: SessionEnd)]"#,
        Err(SavedError::Ron),
    ),
    (
        r#"[(raw_cookie: "\u41", path: ("/", true), domain: Empty, expires: SessionEnd)]"#,
        Err(SavedError::Ron),
    ),
    (
        r#"[(raw_cookie: "\N", path: ("/", true), domain: Empty, expires: SessionEnd)]"#,
        Err(SavedError::Ron),
    ),
];

#[test]
fn ron_is_read_and_printed(rt: HostRuntime) {
    for (text, wanted) in &RON {
        is_printed_again(&rt, rt.alloc(), Form::Ron, text, *wanted);
    }
}
