//! Paths, and the URLs that they match.
use crate::checks::{is_copy, is_equal, is_text};
use crate::parts::url;
use cookie_parts::CookiePath;
use cookie_parts::cookie_path::is_match;
use std::alloc::Global;
use std::process::Abort;

// The path that the Path attribute sets, or the default-path of the URL.
fn path(rt: &impl Abort, alloc: Global, from: &str, attribute: Option<&str>) -> CookiePath {
    let url = url(rt, alloc, from);
    let path = match attribute {
        Some(text) => CookiePath::new(alloc, text, &url),
        None => CookiePath::default_path(alloc, &url),
    };
    drop(url);
    path.expect(rt, "memory")
}

// Checks the path, whether the attribute set it, a copy of it and its string.
pub(crate) fn is_path(
    rt: &impl Abort,
    alloc: Global,
    from: &str,
    attribute: Option<&str>,
    wanted: (&str, bool),
) {
    let path = path(rt, alloc, from, attribute);
    is_text(rt, path.as_str(), wanted.0, &wanted.1);
    is_equal(rt, &path.is_from_path_attr(), &wanted.1, &"the attribute");
    let copy = path.clone().expect(rt, "memory");
    is_copy(rt, &copy, &path, &"a copy");
    let text = copy.to_string_in(alloc).expect(rt, "memory");
    is_text(rt, text.as_str(), wanted.0, &"its string");
    drop(text);
    drop(copy);
    drop(path);
}

// A URL, the Path attribute of a cookie received from it, if there is one, its path, and whether the
// attribute set it.
type Source = (&'static str, Option<&'static str>, (&'static str, bool));

static SOURCES: [Source; 12] = [
    ("http://example.com", None, ("/", false)),
    ("http://example.com/", None, ("/", false)),
    ("http://example.com/foo", None, ("/", false)),
    ("http://example.com/foo/", None, ("/foo", false)),
    ("http://example.com//foo/", None, ("//foo", false)),
    ("http://example.com/foo//", None, ("/foo/", false)),
    (
        "http://example.com/foo//bus/bar",
        None,
        ("/foo//bus", false),
    ),
    ("http://example.com/foo/bus/bar", None, ("/foo/bus", false)),
    (
        "http://example.com/foo/bus/bar/",
        None,
        ("/foo/bus/bar", false),
    ),
    ("data:foobusbar", None, ("/", false)),
    (
        "http://example.com/foo/bar/",
        Some("a/foo"),
        ("/foo/bar", false),
    ),
    ("http://example.com/foo/bar/", Some("/a"), ("/a", true)),
];

#[test]
fn a_path_is_of_an_attribute_or_a_url(rt: HostRuntime) {
    for (from, attribute, wanted) in &SOURCES {
        is_path(&rt, rt.alloc(), from, *attribute, *wanted);
    }
}

// Checks whether they match, by the string and, if it is a valid path, by the `CookiePath`.
pub(crate) fn is_covered(rt: &impl Abort, alloc: Global, text: &str, at: &str, wanted: bool) {
    let url = url(rt, alloc, at);
    is_equal(rt, &is_match(text, &url), &wanted, &at);
    match CookiePath::parse(alloc, text).expect(rt, "memory") {
        Some(path) => is_equal(rt, &path.matches(&url), &wanted, &at),
        None => is_equal(rt, &text.starts_with('/'), &false, &at),
    }
    drop(url);
}

// A cookie's path, a URL, and whether they match.
static PATHS: [(&str, &str, bool); 18] = [
    ("/foo/bus", "http://example.com/foo/buss", false),
    ("/foo", "http://example.com/foo/bus", true),
    ("/fo", "http://example.com/foo/bus", false),
    ("/", "http://example.com/", true),
    ("/foo/bus", "http://example.com/foo/bus", true),
    ("/foo/", "http://example.com/foo/bus", true),
    ("/bar", "http://example.com/foo/bus", false),
    ("/foo/bus/bar", "http://example.com/foo/bus", false),
    ("/foo/bus", "http://example.com/zoo/bus", false),
    ("/foo/bus", "http://example.com/zfoo/bus", false),
    ("/", "data:foobusbar", false),
    // An empty path matches no URL, nor does one that does not begin with `/`.
    ("", "http://example.com/", false),
    ("", "http://example.com/foo", false),
    ("", "foo://example", false),
    ("foo", "http://example.com/foo", false),
    ("foo", "http://example.com/", false),
    ("foo", "data:foo", false),
    ("a/foo", "http://example.com/a/foo", false),
];

#[test]
fn a_path_covers_paths(rt: HostRuntime) {
    for (text, at, wanted) in &PATHS {
        is_covered(&rt, rt.alloc(), text, at, *wanted);
    }
}
