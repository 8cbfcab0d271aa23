//! Strings from outside of the program: URLs, and files of public suffix lists.
use crate::checks::is_equal;
use cookie_store::inputs::{SuffixesError, is_unambiguous, parse_suffixes, parse_unambiguous};
use cookie_store::psl::Suffix;
use std::alloc::Global;
use std::process::Abort;

// URLs, and whether all parsers read the same host from them.
static URLS: [(&str, bool); 38] = [
    ("http://h", true),
    ("HTTP://h", true),
    ("http://user:pass@h/", true),
    ("http://[::1]:80/", true),
    ("http://[::ffff:1.2.3.4]/", true),
    ("http://127.1/", true),
    ("http://1.2.3.4:80/", true),
    ("http://a.example/b\u{fc}cher", true),
    ("http://0x/", false),
    ("http://0x.1/", false),
    ("http://a.0X7f/", false),
    ("http://b\u{fc}cher.example/", false),
    ("http://127.1\u{3002}/", false),
    ("http://a.1b./a\\b?%41", true),
    ("wss://h?a@b", true),
    ("foo:bar", true),
    ("foo://A\\@B/", true),
    ("file:///etc", true),
    ("file:etc", true),
    ("no url", false),
    ("http://A\\@B/", false),
    ("http:80", false),
    ("http:/h/", false),
    ("http:///h/", false),
    ("http:\\\\h/", false),
    ("http://?h", false),
    ("http://127.1./", false),
    ("http://u@127.0x.:80/", false),
    ("http://0X7f./", false),
    ("http://a%2eb/", false),
    ("http://u@a%2eb:80", false),
    (" http://h", false),
    ("ht\ttp://h", false),
    ("http://h/\x7f", false),
    ("file:\\\\h", false),
    ("file:///a\\b", false),
    ("file://a%2eb/", false),
    ("FTP://1./", false),
];

#[test]
fn parsers_read_one_host(rt: HostRuntime) {
    for row in &URLS {
        is_equal(&rt, &is_unambiguous(row.0), &row.1, row);
        let url = parse_unambiguous(rt.alloc(), row.0).expect(&rt, "memory");
        is_equal(&rt, &url.is_some(), &row.1, row);
    }
}

// A file, and the error of its list.
static FILES: [(&str, Option<SuffixesError>); 10] = [
    ("com\nco.uk\n", None),
    ("// a comment\n\nb\u{fc}cher.example // more\n", None),
    ("", Some(SuffixesError::NoRules)),
    ("// a comment\n\n", Some(SuffixesError::NoRules)),
    (
        "/usr/share/list.dat",
        Some(SuffixesError::BadRule { line: 1 }),
    ),
    (
        "\n<!DOCTYPE html>\n",
        Some(SuffixesError::BadRule { line: 2 }),
    ),
    (
        "com\n{\"error\": 1}\n",
        Some(SuffixesError::BadRule { line: 2 }),
    ),
    (
        "http://example.com/\n",
        Some(SuffixesError::BadRule { line: 1 }),
    ),
    ("com\na..b\n", Some(SuffixesError::BadRule { line: 2 })),
    ("a=b\n..\n", Some(SuffixesError::BadRule { line: 1 })),
];

// Whether a rule matches `np`, with the rules of a list that has another one.
fn is_known(rt: &impl Abort, alloc: Global, only_listed: bool, wanted: bool) {
    let list = parse_suffixes(alloc, "*.np\n", only_listed).expect(rt, "a list");
    let is_known = list
        .suffix("np")
        .is_some_and(|suffix: Suffix<'_>| suffix.is_known());
    is_equal(rt, &is_known, &wanted, &only_listed);
    drop(list);
}

#[test]
fn files_are_lists_of_suffixes(rt: HostRuntime) {
    for row in &FILES {
        let outcome = parse_suffixes(rt.alloc(), row.0, false);
        is_equal(&rt, &outcome.err(), &row.1, row);
    }
    is_known(&rt, rt.alloc(), false, true);
    is_known(&rt, rt.alloc(), true, false);
}
