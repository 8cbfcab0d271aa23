//! Public suffix lists.
use crate::checks::is_equal;
use crate::parts::sides;
use cookie_psl::{List, ListError, laws};
use std::alloc::Global;
use std::process::Abort;

const EVERY_KIND: &str = "// every kind of rule\ncom\n*.ck\n!www.ck to here\n\n*.www.ck\n  org\n";

// A list, a domain, and its suffix and whether a listed rule matches.
type Row = (&'static str, &'static str, Option<(&'static str, bool)>);

static SUFFIXES: [Row; 19] = [
    (EVERY_KIND, "foo.ck", Some(("foo.ck", true))),
    (EVERY_KIND, "a.www.ck", Some(("ck", true))),
    (EVERY_KIND, "ck", Some(("ck", false))),
    (EVERY_KIND, "zz", Some(("zz", false))),
    (EVERY_KIND, "a.com.", Some(("com.", true))),
    (EVERY_KIND, "", None),
    (EVERY_KIND, ".", None),
    (EVERY_KIND, "a.org", Some(("org", false))),
    (
        "cn\n公司.cn",
        "a.xn--55qx5d.cn",
        Some(("xn--55qx5d.cn", true)),
    ),
    ("*", "zz", Some(("zz", true))),
    ("*.*", "a.b.c", Some(("b.c", true))),
    ("*.*", "a", Some(("a", false))),
    (
        "*.ck\n!www.ck\n!a.www.ck",
        "a.www.ck",
        Some(("www.ck", true)),
    ),
    ("com", "COM", Some(("COM", false))),
    ("com", "com..", Some((".", false))),
    ("com\ncom\n", "a.b.com", Some(("com", true))),
    ("com\r\n net\n", "com", Some(("com", true))),
    ("com\r\n net\n", "net", Some(("net", false))),
    ("co.uk\nuk", "a.co.uk", Some(("co.uk", true))),
];

// The same, if the list also has the rule `*`.
static WITH_DEFAULT_RULE: [Row; 4] = [
    ("com\n*.np", "np", Some(("np", true))),
    ("com\n*.np", "a.com.np", Some(("com.np", true))),
    ("com\n*.np", "a.zz", Some(("zz", true))),
    ("co.uk\nuk", "a.co.uk", Some(("co.uk", true))),
];

fn has_suffix(rt: &impl Abort, list: &List, domain: &str, wanted: Option<(&str, bool)>) {
    let suffix = list.suffix(domain);
    let found = suffix.map(|suffix| (suffix.as_str(), suffix.is_known()));
    is_equal(rt, &found, &wanted, &domain);
}

fn list(rt: &impl Abort, alloc: Global, text: &str) -> List {
    List::from_text(alloc, text).expect(rt, "memory")
}

// Checks the suffix by a copy of the list.
fn is_found(rt: &impl Abort, alloc: Global, row: &Row) {
    let list = list(rt, alloc, row.0);
    let copy = list.clone().expect(rt, "memory");
    has_suffix(rt, &copy, row.1, row.2);
    drop(copy);
    drop(list);
}

fn is_found_by_default(rt: &impl Abort, alloc: Global, row: &Row) {
    let list = list(rt, alloc, row.0);
    let list = list.with_default_rule().expect(rt, "memory");
    has_suffix(rt, &list, row.1, row.2);
    drop(list);
}

#[test]
fn finds_suffixes(rt: HostRuntime) {
    laws::same_rules_prevail();
    for row in &SUFFIXES {
        is_found(&rt, rt.alloc(), row);
    }
}

#[test]
fn the_default_rule_is_for_top_level_domains(rt: HostRuntime) {
    has_suffix(&rt, &List::new(rt.alloc()), "a.com", Some(("com", false)));
    for row in &WITH_DEFAULT_RULE {
        is_found_by_default(&rt, rt.alloc(), row);
    }
}

// A list, and the number of its first bad line.
static BAD: [(&str, usize); 11] = [
    ("com\n\n.", 3),
    ("a..b", 1),
    ("com\norg.\nnet", 2),
    (".com", 1),
    ("!", 1),
    ("// com\n!com\n..", 2),
    ("com\nxn--a", 2),
    ("*.!.com\n!*.\n", 2),
    ("com\r\n net\na..b", 3),
    ("com\r\n net\n!com", 3),
    ("com\r\n net\ncom.", 3),
];

#[test]
fn a_bad_line_is_found(rt: HostRuntime) {
    for row in &BAD {
        let error = List::from_text(rt.alloc(), row.0).err();
        is_equal(&rt, &error, &Some(ListError::BadRule { line: row.1 }), row);
    }
}

const RULES: &str = "com\nuk.com\njp\nac.jp\n*.kobe.jp\n!city.kobe.jp\n*.ck\n!www.ck\n";

// A domain, and its registrable domain by `RULES`, if it has one.
static REGISTRABLE: [&str; 26] = [
    "com",
    "example.com => example.com",
    "b.example.com => example.com",
    "a.b.example.com => example.com",
    "uk.com",
    "example.uk.com => example.uk.com",
    "a.b.example.uk.com => example.uk.com",
    "jp",
    "test.jp => test.jp",
    "ac.jp",
    "www.test.ac.jp => test.ac.jp",
    "c.kobe.jp",
    "a.b.c.kobe.jp => b.c.kobe.jp",
    "city.kobe.jp => city.kobe.jp",
    "www.city.kobe.jp => city.kobe.jp",
    "ck",
    "test.ck",
    "b.test.ck => b.test.ck",
    "www.ck => www.ck",
    "www.www.ck => www.ck",
    "example",
    "a.example.example => example.example",
    "com.",
    "a.example.com. => example.com.",
    "",
    ".",
];

#[test]
fn finds_registrable_domains(rt: HostRuntime) {
    let list = list(&rt, rt.alloc(), RULES);
    for row in &REGISTRABLE {
        let (domain, wanted) = sides(row);
        is_equal(&rt, &list.registrable_domain(domain), &wanted, row);
    }
    drop(list);
}
