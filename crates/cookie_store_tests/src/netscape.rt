//! `cookies.txt` files.
use crate::built::{UrlAndValue, store_of};
use crate::checks::{is_equal, is_message};
use crate::formats::{Form, from_text, to_text};
use cookie_store::serde::netscape::{from_text_well_formed, to_text_representable};
use cookie_store::serde::{FormatError, Which};
use std::alloc::Global;
use std::process::Abort;

const HEAD: &str = "# Netscape HTTP Cookie File";

// Checks the text after the first line, or the message of the error.
fn is_written(
    rt: &impl Abort,
    alloc: Global,
    outcome: Result<String, FormatError>,
    wanted: &str,
    row: &str,
) {
    if let Ok(text) = &outcome {
        is_equal(rt, &text.strip_prefix(HEAD), &Some(wanted), &row);
    } else {
        is_message(rt, alloc, outcome, wanted, &row);
    }
}

const FIRST_LINE: &str = "line 1 is not a cookie";

// A file, and what its cookies are written as, or the message of the error.
type Read = (&'static str, &'static str);

static READ: [Read; 18] = [
    ("", ""),
    ("\n \t\r\n# a\n#\ta\n#HttpOnly\n", ""),
    // Host-only and domain cookies, with and without a dot.
    (
        "a.com\tFALSE\t/\tFALSE\t0\ta\t1\n",
        "\na.com\tFALSE\t/\tFALSE\t0\ta\t1",
    ),
    (
        ".a.com\tFALSE\t/\tFALSE\t0\ta\t1\n",
        "\na.com\tFALSE\t/\tFALSE\t0\ta\t1",
    ),
    (
        "a.com\tTRUE\t/\tFALSE\t0\ta\t1\n",
        "\n.a.com\tTRUE\t/\tFALSE\t0\ta\t1",
    ),
    (
        ".A.Com\ttrue\t/B\tfalse\t0\ta\t1",
        "\n.a.com\tTRUE\t/B\tFALSE\t0\ta\t1",
    ),
    // HttpOnly and Secure, CRLF, and a later cookie that replaces an earlier one.
    (
        "#HttpOnly_a.com\tFALSE\t/\tTRUE\t0\ta\t1\r\na.com\tFALSE\t/\tFALSE\t0\ta\t2\r\n",
        "\na.com\tFALSE\t/\tFALSE\t0\ta\t2",
    ),
    (
        "#HttpOnly_.a.com\tTRUE\t/\tTRUE\t0\ta\t1\n",
        "\n#HttpOnly_.a.com\tTRUE\t/\tTRUE\t0\ta\t1",
    ),
    // Expiries: empty, with a fraction, and beyond the latest one.
    (
        "a.com\tFALSE\t/\tFALSE\t\ta\t1\n",
        "\na.com\tFALSE\t/\tFALSE\t0\ta\t1",
    ),
    (
        "a.com\tFALSE\t/\tFALSE\t4121282317.75\ta\t1\n",
        "\na.com\tFALSE\t/\tFALSE\t4121282317\ta\t1",
    ),
    (
        "a.com\tFALSE\t/\tFALSE\t000\ta\t1\n",
        "\na.com\tFALSE\t/\tFALSE\t0\ta\t1",
    ),
    (
        "a.com\tFALSE\t/\tFALSE\t99999999999999999999\ta\t1\n",
        "\na.com\tFALSE\t/\tFALSE\t253402300799\ta\t1",
    ),
    // A missing path, a missing value, both, and an empty value.
    (
        "a.com\tFALSE\tFALSE\t0\ta\t1\n",
        "\na.com\tFALSE\t/\tFALSE\t0\ta\t1",
    ),
    (
        "a.com\tFALSE\t/\tFALSE\t0\ta\n",
        "\na.com\tFALSE\t/\tFALSE\t0\ta\t",
    ),
    (
        "a.com\tFALSE\tTRUE\t0\ta\n",
        "\na.com\tFALSE\t/\tTRUE\t0\ta\t",
    ),
    (
        "a.com\tFALSE\t/\tFALSE\t0\ta\t\n",
        "\na.com\tFALSE\t/\tFALSE\t0\ta\t",
    ),
    // An empty name: the value is the name.
    (
        "a.com\tFALSE\t/\tFALSE\t\t\ta\n",
        "\na.com\tFALSE\t/\tFALSE\t0\ta\t",
    ),
    // Names and values that are not ASCII, or have signs that fields may have.
    (
        "a.com\tFALSE\t/\tFALSE\t0\t\u{e9} #\t=\"\u{1f36a}\"\n",
        "\na.com\tFALSE\t/\tFALSE\t0\t\u{e9} #\t=\"\u{1f36a}\"",
    ),
];

static FROM_OTHER_PROGRAMS: [Read; 9] = [
    // What other programs write: white space around a line, `$`, IPv6 addresses, ports, `.local`,
    // paths, -1 and Unicode white space.
    (
        " # a\n$a\n \ta.com\tFALSE\t/\tFALSE\t0\ta\t1 \t\r\r\n",
        "\na.com\tFALSE\t/\tFALSE\t0\ta\t1",
    ),
    (
        "::1\tFALSE\t/\tFALSE\t0\ta\t1\n[::1]\tFALSE\t/\tFALSE\t0\ta\t2\n[::1].local\tFALSE\t/\tFALSE\t0\ta\t3\n",
        "\n::1\tFALSE\t/\tFALSE\t0\ta\t3",
    ),
    (
        "localhost:80\tFALSE\t/\tFALSE\t0\ta\t1\nlocalhost.local\tFALSE\t/\tFALSE\t0\ta\t2\na.local\tFALSE\t/\tFALSE\t0\ta\t3\n",
        "\nlocalhost\tFALSE\t/\tFALSE\t0\ta\t2\na.local\tFALSE\t/\tFALSE\t0\ta\t3",
    ),
    (
        "a.com\tFALSE\t\tFALSE\t0\ta\t1\na.com\tFALSE\t\"/p\"\tFALSE\t0\ta\t2\na.com\tFALSE\tp\tFALSE\t0\ta\t3\n",
        "\na.com\tFALSE\t/\tFALSE\t0\ta\t1\na.com\tFALSE\t/p\tFALSE\t0\ta\t2\na.com\tFALSE\tp\tFALSE\t0\ta\t3",
    ),
    (
        "a.com\tFALSE\t/\tFALSE\t-1\ta\t\u{a0}1\u{a0}\n",
        "\na.com\tFALSE\t/\tFALSE\t253402300799\ta\t\u{a0}1\u{a0}",
    ),
    // Headers: Domain with and without a dot, the other attributes, paths, and what has fields.
    (
        "Set-Cookie: a=1; Domain=a.com\nset-cookie:b=2;\tdomain=.B.Com\n",
        "\n.a.com\tTRUE\t/\tFALSE\t0\ta\t1\n.b.com\tTRUE\t/\tFALSE\t0\tb\t2",
    ),
    (
        " SET-COOKIE: a=1; Domain=::1; Path=/p; Secure; HttpOnly; SameSite=Lax; Expires=Fri, 31 Dec 9999 23:59:59 GMT\r\n",
        "\n#HttpOnly_.::1\tTRUE\t/p\tTRUE\t253402300799\ta\t1",
    ),
    (
        "Set-Cookie: a=1; Domain=a.com; Path=p\nSet-Cookie: b=1; Domain=a.com; Path=\"/p\"\n",
        "\n.a.com\tTRUE\t/\tFALSE\t0\ta\t1\n.a.com\tTRUE\t/p\tFALSE\t0\tb\t1",
    ),
    (
        "Set-Cookie: a=1; Domain=a.com\tTRUE\t/\tFALSE\t0\ta\t1\n",
        "\n.set-cookie: a=1; domain=a.com\tTRUE\t/\tFALSE\t0\ta\t1",
    ),
];

static MALFORMED: [Read; 21] = [
    // Malformed lines: fields, domains, flags, paths, expiries, names and values.
    ("a.com\n", FIRST_LINE),
    (
        "\n# a\na.com\tFALSE\t/\tFALSE\t0\n",
        "line 3 is not a cookie",
    ),
    ("a.com\tFALSE\t/\tFALSE\t0\ta\t1\t2\n", FIRST_LINE),
    ("\tFALSE\t/\tFALSE\t0\ta\t1\n", FIRST_LINE),
    ("..a.com\tFALSE\t/\tFALSE\t0\ta\t1\n", FIRST_LINE),
    ("#HttpOnly_#a.com\tFALSE\t/\tFALSE\t0\ta\t1\n", FIRST_LINE),
    ("a.com\tNO\t/\tFALSE\t0\ta\t1\n", FIRST_LINE),
    ("a.com\tFALSE\t/\t\t0\ta\t1\n", FIRST_LINE),
    ("a.com\tFALSE\t\"\"p\tFALSE\t0\ta\t1\n", FIRST_LINE),
    ("a.com\tFALSE\t/\tFALSE\t-2\ta\t1\n", FIRST_LINE),
    ("a.com\tFALSE\t/\tFALSE\t.5\ta\t1\n", FIRST_LINE),
    ("a.com\tFALSE\t/\tFALSE\t1.5s\ta\t1\n", FIRST_LINE),
    ("a.com\tFALSE\t/\tFALSE\t0\t\t\n", FIRST_LINE),
    ("\u{feff}# a\n", FIRST_LINE),
    ("Set-Cookie: a=1\n", FIRST_LINE),
    ("Set-Cookie: a=1; Domain=a.com; Max-Age=60\n", FIRST_LINE),
    ("Set-Cookie: a=1\t2; Domain=a.com\n", FIRST_LINE),
    ("a.com\tFALSE\t/\tFALSE\t0\ta=\t1\n", FIRST_LINE),
    ("a.com\tFALSE\t/\tFALSE\t0\ta\t1;\n", FIRST_LINE),
    ("a.com\tFALSE\t/\tFALSE\t0\ta\t 1\n", FIRST_LINE),
    ("a.com\tFALSE\t/\tFALSE\t0\ta\t1\r1\n", FIRST_LINE),
];

fn rewritten(alloc: Global, file: &str) -> Result<String, FormatError> {
    let store = from_text(alloc, Form::Netscape, true, file)?;
    let text = to_text(Form::Netscape, true, &store);
    drop(store);
    text
}

fn are_read(rt: &impl Abort, alloc: Global, files: &[Read]) {
    for (file, wanted) in files {
        is_written(rt, alloc, rewritten(alloc, file), wanted, file);
    }
}

#[test]
fn files_are_read(rt: HostRuntime) {
    are_read(&rt, rt.alloc(), &READ);
}

#[test]
fn files_of_other_programs_are_read(rt: HostRuntime) {
    are_read(&rt, rt.alloc(), &FROM_OTHER_PROGRAMS);
}

#[test]
fn malformed_lines_are_rejected(rt: HostRuntime) {
    are_read(&rt, rt.alloc(), &MALFORMED);
}

const UNREPRESENTABLE: &str = "cookies.txt cannot represent a cookie";

// Cookies, and what all of them are written as, or the message of the error.
static WRITTEN: [(&[UrlAndValue], &str); 9] = [
    (&[], ""),
    (
        &[("https://[::1]/", "a=\"1\"; Secure; HttpOnly; SameSite=None")],
        "\n#HttpOnly_::1\tFALSE\t/\tTRUE\t0\ta\t\"1\"",
    ),
    (
        &[(
            "http://b.a.com/p/q",
            "a=; Domain=.a.com; Expires=Thu, 01 Jan 1970 00:00:00 GMT",
        )],
        "\n.a.com\tTRUE\t/p\tFALSE\t1\ta\t",
    ),
    (
        &[(
            "http://a.com/",
            "a=1; Expires=Thu, 01 Jan 1970 00:00:01 GMT",
        )],
        "\na.com\tFALSE\t/\tFALSE\t1\ta\t1",
    ),
    (
        &[(
            "http://a.com/",
            "a=1; Expires=Fri, 31 Dec 9999 23:59:59 GMT",
        )],
        "\na.com\tFALSE\t/\tFALSE\t253402300799\ta\t1",
    ),
    (
        &[(
            "http://a.com/",
            "a=1; Expires=Wed, 31 Dec 1969 23:59:59 GMT",
        )],
        UNREPRESENTABLE,
    ),
    (
        &[("http://a.com/", "b=1"), ("http://a.com/", "a=1\t2")],
        UNREPRESENTABLE,
    ),
    (&[("http://a.com/", "a=1; Path=/\u{7f}")], UNREPRESENTABLE),
    (&[("http://.a.com/", "a=1")], UNREPRESENTABLE),
];

fn are_written(rt: &impl Abort, alloc: Global, cookies: &[UrlAndValue], wanted: &str) {
    let store = store_of(rt, alloc, cookies);
    is_written(
        rt,
        alloc,
        to_text(Form::Netscape, true, &store),
        wanted,
        wanted,
    );
    drop(store);
}

#[test]
fn cookies_are_written(rt: HostRuntime) {
    for written in &WRITTEN {
        are_written(&rt, rt.alloc(), written.0, written.1);
    }
}

// A file, what the cookies of its well-formed lines are written as that the format can represent,
// and the numbers of the malformed lines.
type Salvaged = (&'static str, &'static str, &'static [usize]);

static SALVAGED: [Salvaged; 3] = [
    ("# a\n", "", &[]),
    (
        "a.com\n#\na.com\tFALSE\t/\tFALSE\t0\ta\t1\n\u{feff}\n",
        "\na.com\tFALSE\t/\tFALSE\t0\ta\t1",
        &[1, 4],
    ),
    (
        "a.com\tFALSE\t/\tFALSE\t1\ta\t1\n\n \ta\n",
        "\na.com\tFALSE\t/\tFALSE\t1\ta\t1",
        &[3],
    ),
];

fn is_salvaged(rt: &impl Abort, alloc: Global, salvaged: &Salvaged) {
    let loaded = from_text_well_formed(alloc, salvaged.0, Which::All).expect(rt, "memory");
    let text = to_text(Form::Netscape, true, &loaded.store);
    is_written(rt, alloc, text, salvaged.1, salvaged.0);
    is_equal(rt, &loaded.malformed.as_slice(), &salvaged.2, salvaged);
    drop(loaded);
}

// Cookies, what those are written as that the format can represent, and how many it cannot.
type Representable = (&'static [UrlAndValue], &'static str, usize);

static REPRESENTABLE: [Representable; 2] = [
    (&[], "", 0),
    (
        &[
            ("http://a.com/", "a=1\t2"),
            ("http://a.com/", "b=1"),
            ("http://a.com/", "c=1; Path=/\u{7f}"),
        ],
        "\na.com\tFALSE\t/\tFALSE\t0\tb\t1",
        2,
    ),
];

fn is_represented(rt: &impl Abort, alloc: Global, row: &Representable) {
    let store = store_of(rt, alloc, row.0);
    let file = to_text_representable(&store, Which::All).expect(rt, "memory");
    is_equal(rt, &file.text.strip_prefix(HEAD), &Some(row.1), row);
    is_equal(rt, &file.left_out, &row.2, row);
    drop(store);
}

#[test]
fn malformed_lines_and_other_cookies_are_left_out(rt: HostRuntime) {
    for salvaged in &SALVAGED {
        is_salvaged(&rt, rt.alloc(), salvaged);
    }
    for row in &REPRESENTABLE {
        is_represented(&rt, rt.alloc(), row);
    }
}
