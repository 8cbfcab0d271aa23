//! Cookies with numbers, 60 in a row of one host, and files of them.
use crate::built::cookie;
use crate::formats::{Form, Shape};
use crate::texts::add;
use cookie_store::Cookie;
use cookie_store::serde::Format;
use std::alloc::Global;
use std::process::Abort;

// The number of cookies of one host.
pub const EACH: usize = 60;

pub const COOKIES: usize = 2_000;

// What a file has before its cookies, between them and behind them.
fn frame(shape: Shape) -> (&'static str, &'static str, &'static str) {
    match shape {
        Shape::Values | Shape::JsonLines | Shape::Migrated => ("", "\n", "\n"),
        Shape::Pairs => ("", "|", "|\n"),
        Shape::File(Form::Json | Form::As(Format::Json)) => ("[\n", ",\n", "\n]\n"),
        Shape::File(Form::Ron | Form::As(Format::Ron)) => ("[\n", ",\n", ",\n]\n"),
        Shape::File(_) => ("# Netscape HTTP Cookie File\n", "\n", "\n"),
    }
}

// A cookie in such a file.
fn words<'a>(shape: Shape, host: &'a str, name: &'a str, value: &'a str) -> [&'a str; 7] {
    match shape {
        Shape::Values => ["", "", "", name, "=", value, "; Max-Age=60"],
        Shape::Pairs => ["", "", "", name, "=", value, ""],
        Shape::JsonLines | Shape::Migrated => [
            r#"{"domain":{"HostOnly":""#,
            host,
            r#""},"expires":{"AtUtc":"2026-01-01T00:01:00Z"},"path":["/",false],"raw_cookie":""#,
            name,
            "=",
            value,
            r#"; Max-Age=60"}"#,
        ],
        Shape::File(Form::Json | Form::As(Format::Json)) => [
            "  {\n    \"domain\": {\n      \"HostOnly\": \"",
            host,
            "\"\n    },\n    \"expires\": {\n      \"AtUtc\": \"2026-01-01T00:01:00Z\"\n    },\n    \
            \"path\": [\n      \"/\",\n      false\n    ],\n    \"raw_cookie\": \"",
            name,
            "=",
            value,
            "; Max-Age=60\"\n  }",
        ],
        Shape::File(Form::Ron | Form::As(Format::Ron)) => [
            "    (\n        raw_cookie: \"",
            name,
            "=",
            value,
            "; Max-Age=60\",\n        path: (\"/\", false),\n        domain: HostOnly(\"",
            host,
            "\"),\n        expires: AtUtc(\"2026-01-01T00:01:00Z\"),\n    )",
        ],
        Shape::File(_) => [
            host,
            "\tFALSE\t/\tFALSE\t1767225660\t",
            name,
            "\t",
            value,
            "",
            "",
        ],
    }
}

// Appends the cookie of this number, whose value ends with the filler.
fn push_cookie(
    rt: &impl Abort,
    alloc: Global,
    text: &mut String,
    shape: Shape,
    separator: &str,
    number: usize,
    filler: &str,
) {
    let host = number / EACH;
    let host = format!(in alloc; "h{host}.example").expect(rt, "memory");
    let name = format!(in alloc; "n{number}").expect(rt, "memory");
    let value = format!(in alloc; "{number}{filler}").expect(rt, "memory");
    let words = words(shape, host.as_str(), name.as_str(), value.as_str());
    add(rt, text, separator, &words);
}

// The cookies from the number `first` up to `end`, with the separator between them.
pub fn text(
    rt: &impl Abort,
    alloc: Global,
    shape: Shape,
    separator: &str,
    (first, end): (usize, usize),
    filler: &str,
) -> String {
    let mut text = String::new(alloc);
    for number in first..end {
        push_cookie(rt, alloc, &mut text, shape, separator, number, filler);
    }
    text
}

// The file of the cookies up to this number.
pub fn file(rt: &impl Abort, alloc: Global, shape: Shape, end: usize) -> String {
    let (before, between, behind) = frame(shape);
    let cookies = text(rt, alloc, shape, between, (0, end), "");
    format!(in alloc; "{before}{cookies}{behind}").expect(rt, "memory")
}

// The URL of the host of a cookie.
pub fn address(rt: &impl Abort, alloc: Global, number: usize) -> String {
    let host = number / EACH;
    format!(in alloc; "http://h{host}.example/").expect(rt, "memory")
}

// Its `Set-Cookie` value.
pub fn value(rt: &impl Abort, alloc: Global, number: usize, filler: &str) -> String {
    let numbers = (number, number.saturating_add(1));
    text(rt, alloc, Shape::Values, "", numbers, filler)
}

pub fn cookie_of(rt: &impl Abort, alloc: Global, number: usize, filler: &str) -> Cookie<'static> {
    let address = address(rt, alloc, number);
    let value = value(rt, alloc, number, filler);
    cookie(rt, alloc, &(address.as_str(), value.as_str()))
}
