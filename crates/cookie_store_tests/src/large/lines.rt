//! Lines of `cookies.txt` files of 2,000 cookies, and lines of 100 KB.
use super::cookies::{COOKIES, cookie_of, file, text};
use super::stores::store_of_first;
use crate::checks::is_text;
use crate::edits::{is_put, is_retained};
use crate::formats::{Form, Shape};
use cookie_store::netscape::{self, SessionExpiry, new_text, push_line, read_cookie};
use cookie_store::saved::{from_text, to_text};
use cookie_store::{Cookie, CookieStore};
use std::alloc::Global;
use std::process::Abort;

const NETSCAPE: Shape = Shape::File(Form::Netscape);

fn formatted(rt: &impl Abort, alloc: Global, cookies: &[Cookie<'static>]) -> String {
    let mut text = new_text(alloc).expect(rt, "memory");
    for cookie in cookies {
        netscape::push_cookie(&mut text, cookie).expect(rt, "memory");
    }
    text
}

fn are_lines(rt: &impl Abort, alloc: Global, file: &str) {
    let cookies = netscape::from_text(alloc, file).expect(rt, "cookies");
    let text = formatted(rt, alloc, cookies.as_slice());
    is_text(rt, text.as_str(), file.trim_end(), &"the file");
    drop(cookies);
}

#[test]
fn many_lines_are_parsed_and_formatted(rt: HostRuntime) {
    let file = file(&rt, rt.alloc(), NETSCAPE, COOKIES);
    are_lines(&rt, rt.alloc(), file.as_str());
}

fn is_line(rt: &impl Abort, alloc: Global, cookie: &Cookie<'static>, line: &str) {
    let mut text = String::new(alloc);
    push_line(&mut text, cookie, SessionExpiry::Zero).expect(rt, "memory");
    is_text(rt, text.as_str(), line, &"the line");
}

fn is_read(rt: &impl Abort, alloc: Global, line: &str) {
    let cookie = read_cookie(alloc, line, 1).expect(rt, "a line");
    let cookie = cookie.expect(rt, "a cookie");
    is_line(rt, alloc, &cookie, line);
    drop(cookie);
}

// The first cookie, with a value of 100 KB.
fn is_long_line(rt: &impl Abort, alloc: Global, filler: &str) {
    let line = text(rt, alloc, NETSCAPE, "", (0, 1), filler);
    is_read(rt, alloc, line.as_str());
    let cookie = cookie_of(rt, alloc, 0, filler);
    is_line(rt, alloc, &cookie, line.as_str());
    drop(cookie);
}

#[test]
fn a_long_line_is_formatted_and_parsed(rt: HostRuntime) {
    let filler = "w".repeat(rt.alloc(), 102_400).expect(&rt, "memory");
    is_long_line(&rt, rt.alloc(), filler.as_str());
}

fn is_form(rt: &impl Abort, alloc: Global, line: &str) {
    let form = from_text(alloc, line).expect(rt, "a cookie");
    let text = to_text(alloc, &form).expect(rt, "memory");
    is_text(rt, text.as_str(), line, &"the line");
    drop(form);
}

#[test]
fn a_long_saved_form_is_parsed_and_formatted(rt: HostRuntime) {
    let filler = "w".repeat(rt.alloc(), 102_400).expect(&rt, "memory");
    let line = text(
        &rt,
        rt.alloc(),
        Shape::JsonLines,
        "",
        (0, 1),
        filler.as_str(),
    );
    is_form(&rt, rt.alloc(), line.as_str());
}

// Puts the cookie of this number, which replaces its line or comes last.
fn is_put_into(rt: &impl Abort, alloc: Global, file_of_all: &str, number: usize, end: usize) {
    let cookie = cookie_of(rt, alloc, number, "");
    let wanted = file(rt, alloc, NETSCAPE, end);
    is_put(rt, alloc, file_of_all, &cookie, Ok(wanted.as_str()));
    drop(cookie);
}

#[test]
fn a_line_is_put_into_a_long_file(rt: HostRuntime) {
    let file = file(&rt, rt.alloc(), NETSCAPE, COOKIES);
    is_put_into(&rt, rt.alloc(), file.as_str(), COOKIES / 2, COOKIES);
    is_put_into(&rt, rt.alloc(), file.as_str(), COOKIES, COOKIES + 1);
}

fn are_retained(rt: &impl Abort, alloc: Global, count: usize, store: &CookieStore) {
    let long = file(rt, alloc, NETSCAPE, COOKIES);
    let wanted = file(rt, alloc, NETSCAPE, count);
    is_retained(rt, alloc, long.as_str(), store, wanted.as_str());
}

#[test]
fn lines_of_a_long_file_are_retained(rt: HostRuntime) {
    let count = COOKIES / 2;
    let store = store_of_first(&rt, rt.alloc(), count);
    are_retained(&rt, rt.alloc(), count, &store);
    drop(store);
}
