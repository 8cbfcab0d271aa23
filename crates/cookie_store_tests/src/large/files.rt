//! Files and lists of 2,000 cookies.
use super::cookies::{COOKIES, file};
use super::stores::store_of_first;
use crate::allocations::saving::is_file;
use crate::checks::is_text;
use crate::formats::{Form, Shape};
use cookie_store::CookieStore;
use cookie_store::saved::{from_ron, list_from_text, list_to_text, to_ron};
use cookie_store::serde::Format;
use std::alloc::Global;
use std::process::Abort;

static SHAPES: [Shape; 11] = [
    Shape::Values,
    Shape::Pairs,
    Shape::JsonLines,
    Shape::Migrated,
    Shape::File(Form::Json),
    Shape::File(Form::Ron),
    Shape::File(Form::Netscape),
    Shape::File(Form::WellFormed),
    Shape::File(Form::As(Format::Json)),
    Shape::File(Form::As(Format::Ron)),
    Shape::File(Form::As(Format::Netscape)),
];

fn is_long_file(rt: &impl Abort, alloc: Global, shape: Shape, store: &CookieStore) {
    let file = file(rt, alloc, shape, COOKIES);
    is_file(rt, alloc, shape, true, store, file.as_str());
    is_file(rt, alloc, shape, false, store, file.as_str());
}

#[test]
fn many_cookies_are_saved_and_loaded(rt: HostRuntime) {
    let store = store_of_first(&rt, rt.alloc(), COOKIES);
    for shape in &SHAPES {
        is_long_file(&rt, rt.alloc(), *shape, &store);
    }
    drop(store);
}

fn is_json(rt: &impl Abort, alloc: Global, list: &str) {
    let forms = list_from_text(alloc, list).expect(rt, "a list");
    let text = list_to_text(alloc, forms.as_slice()).expect(rt, "memory");
    is_text(rt, text.as_str(), list.trim_end(), &"JSON");
    drop(forms);
}

fn is_ron(rt: &impl Abort, alloc: Global, list: &str) {
    let forms = from_ron(alloc, list).expect(rt, "a list");
    let text = to_ron(alloc, forms.as_slice()).expect(rt, "memory");
    is_text(rt, text.as_str(), list.trim_end(), &"RON");
    drop(forms);
}

#[test]
fn lists_of_many_saved_forms_are_parsed_and_formatted(rt: HostRuntime) {
    let json = file(&rt, rt.alloc(), Shape::File(Form::Json), COOKIES);
    is_json(&rt, rt.alloc(), json.as_str());
    let ron = file(&rt, rt.alloc(), Shape::File(Form::Ron), COOKIES);
    is_ron(&rt, rt.alloc(), ron.as_str());
}
