//! Saving and loading in each format, with each allocation failing.
use super::{end, start};
use crate::built::store_of;
use crate::checks::{is_equal, is_text};
use crate::formats::{Form, Shape, end_of, from_text, is_saved_as, load, save, to_text};
use crate::saved_files::{File, files};
use cookie_fakes::Fake;
use cookie_store::CookieStore;
use cookie_store::serde::FormatError;
use std::alloc::Global;
use std::fmt::Debug;
use std::process::Abort;

// Checks that the call ran out of memory because an allocation failed.
fn ran_out(rt: &impl Abort, end: &str, is_ample: bool, row: &impl Debug) {
    is_equal(rt, &(end, is_ample), &("out of memory", false), row);
}

// Whether what was written is well formed if out of memory: whole lines of the first cookies, or
// nothing for one string.
fn is_cut_off_well(shape: Shape, written: &[u8], text: &str) -> bool {
    match shape {
        Shape::Pairs | Shape::File(_) => written.is_empty(),
        _ => {
            text.as_bytes().starts_with(written) && (written.is_empty() || written.ends_with(b"\n"))
        }
    }
}

// Checks that the cookies are saved as the text.
fn is_saved(
    rt: &impl Abort,
    alloc: Global,
    shape: Shape,
    all: bool,
    store: &CookieStore,
    text: &str,
) {
    let room = Vec::with_capacity(alloc, text.len()).expect(rt, "memory");
    let fake = Fake::new(room, usize::MAX, 0);
    start(alloc);
    let (how, failures, fake) = save(alloc, shape, all, store, fake);
    let is_ample = end(alloc);
    let written = fake.inner.as_slice();
    is_equal(rt, &failures, &0, &(shape, all));
    if how == "done" {
        let written = str::from_utf8(written).unwrap_or("not UTF-8");
        is_text(rt, written, text, &(shape, all));
    } else {
        ran_out(rt, how, is_ample, &(shape, all));
        let is_well = is_cut_off_well(shape, written, text);
        is_equal(rt, &is_well, &true, &(shape, all));
    }
    drop(fake);
}

// Checks that the cookies that were loaded from the text are saved as it again.
fn is_saved_again(
    rt: &impl Abort,
    alloc: Global,
    shape: Shape,
    outcome: &Result<CookieStore, FormatError>,
    text: &str,
    is_ample: bool,
) {
    match outcome {
        Ok(store) => is_saved_as(rt, alloc, shape, store, text),
        Err(_) => ran_out(rt, end_of(outcome), is_ample, &shape),
    }
}

// Ends the allocations that are to fail, and checks what was loaded from the text.
pub fn has_loaded(
    rt: &impl Abort,
    alloc: Global,
    shape: Shape,
    outcome: Result<CookieStore, FormatError>,
    text: &str,
) {
    let is_ample = end(alloc);
    is_saved_again(rt, alloc, shape, &outcome, text, is_ample);
    drop(outcome);
}

fn is_loaded(rt: &impl Abort, alloc: Global, shape: Shape, all: bool, text: &str) {
    let fake = Fake::new(text.as_bytes(), usize::MAX, 0);
    start(alloc);
    let (outcome, failures, _) = load(rt, alloc, shape, all, fake);
    has_loaded(rt, alloc, shape, outcome, text);
    is_equal(rt, &failures, &0, &(shape, all));
}

// The same of a string, which has no line feed at its end.
fn is_formatted(
    rt: &impl Abort,
    alloc: Global,
    form: Form,
    all: bool,
    store: &CookieStore,
    text: &str,
) {
    start(alloc);
    let outcome = to_text(form, all, store);
    let is_ample = end(alloc);
    match &outcome {
        Ok(formatted) => is_text(rt, formatted.as_str(), text.trim_end(), &(form, all)),
        Err(_) => ran_out(rt, end_of(&outcome), is_ample, &(form, all)),
    }
    drop(outcome);
}

fn is_parsed(rt: &impl Abort, alloc: Global, form: Form, all: bool, text: &str) {
    start(alloc);
    let outcome = from_text(alloc, form, all, text);
    has_loaded(rt, alloc, Shape::File(form), outcome, text);
}

// Checks what the cookies are saved as, and that this is loaded as them, or that an allocation
// failed.
pub fn is_file(
    rt: &impl Abort,
    alloc: Global,
    shape: Shape,
    all: bool,
    store: &CookieStore,
    text: &str,
) {
    is_saved(rt, alloc, shape, all, store, text);
    is_loaded(rt, alloc, shape, all, text);
    if let Shape::File(form) = shape {
        is_formatted(rt, alloc, form, all, store, text);
        is_parsed(rt, alloc, form, all, text);
    }
}

// Checks the file of all cookies of the store, and the one of the persistent ones.
fn is_in(rt: &impl Abort, alloc: Global, store: &CookieStore, file: &File) {
    is_file(rt, alloc, file.0, true, store, file.2);
    is_file(rt, alloc, file.0, false, store, file.3);
}

#[test]
fn cookies_are_saved_and_loaded(rt: HostRuntime) {
    for file in files() {
        let store = store_of(&rt, rt.alloc(), file.1);
        is_in(&rt, rt.alloc(), &store, file);
        drop(store);
    }
}
