//! Readers and writers that fail, for each format of saving and loading.
use crate::built::store_of;
use crate::checks::is_equal;
use crate::formats::{Shape, end_of, load, save};
use crate::saved_files::{File, files, text_in};
use cookie_fakes::Fake;
use cookie_store::CookieStore;
use cookie_store::serde::FormatError;
use std::alloc::Global;
use std::process::Abort;

// The format, whether all cookies are saved or loaded, the most bytes of one call, and the number
// of the call that fails.
type Failing = (Shape, bool, usize, usize);

// Checks that a beginning of the text was written, by the writes before the one that failed.
fn is_beginning(rt: &impl Abort, written: &[u8], text: &str, row: &Failing) {
    let writes = row.3.saturating_sub(1);
    let is_part = text.as_bytes().starts_with(written)
        && (writes..=writes.saturating_mul(row.2)).contains(&written.len());
    is_equal(rt, &is_part, &true, row);
}

// Checks that a second saving, without failures, writes the whole text behind that beginning.
fn is_written_behind(
    rt: &impl Abort,
    alloc: Global,
    store: &CookieStore,
    text: &str,
    row: &Failing,
    fake: Fake<Vec<u8>>,
) {
    let part = fake.inner.len();
    let (end, failures, fake) = save(alloc, row.0, row.1, store, fake);
    is_equal(rt, &(end, failures), &("done", 0), row);
    let behind = fake.inner.as_slice().get(part..);
    is_equal(rt, &behind, &Some(text.as_bytes()), row);
    drop(fake);
}

// Checks that all is written, or that a write failed once and was not retried, and that saving again
// writes all.
fn is_written(
    rt: &impl Abort,
    alloc: Global,
    store: &CookieStore,
    text: &str,
    row: &Failing,
    saved: (&str, u64),
    fake: Fake<Vec<u8>>,
) {
    if saved.1 == 0 {
        let written = (saved.0, fake.inner.as_slice());
        is_equal(rt, &written, &("done", text.as_bytes()), row);
        drop(fake);
    } else {
        let end = (saved.0, saved.1, fake.calls);
        is_equal(rt, &end, &("a failed call", 1, row.3), row);
        is_beginning(rt, fake.inner.as_slice(), text, row);
        is_written_behind(rt, alloc, store, text, row, fake);
    }
}

// Returns whether all was written at once.
fn is_saved_whole(
    rt: &impl Abort,
    alloc: Global,
    store: &CookieStore,
    text: &str,
    row: &Failing,
) -> bool {
    let fake = Fake::new(Vec::new(alloc), row.2, row.3);
    let (end, failures, fake) = save(alloc, row.0, row.1, store, fake);
    is_written(rt, alloc, store, text, row, (end, failures), fake);
    failures == 0
}

// Saves with each write failing in turn, and at last without a failure.
fn each_write_fails(
    rt: &impl Abort,
    alloc: Global,
    store: &CookieStore,
    file: &File,
    all: bool,
    most: usize,
) {
    for fails_at in 1..1_000 {
        let row = (file.0, all, most, fails_at);
        if is_saved_whole(rt, alloc, store, text_in(file, all), &row) {
            return;
        }
    }
    panic!(rt; "writing has no end");
}

// Checks that a writer that takes nothing has failed.
fn nothing_is_taken(rt: &impl Abort, alloc: Global, store: &CookieStore, shape: Shape) {
    let fake = Fake::new(Vec::new(alloc), 0, 0);
    let (end, failures, fake) = save(alloc, shape, true, store, fake);
    let end = (end, failures, fake.calls, fake.inner.len());
    is_equal(rt, &end, &("a failed call", 1, 1, 0), &shape);
    drop(fake);
}

// Checks that a writer that takes one byte is served, and one that takes nothing has failed.
fn little_is_taken(rt: &impl Abort, alloc: Global, store: &CookieStore, file: &File) {
    let _is_whole = is_saved_whole(rt, alloc, store, file.2, &(file.0, true, 1, 0));
    if !file.2.is_empty() {
        nothing_is_taken(rt, alloc, store, file.0);
    }
}

// Whether all cookies are saved or loaded, and the most bytes of one call.
static WAYS: [(bool, usize); 4] = [
    (true, 7),
    (false, 7),
    (true, usize::MAX),
    (false, usize::MAX),
];

fn writes_fail(rt: &impl Abort, alloc: Global, store: &CookieStore, file: &File) {
    little_is_taken(rt, alloc, store, file);
    for (all, most) in &WAYS {
        each_write_fails(rt, alloc, store, file, *all, *most);
    }
}

#[test]
fn a_failed_write_stops_the_saving(rt: HostRuntime) {
    for file in files() {
        let store = store_of(&rt, rt.alloc(), file.1);
        writes_fail(&rt, rt.alloc(), &store, file);
        drop(store);
    }
}

fn count_of(outcome: &Result<CookieStore, FormatError>) -> usize {
    match outcome {
        Ok(store) => store.len(),
        Err(_) => 0,
    }
}

// How many cookies are loaded, how the loading ended, and how many reads failed.
type Counts = (usize, &'static str, u64);

fn counts<'t>(
    rt: &impl Abort,
    alloc: Global,
    row: &Failing,
    fake: Fake<&'t [u8]>,
) -> (Counts, Fake<&'t [u8]>) {
    let (outcome, failures, fake) = load(rt, alloc, row.0, row.1, fake);
    let counts = (count_of(&outcome), end_of(&outcome), failures);
    drop(outcome);
    (counts, fake)
}

// Checks that this is loaded as it is by one read of the bytes.
fn is_as_by_one_read(rt: &impl Abort, alloc: Global, bytes: &[u8], row: &Failing, loaded: Counts) {
    let (wanted, _) = counts(rt, alloc, row, Fake::new(bytes, usize::MAX, 0));
    is_equal(rt, &loaded, &wanted, row);
}

// Checks that the failed read took nothing: the reader has the bytes not read before, and they load
// as if they were all.
fn is_rest_loaded(rt: &impl Abort, alloc: Global, text: &str, row: &Failing, fake: Fake<&[u8]>) {
    let taken = row.3.saturating_sub(1).saturating_mul(row.2);
    let unread = fake.inner;
    let wanted = text.as_bytes().get(taken.min(text.len())..);
    is_equal(rt, &Some(unread), &wanted, row);
    let (rest, _) = counts(rt, alloc, row, fake);
    is_as_by_one_read(rt, alloc, unread, row, rest);
}

// Checks that all is loaded as by one read, or that a read failed once and was not retried, and
// that the rest loads. Returns whether all was loaded at once.
fn is_loaded_whole(rt: &impl Abort, alloc: Global, text: &str, row: &Failing) -> bool {
    let fake = Fake::new(text.as_bytes(), row.2, row.3);
    let (loaded, fake) = counts(rt, alloc, row, fake);
    let is_whole = loaded.2 == 0;
    if is_whole {
        is_as_by_one_read(rt, alloc, text.as_bytes(), row, loaded);
    } else {
        let end = (loaded.1, loaded.2, fake.calls);
        is_equal(rt, &end, &("a failed call", 1, row.3), row);
        is_rest_loaded(rt, alloc, text, row, fake);
    }
    is_whole
}

// Loads by reads of one byte; then with each read failing in turn, and at last without a failure.
fn each_read_fails(rt: &impl Abort, alloc: Global, file: &File, all: bool, most: usize) {
    let text = text_in(file, all);
    let _is_whole = is_loaded_whole(rt, alloc, text, &(file.0, all, 1, 0));
    for fails_at in 1..1_000 {
        let row = (file.0, all, most, fails_at);
        if is_loaded_whole(rt, alloc, text, &row) {
            return;
        }
    }
    panic!(rt; "reading has no end");
}

fn reads_fail(rt: &impl Abort, alloc: Global, file: &File) {
    for (all, most) in &WAYS {
        each_read_fails(rt, alloc, file, *all, *most);
    }
}

#[test]
fn a_failed_read_stops_the_loading(rt: HostRuntime) {
    for file in files() {
        reads_fail(&rt, rt.alloc(), file);
    }
}
