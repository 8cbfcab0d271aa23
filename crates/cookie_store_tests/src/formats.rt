//! Saving and loading in each format.
ghost use Rattle.std.specs.Prelude.{◌-◌, ◌^◌, ◌<◌};

use crate::checks::{is_equal, is_text};
use crate::saved_files::FROM;
use crate::steps::new_year;
use cookie_fakes::Fake;
use cookie_store::device::{Counted, Sink, Source};
use cookie_store::serde::{
    self, Format, FormatError, MigrateError, Which, json, migrate_lines, netscape, ron,
};
use cookie_store::{Bulk, Cookie, CookieStore, Error};
use std::alloc::{AllocError, Global};
use std::process::Abort;
use url::Url;

// The format: lines or one string by functions of the tests, lines of JSON, such lines as they are
// migrated, or a file.
#[derive(Clone, Copy, Debug)]
pub enum Shape {
    Values,
    Pairs,
    JsonLines,
    Migrated,
    File(Form),
}

// A list in JSON or RON, a `cookies.txt` file, its representable cookies or well-formed lines, or
// one of these by the calls that take a format.
#[derive(Clone, Copy, Debug)]
pub enum Form {
    Json,
    Ron,
    Netscape,
    WellFormed,
    As(Format),
}

// The cookies that are saved: all, or the persistent ones.
fn saved(all: bool) -> Which {
    if all {
        Which::All
    } else {
        Which::Persistent(new_year())
    }
}

// The cookies that are loaded: all, or the unexpired ones.
fn loaded(all: bool) -> Which {
    if all {
        Which::All
    } else {
        Which::Unexpired(new_year())
    }
}

// The `Set-Cookie` value of the cookie.
fn value_of(alloc: Global, row: &Cookie<'_>) -> Result<String, Error> {
    Ok(row.raw().to_text(alloc)?)
}

fn push_pair(pairs: &mut String, cookie: &Cookie<'_>) -> Result<(), AllocError> {
    pairs.push_str(cookie.name())?;
    pairs.push('=')?;
    pairs.push_str(cookie.value())?;
    pairs.push('|')
}

// The names and values of the cookies.
fn pairs_of(alloc: Global, cookies: &Vec<Cookie<'_>>) -> Result<String, Error> {
    let mut pairs = String::new(alloc);
    for cookie in cookies {
        push_pair(&mut pairs, cookie)?;
    }
    Ok(pairs)
}

// By functions of the tests, or as lines of JSON.
fn save_lines<W: Sink>(
    alloc: Global,
    shape: Shape,
    all: bool,
    store: &CookieStore,
    writer: &mut W,
) -> Result<(), Error>
    requires { (W.state writer.old).failed < 2 ^ 64 - 1 }
{
    let now = new_year();
    match (shape, all) {
        (Shape::Values, true) => {
            store.save_incl_expired_and_nonpersistent(writer, |row| value_of(alloc, row))
        }
        (Shape::Values, false) => store.save(writer, |row| value_of(alloc, row), now),
        (Shape::Pairs, true) => serde::save_incl_expired_and_nonpersistent(
            store,
            writer,
            |cookies| pairs_of(alloc, cookies),
        ),
        (Shape::Pairs, false) => {
            serde::save(store, writer, |cookies| pairs_of(alloc, cookies), now)
        }
        (_, true) => store.save_incl_expired_and_nonpersistent_json(writer),
        (_, false) => store.save_json(writer, now),
    }
}

fn save_file<W: Sink>(
    form: Form,
    all: bool,
    store: &CookieStore,
    writer: &mut W,
) -> Result<(), FormatError>
    requires { (W.state writer.old).failed < 2 ^ 64 - 1 }
{
    let now = new_year();
    match (form, all) {
        (Form::Json, true) => json::save_incl_expired_and_nonpersistent(store, writer).map_err(
            FormatError::Store,
        ),
        (Form::Json, false) => json::save(store, writer, now).map_err(FormatError::Store),
        (Form::Ron, true) => ron::save_incl_expired_and_nonpersistent(store, writer).map_err(
            FormatError::Store,
        ),
        (Form::Ron, false) => ron::save(store, writer, now).map_err(FormatError::Store),
        (Form::Netscape, true) => netscape::save_incl_expired_and_nonpersistent(
            store, writer,
        ).map_err(FormatError::from),
        (Form::Netscape, false) => netscape::save(store, writer, now).map_err(FormatError::from),
        (Form::WellFormed, _) => save_representable(store, writer, saved(all)),
        (Form::As(format), _) => serde::save_as(store, writer, format, saved(all)),
    }
}

fn save_representable<W: Sink>(
    store: &CookieStore,
    writer: &mut W,
    which: Which,
) -> Result<(), FormatError>
    requires { (W.state writer.old).failed < 2 ^ 64 - 1 }
{
    match netscape::save_representable(store, writer, which) {
        Ok(_) => Ok(()),
        Err(error) => Err(FormatError::from(error)),
    }
}

// How saving ended, how many writes failed, and the writer.
pub type Saved = (&'static str, u64, Fake<Vec<u8>>);

// Saves the cookies in the format: all, or the persistent ones at the new year.
pub fn save(
    alloc: Global,
    shape: Shape,
    all: bool,
    store: &CookieStore,
    fake: Fake<Vec<u8>>,
) -> Saved {
    let mut writer = Counted::new(fake);
    let outcome = match shape {
        Shape::File(form) => save_file(form, all, store, &mut writer),
        _ => save_lines(alloc, shape, all, store, &mut writer).map_err(FormatError::Store),
    };
    let end = end_of(&outcome);
    drop(outcome);
    (end, writer.failures(), writer.into_inner())
}

fn received<'l>(alloc: Global, line: &'l str, url: &Url) -> Result<Cookie<'l>, Error> {
    Ok(Cookie::parse(alloc, line, url, new_year())?)
}

// The cookie of a line, as received from `FROM`.
pub fn cookie_of<'l>(alloc: Global, line: &'l str) -> Result<Cookie<'l>, Error> {
    match Url::parse(alloc, FROM) {
        Ok(url) => received(alloc, line, &url),
        Err(_) => Err(Error::Memory),
    }
}

// The cookies of pairs, as received from `FROM`.
fn cookies_of<'t>(alloc: Global, text: &'t str) -> Result<Vec<Cookie<'t>>, Error> {
    let mut cookies = Vec::new(alloc);
    for pair in text.trim_end().split('|') {
        if !pair.is_empty() {
            cookies.push(cookie_of(alloc, pair)?)?;
        }
    }
    Ok(cookies)
}

fn load_lines<R: Source>(
    alloc: Global,
    shape: Shape,
    all: bool,
    reader: &mut R,
) -> Result<CookieStore, Error>
    requires { (R.state reader.old).failed < 2 ^ 64 - 1 }
{
    let now = new_year();
    match (shape, all) {
        (Shape::Values, true) => {
            CookieStore::load_all(alloc, reader, |line| cookie_of(alloc, line), now)
        }
        (Shape::Values, false) => {
            CookieStore::load(alloc, reader, |line| cookie_of(alloc, line), now)
        }
        (Shape::Pairs, true) => {
            serde::load_all(alloc, reader, |text| cookies_of(alloc, text), now)
        }
        (Shape::Pairs, false) => { serde::load(alloc, reader, |text| cookies_of(alloc, text), now) }
        (_, true) => CookieStore::load_json_all(alloc, reader, now),
        (_, false) => CookieStore::load_json(alloc, reader, now),
    }
}

fn load_file<R: Source>(
    alloc: Global,
    form: Form,
    all: bool,
    reader: &mut R,
) -> Result<CookieStore, FormatError>
    requires { (R.state reader.old).failed < 2 ^ 64 - 1 }
{
    let now = new_year();
    match (form, all) {
        (Form::Json, true) => json::load_all(alloc, reader, now).map_err(FormatError::Store),
        (Form::Json, false) => json::load(alloc, reader, now).map_err(FormatError::Store),
        (Form::Ron, true) => ron::load_all(alloc, reader, now).map_err(FormatError::Store),
        (Form::Ron, false) => ron::load(alloc, reader, now).map_err(FormatError::Store),
        (Form::Netscape, true) => netscape::load_all(alloc, reader, now).map_err(FormatError::from),
        (Form::Netscape, false) => netscape::load(alloc, reader, now).map_err(FormatError::from),
        (Form::WellFormed, _) => load_well_formed(alloc, reader, loaded(all)),
        (Form::As(format), _) => serde::load_as(alloc, reader, format, loaded(all)),
    }
}

fn load_well_formed<R: Source>(
    alloc: Global,
    reader: &mut R,
    which: Which,
) -> Result<CookieStore, FormatError>
    requires { (R.state reader.old).failed < 2 ^ 64 - 1 }
{
    match netscape::load_well_formed(alloc, reader, which) {
        Ok(loaded) => Ok(loaded.store),
        Err(error) => Err(FormatError::from(error)),
    }
}

// The error with the number of the line is one of the tests.
fn migrate<R: Source>(
    rt: &impl Abort,
    alloc: Global,
    reader: &mut R,
) -> Result<CookieStore, FormatError>
    requires { (R.state reader.old).failed < 2 ^ 64 - 1 }
{
    match migrate_lines(alloc, reader) {
        Ok(store) => Ok(store),
        Err(MigrateError::Io) => Err(FormatError::Store(Error::Io)),
        Err(MigrateError::Memory) => Err(FormatError::Store(Error::Memory)),
        Err(error) => {
            let text = error.to_string(alloc).expect(rt, "memory");
            Err(FormatError::Store(Error::Other(text)))
        }
    }
}

// The result of loading, how many reads failed, and the reader.
pub type Loaded<'a> = (Result<CookieStore, FormatError>, u64, Fake<&'a [u8]>);

// Loads the cookies in the format: all, or the unexpired ones at the new year.
pub fn load<'a>(
    rt: &impl Abort,
    alloc: Global,
    shape: Shape,
    all: bool,
    fake: Fake<&'a [u8]>,
) -> Loaded<'a> {
    let mut reader = Counted::new(fake);
    let outcome = match shape {
        Shape::File(form) => load_file(alloc, form, all, &mut reader),
        Shape::Migrated => migrate(rt, alloc, &mut reader),
        _ => load_lines(alloc, shape, all, &mut reader).map_err(FormatError::Store),
    };
    (outcome, reader.failures(), reader.into_inner())
}

// The cookies as a string, without the line feed at its end.
pub fn to_text(form: Form, all: bool, store: &CookieStore) -> Result<String, FormatError> {
    let now = new_year();
    match (form, all) {
        (Form::Json, true) => json::to_text_incl_expired_and_nonpersistent(store).map_err(
            FormatError::Store,
        ),
        (Form::Json, false) => json::to_text(store, now).map_err(FormatError::Store),
        (Form::Ron, true) => ron::to_text_incl_expired_and_nonpersistent(store).map_err(
            FormatError::Store,
        ),
        (Form::Ron, false) => ron::to_text(store, now).map_err(FormatError::Store),
        (Form::Netscape, true) => netscape::to_text_incl_expired_and_nonpersistent(store).map_err(
            FormatError::from,
        ),
        (Form::Netscape, false) => netscape::to_text(store, now).map_err(FormatError::from),
        (Form::WellFormed, _) => representable(store, all),
        (Form::As(format), _) => serde::to_text_as(store, format, saved(all)),
    }
}

fn representable(store: &CookieStore, all: bool) -> Result<String, FormatError> {
    match netscape::to_text_representable(store, saved(all)) {
        Ok(file) => Ok(file.text),
        Err(AllocError) => Err(FormatError::Store(Error::Memory)),
    }
}

// The store of the cookies of a string.
pub fn from_text(
    alloc: Global,
    form: Form,
    all: bool,
    text: &str,
) -> Result<CookieStore, FormatError> {
    let now = new_year();
    match (form, all) {
        (Form::Json, true) => json::from_text_all(alloc, text, now).map_err(FormatError::Store),
        (Form::Json, false) => json::from_text(alloc, text, now).map_err(FormatError::Store),
        (Form::Ron, true) => ron::from_text_all(alloc, text, now).map_err(FormatError::Store),
        (Form::Ron, false) => ron::from_text(alloc, text, now).map_err(FormatError::Store),
        (Form::Netscape, true) => netscape::from_text_all(alloc, text, now).map_err(
            FormatError::from,
        ),
        (Form::Netscape, false) => netscape::from_text(alloc, text, now).map_err(FormatError::from),
        (Form::WellFormed, _) => well_formed(alloc, text, all),
        (Form::As(format), _) => serde::from_text_as(alloc, text, format, loaded(all)),
    }
}

fn well_formed(alloc: Global, text: &str, all: bool) -> Result<CookieStore, FormatError> {
    match netscape::from_text_well_formed(alloc, text, loaded(all)) {
        Ok(loaded) => Ok(loaded.store),
        Err(AllocError) => Err(FormatError::Store(Error::Memory)),
    }
}

// How saving or loading ended.
pub fn end_of<T>(outcome: &Result<T, FormatError>) -> &'static str {
    match outcome {
        Ok(_) => "done",
        Err(FormatError::Store(Error::Memory)) => "out of memory",
        Err(FormatError::Store(Error::Io)) => "a failed call",
        Err(_) => "another error",
    }
}

// Checks what all cookies of the store are saved as.
pub fn is_saved_as(
    rt: &impl Abort,
    alloc: Global,
    shape: Shape,
    store: &CookieStore,
    wanted: &str,
) {
    let fake = Fake::new(Vec::new(alloc), usize::MAX, 0);
    let (end, _, fake) = save(alloc, shape, true, store, fake);
    is_equal(rt, &end, &"done", &shape);
    let text = str::from_utf8(fake.inner.as_slice()).expect(rt, "UTF-8");
    is_text(rt, text, wanted, &shape);
    drop(fake);
}
