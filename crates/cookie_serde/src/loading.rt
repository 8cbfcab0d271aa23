//! Loading rows from lines.
ghost use Rattle.std.specs.Prelude.{◌≡◌, ◌-◌, ◌^◌, ◌<◌, [], IfErr, IfOk, OnErr, OnOk};
ghost use Rattle.std.specs.Fn.{FnReturnsAt};
ghost use Rattle.std.specs.Io.KnownBytes.{IsAtEnd};
ghost use Rattle.cookie_serde.specs.LoadError.{StopsLoading};
ghost use Rattle.cookie_serde.specs.Loading.{BuildsFrom, FailsAtLine, FailsToLoad, ParsesToCookie, ReadsEachOnce, RejectsLine, InsertsLine};

use crate::which::{Which, take};
use cookie_device::{FillError, LineBuffer, Source};
use cookie_parts::{Cookie, Error};
use cookie_rows::{Rows, StoreAlloc};
use std::alloc::Global;

/// Why loading rows from lines failed.
#[derive(Drop)]
pub(crate) enum LoadError {
    /// A read failed, or out of memory for the bytes read.
    Source(FillError),
    /// The error at a line, with its number: counted from 1, `u64::MAX` for all lines beyond that.
    Line(u64, Error),
}

impl From<FillError> for LoadError {
    ghost use Rattle.cookie_serde.specs.declared.loading.LoadError.TheVariants.{Source};

    ghost from_gives = { λ error fault. fault ≡ Source error };

    fn from(error: FillError) -> LoadError {
        LoadError::Source(error)
    }
}

/// The error without the number of the line.
impl From<LoadError> for Error {
    ghost use Rattle.cookie_serde.specs.LoadError.{error_of};

    ghost from_gives = { λ fault error. error ≡ error_of fault };

    fn from(fault: LoadError) -> Error {
        match fault {
            LoadError::Source(FillError::Read) => Error::Io,
            LoadError::Source(FillError::Memory) => Error::Memory,
            LoadError::Line(_, error) => error,
        }
    }
}

/// The rows of those of the cookies that are loaded, which `cookie_of` returns for the source's lines.
pub(crate) fn load_rows<R: Source, F: Fn(&str) -> Result<Cookie<'_>, Error>>(
    alloc: StoreAlloc,
    source: &mut R,
    cookie_of: F,
    which: Which,
) -> Result<Rows, Error>
    requires callable { F.IsAlwaysCallable cookie_of }
    requires readable { (R.state source.old).failed < 2 ^ 64 - 1 }
    ensures built { IfOk result (λ rows. BuildsFrom (FnReturnsAt F.Fn cookie_of) (R.state source.old).remaining
        which rows) }
    ensures read { OnOk result (IsAtEnd (R.state source.new).remaining × ((R.state source.new).failed ≡ (R.state source.old).failed)) }
    ensures failed { IfErr result (λ error. FailsToLoad (FnReturnsAt F.Fn cookie_of) error
        (R.state source.old) (R.state source.new)) }
    ensures reads { ReadsEachOnce (R.state source.old) (R.state source.new) }
{
    Ok(numbered_rows(alloc, source, cookie_of, which)?)
}

/// As [`load_rows`], with the number of the line in the error.
pub(crate) fn numbered_rows<R: Source, F: Fn(&str) -> Result<Cookie<'_>, Error>>(
    alloc: StoreAlloc,
    source: &mut R,
    cookie_of: F,
    which: Which,
) -> Result<Rows, LoadError>
    requires callable { F.IsAlwaysCallable cookie_of }
    requires readable { (R.state source.old).failed < 2 ^ 64 - 1 }
    ensures built { IfOk result (λ rows. BuildsFrom (FnReturnsAt F.Fn cookie_of) (R.state source.old).remaining
        which rows) }
    ensures read { OnOk result (IsAtEnd (R.state source.new).remaining × ((R.state source.new).failed ≡ (R.state source.old).failed)) }
    ensures failed { IfErr result (λ fault. StopsLoading (FnReturnsAt F.Fn cookie_of) fault
        (R.state source.old) (R.state source.new)) }
    ensures reads { ReadsEachOnce (R.state source.old) (R.state source.new) }
{
    let mut input = LineBuffer::new(alloc.alloc);
    let mut rows = Rows::new(alloc);
    insert_lines(
        &mut rows,
        &mut input,
        source,
        alloc.alloc,
        &cookie_of,
        which,
    )?;
    Ok(rows)
}

// Inserts those of the cookies that are loaded, which `cookie_of` returns for the source's lines, into
// empty rows.
fn insert_lines<R: Source, F: Fn(&str) -> Result<Cookie<'_>, Error>>(
    rows: &mut Rows,
    input: &mut LineBuffer,
    source: &mut R,
    alloc: Global,
    cookie_of: &F,
    which: Which,
) -> Result<(), LoadError>
    requires callable { F.IsAlwaysCallable cookie_of.now }
    requires readable { (R.state source.old).failed < 2 ^ 64 - 1 }
    requires empty { (rows.old ≡ record { rows = []; created = [] }) × (input.old ≡ []) }
    ensures built { OnOk result (BuildsFrom (FnReturnsAt F.Fn cookie_of.now) (R.state source.old).remaining which rows.new) }
    ensures read { OnOk result (IsAtEnd (R.state source.new).remaining × ((R.state source.new).failed ≡ (R.state source.old).failed)) }
    ensures failed { IfErr result (λ fault. StopsLoading (FnReturnsAt F.Fn cookie_of.now) fault
        (R.state source.old) (R.state source.new)) }
    ensures reads { ReadsEachOnce (R.state source.old) (R.state source.new) }
{
    let mut number: u64 = 1;
    // for the checker: the proofs name the loop by its label
    'lines: loop {
        if let Some(end) = input.line_end() {
            let line = input.line(end);
            insert_numbered(rows, alloc, line, number, cookie_of, which)?;
            input.pass(end + 1);
            number = number.saturating_add(1);
        } else if !input.fill(source)? {
            break;
        }
    }
    let line = input.rest();
    if !line.is_empty() {
        insert_numbered(rows, alloc, line, number, cookie_of, which)?;
    }
    Ok(())
}

// Does [`insert_line`], and adds the number of the line to its error.
fn insert_numbered<F: Fn(&str) -> Result<Cookie<'_>, Error>>(
    rows: &mut Rows,
    alloc: Global,
    line: &[u8],
    number: u64,
    cookie_of: &F,
    which: Which,
) -> Result<(), LoadError>
    requires callable { F.IsAlwaysCallable cookie_of.now }
    ensures taken { OnOk result (InsertsLine (FnReturnsAt F.Fn cookie_of.now) line.now which
        rows.old rows.new) }
    ensures failed { IfErr result (λ fault. (error : Error) × (fault ≡ LoadError.Line number error)
        × FailsAtLine (FnReturnsAt F.Fn cookie_of.now) error line.now) }
{
    match insert_line(rows, alloc, line, cookie_of, which) {
        Ok(()) => Ok(()),
        Err(error) => Err(LoadError::Line(number, error)),
    }
}

// Inserts the cookie that `cookie_of` returns for the line, if it is one of those that are loaded. On
// any error the rows are unchanged.
fn insert_line<F: Fn(&str) -> Result<Cookie<'_>, Error>>(
    rows: &mut Rows,
    alloc: Global,
    line: &[u8],
    cookie_of: &F,
    which: Which,
) -> Result<(), Error>
    requires callable { F.IsAlwaysCallable cookie_of.now }
    ensures taken { OnOk result (InsertsLine (FnReturnsAt F.Fn cookie_of.now) line.now which
        rows.old rows.new) }
    ensures failed { IfErr result (λ error. FailsAtLine (FnReturnsAt F.Fn cookie_of.now) error line.now) }
    ensures unchanged { OnErr result (rows.new ≡ rows.old) }
{
    let cookie = parse_line(line, cookie_of)?;
    let Ok(cookie) = cookie.into_owned(alloc) else {
        return Err(Error::Memory);
    };
    match take(rows, cookie, &which) {
        Ok(()) => Ok(()),
        Err(_) => Err(Error::Memory),
    }
}

// The cookie that `cookie_of` returns for the line, or `NotUtf8`.
fn parse_line<'l, F: Fn(&str) -> Result<Cookie<'_>, Error>>(
    line: &'l [u8],
    cookie_of: &F,
) -> Result<Cookie<'l>, Error>
    requires { F.IsAlwaysCallable cookie_of.now }
    ensures parsed { IfOk result (λ cookie. ParsesToCookie (FnReturnsAt F.Fn cookie_of.now) line.now cookie) }
    ensures errors { IfErr result (λ error. RejectsLine (FnReturnsAt F.Fn cookie_of.now) error line.now) }
{
    match str::from_utf8(line) {
        Ok(text) => cookie_of(text),
        Err(_) => Err(Error::NotUtf8),
    }
}
