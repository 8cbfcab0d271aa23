//! Loading a store from lines of JSON, with the number of the first line that is not a saved
//! cookie.
ghost use Rattle.std.specs.Prelude.{◌≡◌, ◌-◌, ◌^◌, ◌<◌, None, IfErr, IfOk, OnOk};
ghost use Rattle.std.specs.Fmt.{WritesOnOk, WritesStyledOnOk};
ghost use Rattle.std.specs.Io.KnownBytes.{IsAtEnd};
ghost use Rattle.cookie_laws.specs.Contents.{rows_in_order};
ghost use Rattle.cookie_serde.specs.Loading.{ReadsEachOnce};
ghost use Rattle.cookie_serde.specs.Migration.{line_number_text, FailsToMigrate, HaveSavedForms, Migrates};

use crate::json_lines::numbered_json_rows;
use crate::loading::LoadError;
use crate::which::Which;
use cookie_core::CookieStore;
use cookie_device::{FillError, Source};
use cookie_parts::Error;
use cookie_rows::StoreAlloc;
use itoa::Buffer;
use std::fmt;

/// The error of [`migrate_lines`].
#[derive(Debug, PartialEq, Eq, Drop)]
pub enum MigrateError {
    /// The first line that is not a saved cookie. The error is `NotUtf8`, `Saved(Json)`,
    /// `Saved(Shape)`, `Saved(Moment)` or `Cookie(Parse)`.
    Line {
        /// Its number, counted from 1; `u64::MAX` for all lines beyond that.
        line: u64,
        /// Why it is not a saved cookie.
        error: Error,
    },
    /// A read failed.
    Io,
    /// Out of memory.
    Memory,
}

/// Out of memory at a line becomes `Memory`, not `Line`.
impl From<LoadError> for MigrateError {
    ghost use Rattle.cookie_serde.specs.Migration.{migrate_error_of};

    ghost from_gives = { λ fault error. error ≡ migrate_error_of fault };

    fn from(fault: LoadError) -> MigrateError {
        match fault {
            LoadError::Source(FillError::Read) => MigrateError::Io,
            LoadError::Source(FillError::Memory) => MigrateError::Memory,
            LoadError::Line(_, Error::Memory) => MigrateError::Memory,
            LoadError::Line(line, error) => MigrateError::Line { line, error },
        }
    }
}

impl fmt::Display for MigrateError {
    ghost use Rattle.std.specs.Prelude.{Some};
    ghost use Rattle.cookie_serde.specs.Migration.{migrate_error_text, styled_migrate_error_text};

    ghost output = { λ e. Some (migrate_error_text e) };

    ghost styled_output = { λ e _. styled_migrate_error_text e };

    fn fmt<W: fmt::Write>(&self, f: &mut fmt::Formatter<W>) -> fmt::Result {
        match self {
            MigrateError::Line { line, error } => {
                write_line_number(f, *line)?;
                error.fmt(f)
            }
            MigrateError::Io => f.write_str("a read failed"),
            MigrateError::Memory => f.write_str("out of memory"),
        }
    }
}

impl std::error::Error for MigrateError {}

// Writes `line`, the number and a colon.
#[tactic(auto, using(crate::proofs::StyledTexts::styled_three))]
fn write_line_number<W: fmt::Write>(f: &mut fmt::Formatter<W>, line: u64) -> fmt::Result
    ensures writes { WritesOnOk W.write_str_gives f.old result (line_number_text line) f.new }
    ensures styled { WritesStyledOnOk W.write_str_gives f.old result (line_number_text line) f.new }
{
    f.write_str("line ")?;
    f.write_str(Buffer::new().format(line))?;
    f.write_str(": ")
}

/// Loads a store from lines of JSON, expired cookies included, and reports the first bad line.
///
/// As [`load_json_all`](crate::Bulk::load_json_all), but the error has the number of the line. A
/// cookie replaces an earlier one with the same domain, path and name. The store has no public
/// suffix list and no limit. Each of its cookies can be saved: none expires before the year 0.
///
/// # Errors
///
/// The first error stops loading.
/// - `Line`: a line is not a saved cookie.
/// - `Io`: a read failed.
/// - `Memory`: out of memory.
pub fn migrate_lines<A: Into<StoreAlloc>, R: Source>(
    alloc: A,
    reader: &mut R,
) -> Result<CookieStore, MigrateError>
    requires readable { (R.state reader.old).failed < 2 ^ 64 - 1 }
    ensures built { IfOk result (λ store. Migrates (R.state reader.old).remaining (rows_in_order store)) }
    ensures saved { IfOk result (λ store. HaveSavedForms store.rows) }
    ensures suffixes { IfOk result (λ store. store.suffixes ≡ None) }
    ensures limit { IfOk result (λ store. store.limit ≡ None) }
    ensures read { OnOk result (IsAtEnd (R.state reader.new).remaining × ((R.state reader.new).failed ≡ (R.state reader.old).failed)) }
    ensures failed { IfErr result (λ error. FailsToMigrate error
        (R.state reader.old) (R.state reader.new)) }
    ensures reads { ReadsEachOnce (R.state reader.old) (R.state reader.new) }
{
    let alloc = alloc.into();
    let rows = numbered_json_rows(alloc, reader, Which::All)?;
    Ok(CookieStore::from_rows(alloc.alloc, rows))
}
