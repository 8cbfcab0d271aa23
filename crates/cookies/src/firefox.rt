//! Firefox's file of cookies, `cookies.sqlite`.
ghost use Rattle.std.specs.Prelude.{◌≡◌, IfOk, IsTrue};
ghost use Rattle.sqlite_disk.specs.Memory.{memory_is_usable};
ghost use Rattle.cookies.specs.FirefoxRows.{cookie_in_row};

use crate::database_header::database_size;
use crate::error::FileError;
use crate::export::{Exported, Items};
use crate::export_item::cookie_of;
use crate::firefox_row::{ExpiryUnit, ROWS, fields_in_row, is_isolated};
use cookie_store::{Cookie, Error, StoreAlloc};
use jiff::civil::DateTime;
use sqlite::{Connection, Files, Options, Row};
use sqlite_disk::{Disk, Memory};
use sqlite_store::FileStore;
use std::alloc::{AllocError, Global};

/// Reads the cookies of a file, and of the log beside it, which is empty if there is none. Expired cookies are
/// included.
pub fn read_firefox(
    alloc: StoreAlloc,
    contents: &[u8],
    log: &[u8],
    now: DateTime,
) -> Result<Exported, FileError> {
    let files = Files {
        log: disk(alloc.alloc, log)?,
        db: disk(alloc.alloc, database(contents))?,
    };
    match Connection::open_files(alloc.alloc, files, Options::new(0)) {
        Ok(connection) => read_rows(alloc, connection, now),
        Err((error, _)) => Err(FileError::from(error)),
    }
}

// Returns the database that a file begins with: Firefox lets the file grow by more than its pages, and the
// kit's SQLite rejects such a file.
fn database(contents: &[u8]) -> &[u8] {
    match database_size(contents) {
        Some(size) => contents.get(..size).unwrap_or(contents),
        None => contents,
    }
}

// Returns a file in memory with these contents.
fn disk(alloc: Global, contents: &[u8]) -> Result<Memory, FileError>
    ensures { IfOk result (λ disk. IsTrue (memory_is_usable disk)) }
{
    let mut disk = Memory::new(alloc);
    match disk.write_at(0, contents) {
        Ok(()) => Ok(disk),
        // a write to memory fails only if memory ran out
        Err(_) => Err(FileError::from(Error::Memory)),
    }
}

// Reads the cookies of a database.
fn read_rows(
    alloc: StoreAlloc,
    connection: Connection<FileStore<Memory>>,
    now: DateTime,
) -> Result<Exported, FileError> {
    let mut connection = connection;
    let rows = connection.query_all(ROWS, &[])?;
    match connection.close_files() {
        Ok(files) => {
            let unit = ExpiryUnit::of_file(files.db.bytes());
            items_of(alloc.alloc, rows.as_slice(), unit)?.into_store(alloc, now)
        }
        Err((error, file)) => {
            drop(file);
            Err(FileError::from(error))
        }
    }
}

// Reads the cookies of rows.
fn items_of(alloc: Global, rows: &[Row], unit: ExpiryUnit) -> Result<Items, AllocError> {
    let mut items = Items::new(alloc);
    for (index, row) in rows.iter().enumerate() {
        let cookie = cookie_in_row(alloc, row, unit)?;
        items.add(index.saturating_add(1), cookie, is_isolated(row))?;
    }
    Ok(items)
}

// Reads the cookie of a row. Returns `None` if it is not one.
#[tactic(auto, unfolding(crate::specs::FirefoxRows::cookie_in_row))]
fn cookie_in_row(
    alloc: Global,
    row: &Row,
    unit: ExpiryUnit,
) -> Result<Option<Cookie<'static>>, AllocError>
    ensures { IfOk result (λ cookie. cookie ≡ cookie_in_row unit row.now) }
{
    match fields_in_row(row, unit) {
        Some(fields) => cookie_of(alloc, &fields),
        None => Ok(None),
    }
}
