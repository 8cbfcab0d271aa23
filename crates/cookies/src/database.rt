//! Cookies as rows of a SQLite file. The file is locked while it is open.
ghost use Rattle.std.specs.Prelude.{◌≡◌, IfOk};
ghost use Rattle.sqlite_store.specs.FileStore.{view};
ghost use Rattle.cookie_durable.specs.Durable.{IsInStep};

use crate::error::FileError;
use crate::runner::HeaderValue;
use cookie_durable::{DurableError, DurableStore, strict};
use cookie_store::CookieStore;
use cookie_store::psl::List;
use cookie_store::strict::{StrictError, StrictResult};
use jiff::civil::DateTime;
use sqlite_disk::{Disk, Unknown};
use sqlite_std_file::FileFrom;
use sqlite_store::FileStore;
use sqlite_trees::store::Store;
use std::alloc::Global;
use std::fs;

/// A SQLite file with a row for each cookie.
pub type Database = DurableStore<FileStore<FileFrom<Unknown>>>;

/// Opens a file, and creates it if it does not exist.
pub fn open(rt: &HostRuntime, name: &str) -> Result<Database, FileError>
    ensures { IfOk result (λ d. IsInStep d (view d.file)) }
{
    match DurableStore::open_path(rt, name, true, Unknown) {
        Ok(database) => Ok(database),
        Err(error) => Err(FileError::from(error)),
    }
}

/// Copies the log beside a file into the file, which then has all cookies without it, and closes both.
/// On an error they stay in the log.
pub fn finish<D: Disk + Drop>(file: FileStore<D>) {
    let mut file = file;
    let _ = file.checkpoint();
}

/// Reads the cookies of a file that exists, expired ones and session cookies included. If it is
/// removed meanwhile, it is created.
pub fn read_rows(rt: &HostRuntime, name: &str) -> Result<CookieStore, FileError> {
    fs::metadata(rt, name)?;
    match open(rt, name) {
        Ok(database) => cookies_of(database),
        Err(error) => Err(error),
    }
}

// Returns a copy of the cookies, and closes the file.
fn cookies_of<S: Store + Drop>(database: DurableStore<S>) -> Result<CookieStore, FileError> {
    let cookies: Result<_, _> = database.store().clone();
    drop(database.into_file());
    Ok(cookies?)
}

/// Parses a header value, inserts the cookie under a list and commits the change. The inner error
/// is why the cookie is rejected.
pub fn receive<S: Store>(
    alloc: Global,
    database: &mut DurableStore<S>,
    list: Option<List>,
    header: HeaderValue<'_>,
    now: DateTime,
) -> Result<StrictResult, DurableError>
    requires { IsInStep database.old (S.Store.view database.old.file) }
    ensures { IsInStep database.new (S.Store.view database.new.file) }
{
    let (value, url) = (header.value, header.url);
    if let Some(list) = list {
        database.set_suffix_list(list);
    }
    if let Some(context) = header.context {
        return strict::parse_in_context(database, alloc, value, url, context, now);
    }
    match database.parse(alloc, value, url, now)? {
        Ok(action) => Ok(Ok(action)),
        Err(error) => Ok(Err(StrictError::Cookie(error))),
    }
}
