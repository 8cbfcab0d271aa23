//! Opening a database file and its log, over any disk.
ghost use Rattle.std.specs.Prelude.{◌≡◌, [], Bool, None, IfErr, IfOk, IsTrue, OnOk};
ghost use Rattle.sqlite_wal.specs.PageSize.{bytes_of};
ghost use Rattle.sqlite_wal.specs.Reads.{AreClean, OnlyReads};
ghost use Rattle.sqlite_wal.specs.State.{IsShielded};
ghost use Rattle.sqlite_pool.specs.Opening.{IsBlankFile};
ghost use Rattle.sqlite_pool.specs.Stored.{Recovers};
ghost use Rattle.sqlite_store.specs.Db.{IsFile};
ghost use Rattle.sqlite_store.specs.FileStore.{schema_of, state, view, IsReady};
ghost use Rattle.sqlite_store.specs.Listing.{file_trees};
ghost use Rattle.sqlite_store.specs.Unopened.{files_of, image, state_of, wanted_by, AreUsable, Creates, Opens};
ghost use Rattle.cookie_durable.specs.DatabaseFiles.{cookies_schema, image_of, FindsRows, HasRead, IsCleanLeft, IsSpared, LeavesFiles};

use crate::OpenError;
use cookie_table::CREATE_TABLE;
use sqlite_disk::{Disk, Files};
use sqlite_pager::{Options, Pager};
use sqlite_pool::probe_blank;
use sqlite_store::{FileStore, Unopened};
use sqlite_trees::error::StoreError;
use sqlite_trees::schema::Object;
use sqlite_trees::store::Shape;
use sqlite_value::order::is_same;
use sqlite_value::row::Row;
use sqlite_value::value::ValueRef;
use sqlite_wal::{PageSize, probe_first_page, probe_page_size};
use std::alloc::{AllocFailed, Global};

/// The files of an open that failed, in the state in which they are.
#[derive(Drop)]
pub enum Leftover<D: Disk> {
    /// Nothing was written.
    Files(Files<D>),
    /// The log may have been recovered, or a new database begun.
    Unopened(Unopened<D>),
    /// The table could not be loaded.
    Store(FileStore<D>),
}

// The page size of a new file.
const NEW_SIZE: usize = 4096;

/// Opens the table `cookies` of the files as tree 0. Files without a database or without any table
/// get the table.
///
/// # Errors
///
/// - `File`: the disk failed, or the files have met a limit of the format.
/// - `Foreign`: the files are not a SQLite file with the table `cookies` and nothing else.
/// - `Damaged`: the files are damaged.
/// - `OutOfMemory`: out of memory.
pub(crate) fn attach<D: Disk>(
    alloc: Global,
    files: Files<D>,
    options: Options,
) -> Result<FileStore<D>, (OpenError, Leftover<D>)>
    requires log { IsTrue (D.Disk.is_usable files.log) }
    requires db { IsTrue (D.Disk.is_usable files.db) }
    ensures ready { IfOk result IsReady }
    ensures schema { IfOk result (λ it. schema_of it ≡ cookies_schema) }
    ensures guarded { IfOk result (λ it. IsTrue (state it).is_clean → IsShielded (state it)) }
    ensures found { IfOk result (λ it. IsTrue (state it).is_clean → FindsRows (image_of D.Disk files) ((view it).committed 0)) }
    ensures unharmed { IfErr result (λ e. IsCleanLeft e.1 → (keep_session : Bool) → LeavesFiles keep_session files e.1) }
{
    let mut files = files;
    let found = match find_size(alloc, &mut files) {
        Ok(found) => found,
        Err(error) => return Err((error, Leftover::Files(files))),
    };
    let fresh = match unopened(alloc, files, found, options) {
        Ok(fresh) => fresh,
        Err(left) => return Err((OpenError::OutOfMemory, Leftover::Files(left))),
    };
    match open_or_create(fresh, found.is_none()) {
        Ok(store) => Ok(store),
        Err((error, left)) => Err((error, Leftover::Unopened(left))),
    }
}

// Returns the page size of the database, or none if there is no database yet. Nothing is written.
fn find_size<D: Disk>(alloc: Global, files: &mut Files<D>) -> Result<Option<PageSize>, OpenError>
    requires log { IsTrue (D.Disk.is_usable files.old.log) }
    requires db { IsTrue (D.Disk.is_usable files.old.db) }
    ensures none { IfOk result (λ found. AreClean D.Disk files.new.log files.new.db → found ≡ None → IsBlankFile 4096 (image_of D.Disk files.old)) }
    ensures log { OnlyReads D.Disk files.old.log files.new.log }
    ensures db { OnlyReads D.Disk files.old.db files.new.db }
{
    if probe_blank(alloc, files, new_size(), false)? {
        return Ok(None);
    }
    let Ok(found) = probe_page_size(files) else {
        return Err(OpenError::File(StoreError::Io));
    };
    let Some(size) = found else {
        return Err(OpenError::Foreign);
    };
    let (first, _) = probe_first_page(alloc, files, size)?;
    if first == b'S' {
        Ok(Some(size))
    } else {
        Err(OpenError::Foreign)
    }
}

fn new_size() -> PageSize
    ensures { bytes_of result ≡ 4096 }
{
    PageSize::new(NEW_SIZE).unwrap()
}

// Prepares the files for the schema. If out of memory, they are returned.
fn unopened<D: Disk>(
    alloc: Global,
    files: Files<D>,
    found: Option<PageSize>,
    options: Options,
) -> Result<Unopened<D>, Files<D>>
    ensures back { IfErr result (λ left. (left.log ≡ files.log) × (left.db ≡ files.db)) }
    ensures files { IfOk result (λ it. files_of it ≡ (files.log, files.db)) }
    ensures size { IfOk result (λ it. found ≡ None → (state_of it).page_size ≡ 4096) }
    ensures schema { IfOk result (λ it. wanted_by it ≡ cookies_schema) }
{
    let size = found.unwrap_or(new_size());
    let pager = match Pager::new(alloc, files, size, options) {
        Ok(pager) => pager,
        Err(AllocFailed { value }) => return Err(value),
    };
    let table = Object {
        shape: Shape::Table,
        kind: "table",
        name: "cookies",
        table: "cookies",
        reals: 0,
        sql: Some(CREATE_TABLE),
    };
    match Unopened::new(alloc, pager, &[table]) {
        Ok(fresh) => Ok(fresh),
        Err(AllocFailed { value }) => Err(value.close()),
    }
}

// Creates the table in files that have none.
fn create<D: Disk>(files: Unopened<D>) -> Result<FileStore<D>, (OpenError, Unopened<D>)>
    requires { AreUsable files }
    ensures ready { IfOk result IsReady }
    ensures schema { IfOk result (λ it. schema_of it ≡ wanted_by files) }
    ensures guarded { IfOk result (λ it. IsTrue (state it).is_clean → IsShielded (state it)) }
    ensures honest { IfOk result (λ it. IsTrue (state it).is_clean → IsTrue (state_of files).is_clean) }
    ensures empty { IfOk result (λ it. IsTrue (state it).is_clean → (view it).committed 0 ≡ []) }
    ensures falls { IfErr result (λ e. IsTrue (state_of e.1).is_clean → IsTrue (state_of files).is_clean) }
    ensures unharmed { IfErr result (λ e. IsTrue (state_of e.1).is_clean → Creates files (state_of e.1)) }
{
    match files.create() {
        Ok(store) => Ok(store),
        Err((error, left)) => Err((OpenError::from(error), left)),
    }
}

// Opens the table, or creates it if the files list nothing.
fn open_or_create<D: Disk>(
    files: Unopened<D>,
    is_blank: bool,
) -> Result<FileStore<D>, (OpenError, Unopened<D>)>
    requires usable { AreUsable files }
    requires schema { wanted_by files ≡ cookies_schema }
    requires blank { IsTrue is_blank → IsTrue (state_of files).is_clean → IsBlankFile (state_of files).page_size (image files) }
    ensures ready { IfOk result IsReady }
    ensures schema { IfOk result (λ it. schema_of it ≡ cookies_schema) }
    ensures guarded { IfOk result (λ it. IsTrue (state it).is_clean → IsShielded (state it)) }
    ensures honest { IfOk result (λ it. IsTrue (state it).is_clean → IsTrue (state_of files).is_clean) }
    ensures found { IfOk result (λ it. IsTrue (state it).is_clean → FindsRows (image files) ((view it).committed 0)) }
    ensures falls { IfErr result (λ e. IsTrue (state_of e.1).is_clean → IsTrue (state_of files).is_clean) }
    ensures unharmed { IfErr result (λ e. IsTrue (state_of e.1).is_clean → IsSpared files e.1) }
{
    let mut files = files;
    if is_blank {
        return create(files);
    }
    match lists_table(&mut files) {
        Ok(true) => open(files),
        Ok(false) => create(files),
        Err(error) => Err((error, files)),
    }
}

// Opens the table, which the files list.
fn open<D: Disk>(files: Unopened<D>) -> Result<FileStore<D>, (OpenError, Unopened<D>)>
    requires { AreUsable files }
    ensures ready { IfOk result IsReady }
    ensures schema { IfOk result (λ it. schema_of it ≡ wanted_by files) }
    ensures guarded { IfOk result (λ it. IsTrue (state it).is_clean → IsShielded (state it)) }
    ensures honest { IfOk result (λ it. IsTrue (state it).is_clean → IsTrue (state_of files).is_clean) }
    ensures found { IfOk result (λ it. IsTrue (state it).is_clean → Recovers (state_of files).page_size (image files) (state it).committed) }
    ensures sound { IfOk result (λ it. IsTrue (state it).is_clean → ∥ IsFile (state_of files).page_size (wanted_by files) (state it).committed ∥₁) }
    ensures reads { IfOk result (λ it. IsTrue (state it).is_clean → (view it).committed 0 ≡ file_trees (state_of files).page_size (wanted_by files) (state it).committed 0) }
    ensures falls { IfErr result (λ e. IsTrue (state_of e.1).is_clean → IsTrue (state_of files).is_clean) }
    ensures unharmed { IfErr result (λ e. IsTrue (state_of e.1).is_clean → Opens files (state_of e.1)) }
{
    match files.open() {
        Ok(store) => Ok(store),
        Err((error, left)) => Err((OpenError::from(error), left)),
    }
}

// Whether the files list the table and nothing else. False if they list nothing.
fn lists_table<D: Disk>(files: &mut Unopened<D>) -> Result<bool, OpenError>
    requires { AreUsable files.old }
    ensures usable { OnOk result (AreUsable files.new) }
    ensures schema { wanted_by files.new ≡ wanted_by files.old }
    ensures honest { IsTrue (state_of files.new).is_clean → IsTrue (state_of files.old).is_clean }
    ensures kept { IsTrue (state_of files.new).is_clean → Opens files.old (state_of files.new) }
    ensures lists { IfOk result (λ lists. IsTrue (state_of files.new).is_clean → HasRead lists files.old files.new) }
{
    let rows = files.read_catalog()?;
    match rows.as_slice() {
        [] => Ok(false),
        [row] if is_own(row) => Ok(true),
        _ => Err(OpenError::Foreign),
    }
}

// Whether the row of `sqlite_schema` lists the table.
fn is_own(row: &Row) -> bool {
    is_word(row, 1, "table")
        && is_word(row, 2, "cookies")
        && is_word(row, 3, "cookies")
        && is_word(row, 5, CREATE_TABLE)
}

// Whether the value at a place is this string.
fn is_word(row: &Row, at: usize, word: &str) -> bool {
    is_same(row.get(at), ValueRef::Text(word.as_bytes()))
}
