//! Opening the file of a path.
ghost use Rattle.std.specs.Prelude.{◌≡◌, false, IfErr, IfOk, IsTrue};
ghost use Rattle.std.specs.Result.{result_map_both};
ghost use Rattle.sqlite_wal.specs.Files.{image_at};
ghost use Rattle.sqlite_trees.specs.View.{IsClean};
ghost use Rattle.sqlite_store.specs.FileStore.{is_shielded, view};
ghost use Rattle.cookie_durable.specs.DatabaseFiles.{image_of, FindsCookies, IsCleanLeft, LeavesFiles};
ghost use Rattle.cookie_durable.specs.Durable.{IsInStep};

use crate::attaching::{Leftover, attach};
use crate::{DurableStore, OpenError};
use cookie_rows::{HashKey, StoreAlloc};
use sqlite_disk::{Disk, Files, Start};
use sqlite_pager::Options;
use sqlite_std_file::FileFrom;
use sqlite_store::FileStore;
use std::alloc::Global;
use std::fs::OpenOptions;
use std::hash::{BuildHasher, RandomState};
use std::io;
use std::os::unix::fs::OpenOptionsExt;
use std::rt::HostRuntime;

impl<D: Disk> DurableStore<FileStore<D>> {
    /// Opens a database file and its log. Files without a table get an empty one. If `keep_session`
    /// is false, the session cookies are removed first, in one commit. The maps of the store hash by
    /// the key of `alloc`.
    ///
    /// # Errors
    ///
    /// Those of [`open_path`](DurableStore::open_path) from `Foreign` on.
    pub fn open_files<A: Into<StoreAlloc>>(
        alloc: A,
        files: Files<D>,
        options: Options,
        keep_session: bool,
    ) -> Result<DurableStore<FileStore<D>>, (OpenError, Leftover<D>)>
        requires log { IsTrue (D.Disk.is_usable files.log) }
        requires db { IsTrue (D.Disk.is_usable files.db) }
        ensures in_step { IfOk result (λ d. IsInStep d (view d.file)) }
        ensures works { IfOk result (λ d. d.is_failed ≡ false) }
        ensures found { IfOk result (λ d. IsClean (view d.file) → FindsCookies keep_session (image_of D.Disk files) d.store) }
        ensures guarded { IfOk result (λ d. IsClean (view d.file) → is_shielded d.file) }
        ensures unharmed { IfErr result (λ e. IsCleanLeft e.1 → LeavesFiles keep_session files e.1) }
    {
        let alloc: StoreAlloc = alloc.into();
        let store = match attach(alloc.alloc, files, options) {
            Ok(store) => store,
            Err(left) => return Err(left),
        };
        match DurableStore::open_kept(alloc, store, 0, keep_session) {
            Ok(opened) => Ok(opened),
            Err((error, left)) => Err((error, Leftover::Store(left))),
        }
    }
}

impl<S: Start> DurableStore<FileStore<FileFrom<S>>> {
    /// Opens the SQLite file at `path`, which is locked until the store is dropped. If `keep_session`
    /// is false, the session cookies are removed first, in one commit.
    ///
    /// A missing file is created with the mode 0600. A file without a table gets an empty one. The
    /// maps of the store hash by a random key. `start` stands for what the file and its log hold: pass
    /// [`Unknown`](sqlite_disk::Unknown).
    ///
    /// # Errors
    ///
    /// In the order in which they are checked; the cookies of the file are unchanged:
    /// - `System`: the system has no random bytes, cannot open or create the file, or it has a second
    ///   name.
    /// - `Locked`: another process or store has the file open.
    /// - `Journal`: SQLite left a rollback journal.
    /// - `Foreign`: the file is not a SQLite file with the table `cookies` and nothing else.
    /// - `Damaged`: the file is damaged, a row is not that of a cookie, or two rows have the same
    ///   domain, path and name.
    /// - `Full`: the last rowid is the greatest that there is.
    /// - `OutOfMemory`: out of memory. May be returned instead of any other error.
    /// - `File`: the file failed. May be returned instead of any error from `Foreign` on. The session
    ///   cookies may have been removed.
    pub fn open_path(
        rt: &HostRuntime,
        path: &str,
        keep_session: bool,
        start: S,
    ) -> Result<DurableStore<FileStore<FileFrom<S>>>, OpenError>
        ensures in_step { IfOk result (λ d. IsInStep d (view d.file)) }
        ensures works { IfOk result (λ d. d.is_failed ≡ false) }
        ensures found { IfOk result (λ d. IsClean (view d.file) → FindsCookies keep_session (image_at S.Start) d.store) }
        ensures guarded { IfOk result (λ d. IsClean (view d.file) → is_shielded d.file) }
    {
        let key = random_key(rt)?;
        let alloc = StoreAlloc {
            alloc: rt.alloc(),
            hash_key: HashKey::Random(key),
        };
        // the seed of the log's salts: a hash does not tell its key
        let options = Options::new(key.hash_one(&0u8));
        make_private(rt, path)?;
        let files = sqlite_std_file::open(rt, path, start)?;
        let opened = DurableStore::open_files(alloc, files, options, keep_session);
        without_leftover(opened)
    }
}

// Drops what is left of an open that failed.
fn without_leftover<T, L: Drop>(opened: Result<T, (OpenError, L)>) -> Result<T, OpenError>
    ensures { result ≡ result_map_both (λ it. it) (λ left. left.0) opened }
{
    match opened {
        Ok(it) => Ok(it),
        Err((error, _)) => Err(error),
    }
}

// Creates the file if it is missing, for its owner alone.
fn make_private(rt: &HostRuntime, path: &str) -> Result<(), OpenError> {
    match OpenOptions::new()
        .write(true)
        .create_new(true)
        .mode(0o600)
        .open(rt, path)
    {
        Ok(_) => Ok(()),
        Err(error) if error.kind() == io::ErrorKind::AlreadyExists => Ok(()),
        Err(error) => Err(OpenError::of_system(error.kind())),
    }
}

// Returns a random key, for the maps of the store and the salts of the log.
fn random_key(rt: &HostRuntime) -> Result<RandomState, OpenError> {
    match RandomState::new(rt) {
        Ok(key) => Ok(key),
        Err(error) => Err(OpenError::of_system(error.kind())),
    }
}
