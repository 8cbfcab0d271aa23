//! Errors of opening a file and a table.
use sqlite_trees::error::StoreError;
use std::alloc::AllocError;
use std::io::ErrorKind;

/// Why a file could not be opened, or the cookies of a table could not be loaded.
#[derive(Clone, Copy, Debug, PartialEq, Eq)]
pub enum OpenError {
    /// The system could not open or create the file or its log.
    System(ErrorKind),
    /// Another process or store has the file open.
    Locked,
    /// SQLite left a rollback journal beside the file. Open the file with SQLite first.
    Journal,
    /// The file is not a SQLite file with the table `cookies` and nothing else.
    Foreign,
    /// The file is damaged, a row is not that of a cookie, or two rows have the same domain, path
    /// and name.
    Damaged,
    /// The last rowid is the greatest that there is.
    Full,
    /// Out of memory.
    OutOfMemory,
    /// The file failed.
    File(StoreError),
}

impl From<AllocError> for OpenError {
    ghost use Rattle.std.specs.Prelude.{◌≡◌};
    ghost use Rattle.cookie_durable.specs.declared.open_error.OpenError.TheVariants.{OutOfMemory};

    ghost from_gives = { λ _ e. e ≡ OutOfMemory };

    fn from(_: AllocError) -> OpenError {
        OpenError::OutOfMemory
    }
}

impl From<StoreError> for OpenError {
    ghost use Rattle.std.specs.Prelude.{◌≡◌};
    ghost use Rattle.cookie_durable.specs.declared.open_error.OpenError.TheVariants.{File};

    ghost from_gives = { λ error e. e ≡ File error };

    fn from(error: StoreError) -> OpenError {
        OpenError::File(error)
    }
}

impl From<sqlite_wal::Error> for OpenError {
    fn from(error: sqlite_wal::Error) -> OpenError {
        match error {
            sqlite_wal::Error::OutOfMemory => OpenError::OutOfMemory,
            sqlite_wal::Error::Io(_) => OpenError::File(StoreError::Io),
            sqlite_wal::Error::Full => OpenError::File(StoreError::Full),
            _ => OpenError::Damaged,
        }
    }
}

impl From<sqlite_store::OpenError> for OpenError {
    fn from(error: sqlite_store::OpenError) -> OpenError {
        match error {
            sqlite_store::OpenError::OutOfMemory => OpenError::OutOfMemory,
            sqlite_store::OpenError::Io => OpenError::File(StoreError::Io),
            sqlite_store::OpenError::Full => OpenError::File(StoreError::Full),
            sqlite_store::OpenError::Refused => OpenError::Damaged,
        }
    }
}

impl From<sqlite_std_file::OpenError> for OpenError {
    fn from(error: sqlite_std_file::OpenError) -> OpenError {
        match error {
            sqlite_std_file::OpenError::OutOfMemory => OpenError::OutOfMemory,
            sqlite_std_file::OpenError::Busy => OpenError::Locked,
            sqlite_std_file::OpenError::HotJournal => OpenError::Journal,
            sqlite_std_file::OpenError::Io(error) => OpenError::of_system(error.kind()),
        }
    }
}

impl OpenError {
    /// Returns the error for an error of the system.
    pub(crate) fn of_system(kind: ErrorKind) -> OpenError {
        match kind {
            ErrorKind::OutOfMemory => OpenError::OutOfMemory,
            kind => OpenError::System(kind),
        }
    }
}
