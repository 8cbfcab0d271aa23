//! Why a command fails.
ghost use Rattle.std.specs.Prelude.{◌≡◌, IfOk, string_bytes};
ghost use Rattle.std.specs.Str.{NoCharPasses};
ghost use Rattle.cookies.specs.Escapes.{is_escaped};
ghost use Rattle.cookies.specs.ExitStatuses.{status_of};

use crate::escape::escaped;
use crate::files::{input_name, output_name};
use crate::format::Export;
use cookie_durable::{DurableError, OpenError};
use cookie_inputs::SuffixesError;
use cookie_store::netscape::NetscapeError;
use cookie_store::serde::{FormatError, MigrateError};
use cookie_store::strict::StrictError;
use cookie_store::{CookieError, Error};
use sqlite::ErrorCode;
use sqlite_trees::error::StoreError;
use std::alloc::{AllocError, AllocFailed, Global};
use std::{fmt, io};

/// Why the command line is wrong.
#[derive(Clone, Copy, Debug, PartialEq, Eq)]
pub enum Usage<'a> {
    /// The arguments cannot be read, as one that is not UTF-8.
    Unreadable,
    /// The argument with this name is missing.
    Missing(&'static str),
    /// The suffix of this file name stands for no format, which this option can name.
    UnknownFormat(&'a str, &'static str),
    /// This is not a time.
    BadTime(&'a str),
    /// This is not a URL.
    BadUrl(&'a str),
    /// Standard input is to hold the cookies and the public suffix list.
    InputTwice,
    /// Standard input or standard output is to be a SQLite file.
    SqliteStream,
}

impl fmt::Display for Usage<'_> {
    fn fmt<W: fmt::Write>(&self, f: &mut fmt::Formatter<W>) -> fmt::Result {
        match *self {
            Usage::Unreadable => f.write_str("an argument is not UTF-8"),
            Usage::Missing(name) => write!(f, "{name}: missing"),
            Usage::UnknownFormat(name, option) => {
                write!(f, "{name}: unknown format, name one by {option}")
            }
            Usage::BadTime(text) => write!(f, "{text}: not a time such as 2026-01-31T23:59:59Z"),
            Usage::BadUrl(text) => write!(f, "{text}: not a URL"),
            Usage::InputTwice => f.write_str("standard input is named twice"),
            Usage::SqliteStream => f.write_str("- cannot be a SQLite file"),
        }
    }
}

/// What is wrong with a file.
#[derive(Drop)]
pub enum FileError {
    /// It cannot be read or written.
    System(io::Error),
    /// It is not UTF-8.
    NotUtf8,
    /// Its cookies cannot be read or written in its format.
    Cookies(FormatError),
    /// One of its lines is not a cookie.
    Lines(MigrateError),
    /// It is not a public suffix list.
    Suffixes(SuffixesError),
    /// A line of a `cookies.txt` is malformed, and the command has the option to leave it out.
    Malformed(FormatError),
    /// It is not an export of this format.
    NotExported(Export),
    /// The item of this number in an export is not a cookie.
    MalformedItem(usize),
    /// It has no cookie with the domain, path and name.
    NoCookie,
    /// It is an open descriptor.
    Descriptor,
    /// A cookie for a header has a control character of ASCII other than HTAB.
    ControlCharacter,
    /// A SQLite file or its log is not a regular file, or has another name too.
    Irregular,
    /// Another program has the SQLite file locked.
    Locked,
    /// SQLite left a rollback journal beside it.
    Journal,
    /// It is not a SQLite file with the table of cookies and nothing else.
    Foreign,
    /// It is a damaged SQLite file, or one of its rows is not a cookie.
    Damaged,
    /// Its table has no rowid left.
    NoRowid,
    /// A cookie has too long strings for a row, or a time before the year 0.
    Unstorable,
    /// Reading or writing the SQLite file failed.
    Database(StoreError),
    /// It has no table of cookies of Firefox.
    NotFirefox,
    /// Reading a SQLite file of another program failed.
    Sqlite(sqlite::Error),
}

impl FileError {
    /// Returns the error of a command with the option to leave out malformed lines.
    pub fn with_skip_option(self) -> FileError {
        match self {
            FileError::Cookies(FormatError::BadLine { line }) => {
                FileError::Malformed(FormatError::BadLine { line })
            }
            error => error,
        }
    }
}

impl fmt::Display for FileError {
    fn fmt<W: fmt::Write>(&self, f: &mut fmt::Formatter<W>) -> fmt::Result {
        match self {
            FileError::System(error) => error.fmt(f),
            FileError::NotUtf8 => f.write_str("not UTF-8"),
            FileError::Cookies(error) => error.fmt(f),
            FileError::Lines(error) => error.fmt(f),
            FileError::Suffixes(error) => error.fmt(f),
            FileError::Malformed(error) => write!(f, "{error}; --skip-malformed leaves it out"),
            FileError::NotExported(Export::Browser) => {
                f.write_str("not a list, as extensions of browsers export cookies")
            }
            FileError::NotExported(Export::Playwright) => {
                f.write_str("not a storage state of Playwright")
            }
            FileError::MalformedItem(item) => {
                write!(
                    f,
                    "item {item} is not a cookie; --skip-malformed leaves it out"
                )
            }
            FileError::NoCookie => f.write_str("no such cookie"),
            FileError::Descriptor => f.write_str("an open descriptor cannot be replaced"),
            FileError::ControlCharacter => {
                f.write_str("a cookie of the request has a control character")
            }
            FileError::Irregular => {
                f.write_str("it or its log is not a regular file with one name")
            }
            FileError::Locked => f.write_str("another program has it locked"),
            FileError::Journal => {
                f.write_str("SQLite left a rollback journal beside it, open it with sqlite3 first")
            }
            FileError::Foreign => f.write_str("not a SQLite file of cookies"),
            FileError::Damaged => f.write_str("damaged, or a row is not a cookie"),
            FileError::NoRowid => f.write_str("the table has no rowid left"),
            FileError::Unstorable => {
                f.write_str("a cookie is too long for a row, or has a time before the year 0")
            }
            FileError::Database(error) => error.fmt(f),
            FileError::NotFirefox => f.write_str("not a file of cookies of Firefox"),
            FileError::Sqlite(error) => error.fmt(f),
        }
    }
}

impl From<io::Error> for FileError {
    fn from(error: io::Error) -> FileError {
        FileError::System(error)
    }
}

impl From<Error> for FileError {
    fn from(error: Error) -> FileError {
        FileError::Cookies(FormatError::from(error))
    }
}

impl From<FormatError> for FileError {
    fn from(error: FormatError) -> FileError {
        FileError::Cookies(error)
    }
}

impl From<MigrateError> for FileError {
    fn from(error: MigrateError) -> FileError {
        FileError::Lines(error)
    }
}

impl From<NetscapeError> for FileError {
    fn from(error: NetscapeError) -> FileError {
        FileError::Cookies(FormatError::from(error))
    }
}

impl From<AllocError> for FileError {
    fn from(_error: AllocError) -> FileError {
        FileError::from(Error::Memory)
    }
}

impl<T: Drop> From<AllocFailed<T>> for FileError {
    fn from(_error: AllocFailed<T>) -> FileError {
        FileError::from(Error::Memory)
    }
}

impl From<SuffixesError> for FileError {
    fn from(error: SuffixesError) -> FileError {
        FileError::Suffixes(error)
    }
}

impl From<OpenError> for FileError {
    fn from(error: OpenError) -> FileError {
        match error {
            OpenError::System(io::ErrorKind::Unsupported) => FileError::Irregular,
            OpenError::System(kind) => FileError::from(io::Error::from(kind)),
            OpenError::Locked => FileError::Locked,
            OpenError::Journal => FileError::Journal,
            OpenError::Foreign => FileError::Foreign,
            OpenError::Damaged => FileError::Damaged,
            OpenError::Full => FileError::NoRowid,
            OpenError::OutOfMemory => FileError::from(Error::Memory),
            OpenError::File(error) => FileError::from(error),
        }
    }
}

impl From<DurableError> for FileError {
    fn from(error: DurableError) -> FileError {
        match error {
            // no command calls a store again after `NotWritten`
            DurableError::Failed => FileError::Database(StoreError::Broken),
            DurableError::Full => FileError::NoRowid,
            DurableError::Unstorable => FileError::Unstorable,
            DurableError::OutOfMemory => FileError::from(Error::Memory),
            DurableError::NotWritten(error) => FileError::from(error),
        }
    }
}

impl From<StoreError> for FileError {
    fn from(error: StoreError) -> FileError {
        match error {
            StoreError::OutOfMemory => FileError::from(Error::Memory),
            StoreError::Unstorable => FileError::Unstorable,
            error => FileError::Database(error),
        }
    }
}

impl From<sqlite::Error> for FileError {
    fn from(error: sqlite::Error) -> FileError {
        match error {
            // the files are in memory, where only a lack of it is such a failure
            sqlite::Error::SqliteFailure(ErrorCode::OutOfMemory | ErrorCode::SystemIoFailure) => {
                FileError::from(Error::Memory)
            }
            sqlite::Error::SqlInputError(_) => FileError::NotFirefox,
            error => FileError::Sqlite(error),
        }
    }
}

/// Why a command fails.
#[derive(Drop)]
pub enum Failure<'a> {
    /// The arguments fit no command: the message for them.
    Arguments(String),
    /// The command line is wrong otherwise.
    Usage(Usage<'a>),
    /// Something is wrong with the file of this name.
    File(&'a str, FileError),
    /// The cookie is rejected.
    Rejected(StrictError),
    /// The system has no random bytes for the hash key.
    Random(io::Error),
    /// The clock cannot be read.
    Clock,
    /// Out of memory.
    Memory,
}

impl<'a> Failure<'a> {
    /// Returns the failure of what is read.
    pub fn input(name: &'a str, error: FileError) -> Failure<'a> {
        Failure::File(input_name(name), error)
    }

    /// Returns the failure of what is written.
    pub fn output(name: &'a str, error: FileError) -> Failure<'a> {
        Failure::File(output_name(name), error)
    }

    /// Returns the exit status: 2 for wrong usage, otherwise 1.
    pub fn status(&self) -> u8
        ensures { result ≡ status_of self.now }
    {
        match self {
            Failure::Arguments(_) | Failure::Usage(_) => 2,
            _ => 1,
        }
    }

    /// Whether nobody reads what was written.
    pub fn is_broken_pipe(&self) -> bool {
        match self {
            Failure::File(_, FileError::System(error)) => {
                error.kind() == io::ErrorKind::BrokenPipe
            }
            _ => false,
        }
    }

    /// Returns the line for standard error, without its line feed. It has no control or format
    /// character.
    pub fn message(&self, alloc: Global) -> Result<String, AllocError>
        ensures { IfOk result (λ line. NoCharPasses is_escaped (string_bytes line)) }
    {
        escaped(alloc, self.to_string(alloc)?.as_str())
    }
}

impl fmt::Display for Failure<'_> {
    fn fmt<W: fmt::Write>(&self, f: &mut fmt::Formatter<W>) -> fmt::Result {
        match self {
            Failure::Arguments(message) => write_usage(f, message),
            Failure::Usage(usage) => write_usage(f, usage),
            Failure::File(name, error) => write!(f, "cookies: {name}: {error}"),
            Failure::Rejected(error) => write!(f, "cookies: cookie rejected: {error}"),
            Failure::Random(error) => write!(f, "cookies: random bytes: {error}"),
            Failure::Clock => f.write_str("cookies: the clock cannot be read"),
            Failure::Memory => f.write_str("cookies: out of memory"),
        }
    }
}

// Writes why the command line is wrong, and how to get help.
fn write_usage<W: fmt::Write>(f: &mut fmt::Formatter<W>, usage: &impl fmt::Display) -> fmt::Result {
    write!(f, "cookies: {usage}; try 'cookies --help'")
}

impl<'a> From<Usage<'a>> for Failure<'a> {
    fn from(usage: Usage<'a>) -> Failure<'a> {
        Failure::Usage(usage)
    }
}

impl From<CookieError> for Failure<'_> {
    fn from(error: CookieError) -> Self {
        Failure::from(StrictError::Cookie(error))
    }
}

/// Converts to `Memory` if out of memory, else to `Rejected`.
impl From<StrictError> for Failure<'_> {
    fn from(error: StrictError) -> Self {
        match error {
            StrictError::Cookie(CookieError::Memory) => Failure::Memory,
            error => Failure::Rejected(error),
        }
    }
}

impl From<AllocError> for Failure<'_> {
    fn from(_error: AllocError) -> Self {
        Failure::Memory
    }
}
