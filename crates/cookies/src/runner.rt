//! What commands share: the time, the allocator, and the files that they read and write.
use crate::database;
use crate::error::{Failure, FileError};
use crate::export::{Exported, read_exported};
use crate::files::{self, input_name};
use crate::firefox::read_firefox;
use crate::format::{Export, InputFormat, OutputFormat};
use crate::note::Note;
use crate::options::{CookieFile, InputFile, SuffixFile};
use crate::storage::{read_cookies, read_well_formed};
use cookie_inputs::parse_suffixes;
use cookie_store::psl::List;
use cookie_store::strict::{self, Context};
use cookie_store::{CookieStore, HashKey, StoreAlloc};
use jiff::Timestamp;
use jiff::civil::DateTime;
use jiff::tz::Offset;
use std::hash::RandomState;
use std::io;
use url::Url;

/// A `Set-Cookie` header value.
#[derive(Clone, Copy)]
pub struct HeaderValue<'v> {
    pub value: &'v str,
    /// The URL that it was received from.
    pub url: &'v Url,
    /// Where the request came from, if the rules of browsers hold.
    pub context: Option<Context>,
}

impl<'v> HeaderValue<'v> {
    /// Returns the header value of a response.
    pub fn new(value: &'v str, url: &'v Url, context: Option<Context>) -> HeaderValue<'v> {
        HeaderValue {
            value,
            url,
            context,
        }
    }
}

/// Runs commands at a time.
#[derive(Drop)]
pub struct Runner<'r> {
    pub rt: &'r HostRuntime,
    pub alloc: StoreAlloc,
    pub now: DateTime,
}

impl<'r> Runner<'r> {
    /// Returns a runner at the time `now`, or at that of the clock.
    pub fn new<'a>(rt: &'r HostRuntime, now: Option<DateTime>) -> Result<Runner<'r>, Failure<'a>> {
        let alloc = StoreAlloc {
            alloc: rt.alloc(),
            hash_key: HashKey::Random(random_state(rt)?),
        };
        let now = match now {
            Some(now) => now,
            None => clock(rt)?,
        };
        Ok(Runner { rt, alloc, now })
    }

    /// Returns a store without cookies.
    pub fn new_store(&self) -> CookieStore {
        let StoreAlloc { alloc, hash_key } = self.alloc;
        CookieStore::with_hash_key(alloc, hash_key)
    }

    /// Returns a store without cookies that has this public suffix list, if there is one.
    pub fn store_under(&self, list: Option<List>) -> CookieStore {
        let store = self.new_store();
        match list {
            Some(list) => store.with_suffix_list(list),
            None => store,
        }
    }

    /// Inserts the cookie of a header value.
    pub fn insert<'a>(
        &self,
        store: &mut CookieStore,
        header: HeaderValue<'_>,
    ) -> Result<(), Failure<'a>> {
        let (value, url) = (header.value, header.url);
        match header.context {
            Some(context) => strict::parse_in_context(store, value, url, context, self.now)?,
            None => store.parse(value, url, self.now)?,
        };
        Ok(())
    }

    /// Reads the cookies of a file. Malformed lines and items are an error, or are left out and named.
    pub fn load<'a>(&self, file: InputFile<'a>) -> Result<CookieStore, Failure<'a>> {
        let format = match file.format {
            InputFormat::Output(OutputFormat::File(format)) => format,
            InputFormat::Output(OutputFormat::Sqlite) => {
                let store = database::read_rows(self.rt, file.name);
                return store.map_err(|error| Failure::input(file.name, error));
            }
            InputFormat::Export(export) => {
                let contents = self.read(file.name)?;
                let exported = read_exported(self.alloc, export, contents.as_slice(), self.now);
                return self.exported(file, exported);
            }
            InputFormat::Firefox => {
                let (contents, log) = (self.read(file.name)?, self.log_of(file.name)?);
                let (contents, log) = (contents.as_slice(), log.as_slice());
                return self.exported(file, read_firefox(self.alloc, contents, log, self.now));
            }
        };
        let contents = self.read(file.name)?;
        if file.skips_malformed {
            let name = file.name;
            return self.well_formed(CookieFile { name, format }, contents.as_slice());
        }
        let store = read_cookies(self.alloc, format, contents.as_slice());
        store.map_err(|error| Failure::input(file.name, error.with_skip_option()))
    }

    // Returns the cookies of an export, and names what is left out: malformed items and partitioned cookies.
    fn exported<'a>(
        &self,
        file: InputFile<'a>,
        exported: Result<Exported, FileError>,
    ) -> Result<CookieStore, Failure<'a>> {
        match exported {
            Ok(exported) => {
                self.say_left_out(file, &exported)?;
                Ok(exported.store)
            }
            Err(error) => Err(Failure::input(file.name, error)),
        }
    }

    // Names the malformed items, which are an error if they may not be left out, and says how many
    // cookies are partitioned.
    fn say_left_out<'a>(
        &self,
        file: InputFile<'a>,
        exported: &Exported,
    ) -> Result<(), Failure<'a>> {
        let name = input_name(file.name);
        for item in exported.malformed.iter() {
            if !file.skips_malformed {
                return Err(Failure::input(file.name, FileError::MalformedItem(*item)));
            }
            self.say(name, Note::MalformedItem(*item))?;
        }
        let left_out = exported.partitioned;
        self.say(
            name,
            match file.format {
                InputFormat::Firefox => Note::Isolated(left_out),
                _ => Note::Partitioned(left_out),
            },
        )
    }

    /// Reads the cookies of the well-formed lines of a file, and names the others.
    pub fn well_formed<'a>(
        &self,
        file: CookieFile<'a>,
        contents: &[u8],
    ) -> Result<CookieStore, Failure<'a>> {
        match read_well_formed(self.alloc, file.format, contents) {
            Ok(loaded) => {
                self.say_malformed(file.name, loaded.malformed.as_slice())?;
                Ok(loaded.store)
            }
            Err(error) => Err(Failure::input(file.name, error)),
        }
    }

    // Names the malformed lines, which are left out.
    fn say_malformed<'a>(&self, name: &'a str, lines: &[usize]) -> Result<(), Failure<'a>> {
        for line in lines {
            self.say(input_name(name), Note::Malformed(*line))?;
        }
        Ok(())
    }

    /// Reads a file.
    pub fn read<'a>(&self, name: &'a str) -> Result<Vec<u8>, Failure<'a>> {
        match files::read(self.rt, name) {
            Ok(contents) => Ok(contents),
            Err(error) => Err(Failure::input(name, FileError::System(error))),
        }
    }

    // Reads the log that SQLite keeps beside a file, if there is one.
    fn log_of<'a>(&self, name: &'a str) -> Result<Vec<u8>, Failure<'a>> {
        let log = format!(in self.alloc.alloc; "{name}-wal")?;
        match files::read(self.rt, log.as_str()) {
            Ok(contents) => Ok(contents),
            Err(error) if error.kind() == io::ErrorKind::NotFound => {
                Ok(Vec::new(self.alloc.alloc))
            }
            Err(error) => Err(Failure::input(name, FileError::System(error))),
        }
    }

    /// Replaces a file, or writes to standard output.
    pub fn write<'a>(&self, name: &'a str, contents: &[u8]) -> Result<(), Failure<'a>> {
        match files::write(self.rt, name, contents) {
            Ok(()) => Ok(()),
            Err(error) => Err(Failure::output(name, FileError::System(error))),
        }
    }

    /// Reads a public suffix list, if its file is named.
    pub fn list<'a>(&self, suffixes: Option<SuffixFile<'a>>) -> Result<Option<List>, Failure<'a>> {
        let Some(file) = suffixes else {
            return Ok(None);
        };
        match self.list_in(file) {
            Ok(list) => Ok(Some(list)),
            Err(error) => Err(Failure::input(file.name, error)),
        }
    }

    fn list_in(&self, file: SuffixFile<'_>) -> Result<List, FileError> {
        let contents = files::read(self.rt, file.name)?;
        match str::from_utf8(contents.as_slice()) {
            Ok(text) => Ok(parse_suffixes(self.alloc.alloc, text, file.only_listed)?),
            Err(_) => Err(FileError::NotUtf8),
        }
    }

    /// Says something of a file on standard error, unless the count is 0.
    pub fn say<'a>(&self, name: &'a str, note: Note) -> Result<(), Failure<'a>> {
        if note.is_empty() {
            return Ok(());
        }
        let message = note.message(self.alloc.alloc, name)?;
        // What cannot be printed has nowhere to go.
        let _ = eprintln!(self.rt; "{message}");
        Ok(())
    }
}

fn random_state<'a>(rt: &HostRuntime) -> Result<RandomState, Failure<'a>> {
    match RandomState::new(rt) {
        Ok(state) => Ok(state),
        Err(error) => Err(Failure::Random(error)),
    }
}

// Returns the time of the clock, in UTC.
fn clock<'a>(rt: &HostRuntime) -> Result<DateTime, Failure<'a>> {
    match Timestamp::now(rt) {
        Ok(now) => Ok(Offset::UTC.to_datetime(now)),
        Err(_) => Err(Failure::Clock),
    }
}
