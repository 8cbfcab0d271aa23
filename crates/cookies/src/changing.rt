//! The commands that change files.
ghost use Rattle.cookie_durable.specs.Durable.{IsInStep};

use crate::database;
use crate::domain::named_domain;
use crate::edit::{after_removal, after_set, set_cookie};
use crate::error::{Failure, FileError};
use crate::files::{self, output_name};
use crate::note::Note;
use crate::options::{CookieFile, InputFile, Key, OutputFile, SuffixFile};
use crate::purge::{Purge, remove_purged, remove_purged_rows};
use crate::runner::{HeaderValue, Runner};
use crate::storage::{representable_cookies, same_site_count, written_cookies};
use cookie_durable::{DurableError, DurableStore};
use cookie_store::CookieStore;
use cookie_store::psl::List;
use sqlite_trees::store::Store;
use std::alloc::AllocError;
use std::{fs, io};

/// Which cookies to remove.
#[derive(Clone, Copy)]
pub enum Removal<'a> {
    /// The one with this key. It is an error if there is none.
    One(Key<'a>),
    /// Those that the purge names.
    Purge(Purge<'a>),
}

/// A change of the rows of a SQLite file.
#[derive(Drop)]
enum RowChange<'c> {
    /// Inserts the cookie of a header value, which a list may reject.
    Set(HeaderValue<'c>, Option<List>),
    /// Removes cookies.
    Remove(Removal<'c>),
    /// Replaces all cookies by those of a store.
    Replace(&'c CookieStore),
}

impl<'r> Runner<'r> {
    /// Inserts the cookie of a header value into a file, which need not exist.
    pub fn set<'a>(
        &self,
        header: HeaderValue<'_>,
        file: OutputFile<'a>,
        suffixes: Option<SuffixFile<'a>>,
    ) -> Result<(), Failure<'a>> {
        self.check_replaceable(name_of(file))?;
        let list = self.list(suffixes)?;
        match file {
            OutputFile::File(file) => self.set_in_file(header, file, list),
            OutputFile::Sqlite(name) => self.set_row(header, name, list),
        }
    }

    // Inserts the cookie of a header value into a file that is written whole.
    fn set_in_file<'a>(
        &self,
        header: HeaderValue<'_>,
        file: CookieFile<'a>,
        list: Option<List>,
    ) -> Result<(), Failure<'a>> {
        let (before, old) = self.load_or_new(file)?;
        let set = self.set_beside(header, file, &before, old.as_slice(), list);
        drop(before);
        set
    }

    // The same for a file with these cookies and contents.
    fn set_beside<'a>(
        &self,
        header: HeaderValue<'_>,
        file: CookieFile<'a>,
        before: &CookieStore,
        old: &[u8],
        list: Option<List>,
    ) -> Result<(), Failure<'a>> {
        let store = self.with_cookie(before, list, header)?;
        let replaced = match set_cookie(before, &store) {
            Some(cookie) => self.replace(file, after_set(file.format, old, &store, cookie)),
            None => Ok(()),
        };
        drop(store);
        replaced
    }

    // Returns a copy of the store with the cookie of a header value, which a list may reject.
    fn with_cookie<'a>(
        &self,
        before: &CookieStore,
        list: Option<List>,
        header: HeaderValue<'_>,
    ) -> Result<CookieStore, Failure<'a>> {
        let mut store = before.clone()?;
        if let Some(list) = list {
            store.set_suffix_list(list);
        }
        self.insert(&mut store, header)?;
        Ok(store)
    }

    // Inserts the cookie of a header value into a SQLite file.
    fn set_row<'a>(
        &self,
        header: HeaderValue<'_>,
        name: &'a str,
        list: Option<List>,
    ) -> Result<(), Failure<'a>> {
        if fs::metadata(self.rt, name).is_err() {
            self.check_value(header, list.as_ref())?;
        }
        self.change_rows(name, RowChange::Set(header, list))
    }

    // Checks a header value in a store without cookies. One that is rejected creates no file.
    fn check_value<'a>(
        &self,
        header: HeaderValue<'_>,
        list: Option<&List>,
    ) -> Result<(), Failure<'a>> {
        let list = match list {
            Some(list) => Some(list.clone()?),
            None => None,
        };
        self.insert(&mut self.store_under(list), header)
    }

    /// Removes cookies of a file.
    pub fn remove<'a>(
        &self,
        file: OutputFile<'a>,
        removal: Removal<'a>,
    ) -> Result<(), Failure<'a>> {
        self.check_replaceable(name_of(file))?;
        match file {
            OutputFile::File(file) => self.remove_in_file(file, removal),
            OutputFile::Sqlite(name) => self.remove_rows(name, removal),
        }
    }

    // Removes cookies of a file that is written whole.
    fn remove_in_file<'a>(
        &self,
        file: CookieFile<'a>,
        removal: Removal<'a>,
    ) -> Result<(), Failure<'a>> {
        let old = self.read(file.name)?;
        self.remove_from(file, old.as_slice(), removal)
    }

    // The same for a file with these contents.
    fn remove_from<'a>(
        &self,
        file: CookieFile<'a>,
        old: &[u8],
        removal: Removal<'a>,
    ) -> Result<(), Failure<'a>> {
        let mut store = self.well_formed(file, old)?;
        let replaced = self.remove_in_store(&mut store, file, old, removal);
        drop(store);
        replaced
    }

    // The same with the cookies that the file has.
    fn remove_in_store<'a>(
        &self,
        store: &mut CookieStore,
        file: CookieFile<'a>,
        old: &[u8],
        removal: Removal<'a>,
    ) -> Result<(), Failure<'a>> {
        match removal {
            Removal::One(key) => remove_one(store, file.name, key)?,
            Removal::Purge(purge) => self.purge(store, purge)?,
        }
        self.replace(file, after_removal(file.format, old, store))
    }

    // Removes the cookies that `purge` names.
    fn purge<'a>(&self, store: &mut CookieStore, purge: Purge<'a>) -> Result<(), Failure<'a>> {
        let domain = domain_of(store, purge)?;
        let domain = domain.as_deref();
        remove_purged(store, Purge { domain, ..purge }, self.now);
        Ok(())
    }

    // Removes cookies of a SQLite file, which must exist.
    fn remove_rows<'a>(&self, name: &'a str, removal: Removal<'a>) -> Result<(), Failure<'a>> {
        match fs::metadata(self.rt, name) {
            Ok(_) => self.change_rows(name, RowChange::Remove(removal)),
            Err(error) => Err(Failure::input(name, FileError::System(error))),
        }
    }

    /// Reads the cookies of a file, and writes them to another.
    pub fn convert<'a>(
        &self,
        input: InputFile<'a>,
        output: OutputFile<'a>,
        skips_unrepresentable: bool,
    ) -> Result<(), Failure<'a>> {
        let store = self.load(input)?;
        let written = match output {
            OutputFile::File(output) => self.write_cookies(output, &store, skips_unrepresentable),
            OutputFile::Sqlite(name) => self.write_rows(name, &store),
        };
        drop(store);
        written
    }

    // Writes cookies to a file. Says how many a `cookies.txt` lacks, and how many lost SameSite.
    fn write_cookies<'a>(
        &self,
        output: CookieFile<'a>,
        store: &CookieStore,
        skips_unrepresentable: bool,
    ) -> Result<(), Failure<'a>> {
        if !output.format.is_cookies_txt() {
            return self.replace(output, written_cookies(output.format, store));
        }
        if skips_unrepresentable {
            self.write_representable(output.name, store)?;
        } else {
            self.replace(output, written_cookies(output.format, store))?;
        }
        self.say(
            output_name(output.name),
            Note::WithoutSameSite(same_site_count(store)),
        )
    }

    // Writes a `cookies.txt` of the cookies that it can represent.
    fn write_representable<'a>(
        &self,
        name: &'a str,
        store: &CookieStore,
    ) -> Result<(), Failure<'a>> {
        match representable_cookies(store) {
            Ok(file) => {
                self.write(name, file.text.as_bytes())?;
                self.say(output_name(name), Note::LeftOut(file.left_out))
            }
            Err(error) => Err(Failure::output(name, error)),
        }
    }

    // Replaces the cookies of a SQLite file.
    fn write_rows<'a>(&self, name: &'a str, store: &CookieStore) -> Result<(), Failure<'a>> {
        self.check_replaceable(name)?;
        self.change_rows(name, RowChange::Replace(store))
    }

    // Changes the rows of a SQLite file. One that does not exist is created.
    fn change_rows<'a>(&self, name: &'a str, change: RowChange<'_>) -> Result<(), Failure<'a>> {
        match database::open(self.rt, name) {
            Ok(database) => {
                let (file, outcome) = self.change_in_database(database, name, change);
                database::finish(file);
                outcome
            }
            Err(error) => Err(Failure::output(name, error)),
        }
    }

    // The same in an open SQLite file, which it returns.
    fn change_in_database<'a, S: Store>(
        &self,
        database: DurableStore<S>,
        name: &'a str,
        change: RowChange<'_>,
    ) -> (S, Result<(), Failure<'a>>)
        requires { IsInStep database (S.Store.view database.file) }
    {
        let mut database = database;
        let outcome = match change {
            RowChange::Set(header, list) => {
                self.set_in_database(&mut database, name, header, list)
            }
            RowChange::Remove(Removal::One(key)) => {
                self.remove_in_database(&mut database, name, key)
            }
            RowChange::Remove(Removal::Purge(purge)) => {
                self.purge_in_database(&mut database, name, purge)
            }
            RowChange::Replace(store) => {
                let (file, replaced) = database.replace(self.alloc.alloc, store);
                return (file, committed(name, replaced));
            }
        };
        (database.into_file(), outcome)
    }

    // Inserts the cookie of a header value into an open SQLite file.
    fn set_in_database<'a, S: Store>(
        &self,
        database: &mut DurableStore<S>,
        name: &'a str,
        header: HeaderValue<'_>,
        list: Option<List>,
    ) -> Result<(), Failure<'a>>
        requires { IsInStep database.old (S.Store.view database.old.file) }
    {
        match database::receive(self.alloc.alloc, database, list, header, self.now) {
            Ok(Ok(_)) => Ok(()),
            Ok(Err(rejection)) => Err(Failure::from(rejection)),
            Err(error) => Err(Failure::output(name, FileError::from(error))),
        }
    }

    // Removes one cookie of an open SQLite file.
    fn remove_in_database<'a, S: Store>(
        &self,
        database: &mut DurableStore<S>,
        name: &'a str,
        key: Key<'_>,
    ) -> Result<(), Failure<'a>>
        requires { IsInStep database.old (S.Store.view database.old.file) }
    {
        let domain = named_domain(database.store(), key.domain)?;
        match database.remove(self.alloc.alloc, domain.as_str(), key.path, key.name) {
            Ok(Some(_)) => Ok(()),
            Ok(None) => Err(Failure::input(name, FileError::NoCookie)),
            Err(error) => Err(Failure::output(name, FileError::from(error))),
        }
    }

    // Removes the cookies of an open SQLite file that `purge` names.
    fn purge_in_database<'a, S: Store>(
        &self,
        database: &mut DurableStore<S>,
        name: &'a str,
        purge: Purge<'_>,
    ) -> Result<(), Failure<'a>>
        requires { IsInStep database.old (S.Store.view database.old.file) }
    {
        let domain = domain_of(database.store(), purge)?;
        let domain = domain.as_deref();
        let (alloc, purge) = (self.alloc.alloc, Purge { domain, ..purge });
        committed(name, remove_purged_rows(alloc, database, purge, self.now))
    }

    // Reads the cookies of a file and what it holds: none and nothing if it does not exist.
    fn load_or_new<'a>(&self, file: CookieFile<'a>) -> Result<(CookieStore, Vec<u8>), Failure<'a>> {
        match files::read(self.rt, file.name) {
            Ok(old) => Ok((self.well_formed(file, old.as_slice())?, old)),
            Err(error) if error.kind() == io::ErrorKind::NotFound => {
                Ok((self.new_store(), Vec::new(self.alloc.alloc)))
            }
            Err(error) => Err(Failure::input(file.name, FileError::System(error))),
        }
    }

    // Replaces a file by these contents.
    fn replace<'a>(
        &self,
        file: CookieFile<'a>,
        contents: Result<Vec<u8>, FileError>,
    ) -> Result<(), Failure<'a>> {
        match contents {
            Ok(contents) => self.write(file.name, contents.as_slice()),
            Err(error) => Err(Failure::output(file.name, error)),
        }
    }

    // An edit replaces its file, which cannot be done if the name stands for an open descriptor.
    fn check_replaceable<'a>(&self, name: &'a str) -> Result<(), Failure<'a>> {
        match files::is_descriptor(self.rt, name) {
            Ok(false) => Ok(()),
            Ok(true) => Err(Failure::output(name, FileError::Descriptor)),
            Err(error) => Err(Failure::output(name, FileError::System(error))),
        }
    }
}

// Returns the name of a file that is written.
fn name_of(file: OutputFile<'_>) -> &str {
    match file {
        OutputFile::File(file) => file.name,
        OutputFile::Sqlite(name) => name,
    }
}

// Removes one cookie of a store, which has those of a file.
fn remove_one<'a>(store: &mut CookieStore, name: &'a str, key: Key<'_>) -> Result<(), Failure<'a>> {
    let domain = named_domain(store, key.domain)?;
    match store.remove(domain.as_str(), key.path, key.name) {
        Some(_) => Ok(()),
        None => Err(Failure::input(name, FileError::NoCookie)),
    }
}

// Returns what became of a change of a SQLite file.
fn committed<'a>(name: &'a str, outcome: Result<(), DurableError>) -> Result<(), Failure<'a>> {
    match outcome {
        Ok(()) => Ok(()),
        Err(error) => Err(Failure::output(name, FileError::from(error))),
    }
}

// Returns the domain that `purge` names.
fn domain_of(store: &CookieStore, purge: Purge<'_>) -> Result<Option<String>, AllocError> {
    match purge.domain {
        Some(domain) => Ok(Some(named_domain(store, domain)?)),
        None => Ok(None),
    }
}
