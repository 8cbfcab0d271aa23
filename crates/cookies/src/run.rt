//! Runs a command.
use crate::arguments::parse;
use crate::changing::Removal;
use crate::error::{Failure, FileError};
use crate::explanation::{RequestRules, rejection};
use crate::format::FileFormat;
use crate::options::{Command, InputFile, Request, SuffixFile};
use crate::request::{has_control, is_for_suffix, request_cookies};
use crate::runner::{HeaderValue, Runner};
use crate::storage::written_cookies;
use crate::table::table;
use cookie_store::psl::List;
use cookie_store::raw::Syntax;
use cookie_store::serde::Format;
use cookie_store::strict::{self, Context};
use cookie_store::{Cookie, CookieStore, Error, cookie_string};
use jiff::civil::DateTime;
use url::Url;

/// Runs the command of a command line, whose first word is the program's name.
pub fn run<'a>(rt: &HostRuntime, words: &'a [String]) -> Result<(), Failure<'a>> {
    let Request { command, now } = parse(rt.alloc(), words)?;
    let runner = Runner::new(rt, now)?;
    runner.run(command)
}

impl<'r> Runner<'r> {
    fn run<'a>(&self, command: Command<'a>) -> Result<(), Failure<'a>> {
        match command {
            Command::Print { text } => self.write("-", text.as_bytes()),
            Command::Show { file, is_json } => self.show(file, is_json),
            Command::Header {
                url,
                file,
                suffixes,
                context,
            } => self.header(&url, file, suffixes, context),
            Command::Explain {
                url,
                file,
                suffixes,
                context,
            } => self.explain(&url, file, suffixes, context),
            Command::ExplainValue {
                url,
                value,
                suffixes,
                context,
            } => self.explain_value(HeaderValue::new(value, &url, context), suffixes),
            Command::Set {
                url,
                value,
                file,
                suffixes,
                context,
            } => self.set(HeaderValue::new(value, &url, context), file, suffixes),
            Command::Remove { file, key } => self.remove(file, Removal::One(key)),
            Command::Purge { file, purge } => self.remove(file, Removal::Purge(purge)),
            Command::Convert {
                input,
                output,
                skips_unrepresentable,
            } => self.convert(input, output, skips_unrepresentable),
        }
    }

    fn show<'a>(&self, file: InputFile<'a>, is_json: bool) -> Result<(), Failure<'a>> {
        let store = self.load(file)?;
        let shown = if is_json {
            self.print_list(file.name, &store)
        } else {
            self.print_table(file.name, table(&store, self.now))
        };
        drop(store);
        shown
    }

    // Prints the cookies of a file as a JSON list.
    fn print_list<'a>(&self, name: &'a str, store: &CookieStore) -> Result<(), Failure<'a>> {
        match written_cookies(FileFormat::Saved(Format::Json), store) {
            Ok(list) => self.write("-", list.as_slice()),
            Err(error) => Err(Failure::input(name, error)),
        }
    }

    fn header<'a>(
        &self,
        url: &Url,
        file: InputFile<'a>,
        suffixes: Option<SuffixFile<'a>>,
        context: Option<Context>,
    ) -> Result<(), Failure<'a>> {
        let list = self.list(suffixes)?;
        let store = self.load(file)?;
        let printed = self.print_header(file.name, &store, list.as_ref(), url, context);
        drop(store);
        printed
    }

    // Prints the header value of a request for cookies of a file.
    fn print_header<'a>(
        &self,
        name: &'a str,
        store: &CookieStore,
        list: Option<&List>,
        url: &Url,
        context: Option<Context>,
    ) -> Result<(), Failure<'a>> {
        let mut cookies = request_cookies(store, url, context, self.now)?;
        if let Some(list) = list {
            cookies.retain(|cookie| !is_for_suffix(cookie, list));
        }
        if context.is_some() {
            cookies.retain(|cookie| !strict::breaks_prefix(cookie));
        }
        self.print_cookies(name, &cookies)
    }

    // Prints the header value of these cookies, unless there are none.
    fn print_cookies<'a>(
        &self,
        name: &'a str,
        cookies: &[&Cookie<'static>],
    ) -> Result<(), Failure<'a>> {
        if cookies.is_empty() {
            return Ok(());
        }
        let mut header = cookie_string(self.alloc.alloc, cookies)?;
        if has_control(header.as_str()) {
            return Err(Failure::input(name, FileError::ControlCharacter));
        }
        header.push('\n')?;
        self.write("-", header.as_bytes())
    }

    fn explain<'a>(
        &self,
        url: &Url,
        file: InputFile<'a>,
        suffixes: Option<SuffixFile<'a>>,
        context: Option<Context>,
    ) -> Result<(), Failure<'a>> {
        let list = self.list(suffixes)?;
        let list = list.unwrap_or(List::new(self.alloc.alloc));
        let store = self.load(file)?;
        let printed = self.print_explanation(file.name, &store, &list, url, context);
        drop(store);
        printed
    }

    // Prints which cookies of a file a request has, and why it does not have the others.
    fn print_explanation<'a>(
        &self,
        name: &'a str,
        store: &CookieStore,
        suffixes: &List,
        url: &Url,
        context: Option<Context>,
    ) -> Result<(), Failure<'a>> {
        // browsers send Secure cookies to names below localhost, over http too
        let url = if context.is_some() {
            strict::as_secure(url)?
        } else {
            url.clone()?
        };
        let rules = RequestRules {
            url: &url,
            time: self.now,
            suffixes,
            context,
        };
        self.print_table(name, rules.table(store))
    }

    // Prints a table of the cookies of a file.
    fn print_table<'a>(
        &self,
        name: &'a str,
        table: Result<String, Error>,
    ) -> Result<(), Failure<'a>> {
        match table {
            Ok(table) => self.write("-", table.as_bytes()),
            Err(error) => Err(Failure::input(name, FileError::from(error))),
        }
    }

    fn explain_value<'a>(
        &self,
        header: HeaderValue<'_>,
        suffixes: Option<SuffixFile<'a>>,
    ) -> Result<(), Failure<'a>> {
        let list = self.list(suffixes)?;
        let mut store = self.store_under(list);
        let text = self.insertion(&mut store, header);
        drop(store);
        self.write("-", text?.as_bytes())
    }

    // Inserts the cookie of a header value. Returns what is stored, or why it is rejected.
    fn insertion<'a>(
        &self,
        store: &mut CookieStore,
        header: HeaderValue<'_>,
    ) -> Result<String, Failure<'a>> {
        let error = match self.insert(store, header) {
            Ok(()) => return stored(store, self.now),
            Err(Failure::Rejected(error)) => error,
            Err(failure) => return Err(failure),
        };
        let syntax = syntax(header.context);
        Ok(rejection(self.alloc.alloc, header.value, syntax, error)?)
    }
}

// Returns how a header value is read, by the rules of browsers or not.
fn syntax(context: Option<Context>) -> Syntax {
    if context.is_some() {
        Syntax::Rfc6265bis
    } else {
        Syntax::Rfc6265
    }
}

// Returns what is stored of a header value.
fn stored<'a>(store: &CookieStore, now: DateTime) -> Result<String, Failure<'a>> {
    let mut text = String::from_str(store.allocator(), "stored\n")?;
    match table(store, now) {
        Ok(table) => text.push_str(table.as_str())?,
        // the cookie has not expired, so that its expiry has a text: the error is out of memory
        Err(_) => return Err(Failure::Memory),
    }
    Ok(text)
}
