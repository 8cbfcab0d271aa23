//! The state of a script, and the effect of a line.
ghost use Rattle.std.specs.Prelude.{◌≡◌, ◌≢◌, ◌≤◌, [], Err, IfOk, IfSome, IsTrue, OnErr, OnOk, Some};
ghost use Rattle.cookie_script.specs.LineOutput.{line_output_text};
ghost use Rattle.cookie_script.specs.LineResult.{cookies_to_write, result_may_allocate, line_result_text};
ghost use Rattle.cookie_script.specs.CommandViews.{command_view};
ghost use Rattle.cookie_script.specs.Commands.{command_may_allocate, may_allocate};
ghost use Rattle.cookie_script.specs.Script.{run_command, empty, start, run_line};

use crate::command::{Command, read_command};
use crate::line_output::LineOutput;
use cookie_store::psl::List;
use cookie_store::{CookieError, CookieStore, InsertResult, StoreAlloc};
use cookie_words::epoch;
use jiff::civil::DateTime;
use std::alloc::{AllocError, Global};
use std::marker::Model;
use url::Url;

/// The result of a line.
#[derive(Drop)]
pub enum LineResult {
    /// No output.
    Nothing,
    /// A bad line.
    BadLine,
    /// The result of inserting a cookie. Never `Memory`.
    Stored(InsertResult),
    /// Whether a cookie was removed.
    Removed(bool),
    /// All cookies were removed.
    Cleared,
    /// The cookies for this URL are to be written.
    Cookies(Url),
    /// All rows are to be written.
    Rows,
}

/// A store, and the current time of the script.
#[derive(Drop)]
pub struct Jar {
    store: CookieStore,
    moment: DateTime,
}

impl Model for Jar {
    ghost use Rattle.cookie_words.specs.Moments.{moment_of};
    ghost use Rattle.cookie_script.specs.Script.{State};

    ghost Value = { State };

    ghost view = { λ j. record { store = j.store; moment = moment_of j.moment } };
}

impl Jar {
    /// Creates an empty store under the public suffix list and the limit, if there are any. The
    /// time is the epoch.
    pub fn new(alloc: StoreAlloc, list: Option<List>, limit: Option<usize>) -> Jar
        requires { IfSome limit (λ limit. 1 ≤ limit) }
        ensures { result ≡ start (empty list limit) }
    {
        let mut store = CookieStore::with_hash_key(alloc.alloc, alloc.hash_key);
        if let Some(list) = list {
            store.set_suffix_list(list);
        }
        if let Some(limit) = limit {
            store.set_domain_limit(limit);
        }
        Jar {
            store,
            moment: epoch(),
        }
    }

    /// Runs a line.
    ///
    /// The state is unchanged on an error, and also if the output of the line may allocate.
    #[tactic(auto, using(crate::proofs::AllocatingLines::line_allocates), unfolding(crate::specs::Script::run_command))]
    pub fn run_line(&mut self, alloc: Global, line: &[u8]) -> Result<LineResult, AllocError>
        ensures state { OnOk result (self.new ≡ (run_line line.now self.old).state) }
        ensures line_result { IfOk result (λ line_result. line_result_text line_result self.new ≡ (run_line line.now self.old).text) }
        ensures allocating_output { IfOk result (λ line_result. IsTrue (result_may_allocate line_result)
            → IsTrue (may_allocate line.now) × (self.new ≡ self.old)) }
        ensures memory { OnErr result (IsTrue (may_allocate line.now)) }
        ensures unchanged { OnErr result (self.new ≡ self.old) }
    {
        match read_command(alloc, line)? {
            Some(command) => self.run_command(command),
            None => Ok(LineResult::BadLine),
        }
    }

    // Runs a command. A `set` that is rejected early allocates nothing.
    #[tactic(auto, unfolding(crate::specs::Script::run_command))]
    fn run_command(&mut self, command: Command<'_>) -> Result<LineResult, AllocError>
        ensures state { OnOk result (self.new ≡ (run_command (Some (command_view command.entry)) self.old).state) }
        ensures line_result { IfOk result (λ line_result.
            line_result_text line_result self.new ≡ (run_command (Some (command_view command.entry)) self.old).text) }
        ensures allocating_output { IfOk result (λ line_result. IsTrue (result_may_allocate line_result)
            → IsTrue (command_may_allocate (command_view command.entry)) × (self.new ≡ self.old)) }
        ensures memory { OnErr result (IsTrue (command_may_allocate (command_view command.entry))) }
        ensures unchanged { OnErr result (self.new ≡ self.old) }
    {
        match command {
            Command::Now(moment) => {
                self.moment = moment;
                Ok(LineResult::Nothing)
            }
            Command::Set(url, text) => result_or_memory(self.store.parse(text, &url, self.moment)),
            Command::Get(url) => Ok(LineResult::Cookies(url)),
            Command::ListRows => Ok(LineResult::Rows),
            Command::Remove(domain, path, name) => {
                let removed = self.store.remove(domain, path, name);
                Ok(LineResult::Removed(removed.is_some()))
            }
            Command::Clear => {
                self.store.clear();
                Ok(LineResult::Cleared)
            }
        }
    }

    /// Returns the output of a line from its result. Allocates only for the cookies of a URL, if
    /// there are any.
    pub fn line_output(&self, line_result: LineResult) -> Result<LineOutput<'_>, AllocError>
        ensures text { IfOk result (λ output. line_output_text output ≡ line_result_text line_result self.now) }
        ensures memory { OnErr result (IsTrue (result_may_allocate line_result)) }
        ensures given { OnErr result (cookies_to_write line_result self.now ≢ []) }
    {
        match line_result {
            LineResult::Nothing => Ok(LineOutput::Nothing),
            LineResult::BadLine => Ok(LineOutput::Line("", "bad line")),
            LineResult::Stored(inserted) => Ok(LineOutput::of_insert_result(inserted)),
            LineResult::Removed(true) => Ok(LineOutput::Line("", "removed")),
            LineResult::Removed(false) => Ok(LineOutput::Line("", "none")),
            LineResult::Cleared => Ok(LineOutput::Line("", "cleared")),
            LineResult::Cookies(url) => {
                let cookies = self.store.matches(&url, self.moment)?;
                Ok(LineOutput::Header(cookies))
            }
            LineResult::Rows => Ok(LineOutput::Rows(self.store.iter_any())),
        }
    }
}

// Returns the result of an insertion, or `AllocError` if memory ran out.
fn result_or_memory(inserted: InsertResult) -> Result<LineResult, AllocError>
    ensures outcome { IfOk result (λ outcome. (outcome ≡ LineResult.Stored inserted) × (inserted ≢ Err CookieError.Memory)) }
    ensures memory { OnErr result (inserted ≡ Err CookieError.Memory) }
{
    match inserted {
        Err(CookieError::Memory) => Err(AllocError),
        inserted => Ok(LineResult::Stored(inserted)),
    }
}
