//! The program `cookies`: shows, edits and converts files of cookies.
//!
//! `cookies --help` lists its commands. The exit status is 0 for success, 1 if the command could not
//! be done, and 2 for wrong usage.
//!
//! A function that owns a store to its end drops it by a call, for the checker: a call of `drop` is
//! proved once, and what would be dropped without it in each function.
#![tactic(auto)]

mod arguments;
mod changing;
mod columns;
mod command_line;
mod database;
mod database_header;
mod domain;
mod edit;
mod error;
mod escape;
mod explanation;
mod export;
mod export_item;
mod files;
mod firefox;
mod firefox_row;
mod format;
mod note;
mod options;
mod purge;
mod request;
mod run;
mod runner;
mod storage;
mod table;

use crate::error::{Failure, Usage};
use std::process::ExitCode;
use std::{env, io};

fn main(rt: HostRuntime) -> ExitCode {
    match words(&rt) {
        Ok(words) => finish(&rt, run::run(&rt, words.as_slice())),
        Err(failure) => finish(&rt, Err(failure)),
    }
}

// Returns the words of the command line, the program's name first.
fn words(rt: &HostRuntime) -> Result<Vec<String>, Failure<'static>> {
    match env::args(rt) {
        Ok(words) => Ok(words.collect(rt.alloc())?),
        Err(error) if error.kind() == io::ErrorKind::OutOfMemory => Err(Failure::Memory),
        Err(_) => Err(Failure::from(Usage::Unreadable)),
    }
}

// Prints the message of a failure, unless nobody reads the output. Returns the exit status.
fn finish(rt: &HostRuntime, outcome: Result<(), Failure<'_>>) -> ExitCode {
    let Err(failure) = outcome else {
        return ExitCode::SUCCESS;
    };
    if failure.is_broken_pipe() {
        return ExitCode::from(failure.status());
    }
    // A message that cannot be printed has nowhere to go.
    let _ = match failure.message(rt.alloc()) {
        Ok(message) => eprintln!(rt; "{message}"),
        Err(_) => eprintln!(rt; "cookies: out of memory"),
    };
    ExitCode::from(failure.status())
}
