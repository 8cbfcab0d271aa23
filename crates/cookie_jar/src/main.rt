//! The program `cookie_jar`: runs a script of cookies that are received and of URLs that are
//! requested, or converts lines of JSON into a RON list.
//!
//! Each line of standard input is `now TIME`, `set URL VALUE`, `get URL`, `list`,
//! `remove DOMAIN PATH NAME` or `clear`, where `VALUE` is a `Set-Cookie` header value. The output
//! goes to standard output.
//!
//! - `--suffixes FILE`: puts the store under the public suffix list of that file. A file without
//!   rules protects nothing; a line `*` lists the top-level domains without a rule of their own.
//! - `--limit N`: limits each domain to N cookies. An insertion evicts the surplus.
//! - `--convert`: reads lines of JSON, as older programs save cookies, in place of a script, and
//!   writes a RON list of their cookies.
#![tactic(auto)]

use cookie_device::Counted;
use cookie_psl::List;
use cookie_script::error::MainFault;
use cookie_script::{HashKey, StoreAlloc, arguments, convert, error, run, suffixes};
use std::hash::RandomState;
use std::process::ExitCode;
use std::{env, fs};

fn main(rt: HostRuntime) -> ExitCode {
    match work(&rt) {
        Ok(()) => ExitCode::SUCCESS,
        Err(fault) => {
            let _ = eprintln!(rt; "{fault}");
            ExitCode::from(fault.status())
        }
    }
}

// Does what the command-line arguments say.
fn work(rt: &HostRuntime) -> Result<(), MainFault> {
    let words: Vec<String> = env::args(rt)
        .map_err(arguments::arguments_error)?
        .collect(rt.alloc())?;
    let own = arguments::own_arguments(words.as_slice());
    let options = arguments::options(own)?;
    let hash_key = HashKey::Random(RandomState::new(rt).map_err(error::random_key_error)?);
    let alloc = StoreAlloc {
        alloc: rt.alloc(),
        hash_key,
    };
    let mut source = Counted::new(rt.stdin());
    let mut sink = Counted::new(rt.stdout());
    if options.convert {
        return Ok(convert::convert(alloc, &mut source, &mut sink)?);
    }
    let list = match options.suffixes {
        Some(file) => Some(read_list(rt, file)?),
        None => None,
    };
    Ok(run::run(alloc, &mut source, &mut sink, list, options.limit)?)
}

// Reads the public suffix list of a file.
fn read_list(rt: &HostRuntime, file: &str) -> Result<List, MainFault> {
    let bytes = fs::read(rt, file).map_err(suffixes::list_file_error)?;
    suffixes::list_of(rt.alloc(), bytes.as_slice())
}
