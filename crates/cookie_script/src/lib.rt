//! Runs scripts of cookies that are received and of URLs that are requested, from the bytes read to
//! the bytes written; and converts lines of JSON into a RON list.
//!
//! Each line of a script is `now TIME`, `set URL VALUE`, `get URL`, `list`,
//! `remove DOMAIN PATH NAME` or `clear`, where `VALUE` is a `Set-Cookie` header value. A line is
//! parsed into a command, the jar runs it, and `run` writes its output.
#![tactic(auto)]

pub mod arguments;
mod command;
pub mod convert;
pub mod error;
mod jar;
mod line_output;
pub mod options;
pub mod run;
pub mod suffixes;

pub use cookie_store::{HashKey, StoreAlloc};
