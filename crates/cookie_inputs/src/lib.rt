//! Strings from outside of the program: URLs, and files of public suffix lists.
#![tactic(auto)]

mod suffixes;
mod urls;

pub use suffixes::{SuffixesError, parse_suffixes};
pub use urls::{is_unambiguous, parse_unambiguous};
