//! Public suffixes, by the list format and the algorithm of publicsuffix.org.
#![tactic(auto)]

mod error;
pub mod laws;
mod list;
mod reading;
mod suffix;
mod tree;

pub use error::ListError;
pub use list::List;
pub use suffix::Suffix;
