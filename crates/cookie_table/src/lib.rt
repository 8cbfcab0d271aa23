//! Cookies as rows of a table of a SQLite file.
#![tactic(auto)]

mod building;
mod reading;
mod values;
mod writing;

pub use reading::from_row;
pub use writing::{CREATE_TABLE, to_row};
