//! The saved form of a cookie, in JSON, and the string form of its expiry time.
#![tactic(auto)]

mod error;
pub mod laws;
mod moment;
mod saved;
mod text_reader;
mod text_writer;
mod tokens;
mod value_reader;
mod value_writer;

pub use error::SavedError;
pub use moment::{moment_bytes, moment_text, read_moment};
pub use saved::{Saved, SavedDomain, SavedExpiry};
pub use text_reader::{from_text, list_from_text};
pub use text_writer::{format_list, format_saved, list_to_text, to_text};
pub use value_reader::{from_value, list_from_value};
pub use value_writer::{any_early, list_to_value, to_value};
