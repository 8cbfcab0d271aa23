//! Saving and loading a store: line by line by the trait [`Bulk`], or as one list in JSON, in RON, as
//! a `cookies.txt` file, or by functions of your own.
#![tactic(auto)]

mod bulk;
mod custom;
mod format;
mod format_error;
pub mod json;
mod json_lines;
pub mod laws;
mod list_format;
mod loading;
mod migration;
pub mod netscape;
pub mod ron;
mod saving;
mod which;
mod whole_text;

pub use bulk::Bulk;
pub use custom::{load, load_all, save, save_incl_expired_and_nonpersistent};
pub use format::{Format, from_text_as, load_as, save_as, to_text_as};
pub use format_error::FormatError;
pub use migration::{MigrateError, migrate_lines};
pub use which::Which;
