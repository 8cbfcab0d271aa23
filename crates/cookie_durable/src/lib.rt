//! A cookie store whose changes are committed to a table of a SQLite file.
//!
//! Each call changes the cookies in memory and commits the change before it returns. After a crash
//! the table has the cookies after the first calls: those that returned, and at most one more.
//! [`apply_all`](DurableStore::apply_all) commits many calls together.
#![tactic(auto)]

mod applying;
mod attaching;
mod batching;
mod calls;
mod changes;
mod checking;
mod closing;
mod committing;
mod configuration;
mod crashing;
mod durable_error;
mod durable_store;
mod file;
mod loading;
mod numbering;
mod open_error;
mod opening;
mod receiving;
mod removing;
mod replacing;
mod sessions;
mod staging;
pub mod strict;
mod sweeping;

pub use attaching::Leftover;
pub use durable_error::DurableError;
pub use durable_store::DurableStore;
pub use open_error::OpenError;
