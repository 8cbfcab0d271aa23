//! Changes of one table of a store, committed in transactions that survive a crash whole or not at
//! all.
#![tactic(auto)]

mod change;
mod transaction;

pub use change::Change;
pub use transaction::{commit, commit_each, commit_each_then_crash};
