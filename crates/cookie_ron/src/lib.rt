//! Reads and prints lists of saved cookies in RON.
#![tactic(auto)]

pub mod laws;
mod printing;
mod reading;
mod texts;
mod tokens;

pub use printing::{print_list, to_ron};
pub use reading::from_ron;
