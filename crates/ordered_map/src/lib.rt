//! Maps by string that keep the order of insertion, from which an entry is removed in amortized
//! constant time.
#![tactic(auto)]

mod gaps;
mod iter;
mod map;
mod retain;

pub use iter::{Iter, Values};
pub use map::OrderedMap;
