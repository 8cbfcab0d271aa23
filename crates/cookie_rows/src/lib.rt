//! The rows of a cookie store.
//!
//! `Rows` is one list of cookies. No two have the same domain, path and name; cookies of one domain
//! are adjacent, and among them those of one path. Callers see only that list. It is stored in
//! three nested maps: by domain, by path and by name.
#![tactic(auto)]

mod boxed;
mod building;
mod copying;
mod domains;
mod eviction_order;
mod hashing;
mod header_order;
mod iter;
mod least;
mod level_iter;
mod map_search;
mod name_list;
mod name_table;
mod names;
mod path_adding;
mod path_removal;
mod path_table;
mod paths;
mod request;
mod rows;
mod secure_keys;
mod secure_rows;

pub use eviction_order::EvictionOrder;
pub use hashing::{HashKey, StoreAlloc};
pub use iter::{IterAny, IterUnexpired};
pub use request::{RequestCookies, RequestValues};
pub use rows::Rows;
pub use secure_keys::{Scope, SecureKeys};
