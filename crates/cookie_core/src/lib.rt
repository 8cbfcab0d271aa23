//! The cookie store: insertion, requests, responses, and calls as values.
//!
//! Saving and loading are in the crate above, `cookie_serde`. The crate `cookie_store` has both.
#![tactic(auto)]

mod as_store;
mod call;
mod configuration;
mod cookie_store;
mod header;
mod insertion;
mod iteration;
mod merging;
mod removal;
mod requests;
mod response;
mod secure;
mod secure_last;

pub use as_store::AsStore;
pub use call::{Call, Reply, Stopped};
pub use cookie_store::{CookieStore, InsertResult};
pub use header::cookie_string;
pub use insertion::Acceptance;
pub use merging::own_page;
pub use response::insert_each;
