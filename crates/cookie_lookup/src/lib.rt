//! Finds the cookies of a URL by lookups, RFC 6265 5.4, in any store that groups its rows by domain
//! and path.
//!
//! Rows are grouped by domain, and within a domain by path. Only a few domains can match a URL: its
//! host, and what follows each dot of the host. So can only a few paths: the parts of the URL's
//! path that end with a slash or right before one, and the path itself. These are the candidate
//! domains and candidate paths of the URL. `found` looks up each of them once and nothing else;
//! `found_listed` may walk over the stored domains or paths instead if they are few.
#![tactic(auto)]

mod finding;
pub mod laws;
mod listing;
mod lookups;
mod row_filter;
mod search;

pub use finding::{found, found_listed};
pub use lookups::Lookups;
pub use search::{ListedSearch, Search};
