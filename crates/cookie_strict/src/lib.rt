//! The rules that browsers follow beyond RFC 6265: those of its revision,
//! draft-ietf-httpbis-rfc6265bis.
//!
//! [`parse`] and [`insert`] reject what the draft rejects, and insert everything else as the store
//! does. [`cookies_for`] leaves out the cookies that a cross-site request must not have.
#![tactic(auto)]

mod context;
mod error;
mod header_value;
mod insertion;
pub mod laws;
mod merging;
mod requests;
mod response;
mod root;
mod rules;
mod secure_url;
mod shard;
mod site;

pub use context::{Context, is_sent};
pub use error::{StrictError, StrictResult};
pub use insertion::{insert, parse, parse_in_context};
pub use merging::merge;
pub use requests::cookies_for;
pub use response::store_response_cookies;
pub use root::{root_of, root_of_domain};
pub use rules::breaks_prefix;
pub use secure_url::{as_secure, is_secure_url};
pub use shard::shard_of;
pub use site::{Site, is_same_site, is_same_site_in, site_of};
