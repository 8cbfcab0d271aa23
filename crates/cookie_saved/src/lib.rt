//! Saved cookies: as JSON, as lists in RON, and the string form of their expiry times.
#![tactic(auto)]

pub use cookie_forms::{
    Saved, SavedDomain, SavedError, SavedExpiry, from_text, from_value, laws, list_from_text,
    list_from_value, list_to_text, list_to_value, moment_text, read_moment, to_text, to_value,
};
pub use cookie_ron::{from_ron, laws as ron_laws, to_ron};
