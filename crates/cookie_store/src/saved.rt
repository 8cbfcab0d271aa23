//! The saved form of a cookie, in JSON or in a list in RON, and times as strings such as
//! `2026-01-31T23:59:59Z`.

pub use cookie_saved::{
    Saved, SavedDomain, SavedError, SavedExpiry, from_ron, from_text, from_value, laws,
    list_from_text, list_from_value, list_to_text, list_to_value, moment_text, read_moment,
    ron_laws, to_ron, to_text, to_value,
};
