//! A cookie store for HTTP clients, RFC 6265.
//!
//! [`CookieStore`] parses `Set-Cookie` header values, stores the cookies, and returns those that
//! match the URL of a request. The trait [`Bulk`] takes all cookies of a response, and saves and
//! loads a store line by line. The module [`serde`] saves and loads a store as one list: in JSON,
//! in RON, as a `cookies.txt` file, or by functions of your own.
//!
//! A store reads no clock: each call that depends on the time takes it as `now`, in UTC.
#![tactic(auto)]

pub mod device;
pub mod saved;

pub use cookie_core::{
    Acceptance, AsStore, Call, CookieStore, InsertResult, Reply, Stopped, cookie_string,
};
pub use cookie_edit as edit;
pub use cookie_inputs as inputs;
pub use cookie_laws as laws;
pub use cookie_lookup as lookup;
pub use cookie_lookup::Lookups;
pub use cookie_netscape as netscape;
pub use cookie_parts as parts;
pub use cookie_parts::{
    Cookie, CookieDomain, CookieError, CookieExpiration, CookiePath, CookieResult, Error,
    Exclusion, IdnaErrors, StoreAction, StoreResult, StoreResult as Result, cookie_domain,
    cookie_path, utils,
};
pub use cookie_psl as psl;
pub use cookie_raw as raw;
pub use cookie_raw::{RawCookie, RawCookieParseError};
pub use cookie_rows::{
    EvictionOrder, HashKey, IterAny, IterUnexpired, RequestCookies, RequestValues, StoreAlloc,
};
pub use cookie_serde as serde;
pub use cookie_serde::Bulk;
pub use cookie_strict as strict;
