//! Cookies and their parts, after RFC 6265 5.1.3, 5.1.4, 5.3 and 5.4: domain, path and expiry, the
//! cookie that a `Set-Cookie` header value from a URL sets, and the conversion between a cookie and
//! its saved form.
#![tactic(auto)]

mod cookie;
pub mod cookie_domain;
mod cookie_error;
mod cookie_expiration;
pub mod cookie_path;
mod error;
mod exclusion;
pub mod laws;
mod saved_conversion;
mod store_action;
pub mod utils;

pub use cookie::{Cookie, CookieResult};
pub use cookie_domain::CookieDomain;
pub use cookie_error::CookieError;
pub use cookie_expiration::CookieExpiration;
pub use cookie_path::CookiePath;
pub use error::{Error, IdnaErrors, StoreResult};
pub use exclusion::Exclusion;
pub use store_action::StoreAction;
