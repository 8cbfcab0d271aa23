//! Parsing and printing Set-Cookie header values and cookie-dates, RFC 6265. Parsing does not copy.
#![tactic(auto)]

mod attributes;
mod builder;
mod date;
mod equality;
mod error;
mod expiration;
pub mod laws;
mod max_age;
mod plain;
mod printing;
mod raw_cookie;
mod same_site;
mod syntax;

pub use builder::RawCookieBuilder;
pub use date::read_date;
pub use error::RawCookieParseError;
pub use expiration::Expiration;
pub use raw_cookie::RawCookie;
pub use same_site::SameSite;
pub use syntax::Syntax;
