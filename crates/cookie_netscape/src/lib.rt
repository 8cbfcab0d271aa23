//! The format of `cookies.txt`, Netscape's cookie file, as curl reads and writes it.
//!
//! Each line is a cookie, of seven fields separated by HTAB: the domain, whether its subdomains
//! receive the cookie, the path, whether the cookie is Secure, the second of its expiry, the name
//! and the value. The line of an HttpOnly cookie begins with `#HttpOnly_`.
//!
//! In this file of a domain cookie and an HttpOnly host-only cookie, `|` stands for HTAB:
//!
//! ```text
//! # Netscape HTTP Cookie File
//! .example.com|TRUE|/|FALSE|4121282317|cookie1|value1
//! #HttpOnly_example.com|FALSE|/foo|TRUE|0|session|abc
//! ```
#![tactic(auto)]

mod entry;
mod error;
mod fields;
mod header;
mod host;
pub mod laws;
mod reading;
mod writing;

pub use error::NetscapeError;
pub use host::read_domain;
pub use reading::{from_text, has_empty_expiry, read_cookie};
pub use writing::{SessionExpiry, is_representable, new_text, push_cookie, push_line};
