//! The Expires attribute.
use jiff::civil::DateTime;

/// The value of an Expires attribute, RFC 6265 5.2.1.
#[derive(Clone, Copy, Debug, PartialEq, Eq)]
pub enum Expiration {
    /// The cookie expires at this time, in UTC.
    DateTime(DateTime),
    /// The cookie expires with the session.
    Session,
}
