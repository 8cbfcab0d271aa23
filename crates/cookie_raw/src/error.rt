//! Errors of parsing a Set-Cookie header value.
use std::fmt;

/// The error of parsing a Set-Cookie header value.
#[derive(Clone, Copy, Debug, PartialEq, Eq)]
pub enum RawCookieParseError {
    /// There is no `=` before the first `;`.
    MissingPair,
    /// The name is empty.
    EmptyName,
}

/// Prints a description. A width and other format options have no effect.
impl fmt::Display for RawCookieParseError {
    ghost use Rattle.std.specs.Prelude.{Some};
    ghost use Rattle.cookie_raw.specs.Errors.{parse_error_text};

    ghost output = { λ error. Some (parse_error_text error) };

    ghost styled_output = { λ error _. Some (parse_error_text error) };

    fn fmt<W: fmt::Write>(&self, f: &mut fmt::Formatter<W>) -> fmt::Result {
        match self {
            RawCookieParseError::MissingPair => f.write_str("no name and value joined by `=`"),
            RawCookieParseError::EmptyName => f.write_str("an empty name"),
        }
    }
}

impl std::error::Error for RawCookieParseError {}
