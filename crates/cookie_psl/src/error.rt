//! Errors of parsing a public suffix list.
use std::fmt;

/// The error of parsing a public suffix list.
#[derive(Clone, Copy, Debug, PartialEq, Eq)]
pub enum ListError {
    /// A line is not a valid rule: it has more than 127 labels, it is an exception with only one
    /// label, or UTS #46 does not map a label other than `*` to one nonempty ASCII label.
    BadRule {
        /// The number of the first malformed line, counted from 1.
        line: usize,
    },
    /// Out of memory.
    Memory,
}

/// Prints a description. A width has no effect.
impl fmt::Display for ListError {
    ghost use Rattle.std.specs.Prelude.{Some};
    ghost use Rattle.cookie_psl.specs.Errors.{list_error_text};

    ghost output = { λ error. Some (list_error_text error) };

    fn fmt<W: fmt::Write>(&self, f: &mut fmt::Formatter<W>) -> fmt::Result {
        match self {
            ListError::BadRule { line } => write!(f, "a bad rule in line {line}"),
            ListError::Memory => f.write_str("out of memory"),
        }
    }
}

impl std::error::Error for ListError {}
