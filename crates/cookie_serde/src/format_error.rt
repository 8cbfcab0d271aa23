//! Why a store cannot be saved or loaded in a format.
use cookie_netscape::NetscapeError;
use cookie_parts::Error;
use std::fmt;

/// Why a store cannot be saved or loaded in a [`Format`](crate::Format).
#[derive(Debug, PartialEq, Eq, Drop)]
pub enum FormatError {
    /// An error of any format, `Io`, `NotUtf8` or `Memory`; or of a list in JSON or RON.
    Store(Error),
    /// A line of a `cookies.txt` file is neither a cookie nor a comment nor blank.
    BadLine {
        /// The number of the first malformed line, counted from 1.
        line: usize,
    },
    /// A `cookies.txt` file cannot represent a cookie.
    Unrepresentable,
}

/// Prints the message of the error. A width has no effect.
impl fmt::Display for FormatError {
    ghost use Rattle.std.specs.Prelude.{Some};
    ghost use Rattle.cookie_serde.specs.FormatErrors.{format_error_text};

    ghost output = { λ error. Some (format_error_text error) };

    fn fmt<W: fmt::Write>(&self, f: &mut fmt::Formatter<W>) -> fmt::Result {
        match self {
            FormatError::Store(error) => error.fmt(f),
            FormatError::BadLine { line } => NetscapeError::BadLine { line: *line }.fmt(f),
            FormatError::Unrepresentable => NetscapeError::Unrepresentable.fmt(f),
        }
    }
}

impl std::error::Error for FormatError {}

impl From<Error> for FormatError {
    ghost use Rattle.std.specs.Prelude.{◌≡◌};
    ghost use Rattle.cookie_serde.specs.declared.format_error.FormatError.TheVariants.{Store};

    ghost from_gives = { λ error e. e ≡ Store error };

    fn from(error: Error) -> FormatError {
        FormatError::Store(error)
    }
}

/// Converts `Io`, `NotUtf8` and `Memory` to the errors of [`Error`] with these names.
impl From<NetscapeError> for FormatError {
    ghost use Rattle.std.specs.Prelude.{◌≡◌};
    ghost use Rattle.cookie_serde.specs.FormatErrors.{format_error_of};

    ghost from_gives = { λ error e. e ≡ format_error_of error };

    fn from(error: NetscapeError) -> FormatError {
        match error {
            NetscapeError::BadLine { line } => FormatError::BadLine { line },
            NetscapeError::Unrepresentable => FormatError::Unrepresentable,
            NetscapeError::Io => FormatError::Store(Error::Io),
            NetscapeError::NotUtf8 => FormatError::Store(Error::NotUtf8),
            NetscapeError::Memory => FormatError::Store(Error::Memory),
        }
    }
}
