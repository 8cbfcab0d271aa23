//! Why a `cookies.txt` file cannot be read or written.
use std::alloc::{AllocError, AllocFailed};
use std::fmt;

/// Why a `cookies.txt` file cannot be read or written.
#[derive(Clone, Copy, Debug, PartialEq, Eq)]
pub enum NetscapeError {
    /// A line is neither a cookie nor a comment nor blank.
    BadLine {
        /// The number of the first malformed line, counted from 1.
        line: usize,
    },
    /// The format cannot represent a cookie.
    Unrepresentable,
    /// A read or a write failed.
    Io,
    /// The file is not UTF-8.
    NotUtf8,
    /// Out of memory.
    Memory,
}

/// Prints a description. A width has no effect.
impl fmt::Display for NetscapeError {
    ghost use Rattle.std.specs.Prelude.{Some};
    ghost use Rattle.cookie_netscape.specs.Errors.{netscape_error_text};

    ghost output = { λ error. Some (netscape_error_text error) };

    fn fmt<W: fmt::Write>(&self, f: &mut fmt::Formatter<W>) -> fmt::Result {
        match self {
            NetscapeError::BadLine { line } => write!(f, "line {line} is not a cookie"),
            NetscapeError::Unrepresentable => f.write_str("cookies.txt cannot represent a cookie"),
            NetscapeError::Io => f.write_str("a read or a write failed"),
            NetscapeError::NotUtf8 => f.write_str("the file is not UTF-8"),
            NetscapeError::Memory => f.write_str("out of memory"),
        }
    }
}

impl std::error::Error for NetscapeError {}

impl From<AllocError> for NetscapeError {
    ghost use Rattle.std.specs.Prelude.{◌≡◌};
    ghost use Rattle.cookie_netscape.specs.declared.error.NetscapeError.TheVariants.{Memory};

    ghost from_gives = { λ _ e. e ≡ Memory };

    fn from(_error: AllocError) -> NetscapeError {
        NetscapeError::Memory
    }
}

impl<T: Drop> From<AllocFailed<T>> for NetscapeError {
    ghost use Rattle.std.specs.Prelude.{◌≡◌};
    ghost use Rattle.cookie_netscape.specs.declared.error.NetscapeError.TheVariants.{Memory};

    ghost from_gives = { λ _ e. e ≡ Memory };

    fn from(_error: AllocFailed<T>) -> NetscapeError {
        NetscapeError::Memory
    }
}
