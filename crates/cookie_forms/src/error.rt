//! Why a saved cookie or list cannot be read or written.

use std::alloc::{AllocError, AllocFailed};
use std::fmt;

/// Why a saved cookie or list cannot be read or written.
#[derive(Clone, Copy, Debug, PartialEq, Eq)]
pub enum SavedError {
    /// The input is not JSON.
    Json,
    /// A JSON value does not have the shape of a saved cookie or list, or contains a float.
    Shape,
    /// The input is not a list of saved cookies in RON.
    Ron,
    /// A string is not a valid time, or a time is before the year 0.
    Moment,
    /// Out of memory.
    Memory,
}

/// Prints the error message; a width or other format options have no effect.
impl fmt::Display for SavedError {
    ghost use Rattle.std.specs.Prelude.{Some};
    ghost use Rattle.cookie_forms.specs.Errors.{saved_error_text};

    ghost output = { λ e. Some (saved_error_text e) };

    ghost styled_output = { λ e _. Some (saved_error_text e) };

    fn fmt<W: fmt::Write>(&self, f: &mut fmt::Formatter<W>) -> fmt::Result {
        f.write_str(match self {
            SavedError::Json => "the input is not JSON",
            SavedError::Shape => "a value is not a saved cookie",
            SavedError::Ron => "the input is not a list in RON",
            SavedError::Moment => "an expiry is not a valid time, or is before the year 0",
            SavedError::Memory => "out of memory",
        })
    }
}

impl std::error::Error for SavedError {}

impl From<AllocError> for SavedError {
    ghost use Rattle.std.specs.Prelude.{◌≡◌};
    ghost use Rattle.cookie_forms.specs.declared.error.SavedError.TheVariants.{Memory};

    ghost from_gives = { λ _ e. e ≡ Memory };

    fn from(_error: AllocError) -> SavedError {
        SavedError::Memory
    }
}

impl<T: Drop> From<AllocFailed<T>> for SavedError {
    ghost use Rattle.std.specs.Prelude.{◌≡◌};
    ghost use Rattle.cookie_forms.specs.declared.error.SavedError.TheVariants.{Memory};

    ghost from_gives = { λ _ e. e ≡ Memory };

    fn from(_error: AllocFailed<T>) -> SavedError {
        SavedError::Memory
    }
}
