//! The error of saving, loading and building stores, and of parsing a domain.
use crate::CookieError;
use cookie_forms::SavedError;
use std::alloc::{AllocError, AllocFailed};
use std::fmt;

/// The error of `idna` for an invalid domain name.
#[derive(Clone, Copy, Debug, PartialEq, Eq)]
pub struct IdnaErrors {
    fault: idna::Errors,
}

impl From<idna::Errors> for IdnaErrors {
    ghost use Rattle.std.specs.Prelude.{◌≡◌};

    ghost from_gives = { λ fault e. e.fault ≡ fault };

    fn from(fault: idna::Errors) -> IdnaErrors {
        IdnaErrors { fault }
    }
}

impl fmt::Display for IdnaErrors {
    ghost use Rattle.std.specs.Prelude.{Some};
    ghost use Rattle.idna.specs.Errors.{errors_text};

    ghost output = { λ e. Some (errors_text e.fault) };

    fn fmt<W: fmt::Write>(&self, f: &mut fmt::Formatter<W>) -> fmt::Result {
        self.fault.fmt(f)
    }
}

impl std::error::Error for IdnaErrors {}

/// The error of saving, loading and building stores, and of parsing a domain.
#[derive(Debug, PartialEq, Eq, Drop)]
pub enum Error {
    /// A cookie was rejected.
    Cookie(CookieError),
    /// A domain is not a valid domain name.
    Idna(IdnaErrors),
    /// A reader or a writer failed.
    Io,
    /// A saved cookie could not be read or written.
    Saved(SavedError),
    /// An error of the caller's own function.
    Other(String),
    /// Out of memory.
    Memory,
    /// The input is not UTF-8.
    NotUtf8,
}

impl fmt::Display for Error {
    ghost use Rattle.std.specs.Prelude.{Some};
    ghost use Rattle.cookie_parts.specs.Errors.{store_error_text, styled_error_text};

    ghost output = { λ e. Some (store_error_text e) };

    ghost styled_output = { λ e _. styled_error_text e };

    fn fmt<W: fmt::Write>(&self, f: &mut fmt::Formatter<W>) -> fmt::Result {
        match self {
            Error::Cookie(error) => error.fmt(f),
            Error::Idna(fault) => fault.fmt(f),
            Error::Io => f.write_str("a read or a write failed"),
            Error::Saved(fault) => fault.fmt(f),
            Error::Other(text) => f.write_str(text.as_str()),
            Error::Memory => f.write_str("out of memory"),
            Error::NotUtf8 => f.write_str("the input is not UTF-8"),
        }
    }
}

impl std::error::Error for Error {}

/// Converts to `Memory` if out of memory, else to `Cookie`.
impl From<CookieError> for Error {
    ghost use Rattle.std.specs.Prelude.{◌≡◌};
    ghost use Rattle.cookie_parts.specs.Errors.{error_from_cookie};

    ghost from_gives = { λ error e. e ≡ error_from_cookie error };

    fn from(error: CookieError) -> Error {
        match error {
            CookieError::Memory => Error::Memory,
            error => Error::Cookie(error),
        }
    }
}

/// Converts to `Memory` if out of memory, else to `Idna`.
impl From<idna::Errors> for Error {
    ghost use Rattle.std.specs.Prelude.{◌≡◌};
    ghost use Rattle.cookie_parts.specs.Errors.{error_from_idna};

    ghost from_gives = { λ fault e. e ≡ error_from_idna fault };

    fn from(fault: idna::Errors) -> Error {
        match fault {
            idna::Errors::Invalid => Error::Idna(IdnaErrors::from(fault)),
            idna::Errors::OutOfMemory => Error::Memory,
        }
    }
}

/// Converts to `Memory` if out of memory, else to `Saved`.
impl From<SavedError> for Error {
    ghost use Rattle.std.specs.Prelude.{◌≡◌};
    ghost use Rattle.cookie_parts.specs.Errors.{error_from_saved};

    ghost from_gives = { λ fault e. e ≡ error_from_saved fault };

    fn from(fault: SavedError) -> Error {
        match fault {
            SavedError::Memory => Error::Memory,
            fault => Error::Saved(fault),
        }
    }
}

impl From<AllocError> for Error {
    ghost use Rattle.std.specs.Prelude.{◌≡◌};
    ghost use Rattle.cookie_parts.specs.declared.error.Error.TheVariants as ErrorCase;

    ghost from_gives = { λ _ e. e ≡ ErrorCase.Memory };

    fn from(_error: AllocError) -> Error {
        Error::Memory
    }
}

impl<T: Drop> From<AllocFailed<T>> for Error {
    ghost use Rattle.std.specs.Prelude.{◌≡◌};
    ghost use Rattle.cookie_parts.specs.declared.error.Error.TheVariants as ErrorCase;

    ghost from_gives = { λ _ e. e ≡ ErrorCase.Memory };

    fn from(_error: AllocFailed<T>) -> Error {
        Error::Memory
    }
}

/// The result of saving, loading or building a store, or of parsing a domain.
pub type StoreResult<T> = Result<T, Error>;
