//! The status codes of the C functions.
ghost use Rattle.std.specs.Prelude.{◌≡◌, Ok, IfErr, IfOk};
ghost use Rattle.cookie_laws.specs.Runs.{Stored};
ghost use Rattle.cookie_store_c.specs.Statuses.{error_status, cookie_error_status, format_error_status, reply_status, status_code, strict_error_status};

use cookie_store::saved::SavedError;
use cookie_store::serde::FormatError;
use cookie_store::strict::{StrictError, StrictResult};
use cookie_store::{CookieError, Error, InsertResult, StoreAction};

/// The status that a C function returns. `cookie_store.h` documents each.
#[derive(Clone, Copy, Debug, PartialEq, Eq)]
pub enum Status {
    Done,
    Inserted,
    Updated,
    ExpiredExisting,
    NonHttpScheme,
    NonRelativeScheme,
    DomainMismatch,
    Expired,
    Parse,
    PublicSuffix,
    UnspecifiedDomain,
    NoMemory,
    BadUrl,
    NotUtf8,
    BadTime,
    NoStore,
    HasStore,
    NoRoom,
    NotFound,
    BadLimit,
    BadOption,
    BadRule,
    BadJson,
    BadShape,
    BadRon,
    BadExpiry,
    BadLine,
    Unrepresentable,
    NoRules,
    NoList,
    ControlCharacter,
    TooLong,
    InsecureUrl,
    InsecureSameSiteNone,
    Prefix,
    SecureStored,
    SecureLimit,
    CrossSiteResponse,
}

impl Status {
    /// Returns its number in `cookie_store.h`.
    pub fn code(self) -> u32
        ensures { result ≡ status_code self }
    {
        match self {
            Status::Done => 0,
            Status::Inserted => 1,
            Status::Updated => 2,
            Status::ExpiredExisting => 3,
            Status::NonHttpScheme => 10,
            Status::NonRelativeScheme => 11,
            Status::DomainMismatch => 12,
            Status::Expired => 13,
            Status::Parse => 14,
            Status::PublicSuffix => 15,
            Status::UnspecifiedDomain => 16,
            Status::NoMemory => 20,
            Status::BadUrl => 21,
            Status::NotUtf8 => 22,
            Status::BadTime => 23,
            Status::NoStore => 24,
            Status::HasStore => 25,
            Status::NoRoom => 26,
            Status::NotFound => 27,
            Status::BadLimit => 28,
            Status::BadOption => 29,
            Status::BadRule => 30,
            Status::BadJson => 31,
            Status::BadShape => 32,
            Status::BadRon => 33,
            Status::BadExpiry => 34,
            Status::BadLine => 35,
            Status::Unrepresentable => 36,
            Status::NoRules => 37,
            Status::NoList => 38,
            Status::ControlCharacter => 40,
            Status::TooLong => 41,
            Status::InsecureUrl => 42,
            Status::InsecureSameSiteNone => 43,
            Status::Prefix => 44,
            Status::SecureStored => 45,
            Status::SecureLimit => 46,
            Status::CrossSiteResponse => 47,
        }
    }

    /// Returns the status of an insertion.
    pub(crate) fn of_reply(reported: InsertResult) -> Status
        ensures { result ≡ reply_status (Stored reported) }
    {
        match reported {
            Ok(StoreAction::Inserted) => Status::Inserted,
            Ok(StoreAction::UpdatedExisting) => Status::Updated,
            Ok(StoreAction::ExpiredExisting) => Status::ExpiredExisting,
            Err(rejection) => Status::of_cookie_error(rejection),
        }
    }

    /// Returns the status of an insertion under the rules of browsers.
    pub(crate) fn of_strict(reported: StrictResult) -> Status
        ensures inserted { IfOk reported (λ action. result ≡ reply_status (Stored (Ok action))) }
        ensures rejected { IfErr reported (λ error. result ≡ strict_error_status error) }
    {
        match reported {
            Ok(action) => Status::of_reply(Ok(action)),
            Err(StrictError::Cookie(rejection)) => Status::of_cookie_error(rejection),
            Err(StrictError::ControlCharacter) => Status::ControlCharacter,
            Err(StrictError::TooLong) => Status::TooLong,
            Err(StrictError::CrossSite) => Status::CrossSiteResponse,
            Err(StrictError::InsecureUrl) => Status::InsecureUrl,
            Err(StrictError::InsecureSameSiteNone) => Status::InsecureSameSiteNone,
            Err(StrictError::Prefix) => Status::Prefix,
            Err(StrictError::SecureStored) => Status::SecureStored,
            Err(StrictError::SecureLimit) => Status::SecureLimit,
        }
    }

    // Returns the status of an insertion error.
    fn of_cookie_error(rejection: CookieError) -> Status
        ensures { result ≡ cookie_error_status rejection }
    {
        match rejection {
            CookieError::NonHttpScheme => Status::NonHttpScheme,
            CookieError::NonRelativeScheme => Status::NonRelativeScheme,
            CookieError::DomainMismatch => Status::DomainMismatch,
            CookieError::Expired => Status::Expired,
            CookieError::Parse => Status::Parse,
            CookieError::PublicSuffix => Status::PublicSuffix,
            CookieError::UnspecifiedDomain => Status::UnspecifiedDomain,
            CookieError::Memory => Status::NoMemory,
        }
    }

    /// Returns the status of a failed save or load.
    pub(crate) fn of_format_error(error: FormatError) -> Status
        ensures { result ≡ format_error_status error }
    {
        match error {
            FormatError::Store(error) => Status::of_error(error),
            FormatError::BadLine { .. } => Status::BadLine,
            FormatError::Unrepresentable => Status::Unrepresentable,
        }
    }

    // Returns the status of the error of a store. No list fails with `Io`, `Idna` or `Other`.
    fn of_error(fault: Error) -> Status
        ensures { result ≡ error_status fault }
    {
        match fault {
            Error::Cookie(rejection) => Status::of_cookie_error(rejection),
            Error::Saved(SavedError::Json) => Status::BadJson,
            Error::Saved(SavedError::Shape) => Status::BadShape,
            Error::Saved(SavedError::Ron) => Status::BadRon,
            Error::Saved(SavedError::Moment) => Status::BadExpiry,
            Error::NotUtf8 => Status::NotUtf8,
            Error::Saved(SavedError::Memory)
            | Error::Memory
            | Error::Io
            | Error::Idna(_)
            | Error::Other(_) => Status::NoMemory,
        }
    }
}
