//! Errors: what they print, and their conversions.
use crate::checks::{is_equal, is_printed, is_text};
use crate::parts::owned;
use cookie_parts::{CookieError, Error, Exclusion};
use cookie_psl::ListError;
use cookie_raw::RawCookieParseError;
use cookie_saved::SavedError;
use std::alloc::{AllocError, AllocFailed, Global};
use std::process::Abort;

// A reason, or an error: one of a header value, of a list, or `Error` as it is converted from another
// one or has a string.
#[derive(Clone, Copy)]
enum Message {
    Exclusion(Exclusion),
    Raw(RawCookieParseError),
    List(ListError),
    Cookie(CookieError),
    Saved(SavedError),
    Idna(idna::Errors),
    Other(&'static str),
    Alloc,
    Full,
    Io,
    NotUtf8,
}

static MESSAGES: [(Message, &str); 30] = [
    (
        Message::Exclusion(Exclusion::Domain),
        "domain does not match",
    ),
    (Message::Exclusion(Exclusion::Path), "path does not match"),
    (
        Message::Exclusion(Exclusion::Secure),
        "Secure cookie, but the URL is not secure",
    ),
    (
        Message::Exclusion(Exclusion::HttpOnly),
        "HttpOnly cookie, but the URL is not an HTTP one",
    ),
    (Message::Exclusion(Exclusion::Expired), "expired"),
    (
        Message::Raw(RawCookieParseError::MissingPair),
        "no name and value joined by `=`",
    ),
    (
        Message::Raw(RawCookieParseError::EmptyName),
        "an empty name",
    ),
    (
        Message::List(ListError::BadRule { line: 7 }),
        "a bad rule in line 7",
    ),
    (Message::List(ListError::Memory), "out of memory"),
    (
        Message::Cookie(CookieError::NonHttpScheme),
        "request-uri is not an http scheme but HttpOnly attribute set",
    ),
    (
        Message::Cookie(CookieError::NonRelativeScheme),
        "request-uri is not a relative scheme; cannot determine host",
    ),
    (
        Message::Cookie(CookieError::DomainMismatch),
        "request-uri does not domain-match the cookie",
    ),
    (
        Message::Cookie(CookieError::Expired),
        "attempted to utilize an Expired Cookie",
    ),
    (
        Message::Cookie(CookieError::Parse),
        "unable to parse string as cookie::Cookie",
    ),
    (
        Message::Cookie(CookieError::PublicSuffix),
        "domain-attribute value is a public suffix",
    ),
    (
        Message::Cookie(CookieError::UnspecifiedDomain),
        "domain-attribute is not specified",
    ),
    (Message::Cookie(CookieError::Memory), "out of memory"),
    (Message::Saved(SavedError::Json), "the input is not JSON"),
    (
        Message::Saved(SavedError::Shape),
        "a value is not a saved cookie",
    ),
    (
        Message::Saved(SavedError::Ron),
        "the input is not a list in RON",
    ),
    (
        Message::Saved(SavedError::Moment),
        "an expiry is not a valid time, or is before the year 0",
    ),
    (Message::Saved(SavedError::Memory), "out of memory"),
    (Message::Idna(idna::Errors::Invalid), "invalid domain name"),
    (Message::Idna(idna::Errors::OutOfMemory), "out of memory"),
    (Message::Other("no such row"), "no such row"),
    (Message::Other(""), ""),
    (Message::Alloc, "out of memory"),
    (Message::Full, "out of memory"),
    (Message::Io, "a read or a write failed"),
    (Message::NotUtf8, "the input is not UTF-8"),
];

// The message as an `Error`.
fn error_of(rt: &impl Abort, alloc: Global, message: Message) -> Error {
    match message {
        Message::Saved(error) => Error::from(error),
        Message::Idna(error) => Error::from(error),
        Message::Other(text) => Error::Other(owned(rt, alloc, text)),
        Message::Full => Error::from(AllocFailed { value: 5_u8 }),
        Message::Io => Error::Io,
        Message::NotUtf8 => Error::NotUtf8,
        _ => Error::from(AllocError),
    }
}

fn is_reported(rt: &impl Abort, alloc: Global, message: Message, wanted: &str) {
    match message {
        Message::Exclusion(reason) => {
            is_text(rt, reason.text(), wanted, &reason);
            is_printed(rt, alloc, &reason, wanted);
        }
        Message::Raw(error) => {
            is_equal(rt, &CookieError::from(error), &CookieError::Parse, &error);
            is_printed(rt, alloc, &error, wanted);
        }
        Message::List(error) => is_printed(rt, alloc, &error, wanted),
        Message::Cookie(error) => {
            is_text(rt, error.text(), wanted, &error);
            is_printed(rt, alloc, &Error::from(error), wanted);
        }
        _ => is_printed(rt, alloc, &error_of(rt, alloc, message), wanted),
    }
}

#[test]
fn errors_are_converted_and_printed(rt: HostRuntime) {
    for (message, wanted) in &MESSAGES {
        is_reported(&rt, rt.alloc(), *message, wanted);
    }
}
