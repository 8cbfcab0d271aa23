//! What is checked of a Set-Cookie header value.
ghost use Rattle.std.specs.Prelude.{◌≡◌, IfErr, IfOk, None, Ok, OnOk, Some};
ghost use Rattle.std.specs.List.{list_all};
ghost use Rattle.cookie_raw.specs.Rfc6265bis.{reading_by};
ghost use Rattle.cookie_raw.specs.declared.syntax.Syntax.TheVariants.{Rfc6265bis};
ghost use Rattle.cookie_strict.specs.HeaderValue.{has_control, has_visible_domain, header_error, is_control, is_too_long, is_visible, pair_error};

use crate::StrictError;
use cookie_parts::CookieError;
use cookie_raw::{RawCookie, Syntax};

// The longest name and value together, in bytes.
const LONGEST_PAIR: usize = 4_096;

// Whether the string has a control character other than HTAB.
fn has_control(text: &str) -> bool
    ensures { result ≡ has_control text.now }
{
    // the loop has no early exit, so that it is compiled to vector instructions
    let mut found = false;
    for byte in text.as_bytes() {
        found |= is_control(*byte);
    }
    found
}

// Whether the byte is a control character other than HTAB.
fn is_control(byte: u8) -> bool
    ensures { result ≡ is_control byte }
{
    byte < 32 && byte != b'\t' || byte == 127
}

/// Parses the header value by the draft.
///
/// # Errors
///
/// In the order in which they are checked: `ControlCharacter`, `Cookie(Parse)`, `TooLong`,
/// `Cookie(DomainMismatch)`.
pub(crate) fn checked_raw(text: &str) -> Result<RawCookie<'_>, StrictError>
    ensures raw { IfOk result (λ raw. reading_by Rfc6265bis text.now ≡ Ok raw) }
    ensures pair { IfOk result (λ raw. pair_error raw ≡ None) }
    ensures passed { OnOk result (header_error text.now ≡ None) }
    ensures error { IfErr result (λ error. header_error text.now ≡ Some error) }
{
    if has_control(text) {
        return Err(StrictError::ControlCharacter);
    }
    let Ok(raw) = RawCookie::parse_as(text, Syntax::Rfc6265bis) else {
        return Err(StrictError::Cookie(CookieError::Parse));
    };
    // name and value are slices of the header value, and so have no control character
    if is_too_long(&raw) {
        return Err(StrictError::TooLong);
    }
    if !has_visible_domain(&raw) {
        return Err(StrictError::Cookie(CookieError::DomainMismatch));
    }
    Ok(raw)
}

/// Returns the error of the name and the value: a control character, or both together are too long.
pub(crate) fn pair_error(raw: &RawCookie<'_>) -> Option<StrictError>
    ensures { result ≡ pair_error raw.now }
{
    if has_control(raw.name()) || has_control(raw.value()) {
        Some(StrictError::ControlCharacter)
    } else if is_too_long(raw) {
        Some(StrictError::TooLong)
    } else {
        None
    }
}

// Whether the name and the value together are longer than 4,096 bytes.
fn is_too_long(raw: &RawCookie<'_>) -> bool
    ensures { result ≡ is_too_long raw.now }
{
    raw.name().len().saturating_add(raw.value().len()) > LONGEST_PAIR
}

// Whether the Domain attribute, if there is one, is of visible ASCII characters.
fn has_visible_domain(raw: &RawCookie<'_>) -> bool
    ensures { result ≡ has_visible_domain raw.now }
{
    match raw.domain() {
        Some(domain) => is_visible_text(domain),
        None => true,
    }
}

// Whether the string is of visible ASCII characters.
fn is_visible_text(text: &str) -> bool
    ensures { result ≡ list_all is_visible text.now }
{
    text.as_bytes().iter().all(|byte| is_visible(*byte))
}

// Whether the byte is a visible ASCII character.
fn is_visible(byte: u8) -> bool
    ensures { result ≡ is_visible byte }
{
    32 < byte && byte < 127
}
