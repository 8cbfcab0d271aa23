//! URLs from which all URL parsers read the same host.
ghost use Rattle.std.specs.Prelude.{◌≡◌, ◌==◌, IfOk};
ghost use Rattle.std.specs.Char.{is_ascii_digit, is_ascii_hexdigit};
ghost use Rattle.std.specs.List.{after_last, before_first, list_all, list_any};
ghost use Rattle.cookie_inputs.specs.Urls.{after_scheme, authority_in, ends_in_number_and_dot, has_host_scheme, has_plain_host, host_end, host_in, is_control_or_space, is_converted, is_decimal_if_number, is_digit_or_dot, is_number, is_plain_authority, is_plain_file, is_plain_host, is_unambiguous, names_host, scheme_of, unambiguous_url};

use cookie_parts::utils::parse_url;
use std::alloc::{AllocError, Global};
use url::Url;

/// Parses a URL. Returns `None` if `text` is not a valid URL, or is ambiguous
/// ([`is_unambiguous`]).
///
/// # Errors
///
/// `AllocError`: out of memory, or the URL is longer than the parser can count.
#[tactic(auto, unfolding(crate::specs::Urls::unambiguous_url))]
pub fn parse_unambiguous(alloc: Global, text: &str) -> Result<Option<Url>, AllocError>
    ensures { IfOk result (λ url. url ≡ unambiguous_url text.now) }
{
    if is_unambiguous(text) {
        parse_url(alloc, text)
    } else {
        Ok(None)
    }
}

/// Returns whether URL parsers agree on the host of `url`: that of the WHATWG standard, by which
/// the store reads URLs, and others, such as those of curl, Go and Python.
///
/// A URL is ambiguous if it has a control character or a space. If its scheme is `http`, `https`,
/// `ws`, `wss` or `ftp`, it is also ambiguous if
/// - its scheme is not followed by `//` and a nonempty authority,
/// - its authority has a backslash,
/// - its host has a `%` or a character that is not ASCII: pass a domain name in Punycode, or
/// - its host ends in a number and a dot, as `127.1.` does, or in a number without being decimal
///   numbers alone, as `0x7f.1` is.
///
/// A `file` URL may lack an authority, and may have no backslash.
#[tactic(auto, unfolding(crate::specs::Urls::is_unambiguous))]
pub fn is_unambiguous(url: &str) -> bool
    ensures { result ≡ is_unambiguous url.now }
{
    let (scheme, rest) = split_scheme(url);
    !has_control_or_space(url.as_bytes()) && has_plain_host(scheme, rest.as_bytes())
}

// Splits a URL at its first `:`.
fn split_scheme(url: &str) -> (&str, &str)
    ensures scheme { result.0.now ≡ scheme_of url.now }
    ensures rest { result.1.now ≡ after_scheme url.now }
{
    match url.split_once(':') {
        Some((scheme, rest)) => (scheme, rest),
        None => (url, ""),
    }
}

// Whether there is a control character of ASCII or a space.
fn has_control_or_space(url: &[u8]) -> bool
    ensures { result ≡ list_any is_control_or_space url.now }
{
    url.iter().any(|byte| *byte <= b' ' || *byte == 127)
}

// Whether all parsers read the same host from what follows the scheme.
fn has_plain_host(scheme: &str, rest: &[u8]) -> bool
    ensures { result ≡ has_plain_host scheme.now rest.now }
{
    if has_host_scheme(scheme) {
        names_host(rest)
    } else if scheme.eq_ignore_ascii_case("file") {
        is_plain_file(rest)
    } else {
        true
    }
}

// Whether each URL with the scheme has a host.
fn has_host_scheme(scheme: &str) -> bool
    ensures { result ≡ has_host_scheme scheme.now }
{
    scheme.eq_ignore_ascii_case("http")
        || scheme.eq_ignore_ascii_case("https")
        || scheme.eq_ignore_ascii_case("ws")
        || scheme.eq_ignore_ascii_case("wss")
        || scheme.eq_ignore_ascii_case("ftp")
}

// Whether what follows the scheme is `//`, an authority from which all parsers read the same host,
// and more.
fn names_host(rest: &[u8]) -> bool
    ensures { result ≡ names_host rest.now }
{
    match rest.strip_prefix(b"//") {
        Some(rest) => {
            let authority = authority_in(rest);
            !authority.is_empty() && is_plain_authority(authority)
        }
        None => false,
    }
}

// The same for the scheme `file`, whose URLs need no authority.
fn is_plain_file(rest: &[u8]) -> bool
    ensures { result ≡ is_plain_file rest.now }
{
    if rest.contains(&b'\\') {
        return false;
    }
    match rest.strip_prefix(b"//") {
        Some(rest) => is_plain_authority(authority_in(rest)),
        None => true,
    }
}

// The authority: what precedes the first `/`, `?` or `#`.
fn authority_in(rest: &[u8]) -> &[u8]
    ensures { result.now ≡ authority_in rest.now }
{
    match rest
        .iter()
        .position(|byte| matches!(*byte, b'/' | b'?' | b'#'))
    {
        Some(end) => &rest[..end],
        None => rest,
    }
}

// Whether all parsers read the same host from the authority.
fn is_plain_authority(authority: &[u8]) -> bool
    ensures { result ≡ is_plain_authority authority.now }
{
    !authority.contains(&b'\\') && is_plain_host(host_in(authority))
}

// Whether all parsers read the same host.
fn is_plain_host(host: &[u8]) -> bool
    ensures { result ≡ is_plain_host host.now }
{
    !has_converted(host)
        && (host.starts_with(b"[") || !ends_in_number_and_dot(host) && is_decimal_if_number(host))
}

// Whether the host has a `%` or a character that is not ASCII.
fn has_converted(host: &[u8]) -> bool
    ensures { result ≡ list_any is_converted host.now }
{
    host.iter().any(|byte| *byte == b'%' || *byte >= 128)
}

// Whether all labels of the host are in decimal, if the last one is a number.
fn is_decimal_if_number(host: &[u8]) -> bool
    ensures { result ≡ is_decimal_if_number host.now }
{
    !is_number(after_last(host, b'.')) || are_digits_and_dots(host)
}

fn are_digits_and_dots(host: &[u8]) -> bool
    ensures { result ≡ list_all is_digit_or_dot host.now }
{
    host.iter()
        .all(|byte| byte.is_ascii_digit() || *byte == b'.')
}

// The host: what follows the last `@`, before the port.
fn host_in(authority: &[u8]) -> &[u8]
    ensures { result.now ≡ host_in authority.now }
{
    let place = after_last(authority, b'@');
    before_first(place, host_end(place))
}

// The byte that ends the host. A `:` within brackets is part of it.
fn host_end(place: &[u8]) -> u8
    ensures { result ≡ host_end place.now }
{
    if place.starts_with(b"[") { b']' } else { b':' }
}

// Whether the last label of the host is a number, and a dot follows it.
fn ends_in_number_and_dot(host: &[u8]) -> bool
    ensures { result ≡ ends_in_number_and_dot host.now }
{
    match host.strip_suffix(b".") {
        Some(labels) => is_number(after_last(labels, b'.')),
        None => false,
    }
}

// Whether the label is decimal digits, or `0x` and hexadecimal digits, possibly none.
fn is_number(label: &[u8]) -> bool
    ensures { result ≡ is_number label.now }
{
    if let Some(digits) = label.strip_prefix(b"0x") {
        return are_hex_digits(digits);
    }
    if let Some(digits) = label.strip_prefix(b"0X") {
        return are_hex_digits(digits);
    }
    !label.is_empty() && are_digits(label)
}

fn are_hex_digits(digits: &[u8]) -> bool
    ensures { result ≡ list_all is_ascii_hexdigit digits.now }
{
    digits.iter().all(|byte| byte.is_ascii_hexdigit())
}

fn are_digits(digits: &[u8]) -> bool
    ensures { result ≡ list_all is_ascii_digit digits.now }
{
    digits.iter().all(|byte| byte.is_ascii_digit())
}

// What precedes the first `byte`, or all if there is none.
fn before_first(text: &[u8], byte: u8) -> &[u8]
    ensures { result.now ≡ before_first (λ b. b == byte) text.now }
{
    match text.iter().position(|b| *b == byte) {
        Some(end) => &text[..end],
        None => text,
    }
}

// What follows the last `byte`, or all if there is none.
fn after_last(text: &[u8], byte: u8) -> &[u8]
    ensures { result.now ≡ after_last (λ b. b == byte) text.now }
{
    match text.iter().rposition(|b| *b == byte) {
        Some(at) => &text[at + 1..],
        None => text,
    }
}
