//! Writes cookies as lines.
ghost use Rattle.std.specs.Prelude.{◌≡◌, ◌∷◌, ◌++◌, IfOk, OnOk, string_bytes};
ghost use Rattle.cookie_words.specs.Moments.{moment_of};
ghost use Rattle.cookie_raw.specs.CookieText.{flag};
ghost use Rattle.cookie_parts.specs.Expiry.{AtUtc};
ghost use Rattle.cookie_parts.specs.Views.{domain_value, expiry_value};
ghost use Rattle.cookie_netscape.specs.Written.{domain_field, expiry_field, expiry_second, flag_text, has_subdomains, header_line, is_from_epoch, is_representable, line_in, line_of, second_of};

use crate::fields::are_fields;
use crate::host::{is_representable_host, written_host};
use cookie_parts::{Cookie, CookieDomain, CookieExpiration};
use cookie_words::{epoch, epoch_second};
use itoa::Buffer;
use jiff::civil::DateTime;
use std::alloc::{AllocError, Global};

/// Returns whether the format can represent the cookie.
///
/// Its domain, path, name and value must be as [`from_text`](crate::from_text) reads them, and it
/// must not expire before 1970-01-01T00:00:00.
pub fn is_representable(cookie: &Cookie<'_>) -> bool
    ensures { result ≡ is_representable cookie.now }
{
    let domain = cookie.domain.as_str();
    are_fields(
        written_host(domain),
        cookie.path.as_str(),
        cookie.name(),
        cookie.value(),
    ) && is_representable_host(domain)
        && is_from_epoch(cookie.expires)
}

// Whether the expiry is not before the epoch.
fn is_from_epoch(expires: CookieExpiration) -> bool
    ensures { result ≡ is_from_epoch (expiry_value expires) }
{
    match expires {
        CookieExpiration::AtUtc(end) => epoch() <= end,
        CookieExpiration::SessionEnd => true,
    }
}

/// Returns the first line of a file, `# Netscape HTTP Cookie File`, without its line end.
pub fn new_text(alloc: Global) -> Result<String, AllocError>
    ensures { IfOk result (λ text. string_bytes text ≡ header_line) }
{
    String::from_str(alloc, "# Netscape HTTP Cookie File")
}

/// What a line has for the expiry of a session cookie.
#[derive(Clone, Copy, Debug, PartialEq, Eq)]
pub enum SessionExpiry {
    /// 0, as curl and wget write it.
    Zero,
    /// Nothing, as Python writes it.
    Empty,
}

/// Appends a line end and the line of the cookie, as [`push_line`] writes it with [`SessionExpiry::Zero`].
/// Fails only if out of memory; `text` then has a part of the line.
pub fn push_cookie(text: &mut String, cookie: &Cookie<'_>) -> Result<(), AllocError>
    ensures { OnOk result (string_bytes text.new ≡ string_bytes text.old ++ 10 ∷ line_of cookie.now) }
{
    text.push('\n')?;
    push_line(text, cookie, SessionExpiry::Zero)
}

/// Appends the line of the cookie, without a line end. Fails only if out of memory; `text` then has a part
/// of the line.
///
/// If [`is_representable`] returns true for the cookie, the line reads back as
/// [`line_reads_back`](crate::laws::line_reads_back) states: with the name, the value, Secure,
/// HttpOnly, the domain in lower case, the path, and the expiry in whole seconds. Otherwise the line
/// may be malformed, or more than one line. An expiry in the first second of 1970 or before is
/// written as 1, since 0 stands for a session cookie.
#[tactic(auto, unfolding(crate::specs::Written::line_in))]
pub fn push_line(
    text: &mut String,
    cookie: &Cookie<'_>,
    session: SessionExpiry,
) -> Result<(), AllocError>
    ensures { OnOk result (string_bytes text.new ≡ string_bytes text.old ++ line_in session cookie.now) }
{
    push_if(text, "#HttpOnly_", cookie.is_http_only())?;
    push_domain(text, &cookie.domain)?;
    push_field(text, cookie.path.as_str())?;
    push_field(text, flag_text(cookie.is_secure()))?;
    push_expiry(text, cookie.expires, session)?;
    push_field(text, cookie.name())?;
    push_field(text, cookie.value())
}

// Appends HTAB and the expiry.
#[inline(always)]
fn push_expiry(
    text: &mut String,
    expires: CookieExpiration,
    session: SessionExpiry,
) -> Result<(), AllocError>
    ensures { OnOk result (string_bytes text.new ≡ string_bytes text.old ++ 9 ∷ expiry_field session (expiry_value expires)) }
{
    match (expires, session) {
        (CookieExpiration::SessionEnd, SessionExpiry::Empty) => push_field(text, ""),
        (CookieExpiration::SessionEnd, SessionExpiry::Zero) => push_field(text, "0"),
        (CookieExpiration::AtUtc(end), _) => push_field(
            text,
            Buffer::new().format(expiry_second(end)),
        ),
    }
}

// Appends the domain, and whether its subdomains receive the cookie.
#[inline(always)]
fn push_domain(text: &mut String, domain: &CookieDomain) -> Result<(), AllocError>
    ensures { OnOk result (string_bytes text.new ≡ string_bytes text.old
        ++ domain_field (domain_value domain.now) ++ 9 ∷ flag_text (has_subdomains (domain_value domain.now))) }
{
    let has_subdomains = has_subdomains(domain);
    push_if(text, ".", has_subdomains)?;
    text.push_str(written_host(domain.as_str()))?;
    push_field(text, flag_text(has_subdomains))
}

fn has_subdomains(domain: &CookieDomain) -> bool
    ensures { result ≡ has_subdomains (domain_value domain.now) }
{
    matches!(domain, CookieDomain::Suffix(_))
}

// Appends a string if a condition holds.
#[inline(always)]
fn push_if(text: &mut String, part: &str, condition: bool) -> Result<(), AllocError>
    ensures { OnOk result (string_bytes text.new ≡ string_bytes text.old ++ flag part.now condition) }
{
    if condition {
        text.push_str(part)?;
    }
    Ok(())
}

// Appends HTAB and a field.
#[inline(always)]
fn push_field(text: &mut String, field: &str) -> Result<(), AllocError>
    ensures { OnOk result (string_bytes text.new ≡ string_bytes text.old ++ 9 ∷ field.now) }
{
    text.push('\t')?;
    text.push_str(field)
}

fn flag_text(is_set: bool) -> &'static str
    ensures { result.now ≡ flag_text is_set }
{
    if is_set { "TRUE" } else { "FALSE" }
}

// The second in which a persistent cookie expires.
fn expiry_second(end: DateTime) -> u64
    ensures { result ≡ expiry_second (AtUtc (moment_of end)) }
{
    second_of(end).max(1)
}

// The second of a time, counted from the epoch; 0 before it.
fn second_of(time: DateTime) -> u64
    ensures { result ≡ second_of (moment_of time) }
{
    u64::try_from(epoch_second(time)).unwrap_or(0)
}
