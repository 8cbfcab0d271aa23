//! The cookie of a line that begins with `Set-Cookie:`.
ghost use Rattle.std.specs.Prelude.{◌≡◌, IfErr, IfOk, IsSome, option_map};
ghost use Rattle.std.specs.Option.{option_copied};
ghost use Rattle.cookie_parts.specs.Views.{expiry_value};
ghost use Rattle.cookie_raw.specs.Views.{expires_value};
ghost use Rattle.cookie_netscape.specs.Lines.{header_cookie, header_expiry, header_path, set_cookie_value, row_of_header};
ghost use Rattle.cookie_netscape.specs.Views.{entry_row};

use crate::entry::Entry;
use crate::fields::{are_fields, read_path};
use crate::host::read_host;
use cookie_parts::{Cookie, CookieExpiration};
use cookie_raw::{Expiration, RawCookie};
use std::alloc::{AllocError, Global};

/// Reads the cookie of a line that begins with `Set-Cookie:`, or returns `None` if there is none.
/// Fails only if out of memory for the cookie.
#[tactic(auto, unfolding(crate::specs::Lines::header_cookie))]
#[inline(never)]
pub(crate) fn read_header(alloc: Global, text: &str) -> Result<Option<Cookie<'static>>, AllocError>
    ensures cookie { IfOk result (λ cookie. cookie ≡ header_cookie text.now) }
    ensures error { IfErr result (λ error. IsSome (header_cookie text.now)) }
{
    let Some(value) = set_cookie_value(text) else {
        return Ok(None);
    };
    let Ok(raw) = RawCookie::parse(value) else {
        return Ok(None);
    };
    match read_raw(&raw) {
        Some(entry) => Ok(Some(entry.to_cookie(alloc)?)),
        None => Ok(None),
    }
}

// The header value of a line that begins with `Set-Cookie:`, ignoring case.
#[tactic(auto, unfolding(crate::specs::Lines::set_cookie_value))]
fn set_cookie_value(text: &str) -> Option<&str>
    ensures { option_copied result ≡ set_cookie_value text.now }
{
    match text.split_once(':') {
        Some((name, value)) if name.eq_ignore_ascii_case("Set-Cookie") => Some(value),
        _ => None,
    }
}

// The cookie of a header, before its strings are copied. Max-Age counts from a time that a file does not have.
fn read_raw<'a>(raw: &'a RawCookie<'_>) -> Option<Entry<'a>>
    ensures { option_map entry_row result ≡ row_of_header raw.now }
{
    let host = read_host(raw.domain()?);
    let path = header_path(raw.path());
    let (name, value) = raw.name_value();
    if raw.max_age().is_some() || !are_fields(host.text, path, name, value) {
        return None;
    }
    Some(Entry {
        host,
        has_subdomains: true,
        path,
        is_secure: raw.is_secure(),
        is_http_only: raw.is_http_only(),
        expires: header_expiry(raw.expires()),
        name,
        value,
    })
}

// The path of a Path attribute; `/` if it is missing or does not begin with `/`.
#[tactic(auto, unfolding(crate::specs::Lines::header_path))]
fn header_path(attribute: Option<&str>) -> &str
    ensures { result.now ≡ header_path (option_copied attribute.entry) }
{
    let path = read_path(attribute.unwrap_or(""));
    if path.starts_with('/') { path } else { "/" }
}

// The expiry of an Expires attribute; without one, a session cookie.
fn header_expiry(attribute: Option<Expiration>) -> CookieExpiration
    ensures { expiry_value result ≡ header_expiry (option_map expires_value attribute) }
{
    match attribute {
        Some(expires) => CookieExpiration::from_expiration(expires),
        None => CookieExpiration::SessionEnd,
    }
}
