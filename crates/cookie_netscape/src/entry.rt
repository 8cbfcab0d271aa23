//! The cookie of a line.
ghost use Rattle.std.specs.Prelude.{◌≡◌, IfOk, min, option_map, string_bytes};
ghost use Rattle.cookie_parts.specs.Views.{expiry_value};
ghost use Rattle.cookie_netscape.specs.Lines.{cookie_from, expiry_at, expiry_from, raw_of, seconds_from, whole_from, with_name};
ghost use Rattle.cookie_netscape.specs.Views.{entry_row, fields_view};

use crate::fields::{Fields, are_fields, read_flag, read_path, split_fields};
use crate::host::{Host, read_host};
use cookie_parts::{Cookie, CookieDomain, CookieExpiration, CookiePath};
use cookie_raw::{RawCookie, RawCookieBuilder};
use cookie_words::{epoch, is_digits, without_dot};
use std::alloc::{AllocError, Global};

/// A second after the latest expiry.
const NEVER: u64 = 9_223_372_036_854_775_807;

/// The cookie of a line, before its strings are copied.
#[derive(Clone, Copy)]
pub(crate) struct Entry<'a> {
    pub(crate) host: Host<'a>,
    pub(crate) has_subdomains: bool,
    pub(crate) path: &'a str,
    pub(crate) is_secure: bool,
    pub(crate) is_http_only: bool,
    pub(crate) expires: CookieExpiration,
    pub(crate) name: &'a str,
    pub(crate) value: &'a str,
}

/// Reads the fields of a line, or returns `None` if they are not those of a cookie.
#[tactic(auto, unfolding(crate::specs::Lines::row_from))]
pub(crate) fn read_entry(text: &str, is_http_only: bool) -> Option<Entry<'_>>
    ensures { option_map entry_row result ≡ cookie_from is_http_only text.now }
{
    let fields = with_name(split_fields(text)?);
    let has_subdomains = read_flag(fields.subdomains)?;
    let is_secure = read_flag(fields.secure)?;
    let expires = read_expiry(fields.expiry)?;
    let host = read_host(without_dot(fields.domain));
    let path = read_path(fields.path);
    if !are_fields(host.text, path, fields.name, fields.value) {
        return None;
    }
    Some(Entry {
        host,
        has_subdomains,
        path,
        is_secure,
        is_http_only,
        expires,
        name: fields.name,
        value: fields.value,
    })
}

// Python writes a cookie that was received without `=` with an empty name: its value is the name.
fn with_name(fields: Fields<'_>) -> Fields<'_>
    ensures { fields_view result ≡ with_name (fields_view fields.entry) }
{
    if fields.name.is_empty() {
        Fields {
            name: fields.value,
            value: "",
            ..fields
        }
    } else {
        fields
    }
}

// Reads an expiry. An empty field stands for a session cookie, and -1 for a cookie that never expires.
fn read_expiry(field: &str) -> Option<CookieExpiration>
    ensures { option_map expiry_value result ≡ expiry_from field.now }
{
    if field.is_empty() {
        return Some(CookieExpiration::SessionEnd);
    }
    if field == "-1" {
        return Some(CookieExpiration::from_secs(NEVER, epoch()));
    }
    read_second(field)
}

// Reads the second of an expiry, of which 0 stands for a session cookie.
fn read_second(field: &str) -> Option<CookieExpiration>
    ensures { option_map expiry_value result ≡ option_map expiry_at (seconds_from field.now) }
{
    match read_seconds(field)? {
        0 => Some(CookieExpiration::SessionEnd),
        seconds => Some(CookieExpiration::from_secs(seconds, epoch())),
    }
}

// Reads a number of seconds, at most `u64::MAX`. A fraction is ignored.
#[tactic(auto, unfolding(crate::specs::Lines::seconds_from))]
fn read_seconds(field: &str) -> Option<u64>
    ensures { result ≡ option_map (λ n. min n 18_446_744_073_709_551_615) (seconds_from field.now) }
{
    let whole_number = read_whole(field);
    if whole_number.is_some() {
        return whole_number;
    }
    let (whole, fraction) = field.split_once('.')?;
    if !is_digits(fraction) {
        return None;
    }
    read_whole(whole)
}

// Reads a number that has no fraction, at most `u64::MAX`.
fn read_whole(digits: &str) -> Option<u64>
    ensures { result ≡ option_map (λ n. min n 18_446_744_073_709_551_615) (whole_from digits.now) }
{
    if digits.is_empty() || !is_digits(digits) {
        return None;
    }
    Some(digits.parse().unwrap_or(u64::MAX))
}

impl<'a> Entry<'a> {
    /// Makes the cookie, with strings of its own. Fails only if out of memory.
    #[inline(always)]
    pub(crate) fn to_cookie(&self, alloc: Global) -> Result<Cookie<'static>, AllocError>
        ensures { IfOk result (λ cookie. cookie ≡ entry_row self.now) }
    {
        let name = String::from_str(alloc, self.name)?;
        let value = String::from_str(alloc, self.value)?;
        let domain = self.host.to_ascii_lowercase(alloc)?;
        let path = CookiePath::of_saved(String::from_str(alloc, self.path)?, true);
        let domain = if self.has_subdomains {
            CookieDomain::Suffix(domain)
        } else {
            CookieDomain::HostOnly(domain)
        };
        Ok(Cookie::new(self.raw_of(name, value), domain, path, self.expires))
    }

    // The raw cookie of this name and value: with Secure and HttpOnly.
    #[inline(always)]
    fn raw_of(&self, name: String, value: String) -> RawCookie<'static>
        ensures { result ≡ raw_of (string_bytes name) (string_bytes value) self.now.is_secure self.now.is_http_only }
    {
        let mut builder = RawCookieBuilder::new(name, value);
        if self.is_secure {
            builder = builder.secure(true);
        }
        if self.is_http_only {
            builder = builder.http_only(true);
        }
        builder.build()
    }
}
