//! The Cookie header of a request, RFC 6265 4.2.1.
ghost use Rattle.std.specs.Option.{MatchOption};
ghost use Rattle.std.specs.Prelude.{◌≡◌, ◌≢◌, ◌+◌, ◌^◌, ◌≤◌, [], ◌++◌, flat_map, length, map, option_map, string_bytes, IfOk, OnErr, OnOk};
ghost use Rattle.cookie_words.specs.Moments.{moment_of};
ghost use Rattle.cookie_laws.specs.Given.{given};
ghost use Rattle.cookie_laws.specs.Header.{IsCookieHeader, cookie_string, later_pair, pair_text};

use crate::CookieStore;
use cookie_parts::Cookie;
use jiff::civil::DateTime;
use std::alloc::{AllocError, Global};
use url::Url;

impl CookieStore {
    /// Returns the value of the Cookie header for a request to `url`, RFC 6265 4.2.1 and 5.4, or
    /// `None` if no cookie matches: send no header then.
    ///
    /// It lists the cookies of [`cookies_in_order`](Self::cookies_in_order), such as
    /// `id=1; lang=de`. Allocates only if a cookie matches.
    pub fn cookie_header(&self, url: &Url, now: DateTime) -> Result<Option<String>, AllocError>
        ensures header { IfOk result (λ header. IsCookieHeader url.now (moment_of now) self.now (option_map string_bytes header)) }
        ensures memory { OnErr result (given url.now (moment_of now) self.now.rows ≢ []) }
    {
        let cookies = self.cookies_in_order(url, now)?;
        if cookies.is_empty() {
            return Ok(None);
        }
        Ok(Some(cookie_string(self.allocator(), &cookies)?))
    }
}

/// Returns the cookie-string of `cookies`, RFC 6265 4.2.1: `name=value` of each, in order, with `; `
/// between them. Allocates only if there is a cookie.
pub fn cookie_string(alloc: Global, cookies: &[&Cookie<'static>]) -> Result<String, AllocError>
    ensures text { IfOk result (λ text. string_bytes text ≡ cookie_string (map (λ c. c.now) cookies.now)) }
    ensures memory { OnErr result (cookies.now ≢ []) }
{
    let Some((first, others)) = cookies.split_first() else {
        return Ok(String::new(alloc));
    };
    let Some(len) = string_len(first, others) else {
        return Err(AllocError);
    };
    let mut text = String::with_capacity(alloc, len)?;
    push_pair(&mut text, first)?;
    push_later(&mut text, others)?;
    Ok(text)
}

// Returns the length of the cookie-string, or `None` on overflow.
fn string_len(first: &Cookie<'static>, others: &[&Cookie<'static>]) -> Option<usize>
    ensures { MatchOption result (2 ^ 64 ≤ length (pair_text first.now) + length (flat_map (λ c. later_pair c.now) others.now))
        (λ n. n ≡ length (pair_text first.now) + length (flat_map (λ c. later_pair c.now) others.now)) }
{
    let mut len = pair_len(0, "", first)?;
    for cookie in others {
        len = pair_len(len, "; ", cookie)?;
    }
    Some(len)
}

// Returns `len` plus the lengths of a separator and a cookie-pair, or `None` on overflow.
fn pair_len(len: usize, separator: &str, cookie: &Cookie<'static>) -> Option<usize>
    ensures { MatchOption result (2 ^ 64 ≤ len + length (separator.now ++ pair_text cookie.now))
        (λ n. n ≡ len + length (separator.now ++ pair_text cookie.now)) }
{
    len.checked_add(separator.len())?
        .checked_add(cookie.name().len())?
        .checked_add("=".len())?
        .checked_add(cookie.value().len())
}

// Adds the cookie-pairs after the first one.
fn push_later(text: &mut String, cookies: &[&Cookie<'static>]) -> Result<(), AllocError>
    ensures { OnOk result (string_bytes text.new ≡ string_bytes text.old ++ flat_map (λ c. later_pair c.now) cookies.now) }
{
    for cookie in cookies {
        text.push_str("; ")?;
        push_pair(text, cookie)?;
    }
    Ok(())
}

// Adds a cookie-pair.
fn push_pair(text: &mut String, cookie: &Cookie<'static>) -> Result<(), AllocError>
    ensures { OnOk result (string_bytes text.new ≡ string_bytes text.old ++ pair_text cookie.now) }
{
    text.push_str(cookie.name())?;
    text.push('=')?;
    text.push_str(cookie.value())?;
    Ok(())
}
