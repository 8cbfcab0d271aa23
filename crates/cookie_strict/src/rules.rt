//! The rules that the draft adds to the insertion of a cookie.
ghost use Rattle.std.specs.Prelude.{◌≡◌, is_some, IfSome};
ghost use Rattle.cookie_words.specs.Moments.{moment_of};
ghost use Rattle.cookie_parts.specs.Views.{domain_value, expiry_value};
ghost use Rattle.cookie_laws.specs.Rows.{key_of, row_of};
ghost use Rattle.cookie_strict.specs.Lifetime.{limited_expiry};
ghost use Rattle.cookie_strict.specs.StrictRules.{breaks_host_prefix, breaks_http_prefix, breaks_prefix, breaks_secure_prefix, broken_rule, evicts_secure, has_http_prefix, has_prefix, has_root_path, is_host_only, needs_secure_flag, needs_secure_url, overlays_secure, IsRuleError};

use crate::StrictError;
use crate::secure_url::is_secure_url;
use cookie_core::CookieStore;
use cookie_parts::{Cookie, CookieDomain, CookieExpiration};
use cookie_raw::SameSite;
use jiff::civil::DateTime;
use url::Url;

// 400 days in seconds.
const LONGEST_AGE: u64 = 34_560_000;

/// Returns the expiry, at most 400 days from `now`.
pub(crate) fn limited_expiry(expires: CookieExpiration, now: DateTime) -> CookieExpiration
    ensures { expiry_value result ≡ limited_expiry (moment_of now) (expiry_value expires) }
{
    let CookieExpiration::AtUtc(end) = expires else {
        return expires;
    };
    let longest = CookieExpiration::from_secs(LONGEST_AGE, now);
    if longest.expires_by(&end) {
        longest
    } else {
        expires
    }
}

/// Returns the first rule that the cookie breaks, if any.
pub(crate) fn broken_rule(
    store: &CookieStore,
    cookie: &Cookie<'static>,
    url: &Url,
    now: DateTime,
) -> Option<StrictError>
    ensures value { result ≡ broken_rule cookie.now url.now (moment_of now) store.now }
    ensures errors { IfSome result IsRuleError }
{
    if needs_secure_url(cookie, url) {
        return Some(StrictError::InsecureUrl);
    }
    if needs_secure_flag(cookie) {
        return Some(StrictError::InsecureSameSiteNone);
    }
    if breaks_prefix(cookie) {
        return Some(StrictError::Prefix);
    }
    if overlays_secure(store, cookie, url, now) {
        return Some(StrictError::SecureStored);
    }
    if evicts_secure(store, cookie, now) {
        return Some(StrictError::SecureLimit);
    }
    None
}

// Whether the cookie is Secure and the URL is not secure.
fn needs_secure_url(cookie: &Cookie<'static>, url: &Url) -> bool
    ensures { result ≡ needs_secure_url cookie.now url.now }
{
    cookie.is_secure() && !is_secure_url(url)
}

// Whether the cookie has SameSite=None and is not Secure.
fn needs_secure_flag(cookie: &Cookie<'static>) -> bool
    ensures { result ≡ needs_secure_flag cookie.now }
{
    matches!(cookie.same_site(), Some(SameSite::None)) && !cookie.is_secure()
}

/// Returns whether the name begins with `__Secure-`, `__Host-`, `__Http-` or `__Host-Http-`, ignoring
/// case, and the cookie lacks what that prefix demands.
///
/// `__Secure-` demands Secure; `__Host-` demands Secure, a host-only cookie and a Path attribute `/`;
/// `__Http-` demands Secure and HttpOnly; `__Host-Http-` what `__Host-` and `__Http-` demand.
/// [`insert`](crate::insert) rejects such a cookie with `Prefix`.
pub fn breaks_prefix(cookie: &Cookie<'_>) -> bool
    ensures { result ≡ breaks_prefix cookie.now }
{
    breaks_secure_prefix(cookie) || breaks_host_prefix(cookie) || breaks_http_prefix(cookie)
}

// Whether the name begins with `__Secure-`, and the cookie is not Secure.
fn breaks_secure_prefix(cookie: &Cookie<'_>) -> bool
    ensures { result ≡ breaks_secure_prefix cookie.now }
{
    has_prefix(b"__Secure-", cookie.name().as_bytes()) && !cookie.is_secure()
}

// Whether the name begins with `__Host-`, and the cookie is not Secure, is not host-only, or has no
// Path attribute `/`.
fn breaks_host_prefix(cookie: &Cookie<'_>) -> bool
    ensures { result ≡ breaks_host_prefix cookie.now }
{
    has_prefix(b"__Host-", cookie.name().as_bytes())
        && !(cookie.is_secure() && is_host_only(&cookie.domain) && has_root_path(cookie))
}

// Whether the name begins with `__Http-` or `__Host-Http-`, and the cookie is not Secure or not HttpOnly.
fn breaks_http_prefix(cookie: &Cookie<'_>) -> bool
    ensures { result ≡ breaks_http_prefix cookie.now }
{
    has_http_prefix(cookie.name().as_bytes()) && !(cookie.is_secure() && cookie.is_http_only())
}

// Whether the name begins with `__Http-` or `__Host-Http-`, ignoring ASCII case.
fn has_http_prefix(name: &[u8]) -> bool
    ensures { result ≡ has_http_prefix name.now }
{
    has_prefix(b"__Http-", name) || has_prefix(b"__Host-Http-", name)
}

// Whether the name begins with the prefix, ignoring ASCII case.
fn has_prefix(prefix: &[u8], name: &[u8]) -> bool
    ensures { result ≡ has_prefix prefix.now name.now }
{
    name[..name.len().min(prefix.len())].eq_ignore_ascii_case(prefix)
}

// Whether this is the domain of a host-only cookie.
fn is_host_only(domain: &CookieDomain) -> bool
    ensures { result ≡ is_host_only (domain_value domain.now) }
{
    matches!(domain, CookieDomain::HostOnly(_))
}

// Whether the cookie has a Path attribute `/`.
fn has_root_path(cookie: &Cookie<'_>) -> bool
    ensures { result ≡ has_root_path cookie.now }
{
    cookie.path.is_from_path_attr() && cookie.path.as_str() == "/"
}

/// Indexes the Secure cookies if the cookie may overlay one.
pub(crate) fn index_secure(store: &mut CookieStore, cookie: &Cookie<'static>, url: &Url)
    ensures { store.new ≡ store.old }
{
    if !cookie.is_secure() && !is_secure_url(url) {
        store.index_secure();
    }
}

// Whether neither the cookie nor the URL is secure, and the cookie overlays a stored Secure cookie.
fn overlays_secure(store: &CookieStore, cookie: &Cookie<'static>, url: &Url, now: DateTime) -> bool
    ensures { result ≡ overlays_secure cookie.now url.now (moment_of now) store.now.rows }
{
    !cookie.is_secure() && !is_secure_url(url) && store.overlays_secure(cookie, now)
}

// Whether the cookie is not Secure, and a Secure cookie would be evicted for it.
fn evicts_secure(store: &CookieStore, cookie: &Cookie<'static>, now: DateTime) -> bool
    ensures { result ≡ evicts_secure cookie.now (moment_of now) store.now }
{
    !cookie.is_secure() && store.is_full_of_secure(cookie, now) && !is_stored(store, cookie)
}

// Whether a cookie with the same domain, path and name is stored, expired or not.
fn is_stored(store: &CookieStore, cookie: &Cookie<'static>) -> bool
    ensures { result ≡ is_some (row_of (key_of cookie.now) store.now.rows) }
{
    store.contains_any(cookie.domain.as_str(), cookie.path.as_str(), cookie.name())
}
