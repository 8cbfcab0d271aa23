//! The cookies of a request.
ghost use Rattle.std.specs.Prelude.{◌≡◌, map, IfOk, IfSome, None};
ghost use Rattle.std.specs.List.{list_any};
ghost use Rattle.cookie_words.specs.Moments.{moment_of};
ghost use Rattle.cookie_store.specs.CrossSite.{IsSent};
ghost use Rattle.cookie_store.specs.Header.{InHeaderOrder};
ghost use Rattle.cookie_store.specs.SecureUrl.{as_secure};
ghost use Rattle.cookies.specs.SentCookies.{is_field_control, is_for_suffix};

use cookie_store::psl::List;
use cookie_store::strict::{self, Context};
use cookie_store::{Cookie, CookieDomain, CookieStore};
use jiff::civil::DateTime;
use std::alloc::AllocError;
use url::Url;

/// Returns the cookies of a request in the order of its Cookie header, RFC 6265 5.4. With a
/// context, the rules of browsers hold.
pub fn request_cookies<'s>(
    store: &'s CookieStore,
    url: &Url,
    context: Option<Context>,
    now: DateTime,
) -> Result<Vec<&'s Cookie<'static>>, AllocError>
    ensures plain { context ≡ None → IfOk result (λ cookies. InHeaderOrder url.now (moment_of now) store.now (map (λ c. c.now) cookies.items)) }
    ensures strict { IfSome context (λ context. IfOk result (λ cookies. IsSent context (as_secure url.now) (moment_of now) store.now (map (λ c. c.now) cookies.items))) }
{
    match context {
        Some(context) => strict::cookies_for(store, url, context, now),
        None => store.cookies_in_order(url, now),
    }
}

/// Whether a cookie is a domain cookie for a public suffix.
pub fn is_for_suffix(cookie: &Cookie<'_>, list: &List) -> bool
    ensures { result ≡ is_for_suffix list.now cookie.now.domain }
{
    match cookie.domain {
        CookieDomain::Suffix(_) => cookie.domain.is_public_suffix(list),
        _ => false,
    }
}

/// Returns whether a header field cannot have this value: it has a control character of ASCII other
/// than HTAB, RFC 9110 5.5.
pub fn has_control(value: &str) -> bool
    ensures { result ≡ list_any is_field_control value.now }
{
    value
        .as_bytes()
        .iter()
        .any(|byte| byte.is_ascii_control() && *byte != b'\t')
}
