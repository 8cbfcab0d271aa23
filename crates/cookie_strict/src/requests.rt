//! The cookies of a request, by where it came from.
ghost use Rattle.std.specs.Prelude.{◌≡◌, ◌≢◌, false, [], map, IfOk, OnErr};
ghost use Rattle.cookie_words.specs.Moments.{moment_of};
ghost use Rattle.cookie_laws.specs.Given.{given};
ghost use Rattle.cookie_strict.specs.CrossSite.{IsSent};
ghost use Rattle.cookie_strict.specs.SecureUrl.{as_secure, is_raised};

use crate::Context;
use crate::context::is_sent;
use crate::secure_url::{is_raised, with_https};
use cookie_core::CookieStore;
use cookie_parts::Cookie;
use jiff::civil::DateTime;
use std::alloc::AllocError;
use url::Url;

/// Returns the cookies for a request to `url`, in the order of the Cookie header.
///
/// A cross-site request has no cookies with SameSite=Strict, and those with SameSite=Lax only if it
/// is a top-level navigation with a safe method. A URL with the scheme `http` and a host that is this
/// machine has Secure cookies too, also if the host is not `localhost` but a name below it. Allocates
/// only if a cookie matches, and for such a URL.
pub fn cookies_for<'s>(
    store: &'s CookieStore,
    url: &Url,
    context: Context,
    now: DateTime,
) -> Result<Vec<&'s Cookie<'static>>, AllocError>
    ensures sent { IfOk result (λ cookies.
        IsSent context (as_secure url.now) (moment_of now) store.now (map (λ c. c.now) cookies.items)) }
    ensures memory { is_raised url.now ≡ false → OnErr result (given url.now (moment_of now) store.now.rows ≢ []) }
{
    if is_raised(url) {
        let secure = with_https(url)?;
        return sent_to(store, &secure, context, now);
    }
    sent_to(store, url, context, now)
}

// Returns those of the store's cookies for the URL that a request of this context has.
fn sent_to<'s>(
    store: &'s CookieStore,
    url: &Url,
    context: Context,
    now: DateTime,
) -> Result<Vec<&'s Cookie<'static>>, AllocError>
    ensures sent { IfOk result (λ cookies. IsSent context url.now (moment_of now) store.now (map (λ c. c.now) cookies.items)) }
    ensures memory { OnErr result (given url.now (moment_of now) store.now.rows ≢ []) }
{
    let mut cookies = store.cookies_in_order(url, now)?;
    cookies.retain(|cookie| is_sent(context, cookie));
    Ok(cookies)
}
