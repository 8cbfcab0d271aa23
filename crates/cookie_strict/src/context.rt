//! Where a request and its response came from.
ghost use Rattle.std.specs.Prelude.{◌≡◌};
ghost use Rattle.cookie_strict.specs.CrossSite.{is_accepted, is_accepted_cross_site, is_sent, is_sent_cross_site};

use cookie_parts::Cookie;
use cookie_raw::{RawCookie, SameSite};

/// Where a request came from.
#[derive(Clone, Copy, Debug)]
pub struct Context {
    /// Whether the request is same-site: no page made it, or a page of the same site.
    pub is_same_site: bool,
    /// Whether it is a top-level navigation, such as a link that is followed or a form that is sent.
    pub is_top_level: bool,
    /// Whether its method is safe, such as GET.
    pub is_safe: bool,
    /// Whether a cookie without a SameSite attribute is treated as SameSite=Lax, not as None.
    pub is_lax_by_default: bool,
}

/// Returns whether a request of this context receives the cookie.
pub fn is_sent(context: Context, cookie: &Cookie<'_>) -> bool
    ensures { result ≡ is_sent context cookie.now }
{
    context.is_same_site || is_sent_cross_site(context, cookie.same_site())
}

// Whether a cross-site request receives a cookie with this SameSite attribute.
fn is_sent_cross_site(context: Context, same_site: Option<SameSite>) -> bool
    ensures { result ≡ is_sent_cross_site context same_site }
{
    match same_site {
        Some(SameSite::Strict) => false,
        Some(SameSite::Lax) => context.is_top_level && context.is_safe,
        Some(SameSite::None) => true,
        None => !context.is_lax_by_default || context.is_top_level && context.is_safe,
    }
}

/// Returns whether the response to a request of this context may set the cookie.
pub(crate) fn is_accepted(context: Context, raw: &RawCookie<'_>) -> bool
    ensures { result ≡ is_accepted context raw.now }
{
    context.is_same_site || is_accepted_cross_site(context, raw.same_site())
}

// Whether the response to a cross-site request may set a cookie with this SameSite attribute.
fn is_accepted_cross_site(context: Context, same_site: Option<SameSite>) -> bool
    ensures { result ≡ is_accepted_cross_site context same_site }
{
    match same_site {
        Some(SameSite::Strict | SameSite::Lax) => context.is_top_level,
        Some(SameSite::None) => true,
        None => !context.is_lax_by_default || context.is_top_level,
    }
}
