//! Which URLs are secure under the draft's rules.
ghost use Rattle.std.specs.Prelude.{◌≡◌, IfOk};
ghost use Rattle.cookie_strict.specs.SecureUrl.{as_secure, has_local_name, is_local_name, is_raised, is_secure_url, with_https};

use cookie_parts::utils::is_secure;
use std::alloc::AllocError;
use url::{ParseError, Url};

/// Returns whether the URL is secure: `https`, or any to this machine, whose names are `localhost` and
/// those below it, with or without a dot at the end, RFC 6761 6.3.
#[tactic(auto, unfolding(crate::specs::SecureUrl::is_secure_url))]
pub fn is_secure_url(url: &Url) -> bool
    ensures { result ≡ is_secure_url url.now }
{
    is_secure(url) || has_local_name(url)
}

/// Returns the URL by which a request under the draft's rules finds its cookies: with the scheme `https`
/// if the scheme is `http`, and the host is this machine by a name other than `localhost`.
pub fn as_secure(url: &Url) -> Result<Url, AllocError>
    ensures { IfOk result (λ secure. secure ≡ as_secure url.now) }
{
    if is_raised(url) {
        with_https(url)
    } else {
        url.clone()
    }
}

/// Returns whether the scheme is `http`, and the URL is secure under the draft's rules alone, not as RFC
/// 6265 has it.
pub(crate) fn is_raised(url: &Url) -> bool
    ensures { result ≡ is_raised url.now }
{
    url.scheme() == "http" && !is_secure(url) && has_local_name(url)
}

/// Returns the URL with the scheme `https`, or the same URL if it cannot have that. Fails only if out of
/// memory.
pub(crate) fn with_https(url: &Url) -> Result<Url, AllocError>
    ensures { IfOk result (λ secure. secure ≡ with_https url.now) }
{
    let mut secure = url.clone()?;
    match secure.set_scheme("https") {
        Ok(()) | Err(ParseError::CannotSet) => Ok(secure),
        Err(_) => Err(AllocError),
    }
}

// Whether the host of the URL is a name of this machine.
fn has_local_name(url: &Url) -> bool
    ensures { result ≡ has_local_name url.now }
{
    match url.host_str() {
        Some(host) => is_local_name(host),
        None => false,
    }
}

// Whether this is a name of this machine.
fn is_local_name(name: &str) -> bool
    ensures { result ≡ is_local_name name.now }
{
    name == "localhost"
        || name == "localhost."
        || name.as_bytes().ends_with(b".localhost")
        || name.as_bytes().ends_with(b".localhost.")
}
