//! The SameSite attribute.

/// The SameSite attribute, which is newer than RFC 6265: which requests should carry the cookie.
#[derive(Clone, Copy, Debug, PartialEq, Eq)]
pub enum SameSite {
    /// Only requests from the cookie's own site.
    Strict,
    /// Also requests that follow a link from another site to the cookie's site.
    Lax,
    /// All requests. The cookie should be Secure too.
    None,
}
