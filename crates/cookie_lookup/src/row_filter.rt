//! The remaining tests of a row that was found under a candidate domain and a candidate path, RFC 6265
//! 5.4.
ghost use Rattle.std.specs.Prelude.{◌≡◌, Some};
ghost use Rattle.cookie_words.specs.Moments.{moment_of};
ghost use Rattle.cookie_laws.specs.Given.{is_given};
ghost use Rattle.cookie_lookup.specs.RowFilter.{is_given_under, is_host, is_name, covers_host, kind_matches, AgreesUnder};
ghost use Rattle.cookie_lookup.specs.Candidates.{IsCandidateDomain};
ghost use Rattle.cookie_parts.specs.Hosts.{host_of, is_host_name};
ghost use Rattle.cookie_parts.specs.Views.{domain_value};

use cookie_parts::laws::path_match_is_tested;
use cookie_parts::utils::{is_http_scheme, is_secure};
use cookie_parts::{Cookie, CookieDomain};
use jiff::civil::DateTime;
use url::Url;

/// The remaining tests of a row found under a candidate domain and a candidate path: its kind of
/// domain, its expiry, Secure and HttpOnly. `host_only` and `suffix` are whether a host-only cookie
/// and a domain cookie of that domain match the host, so a row's domain and path are not compared
/// again.
#[derive(Drop)]
pub(crate) struct RowFilter<'a> {
    pub(crate) url: &'a Url,
    pub(crate) time: DateTime,
    pub(crate) host_only: bool,
    pub(crate) suffix: bool,
}

impl<'a> RowFilter<'a> {
    // Returns the tests for rows under the candidate domain `text`. `host_is_name` is whether the
    // host is a name, not an IP address.
    pub(crate) fn under(
        text: &str,
        host: &str,
        host_is_name: bool,
        url: &'a Url,
        time: DateTime,
    ) -> RowFilter<'a>
        requires host { host_of url.now ≡ Some host.now }
        requires name { host_is_name ≡ is_host_name host.now }
        requires related { IsCandidateDomain host.now text.now }
        ensures url { result.url.now ≡ url.now }
        ensures time { result.time ≡ time }
        ensures agrees { AgreesUnder text.now (is_given_under result.host_only result.suffix url.now (moment_of time))
            (is_given url.now (moment_of time)) url.now.path }
    {
        // for the checker: a candidate path matches the URL, so it need not be tested
        path_match_is_tested();
        RowFilter {
            url,
            time,
            host_only: is_host(text, host),
            suffix: covers_host(text, host, host_is_name),
        }
    }

    // Whether the row passes the tests, and so is given for the URL.
    pub(crate) fn gives(&self, cookie: &Cookie<'static>) -> bool
        ensures { result ≡ is_given_under self.now.host_only self.now.suffix self.now.url.now (moment_of self.now.time) cookie.now }
    {
        self.kind_matches(&cookie.domain)
            && !cookie.is_expired(self.time)
            && (!cookie.is_secure() || is_secure(self.url))
            && (!cookie.is_http_only() || is_http_scheme(self.url))
    }

    // Whether a domain of this kind matches the host.
    fn kind_matches(&self, domain: &CookieDomain) -> bool
        ensures { result ≡ kind_matches self.now.host_only self.now.suffix (domain_value domain.now) }
    {
        match domain {
            CookieDomain::HostOnly(_) => self.host_only,
            CookieDomain::Suffix(_) => self.suffix,
            CookieDomain::NotPresent | CookieDomain::Empty => false,
        }
    }
}

// Whether a host-only cookie of the candidate domain matches the host.
fn is_host(text: &str, host: &str) -> bool
    ensures { result ≡ is_host text.now host.now }
{
    is_name(text) && text.len() == host.len()
}

// Whether a domain cookie of the candidate domain matches the host.
fn covers_host(text: &str, host: &str, host_is_name: bool) -> bool
    requires { host_is_name ≡ is_host_name host.now }
    ensures { result ≡ covers_host text.now host.now }
{
    is_name(text) && (text.len() == host.len() || host_is_name)
}

// Whether the domain is neither empty nor `.`.
fn is_name(text: &str) -> bool
    ensures { result ≡ is_name text.now }
{
    !text.is_empty() && text != "."
}
