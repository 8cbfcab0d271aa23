//! URLs and hosts.
ghost use Rattle.std.specs.Prelude.{◌≡◌, ◌↔◌, IfOk, IsErr, IsErrAnd};
ghost use Rattle.std.specs.Result.{result_ok};
ghost use Rattle.url.specs.Host.{borrowed_host};
ghost use Rattle.url.specs.Parser.{IsOutOfRoom};
ghost use Rattle.cookie_parts.specs.Hosts.{is_host_name, is_http_scheme, is_ipv4, is_loopback, is_secure, url_at};

use std::alloc::{AllocError, Global};
use std::net::Ipv4Addr;
use url::{Host, ParseError, Url};

/// Parses a URL. Returns `None` if `text` is not a valid URL.
///
/// # Errors
///
/// `AllocError`: out of memory, or the URL is longer than the parser can count.
#[tactic(auto, unfolding(crate::specs::Hosts::url_at))]
pub fn parse_url(alloc: Global, text: &str) -> Result<Option<Url>, AllocError>
    ensures { IfOk result (λ url. url ≡ url_at text.now) }
{
    parsed_url(Url::parse(alloc, text))
}

// Maps the error of a parse. `OutOfMemory` and `Overflow` say nothing about the URL: `AllocError`.
fn parsed_url(parsed: Result<Url, ParseError>) -> Result<Option<Url>, AllocError>
    ensures url { IfOk result (λ url. url ≡ result_ok parsed) }
    ensures room { IsErr result ↔ IsErrAnd parsed IsOutOfRoom }
{
    match parsed {
        Ok(url) => Ok(Some(url)),
        Err(ParseError::OutOfMemory) => Err(AllocError),
        Err(ParseError::Overflow) => Err(AllocError),
        Err(_) => Ok(None),
    }
}

/// Returns whether the scheme of `url` begins with `http`, as HttpOnly cookies require.
#[tactic(auto, unfolding(crate::specs::Hosts::is_http_scheme))]
pub fn is_http_scheme(url: &Url) -> bool
    ensures { result ≡ is_http_scheme url.now }
{
    url.scheme().as_bytes().starts_with(b"http")
}

/// Returns whether `host` is a host name: not an IPv4 address, and without a `:`.
#[tactic(auto, unfolding(crate::specs::Hosts::is_host_name))]
pub fn is_host_name(host: &str) -> bool
    ensures { result ≡ is_host_name host.now }
{
    !host.as_bytes().contains(&b':') && !is_ipv4(host)
}

/// Returns whether `url` may receive Secure cookies: its scheme is `https`, or its host is the
/// local machine (`localhost`, 127.0.0.0/8 or ::1).
#[tactic(auto, unfolding(crate::specs::Hosts::is_secure))]
pub fn is_secure(url: &Url) -> bool
    ensures { result ≡ is_secure url.now }
{
    if url.scheme() == "https" {
        return true;
    }
    match url.host() {
        Some(host) => is_loopback(host),
        None => false,
    }
}

// Whether the host is `localhost`, in 127.0.0.0/8, or ::1.
fn is_loopback(host: Host<&str>) -> bool
    ensures { result ≡ is_loopback (borrowed_host host.entry) }
{
    match host {
        Host::Domain(name) => name == "localhost",
        Host::Ipv4(address) => address.octets()[0] == 127,
        Host::Ipv6(address) => address.segments() == [0, 0, 0, 0, 0, 0, 0, 1],
    }
}

// Whether the host is an IPv4 address.
fn is_ipv4(host: &str) -> bool
    ensures { result ≡ is_ipv4 host.now }
{
    host.parse::<Ipv4Addr>().is_ok()
}
