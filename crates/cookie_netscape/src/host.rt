//! The host that the domain field of a line names.
ghost use Rattle.std.specs.Prelude.{◌≡◌, ◌≢◌, ◌∷◌, ◌++◌, [], ℕ, List, IfOk, MatchOption, map, string_bytes};
ghost use Rattle.std.specs.Char.{to_ascii_lowercase};
ghost use Rattle.cookie_netscape.specs.HostFields.{domain_from, is_localhost_or_ipv6, host_from, is_bare_address, is_representable_host, is_port, plain_host, without_local, without_port, written_host};
ghost use Rattle.cookie_netscape.specs.Views.{host_view};

use cookie_words::{is_digits, without_dot};
use std::alloc::{AllocError, Global};

/// A host.
#[derive(Clone, Copy)]
pub(crate) struct Host<'a> {
    /// Without its brackets if it has them.
    pub(crate) text: &'a str,
    pub(crate) has_brackets: bool,
}

/// Returns the domain that the domain field of a line names, in lower case (ASCII), an IPv6 address
/// with brackets. See [`from_text`](crate::from_text) for what is dropped from a field.
///
/// The field is not tested: a line with it may be malformed.
pub fn read_domain(alloc: Global, field: &str) -> Result<String, AllocError>
    ensures { IfOk result (λ domain. string_bytes domain ≡ domain_from field.now) }
{
    read_host(without_dot(field)).to_ascii_lowercase(alloc)
}

/// Reads the host of a domain field, which has no dot before it.
pub(crate) fn read_host(field: &str) -> Host<'_>
    ensures text { result.text.now ≡ plain_host field.now }
    ensures value { host_view result ≡ host_from field.now }
{
    let text = plain_host(field);
    Host {
        text,
        has_brackets: is_bare_address(text),
    }
}

impl<'a> Host<'a> {
    /// Returns the host with its brackets, in lower case.
    #[tactic(auto, using(crate::proofs::HostEnds::lower_brackets))]
    #[inline(always)]
    pub(crate) fn to_ascii_lowercase(&self, alloc: Global) -> Result<String, AllocError>
        ensures { IfOk result (λ host. string_bytes host ≡ map to_ascii_lowercase (host_view self.now)) }
    {
        let text = self.text.to_ascii_lowercase(alloc)?;
        if !self.has_brackets {
            return Ok(text);
        }
        let mut host = String::from_str(alloc, "[")?;
        host.push_str(text.as_str())?;
        host.push(']')?;
        Ok(host)
    }
}

/// Returns the host as a line has it: an IPv6 address without its brackets.
pub(crate) fn written_host(host: &str) -> &str
    ensures { result.now ≡ written_host host.now }
{
    let Some(address) = without_brackets(host) else {
        return host;
    };
    if is_bare_address(address) {
        address
    } else {
        host
    }
}

/// Returns whether a line can hold the host: whether it reads back as it was written.
pub(crate) fn is_representable_host(host: &str) -> bool
    ensures { result ≡ is_representable_host host.now }
{
    let written = written_host(host);
    !is_bare_address(host) && plain_host(written) == written
}

// Returns what is between the brackets, or `None` if the host has none.
fn without_brackets(host: &str) -> Option<&str>
    ensures { MatchOption result ((inner : List ℕ) → host.now ≢ 91 ∷ inner ++ 93 ∷ []) (λ inner. host.now ≡ 91 ∷ inner.now ++ 93 ∷ []) }
{
    host.strip_prefix("[")?.strip_suffix("]")
}

// The host without what wget and Python write after it.
fn plain_host(field: &str) -> &str
    ensures { result.now ≡ plain_host field.now }
{
    without_local(without_port(field))
}

// The host without the port that wget writes after it.
#[tactic(auto, unfolding(crate::specs::HostFields::without_port))]
fn without_port(host: &str) -> &str
    ensures { result.now ≡ without_port host.now }
{
    match host.split_once(':') {
        Some((name, port)) if is_port(port) => name,
        _ => host,
    }
}

fn is_port(digits: &str) -> bool
    ensures { result ≡ is_port digits.now }
{
    !digits.is_empty() && is_digits(digits)
}

// The host without the `.local` that Python writes after `localhost` and an IPv6 address.
#[tactic(auto, unfolding(crate::specs::HostFields::without_local))]
fn without_local(host: &str) -> &str
    ensures { result.now ≡ without_local host.now }
{
    match host.strip_suffix(".local") {
        Some(name) if is_localhost_or_ipv6(name) => name,
        _ => host,
    }
}

fn is_localhost_or_ipv6(host: &str) -> bool
    ensures { result ≡ is_localhost_or_ipv6 host.now }
{
    host.eq_ignore_ascii_case("localhost") || host.starts_with('[')
}

// Whether this is an IPv6 address without brackets: it has two colons.
fn is_bare_address(host: &str) -> bool
    ensures { result ≡ is_bare_address host.now }
{
    if host.starts_with('[') {
        return false;
    }
    match host.split_once(':') {
        Some((_, rest)) => rest.as_bytes().contains(&b':'),
        None => false,
    }
}
