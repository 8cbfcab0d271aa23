//! The domain of a cookie and domain-match, RFC 6265 5.1.3 and 5.2.3.
ghost use Rattle.std.specs.Prelude.{◌≡◌, ◌↔◌, ◌∷◌, Err, IfOk, IsOk, IsSomeAnd, IsTrue, None, Some, nat_eq, string_bytes};
ghost use Rattle.std.specs.List.{ends_with};
ghost use Rattle.std.specs.Option.{option_copied};
ghost use Rattle.cookie_psl.specs.Rules.{listed};
ghost use Rattle.cookie_parts.specs.Cookie.{host_only_domain};
ghost use Rattle.cookie_parts.specs.Domain as Domain;
ghost use Rattle.cookie_parts.specs.Domain.{ascii_of, compare_domains, domain_from_attribute, domain_from_text, domain_matches, domain_text, host_is_identical, is_public_suffix, text_if_any, text_matches, IsForHost};
ghost use Rattle.cookie_parts.specs.Hosts.{covers, host_of};
ghost use Rattle.cookie_parts.specs.Outcomes.{ReturnsOrMemory, ReturnsAscii, ReturnsDomain};
ghost use Rattle.cookie_parts.specs.Views.{domain_value};

use crate::utils::is_host_name;
use crate::{CookieError, Error};
use cookie_psl::List;
use cookie_raw::RawCookie;
use cookie_words::without_dot;
use idna::{AsciiDenyList, domain_to_ascii_cow};
use std::alloc::{AllocError, Global};
use std::borrow::CowStr;
use std::cmp::Ordering;
use url::Url;

/// The domain of a cookie: the hosts that receive it.
///
/// Domains are ordered by kind, in the order of the variants, and then by their strings.
#[derive(Debug, PartialEq, Eq, PartialOrd, Ord, Hash, Drop)]
pub enum CookieDomain {
    /// A host-only cookie: this host and no other.
    HostOnly(String),
    /// A domain cookie: this host and every host name below it.
    Suffix(String),
    /// No Domain attribute; matches no host.
    NotPresent,
    /// An empty Domain attribute; matches no host.
    Empty,
}

impl Clone for CookieDomain {
    ghost is_clone = { λ domain copy. domain_value copy ≡ domain_value domain };

    fn clone(&self) -> Result<CookieDomain, AllocError> {
        Ok(match self {
            CookieDomain::HostOnly(domain) => CookieDomain::HostOnly(domain.clone()?),
            CookieDomain::Suffix(domain) => CookieDomain::Suffix(domain.clone()?),
            CookieDomain::NotPresent => CookieDomain::NotPresent,
            CookieDomain::Empty => CookieDomain::Empty,
        })
    }
}

impl CookieDomain {
    /// Returns the host of `url` as a host-only domain.
    ///
    /// # Errors
    ///
    /// - `NonRelativeScheme`: `url` has no host.
    /// - `Memory`: out of memory.
    pub fn host_only(alloc: Global, url: &Url) -> Result<CookieDomain, CookieError>
        ensures value { ReturnsOrMemory domain_value result (host_only_domain (host_of url.now)) }
        ensures without_host { host_of url.now ≡ None → result ≡ Err CookieError.NonRelativeScheme }
        ensures matches { IfOk result (λ domain. IsTrue (domain_matches (domain_value domain) url.now)) }
    {
        match url.host_str() {
            Some(host) => match String::from_str(alloc, host) {
                Ok(host) => Ok(CookieDomain::HostOnly(host)),
                Err(_) => Err(CookieError::Memory),
            },
            None => Err(CookieError::NonRelativeScheme),
        }
    }

    /// Parses a domain: trims white space, converts to ASCII by UTS #46, drops one leading dot.
    ///
    /// Returns `Empty` if nothing is left, else `Suffix`.
    ///
    /// # Errors
    ///
    /// - `Idna`: `domain` is not a valid domain name.
    /// - `Memory`: out of memory.
    pub fn try_from_str(alloc: Global, domain: &str) -> Result<CookieDomain, Error>
        ensures { ReturnsDomain result (domain_from_text domain.now) }
    {
        let ascii = to_ascii(alloc, domain)?;
        let ascii = ascii.as_str();
        if ascii.is_empty() || ascii == "." {
            return Ok(CookieDomain::Empty);
        }
        suffix(alloc, without_dot(ascii))
    }

    /// Parses the Domain attribute: trims white space and converts to ASCII by UTS #46.
    ///
    /// Returns `NotPresent` without a Domain attribute, `Empty` if nothing is left, else `Suffix`.
    ///
    /// # Errors
    ///
    /// - `Idna`: the Domain attribute is not a valid domain name.
    /// - `Memory`: out of memory.
    ///
    /// Without a Domain attribute there is no error.
    pub fn try_from_raw(alloc: Global, cookie: &RawCookie<'_>) -> Result<CookieDomain, Error>
        ensures value { ReturnsDomain result (domain_from_attribute cookie.now.domain) }
        ensures without_domain { cookie.now.domain ≡ None → IsOk result }
    {
        let Some(domain) = cookie.domain() else {
            return Ok(CookieDomain::NotPresent);
        };
        let ascii = to_ascii(alloc, domain)?;
        if ascii.as_str().is_empty() {
            return Ok(CookieDomain::Empty);
        }
        suffix(alloc, ascii.as_str())
    }

    /// Returns whether the domain matches the host of `url`, RFC 6265 5.1.3.
    ///
    /// `HostOnly` matches only an equal host. `Suffix` also matches host names below it; an IP
    /// address must be equal. `NotPresent` and `Empty` match no host. Nothing matches a URL without
    /// a host.
    pub fn matches(&self, url: &Url) -> bool
        ensures value { result ≡ domain_matches (domain_value self.now) url.now }
        ensures meaning { IsTrue result ↔ IsForHost (domain_value self.now) (host_of url.now) }
    {
        let Some(host) = url.host_str() else {
            return false;
        };
        match self {
            CookieDomain::HostOnly(domain) => domain.as_str() == host,
            CookieDomain::Suffix(domain) => covers(domain.as_str(), host),
            CookieDomain::NotPresent | CookieDomain::Empty => false,
        }
    }

    /// Returns whether the domain equals the host of `url`. If so, it matches `url`.
    pub fn host_is_identical(&self, url: &Url) -> bool
        ensures value { result ≡ host_is_identical (domain_value self.now) url.now }
        ensures matches { IsTrue result → IsTrue (domain_matches (domain_value self.now) url.now) }
    {
        match (self.as_cow(), url.host_str()) {
            (Some(domain), Some(host)) => domain == host,
            _ => false,
        }
    }

    /// Returns whether the whole domain is a public suffix by a rule of `list`.
    pub fn is_public_suffix(&self, list: &List) -> bool
        ensures { result ≡ is_public_suffix list.now (domain_value self.now) }
    {
        match self.as_cow() {
            Some(domain) => is_listed(list, domain),
            None => false,
        }
    }

    /// Copies the domain into a new string, empty for `NotPresent` and `Empty`.
    pub fn to_string_in(&self, alloc: Global) -> Result<String, AllocError>
        ensures { IfOk result (λ text. string_bytes text ≡ domain_text (domain_value self.now)) }
    {
        String::from_str(alloc, self.as_str())
    }

    /// Returns the domain as a string, empty for `NotPresent` and `Empty`.
    pub fn as_str(&self) -> &str
        ensures { result.now ≡ domain_text (domain_value self.now) }
    {
        self.as_cow().unwrap_or("")
    }

    /// Returns the domain as a string, `None` for `NotPresent` and `Empty`.
    pub fn as_cow(&self) -> Option<&str>
        ensures { option_copied result ≡ text_if_any (domain_value self.now) }
    {
        match self {
            CookieDomain::HostOnly(domain) | CookieDomain::Suffix(domain) => Some(domain.as_str()),
            CookieDomain::NotPresent | CookieDomain::Empty => None,
        }
    }
}

/// Compares domains by kind, in the order of [`CookieDomain`]'s variants, and then by string.
pub fn compare(first: &CookieDomain, second: &CookieDomain) -> Ordering
    ensures { result ≡ compare_domains (domain_value first.now) (domain_value second.now) }
{
    first.cmp(second)
}

/// Returns whether `domain`, parsed by [`CookieDomain::try_from_str`], matches the host of `url`.
///
/// Returns false if `domain` is not a valid domain name.
pub fn is_match(alloc: Global, domain: &str, url: &Url) -> Result<bool, AllocError>
    ensures value { IfOk result (λ is_for. is_for ≡ text_matches domain.now url.now) }
    ensures meaning { IfOk result (λ is_for. IsTrue is_for
        ↔ IsSomeAnd (domain_from_text domain.now) (λ named. IsForHost named (host_of url.now))) }
{
    match CookieDomain::try_from_str(alloc, domain) {
        Ok(domain) => Ok(domain.matches(url)),
        Err(Error::Memory) => Err(AllocError),
        Err(_) => Ok(false),
    }
}

// Trims white space and converts to ASCII by UTS #46.
#[tactic(auto, unfolding(crate::specs::Domain::ascii_of))]
fn to_ascii(alloc: Global, domain: &str) -> Result<CowStr<'_>, Error>
    ensures { ReturnsAscii result (ascii_of domain.now) }
{
    let domain = domain.trim().as_bytes();
    Ok(domain_to_ascii_cow(alloc, domain, AsciiDenyList::EMPTY)?)
}

// The domain of a domain cookie, copied.
fn suffix(alloc: Global, domain: &str) -> Result<CookieDomain, Error>
    ensures { ReturnsDomain result (Some (Domain.Suffix domain.now)) }
{
    Ok(CookieDomain::Suffix(String::from_str(alloc, domain)?))
}

// Whether the whole domain is a public suffix by a rule of the list.
#[tactic(auto, unfolding(cookie_psl::specs::Rules::listed))]
fn is_listed(list: &List, domain: &str) -> bool
    ensures { result ≡ listed list.now domain.now }
{
    match list.suffix(domain) {
        Some(suffix) => suffix.is_known() && suffix.as_str() == domain,
        None => false,
    }
}

/// Returns whether a domain cookie for `domain` matches `host`, RFC 6265 5.1.3: the host is the
/// domain, or a host name that ends in a dot and the domain.
pub fn covers(domain: &str, host: &str) -> bool
    ensures { result ≡ covers domain.now host.now }
{
    host == domain || is_below(host, domain) && is_host_name(host)
}

// Whether the host ends in a dot and the domain.
fn is_below(host: &str, domain: &str) -> bool
    ensures { result ≡ ends_with nat_eq host.now (46 ∷ domain.now) }
{
    match host.strip_suffix(domain) {
        Some(prefix) => prefix.ends_with('.'),
        None => false,
    }
}
