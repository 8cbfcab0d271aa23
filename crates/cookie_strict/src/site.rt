//! The site of a URL, and the domain cookies that it may set.
ghost use Rattle.std.specs.Prelude.{◌≡◌, option_map};
ghost use Rattle.cookie_parts.specs.Views.{domain_value};
ghost use Rattle.cookie_strict.specs.SiteRule.{is_above_site, is_registrable_suffix};
ghost use Rattle.cookie_strict.specs.Sites.{have_one_host, is_same_site, is_same_site_in, site_domain, site_of, site_value};

use cookie_core::CookieStore;
use cookie_parts::utils::is_host_name;
use cookie_parts::{CookieDomain, cookie_domain};
use cookie_psl::List;
use url::Url;

/// The site of a URL.
#[derive(Clone, Copy, Debug, PartialEq, Eq)]
pub struct Site<'u> {
    /// The scheme, such as `https`.
    pub scheme: &'u str,
    /// The registrable domain of the host, such as `example.co.uk`. If it has none, because it is an
    /// IP address or a public suffix, the host itself.
    pub domain: &'u str,
}

/// Returns the site of `url` under a public suffix list, or `None` if the URL has no host.
///
/// The registrable domain is that of [`List::registrable_domain`]: if no rule of the list matches
/// the host, its last label is the public suffix. For `ws:` and `wss:`, ask with the `http:` or
/// `https:` URL of the same host.
pub fn site_of<'u>(url: &'u Url, list: &List) -> Option<Site<'u>>
    ensures { option_map site_value result ≡ site_of list.now url.now }
{
    let host = url.host_str()?;
    Some(Site {
        scheme: url.scheme(),
        domain: site_domain(host, list),
    })
}

/// Returns whether two URLs are same-site: both have a host, and their sites are equal.
pub fn is_same_site(first: &Url, second: &Url, list: &List) -> bool
    ensures { result ≡ is_same_site list.now first.now second.now }
{
    match (site_of(first, list), site_of(second, list)) {
        (Some(first), Some(second)) => {
            first.scheme == second.scheme && first.domain == second.domain
        }
        _ => false,
    }
}

/// Returns whether two URLs are same-site under the store's public suffix list. Without a list: whether
/// both have a host, and their schemes and hosts are equal.
pub fn is_same_site_in(store: &CookieStore, first: &Url, second: &Url) -> bool
    ensures { result ≡ is_same_site_in store.now.suffixes first.now second.now }
{
    match store.suffix_list() {
        Some(list) => is_same_site(first, second, list),
        None => first.scheme() == second.scheme() && have_one_host(first, second),
    }
}

// Returns whether two URLs have a host, and it is the same.
fn have_one_host(first: &Url, second: &Url) -> bool
    ensures { result ≡ have_one_host first.now second.now }
{
    match (first.host_str(), second.host_str()) {
        (Some(first), Some(second)) => first == second,
        _ => false,
    }
}

/// Returns whether this is the domain of a domain cookie that is above the site of `url`'s host: not
/// a registrable domain suffix of the host, HTML 7.1.1.2.
pub(crate) fn is_above_site(domain: &CookieDomain, url: &Url, list: &List) -> bool
    ensures { result ≡ is_above_site list.now (domain_value domain.now) url.now }
{
    let CookieDomain::Suffix(domain) = domain else {
        return false;
    };
    match url.host_str() {
        Some(host) => !is_registrable_suffix(domain, host, list),
        None => true,
    }
}

// Returns whether the domain is not its own public suffix, and the site of the host covers it.
fn is_registrable_suffix(domain: &str, host: &str, list: &List) -> bool
    ensures { result ≡ is_registrable_suffix list.now domain.now host.now }
{
    list.registrable_domain(domain).is_some()
        && cookie_domain::covers(site_domain(host, list), domain)
}

// Returns the registrable domain of the host, or the host itself if it has none.
fn site_domain<'h>(host: &'h str, list: &List) -> &'h str
    ensures { result.now ≡ site_domain list.now host.now }
{
    if is_host_name(host) {
        list.registrable_domain(host).unwrap_or(host)
    } else {
        host
    }
}
