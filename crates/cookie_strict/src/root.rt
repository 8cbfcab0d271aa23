//! The outermost site of a host.
ghost use Rattle.std.specs.Prelude.{◌≡◌, filter, option_map};
ghost use Rattle.cookie_parts.specs.Hosts.{host_of};
ghost use Rattle.cookie_laws.specs.Related.{after_dots};
ghost use Rattle.cookie_strict.specs.Roots.{is_registrable, last_or, root_of};

use cookie_parts::utils::is_host_name;
use cookie_psl::List;
use url::Url;

/// Returns the outermost site of the URL's host under a public suffix list, or `None` if the URL
/// has no host: the shortest of the host and the domains above it that is no public suffix. If
/// there is none, or the host is an IP address, it is the host itself.
///
/// Mostly it is the registrable domain, as of [`site_of`](crate::site_of). But sites nest: with the
/// rules `jp` and `*.kobe.jp` the registrable domain of `a.b.kobe.jp` is that name, and its root is
/// `kobe.jp`.
pub fn root_of<'u>(url: &'u Url, list: &List) -> Option<&'u str>
    ensures { option_map (λ root. root.now) result ≡ option_map (root_of list.now) (host_of url.now) }
{
    let host = url.host_str()?;
    Some(root_of_domain(host, list))
}

/// Returns the same of the domain of a cookie, such as that of its key.
pub fn root_of_domain<'d>(domain: &'d str, list: &List) -> &'d str
    ensures { result.now ≡ root_of list.now domain.now }
{
    if is_host_name(domain) {
        shortest_registrable(domain, list)
    } else {
        domain
    }
}

// Returns the shortest string after a dot of the domain that is no public suffix, or the domain
// itself if there is none.
fn shortest_registrable<'d>(domain: &'d str, list: &List) -> &'d str
    ensures { result.now ≡ last_or domain.now (filter (is_registrable list.now) (after_dots domain.now)) }
{
    // from the right, where the first one is found within two labels more than the longest rule has
    let mut end = domain.len();
    while let Some(dot) = domain[..end].rfind('.') {
        let shorter = &domain[dot + 1..];
        if list.registrable_domain(shorter).is_some() {
            return shorter;
        }
        end = dot;
    }
    domain
}
