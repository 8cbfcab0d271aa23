//! Two ways to search for the candidates of a URL: look up each, or walk over the stored domains
//! and paths.
ghost use Rattle.std.specs.List.{flat_map, list_any};
ghost use Rattle.std.specs.Prelude.{◌≡◌, ◌≢◌, ◌≤◌, ◌<◌, ◌+◌, ◌*◌, ◌^◌, ℕ, [], ◌++◌, bytes_eq, false, filter, length, map, slice_get, true, IfNone, IfSome, List, OnErr, OnOk, Some};
ghost use Rattle.cookie_words.specs.Moments.{moment_of};
ghost use Rattle.cookie_laws.specs.Given.{is_given};
ghost use Rattle.cookie_lookup.specs.RowFilter.{is_given_under};
ghost use Rattle.cookie_lookup.specs.Groups.{DomainGroups};
ghost use Rattle.cookie_lookup.specs.SearchView.{at_domain, at_path, how_many_found, how_many_pairs_found, how_many_paths, under};
ghost use Rattle.cookie_lookup.specs.Positions.{SamePositions};
ghost use Rattle.cookie_lookup.specs.Candidates.{dots, is_candidate_domain, is_candidate_path, most_paths, candidate_paths, candidate_domains};
ghost use Rattle.cookie_parts.specs.Hosts.{host_of};

use crate::finding::{ends_candidate, push_domain, push_domains, push_path, push_paths};
use crate::row_filter::RowFilter;
use crate::search::{ListedSearch, Search};
use cookie_parts::utils::is_host_name;
use jiff::civil::DateTime;
use std::alloc::AllocError;
use url::Url;

// How domains are searched.
pub(crate) trait DomainSearch<S: Search> {
    // The fewest lookups of domains that it makes for a host.
    ghost fewest: { DomainGroups → List ℕ → ℕ };

    // Adds the positions under the candidate domains of the host, in any order.
    fn push_domains(
        search: &mut S,
        host: &str,
        url: &Url,
        now: DateTime,
        positions: &mut Vec<(usize, usize, usize)>,
    ) -> Result<(), AllocError>
        requires host { host_of url.now ≡ Some host.now }
        requires domains { (S.view_of search.old).domains + (1 + dots host.now) < 2 ^ 128 }
        requires paths { (S.view_of search.old).paths + (1 + dots host.now) * most_paths url.now < 2 ^ 128 }
        ensures positions { OnOk result (SamePositions positions.new.items (positions.old.items
            ++ flat_map (at_domain (is_given url.now (moment_of now)) (S.view_of search.old).groups (candidate_paths url.now.path)) (candidate_domains host.now))) }
        ensures groups { (S.view_of search.new).groups ≡ (S.view_of search.old).groups }
        ensures domains { (S.view_of search.new).domains ≤ (S.view_of search.old).domains + (1 + dots host.now) }
        ensures paths { (S.view_of search.new).paths
            ≤ (S.view_of search.old).paths + how_many_found (S.view_of search.old).groups (candidate_domains host.now) * most_paths url.now }
        ensures every_domain { OnOk result
            ((S.view_of search.old).domains + fewest (S.view_of search.old).groups host.now ≤ (S.view_of search.new).domains) }
        ensures every_path { OnOk result ((S.view_of search.old).paths
            + how_many_pairs_found (S.view_of search.old).groups (candidate_paths url.now.path) (candidate_domains host.now) ≤ (S.view_of search.new).paths) }
        ensures memory { OnErr result
            (flat_map (at_domain (is_given url.now (moment_of now)) (S.view_of search.old).groups (candidate_paths url.now.path)) (candidate_domains host.now) ≢ []) };
}

// How the paths of a domain are searched.
pub(crate) trait PathSearch<S: Search> {
    // Adds the positions under the candidate paths of the domain, in any order.
    fn push_paths(
        search: &mut S,
        domain: usize,
        row_filter: &RowFilter<'_>,
        positions: &mut Vec<(usize, usize, usize)>,
    ) -> Result<(), AllocError>
        requires room { (S.view_of search.old).paths + most_paths row_filter.now.url.now < 2 ^ 128 }
        requires domain { domain < length (S.view_of search.old).groups }
        ensures positions { OnOk result (SamePositions positions.new.items (positions.old.items
            ++ flat_map (at_path (is_given_under row_filter.now.host_only row_filter.now.suffix row_filter.now.url.now (moment_of row_filter.now.time)) domain (under domain (S.view_of search.old).groups)) (candidate_paths row_filter.now.url.now.path))) }
        ensures groups { (S.view_of search.new).groups ≡ (S.view_of search.old).groups }
        ensures domains { (S.view_of search.new).domains ≡ (S.view_of search.old).domains }
        ensures paths { (S.view_of search.new).paths ≤ (S.view_of search.old).paths + most_paths row_filter.now.url.now }
        ensures every_path { OnOk result ((S.view_of search.old).paths
            + how_many_paths (under domain (S.view_of search.old).groups) (candidate_paths row_filter.now.url.now.path) ≤ (S.view_of search.new).paths) }
        ensures memory { OnErr result
            (flat_map (at_path (is_given_under row_filter.now.host_only row_filter.now.suffix row_filter.now.url.now (moment_of row_filter.now.time)) domain (under domain (S.view_of search.old).groups)) (candidate_paths row_filter.now.url.now.path) ≢ []) };
}

// Looks up each candidate.
pub(crate) struct ByLookup;

impl<S: Search> PathSearch<S> for ByLookup {
    fn push_paths(
        search: &mut S,
        domain: usize,
        row_filter: &RowFilter<'_>,
        positions: &mut Vec<(usize, usize, usize)>,
    ) -> Result<(), AllocError> {
        push_paths(search, domain, row_filter, positions)
    }
}

impl<S: Search> DomainSearch<S> for ByLookup {
    ghost fewest = { λ groups host. 1 + dots host };

    fn push_domains(
        search: &mut S,
        host: &str,
        url: &Url,
        now: DateTime,
        positions: &mut Vec<(usize, usize, usize)>,
    ) -> Result<(), AllocError> {
        push_domains::<S, ByLookup>(search, host, url, now, positions)
    }
}

// Walks over the stored strings if they are few, and looks up each candidate if not.
//
// A walk compares each stored string at most once, and only if its length allows a match. The
// candidates of a string of n bytes have at most n * n bytes to hash; without a walk that is at
// most 128 for each stored string. So both take time proportional to what is stored.
pub(crate) struct ByListing;

impl<S: ListedSearch> PathSearch<S> for ByListing {
    fn push_paths(
        search: &mut S,
        domain: usize,
        row_filter: &RowFilter<'_>,
        positions: &mut Vec<(usize, usize, usize)>,
    ) -> Result<(), AllocError> {
        let count = search.path_count(domain);
        if are_few_paths(count, row_filter.url.path().len()) {
            push_listed(search, domain, count, row_filter, positions)
        } else {
            push_paths(search, domain, row_filter, positions)
        }
    }
}

impl<S: ListedSearch> DomainSearch<S> for ByListing {
    ghost fewest = { λ groups host. how_many_found groups (candidate_domains host) };

    fn push_domains(
        search: &mut S,
        host: &str,
        url: &Url,
        now: DateTime,
        positions: &mut Vec<(usize, usize, usize)>,
    ) -> Result<(), AllocError> {
        let count = search.domain_count();
        if are_few_domains(count, host.len()) {
            push_listed_domains(search, count, host, url, now, positions)
        } else {
            push_domains::<S, ByListing>(search, host, url, now, positions)
        }
    }
}

// Whether `count` paths of a domain are few for a URL's path of `len` bytes.
fn are_few_paths(count: usize, len: usize) -> bool {
    count <= len || count <= len.saturating_mul(len) / 128
}

// Whether `count` domains are few for a host of `len` bytes. Common hosts are short and looked up.
fn are_few_domains(count: usize, len: usize) -> bool {
    count <= len.saturating_mul(len) / 128
}

// Adds the positions under the stored domains that are candidates, in the order of the domains.
fn push_listed_domains<S: ListedSearch>(
    search: &mut S,
    count: usize,
    host: &str,
    url: &Url,
    now: DateTime,
    positions: &mut Vec<(usize, usize, usize)>,
) -> Result<(), AllocError>
    requires count { count ≡ length (S.view_of search.old).groups }
    requires host { host_of url.now ≡ Some host.now }
    requires domains { (S.view_of search.old).domains + (1 + dots host.now) < 2 ^ 128 }
    requires paths { (S.view_of search.old).paths + (1 + dots host.now) * most_paths url.now < 2 ^ 128 }
    ensures positions { OnOk result (SamePositions positions.new.items (positions.old.items
        ++ flat_map (at_domain (is_given url.now (moment_of now)) (S.view_of search.old).groups (candidate_paths url.now.path)) (candidate_domains host.now))) }
    ensures groups { (S.view_of search.new).groups ≡ (S.view_of search.old).groups }
    ensures domains { (S.view_of search.new).domains ≤ (S.view_of search.old).domains + (1 + dots host.now) }
    ensures paths { (S.view_of search.new).paths
        ≤ (S.view_of search.old).paths + how_many_found (S.view_of search.old).groups (candidate_domains host.now) * most_paths url.now }
    ensures every_domain { OnOk result
        ((S.view_of search.old).domains + how_many_found (S.view_of search.old).groups (candidate_domains host.now) ≤ (S.view_of search.new).domains) }
    ensures every_path { OnOk result ((S.view_of search.old).paths
        + how_many_pairs_found (S.view_of search.old).groups (candidate_paths url.now.path) (candidate_domains host.now) ≤ (S.view_of search.new).paths) }
    ensures memory { OnErr result
        (flat_map (at_domain (is_given url.now (moment_of now)) (S.view_of search.old).groups (candidate_paths url.now.path)) (candidate_domains host.now) ≢ []) }
{
    let host_is_name = is_host_name(host);
    for place in 0..count {
        if let Some(text) = suffix_at(search, place, host) {
            push_domain::<S, ByListing>(search, text, host, host_is_name, url, now, positions)?;
        }
    }
    Ok(())
}

// Returns the end of the host that is the domain at `place`, if that is a candidate.
fn suffix_at<'a, S: ListedSearch>(search: &S, place: usize, host: &'a str) -> Option<&'a str>
    ensures suffix { IfSome result (λ suffix. Some suffix.now ≡ slice_get (map (λ g. g.0) (S.view_of search.now).groups) place) }
    ensures is { IfSome result (λ suffix. list_any (bytes_eq suffix.now) (candidate_domains host.now) ≡ true) }
    ensures none { IfNone result ((text : List ℕ) → Some text ≡ slice_get (map (λ g. g.0) (S.view_of search.now).groups) place
        → list_any (bytes_eq text) (candidate_domains host.now) ≡ false) }
{
    let bytes = host.as_bytes();
    match search.domain_text(place) {
        Some(text) => {
            if is_candidate_domain(text.as_bytes(), bytes) {
                Some(&host[host.len() - text.len()..])
            } else {
                None
            }
        }
        None => None,
    }
}

// Whether the domain is a candidate. Bytes are compared last, and so only if the length allows a
// match.
fn is_candidate_domain(text: &[u8], host: &[u8]) -> bool
    ensures { result ≡ is_candidate_domain host.now text.now }
{
    (text.len() == host.len()
        || text.len() < host.len() && host[host.len() - text.len() - 1] == b'.')
        && host.ends_with(text)
}

// Adds the positions under those paths of a domain that are candidates, in the order of the paths.
fn push_listed<S: ListedSearch>(
    search: &mut S,
    domain: usize,
    count: usize,
    row_filter: &RowFilter<'_>,
    positions: &mut Vec<(usize, usize, usize)>,
) -> Result<(), AllocError>
    requires room { (S.view_of search.old).paths + most_paths row_filter.now.url.now < 2 ^ 128 }
    requires domain { domain < length (S.view_of search.old).groups }
    requires count { count ≡ length (under domain (S.view_of search.old).groups) }
    ensures positions { OnOk result (positions.new.items ≡ positions.old.items
        ++ flat_map (at_path (is_given_under row_filter.now.host_only row_filter.now.suffix row_filter.now.url.now (moment_of row_filter.now.time)) domain (under domain (S.view_of search.old).groups))
        (filter (λ text. list_any (bytes_eq text) (candidate_paths row_filter.now.url.now.path)) (map (λ p. p.0) (under domain (S.view_of search.old).groups)))) }
    ensures groups { (S.view_of search.new).groups ≡ (S.view_of search.old).groups }
    ensures domains { (S.view_of search.new).domains ≡ (S.view_of search.old).domains }
    ensures paths { (S.view_of search.new).paths ≤ (S.view_of search.old).paths + most_paths row_filter.now.url.now }
    ensures every_path { OnOk result ((S.view_of search.new).paths ≡ (S.view_of search.old).paths
        + length (filter (λ text. list_any (bytes_eq text) (candidate_paths row_filter.now.url.now.path)) (map (λ p. p.0) (under domain (S.view_of search.old).groups)))) }
    ensures memory { OnErr result
        (flat_map (at_path (is_given_under row_filter.now.host_only row_filter.now.suffix row_filter.now.url.now (moment_of row_filter.now.time)) domain (under domain (S.view_of search.old).groups))
        (filter (λ text. list_any (bytes_eq text) (candidate_paths row_filter.now.url.now.path)) (map (λ p. p.0) (under domain (S.view_of search.old).groups))) ≢ []) }
{
    let path = row_filter.url.path();
    for place in 0..count {
        if let Some(prefix) = prefix_at(search, domain, place, path) {
            push_path(search, domain, prefix, row_filter, positions)?;
        }
    }
    Ok(())
}

// Returns the start of the path that is the domain's path at `place`, if that is a candidate.
fn prefix_at<'a, S: ListedSearch>(
    search: &S,
    domain: usize,
    place: usize,
    path: &'a str,
) -> Option<&'a str>
    ensures prefix { IfSome result (λ prefix. Some prefix.now ≡ slice_get (map (λ p. p.0) (under domain (S.view_of search.now).groups)) place) }
    ensures is { IfSome result (λ prefix. list_any (bytes_eq prefix.now) (candidate_paths path.now) ≡ true) }
    ensures none { IfNone result ((text : List ℕ) → Some text ≡ slice_get (map (λ p. p.0) (under domain (S.view_of search.now).groups)) place
        → list_any (bytes_eq text) (candidate_paths path.now) ≡ false) }
{
    let bytes = path.as_bytes();
    match search.path_text(domain, place) {
        Some(text) => {
            if is_candidate_path(text.as_bytes(), bytes) {
                Some(&path[..text.len()])
            } else {
                None
            }
        }
        None => None,
    }
}

// Whether the path is a candidate. Bytes are compared last, and so only if the length allows a
// match.
fn is_candidate_path(text: &[u8], path: &[u8]) -> bool
    ensures { result ≡ is_candidate_path path.now text.now }
{
    text.starts_with(b"/")
        && text.len() <= path.len()
        && ends_candidate(path, text.len() - 1)
        && path.starts_with(text)
}
