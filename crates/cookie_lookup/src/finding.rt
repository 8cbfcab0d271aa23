//! Finds the rows of a URL.
ghost use Rattle.std.specs.List.{flat_map};
ghost use Rattle.std.specs.List.Sorted.{IsPermutation};
ghost use Rattle.std.specs.Prelude.{◌≡◌, ◌≢◌, ◌≤◌, ◌<◌, ◌+◌, ◌*◌, ◌^◌, [], ◌++◌, ◌∷◌, length, IfOk, OnErr, OnOk, Some};
ghost use Rattle.cookie_words.specs.Moments.{moment_of};
ghost use Rattle.cookie_laws.specs.Given.{is_given};
ghost use Rattle.cookie_lookup.specs.RowFilter.{is_given_under};
ghost use Rattle.cookie_lookup.specs.SearchView.{at_domain, at_path, given_positions, how_many_found, how_many_pairs_found, of_host, paths_at_domain, row_positions, rows_in, under};
ghost use Rattle.cookie_lookup.specs.Positions.{SamePositions};
ghost use Rattle.cookie_lookup.specs.Candidates.{url_candidate_domains, dots, ends_candidate, most_domains, most_paths, candidate_paths, candidate_domains, IsCandidateDomain};
ghost use Rattle.cookie_parts.specs.Hosts.{host_of, is_host_name};

use crate::laws;
use crate::listing::{ByListing, ByLookup, DomainSearch, PathSearch};
use crate::row_filter::RowFilter;
use crate::search::{ListedSearch, Search};
use cookie_parts::utils::is_host_name;
use jiff::civil::DateTime;
use std::alloc::{AllocError, Global};
use url::Url;

/// Returns the positions of the rows given for `url` at `now`, RFC 6265 5.4, in the order of the
/// rows.
///
/// A position has three parts: that of the domain's group, that of the path's group in it, and that
/// of the row in that. Each candidate domain of the URL is looked up at most once, and each
/// candidate path at most once in each domain that is found. On success the lookups of domains are
/// as many as the candidate domains, and those of paths at least as many as the paths that are
/// found.
///
/// # Errors
///
/// `AllocError`: out of memory, only if at least one row is given.
pub fn found<S: Search>(
    alloc: Global,
    search: &mut S,
    url: &Url,
    now: DateTime,
) -> Result<Vec<(usize, usize, usize)>, AllocError>
    requires domains { (S.view_of search.old).domains ≡ 0 }
    requires paths { (S.view_of search.old).paths ≡ 0 }
    ensures positions { IfOk result (λ positions. positions.items ≡ given_positions url.now (moment_of now) (S.view_of search.old).groups) }
    ensures groups { (S.view_of search.new).groups ≡ (S.view_of search.old).groups }
    ensures domains { (S.view_of search.new).domains ≤ most_domains url.now }
    ensures paths { (S.view_of search.new).paths
        ≤ how_many_found (S.view_of search.old).groups (url_candidate_domains url.now) * most_paths url.now }
    ensures every_domain { OnOk result ((S.view_of search.new).domains ≡ most_domains url.now) }
    ensures every_path { OnOk result
        (how_many_pairs_found (S.view_of search.old).groups (candidate_paths url.now.path) (url_candidate_domains url.now) ≤ (S.view_of search.new).paths) }
    ensures memory { OnErr result (given_positions url.now (moment_of now) (S.view_of search.old).groups ≢ []) }
{
    let mut positions = found_by::<S, ByLookup>(alloc, search, url, now)?;
    positions.sort_unstable();
    Ok(positions)
}

/// Returns the positions of the rows given for `url` at `now`, RFC 6265 5.4, as [`found`] does, but
/// in any order.
///
/// Takes time proportional to the length of the URL, the number of stored domains and their
/// lengths, and what is stored under the domains that are found. To that end it walks over the
/// stored domains, or the paths of a domain, if they are few, and looks up the candidates if not.
/// On success the lookups of domains, and of paths, are at least as many as are found.
///
/// # Errors
///
/// `AllocError`: out of memory, only if at least one row is given.
pub fn found_listed<S: ListedSearch>(
    alloc: Global,
    search: &mut S,
    url: &Url,
    now: DateTime,
) -> Result<Vec<(usize, usize, usize)>, AllocError>
    requires domains { (S.view_of search.old).domains ≡ 0 }
    requires paths { (S.view_of search.old).paths ≡ 0 }
    ensures positions { IfOk result (λ positions. IsPermutation (given_positions url.now (moment_of now) (S.view_of search.old).groups) positions.items) }
    ensures groups { (S.view_of search.new).groups ≡ (S.view_of search.old).groups }
    ensures domains { (S.view_of search.new).domains ≤ most_domains url.now }
    ensures paths { (S.view_of search.new).paths
        ≤ how_many_found (S.view_of search.old).groups (url_candidate_domains url.now) * most_paths url.now }
    ensures every_domain { OnOk result (how_many_found (S.view_of search.old).groups (url_candidate_domains url.now) ≤ (S.view_of search.new).domains) }
    ensures every_path { OnOk result
        (how_many_pairs_found (S.view_of search.old).groups (candidate_paths url.now.path) (url_candidate_domains url.now) ≤ (S.view_of search.new).paths) }
    ensures memory { OnErr result (given_positions url.now (moment_of now) (S.view_of search.old).groups ≢ []) }
{
    found_by::<S, ByListing>(alloc, search, url, now)
}

// Finds the positions, in any order; `D` is how the domains are searched.
fn found_by<S: Search, D: DomainSearch<S>>(
    alloc: Global,
    search: &mut S,
    url: &Url,
    now: DateTime,
) -> Result<Vec<(usize, usize, usize)>, AllocError>
    requires domains { (S.view_of search.old).domains ≡ 0 }
    requires paths { (S.view_of search.old).paths ≡ 0 }
    ensures positions { IfOk result (λ positions. IsPermutation (given_positions url.now (moment_of now) (S.view_of search.old).groups) positions.items) }
    ensures groups { (S.view_of search.new).groups ≡ (S.view_of search.old).groups }
    ensures domains { (S.view_of search.new).domains ≤ most_domains url.now }
    ensures paths { (S.view_of search.new).paths
        ≤ how_many_found (S.view_of search.old).groups (url_candidate_domains url.now) * most_paths url.now }
    ensures every_domain { OnOk result (of_host (D.fewest (S.view_of search.old).groups) url.now ≤ (S.view_of search.new).domains) }
    ensures every_path { OnOk result
        (how_many_pairs_found (S.view_of search.old).groups (candidate_paths url.now.path) (url_candidate_domains url.now) ≤ (S.view_of search.new).paths) }
    ensures memory { OnErr result (given_positions url.now (moment_of now) (S.view_of search.old).groups ≢ []) }
{
    // for the checker: rows outside the candidate domains and paths are never given
    laws::looked_up();
    let mut positions = Vec::new(alloc);
    if let Some(host) = url.host_str() {
        // for the checker: naming these strings bounds their lengths, so that the counts cannot
        // overflow
        let _ = host.as_bytes();
        let _ = url.path().as_bytes();
        D::push_domains(search, host, url, now, &mut positions)?;
    }
    Ok(positions)
}

// Adds the positions under the candidate domains, longest first, each by a lookup.
pub(crate) fn push_domains<S: Search, P: PathSearch<S>>(
    search: &mut S,
    host: &str,
    url: &Url,
    now: DateTime,
    positions: &mut Vec<(usize, usize, usize)>,
) -> Result<(), AllocError>
    requires host { host_of url.now ≡ Some host.now }
    requires domains { (S.view_of search.old).domains + (1 + dots host.now) < 2 ^ 128 }
    requires paths { (S.view_of search.old).paths + (1 + dots host.now) * most_paths url.now < 2 ^ 128 }
    ensures positions { OnOk result (SamePositions positions.new.items (positions.old.items
        ++ flat_map (at_domain (is_given url.now (moment_of now)) (S.view_of search.old).groups (candidate_paths url.now.path)) (candidate_domains host.now))) }
    ensures groups { (S.view_of search.new).groups ≡ (S.view_of search.old).groups }
    ensures domains { (S.view_of search.new).domains ≤ (S.view_of search.old).domains + (1 + dots host.now) }
    ensures paths { (S.view_of search.new).paths
        ≤ (S.view_of search.old).paths + how_many_found (S.view_of search.old).groups (candidate_domains host.now) * most_paths url.now }
    ensures every_domain { OnOk result ((S.view_of search.new).domains ≡ (S.view_of search.old).domains + (1 + dots host.now)) }
    ensures every_path { OnOk result ((S.view_of search.old).paths
        + how_many_pairs_found (S.view_of search.old).groups (candidate_paths url.now.path) (candidate_domains host.now) ≤ (S.view_of search.new).paths) }
    ensures memory { OnErr result
        (flat_map (at_domain (is_given url.now (moment_of now)) (S.view_of search.old).groups (candidate_paths url.now.path)) (candidate_domains host.now) ≢ []) }
{
    let host_is_name = is_host_name(host);
    push_domain::<S, P>(search, host, host, host_is_name, url, now, positions)?;
    let bytes = host.as_bytes();
    for at in 0..bytes.len() {
        if bytes[at] == b'.' {
            push_domain::<S, P>(
                search,
                &host[at + 1..],
                host,
                host_is_name,
                url,
                now,
                positions,
            )?;
        }
    }
    Ok(())
}

// Adds the positions under one candidate domain. `host_is_name` is whether the host is a name.
pub(crate) fn push_domain<S: Search, P: PathSearch<S>>(
    search: &mut S,
    text: &str,
    host: &str,
    host_is_name: bool,
    url: &Url,
    now: DateTime,
    positions: &mut Vec<(usize, usize, usize)>,
) -> Result<(), AllocError>
    requires host { host_of url.now ≡ Some host.now }
    requires name { host_is_name ≡ is_host_name host.now }
    requires related { IsCandidateDomain host.now text.now }
    requires domains { (S.view_of search.old).domains + 1 < 2 ^ 128 }
    requires paths { (S.view_of search.old).paths + most_paths url.now < 2 ^ 128 }
    ensures positions { OnOk result (SamePositions positions.new.items (positions.old.items
        ++ at_domain (is_given url.now (moment_of now)) (S.view_of search.old).groups (candidate_paths url.now.path) text.now)) }
    ensures groups { (S.view_of search.new).groups ≡ (S.view_of search.old).groups }
    ensures domains { (S.view_of search.new).domains ≡ (S.view_of search.old).domains + 1 }
    ensures paths { (S.view_of search.new).paths
        ≤ (S.view_of search.old).paths + how_many_found (S.view_of search.old).groups (text.now ∷ []) * most_paths url.now }
    ensures every_path { OnOk result ((S.view_of search.old).paths
        + paths_at_domain (S.view_of search.old).groups (candidate_paths url.now.path) text.now ≤ (S.view_of search.new).paths) }
    ensures memory { OnErr result
        (at_domain (is_given url.now (moment_of now)) (S.view_of search.old).groups (candidate_paths url.now.path) text.now ≢ []) }
{
    match search.domain(text) {
        Some(domain) => {
            let row_filter = RowFilter::under(text, host, host_is_name, url, now);
            P::push_paths(search, domain, &row_filter, positions)
        }
        None => Ok(()),
    }
}

// Adds the positions under the candidate paths of a domain, shortest first, each by a lookup.
pub(crate) fn push_paths<S: Search>(
    search: &mut S,
    domain: usize,
    row_filter: &RowFilter<'_>,
    positions: &mut Vec<(usize, usize, usize)>,
) -> Result<(), AllocError>
    requires room { (S.view_of search.old).paths + most_paths row_filter.now.url.now < 2 ^ 128 }
    requires domain { domain < length (S.view_of search.old).groups }
    ensures positions { OnOk result (positions.new.items ≡ positions.old.items
        ++ flat_map (at_path (is_given_under row_filter.now.host_only row_filter.now.suffix row_filter.now.url.now (moment_of row_filter.now.time)) domain (under domain (S.view_of search.old).groups)) (candidate_paths row_filter.now.url.now.path)) }
    ensures groups { (S.view_of search.new).groups ≡ (S.view_of search.old).groups }
    ensures domains { (S.view_of search.new).domains ≡ (S.view_of search.old).domains }
    ensures paths { (S.view_of search.new).paths ≤ (S.view_of search.old).paths + most_paths row_filter.now.url.now }
    ensures every_path { OnOk result ((S.view_of search.new).paths ≡ (S.view_of search.old).paths + length (candidate_paths row_filter.now.url.now.path)) }
    ensures memory { OnErr result
        (flat_map (at_path (is_given_under row_filter.now.host_only row_filter.now.suffix row_filter.now.url.now (moment_of row_filter.now.time)) domain (under domain (S.view_of search.old).groups)) (candidate_paths row_filter.now.url.now.path) ≢ []) }
{
    let path = row_filter.url.path();
    let bytes = path.as_bytes();
    if bytes.starts_with(b"/") {
        for at in 0..bytes.len() {
            if ends_candidate(bytes, at) {
                push_path(search, domain, &path[..at + 1], row_filter, positions)?;
            }
        }
    }
    Ok(())
}

// Whether the byte at `at` is the last one, or a slash, or followed by a slash.
pub(crate) fn ends_candidate(path: &[u8], at: usize) -> bool
    requires { at < length path.now }
    ensures { result ≡ ends_candidate path.now at }
{
    at + 1 == path.len() || path[at] == b'/' || path[at + 1] == b'/'
}

// Adds the positions under one path of a domain.
pub(crate) fn push_path<S: Search>(
    search: &mut S,
    domain: usize,
    text: &str,
    row_filter: &RowFilter<'_>,
    positions: &mut Vec<(usize, usize, usize)>,
) -> Result<(), AllocError>
    requires room { (S.view_of search.old).paths + 1 < 2 ^ 128 }
    requires domain { domain < length (S.view_of search.old).groups }
    ensures positions { OnOk result (positions.new.items ≡ positions.old.items
        ++ at_path (is_given_under row_filter.now.host_only row_filter.now.suffix row_filter.now.url.now (moment_of row_filter.now.time)) domain (under domain (S.view_of search.old).groups) text.now) }
    ensures groups { (S.view_of search.new).groups ≡ (S.view_of search.old).groups }
    ensures domains { (S.view_of search.new).domains ≡ (S.view_of search.old).domains }
    ensures paths { (S.view_of search.new).paths ≡ (S.view_of search.old).paths + 1 }
    ensures memory { OnErr result
        (at_path (is_given_under row_filter.now.host_only row_filter.now.suffix row_filter.now.url.now (moment_of row_filter.now.time)) domain (under domain (S.view_of search.old).groups) text.now ≢ []) }
{
    match search.path(domain, text) {
        Some(path) => push_rows(search, domain, path, row_filter, positions),
        None => Ok(()),
    }
}

// Adds the positions of the rows of the current group that are given.
fn push_rows<S: Search>(
    search: &S,
    domain: usize,
    path: usize,
    row_filter: &RowFilter<'_>,
    positions: &mut Vec<(usize, usize, usize)>,
) -> Result<(), AllocError>
    ensures positions { OnOk result (positions.new.items ≡ positions.old.items
        ++ row_positions (is_given_under row_filter.now.host_only row_filter.now.suffix row_filter.now.url.now (moment_of row_filter.now.time)) domain path 0 (rows_in (S.view_of search.now).current)) }
    ensures memory { OnErr result
        (row_positions (is_given_under row_filter.now.host_only row_filter.now.suffix row_filter.now.url.now (moment_of row_filter.now.time)) domain path 0 (rows_in (S.view_of search.now).current) ≢ []) }
{
    let mut row = 0;
    while let Some(cookie) = search.cookie(row) {
        if row_filter.gives(cookie) {
            push_position(positions, (domain, path, row))?;
        }
        row += 1;
    }
    Ok(())
}

// Adds a position. The first allocates room for 32 at once.
fn push_position(
    positions: &mut Vec<(usize, usize, usize)>,
    row_position: (usize, usize, usize),
) -> Result<(), AllocError>
    ensures { OnOk result (positions.new.items ≡ positions.old.items ++ row_position ∷ []) }
{
    if positions.is_empty() {
        positions.reserve_exact(32)?;
    }
    positions.push(row_position)?;
    Ok(())
}
