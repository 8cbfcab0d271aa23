//! The search for the rows of a URL in the maps.
ghost use Rattle.std.proofs.Props.{props};
ghost use Rattle.std.specs.List.{flat_map};
ghost use Rattle.std.specs.List.Sorted.{IsPermutation, IsSorted};
ghost use Rattle.std.specs.Prelude.{◌≡◌, ◌≢◌, ◌≤◌, ◌*◌, [], map, option_map, slice_get, slice_index_or, IfOk, OnErr};
ghost use Rattle.cookie_words.specs.Moments.{moment_of};
ghost use Rattle.cookie_laws.specs.Given.{given};
ghost use Rattle.cookie_lookup.specs.Groups.{flat, AreGroups};
ghost use Rattle.cookie_lookup.specs.Positions.{groups_by_position, place_order};
ghost use Rattle.cookie_lookup.specs.SearchView.{domains_found, given_positions, how_many_found, how_many_pairs_found, paths_found, rows_at, under};
ghost use Rattle.cookie_lookup.specs.Candidates.{url_candidate_domains, most_domains, most_paths, candidate_paths};
ghost use Rattle.cookie_rows.specs.Items.{bare};
ghost use Rattle.cookie_rows.specs.Stored.{domains_in, placed_groups, stored_in};

use crate::boxed::BoxedCookie;
use crate::hashing::HashKey;
use crate::names::Names;
use crate::paths::Paths;
use cookie_lookup::{ListedSearch, Lookups, Search, found_listed, laws};
use cookie_parts::Cookie;
use jiff::civil::DateTime;
use ordered_map::OrderedMap;
use std::alloc::{AllocError, Global};
use std::cmp::Ordering;
use url::Url;

// The maps, the number of lookups so far, and the rows of the path found last.
#[derive(Drop)]
struct MapSearch<'a> {
    groups: &'a OrderedMap<Paths, HashKey>,
    current: Option<&'a Names>,
    lookups: Lookups,
    ghost rows: { AreGroups (bare (groups_by_position (stored_in groups.now))) } by { Prim.hlevel props },
}

impl<'a> Search for MapSearch<'a> {
    ghost use Rattle.cookie_lookup.specs.SearchView.{SearchView};

    ghost view_of = { λ search. record {
      groups = bare (groups_by_position (stored_in search.groups.now));
      domains = search.lookups.domains;
      paths = search.lookups.paths;
      current = option_map (λ names. map (λ i. i.1.row) names.now) search.current;
    } };

    fn domain(&mut self, text: &str) -> Option<usize> {
        self.lookups.domains += 1;
        self.groups.position(text)
    }

    fn path(&mut self, domain: usize, text: &str) -> Option<usize> {
        self.lookups.paths += 1;
        let (_, _, paths) = self.groups.at(domain)?;
        let (position, names) = paths.find(text)?;
        self.current = Some(names);
        Some(position)
    }

    fn cookie(&self, row: usize) -> Option<&Cookie<'static>> {
        self.current?.row(row)
    }

    ghost are_groups = { λ search. search.rows };
}

impl<'a> ListedSearch for MapSearch<'a> {
    fn domain_count(&self) -> usize {
        self.groups.len()
    }

    fn domain_text(&self, domain: usize) -> Option<&str> {
        match self.groups.at(domain) {
            Some((_, text, _)) => Some(text),
            None => None,
        }
    }

    fn path_count(&self, domain: usize) -> usize {
        match self.groups.at(domain) {
            Some((_, _, paths)) => paths.len(),
            None => 0,
        }
    }

    fn path_text(&self, domain: usize, path: usize) -> Option<&str> {
        let (_, _, paths) = self.groups.at(domain)?;
        match paths.at(path) {
            Some((_, text, _)) => Some(text),
            None => None,
        }
    }
}

/// Returns the rows given for `url` at `now`, in order, and the number of lookups. Allocates only
/// if there is one.
pub(crate) fn searched<'a>(
    groups: &'a OrderedMap<Paths, HashKey>,
    alloc: Global,
    url: &Url,
    now: DateTime,
) -> Result<(Vec<&'a Cookie<'static>>, Lookups), AllocError>
    requires { AreGroups (bare (domains_in groups.now)) }
    ensures given { IfOk result
        (λ found. map (λ c. c.now) found.0.items ≡ given url.now (moment_of now) (flat (bare (domains_in groups.now)))) }
    ensures domains { IfOk result (λ found. found.1.domains ≤ most_domains url.now) }
    ensures paths { IfOk result
        (λ found. found.1.paths ≤ domains_found url.now (flat (bare (domains_in groups.now))) * most_paths url.now) }
    ensures every_domain { IfOk result
        (λ found. domains_found url.now (flat (bare (domains_in groups.now))) ≤ found.1.domains) }
    ensures every_path { IfOk result
        (λ found. paths_found url.now (flat (bare (domains_in groups.now))) ≤ found.1.paths) }
    ensures memory { OnErr result (given url.now (moment_of now) (flat (bare (domains_in groups.now))) ≢ []) }
{
    // for the checker: the rows at the positions found, sorted by place, are the rows given
    laws::rows_at_positions();
    laws::rows_by_place();
    let (mut positions, lookups) = given_positions(groups, alloc, url, now)?;
    sort_by_place(groups, &mut positions);
    let cookies = rows_at(groups, alloc, &positions)?;
    Ok((cookies, lookups))
}

/// Returns the positions of the rows given for `url` at `now`, in any order, and the number of
/// lookups. Allocates only if there is one.
pub(crate) fn given_positions(
    groups: &OrderedMap<Paths, HashKey>,
    alloc: Global,
    url: &Url,
    now: DateTime,
) -> Result<(Vec<(usize, usize, usize)>, Lookups), AllocError>
    requires { AreGroups (bare (domains_in groups.now)) }
    ensures positions { IfOk result
        (λ found. IsPermutation (given_positions url.now (moment_of now) (bare (groups_by_position (stored_in groups.now)))) found.0.items) }
    ensures domains { IfOk result (λ found. found.1.domains ≤ most_domains url.now) }
    ensures paths { IfOk result
        (λ found. found.1.paths ≤ how_many_found (bare (groups_by_position (stored_in groups.now))) (url_candidate_domains url.now) * most_paths url.now) }
    ensures every_domain { IfOk result
        (λ found. how_many_found (bare (groups_by_position (stored_in groups.now))) (url_candidate_domains url.now) ≤ found.1.domains) }
    ensures every_path { IfOk result (λ found.
        how_many_pairs_found (bare (groups_by_position (stored_in groups.now))) (candidate_paths url.now.path) (url_candidate_domains url.now) ≤ found.1.paths) }
    ensures memory { OnErr result (given_positions url.now (moment_of now) (bare (groups_by_position (stored_in groups.now))) ≢ []) }
{
    // for the checker: the groups by position are groups too
    laws::rows_by_place();
    let mut search = MapSearch {
        groups,
        current: None,
        lookups: Lookups {
            domains: 0,
            paths: 0,
        },
    };
    let positions = found_listed(alloc, &mut search, url, now)?;
    Ok((positions, search.lookups))
}

// Sorts positions into the order of the rows.
fn sort_by_place(groups: &OrderedMap<Paths, HashKey>, positions: &mut Vec<(usize, usize, usize)>)
    ensures moved { IsPermutation positions.old.items positions.new.items }
    ensures sorted { IsSorted (place_order (placed_groups (stored_in groups.now))) positions.new.items }
{
    // for the checker: the order by place is total
    laws::rows_by_place();
    positions.sort_unstable_by(
        |a, b| -> Ordering
            ensures { result ≡ place_order (placed_groups (stored_in groups.entry.now)) a.now b.now }
        { compare(groups, *a, *b) },
    );
}

// Compares two positions by the places of their domains, and those of one domain by the places of
// their paths, and of their rows.
// For the checker, equal places are compared by position; there are none.
fn compare(
    groups: &OrderedMap<Paths, HashKey>,
    a: (usize, usize, usize),
    b: (usize, usize, usize),
) -> Ordering
    ensures { result ≡ place_order (placed_groups (stored_in groups.now)) a b }
{
    if a.0 != b.0 {
        let places = place_of(groups, a.0).cmp(&place_of(groups, b.0));
        return places.then(a.0.cmp(&b.0));
    }
    match groups.at(a.0) {
        Some((_, _, paths)) => paths.compare((a.1, a.2), (b.1, b.2)),
        None => (a.1, a.2).cmp(&(b.1, b.2)),
    }
}

// Returns the place of the domain at a position.
fn place_of(groups: &OrderedMap<Paths, HashKey>, domain: usize) -> usize
    ensures { result ≡ slice_index_or (map (λ g. g.0) (stored_in groups.now)) domain 0 }
{
    match groups.at(domain) {
        Some((place, _, _)) => place,
        None => 0,
    }
}

// Returns the rows at these positions.
fn rows_at<'a>(
    groups: &'a OrderedMap<Paths, HashKey>,
    alloc: Global,
    positions: &[(usize, usize, usize)],
) -> Result<Vec<&'a Cookie<'static>>, AllocError>
    ensures rows { IfOk result
        (λ cookies. map (λ c. c.now) cookies.items ≡ flat_map (rows_at (bare (groups_by_position (stored_in groups.now)))) positions.now) }
    ensures memory { OnErr result (positions.now ≢ []) }
{
    let mut cookies = Vec::with_capacity(alloc, positions.len())?;
    for row_position in positions {
        if let Some(row) = row_at(groups, *row_position) {
            cookies.push(row.cookie())?;
        }
    }
    Ok(cookies)
}

/// Returns the row at a position.
pub(crate) fn row_at<'a>(
    groups: &'a OrderedMap<Paths, HashKey>,
    position: (usize, usize, usize),
) -> Option<&'a BoxedCookie>
    ensures { option_map (λ row. row.now) result
        ≡ slice_get (under position.1 (under position.0 (groups_by_position (stored_in groups.now)))) position.2 }
{
    let (_, _, paths) = groups.at(position.0)?;
    let (_, _, names) = paths.at(position.1)?;
    match names.at(position.2) {
        Some((_, row)) => Some(row),
        None => None,
    }
}
