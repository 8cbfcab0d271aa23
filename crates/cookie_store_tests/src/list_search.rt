//! A search of lists of the caller's own, by which `lookup::found` finds the cookies for a URL.
ghost use Rattle.std.proofs.Props.{props};
ghost use Rattle.std.specs.List.{AllByRecursion, list_any};
ghost use Rattle.std.specs.Prelude.{◌≡◌, ◌<◌, ℕ, List, true, length, map, option_map, string_bytes, bytes_eq, IsTrue, IfOk, IfSome};
ghost use Rattle.cookie_words.specs.Moments.{moment_of};
ghost use Rattle.cookie_store.specs.Groups.{AreGroups, ArePaths, HasDomainAndPath};
ghost use Rattle.cookie_store.specs.Rows.{differ};
ghost use Rattle.cookie_store.specs.SearchView.{given_positions, group_position, under};

use cookie_store::Cookie;
use cookie_store::lookup::{Lookups, Search, found};
use jiff::civil::DateTime;
use std::alloc::{AllocError, Global};
use std::marker::Model;
use url::Url;

/// A name, and the list under it.
#[derive(Drop)]
pub struct Group<T> {
    name: String,
    items: Vec<T>,
}

impl<T> Model for Group<T> {
    ghost Value = { List ℕ × List T };

    ghost view = { λ group. (string_bytes group.name, group.items.items) };
}

impl<T> Group<T> {
    /// Returns a group.
    pub fn new(name: String, items: Vec<T>) -> Group<T>
        ensures name { result.0 ≡ string_bytes name }
        ensures items { result.1 ≡ items.items }
    {
        Group { name, items }
    }

    // Returns the name.
    fn name(&self) -> &str
        ensures { result.now ≡ self.now.0 }
    {
        self.name.as_str()
    }

    // Returns the list.
    fn items(&self) -> &[T]
        ensures { result.now ≡ self.now.1 }
    {
        self.items.as_slice()
    }
}

/// The cookies of a path.
pub type PathCookies = Group<Cookie<'static>>;

/// The cookies of a domain, by path.
pub type DomainCookies = Group<PathCookies>;

// Returns the position of the first group of this name.
fn position<T>(groups: &[Group<T>], name: &str) -> Option<usize>
    ensures position { result ≡ group_position name.now groups.now }
    ensures within { IfSome result (λ at. at < length groups.now) }
{
    groups.iter().position(|group| name == group.name())
}

// Returns the list at a position.
fn items_at<T>(groups: &[Group<T>], at: usize) -> &[T]
    requires { at < length groups.now }
    ensures { result.now ≡ under at groups.now }
{
    groups[at].items()
}

// Returns whether a group has this name.
fn is_among<T>(groups: &[Group<T>], name: &str) -> bool
    ensures { result ≡ list_any (bytes_eq name.now) (map (λ g. g.0) groups.now) }
{
    groups.iter().any(|group| name == group.name())
}

// Returns whether the names differ.
fn names_differ<T>(groups: &[Group<T>]) -> bool
    ensures { IsTrue result → differ bytes_eq (map (λ g. g.0) groups.now) ≡ true }
{
    for at in 0..groups.len() {
        if is_among(&groups[at + 1..], groups[at].name()) {
            return false;
        }
    }
    true
}

// Returns whether a path of the domain has cookies, and only its own.
fn is_path(path: &PathCookies, domain: &str) -> bool
    ensures { IsTrue result
        → (0 < length path.now.1) × AllByRecursion (HasDomainAndPath domain.now path.now.0) path.now.1 }
{
    let (text, cookies) = (path.name(), path.items());
    !cookies.is_empty()
        && cookies.iter().all(|cookie| cookie.domain.as_str() == domain
            && cookie.path.as_str() == text)
}

// Returns whether a domain has paths, which differ, and only its own cookies.
fn is_domain(domain: &DomainCookies) -> bool
    ensures { IsTrue result → (0 < length domain.now.1) × ArePaths domain.now.0 domain.now.1 }
{
    let (text, paths) = (domain.name(), domain.items());
    !paths.is_empty() && names_differ(paths) && paths.iter().all(|path| is_path(path, text))
}

// Returns whether the domains differ, and each has only its own cookies.
fn are_groups(groups: &[DomainCookies]) -> bool
    ensures { IsTrue result → AreGroups groups.now }
{
    names_differ(groups) && groups.iter().all(|domain| is_domain(domain))
}

/// Cookies by domain and path, the number of lookups so far, and the cookies of the path found
/// last.
#[derive(Drop)]
pub struct ListSearch<'a> {
    groups: &'a [DomainCookies],
    current: Option<&'a [Cookie<'static>]>,
    lookups: Lookups,
    ghost rows: { AreGroups groups.now } by { Prim.hlevel props },
}

impl<'a> ListSearch<'a> {
    /// Returns a search of the cookies, `None` if a domain or a path is there twice, or a cookie is
    /// under another domain or path than its own, or a domain or a path has no cookies.
    pub fn new(groups: &'a [DomainCookies]) -> Option<ListSearch<'a>>
        ensures groups { IfSome result (λ search. search.groups.now ≡ groups.now) }
        ensures domains { IfSome result (λ search. search.lookups.domains ≡ 0) }
        ensures paths { IfSome result (λ search. search.lookups.paths ≡ 0) }
    {
        if !are_groups(groups) {
            return None;
        }
        Some(ListSearch {
            groups,
            current: None,
            lookups: Lookups {
                domains: 0,
                paths: 0,
            },
        })
    }
}

impl<'a> Search for ListSearch<'a> {
    ghost use Rattle.cookie_store.specs.SearchView.{SearchView};

    ghost view_of = { λ search. record {
      groups = search.groups.now;
      domains = search.lookups.domains;
      paths = search.lookups.paths;
      current = option_map (λ cookies. cookies.now) search.current;
    } };

    fn domain(&mut self, text: &str) -> Option<usize> {
        self.lookups.domains += 1;
        position(self.groups, text)
    }

    fn path(&mut self, domain: usize, text: &str) -> Option<usize> {
        self.lookups.paths += 1;
        let paths = items_at(self.groups, domain);
        match position(paths, text) {
            Some(path) => {
                self.current = Some(items_at(paths, path));
                Some(path)
            }
            None => None,
        }
    }

    fn cookie(&self, row: usize) -> Option<&Cookie<'static>> {
        self.current?.get(row)
    }

    ghost are_groups = { λ search. search.rows };
}

/// Returns the positions of the cookies for `url` at `now`: of the domain, of the path in it, and of
/// the cookie in that. `None` as [`ListSearch::new`].
pub fn positions_of(
    groups: &[DomainCookies],
    alloc: Global,
    url: &Url,
    now: DateTime,
) -> Option<Result<Vec<(usize, usize, usize)>, AllocError>>
    ensures { IfSome result (λ found. IfOk found (λ positions. positions.items ≡ given_positions url.now (moment_of now) groups.now)) }
{
    let mut search = ListSearch::new(groups)?;
    Some(found(alloc, &mut search, url, now))
}
