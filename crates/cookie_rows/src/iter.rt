//! Iterators over the cookies of a store.
ghost use Rattle.std.specs.Prelude.{◌≡◌, ◌<◌, ◌^◌, length, map, ◌++◌, List};
ghost use Rattle.ordered_map.specs.Entries.{in_order};
ghost use Rattle.cookie_words.specs.Moments.{moment_of};
ghost use Rattle.cookie_laws.specs.Rows.{unexpired_rows};
ghost use Rattle.cookie_rows.specs.Items.{joined, rows_of};
ghost use Rattle.cookie_rows.specs.Stored.{all_stored, StoredItems};
ghost use Rattle.cookie_parts.specs.Cookie.{Row};

use crate::boxed::BoxedCookie;
use crate::hashing::HashKey;
use crate::level_iter::LevelIter;
use crate::names::Names;
use crate::paths::Paths;
use cookie_parts::Cookie;
use jiff::civil::DateTime;
use ordered_map::Values;
use std::marker::Model;

/// An iterator over the groups of rows of one domain and path, in order.
#[derive(Drop)]
struct Groups<'a> {
    paths: LevelIter<'a, Names>,
    domains: Values<'a, Paths, HashKey>,
}

impl<'a> Model for Groups<'a> {
    ghost Value = { List StoredItems };

    ghost view = { λ iter. iter.paths ++ all_stored iter.domains };
}

impl<'a> Groups<'a> {
    fn new(domains: Values<'a, Paths, HashKey>) -> Groups<'a>
        ensures { result ≡ all_stored domains.entry }
    {
        Groups {
            paths: LevelIter::of_list(&[]),
            domains,
        }
    }
}

impl<'a> Iterator for Groups<'a> {
    type Item = &'a Names;

    ghost use Rattle.std.specs.Iterator.{YieldsFirstRef, item_count};

    ghost next_gives = { YieldsFirstRef (λ groups. groups) };

    ghost remaining = { item_count (λ groups. groups) };

    fn next(&mut self) -> Option<&'a Names> {
        loop {
            if let Some(group) = self.paths.next() {
                return Some(group);
            }
            match self.domains.next() {
                Some(domain) => self.paths = domain.groups(),
                None => return None,
            }
        }
    }
}

// Returns how many rows these domains have.
pub(crate) fn count_rows(domains: Values<'_, Paths, HashKey>) -> usize
    requires few { length (joined (map in_order (all_stored domains))) < 2 ^ 64 }
    ensures { result ≡ length (joined (map in_order (all_stored domains.entry))) }
{
    let mut count: usize = 0;
    for names in Groups::new(domains) {
        count += names.len();
    }
    count
}

/// An iterator over all cookies of a store, expired or not, in the order of the store.
#[derive(Drop)]
pub struct IterAny<'a> {
    rows: LevelIter<'a, BoxedCookie>,
    groups: Groups<'a>,
}

impl<'a> Model for IterAny<'a> {
    ghost Value = { List Row };

    ghost view = { λ iter. rows_of (iter.rows ++ joined (map in_order iter.groups)) };
}

impl<'a> IterAny<'a> {
    /// Returns an iterator over the rows of these domains.
    pub(crate) fn new(domains: Values<'a, Paths, HashKey>) -> IterAny<'a>
        ensures { result ≡ rows_of (joined (map in_order (all_stored domains.entry))) }
    {
        IterAny {
            rows: LevelIter::of_list(&[]),
            groups: Groups::new(domains),
        }
    }
}

impl<'a> Iterator for IterAny<'a> {
    type Item = &'a Cookie<'static>;

    ghost use Rattle.std.specs.Iterator.{YieldsFirstRef, item_count};

    ghost next_gives = { YieldsFirstRef (λ rows. rows) };

    ghost remaining = { item_count (λ rows. rows) };

    fn next(&mut self) -> Option<&'a Cookie<'static>> {
        loop {
            if let Some(row) = self.rows.next() {
                return Some(row.cookie());
            }
            match self.groups.next() {
                Some(group) => self.rows = group.rows(),
                None => return None,
            }
        }
    }
}

/// An iterator over the cookies of a store that have not expired at a given time, in the order of
/// the store.
#[derive(Drop)]
pub struct IterUnexpired<'a> {
    rows: IterAny<'a>,
    time: DateTime,
}

impl<'a> Model for IterUnexpired<'a> {
    ghost Value = { List Row };

    ghost view = { λ iter. unexpired_rows (moment_of iter.time) iter.rows };
}

impl<'a> IterUnexpired<'a> {
    /// Returns an iterator over those of `rows` that have not expired at `time`.
    pub(crate) fn new(rows: IterAny<'a>, time: DateTime) -> IterUnexpired<'a>
        ensures { result ≡ unexpired_rows (moment_of time) rows.entry }
    {
        IterUnexpired { rows, time }
    }
}

impl<'a> Iterator for IterUnexpired<'a> {
    type Item = &'a Cookie<'static>;

    ghost use Rattle.std.specs.Iterator.{YieldsFirstRef, item_count};

    ghost next_gives = { YieldsFirstRef (λ rows. rows) };

    ghost remaining = { item_count (λ rows. rows) };

    fn next(&mut self) -> Option<&'a Cookie<'static>> {
        while let Some(row) = self.rows.next() {
            if !row.is_expired(self.time) {
                return Some(row);
            }
        }
        None
    }
}
