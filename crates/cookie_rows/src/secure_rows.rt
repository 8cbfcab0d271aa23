//! The Secure rows of one domain.
ghost use Rattle.std.specs.Prelude.{◌≡◌, ◌≤◌, filter, length, nat_le};
ghost use Rattle.ordered_map.specs.Entries.{in_order};
ghost use Rattle.cookie_words.specs.Moments.{moment_of};
ghost use Rattle.cookie_lookup.specs.Positions.{paths_in_order};
ghost use Rattle.cookie_rows.specs.Eviction.{count_secure, is_secure_item, paths_of};
ghost use Rattle.cookie_rows.specs.Stored.{domains_in};

use crate::hashing::HashKey;
use crate::names::Names;
use crate::paths::Paths;
use jiff::civil::DateTime;
use ordered_map::OrderedMap;

// Returns whether the domain has at least `limit` Secure rows that have not expired.
pub(crate) fn is_full(
    groups: &OrderedMap<Paths, HashKey>,
    domain: &str,
    limit: usize,
    now: DateTime,
) -> bool
    ensures { result ≡ nat_le limit (count_secure (moment_of now) (paths_of domain.now (domains_in groups.now))) }
{
    match groups.get(domain) {
        Some(paths) => has_at_least(limit, paths, now),
        None => limit == 0,
    }
}

// Returns whether at least `limit` of the rows are Secure and have not expired.
fn has_at_least(limit: usize, paths: &Paths, now: DateTime) -> bool
    ensures { result ≡ nat_le limit (count_secure (moment_of now) (paths_in_order paths.now)) }
{
    let mut room = limit;
    for names in paths.groups() {
        room = room.saturating_sub(count_in(names, now));
    }
    room == 0
}

// Returns how many of the rows are Secure and have not expired.
fn count_in(names: &Names, now: DateTime) -> usize
    ensures count { result ≡ length (filter (is_secure_item (moment_of now)) (in_order names.now)) }
    ensures within { result ≤ length (in_order names.now) }
{
    // for the checker: there are fewer than 2^63 rows
    let _len = names.len();
    let mut count: usize = 0;
    for row in names.rows() {
        let cookie = row.cookie();
        if !cookie.is_expired(now) && cookie.is_secure() {
            count += 1;
        }
    }
    count
}
