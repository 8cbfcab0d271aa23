//! The row of a domain that is evicted first.
ghost use Rattle.std.specs.Prelude.{◌≡◌, map};
ghost use Rattle.cookie_words.specs.Moments.{moment_of};
ghost use Rattle.cookie_rows.specs.Least.{lesser, stored_items, IsLeastOfGroup, IsLeastOfGroups};

use crate::eviction_order::EvictionOrder;
use crate::names::Names;
use crate::paths::Paths;
use jiff::civil::DateTime;

/// A row's position, of its path and among the rows of that, and its rank in eviction order.
#[derive(Clone, Copy)]
pub(crate) struct Least {
    pub(crate) path: usize,
    pub(crate) row: usize,
    pub(crate) rank: (u64, u64),
}

// Returns the row of this domain that is evicted first.
pub(crate) fn least_of(paths: &Paths, order: EvictionOrder, now: DateTime) -> Option<Least>
    ensures { IsLeastOfGroups order (moment_of now) (map (λ p. stored_items p.1.1) paths.now) result }
{
    let mut least = None;
    for path in 0..paths.len() {
        if let Some((_, _, names)) = paths.at(path) {
            least = lesser(least, least_in(path, names, order, now));
        }
    }
    least
}

// Returns the row of this group that is evicted first.
fn least_in(path: usize, names: &Names, order: EvictionOrder, now: DateTime) -> Option<Least>
    ensures { IsLeastOfGroup order (moment_of now) path (stored_items names.now) result }
{
    let mut least = None;
    for row in 0..names.len() {
        if let Some((_, item)) = names.at(row) {
            let rank = item.rank(order, now);
            least = lesser(least, Some(Least { path, row, rank }));
        }
    }
    least
}

// The one of two that is evicted first.
fn lesser(least: Option<Least>, other: Option<Least>) -> Option<Least>
    ensures { result ≡ lesser least other }
{
    match (least, other) {
        (Some(least), Some(other)) => Some(if other.rank < least.rank {
            other
        } else {
            least
        }),
        (None, other) => other,
        (least, None) => least,
    }
}
