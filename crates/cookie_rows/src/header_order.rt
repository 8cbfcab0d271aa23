//! The rows of a request, in the order of the Cookie header.
ghost use Rattle.std.specs.List.{flat_map};
ghost use Rattle.std.specs.List.Sorted.{IsPermutation, IsSorted};
ghost use Rattle.std.specs.Prelude.{◌≡◌, ◌≢◌, ℕ, [], map, None, IfOk, OnErr};
ghost use Rattle.cookie_words.specs.Moments.{moment_of};
ghost use Rattle.cookie_laws.specs.Contents.{contents_of};
ghost use Rattle.cookie_laws.specs.Given.{given};
ghost use Rattle.cookie_laws.specs.Header.{InHeaderOrder};
ghost use Rattle.cookie_lookup.specs.Groups.{flat};
ghost use Rattle.cookie_lookup.specs.Positions.{groups_by_position};
ghost use Rattle.cookie_rows.specs.HeaderItems.{item_order, items_at};
ghost use Rattle.cookie_rows.specs.Items.{bare, groups_in_order, AreItems};
ghost use Rattle.cookie_rows.specs.Stored.{domains_in, stored_in};

use crate::boxed::BoxedCookie;
use crate::hashing::HashKey;
use crate::map_search::{given_positions, row_at};
use crate::paths::Paths;
use cookie_lookup::laws;
use cookie_parts::Cookie;
use jiff::civil::DateTime;
use ordered_map::OrderedMap;
use std::alloc::{AllocError, Global};
use std::cmp::Ordering;
use url::Url;

/// Returns the rows given for the URL, in the order of RFC 6265 5.4 step 2. Allocates only if there
/// is one.
pub(crate) fn in_header_order<'a>(
    groups: &'a OrderedMap<Paths, HashKey>,
    alloc: Global,
    url: &Url,
    now: DateTime,
) -> Result<Vec<&'a Cookie<'static>>, AllocError>
    requires { (n : ℕ) × AreItems n (domains_in groups.now) }
    ensures order { IfOk result (λ cookies. InHeaderOrder url.now (moment_of now)
        (contents_of (groups_in_order (domains_in groups.now)) None None) (map (λ c. c.now) cookies.items)) }
    ensures memory { OnErr result (given url.now (moment_of now) (flat (bare (domains_in groups.now))) ≢ []) }
{
    // for the checker: the rows found are those given, in any order
    laws::rows_at_positions();
    laws::rows_by_place();
    let (positions, _) = given_positions(groups, alloc, url, now)?;
    let mut items = items_at(groups, alloc, &positions)?;
    sort(&mut items);
    cookies_of(alloc, &items)
}

// The rows at these positions, with their numbers.
fn items_at<'a>(
    groups: &'a OrderedMap<Paths, HashKey>,
    alloc: Global,
    positions: &[(usize, usize, usize)],
) -> Result<Vec<&'a BoxedCookie>, AllocError>
    ensures items { IfOk result (λ items. map (λ r. r.now) items.items ≡ flat_map (items_at (groups_by_position (stored_in groups.now))) positions.now) }
    ensures memory { OnErr result (positions.now ≢ []) }
{
    let mut items = Vec::with_capacity(alloc, positions.len())?;
    for row_position in positions {
        if let Some(item) = row_at(groups, *row_position) {
            items.push(item)?;
        }
    }
    Ok(items)
}

// Sorts rows into the order of the header.
fn sort(items: &mut Vec<&BoxedCookie>)
    ensures moved { IsPermutation (map (λ r. r.now) items.old.items) (map (λ r. r.now) items.new.items) }
    ensures sorted { IsSorted item_order (map (λ r. r.now) items.new.items) }
{
    items.sort_unstable_by(
        |a, b| -> Ordering
            ensures { result ≡ item_order a.now.now b.now.now }
        { compare(a, b) },
    );
}

// Longer paths first, and of equally long ones the row that was created first.
fn compare(a: &BoxedCookie, b: &BoxedCookie) -> Ordering
    ensures { result ≡ item_order a.now b.now }
{
    let (path, other) = (a.cookie().path.as_str(), b.cookie().path.as_str());
    match other.len().cmp(&path.len()) {
        Ordering::Equal => a.number().cmp(&b.number()),
        unequal => unequal,
    }
}

// Returns the cookies of rows.
fn cookies_of<'a>(
    alloc: Global,
    items: &[&'a BoxedCookie],
) -> Result<Vec<&'a Cookie<'static>>, AllocError>
    ensures cookies { IfOk result (λ cookies. map (λ c. c.now) cookies.items ≡ map (λ r. r.now.row) items.now) }
    ensures memory { OnErr result (items.now ≢ []) }
{
    let mut cookies = Vec::with_capacity(alloc, items.len())?;
    for item in items {
        cookies.push(item.cookie())?;
    }
    Ok(cookies)
}
