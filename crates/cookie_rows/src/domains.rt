//! The groups of a store, by domain.
ghost use Rattle.std.specs.Prelude.{◌≡◌, ◌≢◌, ◌+◌, ◌<◌, ℕ, true, ◌==◌, length, not, is_none, IfOk, None, OnErr, OnOk};
ghost use Rattle.std.specs.Option.{option_copied};
ghost use Rattle.cookie_words.specs.Moments.{moment_of};
ghost use Rattle.cookie_parts.specs.Domain.{domain_text};
ghost use Rattle.cookie_laws.specs.Rows.{key_at, key_of};
ghost use Rattle.cookie_lookup.specs.SearchView.{group_position};
ghost use Rattle.cookie_lookup.specs.Positions.{paths_in_order};
ghost use Rattle.cookie_rows.specs.GroupChanges.{changed_at, is_empty_at};
ghost use Rattle.cookie_rows.specs.Items.{expire_items, find_items, put_items, remove_item_paths, remove_items, AreItems};
ghost use Rattle.cookie_rows.specs.Eviction.{is_single_paths, moved_to_end_if, InsertsInDomains};
ghost use Rattle.cookie_rows.specs.Least.{items_in_groups};
ghost use Rattle.cookie_rows.specs.Retained.{RetainsDomains, RetainsPaths, ReturnsFor};
ghost use Rattle.cookie_rows.specs.Stored.{domains_in};

use crate::boxed::BoxedCookie;
use crate::eviction_order::EvictionOrder;
use crate::hashing::HashKey;
use crate::paths::Paths;
use cookie_parts::Cookie;
use jiff::civil::DateTime;
use ordered_map::OrderedMap;
use std::alloc::AllocError;

// Returns the row of this domain, path and name, if there is one.
pub(crate) fn find_row<'a>(
    groups: &'a OrderedMap<Paths, HashKey>,
    domain: &str,
    path: &str,
    name: &str,
) -> Option<&'a Cookie<'static>>
    ensures { option_copied result ≡ find_items (key_at domain.now path.now name.now) (domains_in groups.now) }
{
    match groups.get(domain) {
        Some(group) => group.get(path, name),
        None => None,
    }
}

// Adds a group of this row alone: there is none of its domain.
fn add_domain(groups: &mut OrderedMap<Paths, HashKey>, row: BoxedCookie) -> Result<(), AllocError>
    requires absent { group_position (domain_text row.row.domain) (domains_in groups.old) ≡ None }
    ensures added { OnOk result (domains_in groups.new ≡ put_items row.row row.number (domains_in groups.old)) }
    ensures unchanged { OnErr result (domains_in groups.new ≡ domains_in groups.old) }
{
    let alloc = *groups.allocator();
    let domain = String::from_str(alloc, row.cookie().domain.as_str())?;
    let group = Paths::of_one(alloc, row)?;
    groups.push(domain, group)
}

// Replaces the row of the cookie's key.
pub(crate) fn replace_row(groups: &mut OrderedMap<Paths, HashKey>, cookie: Cookie<'static>)
    requires stored { find_items (key_of cookie) (domains_in groups.old) ≢ None }
    ensures { (number : ℕ) → domains_in groups.new ≡ put_items cookie.entry number (domains_in groups.old) }
{
    match groups.get_mut(cookie.domain.as_str()) {
        Some(group) => group.replace(cookie),
        None => {}
    }
}

// Adds the row to the group of its domain.
pub(crate) fn add_row(
    groups: &mut OrderedMap<Paths, HashKey>,
    row: BoxedCookie,
) -> Result<(), AllocError>
    requires new { find_items (key_of row.row) (domains_in groups.old) ≡ None }
    ensures added { OnOk result (domains_in groups.new ≡ put_items row.row row.number (domains_in groups.old)) }
    ensures unchanged { OnErr result (domains_in groups.new ≡ domains_in groups.old) }
{
    let alloc = *groups.allocator();
    let hash_key = *groups.hasher();
    match groups.get_mut(row.cookie().domain.as_str()) {
        Some(group) => group.add(alloc, hash_key, row),
        None => add_domain(groups, row),
    }
}

// Replaces the row of the cookie's key and keeps its number, or adds a new row with this number.
// Returns whether the row is new.
#[inline(always)]
pub(crate) fn put_row(
    groups: &mut OrderedMap<Paths, HashKey>,
    cookie: Cookie<'static>,
    number: u64,
) -> Result<bool, AllocError>
    ensures put { OnOk result (domains_in groups.new ≡ put_items cookie.entry number (domains_in groups.old)) }
    ensures is_new { IfOk result (λ is_new. is_new ≡ is_none (find_items (key_of cookie.entry) (domains_in groups.old))) }
    ensures unchanged { OnErr result (domains_in groups.new ≡ domains_in groups.old) }
    ensures memory { OnErr result (find_items (key_of cookie.entry) (domains_in groups.old) ≡ None) }
{
    let alloc = *groups.allocator();
    let hash_key = *groups.hasher();
    match groups.get_mut(cookie.domain.as_str()) {
        Some(group) => group.put(alloc, hash_key, cookie, number),
        None => {
            add_domain(groups, BoxedCookie::new(alloc, cookie, number)?)?;
            Ok(true)
        }
    }
}

// Adds the row to the group of its domain, and evicts rows so that at most `limit` of the domain
// are stored. Returns how many were evicted.
pub(crate) fn insert_row_within_limit(
    groups: &mut OrderedMap<Paths, HashKey>,
    row: BoxedCookie,
    limit: usize,
    order: EvictionOrder,
    now: DateTime,
) -> Result<usize, AllocError>
    requires limit { 0 < limit }
    requires numbered { AreItems row.number (domains_in groups.old) }
    requires new { find_items (key_of row.row) (domains_in groups.old) ≡ None }
    ensures inserted { OnOk result (InsertsInDomains limit order (moment_of now) row.row row.number
        (domains_in groups.old) (domains_in groups.new)) }
    ensures evicted { IfOk result (λ evicted. length (items_in_groups (domains_in groups.new)) + evicted
        ≡ length (items_in_groups (domains_in groups.old)) + 1) }
    ensures unchanged { OnErr result (domains_in groups.new ≡ domains_in groups.old) }
{
    let alloc = *groups.allocator();
    let hash_key = *groups.hasher();
    let (domain, evicted) = match groups.get_mut(row.cookie().domain.as_str()) {
        None => {
            add_domain(groups, row)?;
            return Ok(0);
        }
        Some(group) => {
            if group.has_fewer_than(limit) {
                group.add(alloc, hash_key, row)?;
                return Ok(0);
            }
            let domain = String::from_str(alloc, row.cookie().domain.as_str())?;
            let evicted = group.insert_at_limit(alloc, hash_key, row, limit, order, now)?;
            (domain, evicted)
        }
    };
    move_domain_to_end(groups, domain.as_str());
    Ok(evicted)
}

// Moves the group of this domain to the end, if it has a single row: all its old rows were evicted.
fn move_domain_to_end(groups: &mut OrderedMap<Paths, HashKey>, domain: &str)
    ensures { domains_in groups.new ≡ moved_to_end_if is_single_paths domain.now (domains_in groups.old) }
{
    let Some(group) = groups.get(domain) else {
        return;
    };
    if group.is_single() {
        groups.move_to_end(domain);
    }
}

// Expires the row of the cookie's key, if there is one.
pub(crate) fn expire_row(groups: &mut OrderedMap<Paths, HashKey>, cookie: &Cookie<'static>)
    ensures { domains_in groups.new ≡ expire_items (key_of cookie.now) (domains_in groups.old) }
{
    match groups.get_mut(cookie.domain.as_str()) {
        Some(group) => group.expire(cookie.path.as_str(), cookie.name()),
        None => {}
    }
}

// Removes the row from its domain's group. Returns it, and whether the group is now empty.
fn take_row(
    groups: &mut OrderedMap<Paths, HashKey>,
    domain: &str,
    path: &str,
    name: &str,
) -> (Option<Cookie<'static>>, bool)
    ensures value { result.0 ≡ find_items (key_at domain.now path.now name.now) (domains_in groups.old) }
    ensures groups { domains_in groups.new ≡ changed_at (remove_item_paths path.now name.now) domain.now (domains_in groups.old) }
    ensures is_empty { result.1 ≡ is_empty_at domain.now (domains_in groups.new) }
{
    match groups.get_mut(domain) {
        Some(group) => {
            let row = group.remove(path, name);
            (row, group.is_empty())
        }
        None => (None, false),
    }
}

// Removes the row of this domain, path and name, and its domain's group if that is empty then.
pub(crate) fn remove_row(
    groups: &mut OrderedMap<Paths, HashKey>,
    domain: &str,
    path: &str,
    name: &str,
) -> Option<Cookie<'static>>
    ensures value { result ≡ find_items (key_at domain.now path.now name.now) (domains_in groups.old) }
    ensures removed { domains_in groups.new ≡ remove_items (key_at domain.now path.now name.now) (domains_in groups.old) }
{
    let (row, is_empty) = take_row(groups, domain, path, name);
    if is_empty {
        groups.remove(domain);
    }
    row
}

// Keeps the rows for which `keep` returns true, and drops empty groups.
pub(crate) fn retain_groups<F: Fn(&Cookie<'_>, u64) -> bool>(
    groups: &mut OrderedMap<Paths, HashKey>,
    keep: &F,
)
    requires { F.IsAlwaysCallable keep.now }
    ensures { RetainsDomains (ReturnsFor (F.post keep.now)) (domains_in groups.old) (domains_in groups.new) }
{
    groups.retain(
        move |_domain: &String, group: &mut Paths| -> bool
            requires { F.IsAlwaysCallable keep.now }
            ensures { (RetainsPaths (ReturnsFor (F.post keep.entry.now)) (paths_in_order group.old) (paths_in_order group.new)) × (result ≡ not (length (paths_in_order group.new) == 0)) }
        {
            group.retain(keep);
            !group.is_empty()
        },
    );
}
