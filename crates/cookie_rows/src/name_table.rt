//! The rows of one domain and path, in a table.
ghost use Rattle.std.specs.Prelude.{◌≡◌, ◌≢◌, ℕ, option_map, slice_get, None, OnErr, OnOk, Some};
ghost use Rattle.std.specs.Map.{values_of};
ghost use Rattle.std.specs.Option.{option_copied};
ghost use Rattle.ordered_map.specs.Entries.{entries};
ghost use Rattle.cookie_rows.specs.GroupChanges.{row_named};
ghost use Rattle.cookie_rows.specs.Items.{AreNamed, expire_item, put_item, remove_item, rows_of, Item};
ghost use Rattle.cookie_rows.specs.Least.{TakesOut};
ghost use Rattle.cookie_rows.specs.Retained.{RetainsItems, ReturnsFor};

use crate::boxed::BoxedCookie;
use crate::hashing::HashKey;
use cookie_parts::Cookie;
use ordered_map::OrderedMap;
use std::alloc::{AllocError, Global};

// The row of this name in a table.
pub(crate) fn row_in<'a>(
    rows: &'a OrderedMap<BoxedCookie, HashKey>,
    name: &str,
) -> Option<&'a Cookie<'static>>
    requires named { AreNamed (entries rows.now) }
    ensures { option_copied result ≡ row_named name.now (rows_of (values_of (entries rows.now))) }
{
    match rows.get(name) {
        Some(row) => Some(row.cookie()),
        None => None,
    }
}

// Replaces the row of the cookie's name in a table.
pub(crate) fn replace_in(rows: &mut OrderedMap<BoxedCookie, HashKey>, cookie: Cookie<'static>)
    requires named { AreNamed (entries rows.old) }
    requires stored { row_named cookie.raw.name (rows_of (values_of (entries rows.old))) ≢ None }
    ensures put { (number : ℕ) → values_of (entries rows.new) ≡ put_item cookie.entry number (values_of (entries rows.old)) }
    ensures named { AreNamed (entries rows.new) }
{
    match rows.get_mut(cookie.name()) {
        Some(row) => row.set(cookie),
        None => {}
    }
}

// Adds the row at the end of a table.
pub(crate) fn add_in(
    rows: &mut OrderedMap<BoxedCookie, HashKey>,
    alloc: Global,
    row: BoxedCookie,
) -> Result<(), AllocError>
    requires named { AreNamed (entries rows.old) }
    requires new { row_named row.row.raw.name (rows_of (values_of (entries rows.old))) ≡ None }
    ensures added { OnOk result (values_of (entries rows.new) ≡ put_item row.row row.number (values_of (entries rows.old))) }
    ensures unchanged { OnErr result (values_of (entries rows.new) ≡ values_of (entries rows.old)) }
    ensures named { AreNamed (entries rows.new) }
{
    let name = String::from_str(alloc, row.cookie().name())?;
    rows.push(name, row)
}

// Keeps the rows of a table for which `keep` returns true.
pub(crate) fn retain_in<F: Fn(&Cookie<'_>, u64) -> bool>(
    rows: &mut OrderedMap<BoxedCookie, HashKey>,
    keep: &F,
)
    requires callable { F.IsAlwaysCallable keep.now }
    requires named { AreNamed (entries rows.old) }
    ensures retained { RetainsItems (ReturnsFor (F.post keep.now)) (values_of (entries rows.old)) (values_of (entries rows.new)) }
    ensures named { AreNamed (entries rows.new) }
{
    rows.retain(
        move |_name: &String, row: &mut BoxedCookie| -> bool
            requires { F.IsAlwaysCallable keep.now }
            ensures { (ReturnsFor (F.post keep.entry.now) row.old result) × (row.new ≡ row.old) }
        { keep(row.cookie(), row.number()) },
    );
}

// Expires the row of this name in a table.
pub(crate) fn expire_in(rows: &mut OrderedMap<BoxedCookie, HashKey>, name: &str)
    requires named { AreNamed (entries rows.old) }
    ensures expired_row { values_of (entries rows.new) ≡ expire_item name.now (values_of (entries rows.old)) }
    ensures named { AreNamed (entries rows.new) }
{
    match rows.get_mut(name) {
        Some(row) => row.expire(),
        None => {}
    }
}

// Removes the row of this name from a table. The others keep their order.
pub(crate) fn remove_in(
    rows: &mut OrderedMap<BoxedCookie, HashKey>,
    name: &str,
) -> Option<Cookie<'static>>
    requires named { AreNamed (entries rows.old) }
    ensures value { result ≡ row_named name.now (rows_of (values_of (entries rows.old))) }
    ensures removed { values_of (entries rows.new) ≡ remove_item name.now (values_of (entries rows.old)) }
    ensures named { AreNamed (entries rows.new) }
{
    match rows.remove(name) {
        Some(row) => Some(row.into_cookie()),
        None => None,
    }
}

// Removes the row at a position of a table. The others keep their order.
pub(crate) fn remove_at_in(rows: &mut OrderedMap<BoxedCookie, HashKey>, position: usize)
    requires named { AreNamed (entries rows.old) }
    ensures removed { (item : Item) → option_map (λ e. e.1.1) (slice_get rows.old.by_position position) ≡ Some item
        → TakesOut item (values_of (entries rows.old)) (values_of (entries rows.new)) }
    ensures named { AreNamed (entries rows.new) }
{
    // for the checker: the keys differ
    let _ = rows.len();
    rows.remove_at(position);
}
