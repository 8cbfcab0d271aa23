//! Reads saved cookies from JSON values.
ghost use Rattle.std.specs.Prelude.{◌≡◌, ◌⊎◌, [], IsOk, IfOk, IfErr, Ok, Err, map, option_map, is_some, None, Some};
ghost use Rattle.serde_json.specs.View.{view, items_view, members_view};
ghost use Rattle.serde_json.specs.Written.{has_float};
ghost use Rattle.cookie_forms.specs.Saved.{saved_view, domain_view, expiry_view};
ghost use Rattle.cookie_forms.specs.Borrowed.{borrowed_parts, borrowed_domain};
ghost use Rattle.cookie_forms.specs.FromJson.{only_text, tagged_in, pair_in, path_in, domain_in, domain_named, domain_tagged, expiry_in, expiry_named, expiry_tagged, parts_in, all_parts_in, parsed_expiry, with_parsed_expiry, all_with_parsed_expiry, all_in, then_read, saved_at, list_at};
ghost use Rattle.cookie_forms.specs.ToJson.{with_expiry};

use crate::moment::read_moment;
use crate::{Saved, SavedDomain, SavedError, SavedExpiry};
use serde_json::Value;
use serde_json::value::Map;
use std::alloc::{AllocError, Global};

// The parts of a saved cookie, borrowed from its JSON value or text.
#[derive(Clone, Copy)]
pub(crate) struct BorrowedParts<'a> {
    pub(crate) raw_cookie: &'a str,
    pub(crate) path: &'a str,
    pub(crate) from_attr: bool,
    pub(crate) domain: BorrowedDomain<'a>,
    pub(crate) expires: Option<&'a str>,
}

// A domain, borrowed from its JSON value or text.
#[derive(Clone, Copy)]
pub(crate) enum BorrowedDomain<'a> {
    HostOnly(&'a str),
    Suffix(&'a str),
    NotPresent,
    Empty,
}

/// Reads a saved cookie from a JSON object with `raw_cookie`, `path`, `domain` and `expires`.
///
/// Other members are ignored.
///
/// # Errors
///
/// In the order in which they are checked, the first two before anything is allocated:
/// - `Shape`: `value` does not have the shape of a saved cookie, or contains a float anywhere.
/// - `Moment`: the expiry is not a valid time.
/// - `Memory`: out of memory.
pub fn from_value(alloc: Global, value: &Value) -> Result<Saved, SavedError>
    ensures saved { IfOk result (λ saved. saved_at (view value.now) ≡ Ok (saved_view saved)) }
    ensures errors { IfErr result (λ e. (e ≡ SavedError.Memory) ⊎ (saved_at (view value.now) ≡ Err e)) }
    ensures early { (e : SavedError) → saved_at (view value.now) ≡ Err e → result ≡ Err e }
{
    if holds_float(value) {
        return Err(SavedError::Shape);
    }
    match parts_in(value) {
        Some(parts) => saved_from(alloc, parts),
        None => Err(SavedError::Shape),
    }
}

/// Reads a list of saved cookies from a JSON array of objects as [`from_value`] reads.
///
/// # Errors
///
/// In the order in which they are checked, the first two before anything is allocated:
/// - `Shape`: `value` is not such an array, or contains a float anywhere.
/// - `Moment`: an expiry is not a valid time.
/// - `Memory`: out of memory. It never happens for an empty list.
pub fn list_from_value(alloc: Global, value: &Value) -> Result<Vec<Saved>, SavedError>
    ensures saved { IfOk result (λ list. list_at (view value.now) ≡ Ok (map saved_view list.items)) }
    ensures errors { IfErr result (λ e. (e ≡ SavedError.Memory) ⊎ (list_at (view value.now) ≡ Err e)) }
    ensures early { (e : SavedError) → list_at (view value.now) ≡ Err e → result ≡ Err e }
    ensures memory { list_at (view value.now) ≡ Ok [] → IsOk result }
{
    if holds_float(value) {
        return Err(SavedError::Shape);
    }
    match value.as_array() {
        Some(items) => list_of(alloc, items),
        None => Err(SavedError::Shape),
    }
}

// Reads these items: `Shape` for any item comes before `Moment` for any.
fn list_of(alloc: Global, items: &[Value]) -> Result<Vec<Saved>, SavedError>
    ensures saved { IfOk result (λ list. then_read all_with_parsed_expiry (all_parts_in (items_view items.now))
        ≡ Ok (map saved_view list.items)) }
    ensures errors { IfErr result (λ e. (e ≡ SavedError.Memory)
        ⊎ (then_read all_with_parsed_expiry (all_parts_in (items_view items.now)) ≡ Err e)) }
    ensures early { (e : SavedError) → then_read all_with_parsed_expiry (all_parts_in (items_view items.now)) ≡ Err e
        → result ≡ Err e }
    ensures memory { then_read all_with_parsed_expiry (all_parts_in (items_view items.now)) ≡ Ok [] → IsOk result }
{
    if !all_have_shape(items) {
        return Err(SavedError::Shape);
    }
    if !all_read(items) {
        return Err(SavedError::Moment);
    }
    all_in(alloc, items)
}

// Whether each item has the shape of a saved cookie; its expiry may be any string.
#[tactic(auto, using(crate::proofs::ReadLists::shape_steps))]
fn all_have_shape(items: &[Value]) -> bool
    ensures { result ≡ is_some (all_parts_in (items_view items.now)) }
{
    for item in items {
        if parts_in(item).is_none() {
            return false;
        }
    }
    true
}

// Whether each item is a saved cookie, with a valid expiry.
#[tactic(auto, using(crate::proofs::ReadLists::flag_steps))]
fn all_read(items: &[Value]) -> bool
    ensures { result ≡ is_some (all_in (items_view items.now)) }
{
    for item in items {
        match parts_in(item) {
            Some(parts) => {
                if !has_moment(parts) {
                    return false;
                }
            }
            None => return false,
        }
    }
    true
}

// Whether the expiry is a valid time, or the cookie a session cookie.
fn has_moment(parts: BorrowedParts<'_>) -> bool
    ensures { result ≡ is_some (with_parsed_expiry (borrowed_parts parts.entry)) }
{
    expiry_at(parts.expires).is_some()
}

// Reads these items, all of which are known to be saved cookies.
#[tactic(auto, using(crate::proofs::ReadLists::read_steps))]
fn all_in(alloc: Global, items: &[Value]) -> Result<Vec<Saved>, SavedError>
    ensures saved { IfOk result (λ list. all_in (items_view items.now) ≡ Some (map saved_view list.items)) }
    ensures errors { IfErr result (λ e. (e ≡ SavedError.Memory) ⊎ (all_in (items_view items.now) ≡ None)) }
    ensures memory { all_in (items_view items.now) ≡ Some [] → IsOk result }
{
    let mut list = Vec::new(alloc);
    for item in items {
        match parts_in(item) {
            Some(parts) => list.push(saved_from(alloc, parts)?)?,
            None => return Err(SavedError::Shape),
        }
    }
    Ok(list)
}

// Copies the parts into a saved cookie, or returns `Moment` if the expiry is not a valid time.
fn saved_from(alloc: Global, parts: BorrowedParts<'_>) -> Result<Saved, SavedError>
    ensures saved { IfOk result (λ saved. with_parsed_expiry (borrowed_parts parts.entry) ≡ Some (saved_view saved)) }
    ensures errors { IfErr result (λ e. (e ≡ SavedError.Memory)
        ⊎ ((e ≡ SavedError.Moment) × (with_parsed_expiry (borrowed_parts parts.entry) ≡ None))) }
    ensures early { with_parsed_expiry (borrowed_parts parts.entry) ≡ None → result ≡ Err SavedError.Moment }
{
    match expiry_at(parts.expires) {
        Some(expires) => Ok(copied(alloc, parts, expires)?),
        None => Err(SavedError::Moment),
    }
}

// Parses the expiry; `None` stands for a session cookie.
pub(crate) fn expiry_at(expires: Option<&str>) -> Option<SavedExpiry>
    ensures { option_map expiry_view result ≡ parsed_expiry (option_map (λ text. text.now) expires.entry) }
{
    match expires {
        Some(text) => Some(SavedExpiry::AtUtc(read_moment(text)?)),
        None => Some(SavedExpiry::SessionEnd),
    }
}

// Copies the parts, with this expiry.
pub(crate) fn copied(
    alloc: Global,
    parts: BorrowedParts<'_>,
    expires: SavedExpiry,
) -> Result<Saved, AllocError>
    ensures { IfOk result (λ saved. saved_view saved ≡ with_expiry (borrowed_parts parts.entry) (expiry_view expires)) }
{
    Ok(Saved {
        raw_cookie: parts.raw_cookie.to_string(alloc)?,
        path: parts.path.to_string(alloc)?,
        from_attr: parts.from_attr,
        domain: domain_copied(alloc, parts.domain)?,
        expires,
    })
}

// Copies the domain.
fn domain_copied(alloc: Global, domain: BorrowedDomain<'_>) -> Result<SavedDomain, AllocError>
    ensures { IfOk result (λ copy. domain_view copy ≡ borrowed_domain domain.entry) }
{
    Ok(match domain {
        BorrowedDomain::HostOnly(text) => SavedDomain::HostOnly(text.to_string(alloc)?),
        BorrowedDomain::Suffix(text) => SavedDomain::Suffix(text.to_string(alloc)?),
        BorrowedDomain::NotPresent => SavedDomain::NotPresent,
        BorrowedDomain::Empty => SavedDomain::Empty,
    })
}

// Borrows the parts of an object that has the shape of a saved cookie.
#[tactic(auto, unfolding(crate::specs::FromJson::parts_in))]
fn parts_in(value: &Value) -> Option<BorrowedParts<'_>>
    ensures { option_map borrowed_parts result ≡ parts_in (view value.now) }
{
    let raw_cookie = value.get("raw_cookie")?.as_str()?;
    let (path, from_attr) = path_in(value.get("path")?)?;
    let domain = domain_in(value.get("domain")?)?;
    let expires = expiry_in(value.get("expires")?)?;
    Some(BorrowedParts {
        raw_cookie,
        path,
        from_attr,
        domain,
        expires,
    })
}

// Reads a path, and whether a Path attribute set it: `["/", true]`.
#[tactic(auto, unfolding(crate::specs::FromJson::path_in))]
fn path_in(value: &Value) -> Option<(&str, bool)>
    ensures { option_map (λ p. (p.0.now, p.1)) result ≡ path_in (view value.now) }
{
    let (path, from_attr) = pair_in(value.as_array()?)?;
    Some((path.as_str()?, from_attr.as_bool()?))
}

// The items if there are exactly two.
fn pair_in(items: &[Value]) -> Option<(&Value, &Value)>
    ensures { option_map (λ p. (view p.0.now, view p.1.now)) result ≡ pair_in (items_view items.now) }
{
    match items {
        [first, second] => Some((first, second)),
        [] | [_] => None,
        [_, _, _, ..] => None,
    }
}

// Reads a domain: `"NotPresent"`, `"Empty"`, or `{"HostOnly": ".."}` or `{"Suffix": ".."}`.
#[tactic(auto, unfolding(crate::specs::FromJson::domain_in))]
fn domain_in(value: &Value) -> Option<BorrowedDomain<'_>>
    ensures { option_map borrowed_domain result ≡ domain_in (view value.now) }
{
    match value.as_str() {
        Some(name) => domain_named(name),
        None => {
            let (tag, text) = tagged_in(value)?;
            domain_tagged(tag, text)
        }
    }
}

// Reads a domain without a string.
pub(crate) fn domain_named(name: &str) -> Option<BorrowedDomain<'_>>
    ensures { option_map borrowed_domain result ≡ domain_named name.now }
{
    match name {
        "NotPresent" => Some(BorrowedDomain::NotPresent),
        "Empty" => Some(BorrowedDomain::Empty),
        _ => None,
    }
}

// Reads a domain with a string.
pub(crate) fn domain_tagged<'a>(tag: &str, text: &'a str) -> Option<BorrowedDomain<'a>>
    ensures { option_map borrowed_domain result ≡ domain_tagged (tag.now, text.now) }
{
    match tag {
        "HostOnly" => Some(BorrowedDomain::HostOnly(text)),
        "Suffix" => Some(BorrowedDomain::Suffix(text)),
        _ => None,
    }
}

// Reads an expiry, not parsed yet: `Some(None)` for a session cookie.
#[tactic(auto, unfolding(crate::specs::FromJson::expiry_in))]
fn expiry_in(value: &Value) -> Option<Option<&str>>
    ensures { option_map (λ o. option_map (λ text. text.now) o) result ≡ expiry_in (view value.now) }
{
    match value.as_str() {
        Some(name) => expiry_named(name),
        None => {
            let (tag, text) = tagged_in(value)?;
            expiry_tagged(tag, text)
        }
    }
}

// Reads `SessionEnd`.
pub(crate) fn expiry_named(name: &str) -> Option<Option<&str>>
    ensures { option_map (λ o. option_map (λ text. text.now) o) result ≡ expiry_named name.now }
{
    match name {
        "SessionEnd" => Some(None),
        _ => None,
    }
}

// Reads `{"AtUtc": ".."}`.
pub(crate) fn expiry_tagged<'a>(tag: &str, text: &'a str) -> Option<Option<&'a str>>
    ensures { option_map (λ o. option_map (λ text. text.now) o) result ≡ expiry_tagged (tag.now, text.now) }
{
    match tag {
        "AtUtc" => Some(Some(text)),
        _ => None,
    }
}

// The name and string of an object's only member.
fn tagged_in(value: &Value) -> Option<(&str, &str)>
    ensures { option_map (λ p. (p.0.now, p.1.now)) result ≡ tagged_in (view value.now) }
{
    only_text(value.as_object()?)
}

// The name and string of the only member.
fn only_text(members: &Map<String, Value>) -> Option<(&str, &str)>
    ensures { option_map (λ p. (p.0.now, p.1.now)) result ≡ only_text (members_view members.now.entries) }
{
    if members.len() != 1 {
        return None;
    }
    let (tag, text) = members.first_key_value()?;
    Some((tag.as_str(), text.as_str()?))
}

// Whether the value contains a float anywhere.
fn holds_float(value: &Value) -> bool
    ensures { result ≡ has_float (view value.now) }
{
    match value {
        Value::Null | Value::Bool(_) | Value::String(_) => false,
        Value::Number(number) => number.is_f64(),
        Value::Array(items) => {
            for item in items {
                if holds_float(item) {
                    return true;
                }
            }
            false
        }
        Value::Object(members) => {
            for (_, item) in members {
                if holds_float(item) {
                    return true;
                }
            }
            false
        }
    }
}
