//! Converts saved cookies to JSON values.
ghost use Rattle.std.specs.Prelude.{◌≡◌, ◌≢◌, ◌⊎◌, [], OnErr, IfOk, IfErr, Ok, Err, false, map, option_map};
ghost use Rattle.std.specs.List.{list_any};
ghost use Rattle.serde_json.specs.View.{view};
ghost use Rattle.cookie_forms.specs.MomentText.{moment_text};
ghost use Rattle.cookie_forms.specs.Saved.{saved_view, domain_view, expiry_view};
ghost use Rattle.cookie_forms.specs.ToJson.{expires_early, is_early, written, list_written, saved_tree, domain_tree, expiry_tree};

use crate::{Saved, SavedDomain, SavedError, SavedExpiry, moment};
use serde_json::{Value, json};
use std::alloc::{AllocError, Global};

/// Converts a saved cookie to a JSON object with `domain`, `expires`, `path` and `raw_cookie`.
///
/// # Errors
///
/// - `Moment`: the expiry is before the year 0. Tested before anything is allocated.
/// - `Memory`: out of memory.
pub fn to_value(alloc: Global, saved: &Saved) -> Result<Value, SavedError>
    ensures tree { IfOk result (λ v. written (saved_view saved.now) ≡ Ok (view v)) }
    ensures errors { IfErr result (λ e. (e ≡ SavedError.Memory) ⊎ (written (saved_view saved.now) ≡ Err e)) }
    ensures early { (e : SavedError) → written (saved_view saved.now) ≡ Err e → result ≡ Err e }
{
    if is_early(saved) {
        return Err(SavedError::Moment);
    }
    Ok(value_of(alloc, saved)?)
}

/// Converts a list of saved cookies to a JSON array of objects as of [`to_value`], in order.
///
/// # Errors
///
/// - `Moment`: an expiry is before the year 0. Tested before anything is allocated.
/// - `Memory`: out of memory. It never happens for an empty list.
pub fn list_to_value(alloc: Global, list: &[Saved]) -> Result<Value, SavedError>
    ensures tree { IfOk result (λ v. list_written (map saved_view list.now) ≡ Ok (view v)) }
    ensures errors { IfErr result (λ e. (e ≡ SavedError.Memory) ⊎ (list_written (map saved_view list.now) ≡ Err e)) }
    ensures early { (e : SavedError) → list_written (map saved_view list.now) ≡ Err e → result ≡ Err e }
    ensures memory { OnErr result (list.now ≢ []) }
{
    if any_early(list) {
        return Err(SavedError::Moment);
    }
    Ok(Value::Array(values_of(alloc, list)?))
}

/// Returns whether any expiry in the list is before the year 0.
pub fn any_early(list: &[Saved]) -> bool
    ensures { result ≡ list_any is_early (map saved_view list.now) }
{
    for saved in list {
        if is_early(saved) {
            return true;
        }
    }
    false
}

// Converts saved cookies whose expiry is not before the year 0.
fn values_of(alloc: Global, list: &[Saved]) -> Result<Vec<Value>, SavedError>
    requires { list_any is_early (map saved_view list.now) ≡ false }
    ensures trees { IfOk result (λ v. map view v.items ≡ map saved_tree (map saved_view list.now)) }
    ensures errors { IfErr result (λ e. e ≡ SavedError.Memory) }
    ensures memory { OnErr result (list.now ≢ []) }
{
    let mut items = Vec::new(alloc);
    for saved in list {
        items.push(value_of(alloc, saved)?)?;
    }
    Ok(items)
}

// Whether the expiry is before the year 0.
pub(crate) fn is_early(saved: &Saved) -> bool
    ensures { result ≡ is_early (saved_view saved.now) }
{
    match saved.expires {
        SavedExpiry::AtUtc(moment) => moment.year() < 0,
        SavedExpiry::SessionEnd => false,
    }
}

// Converts a saved cookie whose expiry is not before the year 0.
fn value_of(alloc: Global, saved: &Saved) -> Result<Value, AllocError>
    requires { is_early (saved_view saved.now) ≡ false }
    ensures { IfOk result (λ v. view v ≡ saved_tree (saved_view saved.now)) }
{
    let domain = domain_value(alloc, &saved.domain)?;
    let expires = expiry_to_value(alloc, saved.expires)?;
    json!(in alloc; {
        "raw_cookie": saved.raw_cookie.as_str(),
        "path": [saved.path.as_str(), saved.from_attr],
        "domain": domain,
        "expires": expires
    })
}

// Converts a domain.
fn domain_value(alloc: Global, domain: &SavedDomain) -> Result<Value, AllocError>
    ensures { IfOk result (λ v. view v ≡ domain_tree (domain_view domain.now)) }
{
    match domain {
        SavedDomain::HostOnly(text) => json!(in alloc; {"HostOnly": text.as_str()}),
        SavedDomain::Suffix(text) => json!(in alloc; {"Suffix": text.as_str()}),
        SavedDomain::NotPresent => json!(in alloc; "NotPresent"),
        SavedDomain::Empty => json!(in alloc; "Empty"),
    }
}

// Converts an expiry that is not before the year 0.
fn expiry_to_value(alloc: Global, expires: SavedExpiry) -> Result<Value, AllocError>
    requires { expires_early (expiry_view expires) ≡ false }
    ensures { IfOk result (λ v. view v ≡ expiry_tree (option_map moment_text (expiry_view expires))) }
{
    match expires {
        SavedExpiry::AtUtc(moment) => {
            let text = moment::format_moment(alloc, moment)?;
            json!(in alloc; {"AtUtc": text.as_str()})
        }
        SavedExpiry::SessionEnd => json!(in alloc; "SessionEnd"),
    }
}
