//! Formats saved cookies and lists of them as JSON.
ghost use Rattle.std.specs.Prelude.{◌≡◌, ◌⊎◌, Err, false, IfErr, IfOk, map, Ok, Some, string_bytes};
ghost use Rattle.std.specs.List.{list_any};
ghost use Rattle.serde_json.specs.Data.{Data};
ghost use Rattle.serde_json.specs.Read.{read};
ghost use Rattle.serde_json.specs.Written.{compact_text};
ghost use Rattle.cookie_forms.specs.Saved.{saved_view};
ghost use Rattle.cookie_forms.specs.JsonText.{pretty_text};
ghost use Rattle.cookie_forms.specs.ToJson.{is_early, list_tree, list_written, saved_tree, written};

use crate::tokens::{write_list, write_saved};
use crate::value_writer::{any_early, is_early};
use crate::{Saved, SavedError};
use json::{Pretty, Writer};
use std::alloc::{AllocError, Global};

// The bytes of a line that are allocated at first: enough for most cookies.
const LINE_CAPACITY: usize = 256;

/// Formats a list as JSON, one line for each item and member, without a line feed at the end.
///
/// Each level is indented by two spaces.
///
/// # Errors
///
/// - `Moment`: an expiry is before the year 0. Tested before anything is allocated.
/// - `Memory`: out of memory.
pub fn list_to_text(alloc: Global, list: &[Saved]) -> Result<String, SavedError>
    ensures text { IfOk result (λ text. (tree : Data) × (list_written (map saved_view list.now) ≡ Ok tree)
        × (string_bytes text ≡ pretty_text tree) × (read (string_bytes text) ≡ Some tree)) }
    ensures errors { IfErr result (λ e. (e ≡ SavedError.Memory) ⊎ (list_written (map saved_view list.now) ≡ Err e)) }
    ensures early { (e : SavedError) → list_written (map saved_view list.now) ≡ Err e → result ≡ Err e }
{
    if any_early(list) {
        return Err(SavedError::Moment);
    }
    Ok(format_list(alloc, list)?)
}

/// Formats a list in which no expiry is before the year 0, as [`list_to_text`] does.
pub fn format_list(alloc: Global, list: &[Saved]) -> Result<String, AllocError>
    requires { list_any is_early (map saved_view list.now) ≡ false }
    ensures text { IfOk result (λ text. (string_bytes text ≡ pretty_text (list_tree (map saved_view list.now)))
        × (read (string_bytes text) ≡ Some (list_tree (map saved_view list.now)))) }
{
    let mut out = Pretty::new(alloc);
    write_list(list, &mut out)?;
    Ok(String::from_utf8(out.into_inner()).unwrap())
}

/// Formats a saved cookie as JSON without spaces, on one line.
///
/// # Errors
///
/// - `Moment`: the expiry is before the year 0. Tested before anything is allocated.
/// - `Memory`: out of memory.
pub fn to_text(alloc: Global, saved: &Saved) -> Result<String, SavedError>
    ensures text { IfOk result (λ text. (tree : Data) × (written (saved_view saved.now) ≡ Ok tree)
        × (string_bytes text ≡ compact_text tree) × (read (string_bytes text) ≡ Some tree)) }
    ensures errors { IfErr result (λ e. (e ≡ SavedError.Memory) ⊎ (written (saved_view saved.now) ≡ Err e)) }
    ensures early { (e : SavedError) → written (saved_view saved.now) ≡ Err e → result ≡ Err e }
{
    if is_early(saved) {
        return Err(SavedError::Moment);
    }
    Ok(format_saved(alloc, saved)?)
}

/// Formats a saved cookie whose expiry is not before the year 0, as [`to_text`] does.
pub fn format_saved(alloc: Global, saved: &Saved) -> Result<String, AllocError>
    requires { is_early (saved_view saved.now) ≡ false }
    ensures text { IfOk result (λ text. (string_bytes text ≡ compact_text (saved_tree (saved_view saved.now)))
        × (read (string_bytes text) ≡ Some (saved_tree (saved_view saved.now)))) }
{
    let mut out = Writer::new(Vec::with_capacity(alloc, LINE_CAPACITY)?);
    write_saved(saved, &mut out)?;
    Ok(String::from_utf8(out.into_inner()).unwrap())
}
