//! Reads lists of saved cookies in RON.
//!
//! A parser takes the input that is left, and returns what it read with the rest of the input.
ghost use Rattle.std.specs.Prelude.{◌≡◌, ◌≢◌, ◌⊎◌, ℕ, List, [], None, Some, Ok, Err, IfOk, IfErr, IsOk, length, map, option_map, suc, string_bytes};
ghost use Rattle.std.specs.Str.{chars};
ghost use Rattle.cookie_forms.specs.Saved.{saved_view, domain_view, expiry_view};
ghost use Rattle.cookie_forms.specs.FromJson.{parsed_expiry, with_parsed_expiry, all_with_parsed_expiry};
ghost use Rattle.cookie_ron.specs.Views.{entry_view};
ghost use Rattle.cookie_ron.specs.RonInput.{flag_at, argument_at, path_at, domain_at, expiry_text_at, first_fields_at, last_fields_at, cookie_at, cookies_at, list_at};
ghost use Rattle.cookie_ron.specs.ParsedRon.{RonParsesTo};

use crate::texts::text_at;
use crate::tokens::{close_at, is_at_end, name_at, token_at};
use cookie_forms::{Saved, SavedDomain, SavedError, SavedExpiry, read_moment};
use std::alloc::Global;

// A saved cookie whose expiry is not parsed yet.
#[derive(Drop)]
struct Entry {
    raw_cookie: String,
    path: String,
    from_attr: bool,
    domain: SavedDomain,
    expires: Option<String>,
}

/// Reads a list of saved cookies in RON.
///
/// Accepts what [`to_ron`](crate::to_ron) prints, also with other spaces, tabs and line ends, with
/// or without a comma after the last item in parentheses or brackets, and with the escapes `\"`,
/// `\\`, `\'`, `\n`, `\r`, `\t`, `\0`, `\x61` and `\u{61}` in strings:
///
/// ```text
/// [(raw_cookie:"\x61=1",path:("/",true),domain:Suffix("a.com"),
/// expires:AtUtc("2100-08-03T00:38:37.5Z"))]
/// ```
///
/// An expiry keeps its fraction of a second.
///
/// # Errors
///
/// - `Ron`: `text` is not such a list.
/// - `Moment`: it is, but an expiry is not a valid time.
/// - `Memory`: out of memory. May be returned in place of either of the others; only an empty
///   `text` is always `Ron`.
pub fn from_ron(alloc: Global, text: &str) -> Result<Vec<Saved>, SavedError>
    ensures list { IfOk result (λ list. RonParsesTo text.now (Ok (map saved_view list.items))) }
    ensures errors { IfErr result (λ e. (e ≡ SavedError.Memory) ⊎ RonParsesTo text.now (Err e)) }
    ensures empty { text.now ≡ [] → result ≡ Err SavedError.Ron }
{
    if text.is_empty() {
        return Err(SavedError::Ron);
    }
    with_parsed_expiries(alloc, list_at(alloc, text)?)
}

// Parses the expiry of each cookie.
#[tactic(auto, using(crate::proofs::EndsRead::end_steps))]
fn with_parsed_expiries(alloc: Global, entries: Vec<Entry>) -> Result<Vec<Saved>, SavedError>
    ensures read { IfOk result (λ list. all_with_parsed_expiry (map entry_view entries.items) ≡ Some (map saved_view list.items)) }
    ensures errors { IfErr result (λ e. (e ≡ SavedError.Memory)
        ⊎ ((e ≡ SavedError.Moment) × (all_with_parsed_expiry (map entry_view entries.items) ≡ None))) }
    ensures memory { result ≡ Err SavedError.Memory → entries.items ≢ [] }
{
    let mut list = Vec::new(alloc);
    for entry in entries {
        list.push(saved_from(entry)?)?;
    }
    Ok(list)
}

// Parses the expiry of a cookie.
fn saved_from(entry: Entry) -> Result<Saved, SavedError>
    ensures read { IfOk result (λ saved. with_parsed_expiry (entry_view entry) ≡ Some (saved_view saved)) }
    ensures errors { IfErr result (λ e. (e ≡ SavedError.Moment) × (with_parsed_expiry (entry_view entry) ≡ None)) }
{
    let expires = expiry_at(&entry.expires)?;
    Ok(Saved {
        raw_cookie: entry.raw_cookie,
        path: entry.path,
        from_attr: entry.from_attr,
        domain: entry.domain,
        expires,
    })
}

// Parses an expiry; `None` stands for a session cookie.
fn expiry_at(expires: &Option<String>) -> Result<SavedExpiry, SavedError>
    ensures read { IfOk result (λ expiry. parsed_expiry (option_map string_bytes expires.now) ≡ Some (expiry_view expiry)) }
    ensures errors { IfErr result (λ e. (e ≡ SavedError.Moment) × (parsed_expiry (option_map string_bytes expires.now) ≡ None)) }
{
    match expires {
        Some(text) => Ok(SavedExpiry::AtUtc(read_moment(text).ok_or(SavedError::Moment)?)),
        None => Ok(SavedExpiry::SessionEnd),
    }
}

// Reads a whole list, up to the end of the input.
#[tactic(auto, unfolding(crate::specs::RonInput::list_at))]
fn list_at(alloc: Global, input: &str) -> Result<Vec<Entry>, SavedError>
    ensures read { IfOk result (λ list. list_at (chars input.now) ≡ Some (map entry_view list.items)) }
    ensures errors { IfErr result (λ e. (e ≡ SavedError.Memory)
        ⊎ ((e ≡ SavedError.Ron) × (list_at (chars input.now) ≡ None))) }
    ensures memory { list_at (chars input.now) ≡ Some [] → IsOk result }
{
    let (entries, rest) = cookies_at(alloc, token_at("[", input)?)?;
    if is_at_end(rest) {
        Ok(entries)
    } else {
        Err(SavedError::Ron)
    }
}

// Reads the cookies of a list, up to its closing bracket.
fn cookies_at(alloc: Global, input: &str) -> Result<(Vec<Entry>, &str), SavedError>
    ensures read { IfOk result (λ p. cookies_at (suc (length (chars input.now))) (chars input.now) ≡ Some (map entry_view p.0.items, chars p.1.now)) }
    ensures errors { IfErr result (λ e. (e ≡ SavedError.Memory)
        ⊎ ((e ≡ SavedError.Ron) × (cookies_at (suc (length (chars input.now))) (chars input.now) ≡ None))) }
    ensures memory { (rest : List ℕ) → cookies_at (suc (length (chars input.now))) (chars input.now) ≡ Some ([], rest) → IsOk result }
{
    let mut entries = Vec::new(alloc);
    let mut rest = input;
    loop {
        if let Ok(behind) = token_at("]", rest) {
            return Ok((entries, behind));
        }
        let (entry, behind) = cookie_at(alloc, rest)?;
        entries.push(entry)?;
        match token_at(",", behind) {
            Ok(next) => rest = next,
            Err(_) => return Ok((entries, token_at("]", behind)?)),
        }
    }
}

// Reads a saved cookie.
#[tactic(auto, unfolding(crate::specs::RonInput::cookie_at))]
fn cookie_at(alloc: Global, input: &str) -> Result<(Entry, &str), SavedError>
    ensures read { IfOk result (λ p. cookie_at (chars input.now) ≡ Some (entry_view p.0, chars p.1.now)) }
    ensures errors { IfErr result (λ e. (e ≡ SavedError.Memory)
        ⊎ ((e ≡ SavedError.Ron) × (cookie_at (chars input.now) ≡ None))) }
{
    let (raw_cookie, path, from_attr, rest) = first_fields_at(alloc, token_at("(", input)?)?;
    let (domain, expires, rest) = last_fields_at(alloc, token_at(",", rest)?)?;
    let rest = close_at(")", rest)?;
    let entry = Entry {
        raw_cookie,
        path,
        from_attr,
        domain,
        expires,
    };
    Ok((entry, rest))
}

// Reads the fields `raw_cookie` and `path`.
#[tactic(auto, unfolding(crate::specs::RonInput::first_fields_at))]
fn first_fields_at(alloc: Global, input: &str) -> Result<(String, String, bool, &str), SavedError>
    ensures read { IfOk result (λ p. first_fields_at (chars input.now) ≡ Some ((string_bytes p.0, (string_bytes p.1, p.2)), chars p.3.now)) }
    ensures errors { IfErr result (λ e. (e ≡ SavedError.Memory)
        ⊎ ((e ≡ SavedError.Ron) × (first_fields_at (chars input.now) ≡ None))) }
{
    let (raw_cookie, rest) = text_at(alloc, name_at("raw_cookie", input)?)?;
    let second = token_at(",", rest)?;
    let (path, from_attr, rest) = path_at(alloc, name_at("path", second)?)?;
    Ok((raw_cookie, path, from_attr, rest))
}

// Reads the fields `domain` and `expires`.
#[tactic(auto, unfolding(crate::specs::RonInput::last_fields_at))]
fn last_fields_at(
    alloc: Global,
    input: &str,
) -> Result<(SavedDomain, Option<String>, &str), SavedError>
    ensures read { IfOk result (λ p. last_fields_at (chars input.now) ≡ Some ((domain_view p.0, option_map string_bytes p.1), chars p.2.now)) }
    ensures errors { IfErr result (λ e. (e ≡ SavedError.Memory)
        ⊎ ((e ≡ SavedError.Ron) × (last_fields_at (chars input.now) ≡ None))) }
{
    let (domain, rest) = domain_at(alloc, name_at("domain", input)?)?;
    let second = token_at(",", rest)?;
    let (expires, rest) = expiry_text_at(alloc, name_at("expires", second)?)?;
    Ok((domain, expires, rest))
}

// Reads a path, and whether a Path attribute set it.
#[tactic(auto, unfolding(crate::specs::RonInput::path_at))]
fn path_at(alloc: Global, input: &str) -> Result<(String, bool, &str), SavedError>
    ensures read { IfOk result (λ p. path_at (chars input.now) ≡ Some ((string_bytes p.0, p.1), chars p.2.now)) }
    ensures errors { IfErr result (λ e. (e ≡ SavedError.Memory)
        ⊎ ((e ≡ SavedError.Ron) × (path_at (chars input.now) ≡ None))) }
{
    let (path, rest) = text_at(alloc, token_at("(", input)?)?;
    let (from_attr, rest) = flag_at(token_at(",", rest)?)?;
    Ok((path, from_attr, close_at(")", rest)?))
}

// Reads `true` or `false`.
#[tactic(auto, unfolding(crate::specs::RonInput::flag_at))]
fn flag_at(input: &str) -> Result<(bool, &str), SavedError>
    ensures read { IfOk result (λ p. flag_at (chars input.now) ≡ Some (p.0, chars p.1.now)) }
    ensures errors { IfErr result (λ e. (e ≡ SavedError.Ron) × (flag_at (chars input.now) ≡ None)) }
{
    match token_at("true", input) {
        Ok(rest) => Ok((true, rest)),
        Err(_) => Ok((false, token_at("false", input)?)),
    }
}

// Reads a domain.
#[tactic(auto, unfolding(crate::specs::RonInput::domain_at))]
fn domain_at(alloc: Global, input: &str) -> Result<(SavedDomain, &str), SavedError>
    ensures read { IfOk result (λ p. domain_at (chars input.now) ≡ Some (domain_view p.0, chars p.1.now)) }
    ensures errors { IfErr result (λ e. (e ≡ SavedError.Memory)
        ⊎ ((e ≡ SavedError.Ron) × (domain_at (chars input.now) ≡ None))) }
{
    if let Ok(rest) = token_at("HostOnly", input) {
        let (text, rest) = argument_at(alloc, rest)?;
        return Ok((SavedDomain::HostOnly(text), rest));
    }
    if let Ok(rest) = token_at("Suffix", input) {
        let (text, rest) = argument_at(alloc, rest)?;
        return Ok((SavedDomain::Suffix(text), rest));
    }
    match token_at("NotPresent", input) {
        Ok(rest) => Ok((SavedDomain::NotPresent, rest)),
        Err(_) => Ok((SavedDomain::Empty, token_at("Empty", input)?)),
    }
}

// Reads an expiry as a string, not parsed yet; `None` for `SessionEnd`.
#[tactic(auto, unfolding(crate::specs::RonInput::expiry_text_at))]
fn expiry_text_at(alloc: Global, input: &str) -> Result<(Option<String>, &str), SavedError>
    ensures read { IfOk result (λ p. expiry_text_at (chars input.now) ≡ Some (option_map string_bytes p.0, chars p.1.now)) }
    ensures errors { IfErr result (λ e. (e ≡ SavedError.Memory)
        ⊎ ((e ≡ SavedError.Ron) × (expiry_text_at (chars input.now) ≡ None))) }
{
    match token_at("AtUtc", input) {
        Ok(rest) => {
            let (text, rest) = argument_at(alloc, rest)?;
            Ok((Some(text), rest))
        }
        Err(_) => Ok((None, token_at("SessionEnd", input)?)),
    }
}

// Reads a string in parentheses.
#[tactic(auto, unfolding(crate::specs::RonInput::argument_at))]
fn argument_at(alloc: Global, input: &str) -> Result<(String, &str), SavedError>
    ensures read { IfOk result (λ p. argument_at (chars input.now) ≡ Some (string_bytes p.0, chars p.1.now)) }
    ensures errors { IfErr result (λ e. (e ≡ SavedError.Memory)
        ⊎ ((e ≡ SavedError.Ron) × (argument_at (chars input.now) ≡ None))) }
{
    let (text, rest) = text_at(alloc, token_at("(", input)?)?;
    Ok((text, close_at(")", rest)?))
}
