//! Parses saved cookies from JSON.
ghost use Rattle.std.specs.Prelude.{◌≡◌, ◌≢◌, ◌⊎◌, ◌≤◌, [], ◌∷◌, ℕ, Err, IfErr, IfOk, IfSome, IsOk, map, MatchOption, None, Ok, OnErr, OnSome, option_map, Some};
ghost use Rattle.json.specs.Reads.{token_of};
ghost use Rattle.json.specs.Token.{begin_object};
ghost use Rattle.serde_json.specs.Data.{Data, Members, put, string};
ghost use Rattle.serde_json.specs.Read.{read};
ghost use Rattle.serde_json.specs.View.{view};
ghost use Rattle.cookie_forms.specs.Borrowed.{borrowed_domain, borrowed_parts};
ghost use Rattle.cookie_forms.specs.FromJson.{list_at, list_in, saved_at, saved_in};
ghost use Rattle.cookie_forms.specs.Saved.{saved_view};
ghost use Rattle.cookie_forms.specs.Shape.{HasShape};
ghost use Rattle.cookie_forms.specs.ToJson.{domain_tree, expiry_tree, path_tree, tagged_tree};
ghost use Rattle.cookie_forms.specs.Tokens.{AreFound, BeginWithSaved, BeginWithSavedItem, ReadsTo};

use crate::value_reader::{
    BorrowedDomain, BorrowedParts, copied, domain_named, domain_tagged, expiry_at, expiry_named,
    expiry_tagged,
};
use crate::{Saved, SavedError, from_value, list_from_value};
use json::{Reader, Scratch, Token};
use serde_json::Value;
use std::alloc::{AllocError, Global};

// The members of a saved cookie read so far. Of a member that occurs twice, the last.
#[derive(Clone, Copy)]
struct FoundMembers<'a> {
    raw_cookie: Option<&'a str>,
    path: Option<(&'a str, bool)>,
    domain: Option<BorrowedDomain<'a>>,
    expires: Option<Option<&'a str>>,
}

/// Parses a saved cookie from JSON: an object as [`from_value`] reads.
///
/// # Errors
///
/// - `Json`: `text` is not JSON.
/// - `Shape` or `Moment`: an error of [`from_value`].
/// - `Memory`: out of memory. It never happens for an empty string.
pub fn from_text(alloc: Global, text: &str) -> Result<Saved, SavedError>
    ensures saved { IfOk result (λ saved. saved_in text.now ≡ Ok (saved_view saved)) }
    ensures errors { IfErr result (λ e. (saved_in text.now ≡ Err e) ⊎ ((e ≡ SavedError.Memory) × (text.now ≢ []))) }
{
    if let Some(saved) = saved_from_tokens(alloc, text)? {
        return Ok(saved);
    }
    saved_of_value(alloc, json_value(alloc, text))
}

/// Parses a list of saved cookies from JSON: an array as [`list_from_value`] reads.
///
/// # Errors
///
/// - `Json`: `text` is not JSON.
/// - `Shape` or `Moment`: an error of [`list_from_value`].
/// - `Memory`: out of memory. It never happens for an empty string.
pub fn list_from_text(alloc: Global, text: &str) -> Result<Vec<Saved>, SavedError>
    ensures saved { IfOk result (λ list. list_in text.now ≡ Ok (map saved_view list.items)) }
    ensures errors { IfErr result (λ e. (list_in text.now ≡ Err e) ⊎ ((e ≡ SavedError.Memory) × (text.now ≢ []))) }
{
    if let Some(list) = list_from_tokens(alloc, text)? {
        return Ok(list);
    }
    list_of_value(alloc, json_value(alloc, text))
}

// Parses a JSON value, or returns `Json` if `text` is not JSON.
fn json_value(alloc: Global, text: &str) -> Result<Value, SavedError>
    ensures tree { IfOk result (λ tree. read text.now ≡ Some (view tree)) }
    ensures errors { IfErr result (λ e. ((e ≡ SavedError.Json) × (read text.now ≡ None))
        ⊎ ((e ≡ SavedError.Memory) × (text.now ≢ []))) }
{
    match Value::from_str(alloc, text) {
        Ok(tree) => Ok(tree),
        Err(error) if error.is_memory() => Err(SavedError::Memory),
        Err(_) => Err(SavedError::Json),
    }
}

// Reads a saved cookie from the JSON value that was parsed, or returns the error of parsing it.
fn saved_of_value(alloc: Global, parsed: Result<Value, SavedError>) -> Result<Saved, SavedError>
    ensures saved { (tree : Value) → parsed ≡ Ok tree → IfOk result (λ saved. saved_at (view tree) ≡ Ok (saved_view saved)) }
    ensures errors { (tree : Value) → parsed ≡ Ok tree
        → IfErr result (λ e. (e ≡ SavedError.Memory) ⊎ (saved_at (view tree) ≡ Err e)) }
    ensures unparsed { (e : SavedError) → parsed ≡ Err e → result ≡ Err e }
    ensures early { (tree : Value) (e : SavedError) → parsed ≡ Ok tree → saved_at (view tree) ≡ Err e → result ≡ Err e }
{
    from_value(alloc, &parsed?)
}

// Reads a list of saved cookies from the JSON value that was parsed, or returns the error of
// parsing it.
fn list_of_value(alloc: Global, parsed: Result<Value, SavedError>) -> Result<Vec<Saved>, SavedError>
    ensures saved { (tree : Value) → parsed ≡ Ok tree → IfOk result (λ list. list_at (view tree) ≡ Ok (map saved_view list.items)) }
    ensures errors { (tree : Value) → parsed ≡ Ok tree
        → IfErr result (λ e. (e ≡ SavedError.Memory) ⊎ (list_at (view tree) ≡ Err e)) }
    ensures unparsed { (e : SavedError) → parsed ≡ Err e → result ≡ Err e }
    ensures early { (tree : Value) (e : SavedError) → parsed ≡ Ok tree → list_at (view tree) ≡ Err e → result ≡ Err e }
    ensures memory { (tree : Value) → parsed ≡ Ok tree → list_at (view tree) ≡ Ok [] → IsOk result }
{
    list_from_value(alloc, &parsed?)
}

// Parses a saved cookie without building its JSON value. `None` if `text` is anything but an object
// of the four members with a valid expiry.
fn saved_from_tokens(alloc: Global, text: &str) -> Result<Option<Saved>, AllocError>
    ensures saved { IfOk result (λ found. IfSome found (λ saved. saved_in text.now ≡ Ok (saved_view saved))) }
    ensures memory { OnErr result (text.now ≢ []) }
{
    let mut scratch = Scratch::new(alloc);
    let mut reader = Reader::new(text, &mut scratch)?;
    let saved = read_saved(alloc, &mut reader)?;
    if next_token(&mut reader).is_some() {
        return Ok(None);
    }
    Ok(saved)
}

// Parses a list of saved cookies without building its JSON value. `None` if `text` is anything but
// an array of saved cookies, each with a valid expiry.
fn list_from_tokens(alloc: Global, text: &str) -> Result<Option<Vec<Saved>>, AllocError>
    ensures saved { IfOk result (λ found. IfSome found (λ list. list_in text.now ≡ Ok (map saved_view list.items))) }
    ensures memory { OnErr result (text.now ≢ []) }
{
    let mut scratch = Scratch::new(alloc);
    let mut reader = Reader::new(text, &mut scratch)?;
    let list = read_list(alloc, &mut reader)?;
    if next_token(&mut reader).is_some() {
        return Ok(None);
    }
    Ok(list)
}

// Reads an array of saved cookies, each with a valid expiry, or returns `None`.
fn read_list(alloc: Global, reader: &mut Reader<'_>) -> Result<Option<Vec<Saved>>, AllocError>
    ensures saved { IfOk result (λ found. IfSome found (λ list. (depth : ℕ) → 3 ≤ depth
        → (tree : Data) × ReadsTo depth reader.old tree reader.new × (list_at tree ≡ Ok (map saved_view list.items)))) }
    ensures memory { OnErr result (BeginWithSavedItem reader.old) }
{
    let Some(Token::BeginArray) = next_token(reader) else {
        return Ok(None);
    };
    let mut list = Vec::new(alloc);
    'items: while !reader.take_end_array() {
        match read_saved(alloc, reader)? {
            Some(saved) => list.push(saved)?,
            None => return Ok(None),
        }
    }
    Ok(Some(list))
}

// Reads a saved cookie with a valid expiry and copies its parts, or returns `None`.
fn read_saved(alloc: Global, reader: &mut Reader<'_>) -> Result<Option<Saved>, AllocError>
    ensures saved { IfOk result (λ found. IfSome found (λ saved. (depth : ℕ) → 2 ≤ depth
        → (tree : Data) × ReadsTo depth reader.old tree reader.new × (saved_at tree ≡ Ok (saved_view saved)))) }
    ensures memory { OnErr result (BeginWithSaved reader.old) }
{
    let Some(parts) = read_parts(reader) else {
        return Ok(None);
    };
    match expiry_at(parts.expires) {
        Some(expires) => Ok(Some(copied(alloc, parts, expires)?)),
        None => Ok(None),
    }
}

// Reads an object of the four members, or returns `None`. The expiry may be any string.
fn read_parts<'a>(reader: &mut Reader<'a>) -> Option<BorrowedParts<'a>>
    ensures { IfSome result (λ parts. (depth : ℕ) → 2 ≤ depth
        → (tree : Data) × ReadsTo depth reader.old tree reader.new × HasShape tree (borrowed_parts parts)) }
{
    let Token::BeginObject = next_token(reader)? else {
        return None;
    };
    let mut found = FoundMembers {
        raw_cookie: None,
        path: None,
        domain: None,
        expires: None,
    };
    'members: while let Some(name) = reader.next_key().ok()? {
        read_member(reader, name, &mut found)?;
    }
    let (path, from_attr) = found.path?;
    Some(BorrowedParts {
        raw_cookie: found.raw_cookie?,
        path,
        from_attr,
        domain: found.domain?,
        expires: found.expires?,
    })
}

// Reads the value of the member `name` into `found`, or returns `None`.
fn read_member<'a>(reader: &mut Reader<'a>, name: &str, found: &mut FoundMembers<'a>) -> Option<()>
    ensures { OnSome result ((depth : ℕ) → 1 ≤ depth → (tree : Data) × ReadsTo depth reader.old tree reader.new
        × ((ms : Members) → AreFound ms found.old → AreFound (put name.now tree ms) found.new)) }
{
    match name {
        "raw_cookie" => found.raw_cookie = Some(read_string(reader)?),
        "path" => found.path = Some(read_path(reader)?),
        "domain" => found.domain = Some(read_domain(reader)?),
        "expires" => found.expires = Some(read_expiry(reader)?),
        _ => return None,
    }
    Some(())
}

// Reads a string.
fn read_string<'a>(reader: &mut Reader<'a>) -> Option<&'a str>
    ensures { IfSome result (λ text. (depth : ℕ) → ReadsTo depth reader.old (string text.now) reader.new) }
{
    match next_token(reader)? {
        Token::String(text) => Some(text),
        _ => None,
    }
}

// Reads a path, and whether a Path attribute set it: `["/", true]`.
fn read_path<'a>(reader: &mut Reader<'a>) -> Option<(&'a str, bool)>
    ensures { IfSome result (λ p. (depth : ℕ) → 1 ≤ depth → ReadsTo depth reader.old (path_tree p.0.now p.1) reader.new) }
{
    let Token::BeginArray = next_token(reader)? else {
        return None;
    };
    let Token::String(path) = next_token(reader)? else {
        return None;
    };
    let Token::Bool(from_attr) = next_token(reader)? else {
        return None;
    };
    let Token::EndArray = next_token(reader)? else {
        return None;
    };
    Some((path, from_attr))
}

// Reads a domain: `"NotPresent"`, `"Empty"`, or `{"HostOnly": ".."}` or `{"Suffix": ".."}`.
fn read_domain<'a>(reader: &mut Reader<'a>) -> Option<BorrowedDomain<'a>>
    ensures { IfSome result (λ domain. (depth : ℕ) → 1 ≤ depth
        → ReadsTo depth reader.old (domain_tree (borrowed_domain domain)) reader.new) }
{
    match next_token(reader)? {
        Token::String(name) => domain_named(name),
        Token::BeginObject => {
            let (tag, text) = read_tagged(reader)?;
            domain_tagged(tag, text)
        }
        _ => None,
    }
}

// Reads an expiry, not parsed yet: `"SessionEnd"` or `{"AtUtc": ".."}`.
fn read_expiry<'a>(reader: &mut Reader<'a>) -> Option<Option<&'a str>>
    ensures { IfSome result (λ expires. (depth : ℕ) → 1 ≤ depth
        → ReadsTo depth reader.old (expiry_tree (option_map (λ text. text.now) expires)) reader.new) }
{
    match next_token(reader)? {
        Token::String(name) => expiry_named(name),
        Token::BeginObject => {
            let (tag, text) = read_tagged(reader)?;
            expiry_tagged(tag, text)
        }
        _ => None,
    }
}

// The name and string of an object's only member; its opening brace has been read.
fn read_tagged<'a>(reader: &mut Reader<'a>) -> Option<(&'a str, &'a str)>
    ensures { IfSome result (λ p. (depth : ℕ) → 1 ≤ depth
        → ReadsTo depth (begin_object ∷ reader.old) (tagged_tree p.0.now p.1.now) reader.new) }
{
    let Token::Key(tag) = next_token(reader)? else {
        return None;
    };
    let Token::String(text) = next_token(reader)? else {
        return None;
    };
    let Token::EndObject = next_token(reader)? else {
        return None;
    };
    Some((tag, text))
}

// The next token. `Reader::next` is inlined wherever it is called, and is long.
#[inline(never)]
fn next_token<'a>(reader: &mut Reader<'a>) -> Option<Token<'a>>
    ensures { MatchOption result ((reader.old ≡ []) × (reader.new ≡ [])) (λ t. reader.old ≡ token_of t ∷ reader.new) }
{
    reader.next()
}
