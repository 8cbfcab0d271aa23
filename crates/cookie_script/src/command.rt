//! Parses the lines of a script.
ghost use Rattle.std.specs.Prelude.{◌≡◌, option_and_then, option_map, IfOk, IsSome, IsTrue, OnErr};
ghost use Rattle.cookie_parts.specs.Hosts.{url_at};
ghost use Rattle.cookie_forms.specs.MomentText.{parsed_moment};
ghost use Rattle.cookie_script.specs.Commands as Spec;
ghost use Rattle.cookie_script.specs.Commands.{command_of, first_word, lone_command, may_allocate, one_word, remove_command, set_command, verb_command, verb_may_allocate};
ghost use Rattle.cookie_script.specs.CommandViews.{command_view, words_view};

use cookie_store::saved::read_moment;
use cookie_store::utils::parse_url;
use jiff::civil::DateTime;
use std::alloc::{AllocError, Global};
use url::Url;

/// A command of a script.
#[derive(Drop)]
pub enum Command<'a> {
    /// `now TIME`: sets the current time.
    Now(DateTime),
    /// `set URL VALUE`: inserts the cookie of a `Set-Cookie` header value received from the URL.
    Set(Url, &'a str),
    /// `get URL`: writes the cookies for the URL.
    Get(Url),
    /// `list`: writes all cookies, expired ones included.
    ListRows,
    /// `remove DOMAIN PATH NAME`: removes the cookie with this domain, path and name.
    Remove(&'a str, &'a str, &'a str),
    /// `clear`: removes all cookies.
    Clear,
}

/// Parses a line. Returns `None` for a bad line.
pub fn read_command(alloc: Global, line: &[u8]) -> Result<Option<Command<'_>>, AllocError>
    ensures value { IfOk result (λ command. option_map command_view command ≡ command_of line.now) }
    ensures memory { OnErr result (IsTrue (may_allocate line.now)) }
{
    let Ok(text) = str::from_utf8(line) else {
        return Ok(None);
    };
    match first_word(text) {
        Some((verb, rest)) => verb_command(alloc, verb, rest),
        None => Ok(lone_command(text)),
    }
}

// Parses a command of one word.
fn lone_command<'a>(word: &str) -> Option<Command<'a>>
    ensures { option_map command_view result ≡ lone_command word.now }
{
    match word {
        "list" => Some(Command::ListRows),
        "clear" => Some(Command::Clear),
        _ => None,
    }
}

// Parses a command from its verb and what follows the space after it.
fn verb_command<'a>(
    alloc: Global,
    verb: &str,
    rest: &'a str,
) -> Result<Option<Command<'a>>, AllocError>
    ensures value { IfOk result (λ command. option_map command_view command ≡ verb_command (verb.now, rest.now)) }
    ensures memory { OnErr result (IsTrue (verb_may_allocate (verb.now, rest.now))) }
{
    match verb {
        "now" => Ok(now_command(rest)),
        "set" => set_command(alloc, rest),
        "get" => get_command(alloc, rest),
        "remove" => Ok(remove_command(rest)),
        _ => Ok(None),
    }
}

fn first_word(text: &str) -> Option<(&str, &str)>
    ensures { option_map words_view result ≡ first_word text.now }
{
    text.split_once(' ')
}

fn now_command<'a>(text: &str) -> Option<Command<'a>>
    ensures { option_map command_view result ≡ option_map Spec.Now (parsed_moment text.now) }
{
    match read_moment(text) {
        Some(moment) => Some(Command::Now(moment)),
        None => None,
    }
}

// The URL, a space, and the rest of the line as the header value.
fn set_command<'a>(alloc: Global, rest: &'a str) -> Result<Option<Command<'a>>, AllocError>
    ensures value { IfOk result (λ command. option_map command_view command ≡ option_and_then set_command (first_word rest.now)) }
    ensures memory { OnErr result (IsSome (first_word rest.now)) }
{
    let Some((url, text)) = first_word(rest) else {
        return Ok(None);
    };
    match parse_url(alloc, url)? {
        Some(url) => Ok(Some(Command::Set(url, text))),
        None => Ok(None),
    }
}

// The URL alone.
fn get_command<'a>(alloc: Global, rest: &str) -> Result<Option<Command<'a>>, AllocError>
    ensures value { IfOk result (λ command. option_map command_view command
        ≡ option_map Spec.Get (option_and_then url_at (one_word rest.now))) }
    ensures memory { OnErr result (IsSome (one_word rest.now)) }
{
    if rest.as_bytes().contains(&b' ') {
        return Ok(None);
    }
    match parse_url(alloc, rest)? {
        Some(url) => Ok(Some(Command::Get(url))),
        None => Ok(None),
    }
}

// The domain and the path, each followed by a space, and the name.
fn remove_command<'a>(rest: &'a str) -> Option<Command<'a>>
    ensures { option_map command_view result ≡ option_and_then remove_command (first_word rest.now) }
{
    let (domain, rest) = first_word(rest)?;
    let (path, name) = first_word(rest)?;
    Some(Command::Remove(domain, path, name))
}
