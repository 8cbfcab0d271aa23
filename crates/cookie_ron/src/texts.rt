//! Strings of RON and their escapes.
//!
//! A parser takes the input that is left, and returns what it read with the rest of the input.
ghost use Rattle.std.specs.Prelude.{◌≡◌, ◌⊎◌, ◌≤◌, ◌==◌, ◌||◌, ◌++◌, ◌∷◌, ℕ, List, [], length, None, Some, IfOk, IfErr, MatchOption, option_map, string_bytes};
ghost use Rattle.std.specs.List.{position};
ghost use Rattle.std.specs.Str.{byte, chars, encode_utf8_all, NonePass};
ghost use Rattle.cookie_ron.specs.Grammar.{escaped_by};
ghost use Rattle.cookie_ron.specs.RonInput.{hex_value, byte_at, code_of, in_braces, code_at, escape_at, char_at, text_at};

use crate::tokens::{behind, token_at};
use cookie_forms::SavedError;
use std::alloc::{AllocError, Global};

// The first character of the input.
fn first_of(input: &str) -> Option<(char, &str)>
    ensures { MatchOption result (chars input.now ≡ []) (λ p. chars input.now ≡ p.0 ∷ chars p.1.now) }
{
    let mut rest = input.chars();
    let first = rest.next()?;
    Some((first, rest.as_str()))
}

// Converts hexadecimal digits to a number.
fn hex_value(digits: &[u8]) -> Option<u32>
    requires { length digits.now ≤ 6 }
    ensures { result ≡ hex_value digits.now }
{
    let mut value = 0;
    for digit in digits {
        value = value * 16 + char::from(*digit).to_digit(16)?;
    }
    Some(value)
}

// Reads the two hexadecimal digits of `\x61`.
fn byte_at(input: &str) -> Option<(char, &str)>
    ensures { option_map (λ p. (p.0, chars p.1.now)) result ≡ byte_at (chars input.now) }
{
    let (first, rest) = first_of(input)?;
    let (second, rest) = first_of(rest)?;
    let high = first.to_digit(16)?;
    let low = second.to_digit(16)?;
    let value = high * 16 + low;
    Some((char::from(value as u8), rest))
}

// Converts one to six hexadecimal digits to a character.
fn code_of(digits: &[u8]) -> Option<char>
    ensures { result ≡ code_of digits.now }
{
    if digits.is_empty() || digits.len() > 6 {
        return None;
    }
    char::from_u32(hex_value(digits)?)
}

// Splits the input at the first closing brace.
fn in_braces(input: &str) -> Option<(&str, &str)>
    ensures { option_map (λ p. (chars p.0.now, chars p.1.now)) result ≡ in_braces (chars input.now) }
{
    input.split_once('}')
}

// Reads the braces and digits of `\u{61}`.
fn code_at(input: &str) -> Option<(char, &str)>
    ensures { option_map (λ p. (p.0, chars p.1.now)) result ≡ code_at (chars input.now) }
{
    let (brace, rest) = first_of(input)?;
    if brace != '{' {
        return None;
    }
    let (digits, behind) = in_braces(rest)?;
    let code = code_of(digits.as_bytes())?;
    Some((code, behind))
}

// The character of a one-letter escape.
fn escaped_by(letter: char) -> Option<char>
    ensures { result ≡ escaped_by letter }
{
    match letter {
        '"' | '\\' | '\'' => Some(letter),
        'n' => Some('\n'),
        'r' => Some('\r'),
        't' => Some('\t'),
        '0' => Some('\0'),
        _ => None,
    }
}

// Reads an escape, after its backslash.
fn escape_at(input: &str) -> Option<(char, &str)>
    ensures { option_map (λ p. (p.0, chars p.1.now)) result ≡ escape_at (chars input.now) }
{
    let (letter, rest) = first_of(input)?;
    match letter {
        'x' => byte_at(rest),
        'u' => code_at(rest),
        _ => Some((escaped_by(letter)?, rest)),
    }
}

// Reads a character of a string; `None` at a quote, a malformed escape or the end of the input.
fn char_at(input: &str) -> Option<(char, &str)>
    ensures { option_map (λ p. (p.0, chars p.1.now)) result ≡ char_at (chars input.now) }
{
    let (first, rest) = first_of(input)?;
    match first {
        '\\' => escape_at(rest),
        '"' => None,
        _ => Some((first, rest)),
    }
}

// The index of the first quote or backslash.
fn run_end(input: &str) -> Option<usize>
    ensures { result ≡ position (λ c. (c == byte "\"") || (c == byte "\\")) input.now }
{
    input
        .as_bytes()
        .iter()
        .position(|byte| *byte == b'"' || *byte == b'\\')
}

// Splits the input before its first quote or backslash.
fn run_at(input: &str) -> (&str, &str)
    ensures { (cs : List ℕ) × (result.0.now ≡ encode_utf8_all cs) × (chars input.now ≡ cs ++ chars result.1.now)
        × NonePass (λ c. (c == byte "\"") || (c == byte "\\")) cs }
{
    let end = run_end(input).unwrap_or(input.len());
    input.split_at(end)
}

// Appends the input up to its first quote or backslash, and returns the rest.
fn push_run<'a>(text: &mut String, input: &'a str) -> Result<&'a str, AllocError>
    ensures { IfOk result (λ rest. (cs : List ℕ) × (string_bytes text.new ≡ string_bytes text.old ++ encode_utf8_all cs)
        × (chars input.now ≡ cs ++ chars rest.now) × NonePass (λ c. (c == byte "\"") || (c == byte "\\")) cs) }
{
    let (run, rest) = run_at(input);
    text.push_str(run)?;
    Ok(rest)
}

// Reads a quoted string.
#[tactic(auto, unfolding(crate::specs::RonInput::text_at))]
pub(crate) fn text_at(alloc: Global, input: &str) -> Result<(String, &str), SavedError>
    ensures read { IfOk result (λ p. text_at (chars input.now) ≡ Some (string_bytes p.0, chars p.1.now)) }
    ensures errors { IfErr result (λ e. (e ≡ SavedError.Memory)
        ⊎ ((e ≡ SavedError.Ron) × (text_at (chars input.now) ≡ None))) }
{
    let mut text = String::new(alloc);
    let first = token_at("\"", input)?;
    let mut rest = push_run(&mut text, first)?;
    loop {
        match char_at(rest) {
            Some((c, next)) => {
                text.push(c)?;
                rest = push_run(&mut text, next)?;
            }
            None => return Ok((text, behind("\"", rest)?)),
        }
    }
}
