//! Files of public suffix lists.
ghost use Rattle.std.specs.Prelude.{◌≡◌, ℕ, IfOk, Result};
ghost use Rattle.std.specs.List.{list_any};
ghost use Rattle.cookie_words.specs.Strings.{pieces};
ghost use Rattle.cookie_psl.specs.ParsedLists.{ParsesList};
ghost use Rattle.cookie_psl.specs.ListFormat.{read_part};
ghost use Rattle.cookie_psl.specs.Rules.{RuleList, SameRules};
ghost use Rattle.cookie_inputs.specs.Suffixes.{file_rules_of, foreign_line, has_rule, is_foreign, is_foreign_byte, suffixes_from, unless_foreign, with_default, ParsesLines, ParsesSuffixes};

use cookie_psl::{List, ListError};
use std::alloc::{AllocError, Global};
use std::fmt;

/// The error of reading a file of a public suffix list.
#[derive(Clone, Copy, Debug, PartialEq, Eq)]
pub enum SuffixesError {
    /// A line is not a valid rule ([`ListError::BadRule`]), or its rule has one of the bytes
    /// `/ < { " : @ =`.
    BadRule {
        /// The number of the first malformed line, counted from 1.
        line: usize,
    },
    /// No line has a rule.
    NoRules,
    /// Out of memory.
    Memory,
}

/// Prints a description. A width has no effect.
impl fmt::Display for SuffixesError {
    ghost use Rattle.std.specs.Prelude.{Some};
    ghost use Rattle.cookie_inputs.specs.Errors.{suffixes_error_text};

    ghost output = { λ error. Some (suffixes_error_text error) };

    fn fmt<W: fmt::Write>(&self, f: &mut fmt::Formatter<W>) -> fmt::Result {
        match self {
            SuffixesError::BadRule { line } => write!(f, "a bad rule in line {line}"),
            SuffixesError::NoRules => f.write_str("no rules"),
            SuffixesError::Memory => f.write_str("out of memory"),
        }
    }
}

impl std::error::Error for SuffixesError {}

/// Parses the public suffix list of a file, and adds the rule `*` ([`List::with_default_rule`])
/// unless `only_listed` is true.
///
/// A path, an HTML page, a JSON document or an empty file is an error: as a list it would protect
/// nothing.
///
/// # Errors
///
/// - `NoRules`: each line is empty or a comment.
/// - `BadRule`: a line is malformed.
/// - `Memory`: out of memory. May be returned instead of `BadRule`.
pub fn parse_suffixes(alloc: Global, text: &str, only_listed: bool) -> Result<List, SuffixesError>
    ensures { ParsesSuffixes only_listed result (suffixes_from text.now) }
{
    if !has_rules(text) {
        return Err(SuffixesError::NoRules);
    }
    let list = parse_lines(alloc, text)?;
    match with_default(list, only_listed) {
        Ok(list) => Ok(list),
        Err(_) => Err(SuffixesError::Memory),
    }
}

// Adds the rule `*`, unless only listed suffixes are public.
fn with_default(list: List, only_listed: bool) -> Result<List, AllocError>
    ensures { IfOk result (λ more. SameRules more (with_default only_listed list)) }
{
    if only_listed {
        Ok(list)
    } else {
        list.with_default_rule()
    }
}

// Parses the rules of all lines.
fn parse_lines(alloc: Global, text: &str) -> Result<List, SuffixesError>
    ensures { ParsesLines result (file_rules_of 1 (pieces 10 text.now)) }
{
    unless_foreign(List::from_text(alloc, text), foreign_line(text))
}

// Returns the list, or the first error of it and of the foreign line.
fn unless_foreign(
    read: Result<List, ListError>,
    foreign: Option<usize>,
) -> Result<List, SuffixesError>
    ensures { (expected : Result RuleList ℕ) → ParsesList read expected → ParsesLines result (unless_foreign foreign expected) }
{
    match (read, foreign) {
        (Ok(list), None) => Ok(list),
        (Ok(_), Some(line)) => Err(SuffixesError::BadRule { line }),
        (Err(ListError::BadRule { line }), None) => Err(SuffixesError::BadRule { line }),
        (Err(ListError::BadRule { line }), Some(foreign)) => Err(SuffixesError::BadRule {
            line: line.min(foreign),
        }),
        (Err(ListError::Memory), _) => Err(SuffixesError::Memory),
    }
}

// The number of the first line whose rule has a byte of a path, HTML or JSON.
fn foreign_line(text: &str) -> Option<usize>
    ensures { result ≡ foreign_line (pieces 10 text.now) }
{
    match text.split('\n').position(is_foreign) {
        Some(index) => Some(index + 1),
        None => None,
    }
}

// Whether a line has a rule.
fn has_rules(text: &str) -> bool
    ensures { result ≡ list_any has_rule (pieces 10 text.now) }
{
    text.split('\n').any(has_rule)
}

// Whether the line has a rule: it is neither empty nor a comment.
fn has_rule(line: &str) -> bool
    ensures { result ≡ has_rule line.now }
{
    let rule = rule_in(line);
    !rule.is_empty() && !rule.starts_with("//")
}

// Whether the line has a rule with a byte of a path, HTML or JSON.
fn is_foreign(line: &str) -> bool
    ensures { result ≡ is_foreign line.now }
{
    has_rule(line) && has_foreign_byte(rule_in(line).as_bytes())
}

// Whether there is one of the bytes `/ < { " : @ =`.
fn has_foreign_byte(rule: &[u8]) -> bool
    ensures { result ≡ list_any is_foreign_byte rule.now }
{
    rule.iter().any(|byte| matches!(*byte, b'/' | b'<' | b'{' | b'"' | b':' | b'@' | b'='))
}

// What precedes the first white space of a line.
fn rule_in(line: &str) -> &str
    ensures { result.now ≡ read_part line.now }
{
    match line.split_once(char::is_whitespace) {
        Some((part, _)) => part,
        None => line,
    }
}
