//! Parsing the lines of a public suffix list.
ghost use Rattle.std.specs.Prelude.{◌≡◌};
ghost use Rattle.cookie_words.specs.Strings.{pieces};
ghost use Rattle.cookie_psl.specs.ParsedRules.{label_text, label_texts, marked_rule, rule_view, ParsesOrMemory, ParsesLine};
ghost use Rattle.cookie_psl.specs.ListFormat.{label_from, labels_from, line_rule, read_part, rule_from};

use idna::{Errors, domain_to_ascii};
use std::alloc::{AllocFailed, Global};

/// The most labels of a rule.
const MAX_LABELS: usize = 127;

/// The rule of a line.
#[derive(Drop)]
pub(crate) struct ParsedRule {
    /// Its labels from first to last; `None` is the label `*`.
    pub(crate) labels: Vec<Option<String>>,
    /// Whether it is an exception rule.
    pub(crate) is_exception: bool,
}

/// The error of parsing a line.
#[derive(Clone, Copy, Debug)]
pub(crate) enum LineError {
    /// The line is malformed.
    Bad,
    /// Out of memory.
    Memory,
}

impl From<Errors> for LineError {
    ghost use Rattle.cookie_psl.specs.ParsedRules.{label_error};

    ghost from_gives = { λ error fault. fault ≡ label_error error };

    fn from(error: Errors) -> LineError {
        match error {
            Errors::Invalid => LineError::Bad,
            Errors::OutOfMemory => LineError::Memory,
        }
    }
}

impl<T: Drop> From<AllocFailed<T>> for LineError {
    ghost use Rattle.cookie_psl.specs.declared.reading.LineError.TheVariants.{Memory};

    ghost from_gives = { λ _ fault. fault ≡ Memory };

    fn from(_error: AllocFailed<T>) -> LineError {
        LineError::Memory
    }
}

/// Parses a line and returns its rule, or `None` if it is empty or a comment.
#[tactic(auto, unfolding(crate::specs::ListFormat::line_rule))]
pub(crate) fn read_line(alloc: Global, line: &str) -> Result<Option<ParsedRule>, LineError>
    ensures { ParsesLine result (line_rule line.now) }
{
    let part = read_part(line);
    if part.is_empty() || part.starts_with("//") {
        return Ok(None);
    }
    Ok(Some(read_marked(alloc, part)?))
}

// Returns what precedes the first white space of a line.
fn read_part(line: &str) -> &str
    ensures { result.now ≡ read_part line.now }
{
    match line.split_once(char::is_whitespace) {
        Some((part, _)) => part,
        None => line,
    }
}

// Parses a rule; a leading `!` marks an exception.
fn read_marked(alloc: Global, part: &str) -> Result<ParsedRule, LineError>
    ensures { ParsesOrMemory rule_view result (marked_rule part.now) }
{
    match part.strip_prefix('!') {
        Some(text) => read_rule(alloc, text, true),
        None => read_rule(alloc, part, false),
    }
}

// Parses a rule without its mark `!`.
#[tactic(auto, unfolding(crate::specs::ListFormat::rule_from))]
fn read_rule(alloc: Global, text: &str, is_exception: bool) -> Result<ParsedRule, LineError>
    ensures { ParsesOrMemory rule_view result (rule_from is_exception text.now) }
{
    let labels = read_labels(alloc, text)?;
    if labels.len() > MAX_LABELS || is_exception && labels.len() == 1 {
        return Err(LineError::Bad);
    }
    Ok(ParsedRule {
        labels,
        is_exception,
    })
}

// Parses all labels of a rule.
fn read_labels(alloc: Global, text: &str) -> Result<Vec<Option<String>>, LineError>
    ensures { ParsesOrMemory label_texts result (labels_from (pieces 46 text.now)) }
{
    let mut labels = Vec::new(alloc);
    for label in text.split('.') {
        labels.push(read_label(alloc, label)?)?;
    }
    Ok(labels)
}

// Converts a label to ASCII. `None` is the label `*`.
#[tactic(auto, unfolding(crate::specs::ListFormat::label_from))]
fn read_label(alloc: Global, label: &str) -> Result<Option<String>, LineError>
    ensures { ParsesOrMemory label_text result (label_from label.now) }
{
    if label == "*" {
        return Ok(None);
    }
    let ascii = domain_to_ascii(alloc, label)?;
    if ascii.is_empty() || ascii.as_bytes().contains(&b'.') {
        return Err(LineError::Bad);
    }
    Ok(Some(ascii))
}
