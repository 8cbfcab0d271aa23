//! Text that is safe to print on a terminal.
ghost use Rattle.std.specs.Prelude.{◌≡◌, ◌++◌, IfOk, OnOk, string_bytes};
ghost use Rattle.std.specs.Str.{NoCharPasses};
ghost use Rattle.cookies.specs.Escapes.{escaped, escaped_char, is_escaped};

use std::alloc::{AllocError, Global};
use ucd_category::GeneralCategory;

/// Returns `text` with each character that `is_escaped` in an escaped form, such as `\n` or
/// `\u{1b}`.
pub fn escaped(alloc: Global, text: &str) -> Result<String, AllocError>
    ensures value { IfOk result (λ out. string_bytes out ≡ escaped text.now) }
    ensures safe { IfOk result (λ out. NoCharPasses is_escaped (string_bytes out)) }
{
    let mut out = String::new(alloc);
    for c in text.chars() {
        push_escaped(&mut out, c)?;
    }
    Ok(out)
}

/// Appends a character, escaped if it `is_escaped`.
pub fn push_escaped(out: &mut String, c: char) -> Result<(), AllocError>
    ensures { OnOk result (string_bytes out.new ≡ string_bytes out.old ++ escaped_char c) }
{
    match c {
        '\n' => out.push_str("\\n"),
        '\r' => out.push_str("\\r"),
        '\t' => out.push_str("\\t"),
        _ if is_escaped(c) => write!(out, "\\u{{{:x}}}", u32::from(c)),
        _ => out.push(c),
    }
}

// Whether a character may move the cursor, or hide or reorder what is beside it: a control
// character, a format character such as U+202E, a line separator or a paragraph separator.
fn is_escaped(c: char) -> bool
    ensures { result ≡ is_escaped c }
{
    matches!(
        GeneralCategory::for_char(c),
        GeneralCategory::Control
            | GeneralCategory::Format
            | GeneralCategory::LineSeparator
            | GeneralCategory::ParagraphSeparator
    )
}
