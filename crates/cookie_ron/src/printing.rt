//! Prints lists of saved cookies in RON.
ghost use Rattle.std.specs.Prelude.{◌≡◌, ◌⊎◌, ◌++◌, codes, false, flat_map, Err, IfErr, IfOk, map, Ok, OnOk, option_map, string_bytes};
ghost use Rattle.std.specs.Str.{chars};
ghost use Rattle.std.specs.List.{list_any};
ghost use Rattle.cookie_forms.specs.MomentText.{moment_text};
ghost use Rattle.cookie_forms.specs.Saved.{domain_view, expiry_view, saved_view};
ghost use Rattle.cookie_forms.specs.ToJson.{expires_early, is_early, with_expiry_text};
ghost use Rattle.cookie_ron.specs.Printed.{printed_char, quoted, printed_path, printed_domain, printed_expiry, printed_cookie, printed_list, ron_written};

use cookie_forms::{Saved, SavedDomain, SavedError, SavedExpiry, any_early, moment_bytes};
use std::alloc::{AllocError, Global};

/// Prints a list of saved cookies in RON, without a line feed at the end:
///
/// ```text
/// [
///     (
///         raw_cookie: "a=1; Path=/",
///         path: ("/", true),
///         domain: HostOnly("test.com"),
///         expires: AtUtc("2100-08-03T00:38:37Z"),
///     ),
/// ]
/// ```
///
/// An empty list is printed as `[]`. In strings, quotes, backslashes and control characters are
/// escaped. Expiries are cut to whole seconds.
///
/// # Errors
///
/// - `Moment`: an expiry is before the year 0. Tested before anything is allocated.
/// - `Memory`: out of memory.
pub fn to_ron(alloc: Global, list: &[Saved]) -> Result<String, SavedError>
    ensures text { IfOk result (λ text. ron_written (map saved_view list.now) ≡ Ok (string_bytes text)) }
    ensures early { ron_written (map saved_view list.now) ≡ Err SavedError.Moment → result ≡ Err SavedError.Moment }
    ensures errors { IfErr result (λ e. (e ≡ SavedError.Memory) ⊎ (ron_written (map saved_view list.now) ≡ Err e)) }
{
    if any_early(list) {
        return Err(SavedError::Moment);
    }
    Ok(print_list(alloc, list)?)
}

/// Prints a list in which no expiry is before the year 0, as [`to_ron`] does.
pub fn print_list(alloc: Global, list: &[Saved]) -> Result<String, AllocError>
    requires { list_any is_early (map saved_view list.now) ≡ false }
    ensures text { IfOk result (λ text. string_bytes text ≡ printed_list (map with_expiry_text (map saved_view list.now))) }
{
    let mut text = String::new(alloc);
    push_list(&mut text, list)?;
    Ok(text)
}

// Appends a list in which no expiry is before the year 0.
fn push_list(text: &mut String, list: &[Saved]) -> Result<(), AllocError>
    requires { list_any is_early (map saved_view list.now) ≡ false }
    ensures { OnOk result (string_bytes text.new ≡ string_bytes text.old ++ printed_list (map with_expiry_text (map saved_view list.now))) }
{
    if list.is_empty() {
        return text.push_str("[]");
    }
    text.push_str("[\n")?;
    push_cookies(text, list)?;
    text.push(']')
}

// Appends the cookies, one after the other.
fn push_cookies(text: &mut String, list: &[Saved]) -> Result<(), AllocError>
    requires { list_any is_early (map saved_view list.now) ≡ false }
    ensures { OnOk result (string_bytes text.new ≡ string_bytes text.old
        ++ flat_map printed_cookie (map with_expiry_text (map saved_view list.now))) }
{
    for saved in list {
        push_cookie(text, saved)?;
    }
    Ok(())
}

// Appends a cookie whose expiry is not before the year 0.
fn push_cookie(text: &mut String, saved: &Saved) -> Result<(), AllocError>
    requires { is_early (saved_view saved.now) ≡ false }
    ensures { OnOk result (string_bytes text.new ≡ string_bytes text.old ++ printed_cookie (with_expiry_text (saved_view saved.now))) }
{
    text.push_str("    (\n")?;
    push_name(text, "raw_cookie")?;
    push_quoted(text, &saved.raw_cookie)?;
    text.push_str(",\n")?;
    push_name(text, "path")?;
    push_path(text, &saved.path, saved.from_attr)?;
    text.push_str(",\n")?;
    push_name(text, "domain")?;
    push_domain(text, &saved.domain)?;
    text.push_str(",\n")?;
    push_name(text, "expires")?;
    push_expiry(text, saved.expires)?;
    text.push_str(",\n")?;
    text.push_str("    ),\n")
}

// Appends a field's indent, name and colon.
fn push_name(text: &mut String, name: &str) -> Result<(), AllocError>
    ensures { OnOk result (string_bytes text.new ≡ string_bytes text.old ++ (codes "        " ++ name.now ++ codes ": ")) }
{
    text.push_str("        ")?;
    text.push_str(name)?;
    text.push_str(": ")
}

// Appends a path, and whether a Path attribute set it.
fn push_path(text: &mut String, path: &str, from_attr: bool) -> Result<(), AllocError>
    ensures { OnOk result (string_bytes text.new ≡ string_bytes text.old ++ printed_path path.now from_attr) }
{
    text.push('(')?;
    push_quoted(text, path)?;
    text.push_str(", ")?;
    text.push_str(if from_attr { "true" } else { "false" })?;
    text.push(')')
}

// Appends a domain.
fn push_domain(text: &mut String, domain: &SavedDomain) -> Result<(), AllocError>
    ensures { OnOk result (string_bytes text.new ≡ string_bytes text.old ++ printed_domain (domain_view domain.now)) }
{
    match domain {
        SavedDomain::HostOnly(host) => push_tagged(text, "HostOnly", host),
        SavedDomain::Suffix(suffix) => push_tagged(text, "Suffix", suffix),
        SavedDomain::NotPresent => text.push_str("NotPresent"),
        SavedDomain::Empty => text.push_str("Empty"),
    }
}

// Appends an expiry that is not before the year 0.
fn push_expiry(text: &mut String, expires: SavedExpiry) -> Result<(), AllocError>
    requires { expires_early (expiry_view expires) ≡ false }
    ensures { OnOk result (string_bytes text.new ≡ string_bytes text.old ++ printed_expiry (option_map moment_text (expiry_view expires))) }
{
    match expires {
        SavedExpiry::AtUtc(moment) => {
            let ascii = moment_bytes(moment);
            push_tagged(text, "AtUtc", str::from_utf8(&ascii).unwrap())
        }
        SavedExpiry::SessionEnd => text.push_str("SessionEnd"),
    }
}

// Appends a tag, and a quoted string in parentheses.
fn push_tagged(text: &mut String, tag: &str, argument: &str) -> Result<(), AllocError>
    ensures { OnOk result (string_bytes text.new ≡ string_bytes text.old ++ (tag.now ++ codes "(" ++ quoted argument.now ++ codes ")")) }
{
    text.push_str(tag)?;
    text.push('(')?;
    push_quoted(text, argument)?;
    text.push(')')
}

// Appends a quoted string.
fn push_quoted(text: &mut String, content: &str) -> Result<(), AllocError>
    ensures { OnOk result (string_bytes text.new ≡ string_bytes text.old ++ quoted content.now) }
{
    text.push('"')?;
    push_chars(text, content)?;
    text.push('"')
}

// Appends the characters of a string, escaped if necessary.
fn push_chars(text: &mut String, content: &str) -> Result<(), AllocError>
    ensures { OnOk result (string_bytes text.new ≡ string_bytes text.old ++ flat_map printed_char (chars content.now)) }
{
    for c in content.chars() {
        push_char(text, c)?;
    }
    Ok(())
}

// Appends a character, escaped if necessary.
fn push_char(text: &mut String, c: char) -> Result<(), AllocError>
    ensures { OnOk result (string_bytes text.new ≡ string_bytes text.old ++ printed_char c) }
{
    match c {
        '"' | '\\' => {
            text.push('\\')?;
            text.push(c)
        }
        '\n' => text.push_str("\\n"),
        '\r' => text.push_str("\\r"),
        '\t' => text.push_str("\\t"),
        _ if c.is_control() => write!(text, "\\u{{{:x}}}", u32::from(c)),
        _ => text.push(c),
    }
}
