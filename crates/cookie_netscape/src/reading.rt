//! Reads the cookies of a file.
ghost use Rattle.std.specs.Prelude.{◌≡◌, ◌==◌, IfErr, IfOk, Some, length, option_map};
ghost use Rattle.cookie_words.specs.Strings.{pieces};
ghost use Rattle.cookie_parts.specs.Hosts.{passes};
ghost use Rattle.cookie_netscape.specs.Files.{FailsAtLine, FailsToRead, has_empty_expiry, has_fields, rows_in_file};
ghost use Rattle.cookie_netscape.specs.Lines.{content, cookie_from, fields_cookie, fields_from, line_cookie};
ghost use Rattle.cookie_netscape.specs.Views.{line_view};

use crate::NetscapeError;
use crate::entry::{Entry, read_entry};
use crate::fields::split_fields;
use crate::header::read_header;
use cookie_parts::Cookie;
use std::alloc::Global;

/// What begins the line of an HttpOnly cookie.
const HTTP_ONLY: &str = "#HttpOnly_";

/// A line of a file, by its fields.
#[derive(Clone, Copy)]
enum Line<'a> {
    Cookie(Entry<'a>),
    // A blank line or a comment.
    Skipped,
    // A header, or malformed.
    Other,
}

/// Reads the cookies of a file, in the order of its lines.
///
/// White space around a line (SP, HTAB and CR, for example) is dropped. Blank lines are skipped, and so are comments,
/// which begin with `#` or `$`; the lines of HttpOnly cookies begin with `#HttpOnly_`. Any other line is a header, or has
/// seven fields, which HTAB separates:
///
/// | field | |
/// |---|---|
/// | domain | a leading dot and a port at the end are dropped; an IPv6 address has brackets or none; `.local` is dropped after `localhost` and after an IPv6 address in brackets; the rest is not empty, begins with neither a dot, a space, `#` nor `$`, and is read in lower case (ASCII); otherwise it is not tested |
/// | subdomains | TRUE for a domain cookie, FALSE for a host-only cookie, ignoring case |
/// | path | without the quotation marks around it; a line may leave this field out, or empty, if it is `/` |
/// | secure | TRUE or FALSE, ignoring case |
/// | expiry | seconds since 1970-01-01T00:00:00 UTC, with or without a fraction, which is ignored; at most 9999-12-31T23:59:59, which -1 stands for; 0 or empty for a session cookie |
/// | name | has no `=` and no `;`, and no space at either end; if it is empty, the value is the name, as Python writes a cookie that was received without `=` |
/// | value | has no `;`, and no space at either end; a line may leave this field out if it is empty |
///
/// No field has a control character. A cookie whose path does not begin with `/` matches no URL. A byte order mark is
/// not dropped: a comment after it is malformed, and a domain begins with it.
///
/// A line without such fields that begins with `Set-Cookie:`, ignoring case, is read as a header: a domain cookie of
/// its Domain attribute, with the path `/` if it has none that begins with `/`. A port after the domain is dropped,
/// which libcurl keeps. It is malformed without Domain, since it names no host, and with Max-Age, since a file does
/// not record the time from which that counts.
///
/// # Errors
///
/// Lines are read in order, and the first error is returned:
/// - `BadLine`: a line is malformed; the error has its number.
/// - `Memory`: out of memory for a cookie.
pub fn from_text(alloc: Global, text: &str) -> Result<Vec<Cookie<'static>>, NetscapeError>
    ensures cookies { IfOk result (λ cookies. rows_in_file text.now ≡ Some cookies.items) }
    ensures errors { IfErr result (λ error. FailsToRead error text.now) }
{
    let mut cookies = Vec::new(alloc);
    for (index, line) in text.lines().enumerate() {
        if let Some(cookie) = read_cookie(alloc, line, index + 1)? {
            cookies.push(cookie)?;
        }
    }
    Ok(cookies)
}

/// Reads the cookie of a line, as [`from_text`] does. Returns `None` for a line that is skipped.
///
/// # Errors
///
/// - `BadLine`: the line is malformed; the error has `number`.
/// - `Memory`: out of memory for the cookie.
#[tactic(auto, unfolding(crate::specs::Lines::content_cookie))]
#[inline(always)]
pub fn read_cookie(
    alloc: Global,
    line: &str,
    number: usize,
) -> Result<Option<Cookie<'static>>, NetscapeError>
    ensures cookie { IfOk result (λ cookie. line_cookie line.now ≡ Some cookie) }
    ensures errors { IfErr result (λ error. FailsAtLine error number line.now) }
{
    match read_line(line) {
        Line::Cookie(entry) => Ok(Some(entry.to_cookie(alloc)?)),
        Line::Skipped => Ok(None),
        Line::Other => match read_header(alloc, content(line))? {
            Some(cookie) => Ok(Some(cookie)),
            None => Err(NetscapeError::BadLine { line: number }),
        },
    }
}

/// Returns whether the line is that of a session cookie and has nothing for its expiry, as Python writes it.
pub fn has_empty_expiry(line: &str) -> bool
    ensures { result ≡ has_empty_expiry line.now }
{
    has_fields(line) && is_expiry_empty(content(line))
}

// Whether the line has the fields of a cookie.
fn has_fields(line: &str) -> bool
    ensures { result ≡ has_fields line.now }
{
    matches!(read_line(line), Line::Cookie(_))
}

fn is_expiry_empty(text: &str) -> bool
    ensures { result ≡ passes (λ fields. length fields.expiry == 0) (fields_from (pieces 9 text.now)) }
{
    match split_fields(text) {
        Some(fields) => fields.expiry.is_empty(),
        None => false,
    }
}

// Reads a line by its fields.
fn read_line(line: &str) -> Line<'_>
    ensures { line_view result ≡ fields_cookie (content line.now) }
{
    read_content(content(line))
}

// What a line has, without the white space around it.
fn content(line: &str) -> &str
    ensures { result.now ≡ content line.now }
{
    line.trim_ascii()
}

// Reads what a line has by its fields.
#[tactic(auto, unfolding(crate::specs::Lines::fields_cookie))]
fn read_content(text: &str) -> Line<'_>
    ensures { line_view result ≡ fields_cookie text.now }
{
    if let Some(fields) = text.strip_prefix(HTTP_ONLY) {
        return cookie_line(fields, true);
    }
    if text.is_empty() || text.starts_with('#') || text.starts_with('$') {
        return Line::Skipped;
    }
    cookie_line(text, false)
}

// The line of a cookie, without `#HttpOnly_`.
fn cookie_line(fields: &str, is_http_only: bool) -> Line<'_>
    ensures { line_view result ≡ option_map Some (cookie_from is_http_only fields.now) }
{
    match read_entry(fields, is_http_only) {
        Some(entry) => Line::Cookie(entry),
        None => Line::Other,
    }
}
