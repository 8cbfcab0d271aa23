//! Writing the line of a cookie.
ghost use Rattle.std.specs.Prelude.{◌≡◌, IfErr, IfOk, OnOk, IsTrue, false, nat_eq, string_bytes, ◌⊎◌};
ghost use Rattle.std.specs.Char.{is_newline};
ghost use Rattle.std.specs.List.{before_first, ends_with, list_any};
ghost use Rattle.cookie_words.specs.Strings.{pieces};
ghost use Rattle.cookie_netscape.specs.Files.{has_empty_expiry};
ghost use Rattle.cookie_netscape.specs.Written.{is_representable};
ghost use Rattle.cookie_laws.specs.Rows.{has_key, key_of};
ghost use Rattle.cookie_edit.specs.Edits.{line_end, missing_end, new_line, put_text, session_expiry};

use crate::lines::{NamesCookies, is_named, push_others};
use cookie_netscape::laws::line_reads_back;
use cookie_netscape::{
    NetscapeError, SessionExpiry, has_empty_expiry, is_representable, push_line,
};
use cookie_parts::Cookie;
use std::alloc::{AllocError, Global};

/// Returns a `cookies.txt` file with the line of the cookie: in place of the first line of a cookie
/// with the same domain, path and name, without the others of that cookie, or else after the last
/// line.
///
/// The line ends as the first line of the file does, in LF or CRLF. The expiry of a session cookie
/// is empty if a line of the file has an empty one, else 0.
///
/// # Errors
///
/// In the order in which they are checked:
/// - `Unrepresentable`: [`is_representable`] returns false for the cookie.
/// - `Memory`: out of memory.
pub fn put_line(alloc: Global, text: &str, cookie: &Cookie<'_>) -> Result<String, NetscapeError>
    ensures edited { IfOk result (λ edited. string_bytes edited ≡ put_text text.now cookie.now) }
    ensures representable { OnOk result (IsTrue (is_representable cookie.now)) }
    ensures errors { IfErr result (λ error.
        ((error ≡ NetscapeError.Unrepresentable) × (is_representable cookie.now ≡ false))
        ⊎ ((error ≡ NetscapeError.Memory) × IsTrue (is_representable cookie.now))) }
{
    if !is_representable(cookie) {
        return Err(NetscapeError::Unrepresentable);
    }
    Ok(edited(alloc, text, cookie)?)
}

fn edited(alloc: Global, text: &str, cookie: &Cookie<'_>) -> Result<String, AllocError>
    ensures { IfOk result (λ edited. string_bytes edited ≡ put_text text.now cookie.now) }
{
    // for the checker: a line end changes no cookie
    line_reads_back();
    let line = new_line(alloc, text, cookie)?;
    let mut edited = String::new(alloc);
    let mut rest = text;
    while let Some((old, after)) = rest.split_once('\n') {
        if is_named(alloc, old, cookie)? {
            edited.push_str(line.as_str())?;
            push_others(&mut edited, after, cookie)?;
            return Ok(edited);
        }
        edited.push_str(old)?;
        edited.push('\n')?;
        rest = after;
    }
    if !is_named(alloc, rest, cookie)? {
        edited.push_str(rest)?;
        edited.push_str(missing_end(text))?;
    }
    edited.push_str(line.as_str())?;
    Ok(edited)
}

// The cookies with the domain, path and name of this one.
impl<'a> NamesCookies for Cookie<'a> {
    ghost names = { λ cookie. has_key (key_of cookie) };

    fn names_cookie(&self, cookie: &Cookie<'_>) -> bool {
        self.domain.as_str() == cookie.domain.as_str()
            && self.path.as_str() == cookie.path.as_str()
            && self.name() == cookie.name()
    }
}

// The line of the cookie, with its line end.
fn new_line(alloc: Global, text: &str, cookie: &Cookie<'_>) -> Result<String, AllocError>
    ensures { IfOk result (λ line. string_bytes line ≡ new_line text.now cookie.now) }
{
    let mut line = String::new(alloc);
    push_line(&mut line, cookie, session_expiry(text))?;
    line.push_str(line_end(text))?;
    Ok(line)
}

// What a session cookie has for its expiry in the file.
fn session_expiry(text: &str) -> SessionExpiry
    ensures { result ≡ session_expiry text.now }
{
    if has_empty_expiries(text) {
        SessionExpiry::Empty
    } else {
        SessionExpiry::Zero
    }
}

// Whether a line of the file is that of a session cookie and has nothing for its expiry.
fn has_empty_expiries(text: &str) -> bool
    ensures { result ≡ list_any has_empty_expiry (pieces 10 text.now) }
{
    text.split('\n').any(is_empty_session)
}

fn is_empty_session(line: &str) -> bool
    ensures { result ≡ has_empty_expiry line.now }
{
    has_empty_expiry(line)
}

// The line end of the file: that of its first line.
fn line_end(text: &str) -> &'static str
    ensures { result.now ≡ line_end text.now }
{
    if ends_in(first_line(text), "\r") {
        "\r\n"
    } else {
        "\n"
    }
}

fn first_line(text: &str) -> &str
    ensures { result.now ≡ before_first is_newline text.now }
{
    match text.split_once('\n') {
        Some((first, _)) => first,
        None => text,
    }
}

fn ends_in(text: &str, end: &str) -> bool
    ensures { result ≡ ends_with nat_eq text.now end.now }
{
    text.ends_with(end)
}

// The line end that the last line of the file lacks.
fn missing_end(text: &str) -> &'static str
    ensures { result.now ≡ missing_end text.now }
{
    if text.is_empty() || ends_in(text, "\n") {
        ""
    } else {
        line_end(text)
    }
}
