//! The cookies of lines.
ghost use Rattle.std.specs.Prelude.{◌≡◌, ◌++◌, Bool, IfOk, OnOk, string_bytes};
ghost use Rattle.std.specs.List.{concat};
ghost use Rattle.cookie_parts.specs.Cookie.{Row};
ghost use Rattle.cookie_netscape.specs.Files.{cookie_of_line};
ghost use Rattle.cookie_edit.specs.Edits.{ended_lines, is_named, other_lines};

use cookie_netscape::laws::line_reads_back;
use cookie_netscape::{NetscapeError, read_cookie};
use cookie_parts::Cookie;
use std::alloc::{AllocError, Global};

/// A test of the cookies whose lines are edited.
pub(crate) trait NamesCookies {
    /// The test as contracts see it.
    ghost names: { Self → Row → Bool };

    /// Returns whether the cookie passes.
    fn names_cookie(&self, cookie: &Cookie<'_>) -> bool
        ensures { result ≡ names self.now cookie.now };
}

/// Appends the lines but for those of the cookies that pass the test.
pub(crate) fn push_others<N: NamesCookies>(
    edited: &mut String,
    lines: &str,
    test: &N,
) -> Result<(), AllocError>
    ensures { OnOk result (string_bytes edited.new ≡ string_bytes edited.old
        ++ concat (other_lines (N.names test.now) (ended_lines lines.now))) }
{
    // for the checker: a line end changes no cookie
    line_reads_back();
    let alloc = *edited.allocator();
    let mut rest = lines;
    while let Some((line, after)) = rest.split_once('\n') {
        if !is_named(alloc, line, test)? {
            edited.push_str(line)?;
            edited.push('\n')?;
        }
        rest = after;
    }
    if !is_named(alloc, rest, test)? {
        edited.push_str(rest)?;
    }
    Ok(())
}

/// Returns whether the line is that of a cookie that passes the test. Fails only if out of memory.
pub(crate) fn is_named<N: NamesCookies>(
    alloc: Global,
    line: &str,
    test: &N,
) -> Result<bool, AllocError>
    ensures { IfOk result (λ named. named ≡ is_named (N.names test.now) line.now) }
{
    match cookie_of_line(alloc, line)? {
        Some(cookie) => Ok(test.names_cookie(&cookie)),
        None => Ok(false),
    }
}

// The cookie of a line, or `None` if the line is skipped or malformed. Fails only if out of memory.
fn cookie_of_line(alloc: Global, line: &str) -> Result<Option<Cookie<'static>>, AllocError>
    ensures { IfOk result (λ cookie. cookie ≡ cookie_of_line line.now) }
{
    match read_cookie(alloc, line, 0) {
        Ok(cookie) => Ok(cookie),
        Err(NetscapeError::BadLine { .. }) => Ok(None),
        Err(_) => Err(AllocError),
    }
}
