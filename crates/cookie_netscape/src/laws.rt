//! Laws of the format, stated over definitions alone.
ghost use Rattle.std.specs.Prelude.{◌≡◌, ◌+◌, ◌++◌, ◌∷◌, ◌≤ℤ◌, [], false, IsTrue, List, Option, Some, length, map, pos, ℕ};
ghost use Rattle.std.specs.Char.{is_ascii_whitespace, is_newline};
ghost use Rattle.std.specs.List.{cons_option, list_all, list_any};
ghost use Rattle.std.specs.Str.Lines.{lines};
ghost use Rattle.jiff_core.specs.declared.civil.datetime.DateTime.{DateTime};
ghost use Rattle.cookie_words.specs.Moments.{moment_of, nanoseconds};
ghost use Rattle.cookie_parts.specs.Cookie.{Row};
ghost use Rattle.cookie_parts.specs.Expiry.{AtUtc, latest};
ghost use Rattle.cookie_netscape.specs.Files.{FailsAtLine, FailsToRead, rows_in_file, rows_in_lines};
ghost use Rattle.cookie_netscape.specs.Lines.{expiry_at, line_cookie};
ghost use Rattle.cookie_netscape.specs.Written.{as_written, expiry_second, is_representable, line_in, written_text};
ghost use Rattle.cookie_netscape.specs.declared.writing.SessionExpiry.{SessionExpiry};
ghost use Rattle.cookie_netscape.specs.declared.error.NetscapeError.{NetscapeError};

use cookie_words::moments_round_trip;

/// Written cookies read back as the same cookies, except for what a line does not hold: see the
/// definition `as_written`. The same holds with a line feed after the last line.
pub fn written_reads_back()
    ensures text { (rows : List Row) → IsTrue (list_all is_representable rows)
        → rows_in_file (written_text rows) ≡ Some (map as_written rows) }
    ensures line { (rows : List Row) → IsTrue (list_all is_representable rows)
        → rows_in_file (written_text rows ++ 10 ∷ []) ≡ Some (map as_written rows) }
{}

/// The line that [`push_line`](crate::push_line) writes reads back in the same way. White space after a line,
/// such as its line end, changes nothing.
pub fn line_reads_back()
    ensures line { (session : SessionExpiry) → (row : Row) → IsTrue (is_representable row)
        → line_cookie (line_in session row) ≡ Some (Some (as_written row)) }
    ensures end { (line : List ℕ) → (b : ℕ) → IsTrue (is_ascii_whitespace b) → line_cookie (line ++ b ∷ []) ≡ line_cookie line }
    ensures one { (session : SessionExpiry) → (row : Row) → IsTrue (is_representable row) → list_any is_newline (line_in session row) ≡ false }
{}

/// A file may be read line by line with [`read_cookie`](crate::read_cookie), which numbers the
/// lines from 1: the cookie of a line comes after those of the lines before it, and the first error
/// is the error of the file.
pub fn reads_line_by_line()
    ensures next { (before : List (List ℕ)) → (line : List ℕ) → (rows : List Row) → (row : Option Row)
        → rows_in_lines before ≡ Some rows → line_cookie line ≡ Some row
        → rows_in_lines (before ++ line ∷ []) ≡ Some (rows ++ cons_option row []) }
    ensures failed { (text : List ℕ) → (before : List (List ℕ)) → (line : List ℕ) → (after : List (List ℕ)) → (rows : List Row)
        → (error : NetscapeError) → lines text ≡ before ++ line ∷ after → rows_in_lines before ≡ Some rows
        → FailsAtLine error (length before + 1) line → FailsToRead error text }
{}

/// The expiry that is read from a cookie's line is that of the cookie, cut to whole seconds, if it
/// is from 1970-01-01T00:00:01 to 9999-12-31T23:59:59; `cut` is the time without its fraction of a
/// second.
pub fn keeps_expiry()
    ensures { (time cut : DateTime) → moment_of cut ≡ record (moment_of time) { nanosecond = 0 }
        → pos 1_000_000_000 ≤ℤ nanoseconds (moment_of cut) → nanoseconds (moment_of cut) ≤ℤ nanoseconds latest
        → expiry_at (expiry_second (AtUtc (moment_of time))) ≡ AtUtc (moment_of cut) }
{
    // for the checker: the nanoseconds since the epoch determine a `DateTime`
    moments_round_trip();
}
