//! Laws of edits, stated over definitions alone.
ghost use Rattle.std.specs.Prelude.{◌≡◌, ◌++◌, ℕ, List, IsTrue, false, filter, not};
ghost use Rattle.std.specs.List.{concat};
ghost use Rattle.std.specs.Str.Lines.{lines};
ghost use Rattle.cookie_parts.specs.Cookie.{Row};
ghost use Rattle.cookie_laws.specs.Rows.{has_key, key_of};
ghost use Rattle.cookie_netscape.specs.Files.{well_formed_rows};
ghost use Rattle.cookie_netscape.specs.Written.{as_written, is_representable};
ghost use Rattle.cookie_edit.specs.Edits.{ended_lines, has_named_line, is_gone, is_set_by, missing_end, other_lines, put_text, retained_text, with_row};

use cookie_netscape::laws::line_reads_back;

/// A file is its lines with their line ends, one after the other.
pub fn lines_are_the_file()
    ensures { (text : List ℕ) → concat (ended_lines text) ≡ text }
{}

/// Lines with their line ends, of which the other laws speak, have the cookies of the lines without
/// them, as a file is loaded.
pub fn lines_with_ends_read_alike()
    ensures { (text : List ℕ) → well_formed_rows (ended_lines text) ≡ well_formed_rows (lines text) }
{
    // for the checker: a line end changes no cookie
    line_reads_back();
}

/// An edit leaves the lines of other cookies as they were, the same bytes in the same order. If it
/// adds a line after a last one that has no line end, that one gets it.
pub fn others_stay()
    ensures removed { (rows : List Row) → (text : List ℕ)
        → ended_lines (retained_text rows text) ≡ other_lines (is_gone rows) (ended_lines text) }
    ensures replaced { (text : List ℕ) → (cookie : Row) → IsTrue (is_representable cookie) → IsTrue (has_named_line (has_key (key_of cookie)) text)
        → other_lines (is_set_by cookie) (ended_lines (put_text text cookie)) ≡ other_lines (is_set_by cookie) (ended_lines text) }
    ensures added { (text : List ℕ) → (cookie : Row) → IsTrue (is_representable cookie) → has_named_line (has_key (key_of cookie)) text ≡ false
        → other_lines (is_set_by cookie) (ended_lines (put_text text cookie)) ≡ other_lines (is_set_by cookie) (ended_lines (text ++ missing_end text)) }
{
    // for the checker: the line of a cookie reads back
    line_reads_back();
}

/// Removing the lines of cookies and then reading the file is reading it and then removing the
/// cookies.
pub fn removing_and_reading_commute()
    ensures { (rows : List Row) → (text : List ℕ)
        → well_formed_rows (ended_lines (retained_text rows text))
        ≡ filter (λ cookie. not (is_gone rows cookie)) (well_formed_rows (ended_lines text)) }
{}

/// Setting the line of a cookie and then reading the file is reading it and then setting the cookie,
/// as its line says it: see the definition `as_written`. It replaces the first cookie with the same
/// domain, path and name, without the others, or else comes last.
pub fn putting_and_reading_commute()
    ensures { (text : List ℕ) → (cookie : Row) → IsTrue (is_representable cookie)
        → well_formed_rows (ended_lines (put_text text cookie))
        ≡ with_row (has_key (key_of cookie)) (as_written cookie) (well_formed_rows (ended_lines text)) }
{
    // for the checker: the line of a cookie reads back
    line_reads_back();
}
