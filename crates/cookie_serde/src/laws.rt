//! Laws of saving and loading: what is saved loads again.
//!
//! These functions do nothing. A function that calls one may use what its contract states.
ghost use Rattle.std.specs.List.{All, AllZip};
ghost use Rattle.std.specs.Prelude.{◌≡◌, ℕ, [], true, List, Ok, Some};
ghost use Rattle.std.specs.Str.Lines.{lines};
ghost use Rattle.std.specs.declared.alloc.Global.{Global};
ghost use Rattle.std.specs.declared.string.String.{String};
ghost use Rattle.cookie_parts.specs.Cookie.{Row};
ghost use Rattle.cookie_laws.specs.Rows.{are_rows, RowsInOrder};
ghost use Rattle.cookie_serde.specs.Cuts.{cut_rows, ReadsBack};
ghost use Rattle.cookie_serde.specs.JsonLines.{json_cookie, JsonParsesTo, SerializesToJson};
ghost use Rattle.cookie_serde.specs.JsonLists.{json_cookies, JsonListParsesTo, SerializesToJsonList};
ghost use Rattle.cookie_serde.specs.SavedLists.{BuildsFromList, WritesList};
ghost use Rattle.cookie_serde.specs.Loading.{BuildsFrom};
ghost use Rattle.cookie_serde.specs.RonLists.{RonListParsesTo, RonCookies, SerializesToRonList};
ghost use Rattle.cookie_serde.specs.Saving.{line_text, lines_text, AreTexts, WritesRows};
ghost use Rattle.cookie_serde.specs.declared.which.Which.TheVariants as Which;

use cookie_forms::laws::{
    compact_texts_are_lines, expiries_are_moments, line_feeds_are_blank, list_reads_back,
    reads_back,
};
use cookie_parts::laws::survives_saving;
use cookie_ron::laws::{printed_reads_back, results_are_unique};

/// Reading the JSON list of rows, with a line feed after it, gives those rows, with each expiry cut
/// to whole seconds.
///
/// Of each row the string of its raw cookie must parse as that raw cookie, and it must have a saved
/// form, as `to_saved` returns it (`ReadsBack`).
pub fn list_comes_back()
    ensures { (rows : List Row) (text : String Global) → All ReadsBack rows → SerializesToJsonList rows (Ok text)
        → json_cookies (line_text text) ≡ Ok (cut_rows rows) }
{
    list_reads_back();
    line_feeds_are_blank();
    expiries_are_moments();
    survives_saving();
}

/// Loading a saved JSON list of all rows of a store gives those rows, in the same order, with each
/// expiry cut to whole seconds.
///
/// The list is saved to an empty sink, and loaded with expired cookies included. The rows are as in
/// [`list_comes_back`].
pub fn list_loads_again()
    ensures { (rows : List Row) (loaded : RowsInOrder) (written : List ℕ) → are_rows rows ≡ true → All ReadsBack rows
        → WritesList SerializesToJsonList rows (Some []) (Some written) → BuildsFromList JsonListParsesTo (Some written) Which.All loaded
        → loaded.rows ≡ cut_rows rows }
{
    list_comes_back();
    cookie_laws::rebuilt();
}

/// Reading the list in RON of rows, with a line feed after it, gives those rows, with each expiry
/// cut to whole seconds.
///
/// The rows are as in [`list_comes_back`].
pub fn ron_list_comes_back()
    ensures { (rows : List Row) (text : String Global) → All ReadsBack rows → SerializesToRonList rows (Ok text)
        → RonCookies (line_text text) (Ok (cut_rows rows)) }
{
    printed_reads_back();
    survives_saving();
}

/// Loading a saved list in RON of all rows of a store gives those rows, in the same order, with
/// each expiry cut to whole seconds.
///
/// The list is saved to an empty sink, and loaded with expired cookies included. The rows are as in
/// [`list_comes_back`].
pub fn ron_list_loads_again()
    ensures { (rows : List Row) (loaded : RowsInOrder) (written : List ℕ) → are_rows rows ≡ true → All ReadsBack rows
        → WritesList SerializesToRonList rows (Some []) (Some written) → BuildsFromList RonListParsesTo (Some written) Which.All loaded
        → loaded.rows ≡ cut_rows rows }
{
    ron_list_comes_back();
    results_are_unique();
    cookie_laws::rebuilt();
}

/// Reading the lines of JSON of rows gives one row for each line, with each expiry cut to whole
/// seconds.
///
/// The rows are as in [`list_comes_back`].
pub fn lines_come_back()
    ensures { (rows : List Row) (texts : List (String Global)) → All ReadsBack rows → AreTexts SerializesToJson rows texts
        → AllZip (λ line cookie. json_cookie line ≡ Ok cookie) (lines (lines_text texts)) (cut_rows rows) }
{
    reads_back();
    compact_texts_are_lines();
    expiries_are_moments();
    survives_saving();
}

/// Loading saved lines of JSON of all rows of a store gives those rows, in the same order, with
/// each expiry cut to whole seconds.
///
/// The lines are saved to an empty sink, and loaded with expired cookies included. The rows are as
/// in [`list_comes_back`].
pub fn lines_load_again()
    ensures { (rows : List Row) (loaded : RowsInOrder) (written : List ℕ) → are_rows rows ≡ true → All ReadsBack rows
        → WritesRows SerializesToJson rows (Some []) (Some written) → BuildsFrom JsonParsesTo (Some written) Which.All loaded
        → loaded.rows ≡ cut_rows rows }
{
    lines_come_back();
    cookie_laws::rebuilt();
}
