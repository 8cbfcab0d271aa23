//! Laws about lists in RON, stated over definitions alone.
ghost use Rattle.std.specs.Prelude.{◌≡◌, ◌++◌, ℕ, List, [], ◌∷◌, map, Ok, Result};
ghost use Rattle.cookie_words.specs.Moments.{Moment};
ghost use Rattle.cookie_forms.specs.FromJson.{cut};
ghost use Rattle.cookie_forms.specs.Saved.{saved_view, Parts};
ghost use Rattle.cookie_forms.specs.declared.error.SavedError.{SavedError};
ghost use Rattle.cookie_forms.specs.declared.saved.Saved.{Saved};
ghost use Rattle.cookie_ron.specs.Grammar.{IsList};
ghost use Rattle.cookie_ron.specs.Printed.{ron_written};
ghost use Rattle.cookie_ron.specs.ParsedRon.{RonParsesTo};

use cookie_forms::laws::moments_read_back;

/// The grammar is unambiguous: a sequence of characters is the RON of at most one list.
pub fn grammar_is_unambiguous()
    ensures { (parts others : List (Parts (List ℕ))) (text : List ℕ) → IsList parts text → IsList others text → parts ≡ others }
{}

/// An input, as bytes, has at most one result: one list or one error.
pub fn results_are_unique()
    ensures { (text : List ℕ) (outcome other : Result (List (Parts Moment)) SavedError) → RonParsesTo text outcome → RonParsesTo text other
        → outcome ≡ other }
{
    grammar_is_unambiguous();
}

/// Every input has a result: a list or an error.
pub fn every_text_has_result()
    ensures { (text : List ℕ) → (outcome : Result (List (Parts Moment)) SavedError) × RonParsesTo text outcome }
{}

/// A list, printed and read back, is unchanged but for the expiries, which are cut to whole
/// seconds. The same holds with a line feed after the printed list.
pub fn printed_reads_back()
    ensures text { (list : List Saved) (text : List ℕ) → ron_written (map saved_view list) ≡ Ok text
        → RonParsesTo text (Ok (map cut (map saved_view list))) }
    ensures line { (list : List Saved) (text : List ℕ) → ron_written (map saved_view list) ≡ Ok text
        → RonParsesTo (text ++ 10 ∷ []) (Ok (map cut (map saved_view list))) }
{
    moments_read_back();
}
