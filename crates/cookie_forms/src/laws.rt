//! Laws about saved cookies, stated over definitions alone.
ghost use Rattle.std.specs.List.{All};
ghost use Rattle.std.specs.Option.{ok_or};
ghost use Rattle.std.specs.Prelude.{◌≡◌, ◌≤◌, ◌≤ℤ◌, ℕ, pos, false, true, Err, List, [], ◌∷◌, ◌++◌, map, Ok, Some};
ghost use Rattle.serde_json.specs.Data.{Data, depth};
ghost use Rattle.serde_json.specs.Read.{max_depth, read};
ghost use Rattle.serde_json.specs.Written.{compact_text, has_float};
ghost use Rattle.cookie_words.specs.Moments.{moment_of, Moment};
ghost use Rattle.cookie_forms.specs.MomentText.{parsed_moment, moment_text, whole_seconds};
ghost use Rattle.cookie_forms.specs.FromJson.{all_with_parsed_expiry, cut, list_at, saved_at, with_parsed_expiry};
ghost use Rattle.cookie_forms.specs.Saved.{HasValidExpiry, Parts, saved_view};
ghost use Rattle.cookie_forms.specs.Shape.{HasListShape, HasShape};
ghost use Rattle.cookie_forms.specs.JsonText.{has_no_control};
ghost use Rattle.cookie_forms.specs.ToJson.{list_written, written};
ghost use Rattle.cookie_forms.specs.declared.error.SavedError.TheVariants as ErrorCase;
ghost use Rattle.cookie_forms.specs.declared.saved.Saved.{Saved};
ghost use Rattle.jiff_core.specs.declared.civil.datetime.DateTime.{DateTime};

/// A time from the year 0 on, written and read back, is that time cut to whole seconds.
pub fn moments_read_back()
    ensures { (moment : DateTime) → pos 0 ≤ℤ moment.date.year
        → parsed_moment (moment_text (moment_of moment)) ≡ Some (whole_seconds (moment_of moment)) }
{}

/// A saved cookie, written as JSON and read back, is unchanged but for its expiry, which is cut to
/// whole seconds.
pub fn reads_back()
    ensures { (saved : Parts Moment) (tree : Data) → HasValidExpiry saved → written saved ≡ Ok tree → saved_at tree ≡ Ok (cut saved) }
{}

/// A list, written as JSON and read back, is unchanged but for the expiries, which are cut to
/// whole seconds.
pub fn list_reads_back()
    ensures { (list : List (Parts Moment)) (tree : Data) → All HasValidExpiry list → list_written list ≡ Ok tree
        → list_at tree ≡ Ok (map cut list) }
{}

/// The expiry of every `Saved` is a valid time, so `reads_back` and `list_reads_back` apply to it.
pub fn expiries_are_moments()
    ensures { (saved : Saved) → HasValidExpiry (saved_view saved) }
{}

/// The JSON of a saved cookie contains no float, so its compact form is determined, and nests no
/// deeper than `serde_json` reads, so each of its JSON texts is read as the same value.
pub fn trees_are_plain()
    ensures no_float { (saved : Parts Moment) (tree : Data) → written saved ≡ Ok tree → has_float tree ≡ false }
    ensures nests { (saved : Parts Moment) (tree : Data) → written saved ≡ Ok tree → depth tree ≤ max_depth }
{}

/// The JSON of a list contains no float, so its compact form is determined, and nests no deeper
/// than `serde_json` reads, so each of its JSON texts is read as the same value.
pub fn list_trees_are_plain()
    ensures no_float { (list : List (Parts Moment)) (tree : Data) → list_written list ≡ Ok tree → has_float tree ≡ false }
    ensures nests { (list : List (Parts Moment)) (tree : Data) → list_written list ≡ Ok tree → depth tree ≤ max_depth }
{}

/// A JSON value of the shape of a saved cookie is read, or `Moment` is returned if its expiry is
/// not a valid time. Only values of that shape are read; any other is a `Shape` error.
pub fn shapes_are_read()
    ensures read { (tree : Data) (parts : Parts (List ℕ)) → HasShape tree parts
        → saved_at tree ≡ ok_or (with_parsed_expiry parts) ErrorCase.Moment }
    ensures only { (tree : Data) (saved : Parts Moment) → saved_at tree ≡ Ok saved
        → (parts : Parts (List ℕ)) × HasShape tree parts × (with_parsed_expiry parts ≡ Some saved) }
    ensures errors { (tree : Data) → ((parts : Parts (List ℕ)) → ¬ HasShape tree parts) → saved_at tree ≡ Err ErrorCase.Shape }
{}

/// A JSON value of the shape of a list is read, or `Moment` is returned if an expiry is not a valid
/// time. Any other value is a `Shape` error: the shape of all items is tested before any time.
pub fn list_shapes_are_read()
    ensures read { (tree : Data) (parts : List (Parts (List ℕ))) → HasListShape tree parts
        → list_at tree ≡ ok_or (all_with_parsed_expiry parts) ErrorCase.Moment }
    ensures only { (tree : Data) (list : List (Parts Moment)) → list_at tree ≡ Ok list
        → (parts : List (Parts (List ℕ))) × HasListShape tree parts × (all_with_parsed_expiry parts ≡ Some list) }
    ensures errors { (tree : Data) → ((parts : List (Parts (List ℕ))) → ¬ HasListShape tree parts)
        → list_at tree ≡ Err ErrorCase.Shape }
{}

/// A line feed after a JSON text does not change what it is read as.
pub fn line_feeds_are_blank()
    ensures { (text : List ℕ) → read (text ++ 10 ∷ []) ≡ read text }
{}

/// The compact JSON of a saved cookie contains no control character, so it is one line.
pub fn compact_texts_are_lines()
    ensures { (saved : Parts Moment) (tree : Data) → written saved ≡ Ok tree → has_no_control (compact_text tree) ≡ true }
{}
