//! Laws about paths and saved cookies, stated over definitions alone.
ghost use Rattle.std.specs.Prelude.{◌≡◌, ◌↔◌, ℕ, IsTrue, List, Ok};
ghost use Rattle.cookie_raw.specs.CookieText.{cookie_text};
ghost use Rattle.cookie_raw.specs.SetCookie.{reading};
ghost use Rattle.cookie_parts.specs.Cookie.{Row};
ghost use Rattle.cookie_parts.specs.SavedConversion.{cookie_of_saved, saved_of};
ghost use Rattle.cookie_parts.specs.Path.{covers_path, CoversPath};

/// The computable test `covers_path` agrees with the path-match of RFC 6265 5.1.4.
pub fn path_match_is_tested()
    ensures { (path request : List ℕ) → IsTrue (covers_path path request) ↔ CoversPath path request }
{}

/// A cookie is unchanged by saving and loading if its raw cookie is unchanged by printing and
/// parsing.
pub fn survives_saving()
    ensures { (cookie : Row) → reading (cookie_text cookie.raw) ≡ Ok cookie.raw → cookie_of_saved (saved_of cookie) ≡ Ok cookie }
{}
