//! Laws of raw cookies, stated over the definitions in `specs/`.
ghost use Rattle.std.specs.Prelude.{◌≡◌, Ok, IsTrue};
ghost use Rattle.cookie_raw.specs.CookieText.{cookie_text};
ghost use Rattle.cookie_raw.specs.PlainCookie.{is_plain};
ghost use Rattle.cookie_raw.specs.Raw.{Raw};
ghost use Rattle.cookie_raw.specs.SetCookie.{reading};

/// Printing a plain cookie and parsing the result gives an equal cookie.
pub fn reads_back()
    ensures { (cookie : Raw) → IsTrue (is_plain cookie) → reading (cookie_text cookie) ≡ Ok cookie }
{}
