//! Removing the lines of cookies.
ghost use Rattle.std.specs.Prelude.{◌≡◌, IfOk, string_bytes};
ghost use Rattle.cookie_edit.specs.Edits.{is_gone, retained_text};

use crate::lines::{NamesCookies, push_others};
use cookie_core::CookieStore;
use cookie_parts::Cookie;
use std::alloc::{AllocError, Global};

/// Returns a `cookies.txt` file without the lines of the cookies that the store does not have,
/// expired cookies included.
///
/// Remove cookies from a store that was loaded from the file, and this removes their lines. A cookie
/// of two lines loses both. Fails only if out of memory.
pub fn retain_lines(alloc: Global, text: &str, store: &CookieStore) -> Result<String, AllocError>
    ensures { IfOk result (λ edited. string_bytes edited ≡ retained_text store.now.rows text.now) }
{
    let mut edited = String::new(alloc);
    push_others(&mut edited, text, store)?;
    Ok(edited)
}

// The cookies that the store does not have.
impl NamesCookies for CookieStore {
    ghost names = { λ store. is_gone store.rows };

    fn names_cookie(&self, cookie: &Cookie<'_>) -> bool {
        !self.contains_any(cookie.domain.as_str(), cookie.path.as_str(), cookie.name())
    }
}
