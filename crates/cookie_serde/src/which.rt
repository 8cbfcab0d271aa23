//! Which cookies are saved or loaded.
ghost use Rattle.std.specs.Prelude.{◌≡◌, OnErr, OnOk, IsTrue};
ghost use Rattle.cookie_serde.specs.Selections.{is_selected, TakesCookie};

use cookie_parts::Cookie;
use cookie_rows::Rows;
use cookie_words::epoch;
use jiff::civil::DateTime;
use std::alloc::AllocError;

/// Which cookies are saved or loaded.
#[derive(Clone, Copy, Debug, PartialEq, Eq)]
pub enum Which {
    /// The persistent cookies that have not expired at this time.
    Persistent(DateTime),
    /// The cookies that have not expired at this time, session cookies included.
    Unexpired(DateTime),
    /// All cookies, expired cookies and session cookies included.
    All,
}

impl Which {
    /// Returns whether the cookie is one of those.
    pub fn selects(&self, cookie: &Cookie<'_>) -> bool
        ensures { result ≡ is_selected self.now cookie.now }
    {
        match self {
            Which::Persistent(now) => !cookie.is_expired(*now) && cookie.is_persistent(),
            Which::Unexpired(now) => !cookie.is_expired(*now),
            Which::All => true,
        }
    }
}

/// Stores the cookie if it is one of those that are loaded.
pub(crate) fn take(
    rows: &mut Rows,
    cookie: Cookie<'static>,
    which: &Which,
) -> Result<(), AllocError>
    ensures taken { OnOk result (TakesCookie which.now cookie.entry rows.old rows.new) }
    ensures unchanged { OnErr result (rows.new ≡ rows.old) }
    ensures selected { OnErr result (IsTrue (is_selected which.now cookie.entry)) }
{
    if which.selects(&cookie) {
        // whether the cookie has expired is decided, so this time is not used
        rows.take(cookie, true, epoch())
    } else {
        Ok(())
    }
}
