//! The cookies of a response under the draft's rules.
ghost use Rattle.std.specs.Prelude.{◌≡◌, ◌≢◌, map, Err, OnErr, OnOk};
ghost use Rattle.cookie_words.specs.Moments.{moment_of};
ghost use Rattle.cookie_parts.specs.declared.cookie_error.CookieError.TheVariants.{Memory};
ghost use Rattle.cookie_strict.specs.StrictRuns.{set_calls, strict_store_after, StopsAt};
ghost use Rattle.cookie_strict.specs.declared.error.StrictError.TheVariants.{Cookie};

use crate::{StrictError, StrictResult, parse};
use cookie_core::CookieStore;
use cookie_parts::CookieError;
use jiff::civil::DateTime;
use std::alloc::AllocError;
use url::Url;

/// Inserts the cookies of a response received from `url`, by its `Set-Cookie` header values in
/// order, as [`parse`] does. A cookie that is rejected is skipped.
///
/// # Errors
///
/// `AllocError`: out of memory, at a header value that has no control character, is a cookie, is not
/// too long, and has none of the errors of `Cookie::parse` that [`parse`] returns whatever memory is
/// left. The cookies before that one are stored.
pub fn store_response_cookies(
    store: &mut CookieStore,
    values: &[&str],
    url: &Url,
    now: DateTime,
) -> Result<(), AllocError>
    ensures stored { OnOk result
        (store.new ≡ strict_store_after (set_calls url.now (moment_of now) (map (λ v. v.now) values.now)) store.old) }
    ensures stopped { OnErr result (StopsAt url.now (moment_of now) (map (λ v. v.now) values.now) store.old store.new) }
{
    for value in values {
        unless_memory(parse(store, value, url, now))?;
    }
    Ok(())
}

// Out of memory is an error; that a cookie was rejected is none.
fn unless_memory(reported: StrictResult) -> Result<(), AllocError>
    ensures done { OnOk result (reported ≢ Err (Cookie Memory)) }
    ensures memory { OnErr result (reported ≡ Err (Cookie Memory)) }
{
    match reported {
        Err(StrictError::Cookie(CookieError::Memory)) => Err(AllocError),
        _ => Ok(()),
    }
}
