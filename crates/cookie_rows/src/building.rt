//! Rows are built from cookies.
ghost use Rattle.std.specs.Prelude.{◌≡◌, ◌⊎◌, IfErr, IfOk};
ghost use Rattle.std.specs.Iterator.{IsFinite};
ghost use Rattle.cookie_words.specs.Moments.{moment_of};
ghost use Rattle.cookie_rows.specs.Building.{BuildsAt, FailsFirstAt, ReachesNewRowAt};

use crate::hashing::StoreAlloc;
use crate::rows::Rows;
use cookie_parts::{Cookie, Error};
use jiff::civil::DateTime;

// Builds the rows from the remaining cookies. Takes no item after an error of the iterator, or
// after a cookie for which memory ran out.
pub(crate) fn build<I: Iterator<Item = Result<Cookie<'static>, Error>>>(
    alloc: StoreAlloc,
    cookies: &mut I,
    include_expired: bool,
    now: DateTime,
) -> Result<Rows, Error>
    requires can { I.can_next cookies.old }
    requires ends { IsFinite (I.remaining cookies.old) }
    ensures built { IfOk result (λ rows. BuildsAt I.next_gives cookies.old cookies.new include_expired (moment_of now) rows) }
    ensures failed { IfErr result (λ error.
        ((error ≡ Error.Memory) × ReachesNewRowAt I.next_gives cookies.old cookies.new include_expired (moment_of now))
        ⊎ FailsFirstAt I.next_gives cookies.old cookies.new error) }
{
    let mut built = Rows::new(alloc);
    while let Some(item) = cookies.next() {
        let cookie = item?;
        match built.take(cookie, include_expired, now) {
            Ok(()) => {}
            Err(_) => return Err(Error::Memory),
        }
    }
    Ok(built)
}
