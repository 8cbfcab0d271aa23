//! The cookies of a response, and what is logged of them.
ghost use Rattle.std.specs.Prelude.{◌≡◌, ◌≢◌, Err, IfOk, OnErr, OnOk};
ghost use Rattle.std.specs.Iterator.{IsFinite};
ghost use Rattle.std.specs.Result.{result_err};
ghost use Rattle.cookie_words.specs.Moments.{moment_of};
ghost use Rattle.cookie_parts.specs.declared.cookie_error.CookieError.TheVariants.{Memory};
ghost use Rattle.cookie_core.specs.Responses.{InsertsToEnd, InsertsUntil};

use crate::{AsStore, InsertResult};
use cookie_parts::CookieError;
use cookie_raw::RawCookie;
use jiff::civil::DateTime;
use log::{Log, debug};
use std::alloc::AllocError;
use std::fmt;
use url::Url;

// The log line of a received cookie. Of a Secure cookie it has the name only.
#[derive(Drop)]
struct ReceivedLine<'a> {
    raw: &'a RawCookie<'a>,
}

impl<'a> fmt::Display for ReceivedLine<'a> {
    ghost use Rattle.std.specs.Prelude.{Some};
    ghost use Rattle.cookie_core.specs.Responses.{received_line_text};

    ghost output = { λ arrival. Some (received_line_text arrival.raw.now) };

    fn fmt<W: fmt::Write>(&self, f: &mut fmt::Formatter<W>) -> fmt::Result {
        if self.raw.is_secure() {
            write!(f, "inserting secure cookie '{}'", self.raw.name())
        } else {
            write!(f, "inserting Set-Cookie '{}'", self.raw)
        }
    }
}

/// Inserts the remaining cookies in order. If memory runs out, those before remain stored.
pub fn insert_each<'c, S: AsStore, L: Log, I: Iterator<Item = RawCookie<'c>>>(
    store: &mut S,
    logger: &L,
    cookies: &mut I,
    url: &Url,
    now: DateTime,
) -> Result<(), AllocError>
    requires can { I.can_next cookies.old }
    requires ends { IsFinite (I.remaining cookies.old) }
    ensures taken { OnOk result
        (InsertsToEnd I.next_gives cookies.old cookies.new url.now (moment_of now) (S.contents store.old) (S.contents store.new)) }
    ensures stopped { OnErr result
        (InsertsUntil I.next_gives cookies.old cookies.new url.now (moment_of now) (S.contents store.old) (S.contents store.new)) }
{
    while let Some(raw) = cookies.next() {
        log_received(logger, &raw);
        let rejection = rejection_of(store.take_raw(&raw, url, now))?;
        log_rejection(logger, rejection);
    }
    Ok(())
}

// The error of a rejected cookie, if it was rejected; `AllocError` if out of memory.
fn rejection_of(reported: InsertResult) -> Result<Option<CookieError>, AllocError>
    ensures rejection { IfOk result (λ rejection. (rejection ≡ result_err reported) × (reported ≢ Err Memory)) }
    ensures memory { OnErr result (reported ≡ Err Memory) }
{
    match reported {
        Ok(_) => Ok(None),
        Err(CookieError::Memory) => Err(AllocError),
        Err(rejection) => Ok(Some(rejection)),
    }
}

// Logs a received cookie.
fn log_received<L: Log>(logger: &L, raw: &RawCookie<'_>) {
    debug!(logger; "{}", ReceivedLine { raw });
}

// Logs why a cookie was rejected, if it was.
fn log_rejection<L: Log>(logger: &L, rejection: Option<CookieError>) {
    if let Some(rejection) = rejection {
        debug!(logger; "unable to store Set-Cookie: {rejection}");
    }
}
