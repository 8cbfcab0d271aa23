//! Cookies that are received, with out of memory apart from the other errors.
ghost use Rattle.std.specs.Prelude.{◌≡◌, ◌≢◌, Err, IfOk, OnErr, OnOk};
ghost use Rattle.cookie_words.specs.Moments.{moment_of};
ghost use Rattle.cookie_parts.specs.Cookie.{cookie_from_header};
ghost use Rattle.cookie_parts.specs.declared.cookie_error.CookieError.{CookieError};
ghost use Rattle.cookie_parts.specs.declared.cookie_error.CookieError.TheVariants.{Memory};
ghost use Rattle.cookie_laws.specs.Runs.{step, Insert, Stored};
ghost use Rattle.cookie_strict.specs.HeaderValue.{draft_cookie};
ghost use Rattle.cookie_strict.specs.StrictRuns.{response_call, store_after_call, strict_insertion, IsStrictReply};
ghost use Rattle.cookie_strict.specs.declared.error.StrictError.TheVariants as strict_error;

use cookie_core::{CookieStore, InsertResult};
use cookie_parts::{Cookie, CookieError, CookieResult};
use cookie_raw::{RawCookie, Syntax};
use cookie_strict::{Context, StrictError, StrictResult};
use jiff::civil::DateTime;
use std::alloc::{AllocError, Global};
use url::Url;

/// Parses a `Set-Cookie` header value received from `url`. The inner error is why the cookie is
/// rejected.
pub(crate) fn parse_header(
    alloc: Global,
    text: &str,
    url: &Url,
    now: DateTime,
) -> Result<CookieResult<'static>, AllocError>
    ensures { IfOk result (λ created. cookie_from_header text.now url.now (moment_of now) ≡ created) }
{
    match Cookie::parse_owned(alloc, text, url, now) {
        Err(CookieError::Memory) => Err(AllocError),
        created => Ok(created),
    }
}

/// Parses a `Set-Cookie` header value received from `url` as the draft has it, without the checks that
/// it adds. The inner error is why it is not a cookie.
pub(crate) fn parse_draft(
    alloc: Global,
    text: &str,
    url: &Url,
    now: DateTime,
) -> Result<CookieResult<'static>, AllocError>
    ensures { IfOk result (λ created. draft_cookie text.now url.now (moment_of now) ≡ created) }
{
    let Ok(raw) = RawCookie::parse_as(text, Syntax::Rfc6265bis) else {
        return Ok(Err(CookieError::Parse));
    };
    match Cookie::from_raw_owned(alloc, raw, url, now) {
        Err(CookieError::Memory) => Err(AllocError),
        created => Ok(created),
    }
}

/// Inserts a cookie received from `url`. The inner error is why it is rejected.
pub(crate) fn insert_received(
    store: &mut CookieStore,
    cookie: Cookie<'static>,
    url: &Url,
    now: DateTime,
) -> Result<InsertResult, AllocError>
    ensures reply { IfOk result (λ reply. Stored reply ≡ (step (Insert cookie.entry url.now (moment_of now)) store.old).reply) }
    ensures store { OnOk result (store.new ≡ (step (Insert cookie.entry url.now (moment_of now)) store.old).store) }
    ensures rejected { IfOk result (λ reply. OnErr reply (store.new ≡ store.old)) }
    ensures unchanged { OnErr result (store.new ≡ store.old) }
{
    match store.insert(cookie, url, now) {
        Err(CookieError::Memory) => Err(AllocError),
        stored => Ok(stored),
    }
}

/// Parses a header value and inserts the cookie under the draft's rules. The inner error is why it is
/// rejected.
pub(crate) fn parse_strictly(
    store: &mut CookieStore,
    text: &str,
    url: &Url,
    context: Context,
    now: DateTime,
) -> Result<StrictResult, AllocError>
    ensures reply { IfOk result (λ reply. IsStrictReply reply (response_call context text.now url.now (moment_of now) store.old) store.old) }
    ensures known { IfOk result (λ reply. reply ≢ Err (strict_error.Cookie Memory)) }
    ensures store { OnOk result (store.new ≡ store_after_call (response_call context text.now url.now (moment_of now) store.old) store.old) }
    ensures rejected { IfOk result (λ reply. OnErr reply (store.new ≡ store.old)) }
    ensures unread { (error : CookieError) → draft_cookie text.now url.now (moment_of now) ≡ Err error → store.new ≡ store.old }
    ensures unchanged { OnErr result (store.new ≡ store.old) }
{
    match cookie_strict::parse_in_context(store, text, url, context, now) {
        Err(StrictError::Cookie(CookieError::Memory)) => Err(AllocError),
        stored => Ok(stored),
    }
}

/// Inserts a cookie under the draft's rules. The inner error is why it is rejected.
pub(crate) fn insert_strictly(
    store: &mut CookieStore,
    cookie: Cookie<'static>,
    url: &Url,
    now: DateTime,
) -> Result<StrictResult, AllocError>
    ensures reply { IfOk result (λ reply. IsStrictReply reply (strict_insertion cookie.entry url.now (moment_of now) store.old) store.old) }
    ensures known { IfOk result (λ reply. reply ≢ Err (strict_error.Cookie Memory)) }
    ensures store { OnOk result (store.new ≡ store_after_call (strict_insertion cookie.entry url.now (moment_of now) store.old) store.old) }
    ensures rejected { IfOk result (λ reply. OnErr reply (store.new ≡ store.old)) }
    ensures unchanged { OnErr result (store.new ≡ store.old) }
{
    match cookie_strict::insert(store, cookie, url, now) {
        Err(StrictError::Cookie(CookieError::Memory)) => Err(AllocError),
        stored => Ok(stored),
    }
}
