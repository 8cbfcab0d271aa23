//! Insertion of a cookie under the draft's rules.
ghost use Rattle.std.specs.Prelude.{◌≡◌, ◌≢◌, Err, None, Ok, Some, IfErr, IfOk, IsTrue, OnErr, OnOk};
ghost use Rattle.cookie_words.specs.Moments.{moment_of};
ghost use Rattle.cookie_raw.specs.Rfc6265bis.{reading_by};
ghost use Rattle.cookie_raw.specs.declared.syntax.Syntax.TheVariants.{Rfc6265bis};
ghost use Rattle.cookie_parts.specs.Cookie.{early, early_error};
ghost use Rattle.cookie_parts.specs.declared.cookie_error.CookieError.{CookieError};
ghost use Rattle.cookie_parts.specs.declared.cookie_error.CookieError.TheVariants.{Memory};
ghost use Rattle.cookie_laws.specs.Contents.{HasCreationOrder};
ghost use Rattle.cookie_laws.specs.Rows.{are_rows};
ghost use Rattle.cookie_laws.specs.Runs.{step, Insert, Set, Stored};
ghost use Rattle.cookie_core.specs.Insertions.{IsAccepted};
ghost use Rattle.cookie_strict.specs.HeaderValue.{header_error, pair_error, PassesEarlyChecks};
ghost use Rattle.cookie_strict.specs.StrictRuns.{allowed_insertion, raw_insertion, response_call, response_error, site_reply, strict_call, strict_insertion, store_after_call, InsertsNew, IsStrictReply};
ghost use Rattle.cookie_strict.specs.declared.error.StrictError.{StrictError};
ghost use Rattle.cookie_strict.specs.declared.error.StrictError.TheVariants as strict_error;

use crate::context::is_accepted;
use crate::header_value::{checked_raw, pair_error};
use crate::rules::{broken_rule, index_secure, limited_expiry};
use crate::site::is_above_site;
use crate::{Context, StrictError, StrictResult};
use cookie_core::{Acceptance, CookieStore};
use cookie_laws::evictions_are_removals;
use cookie_parts::{Cookie, CookieError};
use cookie_raw::RawCookie;
use cookie_rows::EvictionOrder;
use jiff::civil::DateTime;
use url::Url;

/// Parses a `Set-Cookie` header value received from `url` and inserts the cookie under the draft's
/// rules.
///
/// `text` is parsed as the draft has it, [`Syntax::Rfc6265bis`](cookie_raw::Syntax), and the cookie
/// expires at most 400 days from `now`. On any error, out of memory included, the store is unchanged.
///
/// # Errors
///
/// In the order in which they are checked:
/// - `ControlCharacter`: `text` has a control character other than HTAB.
/// - `Cookie(Parse)`: `text` is not a cookie.
/// - `TooLong`: the name and the value together are longer than 4,096 bytes.
/// - `Cookie(DomainMismatch)`: the Domain attribute has white space, or is not ASCII.
/// - `Cookie`: those of [`Cookie::parse`].
/// - Those of [`insert`].
///
/// `Cookie(Memory)`: out of memory. Never in place of the first four, nor of the `NonHttpScheme` of
/// [`Cookie::parse`], nor of `NonRelativeScheme` without a Domain attribute.
pub fn parse(store: &mut CookieStore, text: &str, url: &Url, now: DateTime) -> StrictResult
    ensures reply { IsStrictReply result (strict_call (Set text.now url.now (moment_of now)) store.old) store.old }
    ensures store { OnOk result (store.new
        ≡ store_after_call (strict_call (Set text.now url.now (moment_of now)) store.old) store.old) }
    ensures unchanged { OnErr result (store.new ≡ store.old) }
    ensures early { (error : StrictError) → header_error text.now ≡ Some error → result ≡ Err error }
    ensures early_cookie { header_error text.now ≡ None → (error : CookieError)
        → early (reading_by Rfc6265bis text.now) url.now ≡ Some error → result ≡ Err (strict_error.Cookie error) }
    ensures memory { result ≡ Err (strict_error.Cookie Memory) → PassesEarlyChecks text.now url.now }
{
    let raw = checked_raw(text)?;
    insert_raw(store, raw, url, now)
}

/// Parses a `Set-Cookie` header value of the response to a request of this context, as [`parse`] does,
/// and inserts the cookie unless the response may not set it.
///
/// The response to a cross-site request may set cookies with SameSite=None, and others only if the
/// request was a top-level navigation. On any error, out of memory included, the store is unchanged.
///
/// # Errors
///
/// Those of [`parse`], and `CrossSite`: the response may not set the cookie. It comes after the first
/// four.
pub fn parse_in_context(
    store: &mut CookieStore,
    text: &str,
    url: &Url,
    context: Context,
    now: DateTime,
) -> StrictResult
    ensures reply { IsStrictReply result (response_call context text.now url.now (moment_of now) store.old) store.old }
    ensures store { OnOk result (store.new
        ≡ store_after_call (response_call context text.now url.now (moment_of now) store.old) store.old) }
    ensures unchanged { OnErr result (store.new ≡ store.old) }
    ensures early { (error : StrictError) → response_error context text.now ≡ Some error → result ≡ Err error }
    ensures early_cookie { response_error context text.now ≡ None → (error : CookieError)
        → early (reading_by Rfc6265bis text.now) url.now ≡ Some error → result ≡ Err (strict_error.Cookie error) }
    ensures memory { result ≡ Err (strict_error.Cookie Memory) → PassesEarlyChecks text.now url.now }
{
    let raw = checked_raw(text)?;
    if !is_accepted(context, &raw) {
        return Err(StrictError::CrossSite);
    }
    insert_raw(store, raw, url, now)
}

// Inserts a raw cookie whose name and value passed `pair_error`.
fn insert_raw(store: &mut CookieStore, raw: RawCookie<'_>, url: &Url, now: DateTime) -> StrictResult
    requires pair { pair_error raw ≡ None }
    ensures reply { IsStrictReply result (raw_insertion raw.entry url.now (moment_of now) store.old) store.old }
    ensures store { OnOk result (store.new
        ≡ store_after_call (raw_insertion raw.entry url.now (moment_of now) store.old) store.old) }
    ensures unchanged { OnErr result (store.new ≡ store.old) }
    ensures early { (error : CookieError) → early_error raw.entry url.now ≡ Some error
        → result ≡ Err (strict_error.Cookie error) }
{
    let cookie = Cookie::from_raw_owned(store.allocator(), raw, url, now)?;
    insert_checked(store, cookie, url, now)
}

/// Inserts a cookie received from `url` under the draft's rules.
///
/// The cookie expires at most 400 days from `now`. If the domain has the limit of cookies, an expired
/// one is evicted first, then one that is not Secure, then a Secure one, in each case the one that
/// was created first. On any error, out of memory included, the store is unchanged.
///
/// # Errors
///
/// In the order in which they are checked:
/// - `ControlCharacter`: the name or the value has a control character other than HTAB.
/// - `TooLong`: the name and the value together are longer than 4,096 bytes.
/// - `Cookie`: those of [`CookieStore::check_admitted`].
/// - `Cookie(PublicSuffix)`: the store has a public suffix list, and the cookie is a domain cookie
///   whose domain is not a registrable domain suffix of the URL's host, HTML 7.1.1.2.
/// - `Cookie`: those of [`CookieStore::check_stored`].
/// - `InsecureUrl`: the cookie is Secure, and the URL is not secure.
/// - `InsecureSameSiteNone`: the cookie has SameSite=None and is not Secure.
/// - `Prefix`: the name begins with `__Secure-` and the cookie is not Secure; or it begins with
///   `__Host-` and the cookie is not Secure, is not host-only, or has no Path attribute `/`; or it
///   begins with `__Http-` or `__Host-Http-` and the cookie is not Secure or not HttpOnly.
/// - `SecureStored`: neither the cookie nor the URL is secure, and the store has an unexpired
///   Secure cookie of the same name, whose domain covers the new one's or is covered by it, and
///   whose path the new one's path-matches.
/// - `SecureLimit`: the cookie is not Secure and would be `Inserted`, and its domain has the limit of
///   unexpired Secure cookies.
/// - `Cookie(Memory)`: out of memory. Only if the cookie would be `Inserted`.
pub fn insert(
    store: &mut CookieStore,
    cookie: Cookie<'static>,
    url: &Url,
    now: DateTime,
) -> StrictResult
    ensures reply { IsStrictReply result (strict_insertion cookie.entry url.now (moment_of now) store.old) store.old }
    ensures store { OnOk result (store.new
        ≡ store_after_call (strict_insertion cookie.entry url.now (moment_of now) store.old) store.old) }
    ensures unchanged { OnErr result (store.new ≡ store.old) }
    ensures memory { result ≡ Err (strict_error.Cookie Memory)
        → InsertsNew (strict_insertion cookie.entry url.now (moment_of now) store.old) store.old }
{
    if let Some(error) = pair_error(cookie.raw()) {
        return Err(error);
    }
    insert_checked(store, cookie, url, now)
}

// Inserts a cookie whose name and value passed `pair_error`.
fn insert_checked(
    store: &mut CookieStore,
    cookie: Cookie<'static>,
    url: &Url,
    now: DateTime,
) -> StrictResult
    requires pair { pair_error cookie.raw ≡ None }
    ensures reply { IsStrictReply result (strict_insertion cookie.entry url.now (moment_of now) store.old) store.old }
    ensures store { OnOk result (store.new
        ≡ store_after_call (strict_insertion cookie.entry url.now (moment_of now) store.old) store.old) }
    ensures unchanged { OnErr result (store.new ≡ store.old) }
    ensures memory { result ≡ Err (strict_error.Cookie Memory)
        → InsertsNew (strict_insertion cookie.entry url.now (moment_of now) store.old) store.old }
{
    let mut cookie = cookie;
    cookie.expires = limited_expiry(cookie.expires, now);
    insert_limited(store, cookie, url, now)
}

// Inserts a cookie that expires in time.
fn insert_limited(
    store: &mut CookieStore,
    cookie: Cookie<'static>,
    url: &Url,
    now: DateTime,
) -> StrictResult
    ensures reply { IsStrictReply result (allowed_insertion cookie.entry url.now (moment_of now) store.old) store.old }
    ensures store { OnOk result (store.new
        ≡ store_after_call (allowed_insertion cookie.entry url.now (moment_of now) store.old) store.old) }
    ensures unchanged { OnErr result (store.new ≡ store.old) }
    ensures memory { result ≡ Err (strict_error.Cookie Memory)
        → InsertsNew (allowed_insertion cookie.entry url.now (moment_of now) store.old) store.old }
{
    let acceptance = check_insert(store, &cookie, url, now)?;
    index_secure(store, &cookie, url);
    if let Some(error) = broken_rule(store, &cookie, url, now) {
        return Err(error);
    }
    // for the checker: the eviction leaves what the removals leave
    evictions_are_removals();
    Ok(store.insert_accepted(cookie, acceptance, EvictionOrder::SecureLast, now)?)
}

// Returns how the store accepts the cookie, or why it does not, and `PublicSuffix` for a domain cookie
// above the site of the URL's host, but never `Memory`.
#[tactic(auto, unfolding(cookie_laws::specs::Acceptance::accept))]
fn check_insert(
    store: &CookieStore,
    cookie: &Cookie<'static>,
    url: &Url,
    now: DateTime,
) -> Result<Acceptance, CookieError>
    ensures reply { IfOk result (λ acceptance. site_reply cookie.now url.now (moment_of now) store.now ≡ Ok acceptance.action) }
    ensures rejected { IfErr result (λ error. site_reply cookie.now url.now (moment_of now) store.now ≡ Err error) }
    ensures accepted { IfOk result (λ acceptance. IsAccepted url.now store.now cookie.now (moment_of now) acceptance) }
    ensures inserted { IfOk result (λ acceptance.
        (step (Insert cookie.now url.now (moment_of now)) store.now).reply ≡ Stored (Ok acceptance.action)) }
    ensures errors { IfErr result (λ error. error ≢ Memory) }
    ensures in_order { OnOk result (IsTrue (are_rows store.now.rows)) }
    ensures has_creation_order { OnOk result (HasCreationOrder store.now) }
{
    let is_host_only = store.check_admitted(cookie, url)?;
    if let Some(list) = store.suffix_list()
        && !is_host_only
        && is_above_site(&cookie.domain, url, list)
    {
        return Err(CookieError::PublicSuffix);
    }
    Ok(Acceptance {
        is_host_only,
        action: store.check_stored(cookie, url, now)?,
    })
}
