//! The calls of `cookie_strict` on a durable store: insertion under the rules of browsers.
//!
//! A cookie that the rules allow is inserted as by the plain calls, and the change is committed.
ghost use Rattle.std.specs.Prelude.{◌≡◌, ◌≢◌, ◌≤◌, false, Err, IfErr, IfOk, IfSome, IsTrue, None, Ok, OnOk, Some};
ghost use Rattle.std.specs.Result.{result_ok};
ghost use Rattle.cookie_words.specs.Moments.{moment_of};
ghost use Rattle.sqlite_trees.specs.View.{doubt};
ghost use Rattle.cookie_parts.specs.Cookie.{Row};
ghost use Rattle.cookie_parts.specs.declared.cookie_error.CookieError.{CookieError};
ghost use Rattle.cookie_parts.specs.declared.cookie_error.CookieError.TheVariants.{Memory};
ghost use Rattle.cookie_laws.specs.Rows.{key_of};
ghost use Rattle.cookie_strict.specs.HeaderValue.{draft_cookie};
ghost use Rattle.cookie_strict.specs.StrictRuns.{response_call, store_after_call, strict_insertion, IsStrictReply};
ghost use Rattle.cookie_strict.specs.declared.error.StrictError.TheVariants as strict_error;
ghost use Rattle.cookie_durable.specs.Checks.{is_unstorable_at, IsReasonFor};
ghost use Rattle.cookie_durable.specs.Durable.{ChangesTo, IsAtomic, IsInStep, IsNotWritten, IsStaged};
ghost use Rattle.cookie_durable.specs.Numbering.{key_in};

use crate::numbering::Names;
use crate::receiving::{insert_strictly, parse_draft, parse_strictly};
use crate::{DurableError, DurableStore};
use cookie_parts::{Cookie, CookieResult};
pub use cookie_strict::{Context, StrictError, StrictResult};
use durable_table::Change;
use jiff::civil::DateTime;
use sqlite_trees::store::Store;
use std::alloc::Global;
use url::Url;

/// Parses a `Set-Cookie` header value of the response to a request of this context, inserts the
/// cookie under the draft's rules and commits the change. Returns what
/// [`cookie_strict::parse_in_context`] returns, which is never `Cookie(Memory)`.
///
/// With a context whose `is_same_site` is true this is [`cookie_strict::parse`].
///
/// # Errors
///
/// Those of [`insert`]. `OutOfMemory` may come before `Unstorable` and `Full`: the header value is
/// parsed first. One that is not a cookie is neither `Unstorable` nor `Full`.
pub fn parse_in_context<S: Store>(
    durable: &mut DurableStore<S>,
    alloc: Global,
    text: &str,
    url: &Url,
    context: Context,
    now: DateTime,
) -> Result<StrictResult, DurableError>
    requires { IsInStep durable.old (S.Store.view durable.old.file) }
    ensures in_step { IsInStep durable.new (S.Store.view durable.new.file) }
    ensures reply { IfOk result (λ reply. IsStrictReply reply (response_call context text.now url.now (moment_of now) durable.old.store) durable.old.store) }
    ensures memory { IfOk result (λ reply. reply ≢ Err (strict_error.Cookie Memory)) }
    ensures change { ChangesTo result durable.old durable.new (store_after_call (response_call context text.now url.now (moment_of now) durable.old.store) durable.old.store) }

    // A crash leaves the table as it was, or with the cookies after the call.
    ensures crash { IsAtomic S.Store.view S.Store.recovers durable.old durable.new
        (store_after_call (response_call context text.now url.now (moment_of now) durable.old.store) durable.old.store) }

    ensures failed { IsTrue durable.old.is_failed → result ≡ Err DurableError.Failed }
    ensures reason { IfErr result (λ e. IsReasonFor e durable.old (is_unstorable_at (moment_of now)) (result_ok (draft_cookie text.now url.now (moment_of now)))) }
    ensures table { durable.new.table ≡ durable.old.table }
    ensures clean { doubt (S.Store.view durable.old.file).is_clean ≤ doubt (S.Store.view durable.new.file).is_clean }
{
    let mut changes = Vec::new(alloc);
    let stored = stage_response(durable, alloc, text, url, context, now, &mut changes)?;
    durable.commit_changes(changes.as_slice())?;
    Ok(stored)
}

/// Inserts a cookie received from `url` under the draft's rules and commits the change. Returns what
/// [`cookie_strict::insert`] returns, which is never `Cookie(Memory)`.
///
/// # Errors
///
/// In the order in which they are checked, `NotWritten` after the rules and the others before them:
/// - `Failed`: an earlier call returned `NotWritten`.
/// - `Unstorable`: the strings of the cookie have more than 999,999,000 bytes together, or its
///   expiry, its Expires attribute or `now` is before the year 0.
/// - `Full`: no rowid is left.
/// - `OutOfMemory`: out of memory.
/// - `NotWritten`: the cookie was inserted, and the change was not committed.
pub fn insert<S: Store>(
    durable: &mut DurableStore<S>,
    alloc: Global,
    cookie: Cookie<'static>,
    url: &Url,
    now: DateTime,
) -> Result<StrictResult, DurableError>
    requires { IsInStep durable.old (S.Store.view durable.old.file) }
    ensures in_step { IsInStep durable.new (S.Store.view durable.new.file) }
    ensures reply { IfOk result (λ reply. IsStrictReply reply (strict_insertion cookie.entry url.now (moment_of now) durable.old.store) durable.old.store) }
    ensures memory { IfOk result (λ reply. reply ≢ Err (strict_error.Cookie Memory)) }
    ensures change { ChangesTo result durable.old durable.new (store_after_call (strict_insertion cookie.entry url.now (moment_of now) durable.old.store) durable.old.store) }

    // A crash leaves the table as it was, or with the cookies after the call.
    ensures crash { IsAtomic S.Store.view S.Store.recovers durable.old durable.new
        (store_after_call (strict_insertion cookie.entry url.now (moment_of now) durable.old.store) durable.old.store) }

    ensures failed { IsTrue durable.old.is_failed → result ≡ Err DurableError.Failed }
    ensures reason { IfErr result (λ e. IsReasonFor e durable.old (is_unstorable_at (moment_of now)) (Some cookie.entry)) }
    ensures unstorable { durable.old.is_failed ≡ false → IsTrue (is_unstorable_at (moment_of now) cookie.entry) → result ≡ Err DurableError.Unstorable }
    ensures table { durable.new.table ≡ durable.old.table }
    ensures clean { doubt (S.Store.view durable.old.file).is_clean ≤ doubt (S.Store.view durable.new.file).is_clean }
{
    let mut changes = Vec::new(alloc);
    let stored = stage_insertion(durable, alloc, cookie, url, now, &mut changes)?;
    durable.commit_changes(changes.as_slice())?;
    Ok(stored)
}

// Parses a header value, and inserts the cookie in memory under the draft's rules. Adds the change of
// the table to `changes`.
fn stage_response<S: Store>(
    durable: &mut DurableStore<S>,
    alloc: Global,
    text: &str,
    url: &Url,
    context: Context,
    now: DateTime,
    changes: &mut Vec<Change>,
) -> Result<StrictResult, DurableError>
    requires { IsStaged durable.old changes.old.items (S.Store.view durable.old.file) }
    ensures staged { IsStaged durable.new changes.new.items (S.Store.view durable.new.file) }
    ensures works { OnOk result (durable.old.is_failed ≡ false) }
    ensures reply { IfOk result (λ reply. IsStrictReply reply (response_call context text.now url.now (moment_of now) durable.old.store) durable.old.store) }
    ensures memory { IfOk result (λ reply. reply ≢ Err (strict_error.Cookie Memory)) }
    ensures change { ChangesTo result durable.old durable.new (store_after_call (response_call context text.now url.now (moment_of now) durable.old.store) durable.old.store) }
    ensures failed { IsTrue durable.old.is_failed → result ≡ Err DurableError.Failed }
    ensures reason { IfErr result (λ e. IsReasonFor e durable.old (is_unstorable_at (moment_of now)) (result_ok (draft_cookie text.now url.now (moment_of now)))) }
    ensures file { durable.new.file ≡ durable.old.file }
    ensures table { durable.new.table ≡ durable.old.table }
{
    if durable.is_failed {
        return Err(DurableError::Failed);
    }
    let names = names_in_header(durable, alloc, text, url, now)?;
    let stored = parse_strictly(&mut durable.store, text, url, context, now)?;
    match names {
        Some(names) => match stored {
            Ok(action) => {
                durable.stage_key(alloc, names, changes)?;
                Ok(Ok(action))
            }
            Err(rejection) => Ok(Err(rejection)),
        },
        // rejected
        None => Ok(stored),
    }
}

// Inserts a received cookie in memory under the draft's rules. Adds the change of the table to
// `changes`.
fn stage_insertion<S: Store>(
    durable: &mut DurableStore<S>,
    alloc: Global,
    cookie: Cookie<'static>,
    url: &Url,
    now: DateTime,
    changes: &mut Vec<Change>,
) -> Result<StrictResult, DurableError>
    requires { IsStaged durable.old changes.old.items (S.Store.view durable.old.file) }
    ensures staged { IsStaged durable.new changes.new.items (S.Store.view durable.new.file) }
    ensures works { OnOk result (durable.old.is_failed ≡ false) }
    ensures reply { IfOk result (λ reply. IsStrictReply reply (strict_insertion cookie.entry url.now (moment_of now) durable.old.store) durable.old.store) }
    ensures memory { IfOk result (λ reply. reply ≢ Err (strict_error.Cookie Memory)) }
    ensures change { ChangesTo result durable.old durable.new (store_after_call (strict_insertion cookie.entry url.now (moment_of now) durable.old.store) durable.old.store) }
    ensures failed { IsTrue durable.old.is_failed → result ≡ Err DurableError.Failed }
    ensures reason { IfErr result (λ e. IsReasonFor e durable.old (is_unstorable_at (moment_of now)) (Some cookie.entry)) }
    ensures unstorable { durable.old.is_failed ≡ false → IsTrue (is_unstorable_at (moment_of now) cookie.entry) → result ≡ Err DurableError.Unstorable }
    ensures file { durable.new.file ≡ durable.old.file }
    ensures table { durable.new.table ≡ durable.old.table }
{
    let names = durable.names_to_write_at(alloc, &cookie, now)?;
    match insert_strictly(&mut durable.store, cookie, url, now)? {
        Ok(action) => {
            durable.stage_key(alloc, names, changes)?;
            Ok(Ok(action))
        }
        Err(rejection) => Ok(Err(rejection)),
    }
}

// Returns the domain, path and name of the cookie of a header value, if it is one, and checks whether
// it can be written.
fn names_in_header<S: Store>(
    durable: &DurableStore<S>,
    alloc: Global,
    text: &str,
    url: &Url,
    now: DateTime,
) -> Result<Option<Names>, DurableError>
    ensures key { IfOk result (λ found. IfSome found (λ names. (cookie : Row)
        × (draft_cookie text.now url.now (moment_of now) ≡ Ok cookie) × (key_in names ≡ key_of cookie))) }
    ensures none { result ≡ Ok None → (error : CookieError) × (draft_cookie text.now url.now (moment_of now) ≡ Err error) }
    ensures reason { IfErr result (λ e. IsReasonFor e durable.now (is_unstorable_at (moment_of now)) (result_ok (draft_cookie text.now url.now (moment_of now)))) }
    ensures early { IfErr result (λ e. ¬ IsNotWritten e) }
{
    let created = parse_draft(alloc, text, url, now)?;
    names_if_created(durable, alloc, &created, now)
}

// The same for what was parsed of the header value.
fn names_if_created<S: Store>(
    durable: &DurableStore<S>,
    alloc: Global,
    created: &CookieResult<'static>,
    now: DateTime,
) -> Result<Option<Names>, DurableError>
    ensures key { IfOk result (λ found. IfSome found (λ names. (cookie : Row) × (created.now ≡ Ok cookie) × (key_in names ≡ key_of cookie))) }
    ensures none { result ≡ Ok None → (error : CookieError) × (created.now ≡ Err error) }
    ensures reason { IfErr result (λ e. IsReasonFor e durable.now (is_unstorable_at (moment_of now)) (result_ok created.now)) }
    ensures early { IfErr result (λ e. ¬ IsNotWritten e) }
{
    match created {
        Ok(cookie) => {
            let names = durable.names_to_write_at(alloc, cookie, now)?;
            Ok(Some(names))
        }
        Err(_) => Ok(None),
    }
}
