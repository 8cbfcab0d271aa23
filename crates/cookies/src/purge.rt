//! Removing the cookies that have expired, session cookies, or those of a domain.
ghost use Rattle.std.specs.Prelude.{◌≡◌, ◌&&◌, ◌||◌, bytes_eq, is_none, not, OnOk};
ghost use Rattle.std.specs.Option.{option_copied};
ghost use Rattle.cookie_words.specs.Moments.{moment_of};
ghost use Rattle.cookie_parts.specs.Domain.{domain_text};
ghost use Rattle.cookie_durable.specs.Durable.{IsInStep};
ghost use Rattle.cookies.specs.Purges.{is_stale, without_domain, without_stale};

use cookie_durable::{DurableError, DurableStore};
use cookie_store::{Cookie, CookieStore};
use jiff::civil::DateTime;
use sqlite_trees::store::Store;
use std::alloc::Global;

/// Which cookies to remove: those that one of its parts names.
#[derive(Clone, Copy, Debug, PartialEq, Eq)]
pub struct Purge<'a> {
    /// Whether to remove expired cookies.
    pub is_expired: bool,
    /// Whether to remove session cookies.
    pub is_session: bool,
    /// The domain whose cookies to remove.
    pub domain: Option<&'a str>,
}

impl<'a> Purge<'a> {
    /// Returns what the options ask for: without any, the expired cookies.
    pub fn of_options(is_expired: bool, is_session: bool, domain: Option<&'a str>) -> Purge<'a>
        ensures expired { result.is_expired ≡ (is_expired || (not is_session && is_none domain.entry)) }
        ensures session { result.is_session ≡ is_session }
        ensures domain { result.domain ≡ domain.entry }
    {
        Purge {
            is_expired: is_expired || (!is_session && domain.is_none()),
            is_session,
            domain,
        }
    }
}

/// Removes from `store` the cookies that `purge` names. The others keep their order.
pub fn remove_purged(store: &mut CookieStore, purge: Purge<'_>, now: DateTime)
    ensures { store.new ≡ without_domain (option_copied purge.entry.domain) (without_stale purge.entry (moment_of now) store.old) }
{
    let (is_expired, is_session) = (purge.is_expired, purge.is_session);
    store.retain(move |cookie| !is_stale(is_expired, is_session, cookie, now));
    if let Some(domain) = purge.domain {
        store.remove_domain(domain);
    }
}

/// Removes the cookies that `purge` names from a SQLite file: in one commit those that have expired and
/// session cookies, then those of the domain.
pub fn remove_purged_rows<S: Store>(
    alloc: Global,
    database: &mut DurableStore<S>,
    purge: Purge<'_>,
    now: DateTime,
) -> Result<(), DurableError>
    requires { IsInStep database.old (S.Store.view database.old.file) }
    ensures in_step { IsInStep database.new (S.Store.view database.new.file) }
    ensures store { OnOk result (database.new.store ≡ without_domain (option_copied purge.entry.domain) (without_stale purge.entry (moment_of now) database.old.store)) }
{
    let (is_expired, is_session) = (purge.is_expired, purge.is_session);
    database.retain(alloc, move |cookie| {
        !is_stale(is_expired, is_session, cookie, now)
    })?;
    if let Some(domain) = purge.domain {
        database.retain(alloc, |cookie| has_other_domain(cookie, domain))?;
    }
    Ok(())
}

// Whether the cookie has another domain.
fn has_other_domain(cookie: &Cookie<'_>, domain: &str) -> bool
    ensures { result ≡ not (bytes_eq domain.now (domain_text cookie.now.domain)) }
{
    domain != cookie.domain.as_str()
}

// Whether the cookie has expired and `is_expired`, or is a session cookie and `is_session`.
fn is_stale(is_expired: bool, is_session: bool, cookie: &Cookie<'_>, now: DateTime) -> bool
    ensures { result ≡ is_stale is_expired is_session (moment_of now) cookie.now }
{
    (is_expired && cookie.is_expired(now)) || (is_session && !cookie.is_persistent())
}
