//! Which Secure cookies a new cookie overlays, draft-ietf-httpbis-rfc6265bis 5.7, by an index of the
//! Secure rows.
ghost use Rattle.std.specs.Prelude.{◌≡◌, ◌∷◌, ◌&&◌, ◌||◌, not, IfOk, IfSome};
ghost use Rattle.std.specs.List.{list_any, All};
ghost use Rattle.cookie_words.specs.Moments.{moment_of};
ghost use Rattle.cookie_parts.specs.Cookie.{is_secure_only};
ghost use Rattle.cookie_laws.specs.Rows.{key_of, same_key, Key};
ghost use Rattle.cookie_rows.specs.SecureKeys.{lists_key, scopes_named};
ghost use Rattle.cookie_core.specs.Overlaid.{are_related, is_overlaid, is_overlaid_in};
ghost use Rattle.cookie_core.specs.SecureIndexes.{is_secure_stored, Indexes, IsKeyed};

use crate::CookieStore;
use cookie_parts::{Cookie, cookie_domain, cookie_path};
use cookie_rows::{Rows, Scope, SecureKeys, StoreAlloc};
use jiff::civil::DateTime;
use std::alloc::{AllocError, Global};
use std::marker::Model;

// How many keys an index takes beyond as many as there were rows when it was built.
const SPARE_ROOM: usize = 16;

/// The keys of the Secure rows of a store, and maybe of some that are no longer stored.
#[derive(Drop)]
pub(crate) struct SecureIndex {
    keys: SecureKeys,
    // How many more keys it takes. Without a limit, keys of rows that are gone would pile up.
    room: usize,
}

impl Model for SecureIndex {
    ghost use Rattle.cookie_rows.specs.SecureKeys.{NamedScopes};

    ghost Value = { NamedScopes };

    ghost view = { λ index. index.keys };
}

impl CookieStore {
    /// Indexes the Secure cookies by name, so that [`overlays_secure`](Self::overlays_secure) need
    /// not read all cookies.
    ///
    /// Later insertions and removals keep the index. It is built in linear time, and again only
    /// after at least as many insertions of Secure cookies, [`clear`](Self::clear),
    /// [`retain`](Self::retain) or [`set_hash_key`](Self::set_hash_key). If memory runs out, there
    /// is no index. It changes no result.
    pub fn index_secure(&mut self)
        ensures { self.new ≡ self.old }
    {
        if self.secure.is_none() {
            self.secure = index_of(self.allocator(), &self.rows);
        }
    }

    /// Returns whether the cookie overlays a stored Secure cookie, draft-ietf-httpbis-rfc6265bis
    /// 5.7.
    ///
    /// That cookie is unexpired at `now` and has the same name, its domain covers the new one's or
    /// is covered by it, and the new one's path path-matches its path. This reads the Secure cookies
    /// of that name after [`index_secure`](Self::index_secure), and all cookies without it.
    pub fn overlays_secure(&self, cookie: &Cookie<'static>, now: DateTime) -> bool
        ensures { result ≡ list_any (is_overlaid cookie.now (moment_of now)) self.now.rows }
    {
        match &self.secure {
            Some(index) => overlays_in_scopes(&self.rows, index.scopes(cookie.name()), cookie, now),
            None => overlays_any(&self.rows, cookie, now),
        }
    }
}

impl SecureIndex {
    // The domains and paths of the keys with this name.
    fn scopes(&self, name: &str) -> &[Scope]
        ensures { result.now ≡ scopes_named name.now self.now }
    {
        self.keys.named(name)
    }

    // Returns the index with the key of the cookie, or `None` if it takes no more or memory runs out.
    fn with_key(self, cookie: &Cookie<'static>) -> Option<SecureIndex>
        ensures { IfSome result (λ index. (key : Key) → lists_key index key ≡ (same_key (key_of cookie.now) key || lists_key self key)) }
    {
        let mut keys = self.keys;
        let room = self.room.checked_sub(1)?;
        match keys.add(cookie) {
            Ok(()) => Some(SecureIndex { keys, room }),
            Err(_) => None,
        }
    }
}

/// Returns the index for the rows and a cookie that is stored next, or `None` if there is none.
pub(crate) fn with_cookie(
    index: Option<SecureIndex>,
    rows: &Rows,
    cookie: &Cookie<'static>,
) -> Option<SecureIndex>
    requires { Indexes index rows.now.rows }
    ensures { Indexes result (cookie.now ∷ rows.now.rows) }
{
    let index = index?;
    if is_new_key(rows, cookie) {
        index.with_key(cookie)
    } else {
        Some(index)
    }
}

// Whether the cookie is Secure, and the row of its key is not.
fn is_new_key(rows: &Rows, cookie: &Cookie<'static>) -> bool
    ensures { result ≡ (is_secure_only cookie.now.raw && not (is_secure_stored (key_of cookie.now) rows.now.rows)) }
{
    cookie.is_secure() && !is_secure_stored(rows, cookie)
}

// Whether the row of the cookie's key is Secure.
fn is_secure_stored(rows: &Rows, cookie: &Cookie<'static>) -> bool
    ensures { result ≡ is_secure_stored (key_of cookie.now) rows.now.rows }
{
    match rows.row_of(cookie) {
        Some(row) => row.is_secure(),
        None => false,
    }
}

// Returns an index of the rows, or `None` if memory runs out.
fn index_of(alloc: Global, rows: &Rows) -> Option<SecureIndex>
    ensures { Indexes result rows.now.rows }
{
    let Ok(keys) = secure_keys(alloc, rows) else {
        return None;
    };
    let room = rows.len().saturating_add(SPARE_ROOM);
    Some(SecureIndex { keys, room })
}

// Returns the keys of the Secure rows.
fn secure_keys(alloc: Global, rows: &Rows) -> Result<SecureKeys, AllocError>
    ensures { IfOk result (λ keys. All (IsKeyed keys) rows.now.rows) }
{
    let hash_key = rows.hash_key();
    let mut keys = SecureKeys::new(StoreAlloc { alloc, hash_key });
    for row in rows.iter() {
        if row.is_secure() {
            keys.add(row)?;
        }
    }
    Ok(keys)
}

// Whether the cookie overlays a row.
fn overlays_any(rows: &Rows, cookie: &Cookie<'static>, now: DateTime) -> bool
    ensures { result ≡ list_any (is_overlaid cookie.now (moment_of now)) rows.now.rows }
{
    rows.iter().any(|row| is_overlaid(cookie, now, row))
}

// Whether the cookie overlays a row in one of these scopes.
fn overlays_in_scopes(
    rows: &Rows,
    scopes: &[Scope],
    cookie: &Cookie<'static>,
    now: DateTime,
) -> bool
    ensures { result ≡ list_any (λ scope. list_any (is_overlaid_in cookie.now (moment_of now) scope) rows.now.rows) scopes.now }
{
    scopes
        .iter()
        .any(|scope| overlays_in_scope(rows, scope, cookie, now))
}

// Whether the cookie overlays a row in this scope.
fn overlays_in_scope(rows: &Rows, scope: &Scope, cookie: &Cookie<'static>, now: DateTime) -> bool
    ensures { result ≡ list_any (is_overlaid_in cookie.now (moment_of now) scope.now) rows.now.rows }
{
    match rows.in_scope(scope, cookie.name()) {
        Some(row) => is_overlaid(cookie, now, row),
        None => false,
    }
}

// Whether the row is Secure and has not expired, and the cookie overlays it.
fn is_overlaid(cookie: &Cookie<'static>, now: DateTime, row: &Cookie<'static>) -> bool
    ensures { result ≡ is_overlaid cookie.now (moment_of now) row.now }
{
    !row.is_expired(now)
        && row.is_secure()
        && row.name() == cookie.name()
        && are_related(row.domain.as_str(), cookie.domain.as_str())
        && cookie_path::covers(
            row.path.as_str().as_bytes(),
            cookie.path.as_str().as_bytes(),
        )
}

// Whether one of the domains covers the other.
fn are_related(a: &str, b: &str) -> bool
    ensures { result ≡ are_related a.now b.now }
{
    cookie_domain::covers(a, b) || cookie_domain::covers(b, a)
}
