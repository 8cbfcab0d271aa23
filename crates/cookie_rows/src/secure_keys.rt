//! The keys of Secure rows, by name.
ghost use Rattle.std.specs.Prelude.{◌≡◌, ◌∷◌, ◌++◌, ◌||◌, [], IfOk, OnErr, OnOk};
ghost use Rattle.cookie_laws.specs.Rows.{key_of, same_key, Key};
ghost use Rattle.cookie_rows.specs.GroupChanges.{put_at, texts_of};
ghost use Rattle.cookie_rows.specs.SecureKeys.{lists_key, scope_of, scopes_named};

use crate::hashing::{HashKey, StoreAlloc};
use cookie_parts::Cookie;
use indexmap::IndexMap;
use std::alloc::{AllocError, Global};
use std::marker::Model;

/// The domain and the path of a cookie.
#[derive(Drop)]
pub struct Scope {
    domain: String,
    path: String,
}

impl Model for Scope {
    ghost use Rattle.std.specs.Prelude.{string_bytes};
    ghost use Rattle.cookie_rows.specs.SecureKeys.{ScopeValue};

    ghost Value = { ScopeValue };

    ghost view = { λ scope. record { domain = string_bytes scope.domain; path = string_bytes scope.path } };
}

impl Scope {
    // Returns the scope of the cookie.
    fn of(alloc: Global, cookie: &Cookie<'static>) -> Result<Scope, AllocError>
        ensures { IfOk result (λ scope. scope ≡ scope_of cookie.now) }
    {
        Ok(Scope {
            domain: String::from_str(alloc, cookie.domain.as_str())?,
            path: String::from_str(alloc, cookie.path.as_str())?,
        })
    }

    /// The domain.
    pub fn domain(&self) -> &str
        ensures { result.now ≡ self.now.domain }
    {
        self.domain.as_str()
    }

    /// The path.
    pub fn path(&self) -> &str
        ensures { result.now ≡ self.now.path }
    {
        self.path.as_str()
    }
}

/// The scopes of one name.
#[derive(Drop)]
pub(crate) struct Scopes {
    scopes: Vec<Scope>,
}

impl Model for Scopes {
    ghost use Rattle.std.specs.Prelude.{List};
    ghost use Rattle.cookie_rows.specs.SecureKeys.{ScopeValue};

    ghost Value = { List ScopeValue };

    ghost view = { λ named. named.scopes.items };
}

impl Scopes {
    // Returns this scope alone.
    fn of_one(alloc: Global, scope: Scope) -> Result<Scopes, AllocError>
        ensures { IfOk result (λ named. named ≡ scope ∷ []) }
    {
        let mut scopes = Vec::new(alloc);
        scopes.push(scope)?;
        Ok(Scopes { scopes })
    }

    // Adds the scope at the end.
    fn push(&mut self, scope: Scope) -> Result<(), AllocError>
        ensures added { OnOk result (self.new ≡ self.old ++ scope ∷ []) }
        ensures unchanged { OnErr result (self.new ≡ self.old) }
    {
        self.scopes.push(scope)?;
        Ok(())
    }

    // The scopes, in order.
    fn as_slice(&self) -> &[Scope]
        ensures { result.now ≡ self.now }
    {
        self.scopes.as_slice()
    }
}

/// The keys of Secure rows: the domains and paths of each name. A key may be listed twice.
#[derive(Drop)]
pub struct SecureKeys {
    names: IndexMap<String, Scopes, HashKey>,
}

impl Model for SecureKeys {
    ghost use Rattle.cookie_rows.specs.GroupChanges.{texts_of};
    ghost use Rattle.cookie_rows.specs.SecureKeys.{NamedScopes};

    ghost Value = { NamedScopes };

    ghost view = { λ keys. texts_of keys.names.entries };
}

impl SecureKeys {
    /// Returns an empty list of keys.
    pub fn new(alloc: StoreAlloc) -> SecureKeys
        ensures { result ≡ [] }
    {
        SecureKeys {
            names: IndexMap::with_hasher(alloc.alloc, alloc.hash_key),
        }
    }

    /// Adds the key of the cookie.
    ///
    /// # Errors
    ///
    /// `AllocError`: out of memory. The keys are unchanged.
    pub fn add(&mut self, cookie: &Cookie<'static>) -> Result<(), AllocError>
        ensures added { OnOk result ((key : Key) → lists_key self.new key ≡ (same_key (key_of cookie.now) key || lists_key self.old key)) }
        ensures unchanged { OnErr result (self.new ≡ self.old) }
    {
        add_to(&mut self.names, cookie)
    }

    /// Returns the domains and paths of the keys with this name.
    pub fn named(&self, name: &str) -> &[Scope]
        ensures { result.now ≡ scopes_named name.now self.now }
    {
        match self.names.get(name) {
            Some(named) => named.as_slice(),
            None => &[],
        }
    }
}

// Adds the scope of the cookie under its name.
fn add_to(
    names: &mut IndexMap<String, Scopes, HashKey>,
    cookie: &Cookie<'static>,
) -> Result<(), AllocError>
    ensures added { OnOk result (texts_of names.new.entries
        ≡ put_at (λ named. named ++ scope_of cookie.now ∷ []) cookie.now.raw.name (texts_of names.old.entries)) }
    ensures unchanged { OnErr result (texts_of names.new.entries ≡ texts_of names.old.entries) }
{
    let alloc = *names.allocator();
    let scope = Scope::of(alloc, cookie)?;
    match names.get_mut(cookie.name()) {
        Some(named) => named.push(scope),
        None => {
            let name = String::from_str(alloc, cookie.name())?;
            names.insert(name, Scopes::of_one(alloc, scope)?)?;
            Ok(())
        }
    }
}
