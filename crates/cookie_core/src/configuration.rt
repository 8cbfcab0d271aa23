//! The configuration of a store: its public suffix list, its domain limit and its hash key.
ghost use Rattle.std.specs.Option.{option_copied};
ghost use Rattle.std.specs.Prelude.{◌≡◌, ◌≢◌, ◌≤◌, [], Some, OnErr};

use crate::CookieStore;
use cookie_psl::List;
use cookie_rows::HashKey;
use std::alloc::AllocError;

impl CookieStore {
    /// Returns the public suffix list, if there is one.
    pub fn suffix_list(&self) -> Option<&List>
        ensures { option_copied result ≡ self.now.suffixes }
    {
        self.suffixes.as_ref()
    }

    /// Sets the public suffix list for later insertions. Cookies already stored are kept.
    pub fn set_suffix_list(&mut self, suffixes: List)
        ensures { self.new ≡ record self.old { suffixes = Some suffixes } }
    {
        self.suffixes = Some(suffixes);
    }

    /// Returns the store with this public suffix list, as
    /// [`set_suffix_list`](Self::set_suffix_list) sets it.
    pub fn with_suffix_list(self, suffixes: List) -> CookieStore
        ensures { result ≡ record self { suffixes = Some suffixes } }
    {
        let mut store = self;
        store.set_suffix_list(suffixes);
        store
    }

    /// Returns how many cookies a domain may have, if that is limited.
    pub fn domain_limit(&self) -> Option<usize>
        ensures { result ≡ self.now.limit }
    {
        self.limit
    }

    /// Limits each domain to `n` cookies, RFC 6265 6.1.
    ///
    /// Before a cookie is inserted into a domain that has `n` or more, cookies of that domain are
    /// evicted until `n - 1` remain: first those that have expired, then the others, both in
    /// creation order. Until then, cookies already stored are kept.
    pub fn set_domain_limit(&mut self, n: usize)
        requires { 1 ≤ n }
        ensures { self.new ≡ record self.old { limit = Some n } }
    {
        self.limit = Some(n);
    }

    /// Returns the store with this domain limit, as [`set_domain_limit`](Self::set_domain_limit)
    /// sets it.
    pub fn with_domain_limit(self, n: usize) -> CookieStore
        requires { 1 ≤ n }
        ensures { result ≡ record self { limit = Some n } }
    {
        let mut store = self;
        store.set_domain_limit(n);
        store
    }

    /// Makes the store's maps hash by `hash_key`, also those of a store that was built or loaded.
    ///
    /// The cookies are copied once. The key changes no result.
    ///
    /// # Errors
    ///
    /// `AllocError`: out of memory. The store keeps its key and its cookies. An empty store never
    /// fails.
    pub fn set_hash_key(&mut self, hash_key: HashKey) -> Result<(), AllocError>
        ensures store { self.new ≡ self.old }
        ensures memory { OnErr result (self.old.rows ≢ []) }
    {
        self.secure = None;
        let alloc = self.allocator();
        self.rows.set_hash_key(alloc, hash_key)
    }
}
