//! The rows of a store, as one list.
ghost use Rattle.std.specs.Prelude.{◌≡◌, ◌≢◌, ◌≤◌, ◌<◌, false, ◌+◌, ◌*◌, [], ◌∷◌, Bool, length, map, IfErr, IfOk, IfSome, IsTrue, None, OnErr, OnOk, Some, ◌⊎◌};
ghost use Rattle.std.specs.Fn.{FnReturnsAt};
ghost use Rattle.std.specs.Iterator.{IsFinite};
ghost use Rattle.std.specs.Option.{option_copied};
ghost use Rattle.cookie_words.specs.Moments.{moment_of};
ghost use Rattle.cookie_parts.specs.Cookie.{expired_row, is_expired, Row};
ghost use Rattle.cookie_laws.specs.Contents.{contents_of, retained, rows_in_order, unexpired, HasCreationOrder, ReturnsTest};
ghost use Rattle.cookie_laws.specs.Given.{given};
ghost use Rattle.cookie_laws.specs.Header.{InHeaderOrder};
ghost use Rattle.cookie_laws.specs.Rows.{are_rows, changed, has_key, included, is_unexpired, key_at, key_of, unexpired_rows, add_created, add_all_created, put, put_all, removed, row_of, same_key, RowsInOrder};
ghost use Rattle.cookie_laws.specs.SecureLast.{is_full_of_secure};
ghost use Rattle.cookie_lookup.specs.SearchView.{domains_found, paths_found};
ghost use Rattle.cookie_lookup.specs.Candidates.{most_domains, most_paths};
ghost use Rattle.cookie_rows.specs.Building.{Builds, FailsFirst, IsNewRow, TakesCookie, ReachesNewRow};
ghost use Rattle.cookie_rows.specs.Eviction.{with_inserted, HasRoom};
ghost use Rattle.cookie_rows.specs.Items.{AreItems, groups_in_order};
ghost use Rattle.cookie_rows.specs.Retained.{has_other_domain};
ghost use Rattle.cookie_rows.specs.Stored.{domains_in};

use crate::boxed::BoxedCookie;
use crate::building::build;
use crate::copying::rehashed_map;
use crate::domains::{
    add_row, expire_row, find_row, insert_row_within_limit, put_row, remove_row, replace_row,
    retain_groups,
};
use crate::eviction_order::EvictionOrder;
use crate::hashing::{HashKey, StoreAlloc};
use crate::header_order::in_header_order;
use crate::iter::{IterAny, IterUnexpired, count_rows};
use crate::map_search::searched;
use crate::paths::Paths;
use crate::secure_keys::Scope;
use crate::secure_rows;
use cookie_lookup::Lookups;
use cookie_parts::{Cookie, Error};
use jiff::civil::DateTime;
use ordered_map::OrderedMap;
use std::alloc::{AllocError, Global};
use std::marker::Model;
use url::Url;

/// The rows of a store, RFC 6265 5.3.
///
/// No two rows have the same domain, path and name. Rows of one domain are adjacent, and among them
/// those of one path: a new row is added after those, and a row that replaces another takes its
/// position.
#[derive(Drop)]
pub struct Rows {
    groups: OrderedMap<Paths, HashKey>,
    // The number of the next new row; all rows have smaller numbers.
    created: u64,
    // The number of rows.
    len: usize,
}

impl Model for Rows {
    ghost Value = { RowsInOrder };

    ghost view = { λ r. groups_in_order (domains_in r.groups) };

    ghost invariant = { λ r. AreItems r.created (domains_in r.groups)
        × (r.len ≡ length (groups_in_order (domains_in r.groups)).rows) };
}

impl Clone for Rows {
    ghost is_clone = { λ rows copy. copy ≡ rows };

    fn clone(&self) -> Result<Rows, AllocError> {
        self.rehashed(*self.groups.allocator(), *self.groups.hasher())
    }
}

impl Rows {
    /// Returns an empty list of rows.
    pub fn new(alloc: StoreAlloc) -> Rows
        ensures { result ≡ record { rows = []; created = [] } }
    {
        Rows {
            groups: OrderedMap::with_hasher(alloc.alloc, alloc.hash_key),
            created: 0,
            len: 0,
        }
    }

    /// Builds the rows from cookies, stored one after the other: a cookie replaces an earlier one
    /// with the same domain, path and name. Expired cookies are skipped unless `include_expired`.
    ///
    /// Stops at the first error, and takes no further item from the iterator.
    ///
    /// # Errors
    ///
    /// - the first error that the iterator yields
    /// - `Memory`: out of memory, only at a cookie that would be a new row
    pub fn from_cookies<I: Iterator<Item = Result<Cookie<'static>, Error>> + Drop>(
        alloc: StoreAlloc,
        mut cookies: I,
        include_expired: bool,
        now: DateTime,
    ) -> Result<Rows, Error>
        requires can { I.can_next cookies }
        requires ends { IsFinite (I.remaining cookies) }
        ensures built { IfOk result (λ rows. Builds I.next_gives cookies include_expired (moment_of now) rows) }
        ensures failed { IfErr result (λ error.
            ((error ≡ Error.Memory) × ReachesNewRow I.next_gives cookies include_expired (moment_of now))
            ⊎ FailsFirst I.next_gives cookies error) }
    {
        build(alloc, &mut cookies, include_expired, now)
    }

    /// Returns the row of this domain, path and name, if there is one.
    pub fn named(&self, domain: &str, path: &str, name: &str) -> Option<&Cookie<'static>>
        ensures value { option_copied result ≡ row_of (key_at domain.now path.now name.now) self.now.rows }
        ensures in_order { IsTrue (are_rows self.now.rows) }
        ensures has_creation_order { HasCreationOrder (contents_of self.now None None) }
    {
        find_row(&self.groups, domain, path, name)
    }

    /// Returns the row of the cookie's domain, path and name, if there is one.
    pub fn row_of(&self, cookie: &Cookie<'static>) -> Option<&Cookie<'static>>
        ensures value { option_copied result ≡ row_of (key_of cookie.now) self.now.rows }
        ensures in_order { IsTrue (are_rows self.now.rows) }
        ensures has_creation_order { HasCreationOrder (contents_of self.now None None) }
    {
        self.named(cookie.domain.as_str(), cookie.path.as_str(), cookie.name())
    }

    /// Returns the row of this domain, path and name, if there is one.
    pub fn in_scope(&self, scope: &Scope, name: &str) -> Option<&Cookie<'static>>
        ensures row { option_copied result ≡ row_of (key_at scope.now.domain scope.now.path name.now) self.now.rows }
        ensures in_order { IsTrue (are_rows self.now.rows) }
    {
        find_row(&self.groups, scope.domain(), scope.path(), name)
    }

    /// Returns an iterator over all rows, in order.
    pub fn iter(&self) -> IterAny<'_>
        ensures { result ≡ self.now.rows }
    {
        IterAny::new(self.groups.values())
    }

    /// Returns an iterator over the rows that have not expired at `now`, in order.
    pub fn iter_unexpired(&self, now: DateTime) -> IterUnexpired<'_>
        ensures { result ≡ unexpired_rows (moment_of now) self.now.rows }
    {
        IterUnexpired::new(self.iter(), now)
    }

    /// Returns the rows given for `url` at `now`, RFC 6265 5.4, in order, and how many lookups that
    /// took: at least one lookup for each domain found, and one for each path found.
    ///
    /// # Errors
    ///
    /// `AllocError`: out of memory, only if at least one row is given.
    pub fn given_counted(
        &self,
        alloc: Global,
        url: &Url,
        now: DateTime,
    ) -> Result<(Vec<&Cookie<'static>>, Lookups), AllocError>
        ensures given { IfOk result
            (λ found. map (λ c. c.now) found.0.items ≡ given url.now (moment_of now) self.now.rows) }
        ensures in_order { IsTrue (are_rows self.now.rows) }
        ensures has_creation_order { HasCreationOrder (contents_of self.now None None) }
        ensures domains { IfOk result (λ found. found.1.domains ≤ most_domains url.now) }
        ensures paths { IfOk result
            (λ found. found.1.paths ≤ domains_found url.now self.now.rows * most_paths url.now) }
        ensures every_domain { IfOk result (λ found. domains_found url.now self.now.rows ≤ found.1.domains) }
        ensures every_path { IfOk result (λ found. paths_found url.now self.now.rows ≤ found.1.paths) }
        ensures memory { OnErr result (given url.now (moment_of now) self.now.rows ≢ []) }
    {
        searched(&self.groups, alloc, url, now)
    }

    /// Returns the rows given for `url` at `now`, RFC 6265 5.4, in order.
    ///
    /// # Errors
    ///
    /// `AllocError`: out of memory, only if at least one row is given.
    pub fn given(
        &self,
        alloc: Global,
        url: &Url,
        now: DateTime,
    ) -> Result<Vec<&Cookie<'static>>, AllocError>
        ensures given { IfOk result
            (λ cookies. map (λ c. c.now) cookies.items ≡ given url.now (moment_of now) self.now.rows) }
        ensures in_order { IsTrue (are_rows self.now.rows) }
        ensures has_creation_order { HasCreationOrder (contents_of self.now None None) }
        ensures memory { OnErr result (given url.now (moment_of now) self.now.rows ≢ []) }
    {
        Ok(self.given_counted(alloc, url, now)?.0)
    }

    /// Returns the rows given for `url` at `now`, in the order of the Cookie header, RFC 6265 5.4
    /// step 2.
    ///
    /// # Errors
    ///
    /// `AllocError`: out of memory, only if at least one row is given.
    pub fn in_header_order(
        &self,
        alloc: Global,
        url: &Url,
        now: DateTime,
    ) -> Result<Vec<&Cookie<'static>>, AllocError>
        ensures order { IfOk result (λ cookies. InHeaderOrder url.now (moment_of now) (contents_of self.now None None)
            (map (λ c. c.now) cookies.items)) }
        ensures memory { OnErr result (given url.now (moment_of now) self.now.rows ≢ []) }
    {
        in_header_order(&self.groups, alloc, url, now)
    }

    /// Replaces the row of the cookie's domain, path and name, which keeps its position and its
    /// place in creation order.
    pub fn replace(&mut self, cookie: Cookie<'static>)
        requires stored { row_of (key_of cookie) self.old.rows ≢ None }
        ensures { self.new ≡ record { rows = put self.old.rows cookie.entry; created = add_created self.old.created (key_of cookie.entry) } }
    {
        replace_row(&mut self.groups, cookie);
    }

    /// Returns whether the cookie's domain has at least `limit` Secure rows that have not expired
    /// at `now`. `false` without a limit.
    pub fn is_full_of_secure(
        &self,
        cookie: &Cookie<'static>,
        limit: Option<usize>,
        now: DateTime,
    ) -> bool
        ensures { result ≡ is_full_of_secure (contents_of self.now None limit) (moment_of now) (key_of cookie.now) }
    {
        match limit {
            Some(limit) => secure_rows::is_full(&self.groups, cookie.domain.as_str(), limit, now),
            None => false,
        }
    }

    /// Adds the cookie as a new row, the last one in creation order. With a limit, rows of its
    /// domain are evicted in the given order so that at most `limit` are stored (0 counts as 1).
    /// Under `SecureLast`, a cookie that is not Secure needs room: [`Self::is_full_of_secure`].
    ///
    /// # Errors
    ///
    /// `AllocError`: out of memory, or of numbers for new rows. The rows are unchanged.
    pub fn insert_within_limit(
        &mut self,
        cookie: Cookie<'static>,
        limit: Option<usize>,
        order: EvictionOrder,
        now: DateTime,
    ) -> Result<(), AllocError>
        requires new { row_of (key_of cookie) self.old.rows ≡ None }
        requires unexpired { IfSome limit (λ _. is_expired (moment_of now) cookie ≡ false) }
        requires room { HasRoom order (contents_of self.old None limit) cookie (moment_of now) }
        ensures inserted { OnOk result (self.new
            ≡ rows_in_order (with_inserted order (contents_of self.old None limit) cookie.entry (moment_of now))) }
        ensures unchanged { OnErr result (self.new ≡ self.old) }
    {
        let Some(next) = self.created.checked_add(1) else {
            return Err(AllocError);
        };
        let row = BoxedCookie::new(*self.groups.allocator(), cookie, self.created)?;
        match limit {
            None => {
                add_row(&mut self.groups, row)?;
                self.created = next;
                self.len += 1;
                Ok(())
            }
            Some(limit) => {
                // a limit of 0 evicts the same rows as 1: all others of the domain
                let evicted = insert_row_within_limit(
                    &mut self.groups,
                    row,
                    limit.max(1),
                    order,
                    now,
                )?;
                self.created = next;
                self.len = self.len + 1 - evicted;
                Ok(())
            }
        }
    }

    /// Stores the cookie, or skips it if it has expired and `include_expired` is false. It replaces
    /// the row of its domain, path and name, or is a new row.
    ///
    /// # Errors
    ///
    /// `AllocError`: out of memory, only if the cookie would be a new row. The rows are unchanged.
    #[inline(always)]
    pub fn take(
        &mut self,
        cookie: Cookie<'static>,
        include_expired: bool,
        now: DateTime,
    ) -> Result<(), AllocError>
        ensures taken { OnOk result (
            let taken = included include_expired (moment_of now) (cookie.entry ∷ []) in
            self.new ≡ record { rows = put_all self.old.rows taken; created = add_all_created self.old.created (map key_of taken) }) }
        ensures built { OnOk result (TakesCookie include_expired (moment_of now) cookie.entry self.old self.new) }
        ensures unchanged { OnErr result (self.new ≡ self.old) }
        ensures memory { OnErr result (IsNewRow include_expired (moment_of now) self.old cookie.entry) }
    {
        if include_expired || !cookie.is_expired(now) {
            return self.put(cookie);
        }
        Ok(())
    }

    // Replaces the row of the cookie's domain, path and name, or adds a new row.
    #[inline(always)]
    fn put(&mut self, cookie: Cookie<'static>) -> Result<(), AllocError>
        ensures put { OnOk result (self.new
            ≡ record { rows = put self.old.rows cookie.entry; created = add_created self.old.created (key_of cookie.entry) }) }
        ensures unchanged { OnErr result (self.new ≡ self.old) }
        ensures memory { OnErr result (row_of (key_of cookie.entry) self.old.rows ≡ None) }
    {
        let Some(next) = self.created.checked_add(1) else {
            return self.replace_stored(cookie);
        };
        if put_row(&mut self.groups, cookie, self.created)? {
            self.created = next;
            self.len += 1;
        }
        Ok(())
    }

    // Replaces the row of the cookie's domain, path and name. It is an error if there is none, since no
    // number is left for a new row.
    fn replace_stored(&mut self, cookie: Cookie<'static>) -> Result<(), AllocError>
        ensures stored { OnOk result (row_of (key_of cookie.entry) self.old.rows ≢ None) }
        ensures put { OnOk result (self.new
            ≡ record { rows = put self.old.rows cookie.entry; created = add_created self.old.created (key_of cookie.entry) }) }
        ensures unchanged { OnErr result (self.new ≡ self.old) }
        ensures memory { OnErr result (row_of (key_of cookie.entry) self.old.rows ≡ None) }
    {
        match self.row_of(&cookie) {
            Some(_) => {
                self.replace(cookie);
                Ok(())
            }
            None => Err(AllocError),
        }
    }

    /// Expires the row of the cookie's domain, path and name, if there is one.
    pub fn expire(&mut self, cookie: &Cookie<'static>)
        ensures { self.new ≡ record self.old { rows = changed (has_key (key_of cookie.now)) expired_row self.old.rows } }
    {
        expire_row(&mut self.groups, cookie);
    }

    /// Removes the row of this domain, path and name, if there is one, and returns it. The others
    /// keep their order.
    pub fn remove(&mut self, domain: &str, path: &str, name: &str) -> Option<Cookie<'static>>
        ensures value { result ≡ row_of (key_at domain.now path.now name.now) self.old.rows }
        ensures removed { let key = key_at domain.now path.now name.now in
            self.new ≡ record { rows = removed (has_key key) self.old.rows; created = removed (same_key key) self.old.created } }
    {
        let removed = remove_row(&mut self.groups, domain, path, name);
        if removed.is_some() {
            self.len -= 1;
        }
        removed
    }

    /// Removes the rows of this domain, and returns how many. The others keep their order. Allocates
    /// nothing.
    pub fn remove_domain(&mut self, domain: &str) -> usize
        ensures rows { self.new ≡ rows_in_order (retained (has_other_domain domain.now) (contents_of self.old None None)) }
        ensures removed { result + length self.new.rows ≡ length self.old.rows }
    {
        let before = self.len;
        let Some(paths) = self.groups.get(domain) else {
            return 0;
        };
        // of all rows as many are left as there is room for
        self.len = paths.room(before).unwrap_or(0);
        self.groups.remove(domain);
        before - self.len
    }

    /// Removes the rows that have expired at `now`, RFC 6265 5.3, and returns how many. The others
    /// keep their order. Allocates nothing.
    pub fn remove_expired(&mut self, now: DateTime) -> usize
        ensures rows { self.new ≡ rows_in_order (unexpired (moment_of now) (contents_of self.old None None)) }
        ensures removed { result + length self.new.rows ≡ length self.old.rows }
    {
        let before = self.len;
        let keep = move |cookie: &Cookie<'_>, _number: u64| -> bool
            ensures { result ≡ is_unexpired (moment_of now) cookie.now }
        { !cookie.is_expired(now) };
        retain_groups(&mut self.groups, &keep);
        self.len = count_rows(self.groups.values());
        before - self.len
    }

    /// Keeps the rows for which `keep` returns true, in order and in creation order, and removes the
    /// others. Calls `keep` once for each row. Allocates nothing.
    pub fn retain<F: Fn(&Cookie<'_>) -> bool>(&mut self, keep: F)
        requires { F.IsAlwaysCallable keep }
        ensures { (test : Row → Bool) → ReturnsTest (FnReturnsAt F.Fn keep) test
            → self.new ≡ rows_in_order (retained test (contents_of self.old None None)) }
    {
        // for the checker: no more rows remain than there are
        let _len = self.len;
        let keep_row = move |cookie: &Cookie<'_>, _number: u64| -> bool
            requires { F.IsAlwaysCallable keep }
            ensures { FnReturnsAt F.Fn keep cookie.now result }
        { keep(&*cookie) };
        retain_groups(&mut self.groups, &keep_row);
        self.len = count_rows(self.groups.values());
    }

    /// Returns how many rows there are.
    pub fn len(&self) -> usize
        ensures { result ≡ length self.now.rows }
    {
        self.len
    }

    /// Returns how many rows have not expired at `now`. Allocates nothing.
    pub fn len_unexpired(&self, now: DateTime) -> usize
        ensures { result ≡ length (unexpired_rows (moment_of now) self.now.rows) }
    {
        // for the checker: there are no more than all
        let _len = self.len;
        self.iter_unexpired(now).count()
    }

    /// Returns the key by which the maps hash.
    pub fn hash_key(&self) -> HashKey {
        *self.groups.hasher()
    }

    /// Copies the rows into maps that hash by this key.
    ///
    /// # Errors
    ///
    /// `AllocError`: out of memory, only if there is a row. The old maps are kept.
    pub fn set_hash_key(&mut self, alloc: Global, hash_key: HashKey) -> Result<(), AllocError>
        ensures rows { self.new ≡ self.old }
        ensures memory { OnErr result (self.old.rows ≢ []) }
    {
        *self = self.rehashed(alloc, hash_key)?;
        Ok(())
    }

    // Returns copies of the rows, in maps that hash by this key.
    fn rehashed(&self, alloc: Global, hash_key: HashKey) -> Result<Rows, AllocError>
        ensures rows { IfOk result (λ rows. rows ≡ self.now) }
        ensures memory { OnErr result (self.now.rows ≢ []) }
    {
        let groups = rehashed_map(&self.groups, alloc, hash_key)?;
        Ok(Rows {
            groups,
            created: self.created,
            len: self.len,
        })
    }

    /// Removes all rows.
    pub fn clear(&mut self)
        ensures { self.new ≡ record { rows = []; created = [] } }
    {
        self.groups.clear();
        self.len = 0;
    }
}
