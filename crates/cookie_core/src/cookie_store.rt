//! The cookie store.
ghost use Rattle.std.specs.Prelude.{◌≡◌, ◌≢◌, ◌≤◌, ◌*◌, [], is_some, map, Err, None, Ok, Some, IfErr, IfOk, IsTrue, OnErr, ◌⊎◌};
ghost use Rattle.std.specs.Iterator.{IsFinite};
ghost use Rattle.std.specs.Option.{option_copied};
ghost use Rattle.cookie_words.specs.Moments.{moment_of};
ghost use Rattle.cookie_raw.specs.SetCookie.{reading};
ghost use Rattle.cookie_parts.specs.Cookie.{cookie_of, early, early_error};
ghost use Rattle.cookie_parts.specs.declared.cookie_error.CookieError.TheVariants.{Memory};
ghost use Rattle.cookie_parts.specs.declared.store_action.StoreAction.TheVariants.{Inserted};
ghost use Rattle.cookie_laws.specs.Acceptance.{received, IsInsertionError};
ghost use Rattle.cookie_laws.specs.Contents.{contents_of, rows_in_order, HasCreationOrder, Contents};
ghost use Rattle.cookie_lookup.specs.SearchView.{domains_found, paths_found};
ghost use Rattle.cookie_lookup.specs.Candidates.{most_domains, most_paths};
ghost use Rattle.cookie_rows.specs.Building.{Builds, FailsFirst, ReachesNewRow};
ghost use Rattle.cookie_laws.specs.Given.{given};
ghost use Rattle.cookie_laws.specs.Rows.{are_rows, if_unexpired, key_at, row_of};
ghost use Rattle.cookie_core.specs.SecureIndexes.{Indexes};
ghost use Rattle.cookie_laws.specs.Runs.{step, Insert, IsReply, Set, Stored, UnlessMemory};

use crate::insertion::owned_raw_cookie;
use crate::secure::SecureIndex;
use cookie_lookup::Lookups;
use cookie_parts::{Cookie, CookieError, CookieResult, Error, StoreAction};
use cookie_psl::List;
use cookie_raw::RawCookie;
use cookie_rows::{EvictionOrder, HashKey, Rows, StoreAlloc};
use jiff::civil::DateTime;
use std::alloc::{AllocError, Global};
use std::marker::Model;
use url::Url;

/// The result of inserting a cookie: what the store did with it, or why it was not inserted.
pub type InsertResult = Result<StoreAction, CookieError>;

/// The cookies of a user agent, RFC 6265 5.3.
///
/// In the store's order, cookies are grouped by domain, and in a domain by path. A new cookie is
/// the last of its group, and a new group is last; a cookie that replaces another takes its place.
///
/// Under a public suffix list, no domain cookie is inserted for a public suffix.
#[derive(Drop)]
pub struct CookieStore {
    pub(crate) alloc: Global,
    pub(crate) rows: Rows,
    pub(crate) suffixes: Option<List>,
    pub(crate) limit: Option<usize>,
    pub(crate) secure: Option<SecureIndex>,
}

impl Model for CookieStore {
    ghost Value = { Contents };

    ghost view = { λ s. contents_of s.rows s.suffixes s.limit };

    ghost invariant = { λ s. Indexes s.secure s.rows.rows };
}

impl Clone for CookieStore {
    ghost is_clone = { λ store copy. copy ≡ store };

    fn clone(&self) -> Result<CookieStore, AllocError> {
        Ok(CookieStore {
            alloc: self.alloc,
            rows: self.rows.clone()?,
            suffixes: self.suffixes.clone()?,
            limit: self.limit,
            secure: None,
        })
    }
}

impl CookieStore {
    /// Returns an empty store without a public suffix list.
    ///
    /// Its maps hash by a fixed key: see [`with_hash_key`](Self::with_hash_key).
    pub fn new(alloc: Global) -> CookieStore
        ensures { result ≡ record { rows = []; created = []; suffixes = None; limit = None } }
    {
        CookieStore::new_with_public_suffix(alloc, None)
    }

    /// Returns an empty store without a public suffix list, as [`new`](Self::new) does.
    pub fn default(alloc: Global) -> CookieStore
        ensures { result ≡ record { rows = []; created = []; suffixes = None; limit = None } }
    {
        CookieStore::new(alloc)
    }

    /// Returns an empty store without a public suffix list, whose maps hash by `hash_key`.
    ///
    /// The key changes no result. Pass a random key if the store takes cookies from servers that
    /// you do not trust.
    pub fn with_hash_key(alloc: Global, hash_key: HashKey) -> CookieStore
        ensures { result ≡ record { rows = []; created = []; suffixes = None; limit = None } }
    {
        CookieStore::from_rows(alloc, Rows::new(StoreAlloc { alloc, hash_key }))
    }

    /// Returns an empty store with this public suffix list, or with none.
    pub fn new_with_public_suffix(alloc: Global, suffixes: Option<List>) -> CookieStore
        ensures { result ≡ record { rows = []; created = []; suffixes = suffixes; limit = None } }
    {
        CookieStore {
            alloc,
            rows: Rows::new(alloc.into()),
            suffixes,
            limit: None,
            secure: None,
        }
    }

    /// Builds a store from the cookies of an iterator, without a public suffix list or a limit.
    ///
    /// A cookie replaces an earlier one with the same domain, path and name. Expired cookies are
    /// skipped unless `include_expired`. Domains are not checked.
    ///
    /// # Errors
    ///
    /// At the first error no further item is taken from the iterator.
    /// - The first error that the iterator returns.
    /// - `Memory`: out of memory. Only at a cookie that is not skipped and replaces none.
    pub fn from_cookies<
        A: Into<StoreAlloc>,
        I: Iterator<Item = Result<Cookie<'static>, Error>> + Drop,
    >(alloc: A, cookies: I, include_expired: bool, now: DateTime) -> Result<CookieStore, Error>
        requires can { I.can_next cookies }
        requires ends { IsFinite (I.remaining cookies) }
        ensures built { IfOk result (λ store. Builds I.next_gives cookies include_expired (moment_of now) (rows_in_order store)) }
        ensures suffixes { IfOk result (λ store. store.suffixes ≡ None) }
        ensures limit { IfOk result (λ store. store.limit ≡ None) }
        ensures failed { IfErr result (λ error.
            ((error ≡ Error.Memory) × ReachesNewRow I.next_gives cookies include_expired (moment_of now))
            ⊎ FailsFirst I.next_gives cookies error) }
    {
        let alloc = alloc.into();
        let rows = Rows::from_cookies(alloc, cookies, include_expired, now)?;
        Ok(CookieStore::from_rows(alloc.alloc, rows))
    }

    /// Parses a `Set-Cookie` header value received from `url` and inserts the cookie, RFC 6265 5.3.
    ///
    /// This is [`Cookie::parse`] followed by [`insert`](Self::insert), and returns what `insert`
    /// does. On any error, out of memory included, the store is unchanged.
    ///
    /// # Errors
    ///
    /// In the order in which they are checked:
    /// - `Parse`: `text` is not a cookie.
    /// - `NonHttpScheme`: the cookie is HttpOnly and the URL's scheme does not begin with `http`.
    /// - `NonRelativeScheme`: the Domain attribute is missing or empty and the URL has no host.
    /// - `Parse`: the Domain attribute is not a domain name.
    /// - `DomainMismatch`: the cookie's domain does not match the URL's host.
    /// - Those of [`insert`](Self::insert).
    ///
    /// `Memory`: out of memory, in place of success or of any of these but `Parse` and
    /// `NonHttpScheme` at the beginning, and `NonRelativeScheme` if there is no Domain attribute.
    pub fn parse(&mut self, text: &str, url: &Url, now: DateTime) -> InsertResult
        ensures reply { IsReply result
            (step (Set text.now url.now (moment_of now)) self.old).reply }
        ensures store { UnlessMemory result
            (self.new ≡ (step (Set text.now url.now (moment_of now)) self.old).store) }
        ensures unchanged { OnErr result (self.new ≡ self.old) }
        ensures early { (error : CookieError) → early (reading text.now) url.now ≡ Some error → result ≡ Err error }
        ensures memory { result ≡ Err Memory → early (reading text.now) url.now ≡ None }
    {
        let created = Cookie::parse_owned(self.alloc, text, url, now);
        self.insert_created(created, url, now)
    }

    /// Inserts a cookie received from `url`, RFC 6265 5.3.
    ///
    /// Returns `UpdatedExisting` if it replaces a stored cookie with the same domain, path and
    /// name, and `Inserted` if there is none. If the cookie has expired and the stored one has not,
    /// the stored one is expired: `ExpiredExisting`. A cookie whose domain is a public suffix on
    /// the store's list, received from that very host, is stored as a host-only cookie. On any
    /// error, out of memory included, the store is unchanged.
    ///
    /// # Errors
    ///
    /// In the order in which they are checked:
    /// - `NonHttpScheme`: the cookie is HttpOnly and the URL's scheme does not begin with `http`.
    /// - `PublicSuffix`: the cookie's domain is a public suffix on the store's list and not the
    ///   URL's host.
    /// - `DomainMismatch`: the cookie's domain does not match the URL's host.
    /// - `NonHttpScheme`: the stored cookie is HttpOnly and has not expired, and the URL's scheme
    ///   does not begin with `http`.
    /// - `Expired`: the cookie has expired, and there is no stored cookie to expire.
    /// - `Memory`: out of memory. Only if the cookie would be `Inserted`.
    pub fn insert(&mut self, cookie: Cookie<'static>, url: &Url, now: DateTime) -> InsertResult
        ensures reply { IsReply result
            (step (Insert cookie.entry url.now (moment_of now)) self.old).reply }
        ensures store { UnlessMemory result
            (self.new ≡ (step (Insert cookie.entry url.now (moment_of now)) self.old).store) }
        ensures unchanged { OnErr result (self.new ≡ self.old) }
        ensures errors { IfErr result IsInsertionError }
        ensures memory { result ≡ Err Memory
            → (step (Insert cookie.entry url.now (moment_of now)) self.old).reply ≡ Stored (Ok Inserted) }
    {
        match self.acceptance(&cookie, url, now) {
            Ok(acceptance) => {
                self.insert_accepted(cookie, acceptance, EvictionOrder::ExpiredFirst, now)
            }
            Err(error) => Err(error),
        }
    }

    /// Inserts the cookie of a parsed `Set-Cookie` header value received from `url`, RFC 6265 5.3.
    ///
    /// This is [`Cookie::try_from_raw_cookie`] followed by [`insert`](Self::insert), and returns
    /// what `insert` does. On any error, out of memory included, the store is unchanged.
    ///
    /// # Errors
    ///
    /// In the order in which they are checked:
    /// - `NonHttpScheme`: the cookie is HttpOnly and the URL's scheme does not begin with `http`.
    /// - `NonRelativeScheme`: the Domain attribute is missing or empty and the URL has no host.
    /// - `Parse`: the Domain attribute is not a domain name.
    /// - `DomainMismatch`: the cookie's domain does not match the URL's host.
    /// - Those of [`insert`](Self::insert).
    ///
    /// `Memory`: out of memory, in place of success or of any of these but `NonHttpScheme` at the
    /// beginning, and `NonRelativeScheme` if there is no Domain attribute.
    pub fn insert_raw(&mut self, raw: &RawCookie<'_>, url: &Url, now: DateTime) -> InsertResult
        ensures reply { IsReply result (Stored
            (received self.old (cookie_of raw.now url.now (moment_of now)) url.now (moment_of now)).reply) }
        ensures store { UnlessMemory result
            (self.new ≡ (received self.old (cookie_of raw.now url.now (moment_of now)) url.now (moment_of now)).store) }
        ensures unchanged { OnErr result (self.new ≡ self.old) }
        ensures early { (error : CookieError) → early_error raw.now url.now ≡ Some error → result ≡ Err error }
        ensures memory { result ≡ Err Memory → early_error raw.now url.now ≡ None }
    {
        let created = owned_raw_cookie(self.alloc, raw, url, now);
        self.insert_created(created, url, now)
    }

    /// Returns the stored cookie with this domain, path and name, expired or not.
    pub fn get_any(&self, domain: &str, path: &str, name: &str) -> Option<&Cookie<'static>>
        ensures { option_copied result
            ≡ row_of (key_at domain.now path.now name.now) self.now.rows }
    {
        self.rows.named(domain, path, name)
    }

    /// Returns the stored cookie with this domain, path and name, if it has not expired at `now`.
    pub fn get(
        &self,
        domain: &str,
        path: &str,
        name: &str,
        now: DateTime,
    ) -> Option<&Cookie<'static>>
        ensures { option_copied result
            ≡ if_unexpired (moment_of now) (row_of (key_at domain.now path.now name.now) self.now.rows) }
    {
        let cookie = self.get_any(domain, path, name)?;
        if cookie.is_expired(now) {
            None
        } else {
            Some(cookie)
        }
    }

    /// Returns whether a cookie with this domain, path and name is stored, expired or not.
    pub fn contains_any(&self, domain: &str, path: &str, name: &str) -> bool
        ensures { result ≡ is_some (row_of (key_at domain.now path.now name.now) self.now.rows) }
    {
        self.get_any(domain, path, name).is_some()
    }

    /// Returns whether a cookie with this domain, path and name is stored and unexpired at `now`.
    pub fn contains(&self, domain: &str, path: &str, name: &str, now: DateTime) -> bool
        ensures { result
            ≡ is_some (if_unexpired (moment_of now) (row_of (key_at domain.now path.now name.now) self.now.rows)) }
    {
        self.get(domain, path, name, now).is_some()
    }

    /// Returns the cookies that match `url` and are unexpired at `now`, in the store's order.
    ///
    /// The tests are those of RFC 6265 5.4 step 1: domain, path, Secure and HttpOnly. For the
    /// header of a request use [`cookie_header`](Self::cookie_header). Allocates only if a cookie
    /// matches.
    pub fn matches(&self, url: &Url, now: DateTime) -> Result<Vec<&Cookie<'static>>, AllocError>
        ensures given { IfOk result
            (λ cookies. map (λ c. c.now) cookies.items ≡ given url.now (moment_of now) self.now.rows) }
        ensures in_order { IsTrue (are_rows self.now.rows) }
        ensures has_creation_order { HasCreationOrder self.now }
        ensures memory { OnErr result (given url.now (moment_of now) self.now.rows ≢ []) }
    {
        self.rows.given(self.alloc, url, now)
    }

    /// Returns what [`matches`](Self::matches) does, and the number of lookups in the store's maps.
    ///
    /// Domains are looked up at most once for each label of the URL's host, and paths at most
    /// `2 * n + 1` times for each domain that is found, where `n` is the number of slashes in the
    /// URL's path. The counts are at least the number of domains found, and of paths found in them.
    /// Allocates only if a cookie matches.
    pub fn matches_counted(
        &self,
        url: &Url,
        now: DateTime,
    ) -> Result<(Vec<&Cookie<'static>>, Lookups), AllocError>
        ensures given { IfOk result
            (λ found. map (λ c. c.now) found.0.items ≡ given url.now (moment_of now) self.now.rows) }
        ensures in_order { IsTrue (are_rows self.now.rows) }
        ensures has_creation_order { HasCreationOrder self.now }
        ensures domains { IfOk result (λ found. found.1.domains ≤ most_domains url.now) }
        ensures paths { IfOk result
            (λ found. found.1.paths ≤ domains_found url.now self.now.rows * most_paths url.now) }
        ensures every_domain { IfOk result (λ found. domains_found url.now self.now.rows ≤ found.1.domains) }
        ensures every_path { IfOk result (λ found. paths_found url.now self.now.rows ≤ found.1.paths) }
        ensures memory { OnErr result (given url.now (moment_of now) self.now.rows ≢ []) }
    {
        self.rows.given_counted(self.alloc, url, now)
    }

    // Inserts the cookie, or returns the error of creating it.
    fn insert_created(
        &mut self,
        created: CookieResult<'static>,
        url: &Url,
        now: DateTime,
    ) -> InsertResult
        ensures reply { IsReply result
            (Stored (received self.old created.entry url.now (moment_of now)).reply) }
        ensures store { UnlessMemory result (self.new ≡ (received self.old created.entry url.now (moment_of now)).store) }
        ensures unchanged { OnErr result (self.new ≡ self.old) }
        ensures creation_error { (error : CookieError) → created.entry ≡ Err error → result ≡ Err error }
        ensures memory { result ≡ Err Memory → (created.entry ≡ Err Memory)
            ⊎ ((received self.old created.entry url.now (moment_of now)).reply ≡ Ok Inserted) }
    {
        self.insert(created?, url, now)
    }

    /// Returns a store of these rows, without a public suffix list or a limit.
    pub fn from_rows(alloc: Global, rows: Rows) -> CookieStore
        ensures { result ≡ contents_of rows None None }
    {
        CookieStore {
            alloc,
            rows,
            suffixes: None,
            limit: None,
            secure: None,
        }
    }

    /// Returns the allocator of the store.
    pub fn allocator(&self) -> Global {
        self.alloc
    }
}
