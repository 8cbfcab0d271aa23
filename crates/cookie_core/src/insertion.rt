//! Insertion of a cookie, RFC 6265 5.3.
ghost use Rattle.std.specs.Prelude.{◌≡◌, ◌≢◌, true, Option, Err, Ok, Some, IfErr, IfOk, IsTrue, OnErr, OnOk};
ghost use Rattle.std.specs.Option.{option_copied};
ghost use Rattle.url.specs.Parts.{Parts};
ghost use Rattle.cookie_words.specs.Moments.{moment_of};
ghost use Rattle.cookie_parts.specs.Cookie.{cookie_of, early_error};
ghost use Rattle.cookie_parts.specs.Domain.{domain_text, host_is_identical, HostOnly};
ghost use Rattle.cookie_parts.specs.Outcomes.{ReturnsOrMemory};
ghost use Rattle.cookie_parts.specs.Views.{domain_value};
ghost use Rattle.cookie_parts.specs.declared.cookie_error.CookieError.TheVariants.{Memory};
ghost use Rattle.cookie_parts.specs.declared.store_action.StoreAction.TheVariants.{Inserted};
ghost use Rattle.cookie_laws.specs.Acceptance.{accept, admitted, by_list, is_listed, reply_at, IsInsertionError};
ghost use Rattle.cookie_laws.specs.Contents.{contents_of, rows_in_order, HasCreationOrder};
ghost use Rattle.cookie_laws.specs.Rows.{are_rows, key_of, row_of};
ghost use Rattle.cookie_laws.specs.Runs.{step, Insert, Stored};
ghost use Rattle.cookie_rows.specs.Eviction.{HasRoom};
ghost use Rattle.cookie_core.specs.Insertions.{as_stored, store_in, stored_in, IsAccepted};

use crate::secure::with_cookie;
use crate::{CookieStore, InsertResult};
use cookie_laws::preserved_by_calls;
use cookie_parts::{Cookie, CookieDomain, CookieError, CookieResult, StoreAction};
use cookie_psl::List;
use cookie_raw::RawCookie;
use cookie_rows::{EvictionOrder, Rows};
use jiff::civil::DateTime;
use std::alloc::Global;
use std::mem;
use url::Url;

/// How a store accepts a cookie: what its checks found.
#[derive(Clone, Copy, Debug, PartialEq, Eq)]
pub struct Acceptance {
    /// Whether the cookie is stored as a host-only cookie because its domain is a public suffix on
    /// the store's list: see [`CookieStore::check_admitted`].
    pub is_host_only: bool,
    /// What the store does with the cookie: see [`CookieStore::check_stored`].
    pub action: StoreAction,
}

impl CookieStore {
    /// Returns what [`insert`](Self::insert) would return for the cookie, but never `Memory`. The
    /// store is unchanged. Allocates nothing.
    #[tactic(auto, unfolding(cookie_laws::specs::Acceptance::accept))]
    pub fn check_insert(&self, cookie: &Cookie<'static>, url: &Url, now: DateTime) -> InsertResult
        ensures reply { Stored result ≡ (step (Insert cookie.now url.now (moment_of now)) self.now).reply }
        ensures errors { IfErr result (λ error. IsInsertionError error × (error ≢ Memory)) }
    {
        self.check_admitted(cookie, url)?;
        self.check_stored(cookie, url, now)
    }

    /// Makes those checks of [`insert`](Self::insert) that depend on no stored cookie, RFC 6265 5.3
    /// steps 10, 5 and 6. Returns whether the cookie is stored as a host-only cookie because its
    /// domain is a public suffix on the store's list.
    ///
    /// # Errors
    ///
    /// In the order in which they are checked: `NonHttpScheme`, `PublicSuffix`, `DomainMismatch`.
    pub fn check_admitted(&self, cookie: &Cookie<'static>, url: &Url) -> Result<bool, CookieError>
        ensures admitted { IfOk result (λ is_host_only. admitted self.now.suffixes url.now cookie.now ≡ Ok (as_stored is_host_only cookie.now)) }
        ensures listed { IfOk result (λ is_host_only. is_host_only ≡ is_listed self.now.suffixes cookie.now.domain) }
        ensures rejected { IfErr result (λ error. admitted self.now.suffixes url.now cookie.now ≡ Err error) }
        ensures errors { IfErr result (λ error. IsInsertionError error × (error ≢ Memory)) }
    {
        if cookie.is_out_of_reach(url) {
            return Err(CookieError::NonHttpScheme);
        }
        let is_listed = is_made_host_only(self.suffixes.as_ref(), cookie, url)?;
        // A cookie that the list makes host-only is for the URL's host.
        if !is_listed && !cookie.domain.matches(url) {
            return Err(CookieError::DomainMismatch);
        }
        Ok(is_listed)
    }

    /// Makes those checks of [`insert`](Self::insert) that depend on the stored cookie with the
    /// same domain, path and name, RFC 6265 5.3 step 11.
    ///
    /// # Errors
    ///
    /// In the order in which they are checked: `NonHttpScheme`, `Expired`.
    pub fn check_stored(&self, cookie: &Cookie<'static>, url: &Url, now: DateTime) -> InsertResult
        ensures reply { result ≡ reply_at (row_of (key_of cookie.now) self.now.rows) cookie.now url.now (moment_of now) }
        ensures in_order { IsTrue (are_rows self.now.rows) }
        ensures has_creation_order { HasCreationOrder self.now }
        ensures errors { IfErr result (λ error. IsInsertionError error × (error ≢ Memory)) }
    {
        reply_at(self.rows.row_of(cookie), cookie, url, now)
    }

    // Returns how the store accepts the cookie, by both checks.
    #[tactic(auto, unfolding(cookie_laws::specs::Acceptance::accept))]
    pub(crate) fn acceptance(
        &self,
        cookie: &Cookie<'static>,
        url: &Url,
        now: DateTime,
    ) -> Result<Acceptance, CookieError>
        ensures accepted { IfOk result (IsAccepted url.now self.now cookie.now (moment_of now)) }
        ensures reply { IfErr result (λ error. (accept self.now cookie.now url.now (moment_of now)).reply ≡ Err error) }
        ensures store { OnErr result ((accept self.now cookie.now url.now (moment_of now)).store ≡ self.now) }
        ensures errors { IfErr result (λ error. IsInsertionError error × (error ≢ Memory)) }
    {
        Ok(Acceptance {
            is_host_only: self.check_admitted(cookie, url)?,
            action: self.check_stored(cookie, url, now)?,
        })
    }

    /// Stores a cookie that [`check_admitted`](Self::check_admitted) and
    /// [`check_stored`](Self::check_stored) accepted, and returns the action.
    ///
    /// Cookies over a domain limit are evicted in this order.
    ///
    /// # Errors
    ///
    /// `Memory`: out of memory. Only if the cookie would be `Inserted`. The store is unchanged.
    pub fn insert_accepted(
        &mut self,
        cookie: Cookie<'static>,
        acceptance: Acceptance,
        order: EvictionOrder,
        now: DateTime,
    ) -> InsertResult
        requires accepted { (url : Parts) × IsAccepted url self.old cookie (moment_of now) acceptance }
        requires room { acceptance.action ≡ Inserted → HasRoom order self.old cookie (moment_of now) }
        ensures store { OnOk result ((url : Parts) → IsAccepted url self.old cookie.entry (moment_of now) acceptance
            → self.new ≡ store_in order self.old cookie.entry url (moment_of now)) }
        ensures action { IfOk result (λ action. action ≡ acceptance.action) }
        ensures unchanged { OnErr result (self.new ≡ self.old) }
        ensures errors { IfErr result (λ error. (error ≡ Memory) × (acceptance.action ≡ Inserted)) }
    {
        self.secure = with_cookie(self.secure.take(), &self.rows, &cookie);
        // for the checker: what the index says of the cookie and the rows, it says of the rows after
        preserved_by_calls();
        let cookie = as_stored(self.alloc, cookie, acceptance.is_host_only);
        store_row(
            &mut self.rows,
            cookie,
            acceptance.action,
            self.limit,
            order,
            now,
        )
    }
}

/// Makes the cookie of a raw cookie, borrowing nothing.
pub(crate) fn owned_raw_cookie(
    alloc: Global,
    raw: &RawCookie<'_>,
    url: &Url,
    now: DateTime,
) -> CookieResult<'static>
    ensures value { ReturnsOrMemory (λ cookie. cookie) result (cookie_of raw.now url.now (moment_of now)) }
    ensures early { (error : CookieError) → early_error raw.now url.now ≡ Some error → result ≡ Err error }
{
    match Cookie::try_from_raw_cookie(alloc, raw, url, now)?.into_owned(alloc) {
        Ok(cookie) => Ok(cookie),
        Err(_) => Err(CookieError::Memory),
    }
}

// The cookie as it is stored: as a host-only cookie, or as it is.
fn as_stored(alloc: Global, cookie: Cookie<'static>, is_host_only: bool) -> Cookie<'static>
    ensures { result ≡ as_stored is_host_only cookie.entry }
{
    let mut cookie = cookie;
    if is_host_only {
        let domain = mem::replace(&mut cookie.domain, CookieDomain::Empty);
        cookie.domain = into_host_only(alloc, domain);
    }
    cookie
}

// The domain as a host-only domain.
fn into_host_only(alloc: Global, domain: CookieDomain) -> CookieDomain
    ensures { domain_value result ≡ HostOnly (domain_text (domain_value domain)) }
{
    match domain {
        CookieDomain::HostOnly(host) | CookieDomain::Suffix(host) => CookieDomain::HostOnly(host),
        CookieDomain::NotPresent | CookieDomain::Empty => {
            CookieDomain::HostOnly(String::new(alloc))
        }
    }
}

// RFC 6265 5.3 step 5: whether the list makes the cookie host-only, which it does if the cookie's
// domain is a public suffix and the URL's host.
fn is_made_host_only(
    suffixes: Option<&List>,
    cookie: &Cookie<'static>,
    url: &Url,
) -> Result<bool, CookieError>
    ensures accepted { IfOk result (λ is_host_only. by_list (option_copied suffixes.entry) url.now cookie.now ≡ Ok (as_stored is_host_only cookie.now)) }
    ensures listed { IfOk result (λ is_host_only. is_host_only ≡ is_listed (option_copied suffixes.entry) cookie.now.domain) }
    ensures identical { IfOk result (λ is_host_only. is_host_only ≡ true → host_is_identical cookie.now.domain url.now ≡ true) }
    ensures rejected { IfErr result (λ error. by_list (option_copied suffixes.entry) url.now cookie.now ≡ Err error) }
    ensures errors { IfErr result (λ error. error ≡ CookieError.PublicSuffix) }
{
    let Some(list) = suffixes else {
        return Ok(false);
    };
    if !cookie.domain.is_public_suffix(list) {
        return Ok(false);
    }
    if !cookie.domain.host_is_identical(url) {
        return Err(CookieError::PublicSuffix);
    }
    Ok(true)
}

// RFC 6265 5.3 step 11: the reply to a cookie that passed the other checks, by the stored cookie
// of its key.
fn reply_at(
    row: Option<&Cookie<'static>>,
    cookie: &Cookie<'static>,
    url: &Url,
    now: DateTime,
) -> InsertResult
    ensures value { result ≡ reply_at (option_copied row.entry) cookie.now url.now (moment_of now) }
    ensures errors { IfErr result (λ error. IsInsertionError error × (error ≢ Memory)) }
{
    if let Some(row) = row
        && !row.is_expired(now)
    {
        if row.is_out_of_reach(url) {
            return Err(CookieError::NonHttpScheme);
        }
        if cookie.is_expired(now) {
            return Ok(StoreAction::ExpiredExisting);
        }
    }
    if cookie.is_expired(now) {
        return Err(CookieError::Expired);
    }
    match row {
        Some(_) => Ok(StoreAction::UpdatedExisting),
        None => Ok(StoreAction::Inserted),
    }
}

// Stores a cookie that passed the checks with this action; rows over the limit are evicted in this
// order. On an error, which is out of memory, the rows are unchanged.
fn store_row(
    rows: &mut Rows,
    cookie: Cookie<'static>,
    action: StoreAction,
    limit: Option<usize>,
    order: EvictionOrder,
    now: DateTime,
) -> InsertResult
    requires action { (url : Parts) × (reply_at (row_of (key_of cookie) rows.old.rows) cookie url (moment_of now) ≡ Ok action) }
    requires room { action ≡ Inserted → HasRoom order (contents_of rows.old None limit) cookie (moment_of now) }
    ensures stored { OnOk result (rows.new
        ≡ rows_in_order (stored_in order action (contents_of rows.old None limit) cookie.entry (moment_of now))) }
    ensures action { IfOk result (λ stored. stored ≡ action) }
    ensures unchanged { OnErr result (rows.new ≡ rows.old) }
    ensures errors { IfErr result (λ error. (error ≡ Memory) × (action ≡ Inserted)) }
{
    match action {
        StoreAction::Inserted => match rows.insert_within_limit(cookie, limit, order, now) {
            Ok(()) => {}
            Err(_) => return Err(CookieError::Memory),
        },
        StoreAction::UpdatedExisting => rows.replace(cookie),
        StoreAction::ExpiredExisting => rows.expire(&cookie),
    }
    Ok(action)
}
