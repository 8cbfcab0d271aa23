//! The definitions of a cookie store, and the laws that follow from them.
//!
//! All of this is about lists of rows (stored cookies) and lists of calls. `specs/` defines rows,
//! what the store does with a received cookie (RFC 6265 5.3), what a run of calls leaves in the
//! store, and which cookies are given for a URL (5.4). Each function below is a law about these
//! definitions; `confined` is about all runs that begin without rows. A store fulfils the
//! definitions by its contracts, so the laws hold for every store.
#![tactic(auto)]

ghost use Rattle.cookie_parts.specs.Cookie.{Row, expired_row, is_out_of_reach};
ghost use Rattle.cookie_raw.specs.Raw.{Raw};
ghost use Rattle.cookie_parts.specs.Domain.{domain_text, HostOnly};
ghost use Rattle.cookie_parts.specs.Hosts.{host_of};
ghost use Rattle.cookie_parts.specs.declared.cookie_error.CookieError.{CookieError};
ghost use Rattle.cookie_parts.specs.declared.store_action.StoreAction.TheVariants.{ExpiredExisting, Inserted};
ghost use Rattle.cookie_laws.specs.Acceptance.{accept, admitted, is_listed, received, IsPut, IsEvicted};
ghost use Rattle.cookie_laws.specs.Confinement.{IsConfined, IsConfinedAsPut, WasAccepted};
ghost use Rattle.cookie_laws.specs.Contents.{contents_of, has_expired, evicted, unexpired, Contents, HasCreationOrder};
ghost use Rattle.cookie_laws.specs.Given.{given, is_given};
ghost use Rattle.cookie_laws.specs.Header.{InHeaderOrder};
ghost use Rattle.cookie_laws.specs.Related.{may_affect, domain_calls, domain_keys, domain_rows, is_of_domain, is_related, calls_related_to, replies_to};
ghost use Rattle.cookie_laws.specs.Restricted.{is_call_of, is_row_of, restricted, restricted_step};
ghost use Rattle.cookie_laws.specs.Rows.{are_rows, built, changed, has_key, is_unexpired, key_of, removed, row_of, same_domain, same_key, Key};
ghost use Rattle.cookie_laws.specs.Runs.{step, Call, replies, rows_after, store_after};
ghost use Rattle.cookie_laws.specs.SecureLast.{accept_secure_last, evicted_secure_last, is_full_of_secure, is_secure_key, removals, secure_last_calls};
ghost use Rattle.cookie_psl.specs.Rules.{RuleList};
ghost use Rattle.cookie_words.specs.Moments.{epoch, nanoseconds, Moment};
ghost use Rattle.std.specs.List.{list_any, All};
ghost use Rattle.std.specs.Prelude.{◌+◌, ◌++◌, ◌<◌, ◌≡◌, ◌≤ℤ◌, ◌≤◌, ◌∷◌, ◌⊎◌, ℕ, [], false, length, max, min, true, Bool, List, Ok, Option, Result, Some};
ghost use Rattle.url.specs.Parts.{Parts};

/// Calls for domains that are not related to a URL change nothing for it: neither the cookies
/// given, nor their order in the Cookie header, nor the replies to the other calls.
pub fn isolated()
    ensures given { (url : Parts) (now : Moment) (calls : List Call) (store : Contents)
        → given url now (rows_after calls store) ≡ given url now (rows_after (calls_related_to url calls) store) }
    ensures header { (url : Parts) (now : Moment) (calls : List Call) (store : Contents) (cookies : List Row)
        → InHeaderOrder url now (store_after calls store) cookies → InHeaderOrder url now (store_after (calls_related_to url calls) store) cookies }
    ensures replies { (url : Parts) (calls : List Call) (store : Contents)
        → replies_to (may_affect url) calls store ≡ replies (calls_related_to url calls) store }
{}

/// The rows of a domain, their order, their creation order and the replies to the calls for the
/// domain depend only on the begun store, the calls for that domain, and `Clear`.
pub fn per_domain()
    ensures rows { (domain : List ℕ) (calls : List Call) (store : Contents)
        → domain_rows domain (rows_after calls store) ≡ domain_rows domain (rows_after (domain_calls domain calls) store) }
    ensures creation_order { (domain : List ℕ) (calls : List Call) (store : Contents)
        → domain_keys domain (store_after calls store).created ≡ domain_keys domain (store_after (domain_calls domain calls) store).created }
    ensures replies { (domain : List ℕ) (calls : List Call) (store : Contents)
        → replies_to (is_of_domain domain) calls store ≡ replies (domain_calls domain calls) store }
{}

/// With a domain limit, a domain has at most `limit` rows after any calls, or at most as many as
/// before if those were more. After a cookie is inserted, its domain has one row more than before,
/// but at most `limit`. In a store that is built from cookies the creation order (`created`) holds
/// the keys of the rows, each once, and calls keep it so.
pub fn limited()
    ensures rows { (domain : List ℕ) (calls : List Call) (store : Contents) (limit : ℕ) → HasCreationOrder store → store.limit ≡ Some limit
        → 0 < limit → length (domain_rows domain (rows_after calls store)) ≤ max limit (length (domain_rows domain store.rows)) }
    ensures inserted { (store : Contents) (cookie_result : Result Row CookieError) (url : Parts) (now : Moment) (cookie : Row) (limit : ℕ)
        → HasCreationOrder store → store.limit ≡ Some limit → 0 < limit
        → cookie_result ≡ Ok cookie → (received store cookie_result url now).reply ≡ Ok Inserted
        → length (domain_rows (domain_text cookie.domain) (received store cookie_result url now).store.rows)
        ≡ min limit (length (domain_rows (domain_text cookie.domain) store.rows) + 1) }
    ensures has_creation_order { (calls : List Call) (store : Contents) → HasCreationOrder store → HasCreationOrder (store_after calls store) }
    ensures built { (include_expired : Bool) (now : Moment) (cookies : List Row) (suffixes : Option RuleList) (limit : Option ℕ)
        → HasCreationOrder (contents_of (built include_expired now cookies) suffixes limit) }
{}

/// With a domain limit, rows of a domain are evicted in order: expired ones first, then the others,
/// in each case those that were created first. So if an unexpired row is evicted, every expired row
/// of its domain is; and of two rows that have both expired, or both not, the later is evicted only
/// if the earlier is.
pub fn evicted_in_order()
    ensures expired_row { (store : Contents) (now : Moment) (new first later : Key) → HasCreationOrder store → same_domain first later ≡ true
        → list_any (same_key later) (evicted store now new) ≡ true
        → has_expired now store.rows first ≡ true → has_expired now store.rows later ≡ false
        → list_any (same_key first) (evicted store now new) ≡ true }
    ensures older_first { (store : Contents) (now : Moment) (new first later : Key) → HasCreationOrder store → same_domain first later ≡ true
        → list_any (same_key later) (evicted store now new) ≡ true
        → has_expired now store.rows first ≡ has_expired now store.rows later
        → (prefix between back : List Key) → store.created ≡ prefix ++ first ∷ (between ++ later ∷ back)
        → list_any (same_key first) (evicted store now new) ≡ true }
{}

/// Every cookie given after calls on a store without rows was accepted by one of these calls. That
/// call's URL has the same host as this one, or the cookie is a domain cookie whose domain is not
/// listed as a public suffix and covers both hosts. The cookie is as it was stored or was expired
/// since; at times from the epoch on it is exactly as it was stored, its expiry included.
pub fn confined()
    ensures given { (url : Parts) (now : Moment) (calls : List Call) (store : Contents) → store.rows ≡ []
        → All (IsConfined calls store url) (given url now (rows_after calls store)) }
    ensures as_put { (url : Parts) (now : Moment) (calls : List Call) (store : Contents) → store.rows ≡ []
        → nanoseconds epoch ≤ℤ nanoseconds now
        → All (IsConfinedAsPut calls store url) (given url now (rows_after calls store)) }
{}

/// A cookie that is stored is the row of its key. If its domain is a listed public suffix, it is a
/// host-only cookie for the host it came from. In this law and the next two `cookie_result` is
/// the result of creating the cookie, a cookie or an error; `insert` takes the cookie.
pub fn listed_is_host_only()
    ensures { (store : Contents) (cookie_result : Result Row CookieError) (url : Parts) (now : Moment)
        → IsPut (received store cookie_result url now).reply → (cookie : Row) × (inserted : Row)
        × (cookie_result ≡ Ok cookie) × (admitted store.suffixes url cookie ≡ Ok inserted)
        × (row_of (key_of cookie) (received store cookie_result url now).store.rows ≡ Some inserted)
        × (is_listed store.suffixes inserted.domain ≡ true → (inserted.domain ≡ HostOnly (domain_text inserted.domain))
        × (host_of url ≡ Some (domain_text inserted.domain))) }
{}

/// An insertion returns `ExpiredExisting` only if a cookie was created and the row of its key exists
/// and has not expired. That row is expired, and everything else is unchanged.
pub fn expires_one_row()
    ensures was_unexpired { (store : Contents) (cookie_result : Result Row CookieError) (url : Parts) (now : Moment)
        → (received store cookie_result url now).reply ≡ Ok ExpiredExisting → (cookie : Row) × (row : Row)
        × (cookie_result ≡ Ok cookie) × (row_of (key_of cookie) store.rows ≡ Some row) × (is_unexpired now row ≡ true) }
    ensures store { (store : Contents) (cookie_result : Result Row CookieError) (url : Parts) (now : Moment)
        (cookie : Row) → cookie_result ≡ Ok cookie → (received store cookie_result url now).reply ≡ Ok ExpiredExisting
        → (received store cookie_result url now).store ≡ record store { rows = changed (has_key (key_of cookie)) expired_row store.rows } }
    ensures row_expired { (store : Contents) (cookie_result : Result Row CookieError) (url : Parts) (now : Moment)
        (cookie row : Row) → cookie_result ≡ Ok cookie → (received store cookie_result url now).reply ≡ Ok ExpiredExisting
        → row_of (key_of cookie) store.rows ≡ Some row
        → row_of (key_of cookie) (received store cookie_result url now).store.rows ≡ Some (expired_row row) }
    ensures others { (store : Contents) (cookie_result : Result Row CookieError) (url : Parts) (now : Moment)
        (cookie : Row) (key : Key) → cookie_result ≡ Ok cookie → (received store cookie_result url now).reply ≡ Ok ExpiredExisting
        → same_key key (key_of cookie) ≡ false
        → row_of key (received store cookie_result url now).store.rows ≡ row_of key store.rows }
{}

/// No insertion from a scheme that is not HTTP replaces or expires an HttpOnly row that has not
/// expired. With a domain limit, such a row may be evicted for a cookie that is inserted.
pub fn guarded()
    ensures { (store : Contents) (cookie_result : Result Row CookieError) (url : Parts) (now : Moment)
        (key : Key) (row : Row) → row_of key store.rows ≡ Some row → is_unexpired now row ≡ true → is_out_of_reach row.raw url ≡ true
        → (row_of key (received store cookie_result url now).store.rows ≡ Some row) ⊎ IsEvicted store cookie_result url now key }
{}

/// An insertion leaves the row of every other key as it is. With a domain limit, it may be evicted
/// for a cookie that is inserted.
pub fn keeps_other_rows()
    ensures { (store : Contents) (cookie_result : Result Row CookieError) (url : Parts) (now : Moment)
        (cookie : Row) (key : Key) (row : Row) → cookie_result ≡ Ok cookie → same_key key (key_of cookie) ≡ false
        → row_of key store.rows ≡ Some row
        → (row_of key (received store cookie_result url now).store.rows ≡ Some row) ⊎ IsEvicted store cookie_result url now key }
{}

/// Every row after calls on a store without rows was stored by one of these calls, and may have
/// been expired since.
pub fn accepted()
    ensures { (calls : List Call) (store : Contents) → store.rows ≡ [] → All (WasAccepted calls store) (rows_after calls store) }
{}

/// Building a store from all the rows of a store, in their order, gives the same rows in the same
/// order.
pub fn rebuilt()
    ensures { (rows : List Row) (now : Moment) → are_rows rows ≡ true → (built true now rows).rows ≡ rows }
{}

/// The domain of a cookie that is given for a URL is related to the URL.
pub fn given_is_related()
    ensures { (url : Parts) (now : Moment) (row : Row)
        → is_given url now row ≡ true → is_related url (domain_text row.domain) ≡ true }
{}

/// The cookies of a request have exactly one order in the Cookie header: two lists of them in
/// header order are equal.
pub fn one_header_order()
    ensures { (url : Parts) (now : Moment) (store : Contents) (cookies others : List Row) → are_rows store.rows ≡ true → HasCreationOrder store
        → InHeaderOrder url now store cookies → InHeaderOrder url now store others → cookies ≡ others }
{}

/// Removing the expired cookies changes no request: from then on the same cookies are given at any
/// time. The creation order still holds the keys of the rows, each once.
pub fn given_without_expired()
    ensures given { (store : Contents) (url : Parts) (now later : Moment) → nanoseconds now ≤ℤ nanoseconds later
        → given url later (unexpired now store).rows ≡ given url later store.rows }
    ensures has_creation_order { (store : Contents) (now : Moment) → HasCreationOrder store → HasCreationOrder (unexpired now store) }
{}

/// With a domain limit that evicts Secure rows last, an insertion leaves what plain calls leave:
/// the removals of the evicted rows, and then the insertion, for which nothing more is evicted. No
/// unexpired Secure row is evicted unless its domain has the limit of them, or more.
pub fn evictions_are_removals()
    ensures store { (store : Contents) (cookie : Row) (url : Parts) (now : Moment) → are_rows store.rows ≡ true → HasCreationOrder store
        → store_after (secure_last_calls store cookie url now) store ≡ accept_secure_last store cookie url now }
    ensures evicts_no_more { (store : Contents) (now : Moment) (key : Key)
        → evicted (store_after (removals (evicted_secure_last store now key)) store) now key ≡ [] }
    ensures secure_stays { (store : Contents) (now : Moment) (new key : Key) → is_full_of_secure store now new ≡ false
        → is_secure_key now store.rows key ≡ true
        → row_of key (store_after (removals (evicted_secure_last store now new)) store).rows ≡ row_of key store.rows }
{}

/// If every row and a cookie that is inserted pass a test of the raw cookie and the key, every row
/// passes it after the insertion, in either order of eviction. So it does after a removal.
pub fn preserved_by_calls()
    ensures inserted { (test : Raw → Key → Bool) (store : Contents) (cookie : Row) (url : Parts) (now : Moment)
        → test cookie.raw (key_of cookie) ≡ true → All (λ row. test row.raw (key_of row) ≡ true) store.rows
        → All (λ row. test row.raw (key_of row) ≡ true) (accept store cookie url now).store.rows }
    ensures inserted_secure_last { (test : Raw → Key → Bool) (store : Contents) (cookie : Row) (url : Parts) (now : Moment)
        → test cookie.raw (key_of cookie) ≡ true → All (λ row. test row.raw (key_of row) ≡ true) store.rows
        → All (λ row. test row.raw (key_of row) ≡ true) (accept_secure_last store cookie url now).rows }
    ensures removed { (test : Raw → Key → Bool) (key : Key) (rows : List Row)
        → All (λ row. test row.raw (key_of row) ≡ true) rows
        → All (λ row. test row.raw (key_of row) ≡ true) (removed (has_key key) rows) }
{}

/// What happens in the domains that pass a test depends on these domains alone: a call for one of
/// them has the same reply in the store that is restricted to them, and leaves the same there; any
/// other call changes nothing there. So do insertions that evict Secure rows last. If two stores
/// are equal so restricted, and every cookie that they give for a URL passes, they give the same
/// cookies in the same order.
pub fn restricted_to_domains()
    ensures row { (test : List ℕ → Bool) (key : Key) (store : Contents) → test key.domain ≡ true
        → row_of key (restricted test store).rows ≡ row_of key store.rows }
    ensures full { (test : List ℕ → Bool) (store : Contents) (now : Moment) (key : Key) → test key.domain ≡ true
        → is_full_of_secure (restricted test store) now key ≡ is_full_of_secure store now key }
    ensures call { (test : List ℕ → Bool) (call : Call) (store : Contents) → is_call_of test call ≡ true
        → step call (restricted test store) ≡ restricted_step test (step call store) }
    ensures other_call { (test : List ℕ → Bool) (call : Call) (store : Contents) → is_call_of test call ≡ false
        → restricted test (step call store).store ≡ restricted test store }
    ensures secure_last { (test : List ℕ → Bool) (store : Contents) (cookie : Row) (url : Parts) (now : Moment) → is_row_of test cookie ≡ true
        → store_after (secure_last_calls (restricted test store) cookie url now) (restricted test store)
        ≡ restricted test (store_after (secure_last_calls store cookie url now) store) }
    ensures other_secure_last { (test : List ℕ → Bool) (store : Contents) (cookie : Row) (url : Parts) (now : Moment) → is_row_of test cookie ≡ false
        → restricted test (store_after (secure_last_calls store cookie url now) store) ≡ restricted test store }
    ensures given { (test : List ℕ → Bool) (url : Parts) (now : Moment) (store other : Contents) → restricted test store ≡ restricted test other
        → All (λ row. is_row_of test row ≡ true) (given url now store.rows) → All (λ row. is_row_of test row ≡ true) (given url now other.rows)
        → given url now store.rows ≡ given url now other.rows }
    ensures header { (test : List ℕ → Bool) (url : Parts) (now : Moment) (store other : Contents) (cookies : List Row) → restricted test store ≡ restricted test other
        → All (λ row. is_row_of test row ≡ true) (given url now store.rows) → All (λ row. is_row_of test row ≡ true) (given url now other.rows)
        → InHeaderOrder url now store cookies → InHeaderOrder url now other cookies }
{}
