//! The functions that C programs call. `cookie_store.h` documents them.
ghost use Rattle.std.specs.Prelude.{◌≡◌, ◌⊎◌, ◌+◌, ◌&&◌, false, is_some, Ok, Some, None, IsOk, IsSome};
ghost use Rattle.cookie_laws.specs.Runs.{Clear};
ghost use Rattle.cookie_store_c.specs.Inputs.{text_and_time, moment_in, remove_call, response_inputs, set_call, text_in};
ghost use Rattle.cookie_store_c.specs.Calls.{call_outcome, clone_outcome, domain_outcome, expired_outcome, flag_after_new, flag_after_set, insertion_outcome_in, limit_of, limit_outcome, new_outcome, response_outcome_in, rows_count, unchanged_outcome, HasOutcome, RunsOut, UsesSuffixes};
ghost use Rattle.cookie_store_c.specs.Headers.{cross_site};
ghost use Rattle.cookie_store_c.specs.Statuses.{IsCodeOf};
ghost use Rattle.cookie_store_c.specs.declared.status.Status.{Status};

use crate::calls;
use crate::handle::StoreHandle;
use crate::status::Status;
use cookie_store::CookieStore;
use std::alloc::Global;

/// Creates a store without cookies, public suffix list or limit, whose maps hash by `key`.
///
/// # Errors
///
/// In the order in which they are checked:
/// - `HasStore`: the handle has a store.
/// - `NoMemory`: out of memory. The handle stays empty.
#[unsafe(no_mangle)]
pub extern "C" fn cookie_store_new(alloc: Global, handle: &mut StoreHandle, key: &[u8]) -> u32
    ensures outcome { IsCodeOf result (λ status. HasOutcome (new_outcome handle.old.store_ptr.store) (handle.old.store_ptr.store ≡ None)
        handle.old.store_ptr.store status handle.new.store_ptr.store) }
    ensures strict { handle.new.is_strict ≡ flag_after_new false handle.old.store_ptr.store handle.new.store_ptr.store handle.old.is_strict }
{
    if let Some(store) = handle.take(alloc) {
        handle.put(alloc, store);
        return Status::HasStore.code();
    }
    match calls::hash_key(key) {
        Ok(hash_key) => {
            let store = CookieStore::with_hash_key(alloc, hash_key);
            begin(alloc, handle, store, false).code()
        }
        Err(status) => status.code(),
    }
}

/// Boxes the store and puts it into the empty handle, strict or not.
pub(crate) fn begin(
    alloc: Global,
    handle: &mut StoreHandle,
    store: CookieStore,
    strict: bool,
) -> Status
    requires { handle.old.store_ptr.store ≡ None }
    ensures outcome { ((result ≡ Status.Done) × (handle.new.store_ptr.store ≡ Some store))
        ⊎ ((result ≡ Status.NoMemory) × (handle.new.store_ptr.store ≡ None)) }
    ensures strict { handle.new.is_strict ≡ flag_after_new strict None handle.new.store_ptr.store handle.old.is_strict }
{
    match Box::new(alloc, store) {
        Ok(store) => {
            handle.is_strict = strict;
            handle.put(alloc, store);
            Status::Done
        }
        Err(_) => Status::NoMemory,
    }
}

/// Puts a copy of the store of `handle` into `copy`: the same cookies in the same order, public
/// suffix list, limit and hash key. The copy is strict if the store is.
///
/// The store is unchanged.
///
/// # Errors
///
/// In the order in which they are checked; `copy` is unchanged:
/// - `NoStore`: `handle` has no store.
/// - `HasStore`: `copy` has a store.
/// - `NoMemory`: out of memory.
#[unsafe(no_mangle)]
pub extern "C" fn cookie_store_clone(
    alloc: Global,
    handle: &mut StoreHandle,
    copy: &mut StoreHandle,
) -> u32
    ensures outcome { IsCodeOf result (λ status. HasOutcome (clone_outcome handle.old.store_ptr.store copy.old.store_ptr.store)
        (IsSome handle.old.store_ptr.store × (copy.old.store_ptr.store ≡ None)) copy.old.store_ptr.store status copy.new.store_ptr.store) }
    ensures strict { copy.new.is_strict
        ≡ flag_after_new handle.old.is_strict copy.old.store_ptr.store copy.new.store_ptr.store copy.old.is_strict }
    ensures store { handle.new.store_ptr.store ≡ handle.old.store_ptr.store }
    ensures flag { handle.new.is_strict ≡ handle.old.is_strict }
{
    let Some(store) = handle.take(alloc) else {
        return Status::NoStore.code();
    };
    let status = copy_store(alloc, &store, handle.is_strict, copy);
    handle.put(alloc, store);
    status.code()
}

// Puts a copy of the store into the handle, strict or not, or returns `HasStore` if it has a store.
fn copy_store(
    alloc: Global,
    store: &CookieStore,
    is_strict: bool,
    handle: &mut StoreHandle,
) -> Status
    ensures outcome { HasOutcome (clone_outcome (Some store.now) handle.old.store_ptr.store) (handle.old.store_ptr.store ≡ None)
        handle.old.store_ptr.store result handle.new.store_ptr.store }
    ensures strict { handle.new.is_strict ≡ flag_after_new is_strict handle.old.store_ptr.store handle.new.store_ptr.store handle.old.is_strict }
{
    if let Some(held) = handle.take(alloc) {
        handle.put(alloc, held);
        return Status::HasStore;
    }
    let Ok(copy) = store.clone() else {
        return Status::NoMemory;
    };
    begin(alloc, handle, copy, is_strict)
}

/// Frees the store of the handle, if there is one.
#[unsafe(no_mangle)]
pub extern "C" fn cookie_store_free(alloc: Global, handle: &mut StoreHandle)
    ensures outcome { handle.new.store_ptr.store ≡ None }
    ensures strict { handle.new.is_strict ≡ false }
{
    let _store = handle.take(alloc);
    handle.is_strict = false;
}

/// Limits each domain to `limit` cookies, RFC 6265 6.1.
///
/// No stored cookie is evicted until a cookie is inserted into its domain.
///
/// # Errors
///
/// In the order in which they are checked; the store is unchanged:
/// - `NoStore`: the handle has no store.
/// - `BadLimit`: `limit` is 0.
#[unsafe(no_mangle)]
pub extern "C" fn cookie_store_set_domain_limit(
    alloc: Global,
    handle: &mut StoreHandle,
    limit: usize,
) -> u32
    ensures outcome { IsCodeOf result (λ status. record { status = status; store = handle.new.store_ptr.store } ≡ limit_outcome limit handle.old.store_ptr.store) }
    ensures strict { handle.new.is_strict ≡ handle.old.is_strict }
{
    let Some(mut store) = handle.take(alloc) else {
        return Status::NoStore.code();
    };
    let status = calls::set_domain_limit(&mut store, limit);
    handle.put(alloc, store);
    status.code()
}

/// Sets whether cookies are inserted under the rules of browsers, as `strict::parse` does. Stored
/// cookies stay. A store that was just created or loaded is not strict.
///
/// # Errors
///
/// - `NoStore`: the handle has no store.
#[unsafe(no_mangle)]
pub extern "C" fn cookie_store_set_strict(
    alloc: Global,
    handle: &mut StoreHandle,
    is_strict: bool,
) -> u32
    ensures outcome { IsCodeOf result (λ status. record { status = status; store = handle.new.store_ptr.store } ≡ unchanged_outcome handle.old.store_ptr.store) }
    ensures strict { handle.new.is_strict ≡ flag_after_set handle.old.store_ptr.store is_strict handle.old.is_strict }
{
    let Some(store) = handle.take(alloc) else {
        return Status::NoStore.code();
    };
    handle.put(alloc, store);
    handle.is_strict = is_strict;
    Status::Done.code()
}

/// Returns whether the store is strict: false if the handle has no store.
#[unsafe(no_mangle)]
pub extern "C" fn cookie_store_is_strict(handle: &mut StoreHandle) -> bool
    ensures strict { result ≡ (is_some handle.old.store_ptr.store && handle.old.is_strict) }
    ensures same { handle.new ≡ handle.old }
{
    handle.has_strict_store()
}

/// Returns how many cookies a domain may have: 0 if that is not limited, or if the handle has no store.
#[unsafe(no_mangle)]
pub extern "C" fn cookie_store_domain_limit(alloc: Global, handle: &mut StoreHandle) -> usize
    ensures limit { result ≡ limit_of handle.old.store_ptr.store }
    ensures store { handle.new.store_ptr.store ≡ handle.old.store_ptr.store }
    ensures strict { handle.new.is_strict ≡ handle.old.is_strict }
{
    let Some(store) = handle.take(alloc) else {
        return 0;
    };
    let limit = store.domain_limit().unwrap_or(0);
    handle.put(alloc, store);
    limit
}

/// Makes the maps of the store hash by `key`. The cookies stay the same.
///
/// # Errors
///
/// In the order in which they are checked:
/// - `NoStore`: the handle has no store.
/// - `NoMemory`: out of memory.
#[unsafe(no_mangle)]
pub extern "C" fn cookie_store_set_hash_key(
    alloc: Global,
    handle: &mut StoreHandle,
    key: &[u8],
) -> u32
    ensures outcome { IsCodeOf result (λ status. HasOutcome (unchanged_outcome handle.old.store_ptr.store) (IsSome handle.old.store_ptr.store)
        handle.old.store_ptr.store status handle.new.store_ptr.store) }
    ensures strict { handle.new.is_strict ≡ handle.old.is_strict }
{
    let Some(mut store) = handle.take(alloc) else {
        return Status::NoStore.code();
    };
    let status = calls::set_hash_key(&mut store, key);
    handle.put(alloc, store);
    status.code()
}

/// Parses the `Set-Cookie` header value `value` received from `url` and inserts the cookie, RFC 6265
/// 5.3; under the rules of browsers if the store is strict.
///
/// # Errors
///
/// In the order in which they are checked; the store is unchanged:
/// - `NoStore`: the handle has no store.
/// - `NotUtf8`: `value` or `url` is not UTF-8.
/// - `BadTime`: `now` is not in the years -9999 to 9999.
/// - `BadUrl`: `url` is not a valid URL.
/// - The errors of `CookieStore::parse`, or of `strict::parse` if the store is strict.
/// - `NoMemory`: out of memory. May be returned instead of any error but the first three.
#[unsafe(no_mangle)]
pub extern "C" fn cookie_store_parse(
    alloc: Global,
    handle: &mut StoreHandle,
    url: &[u8],
    value: &[u8],
    now: i64,
) -> u32
    ensures outcome { IsCodeOf result (λ status. HasOutcome (insertion_outcome_in handle.old.is_strict handle.old.store_ptr.store (set_call url.now value.now now))
        (IsSome handle.old.store_ptr.store × IsOk (text_in value.now) × IsOk (text_and_time url.now now))
        handle.old.store_ptr.store status handle.new.store_ptr.store) }
    ensures strict { handle.new.is_strict ≡ handle.old.is_strict }
{
    let Some(mut store) = handle.take(alloc) else {
        return Status::NoStore.code();
    };
    let status = calls::parse(alloc, &mut store, handle.is_strict, url, value, now);
    handle.put(alloc, store);
    status.code()
}

/// Parses the `Set-Cookie` header value `value` of the response to a request that the page with the URL
/// `page` made for `url`, and inserts the cookie under the rules of browsers, whether the store is
/// strict or not.
///
/// If page and URL are not same-site, `request` says more, as in `cookie_store_header_cross_site`.
///
/// # Errors
///
/// In the order in which they are checked; the store is unchanged:
/// - `NoStore`: the handle has no store.
/// - `BadOption`: `request` has another flag.
/// - `NotUtf8`: `value`, `page` or `url` is not UTF-8.
/// - `BadTime`: `now` is not in the years -9999 to 9999.
/// - `BadUrl`: `url` or `page` is not a valid URL.
/// - The errors of `strict::parse_in_context`.
/// - `NoMemory`: out of memory. May be returned instead of any error but the first four.
#[unsafe(no_mangle)]
pub extern "C" fn cookie_store_parse_for(
    alloc: Global,
    handle: &mut StoreHandle,
    url: &[u8],
    page: &[u8],
    value: &[u8],
    now: i64,
    request: u32,
) -> u32
    ensures outcome { IsCodeOf result (λ status. HasOutcome
        (response_outcome_in (cross_site request) handle.old.store_ptr.store (response_inputs page.now url.now value.now now))
        (IsSome handle.old.store_ptr.store × IsOk (cross_site request) × IsOk (text_in value.now) × IsOk (text_in page.now)
        × IsOk (text_and_time url.now now))
        handle.old.store_ptr.store status handle.new.store_ptr.store) }
    ensures strict { handle.new.is_strict ≡ handle.old.is_strict }
{
    let Some(mut store) = handle.take(alloc) else {
        return Status::NoStore.code();
    };
    let status = calls::parse_for_page(alloc, &mut store, request, url, page, value, now);
    handle.put(alloc, store);
    status.code()
}

/// Puts the store under the public suffix list `list` and, unless `only_listed` is true, the rule
/// `*`, by which each top-level domain without a rule of its own is a public suffix. The stored
/// cookies stay.
///
/// `bad_line` is set to the number of the first malformed line after `BadRule`, and otherwise to 0.
///
/// # Errors
///
/// In the order in which they are checked; the store is unchanged:
/// - `NoStore`: the handle has no store.
/// - `NotUtf8`: `list` is not UTF-8.
/// - `BadRule`: a line of `list` is malformed, or its rule has one of the bytes `/ < { " : @ =`.
/// - `NoRules`: each line of `list` is empty or a comment.
/// - `NoMemory`: out of memory. May be returned instead of `BadRule` and `NoRules`.
#[unsafe(no_mangle)]
pub extern "C" fn cookie_store_set_suffix_list(
    alloc: Global,
    handle: &mut StoreHandle,
    list: &[u8],
    only_listed: bool,
    bad_line: &mut usize,
) -> u32
    ensures outcome { IsCodeOf result (λ status.
        UsesSuffixes only_listed handle.old.store_ptr.store list.now bad_line.new (record { status = status; store = handle.new.store_ptr.store })
        ⊎ ((bad_line.new ≡ 0) × RunsOut (IsSome handle.old.store_ptr.store × IsOk (text_in list.now))
        handle.old.store_ptr.store status handle.new.store_ptr.store)) }
    ensures strict { handle.new.is_strict ≡ handle.old.is_strict }
{
    *bad_line = 0;
    let Some(mut store) = handle.take(alloc) else {
        return Status::NoStore.code();
    };
    let status = calls::set_suffix_list(alloc, &mut store, list, only_listed, bad_line);
    handle.put(alloc, store);
    status.code()
}

/// Removes the cookie with this domain, path and name, expired or not.
///
/// # Errors
///
/// In the order in which they are checked; the store is unchanged:
/// - `NoStore`: the handle has no store.
/// - `NotUtf8`: `domain`, `path` or `name` is not UTF-8.
/// - `NotFound`: there is no such cookie.
#[unsafe(no_mangle)]
pub extern "C" fn cookie_store_remove(
    alloc: Global,
    handle: &mut StoreHandle,
    domain: &[u8],
    path: &[u8],
    name: &[u8],
) -> u32
    ensures outcome { IsCodeOf result (λ status. record { status = status; store = handle.new.store_ptr.store }
        ≡ call_outcome handle.old.store_ptr.store (remove_call domain.now path.now name.now)) }
    ensures strict { handle.new.is_strict ≡ handle.old.is_strict }
{
    let Some(mut store) = handle.take(alloc) else {
        return Status::NoStore.code();
    };
    let status = calls::remove(&mut store, domain, path, name);
    handle.put(alloc, store);
    status.code()
}

/// Removes the cookies of this domain, host-only cookies and domain cookies, expired or not.
///
/// `removed` is set to their number, and to 0 on an error.
///
/// # Errors
///
/// In the order in which they are checked; the store is unchanged:
/// - `NoStore`: the handle has no store.
/// - `NotUtf8`: `domain` is not UTF-8.
#[unsafe(no_mangle)]
pub extern "C" fn cookie_store_remove_domain(
    alloc: Global,
    handle: &mut StoreHandle,
    domain: &[u8],
    removed: &mut usize,
) -> u32
    ensures store { IsCodeOf result (λ status. record { status = status; store = handle.new.store_ptr.store }
        ≡ domain_outcome (text_in domain.now) handle.old.store_ptr.store) }
    ensures removed { removed.new + rows_count handle.new.store_ptr.store ≡ rows_count handle.old.store_ptr.store }
    ensures strict { handle.new.is_strict ≡ handle.old.is_strict }
{
    *removed = 0;
    let Some(mut store) = handle.take(alloc) else {
        return Status::NoStore.code();
    };
    let status = calls::remove_domain(&mut store, domain, removed);
    handle.put(alloc, store);
    status.code()
}

/// Removes all cookies, or returns `NoStore` if the handle has no store.
#[unsafe(no_mangle)]
pub extern "C" fn cookie_store_clear(alloc: Global, handle: &mut StoreHandle) -> u32
    ensures outcome { IsCodeOf result (λ status. record { status = status; store = handle.new.store_ptr.store }
        ≡ call_outcome handle.old.store_ptr.store (Ok Clear)) }
    ensures strict { handle.new.is_strict ≡ handle.old.is_strict }
{
    let Some(mut store) = handle.take(alloc) else {
        return Status::NoStore.code();
    };
    let status = calls::clear(&mut store);
    handle.put(alloc, store);
    status.code()
}

/// Removes the cookies that have expired at `now`.
///
/// `removed` is set to their number, and to 0 on an error.
///
/// # Errors
///
/// In the order in which they are checked; the store is unchanged:
/// - `NoStore`: the handle has no store.
/// - `BadTime`: `now` is not in the years -9999 to 9999.
#[unsafe(no_mangle)]
pub extern "C" fn cookie_store_remove_expired(
    alloc: Global,
    handle: &mut StoreHandle,
    now: i64,
    removed: &mut usize,
) -> u32
    ensures store { IsCodeOf result (λ status. record { status = status; store = handle.new.store_ptr.store }
        ≡ expired_outcome (moment_in now) handle.old.store_ptr.store) }
    ensures removed { removed.new + rows_count handle.new.store_ptr.store ≡ rows_count handle.old.store_ptr.store }
    ensures strict { handle.new.is_strict ≡ handle.old.is_strict }
{
    *removed = 0;
    let Some(mut store) = handle.take(alloc) else {
        return Status::NoStore.code();
    };
    let status = calls::remove_expired(&mut store, now, removed);
    handle.put(alloc, store);
    status.code()
}

/// Returns the number of cookies, expired ones included: 0 if there is no store.
#[unsafe(no_mangle)]
pub extern "C" fn cookie_store_count(alloc: Global, handle: &mut StoreHandle) -> usize
    ensures count { result ≡ rows_count handle.old.store_ptr.store }
    ensures store { handle.new.store_ptr.store ≡ handle.old.store_ptr.store }
    ensures strict { handle.new.is_strict ≡ handle.old.is_strict }
{
    let Some(store) = handle.take(alloc) else {
        return 0;
    };
    let count = store.len();
    handle.put(alloc, store);
    count
}
