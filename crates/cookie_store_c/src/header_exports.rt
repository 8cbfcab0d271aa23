//! The functions of `cookie_store.h` that write the `Cookie` header of a request.
ghost use Rattle.std.specs.Prelude.{◌≡◌, IsOk, IsSome};
ghost use Rattle.cookie_store_c.specs.Inputs.{text_and_time, text_in};
ghost use Rattle.cookie_store_c.specs.Buffers.{WritesSomeText};
ghost use Rattle.cookie_store_c.specs.Headers.{cross_site, own_request, IsCrossSiteHeader, IsHeaderIn, IsPageHeader};
ghost use Rattle.cookie_store_c.specs.Statuses.{IsCodeOf};

use crate::handle::StoreHandle;
use crate::header;
use crate::status::Status;
use std::alloc::Global;

/// Writes the value of the `Cookie` header of a request for `url` into `out`, its cookies in the
/// order of RFC 6265 5.4; under the rules of browsers if the store is strict, which differ for a URL
/// with the scheme `http` and a host below `localhost`: it has Secure cookies.
///
/// The store is unchanged. `needed` is set to the length of the value, 0 if there are no cookies to
/// send, and to 0 on any error but `NoRoom`.
///
/// # Errors
///
/// In the order in which they are checked; `out` is unchanged:
/// - `NoStore`: the handle has no store.
/// - `NotUtf8`: `url` is not UTF-8.
/// - `BadTime`: `now` is not in the years -9999 to 9999.
/// - `BadUrl`: `url` is not a valid URL.
/// - `NoRoom`: `out` is shorter than `needed`.
/// - `NoMemory`: out of memory. May be returned instead of any error but the first three.
#[unsafe(no_mangle)]
pub extern "C" fn cookie_store_header(
    alloc: Global,
    handle: &mut StoreHandle,
    url: &[u8],
    now: i64,
    out: &mut [u8],
    needed: &mut usize,
) -> u32
    ensures text { IsCodeOf result (λ status. WritesSomeText (IsHeaderIn (own_request handle.old.is_strict) handle.old.store_ptr.store url.now now)
        (IsSome handle.old.store_ptr.store × IsOk (text_and_time url.now now)) out.old status out.new needed.new) }
    ensures store { handle.new.store_ptr.store ≡ handle.old.store_ptr.store }
    ensures strict { handle.new.is_strict ≡ handle.old.is_strict }
{
    *needed = 0;
    let Some(store) = handle.take(alloc) else {
        return Status::NoStore.code();
    };
    let context = header::own_request(handle.is_strict);
    let status = header::write_header(alloc, &store, context, url, now, out, needed);
    handle.put(alloc, store);
    status.code()
}

/// Writes the value of the `Cookie` header of a cross-site request for `url` into `out`, its cookies
/// in the order of RFC 6265 5.4.
///
/// `request` has the flags of `enum cookie_store_cross_site`: 1 for a top-level navigation with a safe
/// method, and 2 if a cookie without a SameSite attribute is treated as SameSite=None, not as Lax. All
/// else is as in `cookie_store_header`.
///
/// # Errors
///
/// In the order in which they are checked: `NoStore`; `BadOption`, another flag; then those of
/// `cookie_store_header`.
#[unsafe(no_mangle)]
pub extern "C" fn cookie_store_header_cross_site(
    alloc: Global,
    handle: &mut StoreHandle,
    url: &[u8],
    now: i64,
    request: u32,
    out: &mut [u8],
    needed: &mut usize,
) -> u32
    ensures text { IsCodeOf result (λ status. WritesSomeText (IsCrossSiteHeader (cross_site request) handle.old.store_ptr.store url.now now)
        (IsSome handle.old.store_ptr.store × IsOk (cross_site request) × IsOk (text_and_time url.now now)) out.old status out.new needed.new) }
    ensures store { handle.new.store_ptr.store ≡ handle.old.store_ptr.store }
    ensures strict { handle.new.is_strict ≡ handle.old.is_strict }
{
    *needed = 0;
    let Some(store) = handle.take(alloc) else {
        return Status::NoStore.code();
    };
    let status = header::write_cross_site(alloc, &store, request, url, now, out, needed);
    handle.put(alloc, store);
    status.code()
}

/// Writes the value of the `Cookie` header of a request for `url` that the page with the URL `page`
/// made into `out`, its cookies in the order of RFC 6265 5.4.
///
/// If page and URL are same-site, it is that of `cookie_store_header` in a strict store, and else that
/// of `cookie_store_header_cross_site` with `request`. They are same-site under the store's public
/// suffix list; without one, if their schemes and hosts are equal.
///
/// # Errors
///
/// In the order in which they are checked; `out` is unchanged:
/// - `NoStore`: the handle has no store.
/// - `BadOption`: `request` has another flag.
/// - `NotUtf8`: `page` or `url` is not UTF-8.
/// - `BadTime`: `now` is not in the years -9999 to 9999.
/// - `BadUrl`: `url` or `page` is not a valid URL.
/// - `NoRoom`: `out` is shorter than `needed`.
/// - `NoMemory`: out of memory. May be returned instead of any error but the first four.
#[unsafe(no_mangle)]
pub extern "C" fn cookie_store_header_for(
    alloc: Global,
    handle: &mut StoreHandle,
    url: &[u8],
    page: &[u8],
    now: i64,
    request: u32,
    out: &mut [u8],
    needed: &mut usize,
) -> u32
    ensures text { IsCodeOf result (λ status. WritesSomeText
        (IsPageHeader (cross_site request) handle.old.store_ptr.store page.now url.now now)
        (IsSome handle.old.store_ptr.store × IsOk (cross_site request) × IsOk (text_in page.now) × IsOk (text_and_time url.now now))
        out.old status out.new needed.new) }
    ensures store { handle.new.store_ptr.store ≡ handle.old.store_ptr.store }
    ensures strict { handle.new.is_strict ≡ handle.old.is_strict }
{
    *needed = 0;
    let Some(store) = handle.take(alloc) else {
        return Status::NoStore.code();
    };
    let status = header::write_for_page(alloc, &store, request, url, page, now, out, needed);
    handle.put(alloc, store);
    status.code()
}
