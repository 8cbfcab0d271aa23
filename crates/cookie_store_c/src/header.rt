//! The `Cookie` header of a request.
ghost use Rattle.std.specs.Prelude.{◌≡◌, ◌≢◌, [], map, string_bytes, Err, Some, IfErr, IfOk, IsOk, OnErr};
ghost use Rattle.cookie_words.specs.Moments.{moment_of};
ghost use Rattle.cookie_laws.specs.Given.{given};
ghost use Rattle.cookie_store_c.specs.Inputs.{page_and_request, text_and_time, text_in};
ghost use Rattle.cookie_store_c.specs.Buffers.{WritesSomeText};
ghost use Rattle.cookie_store_c.specs.Headers.{cross_site, from_page, own_request, AreCookiesOf, HasPlainUrl, IsCrossSiteHeader, IsHeader, IsHeaderText, IsPageHeader};

use crate::buffer::copy_out;
use crate::inputs::{page_and_request, request};
use crate::status::Status;
use cookie_store::strict::{Context, cookies_for, is_same_site_in};
use cookie_store::{Cookie, CookieStore, cookie_string};
use jiff::civil::DateTime;
use std::alloc::{AllocError, Global};
use url::Url;

/// Writes the value of the `Cookie` header of a request for `url` into `out`, and its length into
/// `needed`. With a context it leaves out the cookies that the request must not have.
pub(crate) fn write_header(
    alloc: Global,
    store: &CookieStore,
    context: Option<Context>,
    url: &[u8],
    now: i64,
    out: &mut [u8],
    needed: &mut usize,
) -> Status
    ensures { WritesSomeText (IsHeader context store.now url.now now) (IsOk (text_and_time url.now now)) out.old result out.new needed.new }
{
    copy_out(
        text_for(store, context, request(alloc, url, now)),
        out,
        needed,
    )
}

/// Writes the value of the `Cookie` header of a cross-site request of these flags, as [`write_header`]
/// does.
pub(crate) fn write_cross_site(
    alloc: Global,
    store: &CookieStore,
    flags: u32,
    url: &[u8],
    now: i64,
    out: &mut [u8],
    needed: &mut usize,
) -> Status
    ensures { WritesSomeText (IsCrossSiteHeader (cross_site flags) (Some store.now) url.now now)
        (IsOk (cross_site flags) × IsOk (text_and_time url.now now)) out.old result out.new needed.new }
{
    match cross_site(flags) {
        Ok(context) => write_header(alloc, store, Some(context), url, now, out, needed),
        Err(status) => copy_out(Err(status), out, needed),
    }
}

/// Writes the value of the `Cookie` header of a request that `page` made, as [`write_header`] does. If
/// it is cross-site, it has these flags.
pub(crate) fn write_for_page(
    alloc: Global,
    store: &CookieStore,
    flags: u32,
    url: &[u8],
    page: &[u8],
    now: i64,
    out: &mut [u8],
    needed: &mut usize,
) -> Status
    ensures { WritesSomeText (IsPageHeader (cross_site flags) (Some store.now) page.now url.now now)
        (IsOk (cross_site flags) × IsOk (text_in page.now) × IsOk (text_and_time url.now now)) out.old result out.new needed.new }
{
    let context = match cross_site(flags) {
        Ok(context) => context,
        Err(status) => return copy_out(Err(status), out, needed),
    };
    match page_and_request(alloc, page, url, now) {
        Ok((page, url, now)) => {
            let context = from_page(context, store, &url, &page);
            let text = text_for(store, Some(context), Ok((url, now)));
            copy_out(text, out, needed)
        }
        Err(status) => copy_out(Err(status), out, needed),
    }
}

/// Returns the context, same-site if the page is same-site with the URL under the store's list.
pub(crate) fn from_page(context: Context, store: &CookieStore, url: &Url, page: &Url) -> Context
    ensures { result ≡ from_page context store.now url.now page.now }
{
    Context {
        is_same_site: is_same_site_in(store, url, page),
        ..context
    }
}

/// Returns the context of a request by the user, under the rules of browsers if `is_strict` is true.
pub(crate) fn own_request(is_strict: bool) -> Option<Context>
    ensures { result ≡ own_request is_strict }
{
    if !is_strict {
        return None;
    }
    Some(Context {
        is_same_site: true,
        is_top_level: true,
        is_safe: true,
        is_lax_by_default: true,
    })
}

/// Returns the cross-site request of these flags of `enum cookie_store_cross_site`, or `BadOption`.
pub(crate) fn cross_site(flags: u32) -> Result<Context, Status>
    ensures { result ≡ cross_site flags }
{
    let (is_top_level, is_lax_by_default) = match flags {
        0 => (false, true),
        1 => (true, true),
        2 => (false, false),
        3 => (true, false),
        _ => return Err(Status::BadOption),
    };
    Ok(Context {
        is_same_site: false,
        is_top_level,
        is_safe: true,
        is_lax_by_default,
    })
}

// Returns the value of the `Cookie` header, or the error of the request.
fn text_for(
    store: &CookieStore,
    context: Option<Context>,
    inputs: Result<(Url, DateTime), Status>,
) -> Result<Vec<u8>, Status>
    ensures text { IfOk result (λ text. IfOk inputs
        (λ inputs. IsHeaderText context inputs.0 (moment_of inputs.1) store.now text.items)) }
    ensures status { (status : Status) → inputs ≡ Err status → result ≡ Err status }
    ensures memory { IfOk inputs (λ inputs. IfErr result (λ status. (status ≡ Status.NoMemory)
        × (HasPlainUrl context inputs.0 → given inputs.0 (moment_of inputs.1) store.now.rows ≢ []))) }
{
    let (url, now) = inputs?;
    match cookie_header(store, context, &url, now) {
        Ok(text) => Ok(text.into_bytes()),
        Err(_) => Err(Status::NoMemory),
    }
}

// Returns the value of the `Cookie` header.
fn cookie_header(
    store: &CookieStore,
    context: Option<Context>,
    url: &Url,
    now: DateTime,
) -> Result<String, AllocError>
    ensures text { IfOk result (λ text. IsHeaderText context url.now (moment_of now) store.now (string_bytes text)) }
    ensures memory { HasPlainUrl context url.now → OnErr result (given url.now (moment_of now) store.now.rows ≢ []) }
{
    cookie_string(
        store.allocator(),
        &header_cookies(store, context, url, now)?,
    )
}

/// Returns the cookies of a request, or those that a request with a context receives.
pub(crate) fn header_cookies<'s>(
    store: &'s CookieStore,
    context: Option<Context>,
    url: &Url,
    now: DateTime,
) -> Result<Vec<&'s Cookie<'static>>, AllocError>
    ensures sent { IfOk result (λ cookies. AreCookiesOf context url.now (moment_of now) store.now (map (λ c. c.now) cookies.items)) }
    ensures memory { HasPlainUrl context url.now → OnErr result (given url.now (moment_of now) store.now.rows ≢ []) }
{
    match context {
        None => store.cookies_in_order(url, now),
        Some(context) => cookies_for(store, url, context, now),
    }
}
