//! Inserting a cookie by its parts.
ghost use Rattle.std.specs.Prelude.{◌≡◌, Err, Some, IfOk, IsOk, IsSome, string_bytes};
ghost use Rattle.std.specs.Result.{result_map_both};
ghost use Rattle.cookie_words.specs.Moments.{moment_of};
ghost use Rattle.cookie_raw.specs.Raw.{pair};
ghost use Rattle.cookie_parts.specs.Path.{is_absolute};
ghost use Rattle.cookie_parts.specs.Views.{domain_value, expiry_value};
ghost use Rattle.cookie_netscape.specs.Lines.{domain_of};
ghost use Rattle.cookie_store_c.specs.Calls.{insertion_outcome, insertion_outcome_in, HasOutcome};
ghost use Rattle.cookie_store_c.specs.Inputs.{GivesOrRunsOut};
ghost use Rattle.cookie_store_c.specs.InsertedCookies.{cookie_and_time, cookie_of, expiry_in, expressible, host_page, insert_call, insertion, is_host, raw_with, same_site_in, texts_in};
ghost use Rattle.cookie_store_c.specs.Statuses.{IsCodeOf};

use crate::cookie_row::CookieRow;
use crate::handle::StoreHandle;
use crate::inputs::{moment_in, text_in};
use crate::status::Status;
use cookie_core::own_page;
use cookie_store::raw::{RawCookie, RawCookieBuilder, SameSite};
use cookie_store::{Cookie, CookieDomain, CookieExpiration, CookiePath, CookieStore, strict};
use jiff::civil::DateTime;
use std::alloc::{AllocError, Global};
use url::Url;

/// Inserts the cookie of these strings and of the attributes of `row`, as if it was received from
/// `https://DOMAIN/` with its own domain; under the rules of browsers if the store is strict.
///
/// The lengths of `row` are not read.
///
/// # Errors
///
/// In the order in which they are checked; the store is unchanged:
/// - `NoStore`: the handle has no store.
/// - `BadOption`: the number of the SameSite attribute is not that of one.
/// - `NotUtf8`: a string is not UTF-8.
/// - `BadTime`: the expiry or `now` is not in the years -9999 to 9999.
/// - `Parse`: no header value can have the name and the value, or the path does not begin with `/`.
/// - `DomainMismatch`: the domain is not the host of a URL.
/// - The errors of `CookieStore::insert`, or of `strict::insert` if the store is strict.
/// - `NoMemory`: out of memory. May be returned instead of any error but the first four.
#[unsafe(no_mangle)]
pub extern "C" fn cookie_store_insert(
    alloc: Global,
    handle: &mut StoreHandle,
    domain: &[u8],
    path: &[u8],
    name: &[u8],
    value: &[u8],
    row: &CookieRow,
    now: i64,
) -> u32
    ensures outcome { IsCodeOf result (λ status. HasOutcome
        (insertion_outcome_in handle.old.is_strict handle.old.store_ptr.store (insert_call domain.now path.now name.now value.now row.now now))
        (IsSome handle.old.store_ptr.store × IsOk (cookie_and_time domain.now path.now name.now value.now row.now now))
        handle.old.store_ptr.store status handle.new.store_ptr.store) }
    ensures strict { handle.new.is_strict ≡ handle.old.is_strict }
{
    let Some(mut store) = handle.take(alloc) else {
        return Status::NoStore.code();
    };
    let is_strict = handle.is_strict;
    let status = insert(
        alloc, &mut store, is_strict, domain, path, name, value, row, now,
    );
    handle.put(alloc, store);
    status.code()
}

// Inserts the cookie of these parts, under the rules of browsers if `is_strict` is true.
fn insert(
    alloc: Global,
    store: &mut CookieStore,
    is_strict: bool,
    domain: &[u8],
    path: &[u8],
    name: &[u8],
    value: &[u8],
    row: &CookieRow,
    now: i64,
) -> Status
    ensures { HasOutcome (insertion_outcome is_strict store.old (insert_call domain.now path.now name.now value.now row.now now))
        (IsOk (cookie_and_time domain.now path.now name.now value.now row.now now)) (Some store.old) result (Some store.new) }
{
    let (cookie, page, now) = match insertion(alloc, domain, path, name, value, row, now) {
        Ok(inputs) => inputs,
        Err(status) => return status,
    };
    if is_strict {
        Status::of_strict(strict::insert(store, cookie, &page, now))
    } else {
        Status::of_reply(store.insert(cookie, &page, now))
    }
}

// Makes the cookie of these parts and its page, and reads the time `now` seconds after the epoch.
//
// The errors are `BadOption`, `NotUtf8`, `BadTime`, `Parse` and `DomainMismatch`, checked in this
// order. `NoMemory` is returned only if none of the first three applies.
fn insertion(
    alloc: Global,
    domain: &[u8],
    path: &[u8],
    name: &[u8],
    value: &[u8],
    row: &CookieRow,
    now: i64,
) -> Result<(Cookie<'static>, Url, DateTime), Status>
    ensures value { GivesOrRunsOut (result_map_both (λ inputs. (inputs.0, inputs.1, moment_of inputs.2)) (λ status. status) result)
        (insertion domain.now path.now name.now value.now row.now now) }
    ensures memory { result ≡ Err Status.NoMemory → IsOk (cookie_and_time domain.now path.now name.now value.now row.now now) }
{
    let same_site = same_site_in(row.same_site)?;
    let (domain, path, name, value) = texts_in(domain, path, name, value)?;
    let expires = expiry_in(row.persistent != 0, row.expires)?;
    let now = moment_in(now)?;
    let attributes = Attributes {
        row: *row,
        same_site,
        expires,
    };
    let cookie = expressible(alloc, domain, path, name, value, &attributes)?;
    let page = host_page(alloc, &cookie)?;
    Ok((cookie, page, now))
}

/// The attributes of a cookie.
#[derive(Clone, Copy)]
pub struct Attributes {
    /// The flags. Its lengths are not read.
    pub row: CookieRow,
    pub same_site: Option<SameSite>,
    pub expires: CookieExpiration,
}

// Reads the four strings, or returns the first error.
fn texts_in<'a>(
    domain: &'a [u8],
    path: &'a [u8],
    name: &'a [u8],
    value: &'a [u8],
) -> Result<(&'a str, &'a str, &'a str, &'a str), Status>
    ensures { result_map_both (λ texts. (texts.0.now, texts.1.now, texts.2.now, texts.3.now)) (λ status. status) result
        ≡ texts_in domain.now path.now name.now value.now }
{
    Ok((
        text_in(domain)?,
        text_in(path)?,
        text_in(name)?,
        text_in(value)?,
    ))
}

// Returns the SameSite attribute of this number in `cookie_store.h`.
fn same_site_in(number: u32) -> Result<Option<SameSite>, Status>
    ensures { result ≡ same_site_in number }
{
    match number {
        0 => Ok(None),
        1 => Ok(Some(SameSite::Strict)),
        2 => Ok(Some(SameSite::Lax)),
        3 => Ok(Some(SameSite::None)),
        _ => Err(Status::BadOption),
    }
}

// Returns the expiry `second` seconds after the epoch of a persistent cookie, else that of a session
// cookie.
fn expiry_in(is_persistent: bool, second: i64) -> Result<CookieExpiration, Status>
    ensures { result_map_both expiry_value (λ status. status) result ≡ expiry_in is_persistent second }
{
    if is_persistent {
        Ok(CookieExpiration::AtUtc(moment_in(second)?))
    } else {
        Ok(CookieExpiration::SessionEnd)
    }
}

// Makes the cookie of these parts, or returns `Parse` if no server can set it.
fn expressible(
    alloc: Global,
    domain: &str,
    path: &str,
    name: &str,
    value: &str,
    attributes: &Attributes,
) -> Result<Cookie<'static>, Status>
    ensures { GivesOrRunsOut result (expressible (cookie_of domain.now path.now name.now value.now attributes.now)) }
{
    let Ok(raw) = pair(alloc, name, value) else {
        return Err(Status::NoMemory);
    };
    if !raw.is_plain() || !is_absolute(path) {
        return Err(Status::Parse);
    }
    match cookie_of(alloc, domain, path, raw, attributes) {
        Ok(cookie) => Ok(cookie),
        Err(_) => Err(Status::NoMemory),
    }
}

// Returns the raw cookie of this name and value, without attributes.
fn pair(alloc: Global, name: &str, value: &str) -> Result<RawCookie<'static>, AllocError>
    ensures { IfOk result (λ raw. raw ≡ pair name.now value.now) }
{
    let name = String::from_str(alloc, name)?;
    let value = String::from_str(alloc, value)?;
    Ok(RawCookieBuilder::new(name, value).build())
}

// Whether the path begins with `/`.
fn is_absolute(path: &str) -> bool
    ensures { result ≡ is_absolute path.now }
{
    path.as_bytes().starts_with(b"/")
}

// Makes the cookie of this name and value and of the other parts.
fn cookie_of(
    alloc: Global,
    domain: &str,
    path: &str,
    raw: RawCookie<'static>,
    attributes: &Attributes,
) -> Result<Cookie<'static>, AllocError>
    requires { raw ≡ pair raw.name raw.value }
    ensures { IfOk result (λ cookie. cookie ≡ cookie_of domain.now path.now raw.entry.name raw.entry.value attributes.now) }
{
    let path = String::from_str(alloc, path)?;
    let domain = String::from_str(alloc, domain)?;
    Ok(Cookie::new(
        with_attributes(raw, attributes),
        domain_of(attributes.row.host_only == 0, domain),
        CookiePath::of_saved(path, attributes.row.has_path != 0),
        attributes.expires,
    ))
}

fn domain_of(has_subdomains: bool, domain: String) -> CookieDomain
    ensures { domain_value result ≡ domain_of has_subdomains (string_bytes domain) }
{
    if has_subdomains {
        CookieDomain::Suffix(domain)
    } else {
        CookieDomain::HostOnly(domain)
    }
}

// Adds Secure, HttpOnly and SameSite to a cookie that has none of them.
fn with_attributes(raw: RawCookie<'static>, attributes: &Attributes) -> RawCookie<'static>
    requires { raw ≡ pair raw.name raw.value }
    ensures { result ≡ raw_with raw.entry.name raw.entry.value attributes.now.row attributes.now.same_site }
{
    let mut builder = RawCookieBuilder::from_cookie(raw);
    if attributes.row.secure != 0 {
        builder = builder.secure(true);
    }
    if attributes.row.http_only != 0 {
        builder = builder.http_only(true);
    }
    if let Some(same_site) = attributes.same_site {
        builder = builder.same_site(same_site);
    }
    builder.build()
}

// Whether the domain is the host of the page, and has no dot before it.
fn is_host(domain: &CookieDomain, page: &Url) -> bool
    ensures { result ≡ is_host (domain_value domain.now) page.now }
{
    domain.host_is_identical(page) && !domain.as_str().starts_with('.')
}

// Returns the page `https://DOMAIN/` of the cookie, or `DomainMismatch` if its domain is not the host
// of that URL.
fn host_page(alloc: Global, cookie: &Cookie<'_>) -> Result<Url, Status>
    ensures { GivesOrRunsOut result (host_page cookie.now) }
{
    match own_page(alloc, cookie) {
        Ok(Some(page)) if is_host(&cookie.domain, &page) => Ok(page),
        Ok(_) => Err(Status::DomainMismatch),
        Err(_) => Err(Status::NoMemory),
    }
}
