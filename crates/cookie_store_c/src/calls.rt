//! Calls that change a store.
ghost use Rattle.std.specs.Prelude.{◌≡◌, ◌⊎◌, ◌+◌, length, Ok, Some, IfErr, IsOk, ⊤};
ghost use Rattle.std.specs.Result.{result_map_both};
ghost use Rattle.cookie_words.specs.Moments.{moment_of};
ghost use Rattle.cookie_laws.specs.Rows.{key_at};
ghost use Rattle.cookie_laws.specs.Runs.{Clear, Remove, Set};
ghost use Rattle.cookie_store_c.specs.Inputs.{text_and_time, moment_in, remove_call, response_inputs, text_in};
ghost use Rattle.cookie_store_c.specs.Headers.{cross_site};
ghost use Rattle.cookie_store_c.specs.Calls.{domain_outcome, expired_outcome, insertion_outcome, limit_outcome, response_outcome, store_outcome, suffixes_error_status, HasOutcome, ParsesValue, UsesSuffixText, RunsOut};

use crate::header::{cross_site, from_page};
use crate::inputs::{moment_in, page_and_request, request, text_in};
use crate::status::Status;
use cookie_inputs::{SuffixesError, parse_suffixes};
use cookie_store::{CookieStore, HashKey, strict};
use jiff::civil::DateTime;
use std::alloc::Global;
use std::hash::RandomState;
use std::io;
use std::random::RandomSource;
use url::Url;

/// Parses the `Set-Cookie` header value `value` received from `url` and inserts the cookie, under
/// the rules of browsers if `is_strict` is true.
pub(crate) fn parse(
    alloc: Global,
    store: &mut CookieStore,
    is_strict: bool,
    url: &[u8],
    value: &[u8],
    now: i64,
) -> Status
    ensures { ParsesValue is_strict url.now now value.now store.old result store.new }
{
    let text = match text_in(value) {
        Ok(text) => text,
        Err(status) => return status,
    };
    let (url, now) = match request(alloc, url, now) {
        Ok(inputs) => inputs,
        Err(status) => return status,
    };
    insert_text(store, is_strict, text, &url, now)
}

/// Inserts the cookie of the `Set-Cookie` header value `text` received from `url`, under the rules of
/// browsers if `is_strict` is true.
pub(crate) fn insert_text(
    store: &mut CookieStore,
    is_strict: bool,
    text: &str,
    url: &Url,
    now: DateTime,
) -> Status
    ensures { HasOutcome (insertion_outcome is_strict store.old (Ok (Set text.now url.now (moment_of now)))) ⊤
        (Some store.old) result (Some store.new) }
{
    if is_strict {
        Status::of_strict(strict::parse(store, text, url, now))
    } else {
        Status::of_reply(store.parse(text, url, now))
    }
}

/// Parses the `Set-Cookie` header value `value` of the response to a request that `page` made for `url`,
/// and inserts the cookie under the rules of browsers. If the request is cross-site, it has these flags.
pub(crate) fn parse_for_page(
    alloc: Global,
    store: &mut CookieStore,
    flags: u32,
    url: &[u8],
    page: &[u8],
    value: &[u8],
    now: i64,
) -> Status
    ensures { HasOutcome (response_outcome (cross_site flags) store.old (response_inputs page.now url.now value.now now))
        (IsOk (cross_site flags) × IsOk (text_in value.now) × IsOk (text_in page.now) × IsOk (text_and_time url.now now))
        (Some store.old) result (Some store.new) }
{
    let context = match cross_site(flags) {
        Ok(context) => context,
        Err(status) => return status,
    };
    let text = match text_in(value) {
        Ok(text) => text,
        Err(status) => return status,
    };
    let (page, url, now) = match page_and_request(alloc, page, url, now) {
        Ok(inputs) => inputs,
        Err(status) => return status,
    };
    let context = from_page(context, store, &url, &page);
    Status::of_strict(strict::parse_in_context(store, text, &url, context, now))
}

/// Puts the store under the public suffix list `list` and, unless `only_listed` is true, the rule
/// `*`. Sets `bad_line` to the number of the first malformed line after `BadRule`, and otherwise to
/// 0.
pub(crate) fn set_suffix_list(
    alloc: Global,
    store: &mut CookieStore,
    list: &[u8],
    only_listed: bool,
    bad_line: &mut usize,
) -> Status
    ensures { UsesSuffixText only_listed store.old (text_in list.now) bad_line.new (record { status = result; store = Some store.new })
        ⊎ ((bad_line.new ≡ 0) × RunsOut (IsOk (text_in list.now)) (Some store.old) result (Some store.new)) }
{
    *bad_line = 0;
    let text = match text_in(list) {
        Ok(text) => text,
        Err(status) => return status,
    };
    match parse_suffixes(alloc, text, only_listed) {
        Ok(list) => {
            store.set_suffix_list(list);
            Status::Done
        }
        Err(error) => suffixes_error_status(error, bad_line),
    }
}

// The status of a list's error. Sets `bad_line` to its malformed line, if there is one.
fn suffixes_error_status(error: SuffixesError, bad_line: &mut usize) -> Status
    requires { bad_line.old ≡ 0 }
    ensures { (result, bad_line.new) ≡ suffixes_error_status error }
{
    match error {
        SuffixesError::BadRule { line } => {
            *bad_line = line;
            Status::BadRule
        }
        SuffixesError::NoRules => Status::NoRules,
        SuffixesError::Memory => Status::NoMemory,
    }
}

/// Removes the cookie with this domain, path and name.
pub(crate) fn remove(store: &mut CookieStore, domain: &[u8], path: &[u8], name: &[u8]) -> Status
    ensures { record { status = result; store = Some store.new } ≡ store_outcome store.old (remove_call domain.now path.now name.now) }
{
    match key_in(domain, path, name) {
        Ok((domain, path, name)) => match store.remove(domain, path, name) {
            Some(_) => Status::Done,
            None => Status::NotFound,
        },
        Err(status) => status,
    }
}

// Reads the three strings, or returns the first error.
fn key_in<'a>(
    domain: &'a [u8],
    path: &'a [u8],
    name: &'a [u8],
) -> Result<(&'a str, &'a str, &'a str), Status>
    ensures { result_map_both (λ key. Remove (key_at key.0.now key.1.now key.2.now)) (λ status. status) result
        ≡ remove_call domain.now path.now name.now }
{
    Ok((text_in(domain)?, text_in(path)?, text_in(name)?))
}

/// Removes all cookies.
pub(crate) fn clear(store: &mut CookieStore) -> Status
    ensures { record { status = result; store = Some store.new } ≡ store_outcome store.old (Ok Clear) }
{
    store.clear();
    Status::Done
}

/// Removes the cookies that have expired `now` seconds after the epoch, and sets `removed` to their
/// number, or to 0 on an error.
pub(crate) fn remove_expired(store: &mut CookieStore, now: i64, removed: &mut usize) -> Status
    ensures store { record { status = result; store = Some store.new } ≡ expired_outcome (moment_in now) (Some store.old) }
    ensures removed { removed.new + length store.new.rows ≡ length store.old.rows }
{
    *removed = 0;
    match moment_in(now) {
        Ok(now) => {
            *removed = store.remove_expired(now);
            Status::Done
        }
        Err(status) => status,
    }
}

/// Removes the cookies of this domain, and sets `removed` to their number, or to 0 on an error.
pub(crate) fn remove_domain(store: &mut CookieStore, domain: &[u8], removed: &mut usize) -> Status
    ensures store { record { status = result; store = Some store.new } ≡ domain_outcome (text_in domain.now) (Some store.old) }
    ensures removed { removed.new + length store.new.rows ≡ length store.old.rows }
{
    *removed = 0;
    match text_in(domain) {
        Ok(domain) => {
            *removed = store.remove_domain(domain);
            Status::Done
        }
        Err(status) => status,
    }
}

/// Limits each domain to `limit` cookies, or returns `BadLimit` if `limit` is 0.
pub(crate) fn set_domain_limit(store: &mut CookieStore, limit: usize) -> Status
    ensures { record { status = result; store = Some store.new } ≡ limit_outcome limit (Some store.old) }
{
    if limit == 0 {
        return Status::BadLimit;
    }
    store.set_domain_limit(limit);
    Status::Done
}

/// Makes the maps of the store hash by `key`. The cookies stay the same.
pub(crate) fn set_hash_key(store: &mut CookieStore, key: &[u8]) -> Status
    ensures status { (result ≡ Status.Done) ⊎ (result ≡ Status.NoMemory) }
    ensures store { store.new ≡ store.old }
{
    let hash_key = match hash_key(key) {
        Ok(hash_key) => hash_key,
        Err(status) => return status,
    };
    match store.set_hash_key(hash_key) {
        Ok(()) => Status::Done,
        Err(_) => Status::NoMemory,
    }
}

/// Returns the hash key made of these bytes.
pub(crate) fn hash_key(key: &[u8]) -> Result<HashKey, Status>
    ensures { IfErr result (λ status. status ≡ Status.NoMemory) }
{
    match RandomState::new(&CallerBytes { key }) {
        Ok(state) => Ok(HashKey::Random(state)),
        Err(_) => Err(Status::NoMemory),
    }
}

// The caller's key as a source of random bytes, in place of the system's. It fills the start of a
// longer buffer.
#[derive(Drop)]
struct CallerBytes<'a> {
    key: &'a [u8],
}

impl<'a> RandomSource for CallerBytes<'a> {
    fn fill_bytes(&self, buf: &mut [u8]) -> io::Result<()> {
        let count = buf.len().min(self.key.len());
        buf[..count].copy_from_slice(&self.key[..count]);
        Ok(())
    }
}
