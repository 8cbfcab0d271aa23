//! The functions of `cookie_store.h` for stores that are split by site: the root of a host, and the
//! number of its shard.
ghost use Rattle.std.specs.Prelude.{◌≡◌, IsOk, IsSome};
ghost use Rattle.cookie_store_c.specs.Buffers.{text_outcome, WritesText};
ghost use Rattle.cookie_store_c.specs.Inputs.{text_in};
ghost use Rattle.cookie_store_c.specs.Roots.{domain_root, root_in, root_text, shard_in, shard_outcome, url_root, with_list, HasList};
ghost use Rattle.cookie_store_c.specs.Statuses.{IsCodeOf};

use crate::buffer::{copy_out, copy_text};
use crate::handle::StoreHandle;
use crate::inputs::{parsed_url, text_in};
use crate::status::Status;
use cookie_store::CookieStore;
use cookie_store::psl::List;
use cookie_store::strict::{root_of, root_of_domain, shard_of};
use std::alloc::Global;
use url::Url;

/// Writes the root of the host of `url` under the store's public suffix list into `out`: its
/// outermost site, within which the cookies of a strict store stay.
///
/// The store is unchanged. `needed` is set to the length of the root, 0 if the URL has no host, and
/// to 0 on any error but `NoRoom`.
///
/// # Errors
///
/// In the order in which they are checked; `out` is unchanged:
/// - `NoStore`: the handle has no store.
/// - `NoList`: the store has no public suffix list.
/// - `NotUtf8`: `url` is not UTF-8.
/// - `BadUrl`: `url` is not a valid URL.
/// - `NoRoom`: `out` is shorter than `needed`.
/// - `NoMemory`: out of memory. May be returned instead of any error but the first three.
#[unsafe(no_mangle)]
pub extern "C" fn cookie_store_root(
    alloc: Global,
    handle: &mut StoreHandle,
    url: &[u8],
    out: &mut [u8],
    needed: &mut usize,
) -> u32
    ensures text { IsCodeOf result (λ status. WritesText (root_in (url_root url.now) handle.old.store_ptr.store)
        (HasList handle.old.store_ptr.store × IsOk (text_in url.now)) out.old status out.new needed.new) }
    ensures store { handle.new.store_ptr.store ≡ handle.old.store_ptr.store }
    ensures strict { handle.new.is_strict ≡ handle.old.is_strict }
{
    *needed = 0;
    let Some(store) = handle.take(alloc) else {
        return Status::NoStore.code();
    };
    let status = write_root(alloc, &store, url, out, needed);
    handle.put(alloc, store);
    status.code()
}

/// Writes the root of a cookie's domain into `out`, as `cookie_store_root` does that of a URL's
/// host.
///
/// # Errors
///
/// In the order in which they are checked; `out` is unchanged:
/// - `NoStore`: the handle has no store.
/// - `NoList`: the store has no public suffix list.
/// - `NotUtf8`: `domain` is not UTF-8.
/// - `NoRoom`: `out` is shorter than `needed`.
#[unsafe(no_mangle)]
pub extern "C" fn cookie_store_root_of_domain(
    alloc: Global,
    handle: &mut StoreHandle,
    domain: &[u8],
    out: &mut [u8],
    needed: &mut usize,
) -> u32
    ensures text { IsCodeOf result (λ status. record { status = status; buffer = out.new; needed = needed.new }
        ≡ text_outcome (root_in (domain_root domain.now) handle.old.store_ptr.store) out.old) }
    ensures store { handle.new.store_ptr.store ≡ handle.old.store_ptr.store }
    ensures strict { handle.new.is_strict ≡ handle.old.is_strict }
{
    *needed = 0;
    let Some(store) = handle.take(alloc) else {
        return Status::NoStore.code();
    };
    let status = write_domain_root(&store, domain, out, needed);
    handle.put(alloc, store);
    status.code()
}

/// Sets `shard` to the number of the shard that has the cookies of a root, below `shards`.
///
/// # Errors
///
/// In the order in which they are checked; `shard` is set to 0:
/// - `NotUtf8`: `root` is not UTF-8.
/// - `BadLimit`: `shards` is 0.
#[unsafe(no_mangle)]
pub extern "C" fn cookie_store_shard(root: &[u8], shards: u32, shard: &mut u32) -> u32
    ensures { IsCodeOf result (λ status. record { status = status; shard = shard.new } ≡ shard_outcome (shard_in root.now shards)) }
{
    match shard_in(root, shards) {
        Ok(number) => {
            *shard = number;
            Status::Done.code()
        }
        Err(status) => {
            *shard = 0;
            status.code()
        }
    }
}

// Writes the root of the URL's host into `out`, and its length into `needed`.
fn write_root(
    alloc: Global,
    store: &CookieStore,
    url: &[u8],
    out: &mut [u8],
    needed: &mut usize,
) -> Status
    ensures { WritesText (with_list (url_root url.now) store.now.suffixes) (IsSome store.now.suffixes × IsOk (text_in url.now))
        out.old result out.new needed.new }
{
    let Some(list) = store.suffix_list() else {
        return copy_out(Err(Status::NoList), out, needed);
    };
    match parsed_url(alloc, url) {
        Ok(url) => copy_text(root_text(&url, list), out, needed),
        Err(status) => copy_out(Err(status), out, needed),
    }
}

// Returns the root of the URL's host: empty if it has none.
fn root_text<'u>(url: &'u Url, list: &List) -> &'u str
    ensures { result.now ≡ root_text list.now url.now }
{
    root_of(url, list).unwrap_or("")
}

// Writes the root of the domain into `out`, and its length into `needed`.
fn write_domain_root(
    store: &CookieStore,
    domain: &[u8],
    out: &mut [u8],
    needed: &mut usize,
) -> Status
    ensures { record { status = result; buffer = out.new; needed = needed.new }
        ≡ text_outcome (with_list (domain_root domain.now) store.now.suffixes) out.old }
{
    let Some(list) = store.suffix_list() else {
        return copy_out(Err(Status::NoList), out, needed);
    };
    match text_in(domain) {
        Ok(domain) => copy_text(root_of_domain(domain, list), out, needed),
        Err(status) => copy_out(Err(status), out, needed),
    }
}

// Returns the number of the shard of the root, or `NotUtf8` or `BadLimit`.
fn shard_in(root: &[u8], shards: u32) -> Result<u32, Status>
    ensures { result ≡ shard_in root.now shards }
{
    match shard_of(text_in(root)?, shards) {
        Some(shard) => Ok(shard),
        None => Err(Status::BadLimit),
    }
}
