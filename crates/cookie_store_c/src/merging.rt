//! Merging the cookies of another store.
ghost use Rattle.std.specs.Prelude.{◌≡◌, Some};
ghost use Rattle.cookie_store_c.specs.Inputs.{moment_in};
ghost use Rattle.cookie_store_c.specs.MergedStores.{MergesStores};
ghost use Rattle.cookie_store_c.specs.Statuses.{IsCodeOf};

use crate::handle::StoreHandle;
use crate::inputs::moment_in;
use crate::status::Status;
use cookie_store::{CookieStore, strict};
use std::alloc::{AllocError, Global};

/// Inserts the cookies of the store of `from` into that of `handle`, in its order, each as if it was
/// received from `https://DOMAIN/` with its own domain; under the rules of browsers if the store is
/// strict. Sets `left_out` to the number of those that are left out: that are rejected, or whose domain
/// is not the host of a URL. On an error it is 0.
///
/// # Errors
///
/// In the order in which they are checked; the store is unchanged:
/// - `NoStore`: one of the handles has no store.
/// - `BadTime`: `now` is not in the years -9999 to 9999.
///
/// `NoMemory`: out of memory. Some of the cookies are inserted, and those behind them are not.
#[unsafe(no_mangle)]
pub extern "C" fn cookie_store_merge(
    alloc: Global,
    handle: &mut StoreHandle,
    from: &mut StoreHandle,
    now: i64,
    left_out: &mut usize,
) -> u32
    ensures merged { IsCodeOf result (λ status. MergesStores handle.old.is_strict (moment_in now) from.old.store_ptr.store handle.old.store_ptr.store
        (record { status = status; left_out = left_out.new; store = handle.new.store_ptr.store })) }
    ensures strict { handle.new.is_strict ≡ handle.old.is_strict }
    ensures other { from.new.store_ptr.store ≡ from.old.store_ptr.store }
    ensures other_strict { from.new.is_strict ≡ from.old.is_strict }
{
    *left_out = 0;
    let Some(mut store) = handle.take(alloc) else {
        return Status::NoStore.code();
    };
    let status = merge_from(alloc, &mut store, handle.is_strict, from, now, left_out);
    handle.put(alloc, store);
    status.code()
}

// Inserts the cookies of the store of `from`.
fn merge_from(
    alloc: Global,
    store: &mut CookieStore,
    is_strict: bool,
    from: &mut StoreHandle,
    now: i64,
    left_out: &mut usize,
) -> Status
    ensures merged { MergesStores is_strict (moment_in now) from.old.store_ptr.store (Some store.old)
        (record { status = result; left_out = left_out.new; store = Some store.new }) }
    ensures other { from.new.store_ptr.store ≡ from.old.store_ptr.store }
    ensures other_strict { from.new.is_strict ≡ from.old.is_strict }
{
    *left_out = 0;
    let Some(other) = from.take(alloc) else {
        return Status::NoStore;
    };
    let status = merge(store, is_strict, &other, now, left_out);
    from.put(alloc, other);
    status
}

// Inserts the cookies of another store.
fn merge(
    store: &mut CookieStore,
    is_strict: bool,
    other: &CookieStore,
    now: i64,
    left_out: &mut usize,
) -> Status
    ensures { MergesStores is_strict (moment_in now) (Some other.now) (Some store.old)
        (record { status = result; left_out = left_out.new; store = Some store.new }) }
{
    *left_out = 0;
    let now = match moment_in(now) {
        Ok(now) => now,
        Err(status) => return status,
    };
    let merged: Result<usize, AllocError> = if is_strict {
        strict::merge(store, other, now)
    } else {
        store.merge(other, now)
    };
    match merged {
        Ok(count) => {
            *left_out = count;
            Status::Done
        }
        Err(_) => Status::NoMemory,
    }
}
