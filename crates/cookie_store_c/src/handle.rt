//! The handle that C programs hold.
ghost use Rattle.std.specs.Prelude.{◌≡◌, ◌&&◌, is_some, option_map, None, Some};

use crate::store_ptr::StorePtr;
use cookie_store::CookieStore;
use std::alloc::Global;
use std::mem;

/// A store held by C, or none: then `live` is false and `store_ptr` null.
///
/// It is not `Drop`, so that no store can go out of scope with it unfreed.
#[repr(C)]
pub struct StoreHandle {
    live: bool,
    /// Whether cookies are inserted under the rules of browsers.
    pub is_strict: bool,
    pub store_ptr: StorePtr,
    ghost agrees: { live ≡ is_some store_ptr.store },
}

impl StoreHandle {
    // Returns a handle without a store.
    fn empty(is_strict: bool) -> StoreHandle
        ensures store { result.store_ptr.store ≡ None }
        ensures strict { result.is_strict ≡ is_strict }
    {
        StoreHandle {
            live: false,
            is_strict,
            store_ptr: StorePtr::empty(),
        }
    }

    // Returns the store of the handle, if there is one.
    fn into_store(self, alloc: Global) -> Option<Box<CookieStore>>
        ensures { option_map (λ b. b.value) result ≡ self.store_ptr.store }
    {
        let StoreHandle {
            live,
            is_strict: _,
            store_ptr,
        } = self;
        if live {
            Some(store_ptr.into_box(alloc))
        } else {
            store_ptr.consume_empty();
            None
        }
    }

    /// Returns whether there is a store, and it is strict.
    pub(crate) fn has_strict_store(&self) -> bool
        ensures { result ≡ (is_some self.now.store_ptr.store && self.now.is_strict) }
    {
        self.live && self.is_strict
    }

    /// Takes the store out, if there is one, and leaves the handle empty.
    pub(crate) fn take(&mut self, alloc: Global) -> Option<Box<CookieStore>>
        ensures taken { option_map (λ b. b.value) result ≡ self.old.store_ptr.store }
        ensures empty { self.new.store_ptr.store ≡ None }
        ensures strict { self.new.is_strict ≡ self.old.is_strict }
    {
        let empty = StoreHandle::empty(self.is_strict);
        mem::replace(self, empty).into_store(alloc)
    }

    /// Puts the store into the handle, and frees the one that it replaces, if there is one.
    pub(crate) fn put(&mut self, alloc: Global, store: Box<CookieStore>)
        ensures store { self.new.store_ptr.store ≡ Some store.value }
        ensures strict { self.new.is_strict ≡ self.old.is_strict }
    {
        let live = StoreHandle {
            live: true,
            is_strict: self.is_strict,
            store_ptr: StorePtr::of(store),
        };
        let _replaced = mem::replace(self, live).into_store(alloc);
    }
}

// Compiles only for a type that is `Send`.
fn require_send<T: Send>(value: T) -> T
    ensures { result ≡ value }
{
    value
}

/// For the checker: shows that `StoreHandle` is `Send`. It is never called.
pub(crate) fn handle_is_send(handle: StoreHandle) -> StoreHandle
    ensures { result ≡ handle }
{
    require_send(handle)
}
