//! The pointer by which C holds a store.
ghost use Rattle.std.specs.Prelude.{◌≡◌, IsSome, None, Option, Some};
ghost use Rattle.cookie_laws.specs.Contents.{Contents};

use cookie_store::CookieStore;
use std::alloc::Global;
use std::marker::Model;
use std::ptr;

/// A pointer to a boxed store, or null.
///
/// It is not `Drop`, so that no store can go out of scope with it unfreed: it is consumed by
/// [`StorePtr::into_box`], or by [`StorePtr::consume_empty`] if it holds no store.
#[repr(C)]
pub struct StorePtr {
    at: *mut u8,
    pub ghost store: { Option Contents },
}

impl Model for StorePtr {
    ghost use Rattle.cookie_store_c.specs.StorePtrs.{holds};

    ghost also_owns = { λ s. holds s.at s.store };
}

impl StorePtr {
    /// Returns a pointer without a store.
    pub(crate) fn empty() -> StorePtr
        ensures { result.store ≡ None }
    {
        StorePtr {
            at: ptr::null_mut(),
        }
    }

    /// Returns a pointer that owns the store.
    pub(crate) fn of(store: Box<CookieStore>) -> StorePtr
        ensures { result.store ≡ Some store.value }
    {
        let at = Box::into_raw(store);
        StorePtr { at: at as *mut u8 }
    }

    /// Returns the store of a pointer that has one.
    pub(crate) fn into_box(self, alloc: Global) -> Box<CookieStore>
        requires { IsSome self.store }
        ensures { self.store ≡ Some result.value }
    {
        let StorePtr { at } = self;
        unsafe { Box::from_raw(alloc, at as *mut CookieStore) }
    }

    /// Consumes a pointer without a store.
    pub(crate) fn consume_empty(self)
        requires { self.store ≡ None }
    {
        let StorePtr { at: _ } = self;
    }
}

// The pointer owns a boxed store, and a store is `Send`.
unsafe impl Send for StorePtr {}
