//! A numbered cookie in a box. Maps of rows reserve room ahead; with boxes they reserve it for
//! pointers only.
ghost use Rattle.std.specs.Prelude.{◌≡◌, ◌++◌, map, IfOk, OnOk};
ghost use Rattle.ordered_map.specs.Entries.{in_order};
ghost use Rattle.cookie_words.specs.Moments.{moment_of};
ghost use Rattle.cookie_parts.specs.Cookie.{expired_row};
ghost use Rattle.cookie_rows.specs.Eviction.{rank_of};

use crate::copying::Rehash;
use crate::eviction_order::EvictionOrder;
use crate::hashing::HashKey;
use crate::names::Names;
use cookie_parts::Cookie;
use jiff::civil::DateTime;
use std::alloc::{AllocError, Global};
use std::marker::Model;

/// A cookie and its number: cookies created later have greater numbers. Requests read the cookie,
/// so it comes first.
#[derive(Drop)]
struct Numbered {
    cookie: Cookie<'static>,
    number: u64,
}

impl Clone for Numbered {
    ghost is_clone = { λ numbered copy. copy ≡ numbered };

    fn clone(&self) -> Result<Numbered, AllocError> {
        Ok(Numbered {
            cookie: self.cookie.clone()?,
            number: self.number,
        })
    }
}

/// A cookie with its number, in a box.
#[derive(Drop)]
pub(crate) struct BoxedCookie {
    inner: Box<Numbered>,
}

impl Model for BoxedCookie {
    ghost use Rattle.cookie_rows.specs.Items.{Item};

    ghost Value = { Item };

    ghost view = { λ boxed. record { row = boxed.inner.value.cookie; number = boxed.inner.value.number } };
}

impl Clone for BoxedCookie {
    ghost is_clone = { λ boxed copy. copy ≡ boxed };

    fn clone(&self) -> Result<BoxedCookie, AllocError> {
        Ok(BoxedCookie {
            inner: self.inner.clone()?,
        })
    }
}

impl Rehash for BoxedCookie {
    ghost is_copy = { λ boxed copy. copy ≡ boxed };

    fn rehashed(&self, _alloc: Global, _hash_key: HashKey) -> Result<BoxedCookie, AllocError> {
        self.clone()
    }
}

impl BoxedCookie {
    // Boxes the cookie with this number.
    #[inline(always)]
    pub(crate) fn new(
        alloc: Global,
        cookie: Cookie<'static>,
        number: u64,
    ) -> Result<BoxedCookie, AllocError>
        ensures { IfOk result (λ boxed. boxed ≡ record { row = cookie.entry; number = number }) }
    {
        Ok(BoxedCookie {
            inner: Box::new(alloc, Numbered { cookie, number })?,
        })
    }

    // The cookie.
    pub(crate) fn cookie(&self) -> &Cookie<'static>
        ensures { result.now ≡ self.now.row }
    {
        &self.inner.as_ref().cookie
    }

    // The number.
    pub(crate) fn number(&self) -> u64
        ensures { result ≡ self.now.number }
    {
        self.inner.as_ref().number
    }

    // The rank in eviction order: by class, then by creation.
    pub(crate) fn rank(&self, order: EvictionOrder, now: DateTime) -> (u64, u64)
        ensures { result ≡ rank_of order (moment_of now) self.now }
    {
        let inner = self.inner.as_ref();
        (order.class_of(&inner.cookie, now), inner.number)
    }

    // Replaces the cookie and keeps the number.
    pub(crate) fn set(&mut self, cookie: Cookie<'static>)
        ensures { self.new ≡ record self.old { row = cookie.entry } }
    {
        self.inner.as_mut().cookie = cookie;
    }

    // Expires the cookie.
    pub(crate) fn expire(&mut self)
        ensures { self.new ≡ record self.old { row = expired_row self.old.row } }
    {
        self.inner.as_mut().cookie.expire();
    }

    // Returns the cookie without its box.
    pub(crate) fn into_cookie(self) -> Cookie<'static>
        ensures { result ≡ self.row }
    {
        Box::into_inner(self.inner).cookie
    }
}

// Appends each row's rank in eviction order to `ranks`.
pub(crate) fn push_ranks(
    ranks: &mut Vec<(u64, u64)>,
    names: &Names,
    order: EvictionOrder,
    now: DateTime,
) -> Result<(), AllocError>
    ensures { OnOk result (ranks.new.items ≡ ranks.old.items ++ map (rank_of order (moment_of now)) (in_order names.now)) }
{
    for row in names.rows() {
        ranks.push(row.rank(order, now))?;
    }
    Ok(())
}
