//! The cookies of a request, and iterators over them.
ghost use Rattle.std.specs.Prelude.{◌≡◌, ◌≢◌, [], map, ℕ, IfOk, List, OnErr};
ghost use Rattle.std.specs.Vec.Iter.{into_iter_items};
ghost use Rattle.cookie_words.specs.Moments.{moment_of};
ghost use Rattle.cookie_raw.specs.Raw.{Raw};
ghost use Rattle.cookie_laws.specs.Given.{given};
ghost use Rattle.cookie_rows.specs.RequestCookies.{name_and_value};

use crate::rows::Rows;
use cookie_parts::Cookie;
use cookie_raw::RawCookie;
use jiff::civil::DateTime;
use std::alloc::{AllocError, Global};
use std::marker::Model;
use std::vec::IntoIter;
use url::Url;

impl Rows {
    /// Returns the names and values of the rows given for `url` at `now`, in order.
    ///
    /// # Errors
    ///
    /// `AllocError`: out of memory, only if at least one row is given.
    pub fn request_values(
        &self,
        alloc: Global,
        url: &Url,
        now: DateTime,
    ) -> Result<RequestValues<'_>, AllocError>
        ensures values { IfOk result (λ values. values ≡ map name_and_value (given url.now (moment_of now) self.now.rows)) }
        ensures memory { OnErr result (given url.now (moment_of now) self.now.rows ≢ []) }
    {
        Ok(RequestValues::new(self.given(alloc, url, now)?))
    }

    /// Returns the raw cookies of the rows given for `url` at `now`, in order.
    ///
    /// # Errors
    ///
    /// `AllocError`: out of memory, only if at least one row is given.
    pub fn request_cookies(
        &self,
        alloc: Global,
        url: &Url,
        now: DateTime,
    ) -> Result<RequestCookies<'_>, AllocError>
        ensures cookies { IfOk result (λ cookies. cookies ≡ map (λ row. row.raw) (given url.now (moment_of now) self.now.rows)) }
        ensures memory { OnErr result (given url.now (moment_of now) self.now.rows ≢ []) }
    {
        Ok(RequestCookies::new(self.given(alloc, url, now)?))
    }
}

/// An iterator over the names and values of the cookies of a request, in the order of the store.
#[derive(Drop)]
pub struct RequestValues<'a> {
    cookies: IntoIter<&'a Cookie<'static>>,
}

impl<'a> Model for RequestValues<'a> {
    ghost Value = { List (List ℕ × List ℕ) };

    ghost view = { λ values. map name_and_value (map (λ cookie. cookie.now) (into_iter_items values.cookies)) };
}

impl<'a> RequestValues<'a> {
    /// Returns an iterator over the names and values of these cookies.
    pub(crate) fn new(cookies: Vec<&'a Cookie<'static>>) -> RequestValues<'a>
        ensures { result ≡ map name_and_value (map (λ cookie. cookie.now) cookies.entry.items) }
    {
        RequestValues {
            cookies: cookies.into_iter(),
        }
    }
}

impl<'a> Iterator for RequestValues<'a> {
    type Item = (&'a str, &'a str);

    ghost use Rattle.std.specs.Iterator.{YieldsFirstBy, item_count};
    ghost use Rattle.cookie_rows.specs.RequestCookies.{borrowed_pair};

    ghost next_gives = { YieldsFirstBy borrowed_pair (λ pairs. pairs) };

    ghost remaining = { item_count (λ pairs. pairs) };

    fn next(&mut self) -> Option<(&'a str, &'a str)> {
        let cookie = self.cookies.next()?;
        Some((cookie.name(), cookie.value()))
    }
}

/// An iterator over the raw cookies of a request, in the order of the store.
#[derive(Drop)]
pub struct RequestCookies<'a> {
    cookies: IntoIter<&'a Cookie<'static>>,
}

impl<'a> Model for RequestCookies<'a> {
    ghost Value = { List Raw };

    ghost view = { λ cookies. map (λ cookie. cookie.raw) (map (λ cookie. cookie.now) (into_iter_items cookies.cookies)) };
}

impl<'a> RequestCookies<'a> {
    /// Returns an iterator over the raw cookies of these cookies.
    pub(crate) fn new(cookies: Vec<&'a Cookie<'static>>) -> RequestCookies<'a>
        ensures { result ≡ map (λ cookie. cookie.raw) (map (λ cookie. cookie.now) cookies.entry.items) }
    {
        RequestCookies {
            cookies: cookies.into_iter(),
        }
    }
}

impl<'a> Iterator for RequestCookies<'a> {
    type Item = &'a RawCookie<'static>;

    ghost use Rattle.std.specs.Iterator.{YieldsFirstRef, item_count};

    ghost next_gives = { YieldsFirstRef (λ cookies. cookies) };

    ghost remaining = { item_count (λ cookies. cookies) };

    fn next(&mut self) -> Option<&'a RawCookie<'static>> {
        let cookie = self.cookies.next()?;
        Some(cookie.raw())
    }
}
