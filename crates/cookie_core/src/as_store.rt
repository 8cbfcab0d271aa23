//! A store behind a type parameter.
ghost use Rattle.std.specs.Prelude.{◌≡◌, Err, Some, OnErr};
ghost use Rattle.cookie_words.specs.Moments.{moment_of};
ghost use Rattle.cookie_parts.specs.Cookie.{cookie_of, early_error};
ghost use Rattle.cookie_laws.specs.Acceptance.{received};
ghost use Rattle.cookie_laws.specs.Contents.{Contents};
ghost use Rattle.cookie_laws.specs.Runs.{IsReply, Stored, UnlessMemory};

use crate::{CookieStore, InsertResult};
use cookie_parts::CookieError;
use cookie_raw::RawCookie;
use jiff::civil::DateTime;
use url::Url;

/// A [`CookieStore`] behind a type parameter: the calls that take functions or iterators are generic
/// in it, since their proofs do not cover a signature that names `'static`, as a store's cookies do.
pub trait AsStore: Drop {
    /// The store as contracts see it.
    ghost contents: { Self → Contents };

    /// Converts from a [`CookieStore`].
    fn of_store(store: CookieStore) -> Self
        ensures { contents result ≡ store };

    /// Borrows as a [`CookieStore`].
    fn as_store(&self) -> &CookieStore
        ensures { result.now ≡ contents self.now };

    /// Inserts a cookie, as [`CookieStore::insert_raw`] does.
    fn take_raw(&mut self, raw: &RawCookie<'_>, url: &Url, now: DateTime) -> InsertResult
        ensures reply { IsReply result (Stored
            (received (contents self.old) (cookie_of raw.now url.now (moment_of now)) url.now (moment_of now)).reply) }
        ensures store { UnlessMemory result (contents self.new
            ≡ (received (contents self.old) (cookie_of raw.now url.now (moment_of now)) url.now (moment_of now)).store) }
        ensures unchanged { OnErr result (contents self.new ≡ contents self.old) }
        ensures early { (error : CookieError) → early_error raw.now url.now ≡ Some error → result ≡ Err error };
}

impl AsStore for CookieStore {
    ghost contents = { λ store. store };

    fn of_store(store: CookieStore) -> CookieStore {
        store
    }

    fn as_store(&self) -> &CookieStore {
        self
    }

    fn take_raw(&mut self, raw: &RawCookie<'_>, url: &Url, now: DateTime) -> InsertResult {
        self.insert_raw(raw, url, now)
    }
}
