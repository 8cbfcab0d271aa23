//! The calls that change cookies.
ghost use Rattle.std.specs.Prelude.{◌≡◌, ◌≤◌, false, Err, IfErr, IfOk, IsTrue};
ghost use Rattle.cookie_words.specs.Moments.{moment_of};
ghost use Rattle.sqlite_trees.specs.View.{doubt};
ghost use Rattle.cookie_laws.specs.Rows.{key_at};
ghost use Rattle.cookie_laws.specs.Runs.{step, Clear, Insert, Remove, Removed, Set, Stored};
ghost use Rattle.cookie_durable.specs.Checks.{is_unstorable, IsReasonOf};
ghost use Rattle.cookie_durable.specs.Durable.{ChangesTo, IsAtomic, IsInStep};

use crate::{DurableError, DurableStore};
use cookie_core::InsertResult;
use cookie_parts::Cookie;
use jiff::civil::DateTime;
use sqlite_trees::store::Store;
use std::alloc::Global;
use url::Url;

impl<S: Store> DurableStore<S> {
    /// Parses a `Set-Cookie` header value received from `url`, inserts the cookie and commits the
    /// change, RFC 6265 5.3. Returns what [`CookieStore::parse`](cookie_core::CookieStore::parse)
    /// returns, which is never `Memory`.
    ///
    /// # Errors
    ///
    /// Those of [`insert`](Self::insert). `OutOfMemory` may come before `Unstorable` and `Full`: the
    /// header value is parsed first.
    pub fn parse(
        &mut self,
        alloc: Global,
        text: &str,
        url: &Url,
        now: DateTime,
    ) -> Result<InsertResult, DurableError>
        requires { IsInStep self.old (S.Store.view self.old.file) }
        ensures in_step { IsInStep self.new (S.Store.view self.new.file) }
        ensures reply { IfOk result (λ reply. Stored reply ≡ (step (Set text.now url.now (moment_of now)) self.old.store).reply) }
        ensures change { ChangesTo result self.old self.new (step (Set text.now url.now (moment_of now)) self.old.store).store }

        // A crash leaves the table as it was, or with the cookies after the call.
        ensures crash { IsAtomic S.Store.view S.Store.recovers self.old self.new (step (Set text.now url.now (moment_of now)) self.old.store).store }

        ensures failed { IsTrue self.old.is_failed → result ≡ Err DurableError.Failed }
        ensures reason { IfErr result (λ e. IsReasonOf e self.old (Set text.now url.now (moment_of now))) }
        ensures table { self.new.table ≡ self.old.table }
        ensures clean { doubt (S.Store.view self.old.file).is_clean ≤ doubt (S.Store.view self.new.file).is_clean }
    {
        let mut changes = Vec::new(alloc);
        let stored = self.stage_header(alloc, text, url, now, &mut changes)?;
        self.commit_changes(changes.as_slice())?;
        Ok(stored)
    }

    /// Inserts a cookie received from `url` and commits the change, RFC 6265 5.3. Returns what
    /// [`CookieStore::insert`](cookie_core::CookieStore::insert) returns, which is never `Memory`.
    ///
    /// # Errors
    ///
    /// In the order in which they are checked:
    /// - `Failed`: an earlier call returned `NotWritten`.
    /// - `Unstorable`: the strings of the cookie have more than 999,999,000 bytes together, or its
    ///   expiry or Expires attribute is before the year 0.
    /// - `Full`: no rowid is left.
    /// - `OutOfMemory`: out of memory.
    /// - `NotWritten`: the cookie was inserted, and the change was not committed.
    pub fn insert(
        &mut self,
        alloc: Global,
        cookie: Cookie<'static>,
        url: &Url,
        now: DateTime,
    ) -> Result<InsertResult, DurableError>
        requires { IsInStep self.old (S.Store.view self.old.file) }
        ensures in_step { IsInStep self.new (S.Store.view self.new.file) }
        ensures reply { IfOk result (λ reply. Stored reply ≡ (step (Insert cookie.entry url.now (moment_of now)) self.old.store).reply) }
        ensures change { ChangesTo result self.old self.new (step (Insert cookie.entry url.now (moment_of now)) self.old.store).store }

        // A crash leaves the table as it was, or with the cookies after the call.
        ensures crash { IsAtomic S.Store.view S.Store.recovers self.old self.new (step (Insert cookie.entry url.now (moment_of now)) self.old.store).store }

        ensures failed { IsTrue self.old.is_failed → result ≡ Err DurableError.Failed }
        ensures reason { IfErr result (λ e. IsReasonOf e self.old (Insert cookie.entry url.now (moment_of now))) }
        ensures unstorable { self.old.is_failed ≡ false → IsTrue (is_unstorable cookie.entry) → result ≡ Err DurableError.Unstorable }
        ensures table { self.new.table ≡ self.old.table }
        ensures clean { doubt (S.Store.view self.old.file).is_clean ≤ doubt (S.Store.view self.new.file).is_clean }
    {
        let mut changes = Vec::new(alloc);
        let stored = self.stage_insertion(alloc, cookie, url, now, &mut changes)?;
        self.commit_changes(changes.as_slice())?;
        Ok(stored)
    }

    /// Removes and returns the cookie with this domain, path and name, expired or not, and commits
    /// the change.
    ///
    /// # Errors
    ///
    /// In the order in which they are checked:
    /// - `Failed`: an earlier call returned `NotWritten`.
    /// - `OutOfMemory`: out of memory.
    /// - `NotWritten`: the cookie was removed, and the change was not committed.
    pub fn remove(
        &mut self,
        alloc: Global,
        domain: &str,
        path: &str,
        name: &str,
    ) -> Result<Option<Cookie<'static>>, DurableError>
        requires { IsInStep self.old (S.Store.view self.old.file) }
        ensures in_step { IsInStep self.new (S.Store.view self.new.file) }
        ensures reply { IfOk result (λ removed. Removed removed ≡ (step (Remove (key_at domain.now path.now name.now)) self.old.store).reply) }
        ensures change { ChangesTo result self.old self.new (step (Remove (key_at domain.now path.now name.now)) self.old.store).store }

        // A crash leaves the table as it was, or with the cookies after the call.
        ensures crash { IsAtomic S.Store.view S.Store.recovers self.old self.new (step (Remove (key_at domain.now path.now name.now)) self.old.store).store }

        ensures failed { IsTrue self.old.is_failed → result ≡ Err DurableError.Failed }
        ensures reason { IfErr result (λ e. IsReasonOf e self.old (Remove (key_at domain.now path.now name.now))) }
        ensures table { self.new.table ≡ self.old.table }
        ensures clean { doubt (S.Store.view self.old.file).is_clean ≤ doubt (S.Store.view self.new.file).is_clean }
    {
        let mut changes = Vec::new(alloc);
        let removed = self.stage_removal(alloc, domain, path, name, &mut changes)?;
        self.commit_changes(changes.as_slice())?;
        Ok(removed)
    }

    /// Removes all cookies, and commits the change.
    ///
    /// # Errors
    ///
    /// In the order in which they are checked:
    /// - `Failed`: an earlier call returned `NotWritten`.
    /// - `OutOfMemory`: out of memory.
    /// - `NotWritten`: the cookies were removed, and the change was not committed.
    pub fn clear(&mut self, alloc: Global) -> Result<(), DurableError>
        requires { IsInStep self.old (S.Store.view self.old.file) }
        ensures in_step { IsInStep self.new (S.Store.view self.new.file) }
        ensures change { ChangesTo result self.old self.new (step Clear self.old.store).store }

        // A crash leaves the table as it was, or with the cookies after the call.
        ensures crash { IsAtomic S.Store.view S.Store.recovers self.old self.new (step Clear self.old.store).store }

        ensures failed { IsTrue self.old.is_failed → result ≡ Err DurableError.Failed }
        ensures reason { IfErr result (λ e. IsReasonOf e self.old Clear) }
        ensures table { self.new.table ≡ self.old.table }
        ensures clean { doubt (S.Store.view self.old.file).is_clean ≤ doubt (S.Store.view self.new.file).is_clean }
    {
        let mut changes = Vec::new(alloc);
        self.stage_clear(alloc, &mut changes)?;
        self.commit_changes(changes.as_slice())
    }
}
