//! Removing expired cookies, those of a domain, or those that fail a test.
ghost use Rattle.std.specs.Prelude.{◌≡◌, ◌⊎◌, ◌+◌, ◌≤◌, false, length, true, Bool, List, Err, IfErr, IfOk, IsTrue, OnErr, OnOk};
ghost use Rattle.std.specs.Fn.{FnReturnsAt};
ghost use Rattle.std.specs.List.{All};
ghost use Rattle.cookie_words.specs.Moments.{moment_of};
ghost use Rattle.cookie_parts.specs.Cookie.{Row};
ghost use Rattle.sqlite_value.specs.Order.{Row as TableRow};
ghost use Rattle.sqlite_trees.specs.View.{doubt, IsClean};
ghost use Rattle.durable_table.specs.Changes.{after, HasRowid};
ghost use Rattle.durable_table.specs.Transactions.{IsReady};
ghost use Rattle.cookie_laws.specs.Contents.{retained, unexpired, Contents, ReturnsTest};
ghost use Rattle.cookie_rows.specs.Retained.{has_other_domain};
ghost use Rattle.cookie_durable.specs.Durable.{ChangesTo, Durable, IsAtomic, IsInStep, IsNotWritten};
ghost use Rattle.cookie_durable.specs.Numbering.{IsNumbered};
ghost use Rattle.cookie_durable.specs.Sweeping.{HasRemoved, Shrinks};

use crate::sweeping::sweep;
use crate::{DurableError, DurableStore};
use cookie_parts::Cookie;
use durable_table::Change;
use jiff::civil::DateTime;
use sqlite_trees::error::StoreError;
use sqlite_trees::store::Store;
use std::alloc::{AllocError, Global};

impl<S: Store> DurableStore<S> {
    /// Removes the cookies that have expired at `now`, RFC 6265 5.3, commits the change and returns
    /// how many they were.
    ///
    /// # Errors
    ///
    /// In the order in which they are checked:
    /// - `Failed`: an earlier call returned `NotWritten`.
    /// - `NotWritten`: the cookies were removed, and the change was not committed.
    pub fn remove_expired(&mut self, alloc: Global, now: DateTime) -> Result<usize, DurableError>
        requires { IsInStep self.old (S.Store.view self.old.file) }
        ensures in_step { IsInStep self.new (S.Store.view self.new.file) }
        ensures change { ChangesTo result self.old self.new (unexpired (moment_of now) self.old.store) }
        ensures removed { IfOk result (λ removed. removed + length self.new.store.rows ≡ length self.old.store.rows) }

        // A crash leaves the table as it was, or with the cookies after the call.
        ensures crash { IsAtomic S.Store.view S.Store.recovers self.old self.new (unexpired (moment_of now) self.old.store) }

        ensures failed { IsTrue self.old.is_failed → result ≡ Err DurableError.Failed }
        ensures reason { IfErr result (λ e. IsTrue self.old.is_failed ⊎ IsNotWritten e) }
        ensures table { self.new.table ≡ self.old.table }
        ensures clean { doubt (S.Store.view self.old.file).is_clean ≤ doubt (S.Store.view self.new.file).is_clean }
    {
        if self.is_failed {
            return Err(DurableError::Failed);
        }
        let removed = self.store.remove_expired(now);
        self.commit_removals(alloc)?;
        Ok(removed)
    }

    /// Removes the cookies of this domain, expired or not, commits the change and returns how many
    /// were removed. It looks at each cookie of the store.
    ///
    /// # Errors
    ///
    /// In the order in which they are checked:
    /// - `Failed`: an earlier call returned `NotWritten`.
    /// - `NotWritten`: the cookies were removed, and the change was not committed.
    pub fn remove_domain(&mut self, alloc: Global, domain: &str) -> Result<usize, DurableError>
        requires { IsInStep self.old (S.Store.view self.old.file) }
        ensures in_step { IsInStep self.new (S.Store.view self.new.file) }
        ensures change { ChangesTo result self.old self.new (retained (has_other_domain domain.now) self.old.store) }
        ensures removed { IfOk result (λ removed. removed + length self.new.store.rows ≡ length self.old.store.rows) }

        // A crash leaves the table as it was, or with the cookies after the call.
        ensures crash { IsAtomic S.Store.view S.Store.recovers self.old self.new (retained (has_other_domain domain.now) self.old.store) }

        ensures failed { IsTrue self.old.is_failed → result ≡ Err DurableError.Failed }
        ensures reason { IfErr result (λ e. IsTrue self.old.is_failed ⊎ IsNotWritten e) }
        ensures table { self.new.table ≡ self.old.table }
        ensures clean { doubt (S.Store.view self.old.file).is_clean ≤ doubt (S.Store.view self.new.file).is_clean }
    {
        if self.is_failed {
            return Err(DurableError::Failed);
        }
        let removed = self.store.remove_domain(domain);
        self.commit_removals(alloc)?;
        Ok(removed)
    }

    /// Keeps the cookies for which `keep` returns true, removes the others, and commits the change.
    ///
    /// `keep` is called for each cookie, expired or not. It has preconditions as those of
    /// [`CookieStore::retain`](cookie_core::CookieStore::retain): a clause of `keep` must say what it
    /// returns, else nothing is known of the store after the call.
    ///
    /// # Errors
    ///
    /// In the order in which they are checked:
    /// - `Failed`: an earlier call returned `NotWritten`.
    /// - `NotWritten`: the cookies were removed, and the change was not committed.
    pub fn retain<F: Fn(&Cookie<'_>) -> bool>(
        &mut self,
        alloc: Global,
        keep: F,
    ) -> Result<(), DurableError>
        requires callable { F.IsAlwaysCallable keep }
        requires in_step { IsInStep self.old (S.Store.view self.old.file) }
        ensures in_step { (test : Row → Bool) → ReturnsTest (FnReturnsAt F.Fn keep) test → IsInStep self.new (S.Store.view self.new.file) }
        ensures change { (test : Row → Bool) → ReturnsTest (FnReturnsAt F.Fn keep) test → ChangesTo result self.old self.new (retained test self.old.store) }

        // A crash leaves the table as it was, or with the cookies after the call.
        ensures crash { (test : Row → Bool) → ReturnsTest (FnReturnsAt F.Fn keep) test
            → IsAtomic S.Store.view S.Store.recovers self.old self.new (retained test self.old.store) }

        ensures failed { IsTrue self.old.is_failed → result ≡ Err DurableError.Failed }
        ensures reason { IfErr result (λ e. IsTrue self.old.is_failed ⊎ IsNotWritten e) }
        ensures table { self.new.table ≡ self.old.table }
        ensures clean { doubt (S.Store.view self.old.file).is_clean ≤ doubt (S.Store.view self.new.file).is_clean }
    {
        if self.is_failed {
            return Err(DurableError::Failed);
        }
        self.store.retain(keep);
        self.commit_removals(alloc)
    }

    // Commits the deletion of the rows whose cookies the store no longer has.
    fn commit_removals(&mut self, alloc: Global) -> Result<(), DurableError>
        requires works { self.old.is_failed ≡ false }
        requires ready { IsClean (S.Store.view self.old.file) → IsReady self.old.table (S.Store.view self.old.file) }
        ensures in_step { (before : Durable S) → HasRemoved before self.old (S.Store.view self.old.file) → IsInStep self.new (S.Store.view self.new.file) }
        ensures change { ChangesTo result self.old self.new self.old.store }
        ensures crash { (before : Durable S) → HasRemoved before self.old (S.Store.view self.old.file)
            → IsAtomic S.Store.view S.Store.recovers before self.new self.old.store }
        ensures error { IfErr result IsNotWritten }
        ensures table { self.new.table ≡ self.old.table }
        ensures clean { doubt (S.Store.view self.old.file).is_clean ≤ doubt (S.Store.view self.new.file).is_clean }
    {
        let deletions = self.sweep_rows(alloc)?;
        self.commit_changes(deletions.as_slice())
    }

    // Returns the changes that delete the rows of the cookies that the store no longer has.
    fn sweep_rows(&mut self, alloc: Global) -> Result<Vec<Change>, DurableError>
        ensures numbered { IfOk result (λ deletions. (before : Contents) (rows : List TableRow) → Shrinks before self.old.store
            → IsNumbered before self.old.ids self.old.next rows → IsNumbered self.new.store self.new.ids self.new.next (after deletions.items rows)) }
        ensures keyed { IfOk result (λ deletions. All HasRowid deletions.items) }
        ensures ok { OnOk result (self.new.is_failed ≡ false) }
        ensures err { OnErr result (self.new.is_failed ≡ true) }
        ensures error { IfErr result IsNotWritten }
        ensures store { self.new.store ≡ self.old.store }
        ensures file { self.new.file ≡ self.old.file }
        ensures table { self.new.table ≡ self.old.table }
    {
        // failed until it succeeds: an error leaves the cookies ahead of their file
        self.is_failed = true;
        match sweep(alloc, &self.store, &mut self.ids) {
            Ok(deletions) => {
                self.is_failed = false;
                Ok(deletions)
            }
            Err(AllocError) => Err(DurableError::NotWritten(StoreError::OutOfMemory)),
        }
    }
}
