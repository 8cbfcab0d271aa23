//! Replacing all cookies of a table.
ghost use Rattle.std.specs.Prelude.{◌≡◌, ◌⊎◌, ◌+◌, ◌≤◌, false, map, pos, Err, IfErr, IfNone, IfOk, IfSome, IsTrue, OnErr, OnOk};
ghost use Rattle.std.specs.List.{list_any, All};
ghost use Rattle.sqlite_trees.specs.Tree.{Trees};
ghost use Rattle.sqlite_trees.specs.View.{doubt, IsClean};
ghost use Rattle.durable_table.specs.Changes.{HasRowid};
ghost use Rattle.durable_table.specs.Transactions.{IsReady};
ghost use Rattle.cookie_durable.specs.Checks.{is_unstorable, most_rowids, IsReasonAgainst, IsReasonAgainstRows};
ghost use Rattle.cookie_durable.specs.Durable.{IsInStep};
ghost use Rattle.cookie_durable.specs.Replacing.{new_rows};

use crate::changes::deletions;
use crate::checking::row_for;
use crate::{DurableError, DurableStore};
use cookie_core::CookieStore;
use durable_table::{Change, commit};
use sqlite_trees::store::Store;
use std::alloc::Global;

impl<S: Store> DurableStore<S> {
    /// Replaces the cookies of the table by others, in one commit, and returns the file, in which
    /// nothing is pending. Their creation order is then that of
    /// [`iter_any`](CookieStore::iter_any).
    ///
    /// After an error the cookies of the table are as they were, if the file is still open; a crash
    /// after `NotWritten` may leave the others.
    ///
    /// # Errors
    ///
    /// `Failed` first, `NotWritten` last, and of the others that of the first cookie with one:
    /// - `Failed`: an earlier call returned `NotWritten`.
    /// - `Unstorable`: the strings of a cookie have more than 999,999,000 bytes together, or its
    ///   expiry or Expires attribute is before the year 0.
    /// - `Full`: there are more cookies than rowids.
    /// - `OutOfMemory`: out of memory.
    /// - `NotWritten`: the change was not committed.
    pub fn replace(self, alloc: Global, cookies: &CookieStore) -> (S, Result<(), DurableError>)
        requires { IsInStep self (S.Store.view self.file) }
        ensures ready { IsClean (S.Store.view result.0) → IsReady self.table (S.Store.view result.0) }
        ensures replaced { OnOk result.1 (IsClean (S.Store.view result.0) → (S.Store.view result.0).committed self.table ≡ new_rows cookies.now.rows) }
        ensures kept { OnErr result.1 (IsClean (S.Store.view result.0) → IsTrue (S.Store.view result.0).is_open
            → (S.Store.view result.0).committed ≡ (S.Store.view self.file).committed) }

        // A crash leaves the table as it was, or with the other cookies.
        ensures crash { IsClean (S.Store.view result.0) → (db : Trees) → S.Store.recovers result.0 db
            → S.Store.recovers self.file db ⊎ (db self.table ≡ new_rows cookies.now.rows) }

        ensures failed { IsTrue self.is_failed → result ≡ (self.file, Err DurableError.Failed) }
        ensures storable { OnOk result.1 (list_any is_unstorable cookies.now.rows ≡ false) }
        ensures reason { IfErr result.1 (λ e. IsReasonAgainst e self cookies.now.rows) }
        ensures clean { doubt (S.Store.view self.file).is_clean ≤ doubt (S.Store.view result.0).is_clean }
    {
        let mut durable = self;
        let replaced = durable.write_new_rows(alloc, cookies);
        (durable.into_file(), replaced)
    }

    // Commits the deletion of all rows, and the rows of other cookies.
    fn write_new_rows(&mut self, alloc: Global, cookies: &CookieStore) -> Result<(), DurableError>
        requires { IsInStep self.old (S.Store.view self.old.file) }
        ensures ready { IsClean (S.Store.view self.new.file) → IsReady self.old.table (S.Store.view self.new.file) }
        ensures replaced { OnOk result (IsClean (S.Store.view self.new.file) → (S.Store.view self.new.file).committed self.old.table ≡ new_rows cookies.now.rows) }
        ensures kept { OnErr result (IsClean (S.Store.view self.new.file) → IsTrue (S.Store.view self.new.file).is_open
            → (S.Store.view self.new.file).committed ≡ (S.Store.view self.old.file).committed) }
        ensures crash { IsClean (S.Store.view self.new.file) → (db : Trees) → S.Store.recovers self.new.file db
            → S.Store.recovers self.old.file db ⊎ (db self.old.table ≡ new_rows cookies.now.rows) }
        ensures failed { IsTrue self.old.is_failed → (result ≡ Err DurableError.Failed) × (self.new ≡ self.old) }
        ensures storable { OnOk result (list_any is_unstorable cookies.now.rows ≡ false) }
        ensures reason { IfErr result (λ e. IsReasonAgainst e self.old cookies.now.rows) }
        ensures clean { doubt (S.Store.view self.old.file).is_clean ≤ doubt (S.Store.view self.new.file).is_clean }
    {
        if self.is_failed {
            return Err(DurableError::Failed);
        }
        let mut changes = deletions(alloc, &self.ids)?;
        let mut puts = puts_of(alloc, cookies)?;
        changes.append(&mut puts)?;
        match commit(&mut self.file, self.table, changes.as_slice()) {
            Ok(()) => Ok(()),
            Err(error) => Err(DurableError::NotWritten(error)),
        }
    }
}

// Returns the changes that put the rows of cookies.
fn puts_of(alloc: Global, cookies: &CookieStore) -> Result<Vec<Change>, DurableError>
    ensures puts { IfOk result (λ changes. changes.items ≡ map Change.Put (new_rows cookies.now.rows)) }
    ensures keyed { IfOk result (λ changes. All HasRowid changes.items) }
    ensures storable { OnOk result (list_any is_unstorable cookies.now.rows ≡ false) }
    ensures reason { IfErr result (λ e. IsReasonAgainstRows e cookies.now.rows) }
{
    let mut changes = Vec::new(alloc);
    for cookie in cookies.iter_any() {
        let Some(id) = id_after(changes.len()) else {
            return Err(DurableError::Full);
        };
        let put = Change::Put(row_for(alloc, id, cookie)?);
        if changes.push(put).is_err() {
            return Err(DurableError::OutOfMemory);
        }
    }
    Ok(changes)
}

// Returns the rowid after this many rows, if there is one.
fn id_after(count: usize) -> Option<i64>
    ensures some { IfSome result (λ id. id ≡ pos (count + 1)) }
    ensures none { IfNone result (most_rowids ≤ count) }
{
    match i64::try_from(count) {
        Ok(count) => count.checked_add(1),
        Err(_) => None,
    }
}
