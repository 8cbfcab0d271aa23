//! Commits of changes that were made in memory.
ghost use Rattle.std.specs.Prelude.{◌≡◌, ◌⊎◌, ◌≤◌, false, true, IfErr, OnErr, OnOk};
ghost use Rattle.std.specs.List.{All};
ghost use Rattle.sqlite_trees.specs.Tree.{Trees};
ghost use Rattle.sqlite_trees.specs.View.{doubt, IsClean};
ghost use Rattle.durable_table.specs.Changes.{HasRowid};
ghost use Rattle.durable_table.specs.Transactions.{IsReady};
ghost use Rattle.cookie_durable.specs.Durable.{IsNotWritten, IsSaved, WillSave};
ghost use Rattle.cookie_durable.specs.SavedTables.{Holds};

use crate::{DurableError, DurableStore};
use durable_table::{Change, commit};
use sqlite_trees::store::Store;

impl<S: Store> DurableStore<S> {
    /// Commits the changes that were made in memory.
    pub(crate) fn commit_changes(&mut self, changes: &[Change]) -> Result<(), DurableError>
        requires ready { IsClean (S.Store.view self.old.file) → IsReady self.old.table (S.Store.view self.old.file) }
        requires keyed { All HasRowid changes.now }
        requires works { self.old.is_failed ≡ false }
        ensures ready { IsClean (S.Store.view self.new.file) → IsReady self.new.table (S.Store.view self.new.file) }
        ensures saved { OnOk result (WillSave self.old changes.now (S.Store.view self.old.file) → IsClean (S.Store.view self.new.file)
            → IsSaved self.new.store self.new.ids self.new.next self.new.table (S.Store.view self.new.file)) }
        ensures crash { WillSave self.old changes.now (S.Store.view self.old.file) → IsClean (S.Store.view self.new.file)
            → (db : Trees) → S.Store.recovers self.new.file db → S.Store.recovers self.old.file db ⊎ Holds self.old.store (db self.old.table) }
        ensures ok { OnOk result (self.new.is_failed ≡ false) }
        ensures err { OnErr result (self.new.is_failed ≡ true) }
        ensures error { IfErr result IsNotWritten }
        ensures store { self.new.store ≡ self.old.store }
        ensures table { self.new.table ≡ self.old.table }
        ensures clean { doubt (S.Store.view self.old.file).is_clean ≤ doubt (S.Store.view self.new.file).is_clean }
    {
        if changes.is_empty() {
            return Ok(());
        }
        // failed until it succeeds: an error leaves the cookies ahead of their file
        self.is_failed = true;
        match commit(&mut self.file, self.table, changes) {
            Ok(()) => {
                self.is_failed = false;
                Ok(())
            }
            Err(error) => Err(DurableError::NotWritten(error)),
        }
    }
}
