//! Transactions of changes of a table.
ghost use Rattle.std.specs.Prelude.{◌≡◌, ◌⊎◌, ◌<◌, ◌≤◌, length, take, IfErr, IfOk, IsTrue, OnErr, OnOk};
ghost use Rattle.std.specs.List.{All, Any};
ghost use Rattle.sqlite_disk.specs.Disk.{MoreFaults};
ghost use Rattle.sqlite_trees.specs.Tree.{Trees};
ghost use Rattle.sqlite_trees.specs.View.{doubt, HasCause, IsClean, IsRolledBack, Tells};
ghost use Rattle.durable_table.specs.Changes.{after, after_each, in_table, lists, HasRowid, IsUnstorable};
ghost use Rattle.durable_table.specs.Transactions.{CommitsChanges, IsAfterPrefix, IsReady};

use crate::Change;
use crate::change::apply_all;
use sqlite_trees::error::StoreError;
use sqlite_trees::store::{Reopen, Store};

/// Commits the changes in one transaction.
///
/// On any error the transaction is rolled back, and the store can be used as before. If the disk
/// failed during the commit, the store may be shut instead: then each later call fails, and the next
/// open finds all of the changes or none.
///
/// # Errors
///
/// - `Unstorable`: a row of `changes` cannot be stored.
/// - `Broken`: an earlier call failed, and the transaction was not rolled back.
/// - `Io`, `Corrupt` or `Full`: the disk failed, or has no room.
/// - `OutOfMemory`: out of memory.
pub fn commit<S: Store>(store: &mut S, table: u32, changes: &[Change]) -> Result<(), StoreError>
    requires ready { IsClean (S.Store.view store.old) → IsReady table (S.Store.view store.old) }
    requires keyed { All HasRowid changes.now }
    ensures ready { IsClean (S.Store.view store.new) → IsReady table (S.Store.view store.new) }
    ensures committed { OnOk result (IsClean (S.Store.view store.new) → CommitsChanges table changes.now (S.Store.view store.old) (S.Store.view store.new)) }
    ensures rolled_back { OnErr result (IsClean (S.Store.view store.new) → IsRolledBack (S.Store.view store.old) (S.Store.view store.new)) }

    // After a crash all of the changes are found, or none.
    ensures crash { IsClean (S.Store.view store.new) → (db : Trees) → S.Store.recovers store.new db
        → S.Store.recovers store.old db ⊎ (db ≡ in_table table (after changes.now) (S.Store.view store.old).committed) }

    ensures told { IfErr result (Tells (S.Store.blamed store.new)) }
    ensures cause { IsClean (S.Store.view store.new) → IfErr result (HasCause (S.Store.view store.old) (MoreFaults (S.Store.faults store.old) (S.Store.faults store.new)) (Any (IsUnstorable ((S.Store.view store.old).reals table)) changes.now)) }
    ensures open { IsClean (S.Store.view store.new) → IsTrue (S.Store.view store.old).is_open → IsTrue (S.Store.view store.new).is_open ⊎ MoreFaults (S.Store.faults store.old) (S.Store.faults store.new) }
    ensures clean { doubt (S.Store.view store.old).is_clean ≤ doubt (S.Store.view store.new).is_clean }
    ensures counts { S.Store.faults store.old ≤ S.Store.faults store.new }
    ensures shield { S.Store.is_shielded store.old → S.Store.is_shielded store.new }
{
    match apply_all(store, table, changes) {
        Ok(()) => store.commit(),
        Err(error) => {
            store.rollback();
            Err(error)
        }
    }
}

/// Commits each list of changes in a transaction of its own, up to the first that fails, and returns
/// how many were committed, with the error of the one that failed.
///
/// # Errors
///
/// Those of [`commit`].
pub fn commit_each<S: Store>(
    store: &mut S,
    table: u32,
    transactions: &[Vec<Change>],
) -> (usize, Result<(), StoreError>)
    requires ready { IsClean (S.Store.view store.old) → IsReady table (S.Store.view store.old) }
    requires keyed { All (λ changes. All HasRowid changes.items) transactions.now }
    ensures ready { IsClean (S.Store.view store.new) → IsReady table (S.Store.view store.new) }
    ensures all { OnOk result.1 (result.0 ≡ length transactions.now) }
    ensures part { OnErr result.1 (result.0 < length transactions.now) }
    ensures committed { IsClean (S.Store.view store.new) → IsTrue (S.Store.view store.new).is_open
        → (S.Store.view store.new).committed ≡ in_table table (after_each (take result.0 (lists transactions.now))) (S.Store.view store.old).committed }

    // After a crash the changes of the first transactions are found, those that are counted among
    // them, and at most one more.
    ensures crash { IsClean (S.Store.view store.new) → IsTrue (S.Store.view store.old).is_open → (db : Trees) → S.Store.recovers store.new db
        → IsAfterPrefix table result.0 (lists transactions.now) (S.Store.view store.old).committed db }

    ensures told { IfErr result.1 (Tells (S.Store.blamed store.new)) }
    ensures cause { IsClean (S.Store.view store.new) → IfErr result.1 (HasCause (S.Store.view store.old) (MoreFaults (S.Store.faults store.old) (S.Store.faults store.new)) (Any (λ changes. Any (IsUnstorable ((S.Store.view store.old).reals table)) changes.items) transactions.now)) }
    ensures open { IsClean (S.Store.view store.new) → IsTrue (S.Store.view store.old).is_open → IsTrue (S.Store.view store.new).is_open ⊎ MoreFaults (S.Store.faults store.old) (S.Store.faults store.new) }
    ensures clean { doubt (S.Store.view store.old).is_clean ≤ doubt (S.Store.view store.new).is_clean }
    ensures counts { S.Store.faults store.old ≤ S.Store.faults store.new }
    ensures shield { S.Store.is_shielded store.old → S.Store.is_shielded store.new }
{
    let mut done = 0usize;
    for changes in transactions {
        if let Err(error) = commit(store, table, changes.as_slice()) {
            return (done, Err(error));
        }
        done += 1;
    }
    (done, Ok(()))
}

/// Calls [`commit_each`] on a store whose disk then crashes, and opens the files again. Returns how
/// many transactions were committed before.
///
/// # Errors
///
/// Those of opening the files.
pub fn commit_each_then_crash<S: Reopen>(
    store: &mut S,
    table: u32,
    transactions: &[Vec<Change>],
) -> Result<usize, StoreError>
    requires ready { IsClean (S.Store.view store.old) → IsReady table (S.Store.view store.old) }
    requires keyed { All (λ changes. All HasRowid changes.items) transactions.now }
    ensures ready { OnOk result (IsClean (S.Store.view store.new) → IsReady table (S.Store.view store.new)) }
    ensures found { IfOk result (λ done. IsClean (S.Store.view store.new) → IsTrue (S.Store.view store.old).is_open
        → IsAfterPrefix table done (lists transactions.now) (S.Store.view store.old).committed (S.Store.view store.new).committed) }
    ensures cause { IfErr result (λ e. IsClean (S.Store.view store.new) → (e ≡ StoreError.OutOfMemory) ⊎ MoreFaults (S.Store.faults store.old) (S.Store.faults store.new)) }
    ensures clean { doubt (S.Store.view store.old).is_clean ≤ doubt (S.Store.view store.new).is_clean }
    ensures counts { S.Store.faults store.old ≤ S.Store.faults store.new }
{
    let (done, _) = commit_each(store, table, transactions);
    store.crash_and_reopen()?;
    Ok(done)
}
