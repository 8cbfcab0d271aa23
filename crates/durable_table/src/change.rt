//! Changes of a table, made in the open transaction.
ghost use Rattle.std.specs.Prelude.{◌≡◌, IfErr, OnErr, OnOk};
ghost use Rattle.std.specs.List.{All, Any};
ghost use Rattle.sqlite_disk.specs.Disk.{MoreFaults};
ghost use Rattle.sqlite_trees.specs.View.{HasCause, IsClean, IsFailure, IsQuiet, KeepsCommitted, KeepsSchema, SetsTree, Tells};
ghost use Rattle.durable_table.specs.Changes.{changed, HasRowid, IsUnstorable};
ghost use Rattle.durable_table.specs.Transactions.{Applies};

use sqlite_trees::error::StoreError;
use sqlite_trees::store::{Shape, Store};
use sqlite_value::row::Row;

/// A change of a table.
#[derive(Debug, Drop)]
pub enum Change {
    /// Inserts the row, whose first value is its rowid, or replaces the row of that rowid.
    Put(Row),
    /// Deletes the row of this rowid, if there is one.
    Delete(i64),
}

/// Makes a change in the open transaction.
fn apply<S: Store>(store: &mut S, table: u32, change: &Change) -> Result<(), StoreError>
    requires table { IsClean (S.Store.view store.old) → (S.Store.view store.old).shape table ≡ Shape.Table }
    requires keyed { HasRowid change.now }
    ensures ok { OnOk result (IsClean (S.Store.view store.new) → SetsTree (S.Store.view store.old) (S.Store.view store.new) table (changed change.now)) }
    ensures err { IfErr result (IsFailure (S.Store.view store.old) (S.Store.view store.new)) }
    ensures told { IfErr result (Tells (S.Store.blamed store.new)) }
    ensures cause { IsClean (S.Store.view store.new) → IfErr result (HasCause (S.Store.view store.old) (MoreFaults (S.Store.faults store.old) (S.Store.faults store.new)) (IsUnstorable ((S.Store.view store.old).reals table) change.now)) }
    ensures schema { KeepsSchema (S.Store.view store.old) (S.Store.view store.new) }
    ensures quiet { IsQuiet S.Store.view S.Store.faults S.Store.recovers S.Store.is_shielded store.old store.new }
{
    match change {
        Change::Put(row) => store.put(table, row),
        Change::Delete(id) => store.delete(table, *id),
    }
}

/// Makes the changes in turn in the open transaction, up to the first that fails.
pub(crate) fn apply_all<S: Store>(
    store: &mut S,
    table: u32,
    changes: &[Change],
) -> Result<(), StoreError>
    requires table { IsClean (S.Store.view store.old) → (S.Store.view store.old).shape table ≡ Shape.Table }
    requires keyed { All HasRowid changes.now }
    ensures ok { OnOk result (IsClean (S.Store.view store.new) → Applies table changes.now (S.Store.view store.old) (S.Store.view store.new)) }
    ensures err { OnErr result (IsClean (S.Store.view store.new) → KeepsCommitted (S.Store.view store.old) (S.Store.view store.new)) }
    ensures told { IfErr result (Tells (S.Store.blamed store.new)) }
    ensures cause { IsClean (S.Store.view store.new) → IfErr result (HasCause (S.Store.view store.old) (MoreFaults (S.Store.faults store.old) (S.Store.faults store.new)) (Any (IsUnstorable ((S.Store.view store.old).reals table)) changes.now)) }
    ensures schema { KeepsSchema (S.Store.view store.old) (S.Store.view store.new) }
    ensures quiet { IsQuiet S.Store.view S.Store.faults S.Store.recovers S.Store.is_shielded store.old store.new }
{
    for change in changes {
        apply(store, table, change)?;
    }
    Ok(())
}
