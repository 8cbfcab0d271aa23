//! Opening a table without its session cookies.
ghost use Rattle.std.specs.Prelude.{◌≡◌, ◌++◌, false, IfErr, IfOk, Ok, OnOk};
ghost use Rattle.std.specs.List.{All};
ghost use Rattle.sqlite_trees.specs.View.{IsClean, IsQuiet};
ghost use Rattle.durable_table.specs.Changes.{HasRowid};
ghost use Rattle.durable_table.specs.Transactions.{IsReady};
ghost use Rattle.cookie_durable.specs.Durable.{IsInStep, IsUnwritten};
ghost use Rattle.cookie_durable.specs.SavedTables.{Holds};
ghost use Rattle.cookie_durable.specs.Sessions.{deletion, kept_rows, session_deletions, KeepsRows};

use crate::{DurableStore, OpenError};
use cookie_rows::StoreAlloc;
use durable_table::{Change, commit};
use sqlite_trees::store::{Direction, Store};
use sqlite_value::row::Row;
use sqlite_value::value::ValueRef;
use std::alloc::{AllocError, Global};

// The place of the expiry in a row.
const EXPIRY: usize = 8;

impl<S: Store> DurableStore<S> {
    /// Loads the cookies of a table, as [`open`](Self::open) does. If `keep_session` is false, the
    /// session cookies of the table are removed first, in one commit. The maps of the store hash by the
    /// key of `alloc`.
    ///
    /// # Errors
    ///
    /// Those of `open`. Nothing is removed from a table with a row that cannot be loaded.
    pub fn open_kept<A: Into<StoreAlloc>>(
        alloc: A,
        file: S,
        table: u32,
        keep_session: bool,
    ) -> Result<DurableStore<S>, (OpenError, S)>
        requires ready { IsClean (S.Store.view file) → IsReady table (S.Store.view file) }
        requires sound { IsClean (S.Store.view file) → (S.Store.view file).is_broken ≡ false }
        ensures in_step { IfOk result (λ d. IsInStep d (S.Store.view d.file)) }
        ensures found { IfOk result (λ d. IsClean (S.Store.view d.file) → Holds d.store (kept_rows keep_session ((S.Store.view file).committed table))) }
        ensures table { IfOk result (λ d. d.table ≡ table) }
        ensures works { IfOk result (λ d. d.is_failed ≡ false) }
        ensures kept { IfOk result (λ d. KeepsRows S.Store.view S.Store.recovers S.Store.is_shielded table keep_session file d.file) }
        ensures unharmed { IfErr result (λ e. KeepsRows S.Store.view S.Store.recovers S.Store.is_shielded table keep_session file e.1) }
    {
        let alloc: StoreAlloc = alloc.into();
        let opened = match DurableStore::open(alloc, file, table) {
            Ok(opened) => opened,
            Err(left) => return Err(left),
        };
        if keep_session {
            return Ok(opened);
        }
        opened.without_session(alloc)
    }

    // Removes the session cookies from the table that was just opened.
    fn without_session(self, alloc: StoreAlloc) -> Result<DurableStore<S>, (OpenError, S)>
        requires in_step { IsInStep self (S.Store.view self.file) }
        requires works { self.is_failed ≡ false }
        requires loaded { IsClean (S.Store.view self.file) → Holds self.store ((S.Store.view self.file).committed self.table) }
        ensures in_step { IfOk result (λ d. IsInStep d (S.Store.view d.file)) }
        ensures found { IfOk result (λ d. IsClean (S.Store.view d.file) → Holds d.store (kept_rows false ((S.Store.view self.file).committed self.table))) }
        ensures table { IfOk result (λ d. d.table ≡ self.table) }
        ensures works { IfOk result (λ d. d.is_failed ≡ false) }
        ensures kept { IfOk result (λ d. KeepsRows S.Store.view S.Store.recovers S.Store.is_shielded self.table false self.file d.file) }
        ensures unharmed { IfErr result (λ e. KeepsRows S.Store.view S.Store.recovers S.Store.is_shielded self.table false self.file e.1) }
    {
        let mut opened = self;
        let table = opened.table;
        match remove_sessions(alloc.alloc, &mut opened.file, table) {
            Ok(false) => Ok(opened),
            Ok(true) => DurableStore::open(alloc, opened.into_file(), table),
            Err(error) => Err((error, opened.into_file())),
        }
    }
}

// Removes the rows of session cookies in one commit. False if there are none.
fn remove_sessions<S: Store>(alloc: Global, file: &mut S, table: u32) -> Result<bool, OpenError>
    requires ready { IsClean (S.Store.view file.old) → IsReady table (S.Store.view file.old) }
    requires sound { IsClean (S.Store.view file.old) → (S.Store.view file.old).is_broken ≡ false }
    ensures ready { OnOk result (IsClean (S.Store.view file.new) → IsReady table (S.Store.view file.new)) }
    ensures unwritten { result ≡ Ok false → IsClean (S.Store.view file.new) → IsUnwritten (S.Store.view file.old) (S.Store.view file.new) }
    ensures removed { OnOk result (IsClean (S.Store.view file.new) → (S.Store.view file.new).committed table ≡ kept_rows false ((S.Store.view file.old).committed table)) }
    ensures kept { KeepsRows S.Store.view S.Store.recovers S.Store.is_shielded table false file.old file.new }
{
    let changes = session_deletions(alloc, file, table)?;
    if changes.is_empty() {
        return Ok(false);
    }
    commit(file, table, changes.as_slice())?;
    Ok(true)
}

// Returns the changes that delete the rows of session cookies.
fn session_deletions<S: Store>(
    alloc: Global,
    file: &mut S,
    table: u32,
) -> Result<Vec<Change>, OpenError>
    requires { IsClean (S.Store.view file.old) → IsReady table (S.Store.view file.old) }
    ensures changes { IfOk result (λ changes. IsClean (S.Store.view file.new) → changes.items ≡ session_deletions ((S.Store.view file.old).committed table)) }
    ensures keyed { IfOk result (λ changes. All HasRowid changes.items) }
    ensures unwritten { OnOk result (IsClean (S.Store.view file.new) → IsUnwritten (S.Store.view file.old) (S.Store.view file.new)) }
    ensures quiet { IsQuiet S.Store.view S.Store.faults S.Store.recovers S.Store.is_shielded file.old file.new }
{
    file.seek(0, table, &Row::new(alloc), Direction::Forward)?;
    let mut changes = Vec::new(alloc);
    let mut row = Row::new(alloc);
    'rows: for _ in 0..u64::MAX {
        if !file.next(0, &mut row)? {
            return Ok(changes);
        }
        push_deletion(&mut changes, &row)?;
    }
    Err(OpenError::Full)
}

// Adds the change that deletes the row if it is that of a session cookie.
fn push_deletion(changes: &mut Vec<Change>, row: &Row) -> Result<(), AllocError>
    ensures changes { OnOk result (changes.new.items ≡ changes.old.items ++ deletion row.now) }
    ensures keyed { OnOk result (All HasRowid changes.old.items → All HasRowid changes.new.items) }
{
    if let (ValueRef::Int(id), ValueRef::Null) = (row.get(0), row.get(EXPIRY)) {
        changes.push(Change::Delete(id))?;
    }
    Ok(())
}
