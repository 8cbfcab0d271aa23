//! Opening the table of a file, and handing the file back.
ghost use Rattle.std.specs.Prelude.{◌≡◌, false, IfErr, IfOk};
ghost use Rattle.sqlite_trees.specs.View.{IsClean, IsQuiet};
ghost use Rattle.durable_table.specs.Transactions.{IsReady};
ghost use Rattle.cookie_durable.specs.Durable.{IsInStep};
ghost use Rattle.cookie_durable.specs.SavedTables.{Holds};

use crate::loading::load;
use crate::{DurableStore, OpenError};
use cookie_core::CookieStore;
use cookie_rows::StoreAlloc;
use sqlite_trees::store::Store;

impl<S: Store> DurableStore<S> {
    /// Loads the cookies of a table that was created by
    /// [`CREATE_TABLE`](cookie_table::CREATE_TABLE), session cookies and expired ones too. An
    /// error comes with the file.
    ///
    /// # Errors
    ///
    /// - `File`: the file failed.
    /// - `Damaged`: a row is not that of a cookie, or two rows have the same domain, path and name.
    /// - `Full`: the last rowid is the greatest that there is.
    /// - `OutOfMemory`: out of memory.
    pub fn open<A: Into<StoreAlloc>>(
        alloc: A,
        file: S,
        table: u32,
    ) -> Result<DurableStore<S>, (OpenError, S)>
        requires { IsClean (S.Store.view file) → IsReady table (S.Store.view file) }
        ensures in_step { IfOk result (λ d. IsInStep d (S.Store.view d.file)) }
        ensures found { IfOk result (λ d. IsClean (S.Store.view d.file) → Holds d.store ((S.Store.view file).committed table)) }
        ensures table { IfOk result (λ d. d.table ≡ table) }
        ensures works { IfOk result (λ d. d.is_failed ≡ false) }
        ensures quiet { IfOk result (λ d. IsQuiet S.Store.view S.Store.faults S.Store.recovers S.Store.is_shielded file d.file) }
        ensures unharmed { IfErr result (λ e. IsQuiet S.Store.view S.Store.faults S.Store.recovers S.Store.is_shielded file e.1) }
    {
        let (mut file, alloc) = (file, alloc.into());
        match load(alloc, &mut file, table) {
            Ok(loaded) => Ok(DurableStore {
                store: CookieStore::from_rows(alloc.alloc, loaded.rows),
                file,
                table,
                ids: loaded.ids,
                next: loaded.next,
                is_failed: false,
            }),
            Err(error) => Err((error, file)),
        }
    }

    /// Returns the file. Nothing is pending in it.
    pub fn into_file(self) -> S
        ensures { result ≡ self.file }
    {
        let DurableStore {
            store: _,
            file,
            table: _,
            ids: _,
            next: _,
            is_failed: _,
        } = self;
        file
    }
}
