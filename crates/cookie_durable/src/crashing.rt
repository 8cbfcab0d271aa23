//! Calls on a disk that crashes.
ghost use Rattle.std.specs.Prelude.{◌≡◌, false, length, map, take, IfOk, List};
ghost use Rattle.sqlite_value.specs.Order.{Row as TableRow};
ghost use Rattle.sqlite_trees.specs.View.{IsClean};
ghost use Rattle.cookie_core.specs.CallViews.{call_view, reply_view};
ghost use Rattle.cookie_laws.specs.Runs.{replies};
ghost use Rattle.cookie_durable.specs.Durable.{HoldsAfterPrefix, IsInStep};
ghost use Rattle.cookie_durable.specs.SavedTables.{Holds};

use crate::{DurableStore, OpenError};
use cookie_core::{Call, Reply};
use sqlite_trees::store::{Reopen, Store};
use std::alloc::Global;

impl<S: Reopen + Drop> DurableStore<S> {
    /// Calls [`apply_each`](Self::apply_each) on a disk that then crashes, and opens the table
    /// again. Returns the replies of the calls that were executed before.
    ///
    /// # Errors
    ///
    /// Those of [`open`](Self::open), and `File` if the file cannot be opened.
    pub fn apply_each_then_crash(
        self,
        alloc: Global,
        calls: Vec<Call>,
    ) -> Result<(Vec<Reply>, DurableStore<S>), OpenError>
        requires { IsInStep self (S.Store.view self.file) }
        ensures in_step { IfOk result (λ found. IsInStep found.1 (S.Store.view found.1.file)) }
        ensures works { IfOk result (λ found. found.1.is_failed ≡ false) }
        ensures replies { IfOk result (λ found. map reply_view found.0.items ≡ replies (take (length found.0.items) (map call_view calls.items)) self.store) }

        // The table has the cookies after the first calls, all that were executed and at most one
        // more, and these cookies are loaded.
        ensures found { self.is_failed ≡ false → IfOk result (λ found. IsClean (S.Store.view found.1.file) → (rows : List TableRow)
            × HoldsAfterPrefix (length found.0.items) (map call_view calls.items) self.store rows × Holds found.1.store rows) }
    {
        let mut cookies = self;
        let (replies, _) = cookies.apply_each(alloc, calls);
        let table = cookies.table;
        let mut file = cookies.into_file();
        file.crash_and_reopen()?;
        match DurableStore::open(alloc, file, table) {
            Ok(opened) => Ok((replies, opened)),
            Err((error, _)) => Err(error),
        }
    }
}
