//! Closing the file and its log.
ghost use Rattle.std.specs.Prelude.{◌≡◌, false, IfErr, OnOk};
ghost use Rattle.sqlite_disk.specs.Disk.{MoreFaults};
ghost use Rattle.sqlite_trees.specs.Tree.{Trees};
ghost use Rattle.sqlite_trees.specs.View.{HasCause, IsClean, IsQuiet};
ghost use Rattle.sqlite_store.specs.FileStore.{faults, is_shielded, log_frames, recovers, view, HasSpilled};
ghost use Rattle.cookie_durable.specs.Durable.{IsInStep};
ghost use Rattle.cookie_durable.specs.SavedTables.{Holds};

use crate::DurableStore;
use sqlite_disk::Disk;
use sqlite_store::FileStore;
use sqlite_trees::error::StoreError;

impl<D: Disk> DurableStore<FileStore<D>> {
    /// Copies the log into the database file, which then has all cookies without it, and returns the
    /// file. Dropping it closes both.
    ///
    /// Each call has committed its change, so without this, or after an error, nothing is lost: the
    /// next open reads the log.
    ///
    /// # Errors
    ///
    /// - `Broken`: an earlier fault has shut the file.
    /// - `Io`, `Corrupt`, `Full`: the disk failed, or the files have met a limit of the format.
    /// - `OutOfMemory`: out of memory.
    pub fn close(self) -> (FileStore<D>, Result<(), StoreError>)
        requires { IsInStep self (view self.file) }

        // Whatever happens, the table has the cookies.
        ensures crash { self.is_failed ≡ false → IsClean (view result.0) → (db : Trees) → recovers result.0 db → Holds self.store (db self.table) }

        ensures copied { OnOk result.1 (¬ HasSpilled self.file → log_frames result.0 ≡ 0) }
        ensures quiet { IsQuiet view faults recovers is_shielded self.file result.0 }
        ensures cause { IsClean (view result.0) → IfErr result.1 (HasCause (view self.file) (MoreFaults (faults self.file) (faults result.0)) ⊥) }
    {
        let mut file = self.into_file();
        let copied = file.checkpoint();
        (file, copied)
    }
}
