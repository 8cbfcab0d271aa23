//! Calls as values, executed one after the other.
ghost use Rattle.std.specs.Prelude.{◌≡◌, ◌≤◌, [], false, length, map, take, Err, IfErr, IfOk, IsTrue, OnOk};
ghost use Rattle.sqlite_trees.specs.Tree.{Trees};
ghost use Rattle.sqlite_trees.specs.View.{doubt, IsClean};
ghost use Rattle.cookie_core.specs.CallViews.{call_view, reply_view};
ghost use Rattle.cookie_laws.specs.Runs.{replies, step, store_after};
ghost use Rattle.cookie_durable.specs.Checks.{IsReasonAfter, IsReasonOf};
ghost use Rattle.cookie_durable.specs.Durable.{ChangesTo, HoldsAfterPrefix, IsAtomic, IsInStep};

use crate::{DurableError, DurableStore};
use cookie_core::{Call, Reply};
use sqlite_trees::store::Store;
use std::alloc::Global;

impl<S: Store> DurableStore<S> {
    /// Executes a call, commits the change and returns the reply.
    ///
    /// `Set` is [`parse`](Self::parse), `Insert` is [`insert`](Self::insert), `Remove` is
    /// [`remove`](Self::remove), and `Clear` is [`clear`](Self::clear).
    ///
    /// # Errors
    ///
    /// Those of the call.
    pub fn apply(&mut self, alloc: Global, call: Call) -> Result<Reply, DurableError>
        requires { IsInStep self.old (S.Store.view self.old.file) }
        ensures in_step { IsInStep self.new (S.Store.view self.new.file) }
        ensures reply { IfOk result (λ reply. reply_view reply ≡ (step (call_view call) self.old.store).reply) }
        ensures change { ChangesTo result self.old self.new (step (call_view call) self.old.store).store }

        // A crash leaves the table as it was, or with the cookies after the call.
        ensures crash { IsAtomic S.Store.view S.Store.recovers self.old self.new (step (call_view call) self.old.store).store }

        ensures works { OnOk result (self.old.is_failed ≡ false) }
        ensures failed { IsTrue self.old.is_failed → result ≡ Err DurableError.Failed }
        ensures reason { IfErr result (λ e. IsReasonOf e self.old (call_view call)) }
        ensures table { self.new.table ≡ self.old.table }
        ensures clean { doubt (S.Store.view self.old.file).is_clean ≤ doubt (S.Store.view self.new.file).is_clean }
    {
        let mut changes = Vec::new(alloc);
        let reply = self.stage_call(alloc, call, &mut changes)?;
        self.commit_changes(changes.as_slice())?;
        Ok(reply)
    }

    /// Executes the calls in order, each committed before the next, up to the first that fails.
    /// Returns the replies of those that were executed, and the error of the one that failed.
    ///
    /// # Errors
    ///
    /// Those of the call that failed, or `OutOfMemory` before the first call.
    pub fn apply_each(
        &mut self,
        alloc: Global,
        calls: Vec<Call>,
    ) -> (Vec<Reply>, Result<(), DurableError>)
        requires { IsInStep self.old (S.Store.view self.old.file) }
        ensures in_step { IsInStep self.new (S.Store.view self.new.file) }
        ensures replies { map reply_view result.0.items ≡ replies (take (length result.0.items) (map call_view calls.items)) self.old.store }
        ensures all { OnOk result.1 (length result.0.items ≡ length calls.items) }
        ensures store { OnOk result.1 (self.new.store ≡ store_after (map call_view calls.items) self.old.store) }

        // After a crash the table has the cookies after the first calls: all that were executed, and
        // at most one more.
        ensures crash { self.old.is_failed ≡ false → IsClean (S.Store.view self.new.file) → (db : Trees) → S.Store.recovers self.new.file db
            → HoldsAfterPrefix (length result.0.items) (map call_view calls.items) self.old.store (db self.old.table) }

        ensures failed { IsTrue self.old.is_failed → (self.new ≡ self.old) × (result.0.items ≡ []) }
        ensures reason { IfErr result.1 (λ e. IsReasonAfter e self.old (length result.0.items) (map call_view calls.items)) }
        ensures table { self.new.table ≡ self.old.table }
        ensures clean { doubt (S.Store.view self.old.file).is_clean ≤ doubt (S.Store.view self.new.file).is_clean }
    {
        // Room for all replies first, so that no reply is lost once its call was executed.
        let Ok(mut replies) = Vec::with_capacity(alloc, calls.len()) else {
            return (Vec::new(alloc), Err(DurableError::OutOfMemory));
        };
        for call in calls {
            match self.apply(alloc, call) {
                Ok(reply) => replies.push(reply).unwrap(),
                Err(error) => return (replies, Err(error)),
            }
        }
        (replies, Ok(()))
    }
}
