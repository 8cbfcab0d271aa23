//! Batches: calls that are committed together.
ghost use Rattle.std.specs.Prelude.{◌≡◌, ◌⊎◌, ◌≤◌, [], length, map, take, IfErr, IsTrue, OnOk};
ghost use Rattle.sqlite_trees.specs.View.{doubt};
ghost use Rattle.cookie_core.specs.CallViews.{call_view, reply_view};
ghost use Rattle.cookie_laws.specs.Runs.{replies, store_after};
ghost use Rattle.cookie_durable.specs.Checks.{IsReasonAfter};
ghost use Rattle.cookie_durable.specs.Durable.{IsAtomic, IsInStep, IsNotWritten, IsStaged};

use crate::{DurableError, DurableStore};
use cookie_core::{Call, Reply};
use durable_table::Change;
use sqlite_trees::store::Store;
use std::alloc::Global;

impl<S: Store> DurableStore<S> {
    /// Executes the calls in order, up to the first that fails, and commits their changes together.
    /// Returns the replies of those that were executed, and the error of the one that failed.
    ///
    /// The calls before one that fails are committed, unless its error is `NotWritten`.
    ///
    /// # Errors
    ///
    /// - `OutOfMemory`: out of memory before the first call.
    /// - Those of the call that failed.
    /// - `NotWritten`, in place of another error too: memory ran out after a call had changed the
    ///   cookies, or the commit failed. After a crash the table has the changes of all calls with a
    ///   reply, or none.
    pub fn apply_all(
        &mut self,
        alloc: Global,
        calls: Vec<Call>,
    ) -> (Vec<Reply>, Result<(), DurableError>)
        requires { IsInStep self.old (S.Store.view self.old.file) }
        ensures in_step { IsInStep self.new (S.Store.view self.new.file) }
        ensures replies { map reply_view result.0.items ≡ replies (take (length result.0.items) (map call_view calls.items)) self.old.store }
        ensures all { OnOk result.1 (length result.0.items ≡ length calls.items) }

        // Unless the error is `NotWritten`, the store works as before, and has the cookies after the
        // calls that were executed.
        ensures works { OnOk result.1 (self.new.is_failed ≡ self.old.is_failed) }
        ensures written { IfErr result.1 (λ e. IsNotWritten e ⊎ (self.new.is_failed ≡ self.old.is_failed)) }
        ensures store { self.new.is_failed ≡ self.old.is_failed
            → self.new.store ≡ store_after (take (length result.0.items) (map call_view calls.items)) self.old.store }

        // A crash leaves the table as it was, or with the cookies after the calls that were executed.
        ensures crash { IsAtomic S.Store.view S.Store.recovers self.old self.new
            (store_after (take (length result.0.items) (map call_view calls.items)) self.old.store) }

        ensures failed { IsTrue self.old.is_failed → (self.new ≡ self.old) × (result.0.items ≡ []) }
        ensures reason { IfErr result.1 (λ e. IsReasonAfter e self.old (length result.0.items) (map call_view calls.items)) }
        ensures table { self.new.table ≡ self.old.table }
        ensures clean { doubt (S.Store.view self.old.file).is_clean ≤ doubt (S.Store.view self.new.file).is_clean }
    {
        let mut changes = Vec::new(alloc);
        let (replies, staged) = self.stage_calls(alloc, calls, &mut changes);
        // the store had failed, or a call changed the cookies and its change is not in the list
        if self.is_failed {
            return (replies, staged);
        }
        match self.commit_changes(changes.as_slice()) {
            Ok(()) => (replies, staged),
            Err(error) => (replies, Err(error)),
        }
    }

    // Executes the calls in memory, up to the first that fails, and adds their changes to `changes`.
    fn stage_calls(
        &mut self,
        alloc: Global,
        calls: Vec<Call>,
        changes: &mut Vec<Change>,
    ) -> (Vec<Reply>, Result<(), DurableError>)
        requires { IsStaged self.old changes.old.items (S.Store.view self.old.file) }
        ensures staged { IsStaged self.new changes.new.items (S.Store.view self.new.file) }
        ensures replies { map reply_view result.0.items ≡ replies (take (length result.0.items) (map call_view calls.items)) self.old.store }
        ensures all { OnOk result.1 (length result.0.items ≡ length calls.items) }
        ensures store { self.new.is_failed ≡ self.old.is_failed
            → self.new.store ≡ store_after (take (length result.0.items) (map call_view calls.items)) self.old.store }
        ensures reason { IfErr result.1 (λ e. IsReasonAfter e self.old (length result.0.items) (map call_view calls.items)) }
        ensures works { OnOk result.1 (self.new.is_failed ≡ self.old.is_failed) }
        ensures written { IfErr result.1 (λ e. IsNotWritten e ⊎ (self.new.is_failed ≡ self.old.is_failed)) }
        ensures failed { IsTrue self.old.is_failed → (self.new ≡ self.old) × (result.0.items ≡ []) }
        ensures file { self.new.file ≡ self.old.file }
        ensures table { self.new.table ≡ self.old.table }
    {
        // Room for all replies first, so that no reply is lost once its call was executed.
        let Ok(mut replies) = Vec::with_capacity(alloc, calls.len()) else {
            return (Vec::new(alloc), Err(DurableError::OutOfMemory));
        };
        for call in calls {
            match self.stage_call(alloc, call, changes) {
                Ok(reply) => replies.push(reply).unwrap(),
                Err(error) => return (replies, Err(error)),
            }
        }
        (replies, Ok(()))
    }
}
