//! Calls in memory, with the changes of the table that are still to be committed.
ghost use Rattle.std.specs.Prelude.{◌≡◌, false, true, List, Err, IfErr, IfOk, IsTrue, OnErr, OnOk};
ghost use Rattle.std.specs.List.{All};
ghost use Rattle.cookie_words.specs.Moments.{moment_of};
ghost use Rattle.sqlite_value.specs.Order.{Row};
ghost use Rattle.cookie_core.specs.CallViews.{call_view, reply_view};
ghost use Rattle.cookie_laws.specs.Contents.{Contents};
ghost use Rattle.cookie_laws.specs.Rows.{key_at};
ghost use Rattle.cookie_laws.specs.Runs.{step, Clear, Insert, Remove, Removed, Set, Stored};
ghost use Rattle.durable_table.specs.Changes.{after, HasRowid};
ghost use Rattle.cookie_durable.specs.Checks.{is_unstorable, IsReasonOf};
ghost use Rattle.cookie_durable.specs.Durable.{ChangesTo, IsNotWritten, IsStaged};
ghost use Rattle.cookie_durable.specs.Numbering.{key_in, IsNumbered, Touches};

use crate::changes::{add_change, deletions};
use crate::numbering::{Names, names_of};
use crate::receiving::{insert_received, parse_header};
use crate::{DurableError, DurableStore};
use cookie_core::{Call, InsertResult, Reply};
use cookie_parts::Cookie;
use durable_table::Change;
use jiff::civil::DateTime;
use sqlite_trees::store::Store;
use std::alloc::Global;
use url::Url;

impl<S: Store> DurableStore<S> {
    /// Executes a call in memory, and adds its changes of the table to `changes`.
    pub(crate) fn stage_call(
        &mut self,
        alloc: Global,
        call: Call,
        changes: &mut Vec<Change>,
    ) -> Result<Reply, DurableError>
        requires { IsStaged self.old changes.old.items (S.Store.view self.old.file) }
        ensures staged { IsStaged self.new changes.new.items (S.Store.view self.new.file) }
        ensures reply { IfOk result (λ reply. reply_view reply ≡ (step (call_view call) self.old.store).reply) }
        ensures change { ChangesTo result self.old self.new (step (call_view call) self.old.store).store }
        ensures works { OnOk result (self.old.is_failed ≡ false) }
        ensures failed { IsTrue self.old.is_failed → result ≡ Err DurableError.Failed }
        ensures reason { IfErr result (λ e. IsReasonOf e self.old (call_view call)) }
        ensures file { self.new.file ≡ self.old.file }
        ensures table { self.new.table ≡ self.old.table }
    {
        match call {
            Call::Set { text, url, now } => {
                match self.stage_header(alloc, text.as_str(), &url, now, changes) {
                    Ok(stored) => Ok(Reply::Stored(stored)),
                    Err(error) => Err(error),
                }
            }
            Call::Insert { cookie, url, now } => {
                match self.stage_insertion(alloc, cookie, &url, now, changes) {
                    Ok(stored) => Ok(Reply::Stored(stored)),
                    Err(error) => Err(error),
                }
            }
            Call::Remove { domain, path, name } => {
                let (domain, path) = (domain.as_str(), path.as_str());
                match self.stage_removal(alloc, domain, path, name.as_str(), changes) {
                    Ok(removed) => Ok(Reply::Removed(removed)),
                    Err(error) => Err(error),
                }
            }
            Call::Clear => match self.stage_clear(alloc, changes) {
                Ok(()) => Ok(Reply::Cleared),
                Err(error) => Err(error),
            },
        }
    }

    /// Parses a header value, and inserts the cookie in memory. Adds the change of the table to
    /// `changes`.
    pub(crate) fn stage_header(
        &mut self,
        alloc: Global,
        text: &str,
        url: &Url,
        now: DateTime,
        changes: &mut Vec<Change>,
    ) -> Result<InsertResult, DurableError>
        requires { IsStaged self.old changes.old.items (S.Store.view self.old.file) }
        ensures staged { IsStaged self.new changes.new.items (S.Store.view self.new.file) }
        ensures reply { IfOk result (λ reply. Stored reply ≡ (step (Set text.now url.now (moment_of now)) self.old.store).reply) }
        ensures change { ChangesTo result self.old self.new (step (Set text.now url.now (moment_of now)) self.old.store).store }
        ensures works { OnOk result (self.old.is_failed ≡ false) }
        ensures failed { IsTrue self.old.is_failed → result ≡ Err DurableError.Failed }
        ensures reason { IfErr result (λ e. IsReasonOf e self.old (Set text.now url.now (moment_of now))) }
        ensures file { self.new.file ≡ self.old.file }
        ensures table { self.new.table ≡ self.old.table }
    {
        if self.is_failed {
            return Err(DurableError::Failed);
        }
        match parse_header(alloc, text, url, now)? {
            Ok(cookie) => self.stage_insertion(alloc, cookie, url, now, changes),
            Err(rejection) => Ok(Err(rejection)),
        }
    }

    /// Inserts a received cookie in memory. Adds the change of the table to `changes`.
    pub(crate) fn stage_insertion(
        &mut self,
        alloc: Global,
        cookie: Cookie<'static>,
        url: &Url,
        now: DateTime,
        changes: &mut Vec<Change>,
    ) -> Result<InsertResult, DurableError>
        requires { IsStaged self.old changes.old.items (S.Store.view self.old.file) }
        ensures staged { IsStaged self.new changes.new.items (S.Store.view self.new.file) }
        ensures reply { IfOk result (λ reply. Stored reply ≡ (step (Insert cookie.entry url.now (moment_of now)) self.old.store).reply) }
        ensures change { ChangesTo result self.old self.new (step (Insert cookie.entry url.now (moment_of now)) self.old.store).store }
        ensures works { OnOk result (self.old.is_failed ≡ false) }
        ensures failed { IsTrue self.old.is_failed → result ≡ Err DurableError.Failed }
        ensures reason { IfErr result (λ e. IsReasonOf e self.old (Insert cookie.entry url.now (moment_of now))) }
        ensures unstorable { self.old.is_failed ≡ false → IsTrue (is_unstorable cookie.entry) → result ≡ Err DurableError.Unstorable }
        ensures file { self.new.file ≡ self.old.file }
        ensures table { self.new.table ≡ self.old.table }
    {
        let names = self.names_to_write(alloc, &cookie)?;
        match insert_received(&mut self.store, cookie, url, now)? {
            Ok(action) => {
                self.stage_key(alloc, names, changes)?;
                Ok(Ok(action))
            }
            Err(rejection) => Ok(Err(rejection)),
        }
    }

    /// Removes the cookie with this domain, path and name in memory. Adds the change of the table to
    /// `changes`.
    pub(crate) fn stage_removal(
        &mut self,
        alloc: Global,
        domain: &str,
        path: &str,
        name: &str,
        changes: &mut Vec<Change>,
    ) -> Result<Option<Cookie<'static>>, DurableError>
        requires { IsStaged self.old changes.old.items (S.Store.view self.old.file) }
        ensures staged { IsStaged self.new changes.new.items (S.Store.view self.new.file) }
        ensures reply { IfOk result (λ removed. Removed removed ≡ (step (Remove (key_at domain.now path.now name.now)) self.old.store).reply) }
        ensures change { ChangesTo result self.old self.new (step (Remove (key_at domain.now path.now name.now)) self.old.store).store }
        ensures works { OnOk result (self.old.is_failed ≡ false) }
        ensures failed { IsTrue self.old.is_failed → result ≡ Err DurableError.Failed }
        ensures reason { IfErr result (λ e. IsReasonOf e self.old (Remove (key_at domain.now path.now name.now))) }
        ensures file { self.new.file ≡ self.old.file }
        ensures table { self.new.table ≡ self.old.table }
    {
        if self.is_failed {
            return Err(DurableError::Failed);
        }
        let names = names_of(alloc, domain, path, name)?;
        let removed = self.store.remove(domain, path, name);
        self.stage_key(alloc, names, changes)?;
        Ok(removed)
    }

    /// Removes all cookies in memory. Adds the changes of the table to `changes`.
    pub(crate) fn stage_clear(
        &mut self,
        alloc: Global,
        changes: &mut Vec<Change>,
    ) -> Result<(), DurableError>
        requires { IsStaged self.old changes.old.items (S.Store.view self.old.file) }
        ensures staged { IsStaged self.new changes.new.items (S.Store.view self.new.file) }
        ensures change { ChangesTo result self.old self.new (step Clear self.old.store).store }
        ensures works { OnOk result (self.old.is_failed ≡ false) }
        ensures failed { IsTrue self.old.is_failed → result ≡ Err DurableError.Failed }
        ensures reason { IfErr result (λ e. IsReasonOf e self.old Clear) }
        ensures file { self.new.file ≡ self.old.file }
        ensures table { self.new.table ≡ self.old.table }
    {
        if self.is_failed {
            return Err(DurableError::Failed);
        }
        let mut deletions = deletions(alloc, &self.ids)?;
        changes.append(&mut deletions)?;
        self.store.clear();
        self.ids.clear();
        Ok(())
    }

    /// Adds to `changes` the change that writes the cookie with this key, or deletes its row if the
    /// store has none.
    pub(crate) fn stage_key(
        &mut self,
        alloc: Global,
        names: Names,
        changes: &mut Vec<Change>,
    ) -> Result<(), DurableError>
        ensures numbered { OnOk result ((before : Contents) (rows : List Row) → Touches (key_in names) before self.old.store
            → IsNumbered before self.old.ids self.old.next (after changes.old.items rows)
            → IsNumbered self.new.store self.new.ids self.new.next (after changes.new.items rows)) }
        ensures keyed { All HasRowid changes.old.items → All HasRowid changes.new.items }
        ensures ok { OnOk result (self.new.is_failed ≡ false) }
        ensures err { OnErr result (self.new.is_failed ≡ true) }
        ensures error { IfErr result IsNotWritten }
        ensures store { self.new.store ≡ self.old.store }
        ensures file { self.new.file ≡ self.old.file }
        ensures table { self.new.table ≡ self.old.table }
    {
        // failed until it succeeds: an error leaves the cookies ahead of their file
        self.is_failed = true;
        let added = add_change(
            alloc,
            &self.store,
            names,
            &mut self.ids,
            &mut self.next,
            changes,
        );
        match added {
            Ok(()) => {
                self.is_failed = false;
                Ok(())
            }
            Err(error) => Err(DurableError::NotWritten(error)),
        }
    }
}
