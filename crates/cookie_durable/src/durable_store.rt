//! The durable store.
ghost use Rattle.std.specs.Prelude.{◌≡◌, [], false, None};
ghost use Rattle.sqlite_trees.specs.View.{IsClean};
ghost use Rattle.durable_table.specs.Transactions.{IsReady};
ghost use Rattle.cookie_durable.specs.Durable.{IsInStep};

use crate::numbering::Ids;
use cookie_core::CookieStore;
use cookie_rows::StoreAlloc;
use indexmap::IndexMap;
use sqlite_trees::store::Store;
use std::marker::Model;

/// A cookie store, and the table of a SQLite file that has its cookies.
///
/// The rows of the table are the cookies in creation order, as `cookie_table` writes them. No other
/// code may write the table while the store is in use.
///
/// Each call changes the cookies in memory and commits the change before it returns. If that fails,
/// the call returns `NotWritten`: the cookies in memory may be ahead of the table, never behind it,
/// and each later call returns `Failed` until the file is opened again.
#[derive(Drop)]
pub struct DurableStore<S: Store> {
    pub(crate) store: CookieStore,
    pub(crate) file: S,
    pub(crate) table: u32,
    pub(crate) ids: Ids,
    pub(crate) next: i64,
    pub(crate) is_failed: bool,
}

impl<S: Store> Model for DurableStore<S> {
    ghost use Rattle.cookie_durable.specs.Durable.{Durable};

    ghost Value = { Durable S };

    ghost view = { λ d. record {
      store = d.store;
      file = d.file;
      table = d.table;
      ids = d.ids.entries;
      next = d.next;
      is_failed = d.is_failed;
    } };
}

impl<S: Store> DurableStore<S> {
    /// Returns an empty store over an empty table that was created by
    /// [`CREATE_TABLE`](cookie_table::CREATE_TABLE).
    pub fn new<A: Into<StoreAlloc>>(alloc: A, file: S, table: u32) -> DurableStore<S>
        requires ready { IsClean (S.Store.view file) → IsReady table (S.Store.view file) }
        requires sound { IsClean (S.Store.view file) → (S.Store.view file).is_broken ≡ false }
        requires empty { IsClean (S.Store.view file) → (S.Store.view file).committed table ≡ [] }
        ensures in_step { IsInStep result (S.Store.view result.file) }
        ensures store { result.store ≡ record { rows = []; created = []; suffixes = None; limit = None } }
        ensures file { result.file ≡ file }
        ensures table { result.table ≡ table }
        ensures works { result.is_failed ≡ false }
    {
        let StoreAlloc { alloc, hash_key } = alloc.into();
        DurableStore {
            store: CookieStore::with_hash_key(alloc, hash_key),
            file,
            table,
            ids: IndexMap::with_hasher(alloc, hash_key),
            next: 1,
            is_failed: false,
        }
    }

    /// Returns the cookies.
    pub fn store(&self) -> &CookieStore
        ensures { result.now ≡ self.now.store }
    {
        &self.store
    }

    /// Returns whether an earlier call returned `NotWritten`.
    pub fn is_failed(&self) -> bool
        ensures { result ≡ self.now.is_failed }
    {
        self.is_failed
    }
}
