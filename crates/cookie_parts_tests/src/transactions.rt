//! Transactions of a table, in memory.
ghost use Rattle.std.specs.Prelude.{◌≡◌};
ghost use Rattle.std.specs.List.{All};
ghost use Rattle.durable_table.specs.Changes.{HasRowid};

use crate::checks::{is_equal, is_text};
use durable_table::{Change, commit_each, commit_each_then_crash};
use sqlite_trees::error::StoreError;
use sqlite_trees::memory::MemStore;
use sqlite_trees::schema::Object;
use sqlite_trees::store::{Reopen, Shape, Store};
use sqlite_value::row::Row;
use sqlite_value::value::ValueRef;
use std::alloc::{AllocError, Global};
use std::process::Abort;

static SCHEMA: [Object<'static>; 1] = [Object {
    shape: Shape::Table,
    kind: "table",
    name: "t",
    table: "t",
    reals: 0,
    sql: None,
}];

// The rowids and the strings that are put. An empty string deletes the row, and `!` is a row
// without a column, which cannot be stored.
static TRANSACTIONS: [&[(i64, &str)]; 4] = [
    &[(1, "a"), (2, "b"), (3, "c")],
    &[(2, "B"), (1, ""), (9, "")],
    &[(3, "C"), (4, "!")],
    &[(5, "e")],
];

// The strings of rowid 1 to 5 after each of them.
static AFTER: [&str; 3] = ["-----", "abc--", "-Bc--"];

// Allocates as much as nothing else does: the first and the last mark enclose the allocations that are
// to fail. Returns whether it succeeds; the last one fails if one of them did.
fn mark(alloc: Global, size: usize) -> bool {
    let mark: Result<Vec<u8>, AllocError> = Vec::with_capacity(alloc, size);
    mark.is_ok()
}

fn change(rt: &impl Abort, alloc: Global, id: i64, text: &str) -> Change
    ensures { HasRowid result }
{
    if text.is_empty() {
        return Change::Delete(id);
    }
    let mut row = Row::new(alloc);
    row.push(ValueRef::Int(id)).expect(rt, "memory");
    if text != "!" {
        row.push(ValueRef::Text(text.as_bytes()))
            .expect(rt, "memory");
    }
    Change::Put(row)
}

fn changes(rt: &impl Abort, alloc: Global, pairs: &[(i64, &str)]) -> Vec<Change>
    ensures { All HasRowid result.items }
{
    let mut changes = Vec::new(alloc);
    for (id, text) in pairs {
        changes
            .push(change(rt, alloc, *id, text))
            .expect(rt, "memory");
    }
    changes
}

fn transactions(rt: &impl Abort, alloc: Global) -> Vec<Vec<Change>>
    ensures { All (λ changes. All HasRowid changes.items) result.items }
{
    let mut transactions = Vec::new(alloc);
    for pairs in &TRANSACTIONS {
        transactions
            .push(changes(rt, alloc, pairs))
            .expect(rt, "memory");
    }
    transactions
}

// The string of the row of this rowid, or `-`.
fn text_of<'a, S: Store>(rt: &impl Abort, store: &mut S, row: &'a mut Row, id: i64) -> &'a str {
    assert!(rt; matches!(store.shape(0), Shape::Table));
    if !store.get(0, id, row).expect(rt, "a row") {
        return "-";
    }
    match row.get(1) {
        ValueRef::Text(bytes) => str::from_utf8(bytes).unwrap_or("?"),
        _ => "?",
    }
}

// Checks the strings of the rows of rowid 1 to 5.
fn has_rows<S: Store>(rt: &impl Abort, alloc: Global, store: &mut S, wanted: &str) {
    let mut text = String::new(alloc);
    let mut row = Row::new(alloc);
    for id in 1i64..6 {
        text.push_str(text_of(rt, store, &mut row, id))
            .expect(rt, "memory");
    }
    is_text(rt, text.as_str(), wanted, &"the rows");
    drop(row);
    drop(text);
}

// Commits the transactions. Returns how many were committed, the error, and whether no allocation
// failed.
fn committed<S: Reopen>(
    rt: &impl Abort,
    alloc: Global,
    store: &mut S,
) -> (usize, Option<StoreError>, bool)
    requires { (S.Store.view store.old).trees ≡ (S.Store.view store.old).committed }
{
    let transactions = transactions(rt, alloc);
    assert!(rt; matches!(store.shape(0), Shape::Table) && !store.is_broken());
    mark(alloc, 48_271);
    let (done, result) = commit_each(store, 0, transactions.as_slice());
    let committed = (done, result.err(), mark(alloc, 48_281));
    drop(transactions);
    committed
}

// The same, with a crash and an open after it. Returns how many were committed.
fn committed_before_crash<S: Reopen>(rt: &impl Abort, alloc: Global, store: &mut S) -> usize
    requires { (S.Store.view store.old).trees ≡ (S.Store.view store.old).committed }
{
    let transactions = transactions(rt, alloc);
    assert!(rt; matches!(store.shape(0), Shape::Table) && !store.is_broken());
    let done = commit_each_then_crash(store, 0, transactions.as_slice()).expect(rt, "a store");
    drop(transactions);
    done
}

#[test]
fn a_crash_keeps_what_was_committed(rt: HostRuntime) {
    let mut store = MemStore::new(rt.alloc(), &SCHEMA).expect(&rt, "a store");
    let done = committed_before_crash(&rt, rt.alloc(), &mut store);
    is_equal(&rt, &done, &2, &"the crash");
    has_rows(&rt, rt.alloc(), &mut store, AFTER[2]);
    drop(store);
}

mod allocations {
    use super::*;

    // The transactions are committed up to the one that cannot be stored, or up to the one that is
    // out of memory.
    #[test]
    fn a_transaction_is_rolled_back(rt: HostRuntime) {
        let mut store = MemStore::new(rt.alloc(), &SCHEMA).expect(&rt, "a store");
        let (done, error, is_ample) = committed(&rt, rt.alloc(), &mut store);
        has_rows(&rt, rt.alloc(), &mut store, AFTER.get(done).unwrap_or(&""));
        match error {
            Some(StoreError::OutOfMemory) => is_equal(&rt, &is_ample, &false, &done),
            _ => is_equal(
                &rt,
                &(done, error),
                &(2, Some(StoreError::Unstorable)),
                &is_ample,
            ),
        }
        drop(store);
    }
}
