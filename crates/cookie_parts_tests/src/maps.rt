//! Maps in insertion order.
use crate::checks::{is_equal, is_text};
use ordered_map::OrderedMap;
use std::alloc::Global;
use std::hash::{BuildHasherDefault, FoldHasher};
use std::process::Abort;

type Map = OrderedMap<u32, BuildHasherDefault<FoldHasher>>;

// An edit, and the value that it removes.
enum Edit {
    Add(&'static str, u32),
    Write(&'static str, u32),
    WriteAt(usize, u32),
    Remove(&'static str, Option<u32>),
    RemoveAt(usize, Option<u32>),
    MoveToEnd(&'static str),
    // adds 10 to each value, and retains the odd ones
    RetainOdd,
    Clear,
}

// Edits of one map, each with the entries after it.
static EDITS: [(Edit, &str); 21] = [
    (Edit::Add("a", 1), "a=1 "),
    (Edit::Add("b", 2), "a=1 b=2 "),
    (Edit::Add("c", 3), "a=1 b=2 c=3 "),
    (Edit::Add("d", 4), "a=1 b=2 c=3 d=4 "),
    (Edit::Add("e", 5), "a=1 b=2 c=3 d=4 e=5 "),
    (Edit::Write("b", 6), "a=1 b=6 c=3 d=4 e=5 "),
    (Edit::Write("f", 7), "a=1 b=6 c=3 d=4 e=5 "),
    (Edit::MoveToEnd("b"), "a=1 c=3 d=4 e=5 b=6 "),
    (Edit::MoveToEnd("f"), "a=1 c=3 d=4 e=5 b=6 "),
    // its position is the same
    (Edit::WriteAt(1, 2), "a=1 c=3 d=4 e=5 b=2 "),
    (Edit::WriteAt(5, 2), "a=1 c=3 d=4 e=5 b=2 "),
    (Edit::Remove("c", Some(3)), "a=1 d=4 e=5 b=2 "),
    (Edit::Remove("c", None), "a=1 d=4 e=5 b=2 "),
    (Edit::RemoveAt(0, Some(1)), "d=4 e=5 b=2 "),
    (Edit::RemoveAt(3, None), "d=4 e=5 b=2 "),
    (Edit::Add("a", 8), "d=4 e=5 b=2 a=8 "),
    (Edit::RetainOdd, "e=15 "),
    (Edit::Add("a", 9), "e=15 a=9 "),
    (Edit::Clear, ""),
    (Edit::RetainOdd, ""),
    (Edit::Add("b", 7), "b=7 "),
];

fn empty(alloc: Global) -> Map {
    OrderedMap::with_hasher(alloc, BuildHasherDefault::new())
}

// Adds an entry, unless the key is there.
fn add(rt: &impl Abort, map: &mut Map, text: &str, value: u32) {
    if map.get(text).is_none() {
        let key = String::from_str(*map.allocator(), text).expect(rt, "memory");
        map.push(key, value).expect(rt, "memory");
    }
}

fn write(place: Option<&mut u32>, value: u32) {
    if let Some(place) = place {
        *place = value;
    }
}

fn make(rt: &impl Abort, map: &mut Map, edit: &Edit) {
    match edit {
        Edit::Add(key, value) => add(rt, map, key, *value),
        Edit::Write(key, value) => write(map.get_mut(key), *value),
        Edit::WriteAt(position, value) => write(map.at_mut(*position), *value),
        Edit::Remove(key, value) => is_equal(rt, &map.remove(key), value, key),
        Edit::RemoveAt(position, value) => is_equal(rt, &map.remove_at(*position), value, position),
        Edit::MoveToEnd(key) => map.move_to_end(key),
        Edit::RetainOdd => map.retain(|_key: &String, value: &mut u32| -> bool {
            *value = value.wrapping_add(10);
            *value % 2 == 1
        }),
        Edit::Clear => map.clear(),
    }
}

// Returns the entries, such as `a=1 b=2 `.
fn shown(rt: &impl Abort, map: &Map) -> String {
    let mut text = String::new(*map.allocator());
    for (key, value) in map.iter() {
        let entry = format!(in *map.allocator(); "{key}={value} ").expect(rt, "memory");
        text.push_str(entry.as_str()).expect(rt, "memory");
        drop(entry);
    }
    text
}

fn has_entries(rt: &impl Abort, map: &Map, expected: &str) {
    let entries = shown(rt, map);
    is_text(rt, entries.as_str(), expected, &"the entries");
    drop(entries);
}

#[test]
fn edits_keep_the_order(rt: HostRuntime) {
    let mut map = empty(rt.alloc());
    for (edit, entries) in &EDITS {
        make(&rt, &mut map, edit);
        has_entries(&rt, &map, entries);
    }
    drop(map);
}

// Checks what each call finds in `a=1 b=2 c=3`.
fn are_found(rt: &impl Abort, map: &Map) {
    assert!(rt; map.len() == 3 && !map.is_empty());
    assert!(rt; map.get("c").copied() == Some(3) && map.get("d").is_none());
    assert!(rt; map.position("b") == Some(1) && map.position("d").is_none());
    assert!(rt; map.at(1) == Some((1, "b", &2)) && map.at(3).is_none());
}

fn are_values(rt: &impl Abort, map: &Map) {
    let mut values = map.values();
    assert!(rt; values.next() == Some(&1) && values.next() == Some(&2));
}

#[test]
fn finds_entries(rt: HostRuntime) {
    let map = OrderedMap::with_capacity_and_hasher(rt.alloc(), 3, BuildHasherDefault::new());
    let mut map: Map = map.expect(&rt, "memory");
    let _ = map.hasher();
    add(&rt, &mut map, "a", 1);
    add(&rt, &mut map, "b", 2);
    add(&rt, &mut map, "c", 3);
    are_found(&rt, &map);
    are_values(&rt, &map);
    drop(map);
}

// Removes the key `step / 2 * step % 11` if it is there, and else adds it; each third step moves
// `step % 11` to the end.
fn churn(rt: &impl Abort, map: &mut Map, step: u32) {
    let alloc = *map.allocator();
    let key = format!(in alloc; "{}", (step / 2).wrapping_mul(step) % 11).expect(rt, "memory");
    if map.remove(key.as_str()).is_none() {
        add(rt, map, key.as_str(), step);
    }
    if step % 3 == 0 {
        let moved = format!(in alloc; "{}", step % 11).expect(rt, "memory");
        map.move_to_end(moved.as_str());
        drop(moved);
    }
    drop(key);
}

// The expected entries are those of Python's `dict`.
#[test]
fn churns(rt: HostRuntime) {
    let mut map = empty(rt.alloc());
    for step in 0..500u32 {
        churn(&rt, &mut map, step);
    }
    has_entries(&rt, &map, "2=486 7=490 8=488 0=495 1=497 6=499 ");
    drop(map);
}
