//! Assertions, whose messages name the row of a table.
use std::alloc::Global;
use std::cmp::Ordering;
use std::fmt::{Debug, Display};
use std::hash::{DefaultHasher, Hash, Hasher};
use std::process::Abort;

// Checks that the value is the one wanted.
pub(crate) fn is_equal<T: Debug + PartialEq>(
    rt: &impl Abort,
    value: &T,
    wanted: &T,
    row: &impl Debug,
) {
    assert_eq!(rt; value, wanted, "at {row:?}");
}

// Checks that the string is the one wanted. The message has the lengths of long ones only.
pub(crate) fn is_text(rt: &impl Abort, text: &str, wanted: &str, row: &impl Debug) {
    if text.len() < 1_000 {
        is_equal(rt, &text, &wanted, row);
    } else {
        let same = (text.len(), text == wanted);
        is_equal(rt, &same, &(wanted.len(), true), row);
    }
}

// Checks what the value prints, alone and with a width and an alignment.
pub(crate) fn is_printed(rt: &impl Abort, alloc: Global, value: &impl Display, wanted: &str) {
    let text = value.to_string(alloc).expect(rt, "memory");
    is_text(rt, text.as_str(), wanted, &"no width");
    let wide = format!(in alloc; "{value:>200}").expect(rt, "memory");
    is_text(rt, wide.as_str(), wanted, &"a width");
    drop(wide);
    drop(text);
}

fn hash_of<T: Hash>(value: &T) -> u64 {
    let mut state = DefaultHasher::new();
    value.hash(&mut state);
    state.finish()
}

// Checks that the copy is the value, also in its order and its hash.
pub(crate) fn is_copy<T: Ord + Hash + Debug>(
    rt: &impl Abort,
    copy: &T,
    value: &T,
    row: &impl Debug,
) {
    is_equal(rt, copy, value, row);
    let results = (copy.cmp(value), hash_of(copy) == hash_of(value));
    is_equal(rt, &results, &(Ordering::Equal, true), row);
}
