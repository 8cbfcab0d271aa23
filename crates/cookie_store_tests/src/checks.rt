//! Assertions, whose messages name the row of a table.
use std::alloc::Global;
use std::fmt::{Debug, Display};
use std::process::Abort;

// Checks that the value is the one wanted.
pub fn is_equal<T: Debug + PartialEq>(rt: &impl Abort, value: &T, wanted: &T, row: &impl Debug) {
    assert_eq!(rt; value, wanted, "at {row:?}");
}

// Checks that the string is the one wanted. The message has the lengths of long ones only.
pub fn is_text(rt: &impl Abort, text: &str, wanted: &str, row: &impl Debug) {
    if text.len() < 1_000 {
        is_equal(rt, &text, &wanted, row);
    } else {
        let same = (text.len(), text == wanted);
        is_equal(rt, &same, &(wanted.len(), true), row);
    }
}

// Checks the message of the error; `wanted` is empty if there is none.
pub fn is_message<T: Drop, E: Display + Drop>(
    rt: &impl Abort,
    alloc: Global,
    outcome: Result<T, E>,
    wanted: &str,
    row: &impl Debug,
) {
    let message = match outcome {
        Ok(_) => String::new(alloc),
        Err(error) => error.to_string(alloc).expect(rt, "memory"),
    };
    is_text(rt, message.as_str(), wanted, row);
}
