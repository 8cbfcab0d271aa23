//! Writing to a sink, and to an output in front of it, with each write failing in turn.
use crate::checks::is_equal;
use crate::parts::expanded;
use cookie_device::{Counted, DeviceFailed, Output, Sink, write_all, write_line};
use cookie_fakes::Fake;
use std::alloc::Global;
use std::process::Abort;

type Writer = Counted<Fake<Vec<u8>>>;

// What is done with a sink, or with an output in front of it.
enum Step {
    // One call of the sink with the whole string.
    Once(&'static str),
    Write(&'static str),
    Line(&'static str),
    Put(&'static str),
    PutAll(&'static [&'static str]),
    Flush,
}

// The most bytes of one call, the number of the call that fails, the steps, a '.' for each that
// succeeds and a '!' for each that fails, the number of calls, and what is written.
type Row = (
    usize,
    usize,
    &'static [Step],
    &'static str,
    usize,
    &'static str,
);

const TWO: [Step; 2] = [Step::Write("Set-Cookie"), Step::Write(": a=1")];

const LINES: [Step; 2] = [Step::Line("abc"), Step::Line("")];

// A call that takes none of the bytes passed to it has failed.
const STUCK: [Step; 7] = [
    Step::Write(""),
    Step::Once(""),
    Step::Write("text"),
    Step::Line(""),
    Step::PutAll(&["ab", "cd"]),
    Step::Flush,
    Step::Flush,
];

const BOTH: [Step; 5] = [
    Step::PutAll(&["ab", "cd"]),
    Step::Flush,
    Step::Flush,
    Step::Put("ef"),
    Step::Flush,
];

// The buffer is written once it would pass its limit, and a string longer than the limit after it.
const LONG: [Step; 8] = [
    Step::Put("a"),
    Step::Put("…"),
    Step::Put("bb"),
    Step::Put("…yz"),
    Step::Put("c"),
    Step::Flush,
    Step::Put("de"),
    Step::Flush,
];

static ROWS: [Row; 31] = [
    (1, 0, &TWO, "..", 15, "Set-Cookie: a=1"),
    (3, 0, &TWO, "..", 6, "Set-Cookie: a=1"),
    (3, 1, &TWO, "!.", 3, ": a=1"),
    (3, 2, &TWO, "!.", 4, "Set: a=1"),
    (3, 3, &TWO, "!.", 5, "Set-Co: a=1"),
    (3, 4, &TWO, "!.", 6, "Set-Cooki: a=1"),
    (3, 5, &TWO, ".!", 5, "Set-Cookie"),
    (3, 6, &TWO, ".!", 6, "Set-Cookie: a"),
    (100, 0, &TWO, "..", 2, "Set-Cookie: a=1"),
    (2, 0, &LINES, "..", 4, "abc\n\n"),
    (2, 1, &LINES, "!.", 2, "\n"),
    (2, 2, &LINES, "!.", 3, "ab\n"),
    (2, 3, &LINES, "!.", 4, "abc\n"),
    (2, 4, &LINES, ".!", 4, "abc\n"),
    (0, 0, &STUCK, "..!!.!.", 4, ""),
    (100, 0, &BOTH, ".....", 2, "abcdef"),
    (100, 1, &BOTH, ".!...", 2, "ef"),
    (100, 2, &BOTH, "....!", 2, "abcd"),
    (1, 0, &BOTH, ".....", 6, "abcdef"),
    (1, 1, &BOTH, ".!...", 3, "ef"),
    (1, 2, &BOTH, ".!...", 4, "aef"),
    (1, 3, &BOTH, ".!...", 5, "abef"),
    (1, 4, &BOTH, ".!...", 6, "abcef"),
    (1, 5, &BOTH, "....!", 5, "abcd"),
    (1, 6, &BOTH, "....!", 6, "abcde"),
    (usize::MAX, 0, &LONG, "........", 5, "a…bb…yzcde"),
    (usize::MAX, 1, &LONG, "..!.....", 4, "…yzcde"),
    (usize::MAX, 2, &LONG, "...!....", 4, "a…cde"),
    (usize::MAX, 3, &LONG, "...!....", 5, "a…bbcde"),
    (usize::MAX, 4, &LONG, ".....!..", 5, "a…bb…yzde"),
    (usize::MAX, 5, &LONG, ".......!", 5, "a…bb…yzc"),
];

// Takes the step, unless the failure count is at its maximum.
fn take(
    rt: &impl Abort,
    alloc: Global,
    output: &mut Output,
    writer: &mut Writer,
    step: &Step,
) -> Result<(), DeviceFailed> {
    if writer.failures() == u64::MAX {
        return Err(DeviceFailed);
    }
    match step {
        Step::Once(text) => writer.write(text.as_bytes()).and(Ok(())),
        Step::Write(text) => write_all(writer, text.as_bytes()),
        Step::Line(text) => write_line(writer, text.as_bytes()),
        Step::Put(text) => {
            let text = expanded(rt, alloc, text);
            let outcome = output.put(writer, text.as_bytes());
            drop(text);
            outcome
        }
        Step::PutAll(texts) => output.put_all(writer, texts),
        Step::Flush => output.flush(writer),
    }
}

// Takes all steps, and checks which of them succeed.
fn take_all(rt: &impl Abort, alloc: Global, writer: &mut Writer, row: &Row) {
    let mut output = Output::new(alloc).expect(rt, "memory");
    let mut outcomes = String::new(alloc);
    for step in row.2 {
        let outcome = take(rt, alloc, &mut output, writer, step);
        let mark = if outcome.is_ok() { "." } else { "!" };
        outcomes.push_str(mark).expect(rt, "memory");
    }
    is_equal(rt, &outcomes.as_str(), &row.3, &(row.0, row.1));
    drop(outcomes);
    drop(output);
}

// Checks also that no call is repeated, and what is written. The writer has room for that, so that no
// write fails but the row's.
fn is_written(rt: &impl Abort, alloc: Global, row: &Row) {
    let room = Vec::with_capacity(alloc, 200_000).expect(rt, "memory");
    let mut writer = Counted::new(Fake::new(room, row.0, row.1));
    take_all(rt, alloc, &mut writer, row);
    let fake = writer.into_inner();
    is_equal(rt, &fake.calls, &row.4, &(row.0, row.1));
    let wanted = expanded(rt, alloc, row.5);
    is_equal(
        rt,
        &fake.inner.as_slice(),
        &wanted.as_bytes(),
        &(row.0, row.1),
    );
    drop(wanted);
    drop(fake);
}

#[test]
fn bytes_are_written_but_by_the_failed_call(rt: HostRuntime) {
    for row in &ROWS {
        is_written(&rt, rt.alloc(), row);
    }
}
