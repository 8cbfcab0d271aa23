//! Reading lines and all bytes, with each read failing in turn.
use crate::checks::is_equal;
use crate::parts::expanded;
use cookie_device::{Counted, DeviceFailed, FillError, LineBuffer, Source, read_all};
use cookie_fakes::Fake;
use std::alloc::Global;
use std::process::Abort;

type Reader<'a> = Counted<Fake<&'a [u8]>>;

// The bytes, the most bytes of one read, the number of the read that fails, and what is read, with a '|'
// after each line, and a '!' for the failed read.
type Row = (&'static str, usize, usize, &'static str);

const TEXT: &str = "one\n\ntwo\r\nlast\r";

static LINES: [Row; 14] = [
    ("", 1, 0, ""),
    ("one", 1, 0, "one"),
    ("one\n", 2, 0, "one|"),
    ("\n\n\nx\n", 9, 0, "|||x|"),
    (TEXT, 1, 0, "one||two|last\r"),
    (TEXT, 5_000, 0, "one||two|last\r"),
    (TEXT, 4, 1, "!one||two|last\r"),
    (TEXT, 4, 2, "one|!|two|last\r"),
    (TEXT, 4, 3, "one||!two|last\r"),
    (TEXT, 5, 3, "one||two|!last\r"),
    (TEXT, 5, 4, "one||two|!last\r"),
    ("…\nshort\n", 4_095, 0, "…|short|"),
    ("…\nshort\n", 4_095, 3, "!…|short|"),
    ("…\nshort\n", 100_000, 0, "…|short|"),
];

fn add(rt: &impl Abort, text: &mut Vec<u8>, bytes: &[u8]) {
    text.extend_from_slice(bytes).expect(rt, "memory");
}

// Marks a failed read.
fn mark(rt: &impl Abort, text: &mut Vec<u8>, error: FillError) {
    match error {
        FillError::Read => add(rt, text, b"!"),
        FillError::Memory => Err(error).expect(rt, "memory"),
    }
}

// Takes the next line, if a whole line is buffered.
fn take_line(rt: &impl Abort, text: &mut Vec<u8>, buffer: &mut LineBuffer) -> bool {
    let Some(end) = buffer.line_end() else {
        return false;
    };
    add(rt, text, buffer.line(end));
    add(rt, text, b"|");
    buffer.pass(end + 1);
    true
}

// Reads once, unless a whole line is buffered or the failure count is at its maximum.
fn fill(buffer: &mut LineBuffer, reader: &mut Reader<'_>) -> Result<bool, FillError> {
    if buffer.line_end().is_some() || reader.failures() == u64::MAX {
        return Ok(false);
    }
    buffer.fill(reader)
}

// Takes all lines, and then the last bytes. Reads again after the failed read.
fn take_all(rt: &impl Abort, alloc: Global, text: &mut Vec<u8>, reader: &mut Reader<'_>) {
    let mut buffer = LineBuffer::new(alloc);
    for _ in 0..1_000 {
        if take_line(rt, text, &mut buffer) {
            continue;
        }
        match fill(&mut buffer, reader) {
            Ok(true) => {}
            Ok(false) => break,
            Err(error) => mark(rt, text, error),
        }
    }
    add(rt, text, buffer.rest());
    drop(buffer);
}

fn are_lines(rt: &impl Abort, alloc: Global, row: &Row) {
    let input = expanded(rt, alloc, row.0);
    let mut reader = Counted::new(Fake::new(input.as_bytes(), row.1, row.2));
    let mut text = Vec::new(alloc);
    take_all(rt, alloc, &mut text, &mut reader);
    let wanted = expanded(rt, alloc, row.3);
    is_equal(rt, &text.as_slice(), &wanted.as_bytes(), row);
    drop(wanted);
    drop(text);
    drop(reader);
    drop(input);
}

#[test]
fn lines_are_read_whole(rt: HostRuntime) {
    for row in &LINES {
        are_lines(&rt, rt.alloc(), row);
    }
}

// The first byte, and then all that is left. What was read of that before the failed read is lost.
static BYTES: [Row; 9] = [
    ("", 1, 0, ""),
    ("abc", 1, 0, "abc"),
    ("abc", 1, 1, "!abc"),
    ("abc", 1, 2, "a!bc"),
    ("abc", 1, 3, "a!c"),
    ("abc", 1, 4, "a!"),
    ("…", 1_000, 0, "…"),
    ("…", 4_095, 0, "…"),
    ("…short", 65_535, 18, "x!ort"),
];

// Reads at most one byte, unless the failure count is at its maximum.
fn read_byte(rt: &impl Abort, text: &mut Vec<u8>, reader: &mut Reader<'_>) {
    if reader.failures() == u64::MAX {
        return;
    }
    let mut byte = [0];
    match reader.read(&mut byte) {
        Ok(count) => add(rt, text, &byte[..count]),
        Err(DeviceFailed) => mark(rt, text, FillError::Read),
    }
}

// Reads all that is left, unless the failure count is at its maximum.
fn read(rt: &impl Abort, alloc: Global, text: &mut Vec<u8>, reader: &mut Reader<'_>) {
    if reader.failures() == u64::MAX {
        return;
    }
    match read_all(alloc, reader) {
        Ok(bytes) => add(rt, text, &bytes),
        Err(error) => mark(rt, text, error),
    }
}

fn are_bytes(rt: &impl Abort, alloc: Global, row: &Row) {
    let input = expanded(rt, alloc, row.0);
    let mut reader = Counted::new(Fake::new(input.as_bytes(), row.1, row.2));
    let mut text = Vec::new(alloc);
    read_byte(rt, &mut text, &mut reader);
    read(rt, alloc, &mut text, &mut reader);
    read(rt, alloc, &mut text, &mut reader);
    let wanted = expanded(rt, alloc, row.3);
    is_equal(rt, &text.as_slice(), &wanted.as_bytes(), row);
    drop(wanted);
    drop(text);
    drop(reader);
    drop(input);
}

#[test]
fn all_bytes_are_read(rt: HostRuntime) {
    for row in &BYTES {
        are_bytes(&rt, rt.alloc(), row);
    }
}
