//! Readers and writers for tests: short reads and writes, and fault injection.
#![tactic(auto)]

use std::io;
use std::io::{Read, Write};

/// A reader or writer that moves at most `most` bytes per call and fails at call number `fails_at`,
/// counted from 1. Flushing is not counted and never fails.
#[derive(Drop)]
pub struct Fake<T> {
    /// The underlying reader or writer.
    pub inner: T,
    /// The number of reads or writes so far, including the failed one.
    pub calls: usize,
    most: usize,
    fails_at: usize,
}

impl<T> Fake<T> {
    /// Wraps `inner`, with no calls yet. If `fails_at` is 0, no call fails.
    pub fn new(inner: T, most: usize, fails_at: usize) -> Fake<T> {
        Fake {
            inner,
            calls: 0,
            most,
            fails_at,
        }
    }

    // Counts a call and returns how many bytes it may move, or fails.
    fn count_call(&mut self) -> io::Result<usize> {
        self.calls = self.calls.saturating_add(1);
        if self.calls == self.fails_at {
            return Err(io::Error::from(io::ErrorKind::Other));
        }
        Ok(self.most)
    }
}

impl<T: Read> Read for Fake<T> {
    fn read(&mut self, buf: &mut [u8]) -> io::Result<usize> {
        let most = self.count_call()?.min(buf.len());
        self.inner.read(&mut buf[..most])
    }
}

impl<T: Write> Write for Fake<T> {
    fn write(&mut self, buf: &[u8]) -> io::Result<usize> {
        let most = self.count_call()?.min(buf.len());
        self.inner.write(&buf[..most])
    }

    fn flush(&mut self) -> io::Result<()> {
        Ok(())
    }
}
