//! Reading lines from a source.
ghost use Rattle.std.specs.Prelude.{◌≡◌, ◌==◌, ℕ, ◌+◌, ◌-◌, ◌^◌, ◌<◌, ◌≤◌, List, [], None, Some, false, length, take, drop, position, IsTrue, IfSome, IfOk, OnOk, OnErr, vec_len};
ghost use Rattle.std.specs.Io.{StartsWith};
ghost use Rattle.std.specs.Io.KnownBytes.{IsAtEnd, Keeps, prepend_known};
ghost use Rattle.std.specs.Str.Lines.{strip_carriage_return};
ghost use Rattle.cookie_device.specs.FillError.{CountsReadFailure};
ghost use Rattle.cookie_device.specs.LineBuffers.{EndsLine, IsLastLine, IsScanned};

use crate::device::{DeviceFailed, Source};
use crate::reading::{READ_LIMIT, read_more};
use memchr::memchr;
use std::alloc::{AllocError, Global};
use std::marker::Model;

/// The error of reading from a [`Source`] into memory.
#[derive(Clone, Copy, Debug, PartialEq, Eq)]
pub enum FillError {
    /// The read failed.
    Read,
    /// Out of memory.
    Memory,
}

impl From<AllocError> for FillError {
    ghost use Rattle.cookie_device.specs.declared.lines.FillError.TheVariants.{Memory};

    ghost from_gives = { λ _ e. e ≡ Memory };

    fn from(_error: AllocError) -> FillError {
        FillError::Memory
    }
}

impl From<DeviceFailed> for FillError {
    ghost use Rattle.cookie_device.specs.declared.lines.FillError.TheVariants.{Read};

    ghost from_gives = { λ _ e. e ≡ Read };

    fn from(_error: DeviceFailed) -> FillError {
        FillError::Read
    }
}

/// A buffer of bytes read from a source, from which whole lines are taken.
///
/// It holds at most the bytes of one unfinished line and of one read.
///
/// Not proved: if the caller passes whole lines, each byte is examined and moved a constant number
/// of times, and the capacity is at most twice the longest line and one read together.
#[derive(Drop)]
pub struct LineBuffer {
    bytes: Vec<u8>,
    // The bytes before this position were passed.
    start: usize,
    // No line feed is between `start` and this position.
    scanned: usize,
}

impl Model for LineBuffer {
    ghost Value = { List ℕ };

    ghost view = { λ b. drop b.start b.bytes.items };

    ghost invariant = { λ b. IsScanned b.bytes.items b.start b.scanned };
}

impl LineBuffer {
    /// The most bytes of one read.
    pub const READ_LIMIT: usize = READ_LIMIT;

    /// Creates an empty buffer. Allocates nothing.
    pub fn new(alloc: Global) -> LineBuffer
        ensures { result ≡ [] }
    {
        LineBuffer {
            bytes: Vec::new(alloc),
            start: 0,
            scanned: 0,
        }
    }

    /// Returns the position of the first line feed in the buffer, or `None` if it holds no whole
    /// line.
    pub fn line_end(&self) -> Option<usize>
        ensures first { result ≡ position (λ b. b == 10) self.now }
        ensures within { IfSome result (λ end. end < length self.now) }
        ensures fits { length self.now < 2 ^ 63 }
        ensures line { IfSome result (EndsLine self.now) }
        ensures last { result ≡ None → IsLastLine self.now }
    {
        let place = first_line_feed(&self.bytes[self.scanned..])?;
        Some(self.scanned - self.start + place)
    }

    /// Returns the line that ends at `end`: the first `end` bytes of the buffer, without a carriage
    /// return at their end.
    pub fn line(&self, end: usize) -> &[u8]
        requires { end ≤ length self.now }
        ensures { result.now ≡ strip_carriage_return (take end self.now) }
    {
        without_return(&self.bytes[self.start..self.start + end])
    }

    /// Returns all bytes of the buffer.
    pub fn rest(&self) -> &[u8]
        ensures { result.now ≡ self.now }
    {
        &self.bytes[self.start..]
    }

    /// Removes the first `count` bytes of the buffer.
    pub fn pass(&mut self, count: usize)
        requires { count ≤ length self.old }
        ensures { self.new ≡ drop count self.old }
    {
        self.start += count;
        self.scanned = self.scanned.max(self.start);
    }

    /// Reads once, appends the bytes to the buffer and returns whether there were any. If not, the
    /// source is at its end.
    ///
    /// The buffer must hold no line feed. On an error it is unchanged.
    #[tactic(auto, using(crate::proofs::Lengths::kept_lengths))]
    pub fn fill<R: Source>(&mut self, source: &mut R) -> Result<bool, FillError>
        requires no_line { position (λ b. b == 10) self.old ≡ None }
        requires countable { (R.state source.old).failed < 2 ^ 64 - 1 }

        // No byte is lost or added, and the bytes already in the buffer stay in front.
        ensures bytes { Keeps (prepend_known self.old (R.state source.old).remaining)
            (prepend_known self.new (R.state source.new).remaining) }
        ensures at_hand { StartsWith self.new self.old }
        ensures moved { IfSome (R.state source.old).remaining (λ text. (unread : List ℕ) × ((R.state source.new).remaining ≡ Some unread)
            × (length text + length self.old ≡ length unread + length self.new)) }
        ensures bound { length self.new ≤ length self.old + LineBuffer.READ_LIMIT }

        ensures came { IfOk result (λ came. IsTrue came → length self.old < length self.new) }
        ensures end { IfOk result (λ came. came ≡ false
            → (self.new ≡ self.old) × IsAtEnd (R.state source.new).remaining) }
        ensures err { OnErr result (self.new ≡ self.old) }

        ensures count { CountsReadFailure result (R.state source.old).failed (R.state source.new).failed }
        ensures fewer { OnOk result ((R.state source.old).reads_left ≡ (R.state source.new).reads_left + 1) }
        ensures as_many { OnErr result ((R.state source.new).reads_left ≡ (R.state source.old).reads_left) }
    {
        remove_front(&mut self.bytes, self.start);
        self.start = 0;
        self.scanned = self.bytes.len();
        read_more(&mut self.bytes, source)
    }
}

// Returns the position of the first line feed.
fn first_line_feed(bytes: &[u8]) -> Option<usize>
    ensures { result ≡ position (λ b. b == 10) bytes.now }
{
    memchr(b'\n', bytes)
}

// Strips one carriage return from the end of a line.
fn without_return(line: &[u8]) -> &[u8]
    ensures { result.now ≡ strip_carriage_return line.now }
{
    match line {
        [prefix @ .., b'\r'] => prefix,
        _ => line,
    }
}

// Removes the bytes before `start`.
fn remove_front(bytes: &mut Vec<u8>, start: usize)
    requires { start ≤ vec_len bytes.old }
    ensures { bytes.new.items ≡ drop start bytes.old.items }
{
    if start == 0 {
        return;
    }
    let rest = bytes.len() - start;
    bytes.copy_within(start.., 0);
    bytes.truncate(rest);
}
