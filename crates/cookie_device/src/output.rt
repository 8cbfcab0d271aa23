//! Buffered output.
ghost use Rattle.std.specs.Prelude.{◌≡◌, ◌+◌, ◌-◌, ◌^◌, ◌<◌, ◌≤◌, [], ◌++◌, length, IfOk, IsOk, OnOk, OnErr, ℕ, List, vec_len, vec_capacity};
ghost use Rattle.std.specs.Io.KnownBytes.{Appends};
ghost use Rattle.cookie_device.specs.Device.{AppendsPrefix, CountsFailure, Sends};
ghost use Rattle.cookie_device.specs.Joined.{joined};

use crate::device::{DeviceFailed, Sink, write_all};
use std::alloc::{AllocError, Global};
use std::marker::Model;

/// A buffer for output to a sink. Only [`new`](Self::new) allocates.
#[derive(Drop)]
pub struct Output {
    text: Vec<u8>,
}

impl Model for Output {
    ghost Value = { List ℕ };

    ghost view = { λ o. o.text.items };

    ghost invariant = { λ o. (vec_len o.text ≤ 65_536) × (65_536 ≤ vec_capacity o.text) };
}

impl Output {
    /// The size of the buffer in bytes.
    pub const LIMIT: usize = 65_536;

    /// Creates an empty buffer. This allocates all memory that it ever needs.
    pub fn new(alloc: Global) -> Result<Output, AllocError>
        ensures { IfOk result (λ output. output ≡ []) }
    {
        let text = Vec::with_capacity(alloc, Output::LIMIT)?;
        Ok(Output { text })
    }

    /// Appends `text` to the buffer.
    ///
    /// If `text` does not fit, the buffer is written first; if `text` is longer than
    /// [`LIMIT`](Self::LIMIT), it is then written too. After an error the buffer is empty, and a
    /// prefix of its old bytes and `text` was written.
    pub fn put<W: Sink>(&mut self, sink: &mut W, text: &[u8]) -> Result<(), DeviceFailed>
        requires { (W.state sink.old).failed < 2 ^ 64 - 1 }
        ensures whole { OnOk result (Sends (W.state sink.old).contents (W.state sink.new).contents
            (self.old ++ text.now) self.new) }
        ensures part { AppendsPrefix (W.state sink.old).contents (W.state sink.new).contents
            (self.old ++ text.now) }
        ensures buffered { length self.old + length text.now ≤ Output.LIMIT
            → IsOk result × (self.new ≡ self.old ++ text.now) }
        ensures alone { Output.LIMIT < length self.old + length text.now → length text.now ≤ Output.LIMIT
            → OnOk result (self.new ≡ text.now) }
        ensures dropped { OnErr result (self.new ≡ []) }
        ensures count { CountsFailure result (W.state sink.old).failed (W.state sink.new).failed }
    {
        if text.len() <= Output::LIMIT - self.text.len() {
            self.text.extend_from_slice(text).unwrap();
            return Ok(());
        }
        self.flush(sink)?;
        if text.len() > Output::LIMIT {
            return write_all(sink, text);
        }
        self.text.extend_from_slice(text).unwrap();
        Ok(())
    }

    /// Appends the strings in order, each as [`put`](Self::put) does, up to the first error.
    pub fn put_all<W: Sink>(&mut self, sink: &mut W, texts: &[&str]) -> Result<(), DeviceFailed>
        requires { (W.state sink.old).failed < 2 ^ 64 - 1 }
        ensures whole { OnOk result (Sends (W.state sink.old).contents (W.state sink.new).contents
            (self.old ++ joined texts.now) self.new) }
        ensures part { AppendsPrefix (W.state sink.old).contents (W.state sink.new).contents
            (self.old ++ joined texts.now) }
        ensures buffered { length self.old + length (joined texts.now) ≤ Output.LIMIT
            → IsOk result × (self.new ≡ self.old ++ joined texts.now) }
        ensures dropped { OnErr result (self.new ≡ []) }
        ensures count { CountsFailure result (W.state sink.old).failed (W.state sink.new).failed }
    {
        for text in texts {
            self.put(sink, text.as_bytes())?;
        }
        Ok(())
    }

    /// Writes the bytes of the buffer. The buffer is empty afterwards, also after an error.
    pub fn flush<W: Sink>(&mut self, sink: &mut W) -> Result<(), DeviceFailed>
        requires { (W.state sink.old).failed < 2 ^ 64 - 1 }
        ensures whole { OnOk result (Appends (W.state sink.old).contents (W.state sink.new).contents self.old) }
        ensures part { AppendsPrefix (W.state sink.old).contents (W.state sink.new).contents self.old }
        ensures empty { self.new ≡ [] }
        ensures idle { self.old ≡ [] → IsOk result }
        ensures count { CountsFailure result (W.state sink.old).failed (W.state sink.new).failed }
    {
        let outcome = write_all(sink, &self.text);
        self.text.clear();
        outcome
    }
}
