//! The reader and writer traits of the crates above.
ghost use Rattle.std.specs.Prelude.{◌≡◌, ◌+◌, ◌-◌, ◌^◌, ◌<◌, [], ◌∷◌, ◌++◌, length, IfOk, IsOk, OnErr, OnOk};
ghost use Rattle.std.specs.Io.{ReadsAtMost, WritesAtMost};
ghost use Rattle.std.specs.Io.KnownBytes.{Appends, ReadConsumes, WriteAppends};
ghost use Rattle.cookie_device.specs.Device.{AppendsPrefix, CountsFailure, SinkState, SourceState};

/// The error of a failed read or write.
#[derive(Clone, Copy, Debug, PartialEq, Eq)]
pub struct DeviceFailed;

/// A reader. Each read may fail, and only finitely many can succeed.
pub trait Source {
    // What is left to be read, the failed calls, and the reads that may still succeed.
    ghost state: { Self → SourceState };

    /// Reads once into `buf` and returns the number of bytes read. `Ok(0)` means that the source is
    /// at its end or that `buf` is empty.
    fn read(&mut self, buf: &mut [u8]) -> Result<usize, DeviceFailed>
        requires { (state self.old).failed < 2 ^ 64 - 1 }
        ensures bound { ReadsAtMost result buf.new }
        ensures bytes { ReadConsumes (state self.old).remaining (state self.new).remaining result buf.new }
        ensures count { CountsFailure result (state self.old).failed (state self.new).failed }
        ensures fewer { OnOk result ((state self.old).reads_left ≡ (state self.new).reads_left + 1) }
        ensures as_many { OnErr result ((state self.new).reads_left ≡ (state self.old).reads_left) };

    /// Returns the number of failed calls.
    fn failures(&self) -> u64
        ensures { result ≡ (state self.now).failed };
}

/// A writer. Each write may fail.
pub trait Sink {
    // What was written, and the failed calls.
    ghost state: { Self → SinkState };

    /// Writes once and returns how many bytes from the start of `buf` were written: at least one,
    /// unless `buf` is empty.
    fn write(&mut self, buf: &[u8]) -> Result<usize, DeviceFailed>
        requires { (state self.old).failed < 2 ^ 64 - 1 }
        ensures bound { WritesAtMost result buf.now }
        ensures some { 0 < length buf.now → IfOk result (λ n. 0 < n) }
        ensures bytes { WriteAppends (state self.old).contents (state self.new).contents result buf.now }
        ensures count { CountsFailure result (state self.old).failed (state self.new).failed };

    /// Returns the number of failed calls.
    fn failures(&self) -> u64
        ensures { result ≡ (state self.now).failed };
}

/// Writes all of `bytes`, in as many calls as the sink needs.
///
/// After an error, a prefix of `bytes` was written: possibly none or all of it.
pub fn write_all<W: Sink>(sink: &mut W, bytes: &[u8]) -> Result<(), DeviceFailed>
    requires { (W.state sink.old).failed < 2 ^ 64 - 1 }
    ensures whole { OnOk result (Appends (W.state sink.old).contents (W.state sink.new).contents bytes.now) }
    ensures part { AppendsPrefix (W.state sink.old).contents (W.state sink.new).contents bytes.now }
    ensures idle { bytes.now ≡ [] → IsOk result }
    ensures count { CountsFailure result (W.state sink.old).failed (W.state sink.new).failed }
{
    let mut rest = bytes;
    while !rest.is_empty() {
        let taken = sink.write(rest)?;
        rest = &rest[taken..];
    }
    Ok(())
}

/// Writes `text` and a line feed.
///
/// After an error, a prefix of these bytes was written: possibly none or all of it.
pub fn write_line<W: Sink>(sink: &mut W, text: &[u8]) -> Result<(), DeviceFailed>
    requires { (W.state sink.old).failed < 2 ^ 64 - 1 }
    ensures whole { OnOk result (Appends (W.state sink.old).contents (W.state sink.new).contents (text.now ++ 10 ∷ [])) }
    ensures part { AppendsPrefix (W.state sink.old).contents (W.state sink.new).contents (text.now ++ 10 ∷ []) }
    ensures count { CountsFailure result (W.state sink.old).failed (W.state sink.new).failed }
{
    write_all(sink, text)?;
    write_all(sink, b"\n")
}
