//! Runs a script, from the bytes read to the bytes written.
ghost use Rattle.std.specs.Prelude.{◌≡◌, ℕ, ◌+◌, ◌-◌, ◌^◌, ◌<◌, ◌≤◌, ◌++◌, ◌⊎◌, Err, IfSome, IsTrue, OnOk, length};
ghost use Rattle.std.specs.Io.KnownBytes.{Appends};
ghost use Rattle.cookie_device.specs.Device.{AppendsPrefix, Sends};
ghost use Rattle.cookie_script.specs.Commands.{may_allocate};
ghost use Rattle.cookie_script.specs.Errors.{CountsRunFailure};
ghost use Rattle.cookie_script.specs.Progress.{WritesOutputOfFirstLines, WritesRest, AreRead, NextMayAllocate};
ghost use Rattle.cookie_script.specs.Script.{empty, output_of, run_line, start};

use crate::error::RunFault;
use crate::jar::Jar;
use cookie_device::{LineBuffer, Output, Sink, Source};
use cookie_store::StoreAlloc;
use cookie_store::psl::List;
use std::alloc::Global;

/// Runs the script read from `source`, and writes its output to `sink`.
///
/// The store is under the public suffix list and the limit of cookies per domain, if there are any.
///
/// # Errors
///
/// - `Read`: a read failed. The output of all whole lines that were read was written, and nothing
///   else.
/// - `Write`: a write failed. A prefix of the output was written.
/// - `Memory`: out of memory. The output of all whole lines that were read was written, or that of
///   the lines before one that may allocate.
pub fn run<A: Into<StoreAlloc>, R: Source, W: Sink>(
    alloc: A,
    source: &mut R,
    sink: &mut W,
    list: Option<List>,
    limit: Option<usize>,
) -> Result<(), RunFault>
    requires limit { IfSome limit (λ limit. 1 ≤ limit) }
    requires readable { (R.state source.old).failed < 2 ^ 64 - 1 }
    requires writable { (W.state sink.old).failed < 2 ^ 64 - 1 }
    ensures whole { OnOk result (IfSome (R.state source.old).remaining (λ input.
        Appends (W.state sink.old).contents (W.state sink.new).contents (output_of (empty list limit) input))) }
    ensures part { IfSome (R.state source.old).remaining (λ input.
        AppendsPrefix (W.state sink.old).contents (W.state sink.new).contents (output_of (empty list limit) input)) }
    ensures read { result ≡ Err RunFault.Read → IfSome (R.state source.old).remaining (λ input.
        WritesOutputOfFirstLines (empty list limit) input (λ first more. AreRead input (R.state source.new).remaining first)
        (Appends (W.state sink.old).contents (W.state sink.new).contents)) }
    ensures memory { result ≡ Err RunFault.Memory → IfSome (R.state source.old).remaining (λ input.
        WritesOutputOfFirstLines (empty list limit) input (λ first more. AreRead input (R.state source.new).remaining first ⊎ NextMayAllocate more)
        (Appends (W.state sink.old).contents (W.state sink.new).contents)) }
    ensures count { CountsRunFailure result (R.state source.old).failed (R.state source.new).failed (W.state sink.old).failed (W.state sink.new).failed }
    ensures reads { IfSome (R.state source.old).remaining (λ input.
        (R.state source.old).reads_left ≤ (R.state source.new).reads_left + length input + 1) }
{
    let alloc = alloc.into();
    let mut out = Output::new(alloc.alloc)?;
    let mut jar = Jar::new(alloc, list, limit);
    let outcome = run_and_buffer_lines(alloc.alloc, &mut jar, source, &mut out, sink);
    write_rest(outcome, &mut out, sink)
}

// Writes what is still buffered, unless a read or a write failed.
fn write_rest<W: Sink>(
    outcome: Result<(), RunFault>,
    out: &mut Output,
    sink: &mut W,
) -> Result<(), RunFault>
    requires { (outcome ≡ Err RunFault.Write) ⊎ ((W.state sink.old).failed < 2 ^ 64 - 1) }
    ensures { WritesRest outcome result (W.state sink.old) (W.state sink.new) out.old }
{
    match outcome {
        Err(RunFault::Memory) => {
            out.flush(sink)?;
            Err(RunFault::Memory)
        }
        Err(fault) => Err(fault),
        Ok(()) => Ok(out.flush(sink)?),
    }
}

// Runs the lines of the source up to its end, in a jar that has run none.
fn run_and_buffer_lines<R: Source, W: Sink>(
    alloc: Global,
    jar: &mut Jar,
    source: &mut R,
    out: &mut Output,
    sink: &mut W,
) -> Result<(), RunFault>
    requires start { jar.old ≡ start jar.old.store }
    requires readable { (R.state source.old).failed < 2 ^ 64 - 1 }
    requires writable { (W.state sink.old).failed < 2 ^ 64 - 1 }
    ensures whole { OnOk result (IfSome (R.state source.old).remaining (λ input.
        Sends (W.state sink.old).contents (W.state sink.new).contents (out.old ++ output_of jar.old.store input) out.new)) }
    ensures part { IfSome (R.state source.old).remaining (λ input.
        AppendsPrefix (W.state sink.old).contents (W.state sink.new).contents (out.old ++ output_of jar.old.store input)) }
    ensures read { result ≡ Err RunFault.Read → IfSome (R.state source.old).remaining (λ input.
        WritesOutputOfFirstLines jar.old.store input (λ first more. AreRead input (R.state source.new).remaining first)
        (λ text. Appends (W.state sink.old).contents (W.state sink.new).contents (out.old ++ text))) }
    ensures memory { result ≡ Err RunFault.Memory → IfSome (R.state source.old).remaining (λ input.
        WritesOutputOfFirstLines jar.old.store input (λ first more. AreRead input (R.state source.new).remaining first ⊎ NextMayAllocate more)
        (λ text. Sends (W.state sink.old).contents (W.state sink.new).contents (out.old ++ text) out.new)) }
    ensures count { CountsRunFailure result (R.state source.old).failed (R.state source.new).failed (W.state sink.old).failed (W.state sink.new).failed }
    ensures reads { IfSome (R.state source.old).remaining (λ input.
        (R.state source.old).reads_left ≤ (R.state source.new).reads_left + length input + 1) }
{
    let mut input = LineBuffer::new(alloc);
    // for the checker: the label names the loop's invariant
    'lines: loop {
        if let Some(end) = input.line_end() {
            run_and_buffer_line(alloc, jar, input.line(end), out, sink)?;
            input.pass(end + 1);
        } else {
            // A peer gets the output of each line before it has to send the next one.
            out.flush(sink)?;
            if !input.fill(source)? {
                break;
            }
        }
    }
    if input.rest().is_empty() {
        return Ok(());
    }
    run_and_buffer_line(alloc, jar, input.rest(), out, sink)
}

// Runs a line, and buffers its output.
fn run_and_buffer_line<W: Sink>(
    alloc: Global,
    jar: &mut Jar,
    line: &[u8],
    out: &mut Output,
    sink: &mut W,
) -> Result<(), RunFault>
    requires { (W.state sink.old).failed < 2 ^ 64 - 1 }
    ensures state { OnOk result (jar.new ≡ (run_line line.now jar.old).state) }
    ensures whole { OnOk result (Sends (W.state sink.old).contents (W.state sink.new).contents
        (out.old ++ (run_line line.now jar.old).text) out.new) }
    ensures part { AppendsPrefix (W.state sink.old).contents (W.state sink.new).contents
        (out.old ++ (run_line line.now jar.old).text) }
    ensures memory { result ≡ Err RunFault.Memory → IsTrue (may_allocate line.now)
        × (out.new ≡ out.old) × ((W.state sink.new).contents ≡ (W.state sink.old).contents) }
    ensures count { (reads : ℕ) → CountsRunFailure result reads reads (W.state sink.old).failed (W.state sink.new).failed }
{
    let line_result = jar.run_line(alloc, line)?;
    Ok(jar.line_output(line_result)?.put(out, sink)?)
}
