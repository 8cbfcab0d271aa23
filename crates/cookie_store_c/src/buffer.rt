//! Writes strings into the caller's buffers.
ghost use Rattle.std.specs.Prelude.{◌≡◌, ℕ, ◌+◌, ◌^◌, ◌≤◌, ◌++◌, ◌∷◌, [], length, List, IfErr, IfOk, string_bytes};
ghost use Rattle.std.specs.Option.{MatchOption};
ghost use Rattle.std.specs.Result.{result_map_both};
ghost use Rattle.cookie_device.specs.Joined.{joined};
ghost use Rattle.cookie_store_c.specs.Buffers.{text_outcome, write_if_fits, IsFilledTo};
ghost use Rattle.cookie_store_c.specs.LoadedStores.{with_numbers};

use crate::status::Status;

/// Returns `total` plus the lengths of the strings, or `None` on overflow.
pub(crate) fn with_lengths(total: usize, texts: &[&str]) -> Option<usize>
    ensures { MatchOption result (2 ^ 64 ≤ total + length (joined texts.now)) (λ n. n ≡ total + length (joined texts.now)) }
{
    let mut sum = total;
    for text in texts {
        sum = sum.checked_add(text.len())?;
    }
    Some(sum)
}

/// Writes the strings one after the other from `place` on, and returns the place after them.
pub(crate) fn put_all(buffer: &mut [u8], place: usize, texts: &[&str]) -> usize
    requires { place + length (joined texts.now) ≤ length buffer.old }
    ensures end { result ≡ place + length (joined texts.now) }
    ensures long { length buffer.new ≡ length buffer.old }
    ensures stands { (prefix before : List ℕ) → IsFilledTo prefix before buffer.old place
        → IsFilledTo (prefix ++ joined texts.now) before buffer.new result }
{
    let mut end = place;
    for text in texts {
        end = put(buffer, end, text.as_bytes());
    }
    end
}

// Writes a string from `place` on, and returns the place after it.
fn put(buffer: &mut [u8], place: usize, text: &[u8]) -> usize
    requires { place + length text.now ≤ length buffer.old }
    ensures end { result ≡ place + length text.now }
    ensures long { length buffer.new ≡ length buffer.old }
    ensures stands { (prefix before : List ℕ) → IsFilledTo prefix before buffer.old place
        → IsFilledTo (prefix ++ text.now) before buffer.new result }
{
    let end = place + text.len();
    buffer[place..end].copy_from_slice(text);
    end
}

/// Copies the string into the start of the buffer, if it fits, and returns the status. `needed` is
/// set to its length.
pub(crate) fn copy_text(text: &str, buffer: &mut [u8], needed: &mut usize) -> Status
    ensures { record { status = result; buffer = buffer.new; needed = needed.new } ≡ write_if_fits text.now buffer.old }
{
    copy_bytes(text.as_bytes(), buffer, needed)
}

// Copies the bytes, as `copy_text` does.
fn copy_bytes(bytes: &[u8], buffer: &mut [u8], needed: &mut usize) -> Status
    ensures { record { status = result; buffer = buffer.new; needed = needed.new } ≡ write_if_fits bytes.now buffer.old }
{
    *needed = bytes.len();
    if buffer.len() < bytes.len() {
        return Status::NoRoom;
    }
    buffer[..bytes.len()].copy_from_slice(bytes);
    Status::Done
}

/// Copies `output` into the start of the buffer, if it is `Ok` and fits, and returns the status.
///
/// `needed` is set to its length, also if the result is `NoRoom`, and to 0 if `output` is an error.
pub(crate) fn copy_out(
    output: Result<Vec<u8>, Status>,
    buffer: &mut [u8],
    needed: &mut usize,
) -> Status
    ensures { record { status = result; buffer = buffer.new; needed = needed.new }
        ≡ text_outcome (result_map_both (λ text. text.items) (λ status. status) output) buffer.old }
{
    match output {
        Ok(text) => copy_bytes(text.as_slice(), buffer, needed),
        Err(status) => {
            *needed = 0;
            status
        }
    }
}

/// Copies the first of the numbers to the start of the buffer, as many as fit.
pub(crate) fn copy_numbers(numbers: &[usize], buffer: &mut [usize])
    ensures { buffer.new ≡ with_numbers numbers.now buffer.old }
{
    let count = numbers.len().min(buffer.len());
    buffer[..count].copy_from_slice(&numbers[..count]);
}

/// Returns the string and a line feed, or `NoMemory`.
pub(crate) fn with_line_feed(mut text: String) -> Result<Vec<u8>, Status>
    ensures bytes { IfOk result (λ bytes. bytes.items ≡ string_bytes text ++ 10 ∷ []) }
    ensures memory { IfErr result (λ status. status ≡ Status.NoMemory) }
{
    match text.push('\n') {
        Ok(()) => Ok(text.into_bytes()),
        Err(_) => Err(Status::NoMemory),
    }
}
