//! Saving a store.
ghost use Rattle.std.specs.Prelude.{◌≡◌, ◌⊎◌, ◌++◌, ◌∷◌, [], Ok, Err, IfErr, IfOk, IsOk, string_bytes};
ghost use Rattle.cookie_store_c.specs.Buffers.{WritesText};
ghost use Rattle.cookie_store_c.specs.Options.{options_in, view};
ghost use Rattle.cookie_store_c.specs.SavedStores.{count_with, left_out, left_out_in, saved, saved_in};

use crate::buffer::{copy_out, with_line_feed};
use crate::options::{Options, options_in};
use crate::status::Status;
use cookie_store::CookieStore;
use cookie_store::serde::netscape::{Representable, to_text_representable};
use cookie_store::serde::to_text_as;

/// Writes the rows that are saved into `out`, `needed` their length, and `left_out` the number of rows
/// that the format cannot represent, 0 on any error but `NoRoom`.
pub(crate) fn save(
    store: &CookieStore,
    format: u32,
    which: u32,
    now: i64,
    out: &mut [u8],
    needed: &mut usize,
    left_out: &mut usize,
) -> Status
    ensures text { WritesText (saved_in (options_in format which now) store.now.rows) (IsOk (saved_in (options_in format which now) store.now.rows))
        out.old result out.new needed.new }
    ensures left_out { left_out.new ≡ count_with result (left_out_in (options_in format which now) store.now.rows) }
{
    let outcome = match options_in(format, which, now) {
        Ok(options) => saved(store, options),
        Err(status) => Err(status),
    };
    match outcome {
        Ok((text, count)) => {
            *left_out = count;
            copy_out(Ok(text), out, needed)
        }
        Err(status) => {
            *left_out = 0;
            copy_out(Err(status), out, needed)
        }
    }
}

// Returns the rows that are saved, and the number of those that are left out.
fn saved(store: &CookieStore, options: Options) -> Result<(Vec<u8>, usize), Status>
    ensures text { IfOk result (λ file. saved (view options) store.now.rows ≡ Ok file.0.items) }
    ensures left_out { IfOk result (λ file. file.1 ≡ left_out (view options) store.now.rows) }
    ensures errors { IfErr result (λ status. (saved (view options) store.now.rows ≡ Err status)
        ⊎ ((status ≡ Status.NoMemory) × IsOk (saved (view options) store.now.rows))) }
{
    let file = written(store, options)?;
    Ok((with_line_feed(file.text)?, file.left_out))
}

// Returns the rows that are saved, without the line feed at the end, and the number of those that are
// left out.
fn written(store: &CookieStore, options: Options) -> Result<Representable, Status>
    ensures text { IfOk result (λ file. saved (view options) store.now.rows ≡ Ok (string_bytes file.text ++ 10 ∷ [])) }
    ensures left_out { IfOk result (λ file. file.left_out ≡ left_out (view options) store.now.rows) }
    ensures errors { IfErr result (λ status. (saved (view options) store.now.rows ≡ Err status)
        ⊎ ((status ≡ Status.NoMemory) × IsOk (saved (view options) store.now.rows))) }
{
    if options.is_lenient {
        return match to_text_representable(store, options.which) {
            Ok(file) => Ok(file),
            Err(_) => Err(Status::NoMemory),
        };
    }
    match to_text_as(store, options.format, options.which) {
        Ok(text) => Ok(Representable { text, left_out: 0 }),
        Err(error) => Err(Status::of_format_error(error)),
    }
}
