//! Loading a store.
ghost use Rattle.std.specs.Prelude.{◌≡◌, ◌⊎◌, Err, None, Ok, IfErr, IfOk, IsOk};
ghost use Rattle.cookie_store_c.specs.Inputs.{text_in};
ghost use Rattle.cookie_store_c.specs.LoadedStores.{malformed_line, numbers_of, rejected, reported, to_load, Loads, LoadsBy};
ghost use Rattle.cookie_store_c.specs.Options.{options_in, view};
ghost use Rattle.cookie_store_c.specs.Statuses.{format_error_status};

use crate::calls::hash_key;
use crate::inputs::text_in;
use crate::options::{Options, options_in};
use crate::status::Status;
use cookie_store::serde::netscape::{WellFormed, from_text_well_formed};
use cookie_store::serde::{FormatError, from_text_as};
use cookie_store::{HashKey, StoreAlloc};
use std::alloc::Global;

/// Why a store was not loaded.
#[derive(Drop)]
pub struct Rejection {
    /// The status of the error.
    pub status: Status,
    /// The number of the malformed line, if there is one.
    pub line: Option<usize>,
}

impl From<Status> for Rejection {
    ghost use Rattle.std.specs.Prelude.{◌≡◌, None};

    ghost from_gives = { λ status rejection. rejection ≡ record { status = status; line = None } };

    fn from(status: Status) -> Rejection {
        Rejection { status, line: None }
    }
}

/// Returns a store of those of the cookies that are loaded, and the numbers of the malformed lines that
/// are left out. Its maps hash by `key`.
pub(crate) fn load(
    alloc: Global,
    key: &[u8],
    format: u32,
    which: u32,
    list: &[u8],
    now: i64,
) -> Result<WellFormed, Rejection>
    ensures loaded { IfOk result (λ loaded. Loads (to_load (options_in format which now) list.now) (reported loaded.store loaded.malformed.items)) }
    ensures rejected { IfErr result (λ why. Loads (to_load (options_in format which now) list.now) (rejected why.status (numbers_of why.line))
        ⊎ ((why.status ≡ Status.NoMemory) × (why.line ≡ None) × IsOk (to_load (options_in format which now) list.now))) }
{
    match options_in(format, which, now) {
        Ok(options) => loaded(alloc, key, list, options),
        Err(status) => Err(Rejection::from(status)),
    }
}

// Loads a store with these options.
fn loaded(alloc: Global, key: &[u8], list: &[u8], options: Options) -> Result<WellFormed, Rejection>
    ensures loaded { IfOk result (λ loaded. Loads (to_load (Ok (view options)) list.now) (reported loaded.store loaded.malformed.items)) }
    ensures rejected { IfErr result (λ why. Loads (to_load (Ok (view options)) list.now) (rejected why.status (numbers_of why.line))
        ⊎ ((why.status ≡ Status.NoMemory) × (why.line ≡ None) × IsOk (to_load (Ok (view options)) list.now))) }
{
    match text_and_key(list, key) {
        Ok((text, hash_key)) => parsed(StoreAlloc { alloc, hash_key }, text, options),
        Err(status) => Err(Rejection::from(status)),
    }
}

// Returns the list as a string, and the hash key made of these bytes.
fn text_and_key<'l>(list: &'l [u8], key: &[u8]) -> Result<(&'l str, HashKey), Status>
    ensures text { IfOk result (λ inputs. text_in list.now ≡ Ok inputs.0.now) }
    ensures errors { IfErr result (λ status. (text_in list.now ≡ Err status) ⊎ ((status ≡ Status.NoMemory) × IsOk (text_in list.now))) }
{
    let text = text_in(list)?;
    Ok((text, hash_key(key)?))
}

// Parses a string into a store.
fn parsed(alloc: StoreAlloc, text: &str, options: Options) -> Result<WellFormed, Rejection>
    ensures loaded { IfOk result (λ loaded. LoadsBy options.is_lenient (view options) text.now (reported loaded.store loaded.malformed.items)) }
    ensures rejected { IfErr result (λ why. LoadsBy options.is_lenient (view options) text.now (rejected why.status (numbers_of why.line))
        ⊎ ((why.status ≡ Status.NoMemory) × (why.line ≡ None))) }
{
    if options.is_lenient {
        return match from_text_well_formed(alloc, text, options.which) {
            Ok(loaded) => Ok(loaded),
            Err(_) => Err(Rejection::from(Status::NoMemory)),
        };
    }
    match from_text_as(alloc, text, options.format, options.which) {
        Ok(store) => Ok(WellFormed {
            store,
            malformed: Vec::new(alloc.alloc),
        }),
        Err(error) => Err(rejection_of(error)),
    }
}

// Returns the status of the error, and its malformed line.
fn rejection_of(error: FormatError) -> Rejection
    ensures status { result.status ≡ format_error_status error }
    ensures line { numbers_of result.line ≡ malformed_line error }
{
    let line = match error {
        FormatError::BadLine { line } => Some(line),
        _ => None,
    };
    Rejection {
        status: Status::of_format_error(error),
        line,
    }
}
