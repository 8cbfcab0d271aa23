//! How a C program asks for a store to be saved or loaded.
ghost use Rattle.std.specs.Prelude.{◌≡◌};
ghost use Rattle.std.specs.Result.{result_map_both};
ghost use Rattle.cookie_serde.specs.Selections.{is_selected};
ghost use Rattle.cookie_store_c.specs.Options.{format_in, options_in, selection_in, view};

use crate::inputs::moment_in;
use crate::status::Status;
use cookie_store::serde::{Format, Which};

/// How a store is saved or loaded.
#[derive(Clone, Copy)]
pub struct Options {
    /// The format.
    pub format: Format,
    /// Whether malformed lines of a `cookies.txt`, and cookies that it cannot represent, are left out.
    pub is_lenient: bool,
    /// The cookies that are saved or loaded.
    pub which: Which,
}

/// Returns the options of these numbers of `enum cookie_store_format` and `enum cookie_store_which`,
/// at the time `now` seconds after the epoch.
///
/// The errors are `BadOption` and `BadTime`, checked in this order.
pub(crate) fn options_in(format: u32, which: u32, now: i64) -> Result<Options, Status>
    ensures { result_map_both view (λ status. status) result ≡ options_in format which now }
{
    let (format, is_lenient) = format_in(format)?;
    let which = selection_in(which, now)?;
    Ok(Options {
        format,
        is_lenient,
        which,
    })
}

// Returns the format of this number, and whether what does not fit it is left out.
fn format_in(number: u32) -> Result<(Format, bool), Status>
    ensures { result ≡ format_in number }
{
    match number {
        0 => Ok((Format::Json, false)),
        1 => Ok((Format::Ron, false)),
        2 => Ok((Format::Netscape, false)),
        3 => Ok((Format::Netscape, true)),
        _ => Err(Status::BadOption),
    }
}

// Returns the cookies of this number, at the time `now` seconds after the epoch.
fn selection_in(number: u32, now: i64) -> Result<Which, Status>
    ensures { result_map_both is_selected (λ status. status) result ≡ selection_in number now }
{
    if number > 2 {
        return Err(Status::BadOption);
    }
    let now = moment_in(now)?;
    match number {
        0 => Ok(Which::All),
        1 => Ok(Which::Unexpired(now)),
        _ => Ok(Which::Persistent(now)),
    }
}
