//! Reads the public suffix list of a file.
ghost use Rattle.std.specs.Prelude.{◌≡◌, false, Err};
ghost use Rattle.std.specs.IoError.{error_kind};
ghost use Rattle.std.specs.Result.{result_map_both};
ghost use Rattle.std.specs.Str.{is_utf8};
ghost use Rattle.cookie_script.specs.Errors.{list_file_error, main_error_of_list};
ghost use Rattle.cookie_script.specs.ListFiles.{list_in_file, ParsesListFile};

use crate::error::{MainFault, RunFault};
use cookie_store::psl::{List, ListError};
use std::alloc::Global;
use std::io;

/// Parses the public suffix list in the bytes of a file.
///
/// # Errors
///
/// In the order in which they are checked:
/// - `CannotReadList`: the bytes are not UTF-8.
/// - `BadRule`: a line is malformed, with the number of the first one.
/// - `Run(Memory)`: out of memory. May be returned instead of `BadRule`.
#[tactic(auto, unfolding(crate::specs::ListFiles::list_in_file))]
pub fn list_of(alloc: Global, bytes: &[u8]) -> Result<List, MainFault>
    ensures value { ParsesListFile result (list_in_file bytes.now) }
    ensures utf8 { is_utf8 bytes.now ≡ false → result ≡ Err MainFault.CannotReadList }
{
    let Ok(text) = str::from_utf8(bytes) else {
        return Err(MainFault::CannotReadList);
    };
    list_or_error(List::from_text(alloc, text))
}

// Maps the error of a list.
fn list_or_error(read: Result<List, ListError>) -> Result<List, MainFault>
    ensures { result ≡ result_map_both (λ list. list) main_error_of_list read }
{
    match read {
        Ok(list) => Ok(list),
        Err(error) => Err(MainFault::from(error)),
    }
}

/// Returns the error for a file that cannot be read: `Run(Memory)` if memory ran out, otherwise
/// `CannotReadList`.
pub fn list_file_error(error: io::Error) -> MainFault
    ensures { result ≡ list_file_error (error_kind error) }
{
    match error.kind() {
        io::ErrorKind::OutOfMemory => MainFault::Run(RunFault::Memory),
        _ => MainFault::CannotReadList,
    }
}
