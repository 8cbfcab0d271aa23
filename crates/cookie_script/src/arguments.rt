//! The command-line arguments.
ghost use Rattle.std.specs.Prelude.{◌≡◌, ◌≤◌, drop, map, option_map, string_bytes, IfErr, IfOk, IfSome};
ghost use Rattle.std.specs.IoError.{error_kind};
ghost use Rattle.std.specs.Result.{result_ok};
ghost use Rattle.cookie_script.specs.Arguments.{limit_of, option_alone, set_option, options_of, options_value};
ghost use Rattle.cookie_script.specs.Errors.{arguments_error};

use crate::error::{MainFault, RunFault};
use crate::options::Options;
use cookie_words::is_digits;
use std::io;

/// Returns the arguments after the first one, which is the program's name.
pub fn own_arguments(words: &[String]) -> &[String]
    ensures { result.now ≡ drop 1 words.now }
{
    words.get(1..).unwrap_or(&[])
}

/// Returns the error for arguments that cannot be read: `Run(Memory)` if memory ran out, otherwise
/// `BadArguments`, as for an argument that is not UTF-8.
pub fn arguments_error(error: io::Error) -> MainFault
    ensures { result ≡ arguments_error (error_kind error) }
{
    match error.kind() {
        io::ErrorKind::OutOfMemory => MainFault::Run(RunFault::Memory),
        _ => MainFault::BadArguments,
    }
}

/// Parses the command-line arguments without the program's name: none, `--convert` alone, or
/// `--suffixes FILE` and `--limit N` in either order, one or both.
///
/// `N` is a decimal number from 1 to `usize::MAX`. Anything else is `BadArguments`.
pub fn options(words: &[String]) -> Result<Options<'_>, MainFault>
    ensures value { option_map options_value (result_ok result) ≡ options_of (map string_bytes words.now) }
    ensures errors { IfErr result (λ fault. fault ≡ MainFault.BadArguments) }
    ensures limit { IfOk result (λ options. IfSome options.limit (λ limit. 1 ≤ limit)) }
{
    let none = Options {
        suffixes: None,
        limit: None,
        convert: false,
    };
    match words {
        [] => Ok(none),
        [word] => alone(none, word.as_str()),
        [option, word] => with_option(none, option.as_str(), word.as_str()),
        [option, word, other, second] => {
            let options = with_option(none, option.as_str(), word.as_str())?;
            with_option(options, other.as_str(), second.as_str())
        }
        _ => Err(MainFault::BadArguments),
    }
}

// Sets the option that stands alone.
fn alone<'a>(options: Options<'a>, word: &str) -> Result<Options<'a>, MainFault>
    requires limit { IfSome options.limit (λ limit. 1 ≤ limit) }
    ensures value { option_map options_value (result_ok result) ≡ option_alone word.now (options_value options.entry) }
    ensures errors { IfErr result (λ fault. fault ≡ MainFault.BadArguments) }
    ensures limit { IfOk result (λ options. IfSome options.limit (λ limit. 1 ≤ limit)) }
{
    match word {
        "--convert" => Ok(Options {
            convert: true,
            ..options
        }),
        _ => Err(MainFault::BadArguments),
    }
}

// Sets an option with a value, which must not be set already.
fn with_option<'a>(
    options: Options<'a>,
    option: &str,
    word: &'a str,
) -> Result<Options<'a>, MainFault>
    requires limit { IfSome options.limit (λ limit. 1 ≤ limit) }
    ensures value { option_map options_value (result_ok result) ≡ set_option option.now word.now (options_value options.entry) }
    ensures errors { IfErr result (λ fault. fault ≡ MainFault.BadArguments) }
    ensures limit { IfOk result (λ options. IfSome options.limit (λ limit. 1 ≤ limit)) }
{
    if option == "--suffixes" && options.suffixes.is_none() {
        return Ok(Options {
            suffixes: Some(word),
            ..options
        });
    }
    if option == "--limit" && options.limit.is_none() {
        return match limit_of(word) {
            Some(limit) => Ok(Options {
                limit: Some(limit),
                ..options
            }),
            None => Err(MainFault::BadArguments),
        };
    }
    Err(MainFault::BadArguments)
}

// Parses a decimal number from 1 to `usize::MAX`.
fn limit_of(word: &str) -> Option<usize>
    ensures value { result ≡ limit_of word.now }
    ensures limit { IfSome result (λ limit. 1 ≤ limit) }
{
    if !is_digits(word) {
        return None;
    }
    match word.parse::<usize>() {
        Ok(limit) if limit > 0 => Some(limit),
        _ => None,
    }
}
