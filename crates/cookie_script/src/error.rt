//! The errors of the program.
ghost use Rattle.std.specs.Prelude.{◌≡◌};
ghost use Rattle.cookie_script.specs.Errors.{status_of};

use cookie_device::{DeviceFailed, FillError};
use cookie_store::psl::ListError;
use cookie_store::serde::MigrateError;
use itoa::Buffer;
use std::alloc::AllocError;
use std::{fmt, io};

/// The error of a script.
#[derive(Clone, Copy, Debug, PartialEq, Eq)]
pub enum RunFault {
    /// Reading the script failed.
    Read,
    /// Writing the output failed.
    Write,
    /// Out of memory.
    Memory,
}

impl From<AllocError> for RunFault {
    ghost use Rattle.cookie_script.specs.declared.error.RunFault.TheVariants.{Memory};

    ghost from_gives = { λ _ fault. fault ≡ Memory };

    fn from(_error: AllocError) -> RunFault {
        RunFault::Memory
    }
}

// Only a sink fails with `DeviceFailed` here: a source fails with a `FillError`.
impl From<DeviceFailed> for RunFault {
    ghost use Rattle.cookie_script.specs.declared.error.RunFault.TheVariants.{Write};

    ghost from_gives = { λ _ fault. fault ≡ Write };

    fn from(_error: DeviceFailed) -> RunFault {
        RunFault::Write
    }
}

impl From<FillError> for RunFault {
    ghost use Rattle.cookie_script.specs.Errors.{run_error_of_fill};

    ghost from_gives = { λ error fault. fault ≡ run_error_of_fill error };

    fn from(error: FillError) -> RunFault {
        match error {
            FillError::Read => RunFault::Read,
            FillError::Memory => RunFault::Memory,
        }
    }
}

impl fmt::Display for RunFault {
    ghost use Rattle.std.specs.Prelude.{Some};
    ghost use Rattle.cookie_script.specs.Errors.{run_error_text};

    ghost output = { λ fault. Some (run_error_text fault) };

    ghost styled_output = { λ fault _. Some (run_error_text fault) };

    fn fmt<W: fmt::Write>(&self, f: &mut fmt::Formatter<W>) -> fmt::Result {
        f.write_str(match self {
            RunFault::Read => "read failed",
            RunFault::Write => "write failed",
            RunFault::Memory => "out of memory",
        })
    }
}

/// The error of a conversion.
#[derive(Clone, Copy, Debug, PartialEq, Eq)]
pub enum ConvertFault {
    /// Reading the lines failed.
    Read,
    /// Writing the list failed.
    Write,
    /// Out of memory.
    Memory,
    /// The first line that is not a saved cookie, counted from 1. The number saturates at
    /// `u64::MAX`.
    BadLine(u64),
}

impl From<MigrateError> for ConvertFault {
    ghost use Rattle.cookie_script.specs.Errors.{convert_error_of_migrate};

    ghost from_gives = { λ error fault. fault ≡ convert_error_of_migrate error };

    fn from(error: MigrateError) -> ConvertFault {
        match error {
            MigrateError::Line { line, .. } => ConvertFault::BadLine(line),
            MigrateError::Io => ConvertFault::Read,
            MigrateError::Memory => ConvertFault::Memory,
        }
    }
}

impl fmt::Display for ConvertFault {
    ghost use Rattle.std.specs.Prelude.{Some};
    ghost use Rattle.cookie_script.specs.Errors.{convert_error_text};

    ghost output = { λ fault. Some (convert_error_text fault) };

    ghost styled_output = { λ fault _. Some (convert_error_text fault) };

    fn fmt<W: fmt::Write>(&self, f: &mut fmt::Formatter<W>) -> fmt::Result {
        match self {
            ConvertFault::Read => f.write_str("read failed"),
            ConvertFault::Write => f.write_str("write failed"),
            ConvertFault::Memory => f.write_str("out of memory"),
            ConvertFault::BadLine(line) => {
                f.write_str("bad line ")?;
                f.write_str(Buffer::new().format(*line))
            }
        }
    }
}

/// The error of the program.
#[derive(Clone, Copy, Debug, PartialEq, Eq)]
pub enum MainFault {
    /// The arguments are invalid.
    BadArguments,
    /// The file of the public suffix list cannot be read, or is not UTF-8.
    CannotReadList,
    /// The first malformed line of the public suffix list, counted from 1.
    BadRule(usize),
    /// The system returned no random bytes for the hash key.
    NoRandomKey,
    /// Running the script failed.
    Run(RunFault),
    /// Converting lines of JSON failed.
    Convert(ConvertFault),
}

impl MainFault {
    /// Returns the exit status:
    /// - 1: a read or a write of the script or of a conversion failed, or the system returned no
    ///   random hash key.
    /// - 2: bad arguments, a list that cannot be read or has a malformed line, or a line that is
    ///   not a saved cookie.
    /// - 3: out of memory.
    pub fn status(&self) -> u8
        ensures { result ≡ status_of self.now }
    {
        match self {
            MainFault::BadArguments | MainFault::CannotReadList | MainFault::BadRule(_) => 2,
            MainFault::NoRandomKey => 1,
            MainFault::Run(RunFault::Read | RunFault::Write) => 1,
            MainFault::Run(RunFault::Memory) => 3,
            MainFault::Convert(ConvertFault::Read | ConvertFault::Write) => 1,
            MainFault::Convert(ConvertFault::BadLine(_)) => 2,
            MainFault::Convert(ConvertFault::Memory) => 3,
        }
    }
}

impl From<AllocError> for MainFault {
    ghost use Rattle.cookie_script.specs.declared.error.MainFault.TheVariants.{Run};
    ghost use Rattle.cookie_script.specs.declared.error.RunFault.TheVariants.{Memory};

    ghost from_gives = { λ _ fault. fault ≡ Run Memory };

    fn from(_error: AllocError) -> MainFault {
        MainFault::Run(RunFault::Memory)
    }
}

impl From<RunFault> for MainFault {
    ghost use Rattle.cookie_script.specs.declared.error.MainFault.TheVariants.{Run};

    ghost from_gives = { λ error fault. fault ≡ Run error };

    fn from(error: RunFault) -> MainFault {
        MainFault::Run(error)
    }
}

impl From<ConvertFault> for MainFault {
    ghost use Rattle.cookie_script.specs.declared.error.MainFault.TheVariants.{Convert};

    ghost from_gives = { λ error fault. fault ≡ Convert error };

    fn from(error: ConvertFault) -> MainFault {
        MainFault::Convert(error)
    }
}

impl From<ListError> for MainFault {
    ghost use Rattle.cookie_script.specs.Errors.{main_error_of_list};

    ghost from_gives = { λ error fault. fault ≡ main_error_of_list error };

    fn from(error: ListError) -> MainFault {
        match error {
            ListError::BadRule { line } => MainFault::BadRule(line),
            ListError::Memory => MainFault::Run(RunFault::Memory),
        }
    }
}

/// Returns the error for failing to get a random hash key.
pub fn random_key_error(_error: io::Error) -> MainFault
    ensures { result ≡ MainFault.NoRandomKey }
{
    MainFault::NoRandomKey
}

/// Formats the whole line for standard error, without its line feed.
impl fmt::Display for MainFault {
    ghost use Rattle.std.specs.Prelude.{Some};
    ghost use Rattle.cookie_script.specs.Errors.{main_error_text};

    ghost output = { λ fault. Some (main_error_text fault) };

    ghost styled_output = { λ fault _. Some (main_error_text fault) };

    fn fmt<W: fmt::Write>(&self, f: &mut fmt::Formatter<W>) -> fmt::Result {
        match self {
            MainFault::BadArguments => f.write_str("cookie_jar: bad arguments"),
            MainFault::CannotReadList => f.write_str("cookie_jar: cannot read list"),
            MainFault::BadRule(line) => {
                f.write_str("cookie_jar: bad rule in line ")?;
                f.write_str(Buffer::new().format(*line))
            }
            MainFault::NoRandomKey => f.write_str("cookie_jar: cannot get a random hash key"),
            MainFault::Run(fault) => {
                f.write_str("cookie_jar: ")?;
                fault.fmt(f)
            }
            MainFault::Convert(fault) => {
                f.write_str("cookie_jar: ")?;
                fault.fmt(f)
            }
        }
    }
}
