//! What a command that succeeds says on standard error.
ghost use Rattle.std.specs.Prelude.{IfOk, string_bytes};
ghost use Rattle.std.specs.Str.{NoCharPasses};
ghost use Rattle.cookies.specs.Escapes.{is_escaped};

use crate::escape::escaped;
use std::alloc::{AllocError, Global};
use std::fmt;

/// What a command says of a file.
#[derive(Clone, Copy, Debug, PartialEq, Eq)]
pub enum Note {
    /// The line of this number is malformed.
    Malformed(usize),
    /// The item of this number in an export is not a cookie.
    MalformedItem(usize),
    /// The number of cookies that were left out, since they are partitioned.
    Partitioned(usize),
    /// The number of cookies of Firefox that were left out, since they are of a partition or a container.
    Isolated(usize),
    /// The number of cookies that were left out, since the format cannot represent them.
    LeftOut(usize),
    /// The number of cookies that lost their SameSite attribute, which the format does not have.
    WithoutSameSite(usize),
}

impl fmt::Display for Note {
    fn fmt<W: fmt::Write>(&self, f: &mut fmt::Formatter<W>) -> fmt::Result {
        match self {
            Note::Malformed(line) => write!(f, "line {line} is not a cookie"),
            Note::MalformedItem(item) => write!(f, "item {item} is not a cookie"),
            Note::Partitioned(count) => {
                write!(f, "cookies left out, since they are partitioned: {count}")
            }
            Note::Isolated(count) => write!(
                f,
                "cookies left out, since they are of a partition or a container: {count}"
            ),
            Note::LeftOut(count) => write!(
                f,
                "cookies left out, since cookies.txt cannot represent them: {count}"
            ),
            Note::WithoutSameSite(count) => {
                write!(
                    f,
                    "cookies that lost SameSite, which cookies.txt does not have: {count}"
                )
            }
        }
    }
}

impl Note {
    /// Whether there is nothing to say: no cookie.
    pub fn is_empty(&self) -> bool {
        matches!(
            self,
            Note::Partitioned(0) | Note::Isolated(0) | Note::LeftOut(0) | Note::WithoutSameSite(0)
        )
    }

    /// Returns the line for standard error, without its line feed. It has no character that is escaped.
    pub fn message(&self, alloc: Global, name: &str) -> Result<String, AllocError>
        ensures { IfOk result (λ line. NoCharPasses is_escaped (string_bytes line)) }
    {
        let text = format!(in alloc; "cookies: {name}: {self}")?;
        escaped(alloc, text.as_str())
    }
}
