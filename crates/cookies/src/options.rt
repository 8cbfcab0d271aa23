//! What the command line asks for.
use crate::format::{FileFormat, InputFormat};
use crate::purge::Purge;
use cookie_store::strict::Context;
use jiff::civil::DateTime;
use url::Url;

/// A file, and the format of its cookies. The name `-` is standard input or standard output.
#[derive(Clone, Copy, Debug, PartialEq, Eq)]
pub struct CookieFile<'a> {
    pub name: &'a str,
    pub format: FileFormat,
}

/// A file that is written.
#[derive(Clone, Copy, Debug, PartialEq, Eq)]
pub enum OutputFile<'a> {
    /// A file that is written whole.
    File(CookieFile<'a>),
    /// The SQLite file of this name, in which rows change.
    Sqlite(&'a str),
}

/// A file that is read, and the format of its cookies. The name `-` is standard input.
#[derive(Clone, Copy, Debug, PartialEq, Eq)]
pub struct InputFile<'a> {
    pub name: &'a str,
    pub format: InputFormat,
    /// Whether malformed lines and items are left out.
    pub skips_malformed: bool,
}

/// The file of a public suffix list. The name `-` is standard input.
#[derive(Clone, Copy, Debug, PartialEq, Eq)]
pub struct SuffixFile<'a> {
    pub name: &'a str,
    /// Whether the rule `*` is not added.
    pub only_listed: bool,
}

/// The domain, the path and the name of a cookie, as arguments.
#[derive(Clone, Copy, Debug, PartialEq, Eq)]
pub struct Key<'a> {
    pub domain: &'a str,
    pub path: &'a str,
    pub name: &'a str,
}

/// A command and its arguments.
#[derive(Drop)]
pub enum Command<'a> {
    /// Prints the help or the version.
    Print {
        text: String,
    },
    /// Prints all cookies: as a table, or as a JSON list.
    Show {
        file: InputFile<'a>,
        is_json: bool,
    },
    /// Prints the value of the Cookie header of a request.
    Header {
        url: Url,
        file: InputFile<'a>,
        suffixes: Option<SuffixFile<'a>>,
        /// Where the request comes from, if the rules of browsers hold.
        context: Option<Context>,
    },
    /// Prints whether a request has each cookie of its URL's site, and of its host's parent domains and
    /// subdomains, or why not.
    Explain {
        url: Url,
        file: InputFile<'a>,
        suffixes: Option<SuffixFile<'a>>,
        /// Where the request comes from, if the rules of browsers hold.
        context: Option<Context>,
    },
    /// Prints the cookie that a `Set-Cookie` header value received from the URL sets, or why it is
    /// rejected.
    ExplainValue {
        url: Url,
        value: &'a str,
        suffixes: Option<SuffixFile<'a>>,
        /// Where the request came from, if the rules of browsers hold.
        context: Option<Context>,
    },
    /// Inserts the cookie of a `Set-Cookie` header value received from the URL.
    Set {
        url: Url,
        value: &'a str,
        file: OutputFile<'a>,
        suffixes: Option<SuffixFile<'a>>,
        /// Where the request came from, if the rules of browsers hold.
        context: Option<Context>,
    },
    /// Removes one cookie.
    Remove {
        file: OutputFile<'a>,
        key: Key<'a>,
    },
    /// Removes some cookies.
    Purge {
        file: OutputFile<'a>,
        purge: Purge<'a>,
    },
    /// Reads a file, and writes its cookies to another.
    Convert {
        input: InputFile<'a>,
        output: OutputFile<'a>,
        /// Whether cookies that the format of the output cannot represent are left out.
        skips_unrepresentable: bool,
    },
}

/// What the command line asks for.
#[derive(Drop)]
pub struct Request<'a> {
    pub command: Command<'a>,
    /// The time, in place of that of the clock.
    pub now: Option<DateTime>,
}
