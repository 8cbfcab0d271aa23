//! The options that the arguments give.

/// The options given by the command-line arguments.
#[derive(Clone, Copy, Debug, PartialEq, Eq)]
pub struct Options<'a> {
    /// The file of a public suffix list.
    pub suffixes: Option<&'a str>,
    /// The most cookies that one domain may have.
    pub limit: Option<usize>,
    /// Whether to convert lines of JSON into a RON list instead of running a script.
    pub convert: bool,
}
