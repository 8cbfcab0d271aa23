//! The two ways to parse a Set-Cookie header value.
ghost use Rattle.std.specs.Prelude.{◌≡◌};
ghost use Rattle.std.specs.List.{prefix_len};
ghost use Rattle.cookie_raw.specs.Rfc6265bis.{is_ignored, is_white_space, trim_back, trim_front, trimmed};

// The longest value of an attribute that is not ignored, in bytes.
const LONGEST_VALUE: usize = 1_024;

/// The document that a Set-Cookie header value is parsed by.
#[derive(Clone, Copy, Debug, PartialEq, Eq)]
pub enum Syntax {
    /// RFC 6265 5.2, with Unicode white space trimmed as by `str::trim`.
    Rfc6265,
    /// Its revision, draft-ietf-httpbis-rfc6265bis 5.6, as browsers parse.
    Rfc6265bis,
}

impl Syntax {
    /// Returns the string without white space at either end: SP and HTAB in the revision.
    pub(crate) fn trim(self, text: &str) -> &str
        ensures { result.now ≡ trimmed self text.now }
    {
        match self {
            Syntax::Rfc6265 => text.trim(),
            Syntax::Rfc6265bis => trim_back(trim_front(text)),
        }
    }

    /// Returns whether an attribute with this value is ignored: it is too long for the revision.
    pub(crate) fn ignores(self, value: &str) -> bool
        ensures { result ≡ is_ignored self value.now }
    {
        match self {
            Syntax::Rfc6265 => false,
            Syntax::Rfc6265bis => value.len() > LONGEST_VALUE,
        }
    }
}

// Returns the string without SP and HTAB at the start.
fn trim_front(text: &str) -> &str
    ensures { result.now ≡ trim_front text.now }
{
    &text[spaces_before(text.as_bytes())..]
}

// Returns the string without SP and HTAB at the end.
fn trim_back(text: &str) -> &str
    ensures { result.now ≡ trim_back text.now }
{
    let bytes = text.as_bytes();
    let spaces = bytes
        .iter()
        .rev()
        .take_while(|&&b| is_white_space(b))
        .count();
    &text[..text.len() - spaces]
}

// Returns how many bytes at the start are SP or HTAB.
fn spaces_before(bytes: &[u8]) -> usize
    ensures { result ≡ prefix_len is_white_space bytes.now }
{
    bytes.iter().take_while(|&&b| is_white_space(b)).count()
}

// Whether the byte is SP or HTAB.
fn is_white_space(b: u8) -> bool
    ensures { result ≡ is_white_space b }
{
    b == b' ' || b == b'\t'
}
