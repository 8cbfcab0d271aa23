//! The path of a cookie and path-match, RFC 6265 5.1.4 and 5.2.4.
ghost use Rattle.std.specs.Prelude.{◌≡◌, ◌↔◌, ◌&&◌, false, None, Ok, Some, string_bytes, IfOk, IsTrue};
ghost use Rattle.url.specs.Parts.{cannot_be_a_base};
ghost use Rattle.cookie_parts.specs.Path.{absolute_path, covers_path, default_path, from_url, is_absolute, path_matches, path_or_default, CoversPath, IsAbsolute, PathValue};

use std::alloc::{AllocError, Global};
use std::cmp::Ordering;
use std::hash::{Hash, Hasher};
use std::marker::Model;
use url::Url;

/// The path of a cookie. It matches this path and every path below it.
#[derive(Debug, Drop)]
pub struct CookiePath {
    path: String,
    from_attr: bool,
}

impl Model for CookiePath {
    ghost Value = { PathValue };

    ghost view = { λ p. record { text = string_bytes p.path; is_from_attribute = p.from_attr } };
}

impl CookiePath {
    /// Returns whether the path matches the path of `url`, RFC 6265 5.1.4.
    ///
    /// Returns false if `url` cannot be a base.
    pub fn matches(&self, url: &Url) -> bool
        ensures value { result ≡ path_matches self.now.text url.now }
        ensures meaning { IsTrue result
            ↔ (cannot_be_a_base url.now ≡ false) × CoversPath self.now.text url.now.path }
    {
        covers_url(self.as_str(), url)
    }

    /// Returns whether a Path attribute set the path.
    pub fn is_from_path_attr(&self) -> bool
        ensures { result ≡ self.now.is_from_attribute }
    {
        self.from_attr
    }

    /// Returns the default-path of `url`, RFC 6265 5.1.4: its path up to the last `/`, without it.
    ///
    /// Returns `/` if nothing precedes that `/`, there is none, or `url` cannot be a base.
    pub fn default_path(alloc: Global, url: &Url) -> Result<CookiePath, AllocError>
        ensures { IfOk result (λ path. path ≡ from_url url.now) }
    {
        Ok(CookiePath {
            path: String::from_str(alloc, default_path_of(url))?,
            from_attr: false,
        })
    }

    /// Returns `path` if it begins with `/`, else the default-path of `url`, RFC 6265 5.2.4.
    pub fn new(alloc: Global, path: &str, url: &Url) -> Result<CookiePath, AllocError>
        ensures { IfOk result (λ chosen. chosen ≡ path_or_default (Some path.now) url.now) }
    {
        match CookiePath::parse(alloc, path)? {
            Some(path) => Ok(path),
            None => CookiePath::default_path(alloc, url),
        }
    }

    /// Returns `path` as a cookie path, or `None` if it does not begin with `/`.
    ///
    /// Allocates only if `path` begins with `/`.
    pub fn parse(alloc: Global, path: &str) -> Result<Option<CookiePath>, AllocError>
        ensures value { IfOk result (λ absolute. absolute ≡ absolute_path path.now) }
        ensures relative { absolute_path path.now ≡ None → result ≡ Ok None }
    {
        if !is_absolute(path) {
            return Ok(None);
        }
        Ok(Some(CookiePath {
            path: String::from_str(alloc, path)?,
            from_attr: true,
        }))
    }

    /// Makes a path from its saved form, even if it does not begin with `/`. Such a path matches no URL.
    pub fn of_saved(path: String, from_attr: bool) -> CookiePath
        ensures { result ≡ record { text = string_bytes path; is_from_attribute = from_attr } }
    {
        CookiePath { path, from_attr }
    }

    /// Returns the path as a `String`, consuming `self`.
    pub fn into_string(self) -> String
        ensures { string_bytes result ≡ self.text }
    {
        let CookiePath { path, .. } = self;
        path
    }

    /// Copies the path into a new string.
    pub fn to_string_in(&self, alloc: Global) -> Result<String, AllocError>
        ensures { IfOk result (λ text. string_bytes text ≡ self.now.text) }
    {
        String::from_str(alloc, self.as_str())
    }

    /// Returns the path as a string.
    pub fn as_str(&self) -> &str
        ensures { result.now ≡ self.now.text }
    {
        self.path.as_str()
    }
}

impl Clone for CookiePath {
    ghost is_clone = { λ path copy. copy ≡ path };

    fn clone(&self) -> Result<CookiePath, AllocError> {
        Ok(CookiePath {
            path: self.path.clone()?,
            from_attr: self.from_attr,
        })
    }
}

impl PartialEq for CookiePath {
    ghost use Rattle.std.specs.Cmp.Rules.{comparing};
    ghost use Rattle.std.proofs.Common.{rules};
    ghost use Rattle.cookie_parts.specs.Path.{same_path};

    ghost eq = { same_path };

    ghost laws = { Prim.search (comparing, rules) };

    fn eq(&self, other: &CookiePath) -> bool {
        self.path == other.path && self.from_attr == other.from_attr
    }
}

impl Eq for CookiePath {
    ghost use Rattle.std.specs.Cmp.Rules.{comparing};
    ghost use Rattle.std.proofs.Common.{rules};

    ghost laws = { Prim.search (comparing, rules) };
}

impl PartialOrd for CookiePath {
    ghost use Rattle.std.specs.Cmp.{partial_order_from_own_ties};
    ghost use Rattle.std.specs.Cmp.Rules.{comparing};
    ghost use Rattle.std.specs.Ordering.{as_partial_cmp};
    ghost use Rattle.std.proofs.Common.{rules};
    ghost use Rattle.cookie_parts.specs.Path.{compare_paths};

    ghost partial_cmp = { as_partial_cmp compare_paths };

    ghost laws = { partial_order_from_own_ties (Prim.search (comparing, rules)) (Prim.search (comparing, rules)) };

    fn partial_cmp(&self, other: &CookiePath) -> Option<Ordering> {
        Some(self.cmp(other))
    }
}

impl Ord for CookiePath {
    ghost use Rattle.std.specs.Cmp.Rules.{comparing};
    ghost use Rattle.std.proofs.Common.{rules};
    ghost use Rattle.cookie_parts.specs.Path.{compare_paths};

    ghost cmp = { compare_paths };

    ghost total = { Prim.search (comparing, rules) };

    ghost matches_partial_cmp = { Prim.search (comparing, rules) };

    ghost matches_eq = { Prim.search (comparing, rules) };

    fn cmp(&self, other: &CookiePath) -> Ordering {
        self.as_str()
            .cmp(other.as_str())
            .then(self.from_attr.cmp(&other.from_attr))
    }
}

impl Hash for CookiePath {
    ghost use Rattle.std.specs.Cmp.Rules.{hashing};
    ghost use Rattle.std.specs.Hash as fed;
    ghost use Rattle.std.specs.Prelude.{◌++◌};
    ghost use Rattle.std.proofs.Common.{rules};

    ghost hash_input = { λ path. fed.str path.text ++ fed.bool path.is_from_attribute };

    ghost respects_eq = { Prim.search (hashing, rules) };

    fn hash<H: Hasher>(&self, state: &mut H) {
        self.as_str().hash(state);
        self.is_from_path_attr().hash(state);
    }
}

/// Returns whether a cookie of this path matches the path of `request_url`, RFC 6265 5.1.4.
///
/// Returns false if `cookie_path` does not begin with `/` or `request_url` cannot be a base.
pub fn is_match(cookie_path: &str, request_url: &Url) -> bool
    ensures value { result ≡ is_absolute cookie_path.now && path_matches cookie_path.now request_url.now }
    ensures meaning { IsTrue result
        ↔ IsAbsolute cookie_path.now × (cannot_be_a_base request_url.now ≡ false)
        × CoversPath cookie_path.now request_url.now.path }
{
    is_absolute(cookie_path) && covers_url(cookie_path, request_url)
}

// Whether the path begins with `/`.
fn is_absolute(path: &str) -> bool
    ensures value { result ≡ is_absolute path.now }
    ensures meaning { IsTrue result ↔ IsAbsolute path.now }
{
    path.as_bytes().starts_with(b"/")
}

// Whether the path matches the path of a URL that can be a base.
fn covers_url(path: &str, url: &Url) -> bool
    ensures value { result ≡ path_matches path.now url.now }
    ensures meaning { IsTrue result ↔ (cannot_be_a_base url.now ≡ false) × CoversPath path.now url.now.path }
{
    !url.cannot_be_a_base() && covers(path.as_bytes(), url.path().as_bytes())
}

/// Returns whether `request` path-matches `path`, RFC 6265 5.1.4: it begins with the path, and
/// either they are equal, or the path ends with `/`, or the next byte of `request` is `/`.
pub fn covers(path: &[u8], request: &[u8]) -> bool
    ensures value { result ≡ covers_path path.now request.now }
    ensures meaning { IsTrue result ↔ CoversPath path.now request.now }
{
    request.starts_with(path)
        && (path.len() == request.len()
            || path.ends_with(b"/")
            || request[path.len()..].starts_with(b"/"))
}

// The default-path, borrowed from the URL.
fn default_path_of(url: &Url) -> &str
    ensures { result.now ≡ default_path url.now }
{
    if url.cannot_be_a_base() {
        return "/";
    }
    match url.path().rfind('/') {
        Some(0) => &url.path()[..1],
        Some(at) => &url.path()[..at],
        None => "/",
    }
}
