//! The parts of a Set-Cookie header value, RFC 6265 5.2.
ghost use Rattle.std.specs.Prelude.{◌≡◌, true, false, option_map, unwrap_or, MatchOption, IfOk};
ghost use Rattle.std.specs.Cow.{cow_str_bytes};
ghost use Rattle.std.specs.Option.{option_copied};
ghost use Rattle.jiff.specs.Words.{signed_nanos};
ghost use Rattle.cookie_raw.specs.Rfc6265bis.{name_by, reading_by, value_by};
ghost use Rattle.cookie_raw.specs.SetCookie.{reading, pair_of, attributes, attributes_after, has_equals};
ghost use Rattle.cookie_raw.specs.Slices.{HasSlices};
ghost use Rattle.cookie_raw.specs.Views.{expires_value, max_age_nanos};
ghost use Rattle.cookie_words.specs.Strings.{without_dot};
ghost use Rattle.cookie_raw.specs.Raw.{Raw};

use crate::attributes::Attributes;
use crate::max_age::MaxAge;
use crate::{Expiration, RawCookieParseError, SameSite, Syntax};
use cookie_words::without_dot;
use jiff::SignedDuration;
use std::alloc::{AllocError, Global};
use std::borrow::CowStr;
use std::marker::Model;

/// A cookie as written in a Set-Cookie header value, RFC 6265 5.2, before the rules of 5.3 on
/// domains, paths and expiry.
///
/// A parsed cookie borrows its parts from the header value; [`into_owned`](Self::into_owned) copies
/// them.
#[derive(Debug, Drop)]
pub struct RawCookie<'a> {
    pub(crate) name: CowStr<'a>,
    pub(crate) value: CowStr<'a>,
    pub(crate) secure: Option<bool>,
    pub(crate) http_only: Option<bool>,
    pub(crate) same_site: Option<SameSite>,
    pub(crate) domain: Option<CowStr<'a>>,
    pub(crate) path: Option<CowStr<'a>>,
    pub(crate) max_age: MaxAge,
    pub(crate) expires: Option<Expiration>,
}

impl<'a> Model for RawCookie<'a> {
    ghost Value = { Raw };

    ghost view = { λ c. record {
      name = cow_str_bytes c.name;
      value = cow_str_bytes c.value;
      domain = option_map without_dot (option_map cow_str_bytes c.domain);
      path = option_map cow_str_bytes c.path;
      secure = c.secure;
      http_only = c.http_only;
      same_site = c.same_site;
      max_age = max_age_nanos c.max_age;
      expires = option_map expires_value c.expires;
    } };
}

impl<'a> Clone for RawCookie<'a> {
    ghost is_clone = { λ cookie copy. copy ≡ cookie };

    fn clone(&self) -> Result<RawCookie<'a>, AllocError> {
        Ok(RawCookie {
            name: self.name.clone()?,
            value: self.value.clone()?,
            domain: self.domain.clone()?,
            path: self.path.clone()?,
            secure: self.secure,
            http_only: self.http_only,
            same_site: self.same_site,
            max_age: self.max_age,
            expires: self.expires,
        })
    }
}

// Splits a header value at its first `;`.
fn pair_and_rest(text: &str) -> (&str, Option<&str>)
    ensures pair { result.0.now ≡ pair_of text.now }
    ensures rest { attributes_after (option_copied result.1) ≡ attributes text.now }
{
    match text.split_once(';') {
        Some((pair, rest)) => (pair, Some(rest)),
        None => (text, None),
    }
}

/// Splits at the first `=` and trims both sides, or returns `None` if there is no `=`.
pub(crate) fn name_and_value(pair: &str, syntax: Syntax) -> Option<(&str, &str)>
    ensures { MatchOption result (has_equals pair.now ≡ false)
        (λ sides. (has_equals pair.now ≡ true) × (sides.0.now ≡ name_by syntax pair.now)
        × (sides.1.now ≡ value_by syntax pair.now)) }
{
    match pair.split_once('=') {
        Some((name, value)) => Some((syntax.trim(name), syntax.trim(value))),
        None => None,
    }
}

// Wraps an optional borrowed part.
fn borrowed_part<'a>(part: Option<&'a str>) -> Option<CowStr<'a>>
    ensures { option_map cow_str_bytes result ≡ option_copied part.entry }
{
    match part {
        Some(text) => Some(CowStr::Borrowed(text)),
        None => None,
    }
}

// Makes a part owned.
fn owned(alloc: Global, part: CowStr<'_>) -> Result<CowStr<'static>, AllocError>
    ensures { IfOk result (λ text. cow_str_bytes text ≡ cow_str_bytes part.entry) }
{
    Ok(CowStr::Owned(part.into_owned(alloc)?))
}

// Makes an optional part owned.
fn opt_into_owned(
    alloc: Global,
    part: Option<CowStr<'_>>,
) -> Result<Option<CowStr<'static>>, AllocError>
    ensures { IfOk result (λ text. option_map cow_str_bytes text ≡ option_map cow_str_bytes part.entry) }
{
    match part {
        Some(text) => Ok(Some(owned(alloc, text)?)),
        None => Ok(None),
    }
}

impl<'a> RawCookie<'a> {
    /// Parses a Set-Cookie header value, RFC 6265 5.2.
    ///
    /// Allocates nothing: the parts are borrowed from `text`. Quotation marks are kept, and nothing
    /// is percent-decoded. If attributes of one name are repeated, the last one with an accepted
    /// value counts.
    ///
    /// # Errors
    ///
    /// In the order in which they are checked:
    /// - `MissingPair`: there is no `=` before the first `;`.
    /// - `EmptyName`: the name is empty.
    pub fn parse(text: &'a str) -> Result<RawCookie<'a>, RawCookieParseError>
        ensures reading { result ≡ reading text.now }
        ensures slices { IfOk result (HasSlices text.now) }
    {
        RawCookie::parse_as(text, Syntax::Rfc6265)
    }

    /// Parses a Set-Cookie header value by RFC 6265 5.2, as [`parse`](Self::parse) does, or by its
    /// revision, draft-ietf-httpbis-rfc6265bis 5.6.
    ///
    /// In the revision white space is SP and HTAB, an attribute whose value is longer than 1,024
    /// bytes is ignored, and so is a Max-Age of `-`. If Domain or SameSite is repeated, the last one
    /// decides: an empty Domain and an unknown SameSite then count as none. As in RFC 6265 a cookie
    /// has a name; control characters and the length of name and value are not checked.
    ///
    /// # Errors
    ///
    /// Those of [`parse`](Self::parse).
    pub fn parse_as(text: &'a str, syntax: Syntax) -> Result<RawCookie<'a>, RawCookieParseError>
        ensures reading { result ≡ reading_by syntax text.now }
        ensures slices { IfOk result (HasSlices text.now) }
    {
        let (pair, rest) = pair_and_rest(text);
        let Some((name, value)) = name_and_value(pair, syntax) else {
            return Err(RawCookieParseError::MissingPair);
        };
        if name.is_empty() {
            return Err(RawCookieParseError::EmptyName);
        }
        let attributes = Attributes::of(rest, syntax);
        Ok(RawCookie {
            name: CowStr::Borrowed(name),
            value: CowStr::Borrowed(value),
            domain: borrowed_part(attributes.domain),
            path: borrowed_part(attributes.path),
            secure: attributes.secure,
            http_only: attributes.http_only,
            same_site: attributes.same_site,
            max_age: MaxAge::new(attributes.max_age),
            expires: attributes.expires,
        })
    }

    /// Returns the name.
    pub fn name(&self) -> &str
        ensures { result.now ≡ self.now.name }
    {
        self.name.as_str()
    }

    /// Returns the value, including any quotation marks.
    pub fn value(&self) -> &str
        ensures { result.now ≡ self.now.value }
    {
        self.value.as_str()
    }

    /// Returns the name and the value.
    pub fn name_value(&self) -> (&str, &str)
        ensures name { result.0.now ≡ self.now.name }
        ensures value { result.1.now ≡ self.now.value }
    {
        (self.name.as_str(), self.value.as_str())
    }

    /// Returns the Domain attribute, without one leading dot.
    pub fn domain(&self) -> Option<&str>
        ensures { option_copied result ≡ self.now.domain }
    {
        match &self.domain {
            Some(domain) => Some(without_dot(domain.as_str())),
            None => None,
        }
    }

    /// Returns the Path attribute as written, even if it does not begin with `/`.
    pub fn path(&self) -> Option<&str>
        ensures { option_copied result ≡ self.now.path }
    {
        match &self.path {
            Some(path) => Some(path.as_str()),
            None => None,
        }
    }

    /// Returns whether the cookie is Secure, or `None` if that was not set. For a parsed cookie
    /// this is `Some(true)` or `None`.
    pub fn secure(&self) -> Option<bool>
        ensures { result ≡ self.now.secure }
    {
        self.secure
    }

    /// Returns whether the cookie is Secure; false if that was not set.
    pub fn is_secure(&self) -> bool
        ensures { result ≡ unwrap_or self.now.secure false }
    {
        self.secure.unwrap_or(false)
    }

    /// Returns whether the cookie is HttpOnly, or `None` if that was not set. For a parsed cookie
    /// this is `Some(true)` or `None`.
    pub fn http_only(&self) -> Option<bool>
        ensures { result ≡ self.now.http_only }
    {
        self.http_only
    }

    /// Returns whether the cookie is HttpOnly; false if that was not set.
    pub fn is_http_only(&self) -> bool
        ensures { result ≡ unwrap_or self.now.http_only false }
    {
        self.http_only.unwrap_or(false)
    }

    /// Returns the SameSite attribute.
    pub fn same_site(&self) -> Option<SameSite>
        ensures { result ≡ self.now.same_site }
    {
        self.same_site
    }

    /// Returns the Max-Age attribute. A negative one is parsed as 0.
    pub fn max_age(&self) -> Option<SignedDuration>
        ensures { option_map signed_nanos result ≡ self.now.max_age }
    {
        self.max_age.duration()
    }

    /// Returns the Expires attribute.
    pub fn expires(&self) -> Option<Expiration>
        ensures { option_map expires_value result ≡ self.now.expires }
    {
        self.expires
    }

    /// Returns an equal cookie that owns its strings. Fails only if out of memory.
    pub fn into_owned(self, alloc: Global) -> Result<RawCookie<'static>, AllocError>
        ensures { IfOk result (λ owned. owned ≡ self.entry) }
    {
        Ok(RawCookie {
            name: owned(alloc, self.name)?,
            value: owned(alloc, self.value)?,
            domain: opt_into_owned(alloc, self.domain)?,
            path: opt_into_owned(alloc, self.path)?,
            secure: self.secure,
            http_only: self.http_only,
            same_site: self.same_site,
            max_age: self.max_age,
            expires: self.expires,
        })
    }
}
