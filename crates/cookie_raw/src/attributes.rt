//! The attributes of a Set-Cookie header value, RFC 6265 5.2.
ghost use Rattle.std.specs.Prelude.{◌≡◌, ◌<◌, min, length, pos, Some, None, true, option_map, IsTrue, if◌then◌else◌};
ghost use Rattle.std.specs.Char.{is_ascii_digit};
ghost use Rattle.std.specs.List.{list_all};
ghost use Rattle.std.specs.Str.Parse.{digits_value};
ghost use Rattle.std.specs.Option.{option_copied, option_or};
ghost use Rattle.jiff.specs.Words.{signed_nanos};
ghost use Rattle.cookie_raw.specs.AttributeSteps.{decided_domain, decided_same_site, domain_after, same_site_after};
ghost use Rattle.cookie_raw.specs.Rfc6265bis.{accepted_by, age_by, domain_by, last_by, max_age_by, name_by, same_site_by, value_by};
ghost use Rattle.cookie_raw.specs.SetCookie.{age_of, attributes_after, expires_from, http_only_from, attribute_is_named, path_from, secure_from, site_of};
ghost use Rattle.cookie_raw.specs.Views.{expires_value};

use crate::raw_cookie::name_and_value;
use crate::{Expiration, SameSite, Syntax, read_date};
use cookie_words::is_digits;
use jiff::SignedDuration;

/// The attributes parsed so far. Strings are borrowed from the header value.
#[derive(Clone, Copy, Default)]
pub(crate) struct Attributes<'a> {
    pub(crate) domain: Option<&'a str>,
    pub(crate) path: Option<&'a str>,
    pub(crate) secure: Option<bool>,
    pub(crate) http_only: Option<bool>,
    pub(crate) same_site: Option<SameSite>,
    pub(crate) max_age: Option<SignedDuration>,
    pub(crate) expires: Option<Expiration>,
}

// Splits an attribute at its first `=` and trims both sides. Without a `=` the value is empty.
#[tactic(auto, using(crate::proofs::Sides::whole_name, crate::proofs::Sides::no_value))]
fn attribute_name_and_value(piece: &str, syntax: Syntax) -> (&str, &str)
    ensures name { result.0.now ≡ name_by syntax piece.now }
    ensures value { result.1.now ≡ value_by syntax piece.now }
{
    match name_and_value(piece, syntax) {
        Some(sides) => sides,
        None => (syntax.trim(piece), ""),
    }
}

// Returns the Domain attribute after this attribute. An empty one changes nothing; in the revision it
// counts as none.
fn with_domain<'a>(
    syntax: Syntax,
    name: &str,
    value: &'a str,
    domain: Option<&'a str>,
) -> Option<&'a str>
    ensures { option_copied result ≡ decided_domain syntax name.now value.now (option_copied domain.entry) }
{
    if !name.eq_ignore_ascii_case("Domain") {
        return domain;
    }
    if !value.is_empty() {
        return Some(value);
    }
    match syntax {
        Syntax::Rfc6265 => domain,
        Syntax::Rfc6265bis => None,
    }
}

// Returns the value of a Path attribute.
fn read_path<'a>(name: &str, value: &'a str) -> Option<&'a str>
    ensures { option_copied result ≡ path_from name.now value.now }
{
    if name.eq_ignore_ascii_case("Path") {
        Some(value)
    } else {
        None
    }
}

// Returns `Some(true)` if the attribute is named `flag`, whatever its value.
fn read_flag(flag: &str, name: &str) -> Option<bool>
    ensures { result ≡ (if attribute_is_named flag.now name.now then Some true else None) }
{
    if name.eq_ignore_ascii_case(flag) {
        Some(true)
    } else {
        None
    }
}

// Parses the value of SameSite, ignoring case.
#[tactic(auto, unfolding(crate::specs::SetCookie::site_of))]
fn site(value: &str) -> Option<SameSite>
    ensures { result ≡ site_of value.now }
{
    if value.eq_ignore_ascii_case("Strict") {
        Some(SameSite::Strict)
    } else if value.eq_ignore_ascii_case("Lax") {
        Some(SameSite::Lax)
    } else if value.eq_ignore_ascii_case("None") {
        Some(SameSite::None)
    } else {
        None
    }
}

// Returns the SameSite attribute after this attribute. An unknown value changes nothing; in the
// revision it counts as none.
fn with_same_site(
    syntax: Syntax,
    name: &str,
    value: &str,
    same_site: Option<SameSite>,
) -> Option<SameSite>
    ensures { result ≡ decided_same_site syntax name.now value.now same_site }
{
    if !name.eq_ignore_ascii_case("SameSite") {
        return same_site;
    }
    match syntax {
        Syntax::Rfc6265 => site(value).or(same_site),
        Syntax::Rfc6265bis => site(value),
    }
}

// Parses a number of seconds, at most `i64::MAX`.
fn seconds(digits: &str) -> i64
    requires several { 0 < length digits.now }
    requires digits { IsTrue (list_all is_ascii_digit digits.now) }
    ensures { result ≡ pos (min (digits_value 10 digits.now) 9_223_372_036_854_775_807) }
{
    digits.parse().unwrap_or(i64::MAX)
}

// Parses the value of Max-Age. A negative one is 0.
fn age(value: &str) -> Option<SignedDuration>
    ensures { option_map signed_nanos result ≡ age_of value.now }
{
    match value.strip_prefix('-') {
        Some(digits) => {
            if is_digits(digits) {
                Some(SignedDuration::ZERO)
            } else {
                None
            }
        }
        None => {
            if !value.is_empty() && is_digits(value) {
                Some(SignedDuration::from_secs(seconds(value)))
            } else {
                None
            }
        }
    }
}

// Parses the value of Max-Age. A `-` without a digit is 0; in the revision it is none.
fn age_by(syntax: Syntax, value: &str) -> Option<SignedDuration>
    ensures { option_map signed_nanos result ≡ age_by syntax value.now }
{
    match syntax {
        Syntax::Rfc6265bis if value == "-" => None,
        _ => age(value),
    }
}

// Returns the value of a Max-Age attribute, if it is well formed.
fn read_max_age(syntax: Syntax, name: &str, value: &str) -> Option<SignedDuration>
    ensures { option_map signed_nanos result ≡ max_age_by syntax name.now value.now }
{
    if name.eq_ignore_ascii_case("Max-Age") {
        age_by(syntax, value)
    } else {
        None
    }
}

// Returns the value of an Expires attribute, if it is a cookie-date.
fn read_expires(name: &str, value: &str) -> Option<Expiration>
    ensures { option_map expires_value result ≡ expires_from name.now value.now }
{
    if name.eq_ignore_ascii_case("Expires") {
        read_date(value).map(Expiration::DateTime)
    } else {
        None
    }
}

impl<'a> Attributes<'a> {
    /// Parses the attributes in `rest`, which follows the first `;` of a Set-Cookie header value.
    ///
    /// If attributes of one name are repeated, the last one with an accepted value counts.
    pub(crate) fn of(rest: Option<&'a str>, syntax: Syntax) -> Attributes<'a>
        ensures domain { option_copied result.domain ≡ domain_by syntax (attributes_after (option_copied rest.entry)) }
        ensures path { option_copied result.path ≡ last_by syntax path_from (attributes_after (option_copied rest.entry)) }
        ensures secure { result.secure ≡ last_by syntax secure_from (attributes_after (option_copied rest.entry)) }
        ensures http_only { result.http_only ≡ last_by syntax http_only_from (attributes_after (option_copied rest.entry)) }
        ensures same_site { result.same_site ≡ same_site_by syntax (attributes_after (option_copied rest.entry)) }
        ensures max_age { option_map signed_nanos result.max_age
            ≡ last_by syntax (max_age_by syntax) (attributes_after (option_copied rest.entry)) }
        ensures expires { option_map expires_value result.expires
            ≡ last_by syntax expires_from (attributes_after (option_copied rest.entry)) }
    {
        let mut found = Attributes::default();
        let Some(text) = rest else {
            return found;
        };
        for piece in text.split(';') {
            found.take(piece, syntax);
        }
        found
    }

    // Adds one attribute, if it is known and its value accepted.
    fn take(&mut self, piece: &'a str, syntax: Syntax)
        ensures domain { option_copied self.new.domain ≡ domain_after syntax piece.now (option_copied self.old.domain) }
        ensures path { option_copied self.new.path
            ≡ option_or (accepted_by syntax path_from piece.now) (option_copied self.old.path) }
        ensures secure { self.new.secure ≡ option_or (accepted_by syntax secure_from piece.now) self.old.secure }
        ensures http_only { self.new.http_only ≡ option_or (accepted_by syntax http_only_from piece.now) self.old.http_only }
        ensures same_site { self.new.same_site ≡ same_site_after syntax piece.now self.old.same_site }
        ensures max_age { option_map signed_nanos self.new.max_age
            ≡ option_or (accepted_by syntax (max_age_by syntax) piece.now) (option_map signed_nanos self.old.max_age) }
        ensures expires { option_map expires_value self.new.expires
            ≡ option_or (accepted_by syntax expires_from piece.now) (option_map expires_value self.old.expires) }
    {
        let (name, value) = attribute_name_and_value(piece, syntax);
        if syntax.ignores(value) {
            return;
        }
        self.domain = with_domain(syntax, name, value, self.domain);
        self.path = read_path(name, value).or(self.path);
        self.secure = read_flag("Secure", name).or(self.secure);
        self.http_only = read_flag("HttpOnly", name).or(self.http_only);
        self.same_site = with_same_site(syntax, name, value, self.same_site);
        self.max_age = read_max_age(syntax, name, value).or(self.max_age);
        self.expires = read_expires(name, value).or(self.expires);
    }
}
