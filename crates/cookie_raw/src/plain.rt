//! Raw cookies that survive printing and parsing.
ghost use Rattle.std.specs.Prelude.{◌≡◌, ◌==◌, option_map};
ghost use Rattle.std.specs.List.{list_any};
ghost use Rattle.std.specs.Option.{option_copied};
ghost use Rattle.jiff.specs.Words.{signed_nanos};
ghost use Rattle.cookie_words.specs.Moments.{moment_of};
ghost use Rattle.cookie_raw.specs.PlainCookie.{if_present, is_plain, is_plain_age, is_plain_domain, is_plain_expires, is_plain_moment, is_plain_name, is_plain_text};
ghost use Rattle.cookie_raw.specs.Views.{expires_value};

use crate::printing::is_for_all_sites;
use crate::{Expiration, RawCookie};
use jiff::SignedDuration;
use jiff::civil::DateTime;

// Whether `text` contains `byte`.
fn holds(text: &str, byte: u8) -> bool
    ensures { result ≡ list_any (λ b. b == byte) text.now }
{
    text.as_bytes().contains(&byte)
}

// Whether there is no `;`, and no white space at either end.
#[tactic(auto, unfolding(crate::specs::PlainCookie::is_plain_text))]
fn is_plain_text(text: &str) -> bool
    ensures { result ≡ is_plain_text text.now }
{
    !holds(text, b';') && text.trim() == text
}

#[tactic(auto, unfolding(crate::specs::PlainCookie::is_plain_name))]
fn is_plain_name(name: &str) -> bool
    ensures { result ≡ is_plain_name name.now }
{
    !name.is_empty() && !holds(name, b'=') && is_plain_text(name)
}

#[tactic(auto, unfolding(crate::specs::PlainCookie::is_plain_domain))]
fn is_plain_domain(domain: &str) -> bool
    ensures { result ≡ is_plain_domain domain.now }
{
    !domain.is_empty() && !domain.starts_with('.') && is_plain_text(domain)
}

fn is_plain_age(age: SignedDuration) -> bool
    ensures { result ≡ is_plain_age (signed_nanos age) }
{
    !age.is_negative() && age.subsec_nanos() == 0
}

fn is_plain_moment(date: DateTime) -> bool
    ensures { result ≡ is_plain_moment (moment_of date) }
{
    date.year() >= 1601 && date.subsec_nanosecond() == 0
}

fn is_plain_expires(expires: Expiration) -> bool
    ensures { result ≡ is_plain_expires (expires_value expires) }
{
    match expires {
        Expiration::DateTime(date) => is_plain_moment(date),
        Expiration::Session => false,
    }
}

fn has_plain_domain(domain: Option<&str>) -> bool
    ensures { result ≡ if_present is_plain_domain (option_copied domain.entry) }
{
    domain.is_none_or(is_plain_domain)
}

fn has_plain_path(path: Option<&str>) -> bool
    ensures { result ≡ if_present is_plain_text (option_copied path.entry) }
{
    path.is_none_or(is_plain_text)
}

fn has_plain_age(age: Option<SignedDuration>) -> bool
    ensures { result ≡ if_present is_plain_age (option_map signed_nanos age) }
{
    age.is_none_or(is_plain_age)
}

fn has_plain_expires(expires: Option<Expiration>) -> bool
    ensures { result ≡ if_present is_plain_expires (option_map expires_value expires) }
{
    expires.is_none_or(is_plain_expires)
}

impl<'a> RawCookie<'a> {
    /// Returns whether all of the following holds. If so, printing the cookie and parsing the
    /// result gives an equal cookie, by [`laws::reads_back`](crate::laws::reads_back).
    ///
    /// - Name, value, domain and path have no `;`, and no white space at either end.
    /// - The name is not empty and has no `=`.
    /// - The domain, if there is one, is not empty and does not begin with a dot.
    /// - Secure and HttpOnly are not set to false.
    /// - Secure is set to true if SameSite is `None`.
    /// - Max-Age, if there is one, is a whole number of seconds, not negative.
    /// - Expires, if there is one, is a time in whole seconds in the years 1601 to 9999.
    #[tactic(auto, unfolding(crate::specs::PlainCookie::is_plain))]
    pub fn is_plain(&self) -> bool
        ensures { result ≡ is_plain self.now }
    {
        is_plain_name(self.name())
            && is_plain_text(self.value())
            && has_plain_domain(self.domain())
            && has_plain_path(self.path())
            && self.secure().unwrap_or(true)
            && self.http_only().unwrap_or(true)
            && (!is_for_all_sites(self.same_site()) || self.secure().unwrap_or(false))
            && has_plain_age(self.max_age())
            && has_plain_expires(self.expires())
    }
}
