//! Comparing raw cookies.
ghost use Rattle.std.specs.Prelude.{◌≡◌, option_map};
ghost use Rattle.std.specs.Option.{option_eq};
ghost use Rattle.cookie_raw.specs.SameParts.{same_attributes, same_expires, same_texts};
ghost use Rattle.cookie_raw.specs.Views.{expires_value};

use crate::{Expiration, RawCookie};

impl<'a> PartialEq for RawCookie<'a> {
    ghost use Rattle.cookie_raw.specs.SameParts.{same_parts, same_parts_per};

    ghost eq = { same_parts };

    ghost laws = { same_parts_per };

    fn eq(&self, other: &RawCookie<'a>) -> bool {
        has_same_texts(self, other) && has_same_attributes(self, other)
    }
}

impl<'a> Eq for RawCookie<'a> {
    ghost use Rattle.cookie_raw.specs.SameParts.{same_parts_equiv};

    ghost laws = { same_parts_equiv };
}

// Compares name, value, domain and path.
fn has_same_texts(cookie: &RawCookie<'_>, other: &RawCookie<'_>) -> bool
    ensures { result ≡ same_texts cookie.now other.now }
{
    cookie.name() == other.name()
        && cookie.value() == other.value()
        && cookie.domain() == other.domain()
        && cookie.path() == other.path()
}

// Compares the other attributes.
fn has_same_attributes(cookie: &RawCookie<'_>, other: &RawCookie<'_>) -> bool
    ensures { result ≡ same_attributes cookie.now other.now }
{
    cookie.secure == other.secure
        && cookie.http_only == other.http_only
        && cookie.same_site == other.same_site
        && cookie.max_age() == other.max_age()
        && has_same_expires(cookie.expires, other.expires)
}

fn has_same_expires(expires: Option<Expiration>, other: Option<Expiration>) -> bool
    ensures { result ≡ option_eq same_expires (option_map expires_value expires) (option_map expires_value other) }
{
    expires == other
}
