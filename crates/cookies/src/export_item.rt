//! A cookie in an export: a JSON object with its domain, path, name, value, expiry and flags.
ghost use Rattle.std.specs.Prelude.{◌≡◌, bytes_eq, IfOk, option_map};
ghost use Rattle.serde_json.specs.View.{view};
ghost use Rattle.cookie_parts.specs.Hosts.{host_of, passes};
ghost use Rattle.cookie_parts.specs.Views.{domain_value, expiry_value};
ghost use Rattle.cookies.specs.ExportItems.{cookie_in, cookie_of, domain_of, expiry_at, expiry_in, fields_in, flag_in, has_key, is_host, is_partitioned, member_in, path_in, raw_of, same_site_in, same_site_of, string_in, ItemFields};

use cookie_inputs::parse_unambiguous;
use cookie_store::raw::{RawCookieBuilder, SameSite};
use cookie_store::{Cookie, CookieDomain, CookieExpiration, CookiePath, RawCookie};
use cookie_words::{epoch, without_dot};
use serde_json::Value;
use std::alloc::{AllocError, Global};
use std::marker::Model;
use std::num::saturating_f64_to_u64;
use url::Url;

/// The fields of an item.
#[derive(Drop)]
pub struct Fields<'a> {
    /// With the dot of a domain cookie.
    pub domain: &'a str,
    pub is_host_only: bool,
    pub path: &'a str,
    pub name: &'a str,
    pub value: &'a str,
    pub expires: CookieExpiration,
    pub is_secure: bool,
    pub is_http_only: bool,
    pub same_site: Option<SameSite>,
}

impl<'a> Model for Fields<'a> {
    ghost Value = { ItemFields };

    ghost view = { λ f. record {
      domain = f.domain.now;
      is_host_only = f.is_host_only;
      path = f.path.now;
      name = f.name.now;
      value = f.value.now;
      expires = expiry_value f.expires;
      is_secure = f.is_secure;
      is_http_only = f.is_http_only;
      same_site = f.same_site;
    } };
}

/// Returns whether the cookie is partitioned: sent only with the requests of one site's pages, by its
/// partition or by the isolation of first parties.
pub fn is_partitioned(item: &Value) -> bool
    ensures { result ≡ is_partitioned (view item.now) }
{
    has_key(item, "partitionKey") || has_key(item, "firstPartyDomain")
}

// Whether a member is there, and neither null nor an empty string.
fn has_key(item: &Value, name: &str) -> bool
    ensures { result ≡ has_key name.now (view item.now) }
{
    match member(item, name) {
        Some(key) => key.as_str() != Some(""),
        None => false,
    }
}

/// Reads the cookie of an item, whose expiry has this name. Returns `None` if the domain, the name or the
/// value is missing, if a member but `sameSite` has the wrong type, if the name or the value does not read
/// back from a header value, if the domain is not a host, or if the path does not begin with `/`.
#[tactic(auto, unfolding(crate::specs::ExportItems::cookie_in))]
pub fn read_cookie(
    alloc: Global,
    item: &Value,
    expiry: &str,
) -> Result<Option<Cookie<'static>>, AllocError>
    ensures { IfOk result (λ cookie. cookie ≡ cookie_in expiry.now (view item.now)) }
{
    match fields_in(item, expiry) {
        Some(fields) => cookie_of(alloc, &fields),
        None => Ok(None),
    }
}

/// Returns the cookie of the fields, or `None` if its name or its value does not read back from a header
/// value, if its domain is not a host, or if its path does not begin with `/`.
#[tactic(auto, unfolding(crate::specs::ExportItems::cookie_of))]
pub fn cookie_of(alloc: Global, fields: &Fields<'_>) -> Result<Option<Cookie<'static>>, AllocError>
    ensures { IfOk result (λ cookie. cookie ≡ cookie_of fields.now) }
{
    let raw = raw_cookie(alloc, fields)?;
    if !raw.is_plain() {
        return Ok(None);
    }
    let Some(domain) = domain_of(alloc, fields.domain, fields.is_host_only)? else {
        return Ok(None);
    };
    let Some(path) = CookiePath::parse(alloc, fields.path)? else {
        return Ok(None);
    };
    Ok(Some(Cookie::new(raw, domain, path, fields.expires)))
}

// Returns the domain without one dot before it, or `None` if that is not a host.
fn domain_of(
    alloc: Global,
    text: &str,
    is_host_only: bool,
) -> Result<Option<CookieDomain>, AllocError>
    ensures { IfOk result (λ domain. option_map domain_value domain ≡ domain_of text.now is_host_only) }
{
    let domain = without_dot(text).to_ascii_lowercase(alloc)?;
    if !is_host(alloc, domain.as_str())? {
        return Ok(None);
    }
    if is_host_only {
        Ok(Some(CookieDomain::HostOnly(domain)))
    } else {
        Ok(Some(CookieDomain::Suffix(domain)))
    }
}

// Reads the fields of an item. Returns `None` if domain, name or value is missing, or if a field but
// SameSite has the wrong type.
#[tactic(auto, unfolding(crate::specs::ExportItems::fields_in))]
fn fields_in<'a>(item: &'a Value, expiry: &str) -> Option<Fields<'a>>
    ensures { result ≡ fields_in expiry.now (view item.now) }
{
    let domain = string(item, "domain")?;
    let is_secure = flag(item, "secure", false)?;
    Some(Fields {
        domain,
        is_host_only: flag(item, "hostOnly", !domain.starts_with('.'))?,
        path: path(item)?,
        name: string(item, "name")?,
        value: string(item, "value")?,
        expires: expiry_in(item, expiry)?,
        is_secure,
        is_http_only: flag(item, "httpOnly", false)?,
        same_site: same_site(item, is_secure),
    })
}

// Returns a member that is not null.
fn member<'a>(item: &'a Value, name: &str) -> Option<&'a Value>
    ensures { option_map (λ value. view value.now) result ≡ member_in name.now (view item.now) }
{
    match item.get(name) {
        Some(value) if !value.is_null() => Some(value),
        _ => None,
    }
}

// Returns a member that is a string.
fn string<'a>(item: &'a Value, name: &str) -> Option<&'a str>
    ensures { option_map (λ text. text.now) result ≡ string_in name.now (view item.now) }
{
    item.get(name)?.as_str()
}

// Returns a member that is a boolean, `default` if it is missing or null.
fn flag(item: &Value, name: &str, default: bool) -> Option<bool>
    ensures { result ≡ flag_in name.now default (view item.now) }
{
    match member(item, name) {
        Some(value) => value.as_bool(),
        None => Some(default),
    }
}

// Returns the path, `/` if it is missing, null or empty.
fn path(item: &Value) -> Option<&str>
    ensures { option_map (λ text. text.now) result ≡ path_in (view item.now) }
{
    let Some(value) = member(item, "path") else {
        return Some("/");
    };
    match value.as_str()? {
        "" => Some("/"),
        path => Some(path),
    }
}

// Returns the expiry in a member of this name, whose number is of seconds since 1970.
fn expiry_in(item: &Value, name: &str) -> Option<CookieExpiration>
    ensures { option_map expiry_value result ≡ expiry_in name.now (view item.now) }
{
    match member(item, name) {
        Some(value) => Some(expiry_at(value.as_i64(), value.as_f64()?)),
        None => Some(CookieExpiration::SessionEnd),
    }
}

// Returns the expiry of a number, which is -1 for a session cookie. A fraction is dropped.
fn expiry_at(whole: Option<i64>, seconds: f64) -> CookieExpiration
    ensures { expiry_value result ≡ expiry_at whole seconds }
{
    if whole == Some(-1) {
        return CookieExpiration::SessionEnd;
    }
    CookieExpiration::from_secs(saturating_f64_to_u64(seconds), epoch())
}

// Returns SameSite. Browsers reject cookies with SameSite=None that are not Secure, and older versions of
// Firefox write `None` for cookies without SameSite.
fn same_site(item: &Value, is_secure: bool) -> Option<SameSite>
    ensures { result ≡ same_site_in is_secure (view item.now) }
{
    match same_site_of(string(item, "sameSite")?) {
        Some(SameSite::None) if !is_secure => None,
        same_site => same_site,
    }
}

// Returns the attribute that a word stands for; any other stands for a cookie without it.
fn same_site_of(word: &str) -> Option<SameSite>
    ensures { result ≡ same_site_of word.now }
{
    if word.eq_ignore_ascii_case("strict") {
        Some(SameSite::Strict)
    } else if word.eq_ignore_ascii_case("lax") {
        Some(SameSite::Lax)
    } else if word.eq_ignore_ascii_case("none") || word.eq_ignore_ascii_case("no_restriction") {
        Some(SameSite::None)
    } else {
        None
    }
}

// Whether the string is the host of a URL, and no dot is before it.
fn is_host(alloc: Global, text: &str) -> Result<bool, AllocError>
    ensures { IfOk result (λ is. is ≡ is_host text.now) }
{
    let url = format!(in alloc; "https://{text}/")?;
    match parse_unambiguous(alloc, url.as_str())? {
        Some(url) => Ok(has_host(&url, text) && !text.starts_with('.')),
        None => Ok(false),
    }
}

// Whether this is the host of the URL.
fn has_host(url: &Url, host: &str) -> bool
    ensures { result ≡ passes (λ own. bytes_eq own host.now) (host_of url.now) }
{
    match url.host_str() {
        Some(own) => own == host,
        None => false,
    }
}

// Returns the raw cookie: with Secure, HttpOnly and SameSite.
fn raw_cookie(alloc: Global, fields: &Fields<'_>) -> Result<RawCookie<'static>, AllocError>
    ensures { IfOk result (λ raw. raw ≡ raw_of fields.now) }
{
    let name = String::from_str(alloc, fields.name)?;
    let value = String::from_str(alloc, fields.value)?;
    let mut builder = RawCookieBuilder::new(name, value);
    if fields.is_secure {
        builder = builder.secure(true);
    }
    if fields.is_http_only {
        builder = builder.http_only(true);
    }
    if let Some(same_site) = fields.same_site {
        builder = builder.same_site(same_site);
    }
    Ok(builder.build())
}
