//! Why a request has a cookie or not, and a `Set-Cookie` header value is stored or not.
ghost use Rattle.std.specs.Prelude.{◌≡◌, filter, map, option_map, IfOk, string_bytes};
ghost use Rattle.cookie_words.specs.Moments.{moment_of};
ghost use Rattle.cookies.specs.Explanations.{as_parsed, strict_reason, explained_cells, is_explained, is_explained_for, is_of_site, sent_cell, site_of_name, site_of_url, unsent_reason};

use crate::columns::{COLUMNS, Cells, columns};
use crate::escape::escaped;
use crate::request::is_for_suffix;
use crate::table::{domain_cell, expiry_cell, flags_cell};
use cookie_store::cookie_domain::covers;
use cookie_store::psl::List;
use cookie_store::raw::{RawCookieBuilder, Syntax};
use cookie_store::strict::{self, Context, StrictError};
use cookie_store::utils::is_host_name;
use cookie_store::{Cookie, CookieStore, Error, RawCookie};
use jiff::civil::DateTime;
use std::alloc::{AllocError, Global};
use url::Url;

/// The headings of the columns.
const HEADINGS: [&str; COLUMNS] = ["DOMAIN", "PATH", "NAME", "EXPIRES", "FLAGS", "SENT"];

/// A request, and the rules by which it has cookies.
#[derive(Clone, Copy)]
pub struct RequestRules<'q> {
    pub url: &'q Url,
    pub time: DateTime,
    /// The public suffixes, whose domain cookies are not sent.
    pub suffixes: &'q List,
    /// Where the request comes from, if the rules of browsers hold.
    pub context: Option<Context>,
}

impl RequestRules<'_> {
    /// Returns a table of the cookies of the URL's site, and of those whose domain is its host, a parent or a
    /// subdomain of it, in the store's order: whether the request has each, or the first reason why not.
    pub fn table(&self, store: &CookieStore) -> Result<String, Error> {
        Ok(columns(store.allocator(), &HEADINGS, &self.rows(store)?)?)
    }

    // Returns a row for each of these cookies.
    fn rows(&self, store: &CookieStore) -> Result<Vec<Cells>, Error>
        ensures { IfOk result (λ rows. map (map string_bytes) rows.items
            ≡ map (explained_cells self.now.context self.now.suffixes.now self.now.url.now (moment_of self.now.time))
            (filter (is_explained self.now.suffixes.now self.now.url.now) store.now.rows)) }
    {
        let alloc = store.allocator();
        let site = self.site();
        let mut rows = Vec::new(alloc);
        for cookie in store.iter_any() {
            if self.explains(site, cookie) {
                rows.push(self.row(alloc, cookie)?)?;
            }
        }
        Ok(rows)
    }

    // Returns the site of the URL: the registrable domain of its host.
    fn site(&self) -> Option<&str>
        ensures { option_map (λ text. text.now) result ≡ site_of_url self.now.suffixes.now self.now.url.now }
    {
        site_of_name(self.url.host_str()?, self.suffixes)
    }

    // Whether the table has the cookie, if this is the site of the URL.
    fn explains(&self, site: Option<&str>, cookie: &Cookie<'_>) -> bool
        ensures { result ≡ is_explained_for (option_map (λ text. text.now) site.entry) self.now.suffixes.now self.now.url.now cookie.now }
    {
        let domain = cookie.domain.as_str();
        match self.url.host_str() {
            Some(host) => {
                covers(domain, host)
                    || covers(host, domain)
                    || is_of_site(domain, site, self.suffixes)
            }
            None => false,
        }
    }

    // Returns the cells of a cookie.
    fn row(&self, alloc: Global, cookie: &Cookie<'_>) -> Result<Cells, Error>
        ensures { IfOk result (λ cells. map string_bytes cells
            ≡ explained_cells self.now.context self.now.suffixes.now self.now.url.now (moment_of self.now.time) cookie.now) }
    {
        Ok([
            domain_cell(alloc, &cookie.domain)?,
            escaped(alloc, cookie.path.as_str())?,
            escaped(alloc, cookie.name())?,
            expiry_cell(alloc, cookie.expires, self.time)?,
            flags_cell(alloc, cookie.raw())?,
            sent_cell(alloc, self.unsent_reason(cookie))?,
        ])
    }

    // Returns the first reason why the request does not have the cookie, if there is one.
    fn unsent_reason(&self, cookie: &Cookie<'_>) -> Option<&'static str>
        ensures { option_map (λ text. text.now) result
            ≡ unsent_reason self.now.context self.now.suffixes.now self.now.url.now (moment_of self.now.time) cookie.now }
    {
        if let Some(exclusion) = cookie.exclusion(self.url, self.time) {
            return Some(exclusion.text());
        }
        if is_for_suffix(cookie, self.suffixes) {
            return Some("domain is a public suffix");
        }
        strict_reason(self.context?, cookie)
    }
}

// Returns the rule of browsers by which a request of this context does not have the cookie.
fn strict_reason(context: Context, cookie: &Cookie<'_>) -> Option<&'static str>
    ensures { option_map (λ text. text.now) result ≡ strict_reason context cookie.now }
{
    if !strict::is_sent(context, cookie) {
        Some("cross-site request, and the cookie is not SameSite=None")
    } else if strict::breaks_prefix(cookie) {
        Some("lacks what the prefix of its name demands")
    } else {
        None
    }
}

// Returns whether a cookie is sent, and the reason if it is not.
fn sent_cell(alloc: Global, reason: Option<&str>) -> Result<String, AllocError>
    ensures { IfOk result (λ cell. string_bytes cell ≡ sent_cell (option_map (λ text. text.now) reason.entry)) }
{
    match reason {
        Some(reason) => format!(in alloc; "no: {reason}"),
        None => String::from_str(alloc, "yes"),
    }
}

// Whether the domain is a name whose registrable domain is this site.
fn is_of_site(domain: &str, site: Option<&str>, suffixes: &List) -> bool
    ensures { result ≡ is_of_site suffixes.now domain.now (option_map (λ text. text.now) site.entry) }
{
    match (site, site_of_name(domain, suffixes)) {
        (Some(site), Some(own)) => site == own,
        _ => false,
    }
}

// Returns the registrable domain of a name, or `None` if this is not a name.
fn site_of_name<'n>(name: &'n str, suffixes: &List) -> Option<&'n str>
    ensures { option_map (λ text. text.now) result ≡ site_of_name suffixes.now name.now }
{
    if is_host_name(name) {
        suffixes.registrable_domain(name)
    } else {
        None
    }
}

/// Returns the error of a rejected `Set-Cookie` header value, and the cookie as parsed, if it is one.
pub fn rejection(
    alloc: Global,
    value: &str,
    syntax: Syntax,
    error: StrictError,
) -> Result<String, AllocError> {
    let mut text = format!(in alloc; "rejected: {error}\n")?;
    if let Ok(raw) = RawCookie::parse_as(value, syntax) {
        push_parsed(alloc, &mut text, as_parsed(alloc, raw)?.as_str())?;
    }
    Ok(text)
}

// Appends a line with the cookie as parsed.
fn push_parsed(alloc: Global, text: &mut String, parsed: &str) -> Result<(), AllocError> {
    let parsed = escaped(alloc, parsed)?;
    writeln!(text, "parsed as: {parsed}")
}

// Returns the cookie as a header value, with Secure only if that is set.
fn as_parsed(alloc: Global, raw: RawCookie<'_>) -> Result<String, AllocError>
    ensures { IfOk result (λ text. string_bytes text ≡ as_parsed raw.entry) }
{
    let is_secure = raw.is_secure();
    let raw = RawCookieBuilder::from_cookie(raw.into_owned(alloc)?);
    raw.secure(is_secure).build().to_text(alloc)
}
