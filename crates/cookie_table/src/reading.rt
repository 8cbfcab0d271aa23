//! Reads a cookie from a row of the table `cookies`.
ghost use Rattle.std.specs.Prelude.{◌≡◌, ◌⊎◌, None, Ok, Some, Err, IfErr, IfOk, option_map};
ghost use Rattle.cookie_table.specs.FromColumns.{cookie_in, domain_in, path_in, raw_in};
ghost use Rattle.cookie_table.specs.Views.{columns_row, domain_view, path_view, raw_view};

use crate::values::{
    expiry_at, flag_at, number_at, opt_age_at, opt_attribute_at, opt_flag_at, opt_site_at,
    opt_text_at, text_at,
};
use cookie_forms::SavedError;
use cookie_parts::{Cookie, CookieExpiration};
use cookie_raw::{Expiration, SameSite};
use jiff::SignedDuration;
use sqlite_value::row::Row;
use std::alloc::Global;

// The places of the columns in a row: the first has the rowid, and the second its NULL.
const HOST: usize = 2;

const KIND: usize = 3;

const PATH: usize = 4;

const PATH_MARK: usize = 5;

const NAME: usize = 6;

const VALUE: usize = 7;

const EXPIRY: usize = 8;

const SECURE: usize = 9;

const HTTP_ONLY: usize = 10;

const SAME_SITE: usize = 11;

const DOMAIN_ATTRIBUTE: usize = 12;

const PATH_ATTRIBUTE: usize = 13;

const MAX_AGE: usize = 14;

const EXPIRES: usize = 15;

/// The domain of a row, before its string is copied.
#[derive(Clone, Copy)]
pub(crate) enum Domain<'a> {
    HostOnly(&'a str),
    Suffix(&'a str),
    NotPresent,
    Empty,
}

/// The path of a row, before its string is copied.
#[derive(Clone, Copy)]
pub(crate) struct Path<'a> {
    pub(crate) text: &'a str,
    pub(crate) is_from_attribute: bool,
}

/// The raw cookie of a row, before its strings are copied.
#[derive(Clone, Copy)]
pub(crate) struct Raw<'a> {
    pub(crate) name: &'a str,
    pub(crate) value: &'a str,
    pub(crate) secure: Option<bool>,
    pub(crate) http_only: Option<bool>,
    pub(crate) same_site: Option<SameSite>,
    pub(crate) domain: Option<&'a str>,
    pub(crate) path: Option<&'a str>,
    pub(crate) max_age: Option<SignedDuration>,
    pub(crate) expires: Option<Expiration>,
}

/// The cookie of a row, before its strings are copied.
#[derive(Clone, Copy)]
pub(crate) struct Columns<'a> {
    pub(crate) domain: Domain<'a>,
    pub(crate) path: Path<'a>,
    pub(crate) raw: Raw<'a>,
    pub(crate) expires: CookieExpiration,
}

/// Reads the cookie of a row.
///
/// # Errors
///
/// - `Shape`: a column has a value that [`to_row`](crate::to_row) does not write: another type, an
///   unknown number, a string that is not UTF-8 or an expiry that is not a time. Tested before
///   anything is allocated.
/// - `Memory`: out of memory.
pub fn from_row(alloc: Global, row: &Row) -> Result<Cookie<'static>, SavedError>
    ensures cookie { IfOk result (λ cookie. cookie_in row.now ≡ Some cookie) }
    ensures early { cookie_in row.now ≡ None → result ≡ Err SavedError.Shape }
    ensures errors { IfErr result (λ e. (e ≡ SavedError.Memory) ⊎ ((e ≡ SavedError.Shape) × (cookie_in row.now ≡ None))) }
{
    match read_columns(row) {
        Some(columns) => Ok(columns.to_cookie(alloc)?),
        None => Err(SavedError::Shape),
    }
}

// Reads the domain, the path, the raw cookie and the expiry.
#[tactic(auto, unfolding(crate::specs::FromColumns::cookie_in))]
fn read_columns(row: &Row) -> Option<Columns<'_>>
    ensures { option_map columns_row result ≡ cookie_in row.now }
{
    let Some(domain) = read_domain(row) else {
        return None;
    };
    let Some(path) = read_path(row) else {
        return None;
    };
    let Some(raw) = read_raw(row) else {
        return None;
    };
    let expires = expiry_at(row, EXPIRY)?;
    Some(Columns {
        domain,
        path,
        raw,
        expires,
    })
}

// Reads the domain.
#[tactic(auto, unfolding(crate::specs::FromColumns::domain_in))]
fn read_domain(row: &Row) -> Option<Domain<'_>>
    ensures { option_map domain_view result ≡ domain_in row.now }
{
    let text = text_at(row, HOST)?;
    match number_at(row, KIND)? {
        0 => Some(Domain::HostOnly(text)),
        1 => Some(Domain::Suffix(text)),
        2 => Some(Domain::NotPresent),
        3 => Some(Domain::Empty),
        _ => None,
    }
}

// Reads the path.
#[tactic(auto, unfolding(crate::specs::FromColumns::path_in))]
fn read_path(row: &Row) -> Option<Path<'_>>
    ensures { option_map path_view result ≡ path_in row.now }
{
    let text = text_at(row, PATH)?;
    let is_from_attribute = flag_at(row, PATH_MARK)?;
    Some(Path {
        text,
        is_from_attribute,
    })
}

// Reads the raw cookie.
#[tactic(auto, unfolding(crate::specs::FromColumns::raw_in))]
fn read_raw(row: &Row) -> Option<Raw<'_>>
    ensures { option_map raw_view result ≡ raw_in row.now }
{
    let name = text_at(row, NAME)?;
    let value = text_at(row, VALUE)?;
    let secure = opt_flag_at(row, SECURE)?;
    let http_only = opt_flag_at(row, HTTP_ONLY)?;
    let same_site = opt_site_at(row, SAME_SITE)?;
    let domain = opt_text_at(row, DOMAIN_ATTRIBUTE)?;
    let path = opt_text_at(row, PATH_ATTRIBUTE)?;
    let max_age = opt_age_at(row, MAX_AGE)?;
    let expires = opt_attribute_at(row, EXPIRES)?;
    Some(Raw {
        name,
        value,
        secure,
        http_only,
        same_site,
        domain,
        path,
        max_age,
        expires,
    })
}
