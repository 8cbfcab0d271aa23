//! Reads the arguments that C programs pass: strings, times and URLs.
ghost use Rattle.std.specs.Prelude.{◌≡◌, Err, IsOk};
ghost use Rattle.std.specs.Option.{ok_or};
ghost use Rattle.std.specs.Result.{result_map_both};
ghost use Rattle.cookie_words.specs.Moments.{moment_of};
ghost use Rattle.cookie_parts.specs.Cookie.{and_then};
ghost use Rattle.cookie_store_c.specs.Inputs.{text_and_time, moment_in, page_and_request, parsed_url, request, text_in, url_in, GivesOrRunsOut};

use crate::status::Status;
use cookie_inputs::parse_unambiguous;
use cookie_words::moment_at_second;
use jiff::civil::DateTime;
use std::alloc::{AllocError, Global};
use url::Url;

/// Returns the bytes as a string, or `NotUtf8` if they are not UTF-8.
pub(crate) fn text_in(bytes: &[u8]) -> Result<&str, Status>
    ensures { result_map_both (λ text. text.now) (λ status. status) result ≡ text_in bytes.now }
{
    match str::from_utf8(bytes) {
        Ok(text) => Ok(text),
        Err(_) => Err(Status::NotUtf8),
    }
}

/// Returns the time `seconds` after the epoch, or `BadTime` outside the years -9999 to 9999.
pub(crate) fn moment_in(seconds: i64) -> Result<DateTime, Status>
    ensures { result_map_both moment_of (λ status. status) result ≡ moment_in seconds }
{
    moment_at_second(seconds).ok_or(Status::BadTime)
}

// Parses a URL from which all parsers read the same host.
#[tactic(auto, unfolding(crate::specs::Inputs::url_in))]
fn url_in(alloc: Global, text: &str) -> Result<Url, Status>
    ensures { GivesOrRunsOut result (url_in text.now) }
{
    url_or_status(parse_unambiguous(alloc, text))
}

// The URL that was parsed, or `BadUrl` if there is none.
fn url_or_status(parsed: Result<Option<Url>, AllocError>) -> Result<Url, Status>
    ensures { result ≡ and_then (result_map_both (λ url. url) (λ _. Status.NoMemory) parsed) (λ url. ok_or url Status.BadUrl) }
{
    match parsed {
        Ok(Some(url)) => Ok(url),
        Ok(None) => Err(Status::BadUrl),
        Err(_) => Err(Status::NoMemory),
    }
}

/// Parses `url`.
///
/// The errors are `NotUtf8` and `BadUrl`, checked in this order. `NoMemory` is returned only if the
/// first does not apply.
pub(crate) fn parsed_url(alloc: Global, url: &[u8]) -> Result<Url, Status>
    ensures value { GivesOrRunsOut result (parsed_url url.now) }
    ensures memory { result ≡ Err Status.NoMemory → IsOk (text_in url.now) }
{
    url_in(alloc, text_in(url)?)
}

/// Parses `url` and reads the time `now` seconds after the epoch.
///
/// The errors are `NotUtf8`, `BadTime` and `BadUrl`, checked in this order. `NoMemory` is
/// returned only if neither of the first two applies.
pub(crate) fn request(alloc: Global, url: &[u8], now: i64) -> Result<(Url, DateTime), Status>
    ensures value { GivesOrRunsOut (result_map_both (λ request. (request.0, moment_of request.1)) (λ status. status) result) (request url.now now) }
    ensures memory { result ≡ Err Status.NoMemory → IsOk (text_and_time url.now now) }
{
    let (text, now) = (text_in(url)?, moment_in(now)?);
    Ok((url_in(alloc, text)?, now))
}

/// Parses the URL of a page, and the URL and the time of a request that it made, as [`request`] does.
///
/// The errors are `NotUtf8`, `BadTime` and `BadUrl`, checked in this order. `NoMemory` is
/// returned only if neither of the first two applies.
pub(crate) fn page_and_request(
    alloc: Global,
    page: &[u8],
    url: &[u8],
    now: i64,
) -> Result<(Url, Url, DateTime), Status>
    ensures value { GivesOrRunsOut (result_map_both (λ inputs. (inputs.0, inputs.1, moment_of inputs.2)) (λ status. status) result)
        (page_and_request page.now url.now now) }
    ensures memory { result ≡ Err Status.NoMemory → IsOk (text_in page.now) × IsOk (text_and_time url.now now) }
{
    let page = text_in(page)?;
    let (url, now) = request(alloc, url, now)?;
    Ok((url_in(alloc, page)?, url, now))
}
