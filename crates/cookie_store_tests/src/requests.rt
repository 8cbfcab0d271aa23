//! The calls that return the cookies of a request.
use crate::allocations::{end, start};
use crate::checks::{is_equal, is_text};
use crate::steps::new_year;
use crate::texts::{add, push_cookies};
use cookie_store::strict::{Context, cookies_for};
use cookie_store::{Cookie, CookieStore, RequestCookies, RequestValues, cookie_string};
use std::alloc::{AllocError, Global};
use std::process::Abort;
use url::Url;

// A call that returns the cookies of a request. The last one is `strict::cookies_for`, whose
// cookies are formatted by `cookie_string`.
#[derive(Clone, Copy, Debug)]
pub enum Request {
    Matches,
    Counted,
    InOrder,
    Header,
    Values,
    Cookies,
    Strict,
}

const SAME_SITE: Context = Context {
    is_same_site: true,
    is_top_level: false,
    is_safe: true,
    is_lax_by_default: true,
};

fn cookies_by<'s>(
    request: Request,
    store: &'s CookieStore,
    url: &Url,
) -> Result<Vec<&'s Cookie<'static>>, AllocError> {
    match request {
        Request::Counted => Ok(store.matches_counted(url, new_year())?.0),
        Request::InOrder => store.cookies_in_order(url, new_year()),
        _ => store.matches(url, new_year()),
    }
}

fn strict_header(alloc: Global, store: &CookieStore, url: &Url) -> Result<String, AllocError> {
    let cookies = cookies_for(store, url, SAME_SITE, new_year())?;
    cookie_string(alloc, cookies.as_slice())
}

fn push_values(rt: &impl Abort, text: &mut String, values: RequestValues<'_>) {
    for (name, value) in values {
        add(rt, text, "; ", &[name, "=", value]);
    }
}

fn push_raw_cookies(rt: &impl Abort, text: &mut String, cookies: RequestCookies<'_>) {
    for cookie in cookies {
        add(rt, text, "; ", &[cookie.name(), "=", cookie.value()]);
    }
}

// Appends the cookies that the call returns, as a header.
fn push_request(
    rt: &impl Abort,
    alloc: Global,
    request: Request,
    store: &CookieStore,
    url: &Url,
    text: &mut String,
) -> Result<(), AllocError> {
    match request {
        Request::Header => {
            let header = store.cookie_header(url, new_year())?;
            text.push_str(header.as_deref().unwrap_or(""))
                .expect(rt, "memory");
        }
        Request::Strict => {
            let header = strict_header(alloc, store, url)?;
            text.push_str(header.as_str()).expect(rt, "memory");
        }
        Request::Values => push_values(rt, text, store.get_request_values(url, new_year())?),
        Request::Cookies => {
            push_raw_cookies(rt, text, store.get_request_cookies(url, new_year())?);
        }
        _ => push_cookies(rt, text, cookies_by(request, store, url)?.as_slice()),
    }
    Ok(())
}

// Checks the cookies that the call returns for the URL, or that it ran out of memory because an
// allocation failed. The string has room for them, so that only the call allocates.
pub fn is_returned(
    rt: &impl Abort,
    alloc: Global,
    request: Request,
    store: &CookieStore,
    url: &Url,
    wanted: &str,
) {
    let mut text = String::with_capacity(alloc, 200_000).expect(rt, "memory");
    start(alloc);
    let outcome = push_request(rt, alloc, request, store, url, &mut text);
    let is_ample = end(alloc);
    if outcome.is_ok() {
        is_text(rt, text.as_str(), wanted, &request);
    } else {
        is_equal(rt, &is_ample, &false, &request);
    }
}
