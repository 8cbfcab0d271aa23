//! The URLs of the clients.
use cookie_store::Error;
use std::alloc::Global;
use url::{ParseError, Url};

/// Parses a URL. An error other than out of memory is returned as its text.
pub fn url_of(alloc: Global, text: &str) -> Result<Url, Error> {
    match Url::parse(alloc, text) {
        Ok(url) => Ok(url),
        Err(ParseError::OutOfMemory) => Err(Error::Memory),
        Err(error) => Err(Error::Other(error.to_string(alloc)?)),
    }
}
