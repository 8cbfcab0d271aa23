//! A crawler of many hosts. It reads a public suffix list from a file, so that no host sets domain
//! cookies for a public suffix.
use crate::urls::url_of;
use cookie_store::psl::{List, ListError};
use cookie_store::{CookieError, CookieStore, Error, HashKey};
use jiff::civil::{DateTime, date};
use std::alloc::Global;
use std::fs;
use std::hash::RandomState;
use url::Url;

/// The file of the public suffix list.
const FILE: &str = "suffixes.dat";

/// The URL of a page, and the `Set-Cookie` header values of its response.
type Page = (&'static str, &'static [&'static str]);

/// The pages, in the order in which they are visited.
static PAGES: [Page; 5] = [
    (
        "http://example.com/",
        &["seen=1; Domain=example.com", "all=1; Domain=com"],
    ),
    ("http://blog.example.com/", &["theme=dark"]),
    (
        "http://alice.github.io/",
        &["pages=1; Domain=github.io", "mine=1"],
    ),
    ("http://bob.github.io/", &[]),
    ("http://blog.example.com/2026", &[]),
];

/// Visits pages, and stores their cookies.
#[derive(Drop)]
struct Crawler {
    store: CookieStore,
}

impl Crawler {
    /// Creates a crawler without cookies, under the public suffix list of the file. Its maps hash by a
    /// random key, since any server may choose the names of cookies.
    fn new(rt: &HostRuntime) -> Result<Crawler, Error> {
        let alloc = rt.alloc();
        let text = fs::read_to_string(rt, FILE).map_err(|_| Error::Io)?;
        let list = list_of(alloc, text.as_str())?;
        let key = RandomState::new(rt).map_err(|_| Error::Io)?;
        let mut store = CookieStore::with_hash_key(alloc, HashKey::Random(key));
        store.set_suffix_list(list);
        Ok(Crawler { store })
    }

    /// Returns the value of the `Cookie` header of a request for the page, if there is one.
    fn header(&self, page: &Url, now: DateTime) -> Result<Option<String>, Error> {
        Ok(self.store.cookie_header(page, now)?)
    }

    /// Parses a `Set-Cookie` header value of the page and inserts the cookie. Returns `taken`, or
    /// the text of the error.
    fn take(&mut self, text: &str, page: &Url, now: DateTime) -> Result<&'static str, Error> {
        match self.store.parse(text, page, now) {
            Ok(_) => Ok("taken"),
            Err(CookieError::Memory) => Err(Error::Memory),
            Err(error) => Ok(error.text()),
        }
    }
}

/// Parses a public suffix list. An error other than out of memory is returned as its text.
fn list_of(alloc: Global, text: &str) -> Result<List, Error> {
    match List::from_text(alloc, text) {
        Ok(list) => Ok(list),
        Err(ListError::Memory) => Err(Error::Memory),
        Err(error) => Err(Error::Other(error.to_string(alloc)?)),
    }
}

/// Prints the header of a request for the page.
fn print_header(
    rt: &HostRuntime,
    crawler: &Crawler,
    page: &Url,
    now: DateTime,
) -> Result<(), Error> {
    let header = crawler.header(page, now)?;
    let header = header.as_deref().unwrap_or("no cookies");
    println!(rt; "{page} ({header})").map_err(|_| Error::Io)
}

/// Stores the cookies of the page, and prints what became of each.
fn take_each(
    rt: &HostRuntime,
    crawler: &mut Crawler,
    texts: &[&str],
    page: &Url,
    now: DateTime,
) -> Result<(), Error> {
    for text in texts {
        let outcome = crawler.take(text, page, now)?;
        println!(rt; "  {text}: {outcome}").map_err(|_| Error::Io)?;
    }
    Ok(())
}

/// Visits a page: prints the header of the request, and stores the cookies of the response.
fn visit(
    rt: &HostRuntime,
    crawler: &mut Crawler,
    address: &str,
    texts: &[&str],
    now: DateTime,
) -> Result<(), Error> {
    let page = url_of(rt.alloc(), address)?;
    print_header(rt, crawler, &page, now)?;
    take_each(rt, crawler, texts, &page, now)
}

/// Visits the pages, one after the other.
pub fn run(rt: &HostRuntime) -> Result<(), Error> {
    let now = date(2026, 1, 1).at(0, 0, 0, 0);
    let mut crawler = Crawler::new(rt)?;
    for (address, texts) in &PAGES {
        visit(rt, &mut crawler, address, texts, now)?;
    }
    Ok(())
}
