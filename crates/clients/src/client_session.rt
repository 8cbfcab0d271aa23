//! A client of one site: it starts with the cookies of an older program, stores those of the site's
//! responses, returns the `Cookie` header of its requests, and saves its cookies in a file for its
//! next run.
use crate::urls::url_of;
use cookie_store::device::Counted;
use cookie_store::{Bulk, CookieStore, Error, RawCookie, serde};
use jiff::civil::{DateTime, date};
use log::Log;
use std::alloc::Global;
use std::fs::{self, Files};
use url::Url;

/// The site of the client.
const SITE: &str = "https://shop.example/";

/// The file that keeps the cookies between two runs.
const FILE: &str = "cookies.json";

/// The RON list that `cookie_jar --convert` wrote from the older program's lines.
const LEGACY: &str = "legacy.ron";

/// The headers of a response.
const HEADERS: [(&str, &str); 4] = [
    ("Content-Type", "text/html"),
    ("Set-Cookie", "visit=7; Max-Age=3600"),
    ("set-cookie", "tab=orders; Secure"),
    ("Set-Cookie", "spy=1; Domain=other.example"),
];

/// The cookies of a client of one site.
#[derive(Drop)]
struct Session {
    site: Url,
    store: CookieStore,
}

impl Session {
    /// Creates a session with the cookies of the older program.
    fn adopt<F: Files>(
        alloc: Global,
        files: &F,
        site: Url,
        now: DateTime,
    ) -> Result<Session, Error> {
        let file = fs::open(files, LEGACY).map_err(|_| Error::Io)?;
        let store = serde::ron::load(alloc, &mut Counted::new(file), now)?;
        Ok(Session { site, store })
    }

    /// Stores the cookies of the headers of a response received at `now`. A cookie that is rejected
    /// is logged and skipped.
    fn receive<L: Log>(
        &mut self,
        log: &L,
        headers: &[(&str, &str)],
        now: DateTime,
    ) -> Result<(), Error> {
        let cookies = headers
            .iter()
            .filter(|header| header.0.eq_ignore_ascii_case("Set-Cookie"))
            .filter_map(|header| RawCookie::parse(header.1).ok());
        self.store
            .store_response_cookies(log, cookies, &self.site, now)?;
        Ok(())
    }

    /// Returns the value of the `Cookie` header of a request at `now`, if there is one.
    fn header(&self, now: DateTime) -> Result<Option<String>, Error> {
        Ok(self.store.cookie_header(&self.site, now)?)
    }

    /// Saves the cookies as a JSON list, session cookies included, since most logins are.
    fn save<F: Files>(&self, files: &F) -> Result<(), Error> {
        let file = fs::create(files, FILE).map_err(|_| Error::Io)?;
        serde::json::save_incl_expired_and_nonpersistent(&self.store, &mut Counted::new(file))
    }

    /// Creates a session with the unexpired cookies that an earlier one saved.
    fn load<F: Files>(
        alloc: Global,
        files: &F,
        site: Url,
        now: DateTime,
    ) -> Result<Session, Error> {
        let file = fs::open(files, FILE).map_err(|_| Error::Io)?;
        let store = serde::json::load(alloc, &mut Counted::new(file), now)?;
        Ok(Session { site, store })
    }
}

/// Prints the `Cookie` header, if there is one.
fn print_header(rt: &HostRuntime, header: Option<String>) -> Result<(), Error> {
    match header {
        Some(value) => println!(rt; "Cookie: {value}").map_err(|_| Error::Io),
        None => Ok(()),
    }
}

/// Stores the cookies of a response, prints the header of the next request, and saves the cookies.
fn visit(rt: &HostRuntime, session: &mut Session, now: DateTime) -> Result<(), Error> {
    session.receive(rt, &HEADERS, now)?;
    print_header(rt, session.header(now)?)?;
    session.save(rt)
}

/// Runs the client for the first time.
fn first_run(rt: &HostRuntime, now: DateTime) -> Result<(), Error> {
    let site = url_of(rt.alloc(), SITE)?;
    visit(rt, &mut Session::adopt(rt.alloc(), rt, site, now)?, now)
}

/// Runs the client again, with the cookies that it saved.
fn next_run(rt: &HostRuntime, now: DateTime) -> Result<(), Error> {
    let site = url_of(rt.alloc(), SITE)?;
    let session = Session::load(rt.alloc(), rt, site, now)?;
    print_header(rt, session.header(now)?)
}

/// Runs the client twice.
pub fn run(rt: &HostRuntime) -> Result<(), Error> {
    let now = date(2026, 1, 1).at(0, 0, 0, 0);
    first_run(rt, now)?;
    next_run(rt, now)
}
