//! Loads cookies from bytes in memory, and counts the bytes that saving them writes.
ghost use Rattle.std.specs.Prelude.{None, Some};

use crate::urls::url_of;
use cookie_store::device::{DeviceFailed, Sink, Source};
use cookie_store::{Bulk, Cookie, CookieStore, Error};
use jiff::civil::{DateTime, date};
use std::alloc::Global;
use url::Url;

/// A source that reads bytes in memory.
#[derive(Drop)]
struct Bytes<'a> {
    /// The bytes that are still to be read.
    unread: &'a [u8],
    /// How many more reads may succeed.
    reads: u64,
    /// How many reads have failed.
    failures: u64,
}

impl<'a> Source for Bytes<'a> {
    ghost state = { λ s. record { remaining = Some s.unread.now; failed = s.failures; reads_left = s.reads } };

    fn read(&mut self, buf: &mut [u8]) -> Result<usize, DeviceFailed> {
        if self.reads == 0 {
            self.failures += 1;
            return Err(DeviceFailed);
        }
        self.reads -= 1;
        let count = buf.len().min(self.unread.len());
        buf[..count].copy_from_slice(&self.unread[..count]);
        self.unread = &self.unread[count..];
        Ok(count)
    }

    fn failures(&self) -> u64 {
        self.failures
    }
}

/// A sink that counts the bytes written, and keeps none.
#[derive(Drop)]
struct Length {
    bytes: u64,
    /// How many writes have failed.
    failures: u64,
}

impl Sink for Length {
    ghost state = { λ s. record { contents = None; failed = s.failures } };

    fn write(&mut self, buf: &[u8]) -> Result<usize, DeviceFailed> {
        match self.bytes.checked_add(buf.len() as u64) {
            Some(bytes) => {
                self.bytes = bytes;
                Ok(buf.len())
            }
            None => {
                self.failures += 1;
                Err(DeviceFailed)
            }
        }
    }

    fn failures(&self) -> u64 {
        self.failures
    }
}

/// Loads the cookies of two lines in memory.
fn load(alloc: Global, now: DateTime) -> Result<CookieStore, Error> {
    let site = url_of(alloc, "http://example.com/")?;
    let mut source = Bytes {
        unread: b"a=1; Max-Age=60\nb=2; Max-Age=0\n",
        reads: u64::MAX,
        failures: 0,
    };
    CookieStore::load(
        alloc,
        &mut source,
        |line| Ok(Cookie::parse(alloc, line, &site, now)?),
        now,
    )
}

/// Returns how many bytes saving the cookies writes.
fn saved_len(alloc: Global, store: &CookieStore, now: DateTime) -> Result<u64, Error> {
    let mut length = Length {
        bytes: 0,
        failures: 0,
    };
    store.save(&mut length, |cookie| Ok(cookie.raw().to_text(alloc)?), now)?;
    Ok(length.bytes)
}

/// Loads cookies, and prints how long they are when saved.
pub fn run(rt: &HostRuntime) -> Result<(), Error> {
    let (alloc, now) = (rt.alloc(), date(2026, 1, 1).at(0, 0, 0, 0));
    let store = load(alloc, now)?;
    let bytes = saved_len(alloc, &store, now)?;
    println!(rt; "{bytes} bytes").map_err(|_| Error::Io)
}
