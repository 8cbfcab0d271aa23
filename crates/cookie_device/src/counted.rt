//! A reader or writer of `std` that counts its failed calls.
ghost use Rattle.std.specs.Prelude.{◌≡◌, ◌-◌, ◌^◌};
ghost use Rattle.cookie_device.specs.Counted.{CountedValue};

use crate::device::{DeviceFailed, Sink, Source};
use std::io::{Read, Write};
use std::marker::Model;

/// A reader or writer of `std` that counts its failed calls.
///
/// A failed call is not retried. A write fails if it takes no byte of a nonempty buffer, and a read
/// fails after 2^64 - 1 successful ones.
#[derive(Drop)]
pub struct Counted<D> {
    device: D,
    failures: u64,
    reads: u64,
}

impl<D> Model for Counted<D> {
    ghost Value = { CountedValue D };

    ghost view = { λ c. record { device = c.device; failures = c.failures; reads_left = c.reads } };
}

impl<D> Counted<D> {
    /// Wraps `device`, with no failed calls.
    pub fn new(device: D) -> Counted<D>
        ensures { result ≡ record { device = device; failures = 0; reads_left = 2 ^ 64 - 1 } }
    {
        Counted {
            device,
            failures: 0,
            reads: u64::MAX,
        }
    }

    /// Returns the wrapped reader or writer.
    pub fn into_inner(self) -> D
        ensures { result ≡ self.device }
    {
        let Counted { device, .. } = self;
        device
    }
}

impl<R: Read> Source for Counted<R> {
    ghost state = { λ s. record { remaining = R.remaining s.device; failed = s.failures; reads_left = s.reads_left } };

    fn read(&mut self, buf: &mut [u8]) -> Result<usize, DeviceFailed> {
        if self.reads == 0 {
            self.failures += 1;
            return Err(DeviceFailed);
        }
        match self.device.read(buf) {
            Ok(count) => {
                self.reads -= 1;
                Ok(count)
            }
            Err(_) => {
                self.failures += 1;
                Err(DeviceFailed)
            }
        }
    }

    fn failures(&self) -> u64 {
        self.failures
    }
}

impl<W: Write> Sink for Counted<W> {
    ghost state = { λ s. record { contents = W.contents s.device; failed = s.failures } };

    fn write(&mut self, buf: &[u8]) -> Result<usize, DeviceFailed> {
        match self.device.write(buf) {
            Ok(count) if count > 0 || buf.is_empty() => Ok(count),
            _ => {
                self.failures += 1;
                Err(DeviceFailed)
            }
        }
    }

    fn failures(&self) -> u64 {
        self.failures
    }
}
