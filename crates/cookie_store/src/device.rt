//! Readers and writers that count their failed calls.

pub use cookie_device::{Counted, DeviceFailed, Sink, Source};
