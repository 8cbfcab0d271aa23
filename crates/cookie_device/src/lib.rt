//! Input and output that can fail: the traits [`Source`] and [`Sink`], which specify the bytes read
//! or written and count failed calls, a buffer that reads lines, and a buffer for output.
#![tactic(auto)]

mod counted;
mod device;
mod lines;
mod output;
mod reading;

pub use counted::Counted;
pub use device::{DeviceFailed, Sink, Source, write_all, write_line};
pub use lines::{FillError, LineBuffer};
pub use output::Output;
pub use reading::read_all;
