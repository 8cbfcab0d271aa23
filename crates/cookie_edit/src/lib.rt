//! Edits of a `cookies.txt` file that change the lines of the cookies that they name, and nothing
//! else: all other lines keep their bytes and their order, comments, blank lines and malformed
//! lines too.
#![tactic(auto)]

pub mod laws;
mod lines;
mod put;
mod retain;

pub use put::put_line;
pub use retain::retain_lines;
