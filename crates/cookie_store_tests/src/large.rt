//! Each call that may allocate, with large input and ample memory: its result is that of small
//! input, and not out of memory.
mod cookies;
mod files;
mod lines;
mod stores;
mod strings;
