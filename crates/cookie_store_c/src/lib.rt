//! The cookie store for C and for languages that call C: the functions that
//! `bindings/c/cookie_store.h` declares.
#![tactic(auto)]

mod buffer;
mod calls;
mod cookie_row;
mod exports;
mod handle;
mod header;
mod header_exports;
mod inputs;
mod inserting;
mod loading;
mod merging;
mod options;
mod request_rows;
mod response;
mod roots;
mod row_exports;
mod row_iter;
mod saved_exports;
mod saving;
mod status;
mod store_ptr;
