//! Tests of a cookie's parts and of the crates below them, of maps and of tables, on examples from
//! outside the project and with each allocation failing in turn.
//!
//! A function that owns a string, a cookie or another value of several parts ends with a `drop` of
//! it, for the checker: a call of `drop` is proved once, and what would be dropped without it in each
//! function.
#![tactic(auto)]

#[cfg(test)]
mod checks;
#[cfg(test)]
mod cookie;
#[cfg(test)]
mod device_reads;
#[cfg(test)]
mod device_writes;
#[cfg(test)]
mod domain;
#[cfg(test)]
mod expiry;
#[cfg(test)]
mod large;
#[cfg(test)]
mod maps;
#[cfg(test)]
mod messages;
#[cfg(test)]
mod parts;
#[cfg(test)]
mod path;
#[cfg(test)]
mod psl;
#[cfg(test)]
mod raw;
#[cfg(test)]
mod requests;
#[cfg(test)]
mod saved;
#[cfg(test)]
mod table_rows;
#[cfg(test)]
mod times;
#[cfg(test)]
mod transactions;
