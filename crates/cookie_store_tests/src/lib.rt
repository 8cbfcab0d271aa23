//! Tests of the store.
//!
//! A function that owns a store, or another value of many parts, ends with a `drop` of it, for the
//! checker: a call of `drop` is proved once, and what would be dropped without it in each function.
#![tactic(auto)]

#[cfg(test)]
mod allocations;
#[cfg(test)]
mod built;
#[cfg(test)]
mod checks;
#[cfg(test)]
mod devices;
#[cfg(test)]
mod durable;
#[cfg(test)]
mod edits;
#[cfg(test)]
mod formats;
#[cfg(test)]
mod functions;
#[cfg(test)]
mod inputs;
#[cfg(test)]
mod insertion;
#[cfg(test)]
mod large;
#[cfg(test)]
mod list_search;
#[cfg(test)]
mod matching;
#[cfg(test)]
mod merged;
#[cfg(test)]
mod netscape;
#[cfg(test)]
mod own_lists;
#[cfg(test)]
mod rejected;
#[cfg(test)]
mod requests;
#[cfg(test)]
mod responses;
#[cfg(test)]
mod rows;
#[cfg(test)]
mod saved_files;
#[cfg(test)]
mod sites;
#[cfg(test)]
mod steps;
#[cfg(test)]
mod strict;
#[cfg(test)]
mod texts;
