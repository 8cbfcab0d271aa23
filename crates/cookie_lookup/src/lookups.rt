//! Counts of lookups.

/// How many lookups were made. A lookup is one search of a map for one string.
#[derive(Clone, Copy, Debug, PartialEq, Eq)]
pub struct Lookups {
    /// Lookups of a domain.
    pub domains: u128,
    /// Lookups of a path.
    pub paths: u128,
}
