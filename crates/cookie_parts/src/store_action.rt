//! The outcome of an insertion.

/// What a store did with a cookie that it accepted.
#[derive(Clone, Copy, Debug, PartialEq, Eq)]
pub enum StoreAction {
    /// The cookie was inserted; none of the same domain, path and name was stored.
    Inserted,
    /// The cookie has already expired, and so the stored cookie of the same domain, path and name
    /// was expired.
    ExpiredExisting,
    /// The cookie replaced the stored cookie of the same domain, path and name.
    UpdatedExisting,
}
