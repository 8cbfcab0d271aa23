//! Errors.
use sqlite_trees::error::StoreError;
use std::alloc::AllocError;

/// Why a call of a [`DurableStore`](crate::DurableStore) failed.
#[derive(Clone, Copy, Debug, PartialEq, Eq)]
pub enum DurableError {
    /// An earlier call returned `NotWritten`. Open the file again. The call changed nothing.
    Failed,
    /// The table has no rowid left for a cookie. The call changed nothing.
    Full,
    /// The cookie has too long strings or a time before the year 0. The call changed
    /// nothing.
    Unstorable,
    /// Out of memory. The call changed nothing.
    OutOfMemory,
    /// The call changed the cookies, and its commit failed for this reason: the change may be in the
    /// file or not.
    NotWritten(StoreError),
}

impl From<AllocError> for DurableError {
    ghost use Rattle.std.specs.Prelude.{◌≡◌};
    ghost use Rattle.cookie_durable.specs.declared.durable_error.DurableError.TheVariants.{OutOfMemory};

    ghost from_gives = { λ _ e. e ≡ OutOfMemory };

    fn from(_: AllocError) -> DurableError {
        DurableError::OutOfMemory
    }
}
