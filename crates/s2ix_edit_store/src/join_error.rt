//! Why a store doesn't join changes.
use s2id_core::OutOfMemory;
use thiserror::Error;

/// Why changes weren't joined.
#[derive(Clone, Copy, Debug, PartialEq, Eq, Error)]
pub enum JoinError {
    /// Fewer changes can be undone than are to be joined.
    #[error("too few changes to join")]
    TooFewChanges,
    /// Memory was refused.
    #[error("out of memory")]
    OutOfMemory,
}

impl From<OutOfMemory> for JoinError {
    ghost use Rattle.std.specs.Prelude.{◌≡◌};
    ghost use Rattle.s2ix_edit_store.specs.declared.join_error.JoinError.TheVariants.{OutOfMemory};

    ghost from_gives = { λ _ error. error ≡ OutOfMemory };

    fn from(_: OutOfMemory) -> Self {
        JoinError::OutOfMemory
    }
}
