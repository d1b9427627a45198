//! Why a store takes no history, or does no given changes.
use s2id_core::OutOfMemory;
use s2ix_bag::ReplayError;
use thiserror::Error;

/// Why a store didn't take a list of changes, as its history or as what is to be done. Changes are numbered in the list, from 1.
/// `JournalFull` is tested first, then `NoChange`. Then each change must fit the bag before it, from the first on; in a history each must
/// fit the bag after it, from the last on.
#[derive(Clone, Copy, Debug, PartialEq, Eq, Error)]
pub enum HistoryError {
    /// More changes could be undone than the limit allows.
    #[error("the journal is full")]
    JournalFull,
    /// The change has no entries.
    #[error("change {change}: nothing would change")]
    NoChange { change: usize },
    /// The number, counted from 1, of the change's first entry whose count before is not the bag's; for a history, whose count after is not.
    #[error("change {change}: entry {entry} has another count than the bag")]
    Mismatch { change: usize, entry: usize },
    /// The change would make a count greater than the limit.
    #[error("change {change}: a count above the limit")]
    TooManyCopies { change: usize },
    /// The change would make more distinct pairs than the limit.
    #[error("change {change}: more distinct pairs than the limit")]
    TooManyPairs { change: usize },
    /// A growth was refused.
    #[error("out of memory")]
    OutOfMemory,
}

impl From<OutOfMemory> for HistoryError {
    ghost use Rattle.std.specs.Prelude.{◌≡◌};
    ghost use Rattle.s2ix_edit_store.specs.declared.history_error.HistoryError.TheVariants.{OutOfMemory};

    ghost from_gives = { λ _ error. error ≡ OutOfMemory };

    fn from(_: OutOfMemory) -> Self {
        HistoryError::OutOfMemory
    }
}

impl From<ReplayError> for HistoryError {
    ghost use Rattle.std.specs.Prelude.{◌≡◌};
    ghost use Rattle.s2ix_edit_store.specs.Given.{history_error};

    ghost from_gives = { λ reason error. error ≡ history_error reason };

    fn from(reason: ReplayError) -> Self {
        match reason {
            ReplayError::Mismatch { change, entry } => HistoryError::Mismatch { change, entry },
            ReplayError::TooManyCopies { change } => HistoryError::TooManyCopies { change },
            ReplayError::TooManyPairs { change } => HistoryError::TooManyPairs { change },
            ReplayError::OutOfMemory => HistoryError::OutOfMemory,
        }
    }
}
