//! Why a store doesn't do a change that it is given.
use s2id_core::OutOfMemory;
use s2ix_bag_lists::ApplyError;
use thiserror::Error;

/// Why a store didn't do a change that it was given. If several refusals are due, the first of this list is returned.
#[derive(Clone, Copy, Debug, PartialEq, Eq, Error)]
pub enum RecordError {
    /// As many changes can be undone as the limit allows.
    #[error("the journal is full")]
    JournalFull,
    /// The change has no entries.
    #[error("nothing would change")]
    NoChange,
    /// The entry at this place, counted from 0, is the first whose count before is not the bag's.
    #[error("entry {0} has another count before than the bag")]
    Mismatch(usize),
    /// A count after is above the limit.
    #[error("a count above the limit")]
    TooManyCopies,
    /// The change would make more distinct pairs than the limit.
    #[error("more distinct pairs than the limit")]
    TooManyPairs,
    /// A growth was refused.
    #[error("out of memory")]
    OutOfMemory,
}

impl From<OutOfMemory> for RecordError {
    ghost use Rattle.std.specs.Prelude.{◌≡◌};
    ghost use Rattle.s2ix_edit_store.specs.declared.record_error.RecordError.TheVariants.{OutOfMemory};

    ghost from_gives = { λ _ error. error ≡ OutOfMemory };

    fn from(_: OutOfMemory) -> Self {
        RecordError::OutOfMemory
    }
}

impl From<ApplyError> for RecordError {
    ghost use Rattle.std.specs.Prelude.{◌≡◌};
    ghost use Rattle.s2ix_edit_store.specs.OneChange.{record_error};

    ghost from_gives = { λ reason error. error ≡ record_error reason };

    fn from(reason: ApplyError) -> Self {
        match reason {
            ApplyError::Mismatch(place) => RecordError::Mismatch(place),
            ApplyError::TooManyCopies => RecordError::TooManyCopies,
            ApplyError::TooManyPairs => RecordError::TooManyPairs,
            ApplyError::OutOfMemory => RecordError::OutOfMemory,
        }
    }
}
