use s2id_core::OutOfMemory;
use thiserror::Error;

/// Why [`replay`](crate::replay) or [`rewind`](crate::rewind) refused a list of changes: the first change that is refused, by its number in
/// the list counted from 1, and why. If several reasons are due on one change, the first of this list is returned.
#[derive(Clone, Copy, Debug, PartialEq, Eq, Error)]
pub enum ReplayError {
    /// The number, counted from 1, of the change's first entry whose count before is not the bag's; for `rewind`, whose count after is not.
    #[error("change {change}: entry {entry} has another count than the bag")]
    Mismatch { change: usize, entry: usize },
    /// The change would make a count greater than the limit.
    #[error("change {change}: a count above the limit")]
    TooManyCopies { change: usize },
    /// The change would make more distinct pairs than the limit.
    #[error("change {change}: more distinct pairs than the limit")]
    TooManyPairs { change: usize },
    /// A growth was refused.
    #[error("out of memory")]
    OutOfMemory,
}

impl From<OutOfMemory> for ReplayError {
    ghost use Rattle.std.specs.Prelude.{◌≡◌};
    ghost use Rattle.s2ix_bag.specs.declared.replay_error.ReplayError.TheVariants as refusal;

    ghost from_gives = { λ _ error. error ≡ refusal.OutOfMemory };

    fn from(_: OutOfMemory) -> Self {
        ReplayError::OutOfMemory
    }
}
