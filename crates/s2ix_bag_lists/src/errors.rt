ghost use Rattle.std.specs.Prelude.{◌≡◌};
ghost use Rattle.s2ix_bag_lists.specs.declared.errors.ApplyError.TheVariants as apply;
ghost use Rattle.s2ix_bag_lists.specs.declared.errors.ChangeError.TheVariants as change;
ghost use Rattle.s2ix_bag_lists.specs.declared.errors.RevertError.TheVariants as revert;

use s2id_core::OutOfMemory;
use std::alloc::AllocError;
use thiserror::Error;

/// Why `Bag::applied` refused a change, in the order of the tests.
#[derive(Clone, Copy, Debug, PartialEq, Eq, Error)]
pub enum ApplyError {
    /// The entry at this place, counted from 0, is the first whose count before is not the bag's.
    #[error("entry {0} has another count before than the bag")]
    Mismatch(usize),
    /// A count after is above the limit.
    #[error("a count is above the limit")]
    TooManyCopies,
    /// The result has more distinct pairs than the limit.
    #[error("more distinct pairs than the limit")]
    TooManyPairs,
    /// A growth was refused.
    #[error("out of memory")]
    OutOfMemory,
}

impl From<OutOfMemory> for ApplyError {
    ghost from_gives = { λ _ error. error ≡ apply.OutOfMemory };

    fn from(_: OutOfMemory) -> Self {
        ApplyError::OutOfMemory
    }
}

/// Why `Bag::reverting` and `Bag::reverted` refused to take a change back, in the order of the tests.
#[derive(Clone, Copy, Debug, PartialEq, Eq, Error)]
pub enum RevertError {
    /// The entry at this place, counted from 0, is the first at which the count would be below 0.
    #[error("entry {0} takes more copies back than the bag has")]
    BelowZero(usize),
    /// A count would be above the limit.
    #[error("a count is above the limit")]
    TooManyCopies,
    /// The result has more distinct pairs than the limit.
    #[error("more distinct pairs than the limit")]
    TooManyPairs,
    /// A growth was refused.
    #[error("out of memory")]
    OutOfMemory,
}

impl From<OutOfMemory> for RevertError {
    ghost from_gives = { λ _ error. error ≡ revert.OutOfMemory };

    fn from(_: OutOfMemory) -> Self {
        RevertError::OutOfMemory
    }
}

/// Why `Change::from_entries` refused a list of entries, in the order of the tests.
#[derive(Clone, Copy, Debug, PartialEq, Eq, Error)]
pub enum ChangeError {
    /// The entry at this place, counted from 0, is the first whose pair is not above that of the entry before it.
    #[error("entry {0} is not above the one before it")]
    Unsorted(usize),
    /// The entry at this place, counted from 0, is the first whose two counts are equal.
    #[error("entry {0} has two equal counts")]
    NoDifference(usize),
    /// A growth was refused.
    #[error("out of memory")]
    OutOfMemory,
}

impl From<AllocError> for ChangeError {
    ghost from_gives = { λ _ error. error ≡ change.OutOfMemory };

    fn from(_: AllocError) -> Self {
        ChangeError::OutOfMemory
    }
}
