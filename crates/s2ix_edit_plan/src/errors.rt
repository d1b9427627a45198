use s2id_core::OutOfMemory;
use s2ix_bag_lists::RevertError;
use thiserror::Error;

/// Why an edit was refused. If several refusals are due, the first of this list is returned. `OutOfMemory` may replace `NoChange`,
/// `TooManyCopies` or `TooManyPairs`, and none of the others.
#[derive(Clone, Copy, Debug, PartialEq, Eq, Error)]
pub enum EditError {
    /// As many changes can be undone as the limit allows.
    #[error("the journal is full")]
    JournalFull,
    /// No pair of the label is held.
    #[error("no pair of the label is held")]
    NoSuchLabel,
    /// Fewer copies are held than the edit takes.
    #[error("too few copies are held")]
    NotHeld,
    /// The level is above 30, or more than 8 above the level of a cell of the label.
    #[error("the level is too fine")]
    TooFine,
    /// The number is 0, or greater than the number of changes that can be undone.
    #[error("no change has the number")]
    NoSuchChange,
    /// A count would be below 0.
    #[error("a count would be below 0")]
    BelowZero,
    /// The collection would stay as it is.
    #[error("nothing would change")]
    NoChange,
    /// A count would pass the limit.
    #[error("a count would pass the limit")]
    TooManyCopies,
    /// The number of distinct pairs would pass the limit.
    #[error("the number of pairs would pass the limit")]
    TooManyPairs,
    /// Memory was refused.
    #[error("out of memory")]
    OutOfMemory,
}

impl From<OutOfMemory> for EditError {
    ghost use Rattle.std.specs.Prelude.{◌≡◌};
    ghost use Rattle.s2ix_edit_plan.specs.declared.errors.EditError.TheVariants.{OutOfMemory};

    ghost from_gives = { λ _ error. error ≡ OutOfMemory };

    fn from(_: OutOfMemory) -> Self {
        EditError::OutOfMemory
    }
}

impl From<RevertError> for EditError {
    ghost use Rattle.std.specs.Prelude.{◌≡◌};
    ghost use Rattle.s2ix_edit_plan.specs.Errors.{revert_error};

    ghost from_gives = { λ reason error. error ≡ revert_error reason };

    fn from(reason: RevertError) -> Self {
        match reason {
            RevertError::BelowZero(_) => EditError::BelowZero,
            RevertError::TooManyCopies => EditError::TooManyCopies,
            RevertError::TooManyPairs => EditError::TooManyPairs,
            RevertError::OutOfMemory => EditError::OutOfMemory,
        }
    }
}

/// Why rows were not removed. If several refusals are due, the first of this list is returned. `OutOfMemory` may replace `NotHeld`, and
/// neither of the others.
#[derive(Clone, Copy, Debug, PartialEq, Eq, Error)]
pub enum RemoveError {
    /// As many changes can be undone as the limit allows.
    #[error("the journal is full")]
    JournalFull,
    /// The row at this place, counted from 0, is the first that takes more copies of its pair than the rows before it leave.
    #[error("row {0} takes more copies than are left")]
    NotHeld(usize),
    /// No row has copies.
    #[error("nothing would change")]
    NoChange,
    /// Memory was refused.
    #[error("out of memory")]
    OutOfMemory,
}

impl From<OutOfMemory> for RemoveError {
    ghost use Rattle.std.specs.Prelude.{◌≡◌};
    ghost use Rattle.s2ix_edit_plan.specs.declared.errors.RemoveError.TheVariants.{OutOfMemory};

    ghost from_gives = { λ _ error. error ≡ OutOfMemory };

    fn from(_: OutOfMemory) -> Self {
        RemoveError::OutOfMemory
    }
}

/// Why an undo was refused. It is here and not beside the store, so that each refusal of a step can be named without one.
#[derive(Clone, Copy, Debug, PartialEq, Eq, Error)]
pub enum UndoError {
    /// No change can be undone.
    #[error("nothing to undo")]
    NothingToUndo,
    /// Memory was refused.
    #[error("out of memory")]
    OutOfMemory,
}

impl From<OutOfMemory> for UndoError {
    ghost use Rattle.std.specs.Prelude.{◌≡◌};
    ghost use Rattle.s2ix_edit_plan.specs.declared.errors.UndoError.TheVariants.{OutOfMemory};

    ghost from_gives = { λ _ error. error ≡ OutOfMemory };

    fn from(_: OutOfMemory) -> Self {
        UndoError::OutOfMemory
    }
}

/// Why a redo was refused.
#[derive(Clone, Copy, Debug, PartialEq, Eq, Error)]
pub enum RedoError {
    /// No change can be redone.
    #[error("nothing to redo")]
    NothingToRedo,
    /// Memory was refused.
    #[error("out of memory")]
    OutOfMemory,
}

impl From<OutOfMemory> for RedoError {
    ghost use Rattle.std.specs.Prelude.{◌≡◌};
    ghost use Rattle.s2ix_edit_plan.specs.declared.errors.RedoError.TheVariants.{OutOfMemory};

    ghost from_gives = { λ _ error. error ≡ OutOfMemory };

    fn from(_: OutOfMemory) -> Self {
        RedoError::OutOfMemory
    }
}
