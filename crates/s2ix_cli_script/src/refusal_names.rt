//! The names by which refusals are printed. Want of memory ends a run and is never printed; its name is that of its variant.
ghost use Rattle.std.specs.Prelude.{◌≡◌};
ghost use Rattle.s2ix_cli_script.specs.RefusalNames.{edit_error_name, not_leaf_name, redo_error_name, undo_error_name};

use s2ix_edit_plan::{EditError, RedoError, UndoError};

/// The name by which a line whose edit is refused is answered, as `no NAME`.
pub fn edit_error_name(error: EditError) -> &'static str
    ensures { result.now ≡ edit_error_name error }
{
    match error {
        EditError::JournalFull => "JournalFull",
        EditError::NoSuchLabel => "NoSuchLabel",
        EditError::NotHeld => "NotHeld",
        EditError::TooFine => "TooFine",
        EditError::NoSuchChange => "NoSuchChange",
        EditError::BelowZero => "BelowZero",
        EditError::NoChange => "NoChange",
        EditError::TooManyCopies => "TooManyCopies",
        EditError::TooManyPairs => "TooManyPairs",
        EditError::OutOfMemory => "OutOfMemory",
    }
}

/// The name by which a refused `undo` is answered, as `no NAME`.
pub fn undo_error_name(error: UndoError) -> &'static str
    ensures { result.now ≡ undo_error_name error }
{
    match error {
        UndoError::NothingToUndo => "NothingToUndo",
        UndoError::OutOfMemory => "OutOfMemory",
    }
}

/// The name by which a refused `redo` is answered, as `no NAME`.
pub fn redo_error_name(error: RedoError) -> &'static str
    ensures { result.now ≡ redo_error_name error }
{
    match error {
        RedoError::NothingToRedo => "NothingToRedo",
        RedoError::OutOfMemory => "OutOfMemory",
    }
}

/// The name by which a line `at` is answered if its cell is no leaf, as `no NAME`.
#[tactic(auto, unfolding(crate::specs::RefusalNames::not_leaf_name))]
pub fn not_leaf_name() -> &'static str
    ensures { result.now ≡ not_leaf_name }
{
    "NotLeaf"
}
