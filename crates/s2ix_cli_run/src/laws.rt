//! Laws: functions that do nothing; their contracts state facts about definitions.
ghost use Rattle.std.specs.Prelude.{◌≡◌, ◌↔◌, IsTrue};
ghost use Rattle.s2ix_cli_run.specs.Laws.{UndoRestoresTheDump, UndoRestoresWhatIsPrinted};
ghost use Rattle.s2ix_cli_run.specs.declared.outcome.LineOutcome.{LineOutcome};
ghost use Rattle.s2ix_cli_run.specs.declared.run_end.RunEnd.{RunEnd};
ghost use Rattle.s2ix_cli_run.specs.declared.run_end.RunOptions.{RunOptions};

use crate::outcome::LineOutcome;
use crate::run_end::{RunEnd, RunOptions};

/// After an accepted edit and an undo, each question prints what it would have printed before the edit: the same dump, and the same answer
/// to any other.
pub fn undo_restores_what_is_printed()
    ensures dump { UndoRestoresTheDump }
    ensures questions { UndoRestoresWhatIsPrinted }
{}

/// Two ends of runs are equal exactly if they are the same.
pub fn equal_run_ends_are_one()
    ensures { (a b : RunEnd) → IsTrue (⟦<RunEnd as PartialEq>⟧.eq a b) ↔ (a ≡ b) }
{}

/// A clone of a run's end is the same, and cloning never fails.
pub fn cloned_run_ends_are_the_same()
    ensures same { (a copy : RunEnd) → ⟦<RunEnd as Clone>⟧.is_clone a copy ↔ (copy ≡ a) }
    ensures never_fails { (a : RunEnd) → ⟦<RunEnd as Clone>⟧.is_infallible a }
{}

/// Two runs' options are equal exactly if they are the same.
pub fn equal_run_options_are_one()
    ensures { (a b : RunOptions) → IsTrue (⟦<RunOptions as PartialEq>⟧.eq a b) ↔ (a ≡ b) }
{}

/// A clone of a run's options is the same, and cloning never fails.
pub fn cloned_run_options_are_the_same()
    ensures same { (a copy : RunOptions) → ⟦<RunOptions as Clone>⟧.is_clone a copy ↔ (copy ≡ a) }
    ensures never_fails { (a : RunOptions) → ⟦<RunOptions as Clone>⟧.is_infallible a }
{}

/// Two outcomes of lines are equal exactly if they are the same.
pub fn equal_line_outcomes_are_one()
    ensures { (a b : LineOutcome) → IsTrue (⟦<LineOutcome as PartialEq>⟧.eq a b) ↔ (a ≡ b) }
{}

/// A clone of a line's outcome is the same, and cloning never fails.
pub fn cloned_line_outcomes_are_the_same()
    ensures same { (a copy : LineOutcome) → ⟦<LineOutcome as Clone>⟧.is_clone a copy ↔ (copy ≡ a) }
    ensures never_fails { (a : LineOutcome) → ⟦<LineOutcome as Clone>⟧.is_infallible a }
{}
