//! Prints what a step of the store came to: how many pairs changed, or why it was refused.
ghost use Rattle.std.specs.Prelude.{◌≡◌, ◌≢◌, ◌↔◌, ◌+◌, ◌≤◌, ℕ, List, length, Err, IfErr, IfSome, IsNone};
ghost use Rattle.s2ix_edit_plan.specs.declared.errors.EditError.{EditError};
ghost use Rattle.s2ix_edit_plan.specs.declared.errors.RedoError.{RedoError};
ghost use Rattle.s2ix_edit_plan.specs.declared.errors.UndoError.{UndoError};
ghost use Rattle.s2ix_edit_plan.specs.State.{State};
ghost use Rattle.s2ix_text_parts.specs.DeviceFaults.{CanCount, sink_faults, IsWantOnlyIf};
ghost use Rattle.s2ix_cli_script.specs.RefusalNames.{edit_error_name, redo_error_name, undo_error_name};
ghost use Rattle.s2ix_cli_run.specs.Line.{RunsLine, IsAnswered, IsShort};
ghost use Rattle.s2ix_cli_run.specs.Step.{Step};

use crate::outcome::LineOutcome;
use s2ix_cli_answers::{write_no, write_ok};
use s2ix_cli_script::{edit_error_name, redo_error_name, undo_error_name};
use s2ix_edit_plan::{EditError, RedoError, UndoError};
use s2ix_text_parts::{RunFault, Sink};

/// Why a step of the store was refused.
pub trait StepError: Copy {
    // the name that is printed
    ghost printed: { Self → List ℕ };

    // the one that is never printed, since it ends the run
    ghost want: { Self };

    /// The name that is printed, or `None` if memory was wanted. It has at most 27 bytes.
    fn printed_name(self) -> Option<&'static str>
        ensures name { IfSome result (λ name. name.now ≡ printed self) }
        ensures short { IfSome result (λ name. length name.now ≤ 27) }
        ensures memory { IsNone result ↔ (self ≡ want) };
}

impl StepError for EditError {
    ghost printed = { edit_error_name };

    ghost want = { EditError.OutOfMemory };

    #[tactic(auto, using(crate::proofs::Names::edit_name_short))]
    fn printed_name(self) -> Option<&'static str> {
        match self {
            EditError::OutOfMemory => None,
            _ => Some(edit_error_name(self)),
        }
    }
}

impl StepError for UndoError {
    ghost printed = { undo_error_name };

    ghost want = { UndoError.OutOfMemory };

    #[tactic(auto, using(crate::proofs::Names::undo_name_short))]
    fn printed_name(self) -> Option<&'static str> {
        match self {
            UndoError::OutOfMemory => None,
            _ => Some(undo_error_name(self)),
        }
    }
}

impl StepError for RedoError {
    ghost printed = { redo_error_name };

    ghost want = { RedoError.OutOfMemory };

    #[tactic(auto, using(crate::proofs::Names::redo_name_short))]
    fn printed_name(self) -> Option<&'static str> {
        match self {
            RedoError::OutOfMemory => None,
            _ => Some(redo_error_name(self)),
        }
    }
}

// Prints what a step of the store came to. If memory was wanted, nothing is printed, and the run ends.
pub(crate) fn print_step<E: StepError, K: Sink>(
    answered: Result<usize, E>,
    sink: &mut K,
) -> Result<LineOutcome, RunFault>
    requires { CanCount (K.fault_count sink.old) }
    ensures runs { (step : Step) (old new : State)
        → IsAnswered E.printed E.want step old new answered
        → RunsLine step old new (K.taken sink.old) (K.taken sink.new) result }
    ensures short { (step : Step) (old new : State) → IsAnswered E.printed E.want step old new answered → IsShort step result }
    ensures memory { IfErr result (IsWantOnlyIf (answered ≡ Err E.want)) }
    ensures unflushed { K.flush_mark sink.new ≡ K.flush_mark sink.old }
    ensures faults { K.fault_count sink.new ≡ K.fault_count sink.old + sink_faults result }
{
    match answered {
        Ok(pairs) => {
            write_ok(pairs, sink)?;
            Ok(LineOutcome::Accepted)
        }
        Err(error) => {
            let Some(name) = error.printed_name() else {
                return Err(RunFault::OutOfMemory);
            };
            write_no(name, sink)?;
            Ok(LineOutcome::Refused)
        }
    }
}
