//! Laws: functions that do nothing; their contracts state facts about definitions.
ghost use Rattle.std.specs.Prelude.{◌≡◌, ◌↔◌, IsTrue};
ghost use Rattle.s2ix_cli_script.specs.declared.line_fault.LineError.{LineError};
ghost use Rattle.s2ix_cli_script.specs.declared.line_fault.LineFault.{LineFault};
ghost use Rattle.s2ix_cli_script.specs.declared.instruction.Instruction.{Instruction};

use crate::instruction::Instruction;
use crate::line_fault::{LineError, LineFault};
use s2id_union::laws::equal_unions_are_one;
use s2ix_edit_plan::laws::equal_edits_are_one;

/// Two faults of lines are equal exactly if they are the same.
pub fn equal_line_faults_are_one()
    ensures { (a b : LineFault) → IsTrue (⟦<LineFault as PartialEq>⟧.eq a b) ↔ (a ≡ b) }
{}

/// A clone of a line's fault is the same, and cloning never fails.
pub fn cloned_line_faults_are_the_same()
    ensures same { (a copy : LineFault) → ⟦<LineFault as Clone>⟧.is_clone a copy ↔ (copy ≡ a) }
    ensures never_fails { (a : LineFault) → ⟦<LineFault as Clone>⟧.is_infallible a }
{}

/// Two errors of lines are equal exactly if they are the same.
pub fn equal_line_errors_are_one()
    ensures { (a b : LineError) → IsTrue (⟦<LineError as PartialEq>⟧.eq a b) ↔ (a ≡ b) }
{}

/// A clone of a line's error is the same, and cloning never fails.
pub fn cloned_line_errors_are_the_same()
    ensures same { (a copy : LineError) → ⟦<LineError as Clone>⟧.is_clone a copy ↔ (copy ≡ a) }
    ensures never_fails { (a : LineError) → ⟦<LineError as Clone>⟧.is_infallible a }
{}

/// Two instructions are equal exactly if they are the same.
pub fn equal_instructions_are_one()
    ensures { (a b : Instruction) → IsTrue (⟦<Instruction as PartialEq>⟧.eq a b) ↔ (a ≡ b) }
{
    equal_edits_are_one();
    equal_unions_are_one();
}

/// A clone of an instruction is the same.
pub fn cloned_instructions_are_the_same()
    ensures { (a copy : Instruction) → ⟦<Instruction as Clone>⟧.is_clone a copy ↔ (copy ≡ a) }
{}
