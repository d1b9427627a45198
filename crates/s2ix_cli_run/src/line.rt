//! Carrying one line out: from its bytes to what it asks for, to the store's step and the answer.
ghost use Rattle.std.specs.Prelude.{◌≡◌, ◌+◌, false, IfErr};
ghost use Rattle.s2ix_text_parts.specs.DeviceFaults.{CanCount, sink_faults, IsWantOnlyIf};
ghost use Rattle.s2ix_cli_run.specs.Asking.{is_question};
ghost use Rattle.s2ix_cli_run.specs.Line.{IsShort, RunsLine};
ghost use Rattle.s2ix_cli_run.specs.Step.{instruction_step, step_of};
ghost use Rattle.s2ix_cli_run.specs.LineWants.{InstructionWants, LineWants};

use crate::outcome::LineOutcome;
use crate::queries::{print_export, print_labels, print_meeting, print_ranges, run_at};
use crate::regions::{common, only};
use crate::steps::print_step;
use s2id_cube::to_face_ij;
use s2ix_cli_answers::{write_neighbors, write_no, write_ok, write_path, write_square};
use s2ix_cli_script::{Instruction, LineError, meaning};
use s2ix_edit_store::Store;
use s2ix_table_kept::KeptTable;
use s2ix_text_parts::{RunFault, Sink};
use s2ix_text_write::{write_dump, write_journal, write_list};
use std::alloc::Global;

/// Carries a line out over a store, and prints its answer. The line comes without its line feed. A line that is refused prints `no` with
/// the refusal's name, and changes nothing. Nothing is flushed. It takes the time of the line's instruction, and O(n) for a line of n
/// bytes.
///
/// `OutOfMemory` if a growth was refused: nothing has changed then, and nothing was printed. `Write` if the sink failed: what the line does
/// is done, and a front of its answer went out.
#[tactic(auto, using(crate::proofs::WantedMemory::line_wants), unfolding(crate::specs::Step::step_of))]
pub fn run_line<T: KeptTable, K: Sink>(
    alloc: Global,
    store: &mut Store<T>,
    sink: &mut K,
    line: &[u8],
) -> Result<LineOutcome, RunFault>
    requires { CanCount (K.fault_count sink.old) }
    ensures runs { RunsLine (step_of store.old line.now) store.old store.new (K.taken sink.old) (K.taken sink.new) result }
    ensures memory { IfErr result (IsWantOnlyIf (LineWants store.old line.now)) }
    ensures unflushed { K.flush_mark sink.new ≡ K.flush_mark sink.old }
    ensures faults { K.fault_count sink.new ≡ K.fault_count sink.old + sink_faults result }
{
    match meaning(alloc, line) {
        Ok(asked) => match asked {
            None => Ok(LineOutcome::PassedOver),
            Some(instruction) => run_instruction(alloc, store, sink, instruction),
        },
        Err(LineError::Fault(fault)) => {
            write_no(fault.name(), sink)?;
            Ok(LineOutcome::Refused)
        }
        Err(LineError::OutOfMemory) => Err(RunFault::OutOfMemory),
    }
}

/// Carries an instruction out over a store, and prints its answer, as [`run_line`] does for a line that asks for it. It takes the time of
/// its edit, step or query; `at`, `meet`, `ranges`, `dump` and `journal` print as they go. An edit, an undo, a redo or `forget` prints at
/// most 31 bytes.
///
/// `OutOfMemory` if a growth was refused: nothing has changed then, and nothing was printed. `Write` if the sink failed: what the
/// instruction does is done, and a front of its answer went out.
pub fn run_instruction<T: KeptTable, K: Sink>(
    alloc: Global,
    store: &mut Store<T>,
    sink: &mut K,
    instruction: Instruction,
) -> Result<LineOutcome, RunFault>
    requires { CanCount (K.fault_count sink.old) }
    ensures runs { RunsLine (instruction_step store.old instruction) store.old store.new (K.taken sink.old) (K.taken sink.new) result }
    ensures short { is_question instruction ≡ false → IsShort (instruction_step store.old instruction) result }
    ensures memory { IfErr result (IsWantOnlyIf (InstructionWants store.old instruction)) }
    ensures unflushed { K.flush_mark sink.new ≡ K.flush_mark sink.old }
    ensures faults { K.fault_count sink.new ≡ K.fault_count sink.old + sink_faults result }
{
    match instruction {
        Instruction::Edit(edit) => return print_step(store.edit(&edit), sink),
        Instruction::Undo => return print_step(store.undo(), sink),
        Instruction::Redo => return print_step(store.redo(), sink),
        Instruction::Forget => {
            store.forget();
            write_ok(0, sink)?;
        }
        Instruction::At(cell) => return run_at(store, sink, cell),
        Instruction::Meet(target) => return print_meeting(store, sink, &target),
        Instruction::Labels(target) => return print_labels(alloc, store, sink, &target),
        Instruction::Region(label) => write_list(store.region(label)?.cells(), sink)?,
        Instruction::Common(first, second) => {
            write_list(common(alloc, store, first, second)?.cells(), sink)?;
        }
        Instruction::Only(first, second) => {
            write_list(only(alloc, store, first, second)?.cells(), sink)?;
        }
        Instruction::Ranges => return print_ranges(store, sink),
        Instruction::Path(cell) => write_path(cell, sink)?,
        Instruction::Neighbors(cell) => write_neighbors(cell, sink)?,
        Instruction::Face(cell) => write_square(to_face_ij(cell), sink)?,
        Instruction::Dump => write_dump(store.bag(), sink)?,
        Instruction::Journal => write_journal(store.done(), sink)?,
        Instruction::Export => return print_export(alloc, store, sink),
    }
    Ok(LineOutcome::Accepted)
}
