//! Answering one line of a script.
ghost use Rattle.std.specs.Prelude.{◌≡◌, ◌≢◌, false, true, Err, Ok, Some, length};
ghost use Rattle.s2ix_cli_answers.specs.Answers.{no_line};
ghost use Rattle.s2ix_cli_script.specs.FaultNames.{fault_name};
ghost use Rattle.s2ix_cli_script.specs.Meaning.{meaning_of};
ghost use Rattle.s2ix_cli_run.specs.Asking.{is_question as asks_question};
ghost use Rattle.s2ix_cli_run.specs.Step.{instruction_step, step_of};
ghost use Rattle.s2ix_c_calls.specs.InBuffer.{AnswerWants, Answers, IsWithin, Puts, room_at, room_for};

use crate::front::{put_front, put_text};
use crate::no_answer::NoAnswer;
use s2ix_cli_answers::write_no;
use s2ix_cli_run::{is_question, run_instruction};
use s2ix_cli_script::{Instruction, LineError, LineFault, meaning};
use s2ix_edit::Store;
use s2ix_text_parts::{ArraySink, VecSink};
use std::alloc::Global;

// How many bytes of room a step wants. Its answer is shorter, and so is a refused line's.
const STEP_ROOM: usize = 32;

/// Carries a line out over a store, puts its answer to the front of `out`, and returns how many bytes it has. The line comes without its
/// line feed. The answer of a refused line is `no` with the refusal's name, and nothing changes. The bytes of `out` past the answer stay as
/// they were.
///
/// The line is only carried out if `out` has room for its answer. An edit, an undo, a redo or `forget` wants 32 bytes; its answer is
/// shorter. Any other line changes nothing, and wants as many bytes as its answer has. `NoRoom` says how many bytes are wanted, and
/// `OutOfMemory` that a growth was refused; then nothing has changed and nothing is written. The room for a step is tested before the step
/// allocates, so `OutOfMemory` comes in place of `NoRoom` only for a question, whose answer is kept in memory until it is written, and for
/// a line with a list of cells, whose union is made while the line is read. It takes the time of the line's instruction, and O(n) for a
/// line of n bytes.
#[tactic(auto, using(crate::proofs::Answered::answers_by, crate::proofs::Answered::lacks_memory))]
pub fn answer_line(
    alloc: Global,
    store: &mut Store,
    line: &[u8],
    out: &mut [u8],
) -> Result<usize, NoAnswer>
    ensures answers { Answers (step_of store.old line.now) store.old store.new out.old out.new result }
    ensures memory { result ≡ Err NoAnswer.OutOfMemory → AnswerWants store.old (length out.old) (meaning_of line.now) }
    ensures room { IsWithin (room_for store.old line.now) (length out.old) result }
{
    match meaning(alloc, line) {
        Ok(None) => Ok(0),
        Ok(Some(instruction)) => answer_instruction(alloc, store, instruction, out),
        Err(LineError::Fault(fault)) => put_refusal(fault, out),
        Err(LineError::OutOfMemory) => Err(NoAnswer::OutOfMemory),
    }
}

// Carries an instruction out over a store, and puts its answer to the front of `out`, as [`answer_line`] does for a line that asks for it.
fn answer_instruction(
    alloc: Global,
    store: &mut Store,
    instruction: Instruction,
    out: &mut [u8],
) -> Result<usize, NoAnswer>
    ensures answers { Answers (instruction_step store.old instruction) store.old store.new out.old out.new result }
    ensures memory { result ≡ Err NoAnswer.OutOfMemory → AnswerWants store.old (length out.old) (Ok (Some instruction)) }
    ensures room { IsWithin (room_at store.old (Ok (Some instruction))) (length out.old) result }
{
    if is_question(&instruction) {
        put_answer(alloc, store, instruction, out)
    } else {
        put_step(alloc, store, instruction, out)
    }
}

// Puts the answer of a question to the front of `out`, if it has room for it. The answer is printed to memory first, since only then its
// length is known.
fn put_answer(
    alloc: Global,
    store: &mut Store,
    question: Instruction,
    out: &mut [u8],
) -> Result<usize, NoAnswer>
    requires { asks_question question ≡ true }
    ensures answers { Answers (instruction_step store.old question) store.old store.new out.old out.new result }
    ensures room { IsWithin (length (instruction_step store.old question).answer) (length out.old) result }
{
    let mut sink = VecSink::new(alloc);
    match run_instruction(alloc, store, &mut sink, question) {
        Ok(_) => put_text(sink.kept(), out),
        Err(_) => Err(NoAnswer::OutOfMemory),
    }
}

// Carries out an edit, an undo, a redo or a forget, and puts its answer to the front of `out`, if that has room for each such answer.
fn put_step(
    alloc: Global,
    store: &mut Store,
    instruction: Instruction,
    out: &mut [u8],
) -> Result<usize, NoAnswer>
    requires { asks_question instruction ≡ false }
    ensures answers { Answers (instruction_step store.old instruction) store.old store.new out.old out.new result }
    ensures memory { result ≡ Err NoAnswer.OutOfMemory → AnswerWants store.old (length out.old) (Ok (Some instruction)) }
    ensures room { IsWithin 32 (length out.old) result }
{
    if out.len() < STEP_ROOM {
        return Err(NoAnswer::NoRoom { needed: STEP_ROOM });
    }
    let mut sink = ArraySink::<STEP_ROOM>::new();
    match run_instruction(alloc, store, &mut sink, instruction) {
        Ok(_) => Ok(put_front(sink.kept(), out)),
        Err(_) => Err(NoAnswer::OutOfMemory),
    }
}

// Puts the answer of a refused line to the front of `out`, if `out` has room for it.
fn put_refusal(fault: LineFault, out: &mut [u8]) -> Result<usize, NoAnswer>
    ensures text { Puts (no_line (fault_name fault)) out.old out.new result }
    ensures memory { result ≢ Err NoAnswer.OutOfMemory }
    ensures room { IsWithin (length (no_line (fault_name fault))) (length out.old) result }
{
    let mut sink = ArraySink::<STEP_ROOM>::new();
    match write_no(fault.name(), &mut sink) {
        Ok(()) => put_text(sink.kept(), out),
        Err(_) => unreachable!(),
    }
}
