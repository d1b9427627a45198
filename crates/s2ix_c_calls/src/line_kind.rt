//! What a line of a script would do, told before it is carried out.

ghost use Rattle.std.specs.Prelude.{◌≡◌};
ghost use Rattle.s2ix_c_calls.specs.LineKind.{TellsKind, kind_of as kind_in};

use crate::status::{DONE, OUT_OF_MEMORY};
use s2ix_cli_script::{Instruction, LineError, meaning};
use std::alloc::Global;

// What a line would do. `include/s2ix.h` says what each number means.
const LINE_NOTHING: u8 = 0;

const LINE_QUESTION: u8 = 1;

const LINE_EDIT: u8 = 2;

const LINE_UNDO: u8 = 3;

const LINE_REDO: u8 = 4;

const LINE_FORGET: u8 = 5;

// What an instruction would do.
fn kind_of(instruction: &Instruction) -> u8
    ensures { result ≡ kind_in instruction.now }
{
    match instruction {
        Instruction::Edit(_) => LINE_EDIT,
        Instruction::Undo => LINE_UNDO,
        Instruction::Redo => LINE_REDO,
        Instruction::Forget => LINE_FORGET,
        _ => LINE_QUESTION,
    }
}

/// What a line of a script, which comes without its line feed, would do: `kind` is one of the numbers above. It needs no store. Only a line
/// with a list of cells wants memory. O(n log n) for a line of n bytes with such a list, and O(n) for another.
pub fn line_kind(alloc: Global, line: &[u8], kind: &mut u8) -> u32
    ensures { TellsKind line.now result kind.new }
{
    *kind = LINE_NOTHING;
    match meaning(alloc, line) {
        Ok(Some(instruction)) => *kind = kind_of(&instruction),
        Ok(None) => {}
        Err(LineError::Fault(_)) => {}
        Err(LineError::OutOfMemory) => return OUT_OF_MEMORY,
    }
    DONE
}
