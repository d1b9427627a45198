//! A line of a script on a store, with its answer in a buffer.

ghost use Rattle.s2ix_c_calls.specs.Line.{IsCarriedOut};

use crate::answer::answer_line;
use crate::no_answer::NoAnswer;
use crate::status::{DONE, NO_ROOM, OUT_OF_MEMORY};
use s2ix_edit::Store;
use std::alloc::Global;

/// Carries a line out on a store; `number` is how many bytes its answer has, or how much room it wants.
pub fn line(
    alloc: Global,
    store: &mut Store,
    line: &[u8],
    out: &mut [u8],
    number: &mut usize,
) -> u32
    ensures { IsCarriedOut line.now result number.new out.old out.new store.old store.new }
{
    match answer_line(alloc, store, line, out) {
        Ok(length) => {
            *number = length;
            DONE
        }
        Err(NoAnswer::NoRoom { needed }) => {
            *number = needed;
            NO_ROOM
        }
        Err(NoAnswer::OutOfMemory) => {
            *number = 0;
            OUT_OF_MEMORY
        }
    }
}
