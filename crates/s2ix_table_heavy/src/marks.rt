//! The marks: a held pair for each chunk, which stands for the chunk's pairs.
ghost use Rattle.std.specs.Prelude.{◌≡◌, ◌<◌, ◌≤◌, Contains, IfOk, length};
ghost use Rattle.s2ix_bag_lists.specs.Faces.{all_of};
ghost use Rattle.s2ix_table_heavy.specs.Chunks.{AreChunks, AreMarks, IsMark, IsOfOneCell};

use s2id_core::OutOfMemory;
use s2ix_bag_held::{FlatHeld, HeldList};
use s2ix_bag_pairs::{Held, Label, Pair};
use std::alloc::Global;

// The mark of a chunk: a pair with its cell and with its number as label.
fn mark_of(chunk: &HeldList, number: usize) -> Held
    requires some { 0 < length chunk.now }
    requires one_cell { IsOfOneCell chunk.now }
    requires within_limit { number < 1000000 }
    ensures { IsMark chunk.now number result }
{
    let cell = chunk.at(0).pair.cell;
    match Label::new(number as u32) {
        Some(label) => Held {
            pair: Pair { cell, label },
            count: 1,
        },
        None => unreachable!(),
    }
}

// The marks of all chunks, in order. O(c) for c chunks. `OutOfMemory` if a growth is refused.
pub(crate) fn marks_of(alloc: Global, chunks: &[HeldList]) -> Result<Vec<FlatHeld>, OutOfMemory>
    requires { AreChunks chunks.now }
    ensures { IfOk result (λ marks. AreMarks chunks.now marks.items) }
{
    let mut marks = Vec::with_capacity(alloc, chunks.len())?;
    for (number, chunk) in chunks.iter().enumerate() {
        marks.push(FlatHeld::new(mark_of(chunk, number)))?;
    }
    Ok(marks)
}
