//! How held pairs are cut into chunks.
ghost use Rattle.std.specs.Prelude.{◌≡◌, ◌<◌, ◌≤◌, length, take, max, IfOk};
ghost use Rattle.s2ix_bag_lists.specs.Faces.{all_of};
ghost use Rattle.s2ix_bag_pairs.specs.Collection.{IsCollection};
ghost use Rattle.s2ix_table_heavy.specs.Chunks.{AreChunks, IsOfOneCell};

use s2id_core::OutOfMemory;
use s2ix_bag_held::{FlatHeld, HeldList};
use std::alloc::Global;

// How many pairs in front have the cell of the first one: at most `max_len`, and at least one.
fn chunk_len(held: &[FlatHeld], max_len: usize) -> usize
    requires { 0 < length held.now }
    ensures some { 0 < result }
    ensures within { result ≤ length held.now }
    ensures at_most { result ≤ max max_len 1 }
    ensures one_cell { IsOfOneCell (take result held.now) }
{
    let cell = held[0].cell();
    let mut len = 1;
    while len < held.len() && len < max_len && held[len].cell() == cell {
        len += 1;
    }
    len
}

/// Held pairs, cut into chunks: each has pairs of one cell, at most `max_len` of them, or one if `max_len` is 0. O(n) for n pairs.
/// `OutOfMemory` if a growth is refused.
pub fn cut_into_chunks(
    alloc: Global,
    held: &[FlatHeld],
    max_len: usize,
) -> Result<Vec<HeldList>, OutOfMemory>
    requires rises { IsCollection held.now }
    requires within_limit { length held.now ≤ 1000000 }
    ensures whole { IfOk result (λ chunks. all_of chunks.items ≡ held.now) }
    ensures chunks { IfOk result (λ chunks. AreChunks chunks.items) }
{
    let mut chunks = Vec::new(alloc);
    let mut rest = held;
    while !rest.is_empty() {
        let (own, later) = rest.split_at(chunk_len(rest, max_len));
        chunks.push(HeldList::new(alloc, Vec::from_slice(alloc, own)?)?)?;
        rest = later;
    }
    Ok(chunks)
}
