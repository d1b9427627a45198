//! Pairs are split up into two layers: a cell within which very many pairs lie is heavy.
ghost use Rattle.std.specs.Prelude.{◌≡◌, ◌<◌, ◌≤◌, ◌++◌, Contains, IfOk, OnOk, drop, length, take};
ghost use Rattle.s2ix_bag_lists.specs.Faces.{all_of};
ghost use Rattle.s2ix_bag_pairs.specs.Collection.{IsCollection};
ghost use Rattle.s2ix_bag_pairs.specs.declared.pair.Held.{Held};
ghost use Rattle.s2ix_table_heavy.specs.Chunks.{AreChunks, IsOfOneCell};
ghost use Rattle.s2ix_table_parts.specs.Layers.{ShareNoCell, joined_layers};
ghost use Rattle.s2ix_table_parts.specs.Split.{AreSplit, HaveLesserCells, IsRunAfter};

use crate::change::chunks_after::put_chunks;
use s2id_core::OutOfMemory;
use s2ix_bag_held::{FlatHeld, HeldList};
use std::alloc::Global;

// The pairs of a face in two layers: light pairs in rising order, and heavy pairs in chunks. All pairs of a cell are in one layer.
#[derive(Drop)]
pub(crate) struct Layers {
    pub(crate) light: Vec<FlatHeld>,
    pub(crate) chunks: Vec<HeldList>,
}

// Rising pairs in two layers. A cell is heavy if more than `max_part_len` pairs lie within it, its own among them. The pairs of a heavy cell go
// into chunks of at most `max_part_len` pairs, but at least one. O(n) for n pairs, and O(log n) more for each cell within which many pairs lie.
// `OutOfMemory` if a growth is refused.
pub(crate) fn split(
    alloc: Global,
    held: &[FlatHeld],
    max_part_len: usize,
) -> Result<Layers, OutOfMemory>
    requires rises { IsCollection held.now }
    requires within_limit { length held.now ≤ 1000000 }
    ensures pairs { IfOk result (λ layers. joined_layers layers.light.items (all_of layers.chunks.items) ≡ held.now) }
    ensures apart { IfOk result (λ layers. ShareNoCell layers.light.items (all_of layers.chunks.items)) }
    ensures chunks { IfOk result (λ layers. AreChunks layers.chunks.items) }
    ensures rises { IfOk result (λ layers. IsCollection layers.light.items) }
    ensures of_held { IfOk result (λ layers. (h : Held) → Contains layers.light.items h → Contains held.now h) }
    ensures of_heavy { IfOk result (λ layers. (h : Held) → Contains (all_of layers.chunks.items) h → Contains held.now h) }
{
    let mut layers = Layers {
        light: Vec::with_capacity(alloc, held.len())?,
        chunks: Vec::new(alloc),
    };
    let mut rest = held;
    while !rest.is_empty() {
        let (run, later) = rest.split_at(run_len(rest));
        let start = held.len() - rest.len();
        let heavy = is_heavy(held, start, start + run.len(), max_part_len);
        layers.put(alloc, run, heavy, max_part_len)?;
        rest = later;
    }
    Ok(layers)
}

impl Layers {
    // Appends the pairs of the next cell to one of both layers: to the heavy ones in chunks of at most `max_part_len` pairs, but at least one.
    fn put(
        &mut self,
        alloc: Global,
        run: &[FlatHeld],
        is_heavy: bool,
        max_part_len: usize,
    ) -> Result<(), OutOfMemory>
        requires split { AreSplit self.old.light.items self.old.chunks.items }
        requires next { IsRunAfter (joined_layers self.old.light.items (all_of self.old.chunks.items)) run.now }
        ensures split { OnOk result (AreSplit self.new.light.items self.new.chunks.items) }
        ensures pairs { OnOk result (joined_layers self.new.light.items (all_of self.new.chunks.items)
            ≡ joined_layers self.old.light.items (all_of self.old.chunks.items) ++ run.now) }
    {
        if is_heavy {
            put_chunks(alloc, &mut self.chunks, run, max_part_len)?;
        } else {
            self.light.extend_from_slice(run)?;
        }
        Ok(())
    }
}

// How many pairs have the cell of the first one. In rising order they follow one another. O(n) for n such pairs.
fn run_len(pairs: &[FlatHeld]) -> usize
    requires rises { IsCollection pairs.now }
    requires some { 0 < length pairs.now }
    ensures some { 0 < result }
    ensures within { result ≤ length pairs.now }
    ensures one_cell { IsOfOneCell (take result pairs.now) }
    ensures lesser { HaveLesserCells (take result pairs.now) (drop result pairs.now) }
{
    let mut len = 1;
    while len < pairs.len() && pairs[len].cell() == pairs[0].cell() {
        len += 1;
    }
    len
}

// Whether more than `max_part_len` pairs lie within the cell of a run, the run's own among them. In rising order they all follow one another. O(1)
// if only few of them lie beside the run, else O(log n).
fn is_heavy(held: &[FlatHeld], start: usize, end: usize, max_part_len: usize) -> bool
    requires some { start < end }
    requires within { end ≤ length held.now }
{
    let len = end - start;
    if len > max_part_len {
        return true;
    }
    let cell = held[start].cell();
    // if they are more than `max_part_len`, one that is so far away is among them, before the run or behind it
    let far = (max_part_len - len) / 2 + 1;
    let is_far_before = far <= start && cell.contains(held[start - far].cell());
    let is_far_behind = far <= held.len() - end && cell.contains(held[end - 1 + far].cell());
    if !is_far_before && !is_far_behind {
        return false;
    }
    let before = start - held[..start].partition_point(|h| !cell.contains(h.cell()));
    let behind = held[end..].partition_point(|h| cell.contains(h.cell()));
    before + len + behind > max_part_len
}
