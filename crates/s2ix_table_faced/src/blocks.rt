//! Which parts of a table may have a leaf, by blocks of leaves.
ghost use Rattle.std.specs.Prelude.{◌≡◌, ◌+◌, ◌*◌, ◌^◌, ◌<◌, ◌≤◌, ℕ, IfOk, AllPairs, length, slice_index_or};
ghost use Rattle.s2ix_table_spans.specs.Starts.{IsAmong, IsLastStart};
ghost use Rattle.s2ix_table_walk.specs.Table.{leaf_end};
ghost use Rattle.s2ix_table_faced.specs.AllLeaves.{HaveAllLeaves};

use s2id_core::{LEAF_END, OutOfMemory};
use s2ix_table_walk::Window;
use std::alloc::Global;

// All leaves in blocks of 2 ^ `shift` leaf numbers each, and for each block the last part that begins at or before its first number. One
// block more follows the last leaf.
#[derive(Debug, Drop)]
pub(crate) struct Blocks {
    lasts: Vec<usize>,
    shift: u32,
    ghost leaves: { HaveAllLeaves (length lasts.items) shift },
}

impl Blocks {
    ghost use Rattle.s2ix_table_faced.specs.Blocks.{AreBlocks};

    // The blocks of a table whose parts begin at these starts. O(p) for p parts. `OutOfMemory` if a growth is refused.
    pub(crate) fn new(alloc: Global, starts: &[u64]) -> Result<Blocks, OutOfMemory>
        requires some { 0 < length starts.now }
        requires first { slice_index_or starts.now 0 0 ≡ 1 }
        ensures { IfOk result (λ blocks. AreBlocks starts.now blocks) }
    {
        let mut blocks = Blocks::room(alloc, starts.len())?;
        blocks.count(starts);
        Ok(blocks)
    }

    // Blocks for a table in so many parts, about two for each of many, before they are counted. O(p) for p parts. `OutOfMemory` if a growth
    // is refused.
    fn room(alloc: Global, parts: usize) -> Result<Blocks, OutOfMemory> {
        let shift = block_shift(parts);
        let count = (LEAF_END >> shift) as usize + 2;
        let lasts = Vec::from_elem(alloc, 0, count)?;
        Ok(Blocks { lasts, shift })
    }

    // Counts the parts that begin at these starts. O(p) for p parts.
    fn count(&mut self, starts: &[u64])
        requires some { 0 < length starts.now }
        requires first { slice_index_or starts.now 0 0 ≡ 1 }
        ensures { AreBlocks starts.now self.new }
    {
        count_lasts(&mut self.lasts, starts, 1 << self.shift);
    }

    // A copy. O(k) for k blocks. `OutOfMemory` if a growth is refused.
    pub(crate) fn copied(&self, alloc: Global) -> Result<Blocks, OutOfMemory>
        ensures lasts { IfOk result (λ copy. copy.lasts.items ≡ self.now.lasts.items) }
        ensures shift { IfOk result (λ copy. copy.shift ≡ self.now.shift) }
    {
        let lasts = Vec::from_slice(alloc, &self.lasts)?;
        Ok(Blocks {
            lasts,
            shift: self.shift,
        })
    }

    // A few of the parts that begin at these starts: one of them has the leaf. It reads one start. O(1).
    #[inline]
    pub(crate) fn parts_with(&self, starts: &[u64], leaf: u64) -> Window
        requires counted { AreBlocks starts.now self.now }
        requires rises { AllPairs (λ a b. a < b) starts.now }
        requires from { 1 ≤ leaf }
        requires within { leaf < leaf_end }
        ensures { IsAmong starts.now leaf result.first result.size }
    {
        let block = ((leaf - 1) >> self.shift) as usize;
        let first = self.lasts[block];
        let last = self.lasts[block + 1];
        if leaf < starts[last] {
            Window {
                first,
                size: last - first,
            }
        } else {
            Window {
                first: last,
                size: 1,
            }
        }
    }
}

// How many digits of a leaf number are those of its place in a block, for a table in so many parts.
fn block_shift(parts: usize) -> u32
    ensures { result ≤ 60 }
{
    let digits = usize::BITS - (parts / 8 * 2).leading_zeros();
    60 - digits.min(40)
}

// The last part that begins by a leaf, from one on that does. O(k) if it is the k-th from that one.
fn last_start_by(starts: &[u64], leaf: u64, from: usize) -> usize
    requires within { from < length starts.now }
    requires by { slice_index_or starts.now from 0 ≤ leaf }
    ensures { IsLastStart starts.now leaf result }
{
    let mut part = from;
    while part < starts.len() - 1 && starts[part + 1] <= leaf {
        part += 1;
    }
    part
}

// For each block of so many leaf numbers the last part that begins by its first number. O(p) for p parts and as many blocks.
fn count_lasts(lasts: &mut [usize], starts: &[u64], size: u64)
    requires fits { length lasts.old * size < 18446744073709551615 }
    requires some { 0 < length starts.now }
    requires first { slice_index_or starts.now 0 0 ≡ 1 }
    ensures same { length lasts.new ≡ length lasts.old }
    ensures each { (b : ℕ) → b < length lasts.new → IsLastStart starts.now (b * size + 1) (slice_index_or lasts.new b 0) }
{
    let mut part = 0;
    let mut leaf = 1;
    let mut block = 0;
    while block < lasts.len() {
        part = last_start_by(starts, leaf, part);
        lasts[block] = part;
        leaf += size;
        block += 1;
    }
}
