//! Where the parts of a table begin, and what depends on that alone.
ghost use Rattle.std.specs.Prelude.{◌≡◌, ◌+◌, ◌<◌, ◌≤◌, ◌++◌, ℕ, AllPairs, Contains, IfOk, IsTrue, MatchOption, drop, length, slice_index_or, take};
ghost use Rattle.s2ix_table_spans.specs.Starts.{IsAmong, IsLastStart};
ghost use Rattle.s2ix_table_walk.specs.FaceWindows.{face_begin};
ghost use Rattle.s2ix_table_walk.specs.Table.{leaf_end};
ghost use Rattle.s2ix_table_faced.specs.Blocks.{AreBlocks};
ghost use Rattle.s2ix_table_faced.specs.FirstParts.{AreFirstParts};
ghost use Rattle.s2ix_table_parts.specs.FaceSpans.{spans_of, starts_of};

use crate::blocks::Blocks;
use crate::starts::{first_parts, last_by};
use s2id_core::{FACES, OutOfMemory};
use s2ix_table_parts::{Part, begins_of};
use s2ix_table_walk::Window;
use std::alloc::Global;

// Where the parts of a table begin.
#[derive(Debug, Drop)]
pub(crate) struct PartBegins {
    // the leaf number at which each part's span begins
    pub(crate) starts: Vec<u64>,
    // which parts may have a leaf
    pub(crate) blocks: Blocks,
    // for each face the number of its first part, and after the last face how many parts there are
    pub(crate) faces: [usize; FACES + 1],
    ghost rises: { AllPairs (λ a b. a < b) starts.items },
    ghost blocked: { AreBlocks starts.items blocks },
    ghost firsts: { AreFirstParts starts.items faces },
}

impl PartBegins {
    // The begins of parts whose spans begin at these leaf numbers. O(p) for p parts. `OutOfMemory` if a growth is refused.
    pub(crate) fn new(alloc: Global, starts: Vec<u64>) -> Result<PartBegins, OutOfMemory>
        requires rises { AllPairs (λ a b. a < b) starts.items }
        requires begins { (face : ℕ) → face < 6 → Contains starts.items (face_begin face) }
        requires first { slice_index_or starts.items 0 0 ≡ 1 }
        ensures { IfOk result (λ begins. begins.starts.items ≡ starts.items) }
    {
        let blocks = Blocks::new(alloc, &starts)?;
        let faces = first_parts(&starts);
        Ok(PartBegins {
            starts,
            blocks,
            faces,
        })
    }

    // A copy. O(p) for p parts. `OutOfMemory` if a growth is refused.
    pub(crate) fn copied(&self, alloc: Global) -> Result<PartBegins, OutOfMemory>
        ensures starts { IfOk result (λ copy. copy.starts.items ≡ self.now.starts.items) }
        ensures faces { IfOk result (λ copy. copy.faces ≡ self.now.faces) }
    {
        let starts = Vec::from_slice(alloc, &self.starts)?;
        let blocks = self.blocks.copied(alloc)?;
        Ok(PartBegins {
            starts,
            blocks,
            faces: self.faces,
        })
    }

    // A few parts, of which one has a leaf. It reads one start. O(1).
    #[inline]
    pub(crate) fn parts_with(&self, leaf: u64) -> Window
        requires from { 1 ≤ leaf }
        requires within { leaf < leaf_end }
        ensures { IsAmong self.now.starts.items leaf result.first result.size }
    {
        self.blocks.parts_with(&self.starts, leaf)
    }

    // The part that has a leaf. O(log p) for p parts.
    #[inline]
    pub(crate) fn part_with(&self, leaf: u64) -> usize
        requires from { 1 ≤ leaf }
        requires within { leaf < leaf_end }
        ensures { IsLastStart self.now.starts.items leaf result }
    {
        last_by(&self.starts, leaf, self.parts_with(leaf))
    }
}

// Puts new begins into the place of others, if there are new ones.
pub(crate) fn put_begins(begins: &mut PartBegins, new: Option<PartBegins>)
    ensures { MatchOption new (begins.new ≡ begins.old) (λ made. begins.new ≡ made) }
{
    if let Some(new) = new {
        *begins = new;
    }
}

// Whether parts begin at these leaves. O(k) for k of them.
pub(crate) fn begin_at(parts: &[Part], starts: &[u64]) -> bool
    ensures { IsTrue result → starts_of (spans_of parts.now) ≡ starts.now }
{
    if parts.len() != starts.len() {
        return false;
    }
    let mut part = 0;
    while part < parts.len() {
        if parts[part].table().from() != starts[part] {
            return false;
        }
        part += 1;
    }
    true
}

// Where all parts begin once new ones take the place of those with numbers from `first` on and before `end`. O(p) for p parts. `OutOfMemory`
// if a growth is refused.
pub(crate) fn starts_with(
    alloc: Global,
    starts: &[u64],
    first: usize,
    end: usize,
    parts: &[Part],
) -> Result<Vec<u64>, OutOfMemory>
    requires order { first ≤ end }
    requires within { end ≤ length starts.now }
    ensures { IfOk result (λ all. all.items ≡ take first starts.now ++ (starts_of (spans_of parts.now) ++ drop end starts.now)) }
{
    let own = begins_of(alloc, parts)?;
    let stay = starts.len() - (end - first);
    let mut all = Vec::with_capacity(alloc, stay.saturating_add(own.len()))?;
    all.extend_from_slice(&starts[..first])?;
    all.extend_from_slice(&own)?;
    all.extend_from_slice(&starts[end..])?;
    Ok(all)
}
