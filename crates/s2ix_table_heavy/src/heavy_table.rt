ghost use Rattle.std.specs.Prelude.{◌≡◌, ◌≢◌, ◌↔◌, ℕ, ◌%◌, ◌<◌, ◌≤◌, ◌∷◌, [], IfOk, IsTrue, drop, option_map};
ghost use Rattle.s2id_core.specs.CellId.{raw_of};
ghost use Rattle.s2id_core.specs.Span.{leaf_end};
ghost use Rattle.s2ix_bag_lists.specs.Faces.{all_of};
ghost use Rattle.s2ix_table_walk.specs.Contents.{contents_at};
ghost use Rattle.s2ix_table_walk.specs.Places.{IsPlace, LeadsTo};
ghost use Rattle.s2ix_table_spans.specs.Blocks.{HoldsCell};
ghost use Rattle.s2ix_table_heavy.specs.Chunks.{AreChunks, IsFirstFrom};
ghost use Rattle.s2ix_table_heavy.specs.HeavyChains.{first_place, heavy_chain};

use crate::heavy_place::HeavyPlace;
use crate::marks::marks_of;
use s2id_core::{CellId, LEAF_END, OutOfMemory};
use s2ix_bag_held::HeldList;
use s2ix_bag_pairs::Held;
use s2ix_table_spans::SpanTable;
use std::alloc::Global;
use std::marker::Model;

/// Held pairs of heavy cells, at most 1,000,000, in chunks. A chunk is a list of pairs of one cell, and none is empty; one after the other,
/// the chunks are one rising list of all pairs. Contracts see the chunks; `all_of` them is that list, and `heavy_chain` has the pairs from a
/// place outwards.
///
/// Costs are in c, the number of the chunks.
#[derive(Debug, Drop)]
pub struct HeavyTable {
    pub(crate) chunks: Vec<HeldList>,
    // the ranges of the marks; a mark's place is the number of its chunk
    marks: SpanTable,
}

impl Model for HeavyTable {
    ghost use Rattle.std.specs.Prelude.{List};
    ghost use Rattle.s2ix_bag_pairs.specs.Collection.{Collection};
    ghost use Rattle.s2ix_table_heavy.specs.HeavyTable.{IsHeavyTable};

    ghost Value = { List Collection };

    ghost view = { λ t. t.chunks.items };

    ghost invariant = { λ t. IsHeavyTable t.chunks.items t.marks };
}

impl HeavyTable {
    /// The table of these chunks. O(c). `OutOfMemory` if a growth is refused.
    pub fn over(alloc: Global, chunks: Vec<HeldList>) -> Result<HeavyTable, OutOfMemory>
        requires { AreChunks chunks.items }
        ensures { IfOk result (λ table. table ≡ chunks.items) }
    {
        let marks = HeldList::new(alloc, marks_of(alloc, &chunks)?)?;
        let marks = SpanTable::over(alloc, marks, 1, LEAF_END)?;
        Ok(HeavyTable { chunks, marks })
    }

    /// The chunks, in order. O(1).
    pub fn chunks(&self) -> &[HeldList]
        ensures { result.now ≡ self.now }
    {
        self.chunks.as_slice()
    }

    /// The place of the innermost heavy pair over the leaf with this number, or `None` if there is none, and the number of the next leaf
    /// that lies under other heavy pairs, or the end of all leaves: all leaves up to there lie under the same ones. O(log c).
    pub fn first_over(&self, leaf: u64) -> (Option<HeavyPlace>, u64)
        requires odd { leaf % 2 ≡ 1 }
        requires ends { leaf < leaf_end }
        ensures first { LeadsTo (heavy_chain self.now) result.0 (contents_at leaf (all_of self.now)) }
        ensures after { leaf < result.1 }
        ensures odd { result.1 % 2 ≡ 1 }
        ensures ends { result.1 ≤ leaf_end }
        ensures until { (q : ℕ) → q % 2 ≡ 1 → leaf ≤ q → q < result.1
            → contents_at q (all_of self.now) ≡ contents_at leaf (all_of self.now) }
        ensures furthest { result.1 < leaf_end → contents_at result.1 (all_of self.now) ≢ contents_at leaf (all_of self.now) }
    {
        let k = self.marks.find(leaf_numbered(leaf));
        let until = self.marks.range(k).limit;
        (first_in_chunk(self.marks.first(k)), until)
    }

    /// The pair at a place, with its count. O(1).
    #[inline]
    pub fn held_at(&self, place: HeavyPlace) -> Held
        requires { IsPlace (heavy_chain self.now) place }
        ensures { heavy_chain self.now place ≡ result ∷ drop 1 (heavy_chain self.now place) }
    {
        self.chunks[place.chunk as usize].at(place.node as usize)
    }

    /// The place of the next heavy pair outwards, or `None` at the outermost. O(1).
    #[inline]
    pub fn outer(&self, place: HeavyPlace) -> Option<HeavyPlace>
        requires { IsPlace (heavy_chain self.now) place }
        ensures { LeadsTo (heavy_chain self.now) result (drop 1 (heavy_chain self.now place)) }
    {
        let own = self.chunks[place.chunk as usize].as_slice();
        if (place.node as usize) + 1 < own.len() {
            Some(HeavyPlace {
                chunk: place.chunk,
                node: place.node + 1,
            })
        } else {
            first_in_chunk(self.marks.outer(place.chunk))
        }
    }

    /// Whether one of the pairs has this cell. O(log c).
    pub fn has_cell(&self, cell: CellId) -> bool
        ensures { IsTrue result ↔ HoldsCell (all_of self.now) cell }
    {
        let k = self.first_from(cell);
        k < self.chunks.len() && self.chunks[k].at(0).pair.cell == cell
    }

    // How many chunks have a cell before this one.
    fn first_from(&self, cell: CellId) -> usize
        ensures { IsFirstFrom self.now cell result }
    {
        let mut low = 0;
        let mut high = self.chunks.len();
        while low < high {
            let middle = low + (high - low) / 2;
            if self.marks.held_at(middle as u32).pair.cell.raw() < cell.raw() {
                low = middle + 1;
            } else {
                high = middle;
            }
        }
        low
    }
}

// The leaf with a number.
fn leaf_numbered(number: u64) -> CellId
    requires odd { number % 2 ≡ 1 }
    requires ends { number < leaf_end }
    ensures { raw_of result ≡ number }
{
    match CellId::from_raw(number) {
        Some(leaf) => leaf,
        None => unreachable!(),
    }
}

// The place of a chunk's first pair.
#[inline]
fn first_in_chunk(chunk: Option<u32>) -> Option<HeavyPlace>
    ensures { result ≡ option_map first_place chunk }
{
    match chunk {
        Some(chunk) => Some(HeavyPlace { chunk, node: 0 }),
        None => None,
    }
}
