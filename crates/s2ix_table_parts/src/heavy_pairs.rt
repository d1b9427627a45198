ghost use Rattle.std.specs.Prelude.{set, ◌≡◌, ◌≢◌, ◌↔◌, ℕ, ◌%◌, ◌<◌, ◌≤◌, ◌∷◌, [], Contains, IfOk, IfSome, IsTrue, OnErr, OnOk, drop, length};
ghost use Rattle.s2id_core.specs.Span.{leaf_end};
ghost use Rattle.s2ix_bag_lists.specs.Faces.{all_of};
ghost use Rattle.s2ix_bag_pairs.specs.Change.{IsChangeList, changed};
ghost use Rattle.s2ix_bag_pairs.specs.declared.pair.Entry.{Entry as EntryOf};
ghost use Rattle.s2ix_table_walk.specs.Contents.{contents_at};
ghost use Rattle.s2ix_table_walk.specs.Places.{IsPlace, LeadsTo};
ghost use Rattle.s2ix_table_spans.specs.Blocks.{HoldsCell};
ghost use Rattle.s2ix_table_heavy.specs.ChangedChunk.{FitsChunk, LieAlike};
ghost use Rattle.s2ix_table_heavy.specs.Chunks.{AreChunks};
ghost use Rattle.s2ix_table_heavy.specs.HeavyChains.{heavy_chain};

use s2id_core::{CellId, LEAF_END, OutOfMemory};
use s2ix_bag_held::HeldList;
use s2ix_bag_pairs::{Entry, Held};
use s2ix_table_heavy::laws::chunks_are_in_order;
use s2ix_table_heavy::{ChangedChunk, HeavyPlace, HeavyTable};
use std::alloc::{AllocError, Global};
use std::marker::Model;
use std::sync::Arc;

/// The heavy pairs of a face, in chunks, which copies share. Without a pair it does not allocate. Contracts see the chunks.
#[derive(Debug, Drop)]
pub struct HeavyPairs {
    shared: Option<Arc<HeavyTable>>,
}

impl Model for HeavyPairs {
    ghost use Rattle.std.specs.Prelude.{List, [], Some, None};
    ghost use Rattle.s2ix_bag_pairs.specs.Collection.{Collection};

    ghost Value = { List Collection };

    ghost view = { λ heavy. elim heavy.shared [ None ↦ [] | Some shared ↦ shared.value ] };
}

impl HeavyPairs {
    /// No pairs. O(1).
    pub fn none() -> HeavyPairs
        ensures { result ≡ [] }
    {
        HeavyPairs { shared: None }
    }

    // The pairs of these chunks. O(c) for c chunks. `OutOfMemory` if a growth is refused.
    pub(crate) fn over(alloc: Global, chunks: Vec<HeldList>) -> Result<HeavyPairs, OutOfMemory>
        requires { AreChunks chunks.items }
        ensures { IfOk result (λ heavy. heavy ≡ chunks.items) }
    {
        if chunks.is_empty() {
            return Ok(HeavyPairs::none());
        }
        let shared = Arc::new(alloc, HeavyTable::over(alloc, chunks)?)?;
        Ok(HeavyPairs {
            shared: Some(shared),
        })
    }

    /// Whether there are no pairs. O(1).
    pub fn is_empty(&self) -> bool
        ensures { IsTrue result ↔ (self.now ≡ []) }
    {
        self.chunks().is_empty()
    }

    // The chunks. O(1).
    pub(crate) fn chunks(&self) -> &[HeldList]
        ensures { result.now ≡ self.now }
    {
        match &self.shared {
            Some(table) => table.chunks(),
            None => &[],
        }
    }

    // The place of the innermost pair over the leaf with this number, or `None` if there is none, and the number of the next leaf that lies
    // under other pairs, or the end of all leaves. O(log c) for c chunks.
    pub(crate) fn first_over(&self, leaf: u64) -> (Option<HeavyPlace>, u64)
        requires odd { leaf % 2 ≡ 1 }
        requires ends { leaf < leaf_end }
        ensures first { LeadsTo (heavy_chain self.now) result.0 (contents_at leaf (all_of self.now)) }
        ensures after { leaf < result.1 }
        ensures odd { result.1 % 2 ≡ 1 }
        ensures ends { result.1 ≤ leaf_end }
        ensures until { (q : ℕ) → q % 2 ≡ 1 → leaf ≤ q → q < result.1
            → contents_at q (all_of self.now) ≡ contents_at leaf (all_of self.now) }
        ensures furthest { result.1 < leaf_end → contents_at result.1 (all_of self.now) ≢ contents_at leaf (all_of self.now) }
    {
        match &self.shared {
            Some(table) => table.first_over(leaf),
            None => (None, LEAF_END),
        }
    }

    /// The pair at a place, with its count. O(1).
    #[inline]
    pub fn held_at(&self, place: HeavyPlace) -> Held
        requires { IsPlace (heavy_chain self.now) place }
        ensures { heavy_chain self.now place ≡ result ∷ drop 1 (heavy_chain self.now place) }
    {
        match &self.shared {
            Some(table) => table.held_at(place),
            None => unreachable!(),
        }
    }

    /// The place of the next pair outwards, or `None` at the outermost. O(1).
    #[inline]
    pub fn outer(&self, place: HeavyPlace) -> Option<HeavyPlace>
        requires { IsPlace (heavy_chain self.now) place }
        ensures { LeadsTo (heavy_chain self.now) result (drop 1 (heavy_chain self.now place)) }
    {
        match &self.shared {
            Some(table) => table.outer(place),
            None => None,
        }
    }

    // What a change makes of the chunk into which all its entries fall, as `HeavyTable::changed_chunk` does it.
    pub(crate) fn changed_chunk(
        &self,
        alloc: Global,
        entries: &[Entry],
        max_part_len: usize,
    ) -> Result<Option<ChangedChunk>, OutOfMemory>
        requires { IsChangeList entries.now }
        ensures fits { IfOk result (λ made. IfSome made (λ chunk. length (changed (all_of self.now) entries.now) ≤ 1000000
            → FitsChunk self.now chunk.number chunk.held)) }
        ensures pairs { IfOk result (λ made. IfSome made (λ chunk.
            all_of (set self.now chunk.number chunk.held) ≡ changed (all_of self.now) entries.now)) }
        ensures alike { IfOk result (λ made. IfSome made (λ chunk. length (changed (all_of self.now) entries.now) ≤ 1000000
            → LieAlike self.now (set self.now chunk.number chunk.held))) }
        ensures cells { IfOk result (λ made. IfSome made (λ _. (e : EntryOf) → Contains entries.now e
            → HoldsCell (all_of self.now) e.pair.cell)) }
    {
        match &self.shared {
            Some(table) => table.changed_chunk(alloc, entries, max_part_len),
            None => Ok(None),
        }
    }

    /// Puts a changed chunk into its place. O(1) if no copy shares the pairs, else O(c) for c chunks. `OutOfMemory` if a growth is refused, or
    /// a chunk is shared too often: then nothing changes.
    pub fn put_chunk(&mut self, alloc: Global, chunk: ChangedChunk) -> Result<(), OutOfMemory>
        requires { FitsChunk self.old chunk.number chunk.held }
        ensures put { OnOk result (self.new ≡ set self.old chunk.number chunk.held) }
        ensures stay { OnErr result (self.new ≡ self.old) }
    {
        let Some(shared) = &mut self.shared else {
            unreachable!();
        };
        match Arc::get_mut(shared) {
            Some(table) => {
                table.set_chunk(chunk);
                Ok(())
            }
            None => {
                let table = shared.with_chunk(alloc, chunk)?;
                *shared = Arc::new(alloc, table)?;
                Ok(())
            }
        }
    }

    // Whether a pair has this cell. O(log c) for c chunks.
    pub(crate) fn has_cell(&self, cell: CellId) -> bool
        ensures { IsTrue result ↔ HoldsCell (all_of self.now) cell }
    {
        match &self.shared {
            Some(table) => table.has_cell(cell),
            None => false,
        }
    }
}

/// The same pairs, shared once more. O(1).
impl Clone for HeavyPairs {
    ghost is_clone = { λ heavy copy. copy ≡ heavy };

    fn clone(&self) -> Result<HeavyPairs, AllocError> {
        match &self.shared {
            Some(shared) => Ok(HeavyPairs {
                shared: Some(shared.clone()?),
            }),
            None => Ok(HeavyPairs::none()),
        }
    }
}

/// The chunks of heavy pairs rise one after the other, none is empty, and each has pairs of one cell.
pub fn heavy_pairs_are_in_chunks(heavy: &HeavyPairs)
    ensures { AreChunks heavy.now }
{
    if let Some(table) = &heavy.shared {
        chunks_are_in_order(table);
    }
}
