//! A change within one chunk of the heavy pairs of a face: the parts stay, and so does all that is kept of them.
ghost use Rattle.std.specs.Prelude.{◌≡◌, ◌≢◌, ◌<◌, ◌≤◌, ℕ, OnErr, OnOk, false, length, set};
ghost use Rattle.s2ix_bag_pairs.specs.Change.{changed};
ghost use Rattle.s2ix_bag_pairs.specs.Collection.{IsCollection};
ghost use Rattle.s2ix_table_heavy.specs.ChangedChunk.{FitsChunk};
ghost use Rattle.s2ix_table_kept.specs.Faces.{has_entry_on};
ghost use Rattle.s2ix_table_parts.specs.FaceSpans.{heavy_places_of, spans_of};
ghost use Rattle.s2ix_table_faced.specs.Layout.{IsLayout, chunks_on, pairs_of};
ghost use Rattle.s2ix_table_parts.specs.Made.{IfOkSome};

use crate::entries_on::entries_on;
use crate::faced_table::FacedTable;
use crate::heavy_faces::{all_are_chunks, put_chunk_on};
use s2id_core::{FACES, OutOfMemory};
use s2ix_bag_changes::Change;
use s2ix_bag_lists::HeldParts;
use s2ix_table_heavy::ChangedChunk;
use s2ix_table_queries::RangeTable;
use std::alloc::Global;

impl FacedTable {
    // What a change with entries on one face only makes of the chunk there into which they all fall, if there is one.
    pub(crate) fn chunk_after(
        &self,
        alloc: Global,
        face: u8,
        lists: &[Option<HeldParts>; FACES],
        change: &Change,
    ) -> Result<Option<ChangedChunk>, OutOfMemory>
        requires six { face < 6 }
        requires only { (other : ℕ) → other < 6 → other ≢ face → has_entry_on change.now other ≡ false }
        requires rises { IsCollection (changed (⟦<FacedTable as RangeTable>⟧.pairs self.now) change.now) }
        requires within_limit { length (changed (⟦<FacedTable as RangeTable>⟧.pairs self.now) change.now) ≤ 1000000 }
        ensures fits { IfOkSome result (λ chunk. FitsChunk (chunks_on self.now.heavy face) chunk.number chunk.held) }
        ensures layout { IfOkSome result (λ chunk. IsLayout (spans_of self.now.parts.items)
            (set self.now.heavy face (set (chunks_on self.now.heavy face) chunk.number chunk.held))
            (heavy_places_of self.now.parts.items)) }
        ensures pairs { IfOkSome result (λ chunk. pairs_of self.now.parts.items
            (set self.now.heavy face (set (chunks_on self.now.heavy face) chunk.number chunk.held))
            ≡ changed (⟦<FacedTable as RangeTable>⟧.pairs self.now) change.now) }
    {
        all_are_chunks(&self.heavy);
        let Some(list) = &lists[usize::from(face)] else {
            return Ok(None);
        };
        let before = self.face(face);
        if before.heavy.is_empty() {
            return Ok(None);
        }
        let entries = entries_on(change.entries(), face);
        let Some(chunk) = before.chunk_after(alloc, entries, list.max_part_len())? else {
            return Ok(None);
        };
        Ok(Some(chunk))
    }

    // Puts a changed chunk of a face into its place. O(1) if no copy shares the heavy pairs there, else O(c) for their c chunks.
    // `OutOfMemory` if a growth is refused, or a chunk is shared too often: then the table stays as it is.
    pub(crate) fn put_chunk(
        &mut self,
        alloc: Global,
        face: u8,
        chunk: ChangedChunk,
    ) -> Result<(), OutOfMemory>
        requires six { face < 6 }
        requires fits { FitsChunk (chunks_on self.old.heavy face) chunk.number chunk.held }
        requires layout { IsLayout (spans_of self.old.parts.items)
            (set self.old.heavy face (set (chunks_on self.old.heavy face) chunk.number chunk.held))
            (heavy_places_of self.old.parts.items) }
        ensures parts { self.new.parts.items ≡ self.old.parts.items }
        ensures offsets { self.new.offsets.items ≡ self.old.offsets.items }
        ensures put { OnOk result (self.new.heavy ≡ set self.old.heavy face (set (chunks_on self.old.heavy face) chunk.number chunk.held)) }
        ensures stay { OnErr result (self.new.heavy ≡ self.old.heavy) }
    {
        all_are_chunks(&self.heavy);
        put_chunk_on(alloc, &mut self.heavy, face, chunk)?;
        Ok(())
    }
}
