//! What a change makes of one chunk of a face's heavy pairs, if all its entries fall into it: the parts stay.
ghost use Rattle.std.specs.Prelude.{◌≤◌, [], length, set};
ghost use Rattle.s2ix_bag_pairs.specs.Change.{IsChangeList, changed};
ghost use Rattle.s2ix_table_heavy.specs.ChangedChunk.{FitsChunk};
ghost use Rattle.s2ix_table_parts.specs.FaceSpans.{heavy_places_of, spans_of};
ghost use Rattle.s2ix_table_parts.specs.Layered.{IsFaceLayered, IsFaceWith, face_pairs};
ghost use Rattle.s2ix_table_parts.specs.Made.{IfOkSome};

use crate::change::face_after::Face;
use s2id_core::OutOfMemory;
use s2ix_bag_pairs::Entry;
use s2ix_table_heavy::ChangedChunk;
use std::alloc::Global;

impl Face<'_> {
    /// What a change makes of the chunk into which all its entries fall. Since each part lies under pairs of the same chunks as before, all
    /// parts stay, and so do their places of heavy pairs. `None` if the entries fall into no chunk or into several, or if the chunk would
    /// have no pair left or more than `max_part_len`. O(log c + m + k) for c chunks, m entries and the k pairs of the chunk. `OutOfMemory` if
    /// a growth is refused.
    pub fn chunk_after(
        self,
        alloc: Global,
        entries: &[Entry],
        max_part_len: usize,
    ) -> Result<Option<ChangedChunk>, OutOfMemory>
        requires layered { IsFaceLayered self.face self.heavy.now (spans_of self.parts.now) (heavy_places_of self.parts.now) }
        requires entries_rise { IsChangeList entries.now }
        requires within_limit { length (changed (face_pairs self.parts.now self.heavy.now) entries.now) ≤ 1000000 }
        ensures fits { IfOkSome result (λ chunk. FitsChunk self.entry.heavy.now chunk.number chunk.held) }
        ensures new_face { IfOkSome result (λ chunk. IsFaceWith self.entry.face
            (changed (face_pairs self.entry.parts.now self.entry.heavy.now) entries.now)
            (spans_of self.entry.parts.now) (heavy_places_of self.entry.parts.now) 0 0 [] [] (set self.entry.heavy.now chunk.number chunk.held)) }
    {
        let Some(chunk) = self.heavy.changed_chunk(alloc, entries, max_part_len)? else {
            return Ok(None);
        };
        Ok(Some(chunk))
    }
}
