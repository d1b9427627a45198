//! What a change makes of a face in two layers: first its entries of cells that go over the parts, then the others.
ghost use Rattle.std.specs.Prelude.{◌≡◌, ◌<◌, ◌≤◌, ◌+◌, ◌++◌, IfOk, IfSome, drop, length, take};
ghost use Rattle.s2ix_bag_lists.specs.Faces.{all_of};
ghost use Rattle.s2ix_bag_pairs.specs.Change.{IsChangeList, changed};
ghost use Rattle.s2ix_table_parts.specs.FaceSpans.{AreOnFace, face_begin, heavy_places_of, spans_of};
ghost use Rattle.s2ix_table_parts.specs.Neighbours.{AreNeighbours};
ghost use Rattle.s2ix_table_parts.specs.Layered.{IsFaceLayered, IsFaceWith, face_pairs, goes_over};
ghost use Rattle.s2ix_table_parts.specs.Layers.{entries_where, opposite};
ghost use Rattle.s2ix_table_parts.specs.Made.{IfOkSome};

use crate::change::face_after::Face;
use crate::change::new_parts::{NewFace, put_between};
use crate::change::parts_changed::last_by;
use crate::faces::face_begin;
use crate::part::end_of;
use s2id_core::{CellId, OutOfMemory};
use s2ix_bag_pairs::Entry;
use std::alloc::Global;

// The entries of a change, by the layer that has their cells then.
#[derive(Drop)]
struct LayerEntries {
    light: Vec<Entry>,
    heavy: Vec<Entry>,
}

impl Face<'_> {
    // What a change makes of the face, if it has an entry of a cell that goes over the parts: first these entries, as `heavy_after` does
    // it, then the others, as `light_after` does it. `None` if there is no such entry, if a cell lies beside the face, or if one of the
    // two gives `None`. The costs of both, and O(m log c + m log p) more for m entries, c chunks and p parts. `OutOfMemory` if a growth is
    // refused, or what stays is shared too often.
    pub(crate) fn layers_after(
        self,
        alloc: Global,
        entries: &[Entry],
        max_part_len: usize,
    ) -> Result<Option<NewFace>, OutOfMemory>
        requires six { self.face < 6 }
        requires layered { IsFaceLayered self.face self.heavy.now (spans_of self.parts.now) (heavy_places_of self.parts.now) }
        requires entries_rise { IsChangeList entries.now }
        requires on_face { AreOnFace self.face (changed (face_pairs self.parts.now self.heavy.now) entries.now) }
        requires within_limit { length (changed (face_pairs self.parts.now self.heavy.now) entries.now) ≤ 1000000 }
        ensures face { IfOkSome result (λ new. new.face ≡ self.entry.face) }
        ensures first { IfOkSome result (λ new. new.first ≡ 0) }
        ensures end { IfOkSome result (λ new. new.end ≡ length (spans_of self.entry.parts.now)) }
        ensures new_face { IfOkSome result (λ new. IsFaceWith self.entry.face
            (changed (face_pairs self.entry.parts.now self.entry.heavy.now) entries.now)
            (spans_of self.entry.parts.now) (heavy_places_of self.entry.parts.now)
            new.first new.end (spans_of new.parts.items) (heavy_places_of new.parts.items) new.heavy) }
    {
        let Some(own) = self.entries_by_layer(alloc, entries)? else {
            return Ok(None);
        };
        if own.heavy.is_empty() {
            return Ok(None);
        }
        let Some(after_heavy) = self.heavy_after(alloc, own.heavy.as_slice(), max_part_len)? else {
            return Ok(None);
        };
        let Some(new) = after_heavy.and_light(alloc, own.light.as_slice(), max_part_len)? else {
            return Ok(None);
        };
        Ok(Some(new))
    }

    // The entries of cells that go over the parts, and those of the others. `None` if a cell lies beside the face. O(m log c + m log p) for
    // m entries, c chunks and p parts. `OutOfMemory` if a growth is refused.
    fn entries_by_layer(
        self,
        alloc: Global,
        entries: &[Entry],
    ) -> Result<Option<LayerEntries>, OutOfMemory>
        requires six { self.face < 6 }
        requires neighbours { AreNeighbours (face_begin self.face) (spans_of self.parts.now) (face_begin (self.face + 1)) }
        ensures heavy { IfOkSome result (λ own. own.heavy.items
            ≡ entries_where (goes_over (spans_of self.entry.parts.now) (all_of self.entry.heavy.now)) entries.now) }
        ensures light { IfOkSome result (λ own. own.light.items
            ≡ entries_where (opposite (goes_over (spans_of self.entry.parts.now) (all_of self.entry.heavy.now))) entries.now) }
    {
        let mut own = LayerEntries {
            light: Vec::new(alloc),
            heavy: Vec::new(alloc),
        };
        for entry in entries {
            let Some(goes_over) = self.goes_over(entry.pair.cell) else {
                return Ok(None);
            };
            if goes_over {
                own.heavy.push(*entry)?;
            } else {
                own.light.push(*entry)?;
            }
        }
        Ok(Some(own))
    }

    // Whether the pairs of a cell go over the parts: it has heavy pairs, or a part begins within it. `None` if the cell lies beside the
    // face. O(log c + log p) for c chunks and p parts.
    fn goes_over(self, cell: CellId) -> Option<bool>
        requires six { self.face < 6 }
        requires neighbours { AreNeighbours (face_begin self.face) (spans_of self.parts.now) (face_begin (self.face + 1)) }
        ensures { IfSome result (λ over. over ≡ goes_over (spans_of self.entry.parts.now) (all_of self.entry.heavy.now) cell) }
    {
        if self.heavy.has_cell(cell) {
            return Some(true);
        }
        let begin = cell.span_start();
        let end = cell.span_end();
        let part = last_by(self.parts, begin);
        if part >= self.parts.len() {
            return None;
        }
        let last = face_begin(self.face + 1);
        let next = end_of(self.parts, part, last);
        if part + 1 < self.parts.len() && begin < next && next < end {
            return Some(true);
        }
        if self.parts[part].table().from() <= begin && end <= next {
            Some(false)
        } else {
            None
        }
    }
}

impl NewFace {
    // The same face, of which all parts gave way, after a change of light cells, as `light_after` does it.
    fn and_light(
        self,
        alloc: Global,
        entries: &[Entry],
        max_part_len: usize,
    ) -> Result<Option<NewFace>, OutOfMemory>
        requires six { self.face < 6 }
        requires layered { IsFaceLayered self.face self.heavy (spans_of self.parts.items) (heavy_places_of self.parts.items) }
        requires entries_rise { IsChangeList entries.now }
        requires within_limit { length (changed (face_pairs self.parts.items self.heavy) entries.now) ≤ 1000000 }
        ensures face { IfOkSome result (λ new. new.face ≡ self.face) }
        ensures first { IfOkSome result (λ new. new.first ≡ self.first) }
        ensures end { IfOkSome result (λ new. new.end ≡ self.end) }
        ensures layered { IfOkSome result (λ new.
            IsFaceLayered self.face new.heavy (spans_of new.parts.items) (heavy_places_of new.parts.items)) }
        ensures pairs { IfOkSome result (λ new. face_pairs new.parts.items new.heavy
            ≡ changed (face_pairs self.parts.items self.heavy) entries.now) }
    {
        let old = Face {
            face: self.face,
            parts: self.parts.as_slice(),
            heavy: &self.heavy,
        };
        let Some(light) = old.light_after(alloc, entries, max_part_len)? else {
            return Ok(None);
        };
        let new = self.with_parts(light)?;
        Ok(Some(new))
    }

    // The face with other parts in the place of some of its own.
    fn with_parts(self, light: NewFace) -> Result<NewFace, OutOfMemory>
        requires order { light.first ≤ light.end }
        requires within { light.end ≤ length self.parts.items }
        ensures face { IfOk result (λ new. new.face ≡ self.face) }
        ensures first { IfOk result (λ new. new.first ≡ self.first) }
        ensures end { IfOk result (λ new. new.end ≡ self.end) }
        ensures heavy { IfOk result (λ new. new.heavy ≡ self.heavy) }
        ensures parts { IfOk result (λ new. new.parts.items
            ≡ take light.first self.parts.items ++ (light.parts.items ++ drop light.end self.parts.items)) }
    {
        let NewFace {
            face,
            first,
            end,
            mut parts,
            heavy,
        } = self;
        parts.reserve(light.parts.len())?;
        put_between(&mut parts, light.first, light.end, light.parts);
        Ok(NewFace {
            face,
            first,
            end,
            parts,
            heavy,
        })
    }
}
