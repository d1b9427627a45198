//! What a change of light cells makes of a face: the heavy pairs stay, and so do the parts beside all entries.
ghost use Rattle.std.specs.Prelude.{◌≡◌, ◌↔◌, ◌<◌, ◌≤◌, ◌+◌, IfOk, IfSome, IsTrue, length};
ghost use Rattle.s2ix_bag_lists.specs.Faces.{all_of};
ghost use Rattle.s2ix_bag_pairs.specs.Change.{IsChangeList, changed};
ghost use Rattle.s2ix_table_parts.specs.FaceSpans.{face_begin, heavy_places_of, spans_of};
ghost use Rattle.s2ix_table_parts.specs.Neighbours.{held_in};
ghost use Rattle.s2ix_table_parts.specs.Layered.{HaveLightCells, IsFaceLayered, IsFaceWith, face_pairs};
ghost use Rattle.s2ix_table_parts.specs.Made.{IfOkSome};
ghost use Rattle.s2ix_table_parts.specs.Parts.{EntriesBeginFrom, EntriesEndBy, AreTouched};

use crate::change::face_after::Face;
use crate::change::new_parts::NewFace;
use crate::change::parts_changed::last_by;
use crate::face_parts::{FaceParts, is_large, over_spans};
use crate::faces::face_begin;
use crate::heavy_pairs::HeavyPairs;
use crate::part::Part;
use s2id_core::OutOfMemory;
use s2ix_bag_held::FlatHeld;
use s2ix_bag_lists::merge;
use s2ix_bag_pairs::Entry;
use std::alloc::Global;

// Neighbouring parts of a face, those with numbers from `first` on and before `end`, and the leaves that they go over: from the number
// `from` up to `to`.
#[derive(Clone, Copy)]
struct Touched {
    first: usize,
    end: usize,
    from: u64,
    to: u64,
}

impl Face<'_> {
    // What a change makes of the face, if it has entries of light cells only. The heavy pairs stay. Of the parts, those from the first one
    // that an entry's cell touches to the last one give way, as `touched_by` says, and the others stay. `None` if an entry's cell has heavy
    // pairs or lies beside the face, if a light cell goes over a leaf number at which the heavy pairs change, or if a new part is large.
    // O(m log c + log p + k) for m entries, c chunks, p parts and the k pairs of those that give way. `OutOfMemory` if a growth is refused,
    // or the heavy pairs are shared too often.
    pub(crate) fn light_after(
        self,
        alloc: Global,
        entries: &[Entry],
        max_part_len: usize,
    ) -> Result<Option<NewFace>, OutOfMemory>
        requires six { self.face < 6 }
        requires layered { IsFaceLayered self.face self.heavy.now (spans_of self.parts.now) (heavy_places_of self.parts.now) }
        requires entries_rise { IsChangeList entries.now }
        requires within_limit { length (changed (face_pairs self.parts.now self.heavy.now) entries.now) ≤ 1000000 }
        ensures face { IfOkSome result (λ new. new.face ≡ self.entry.face) }
        ensures heavy { IfOkSome result (λ new. new.heavy ≡ self.entry.heavy.now) }
        ensures new_face { IfOkSome result (λ new. IsFaceWith self.entry.face
            (changed (face_pairs self.entry.parts.now self.entry.heavy.now) entries.now)
            (spans_of self.entry.parts.now) (heavy_places_of self.entry.parts.now)
            new.first new.end (spans_of new.parts.items) (heavy_places_of new.parts.items) new.heavy) }
    {
        if entries.is_empty() {
            let same = self.unchanged(alloc)?;
            return Ok(Some(same));
        }
        if !are_light(self.heavy, entries) {
            return Ok(None);
        }
        let last = face_begin(self.face + 1);
        match touched_by(self.parts, entries, last, max_part_len) {
            Some(touched) => self.touched_after(alloc, entries, touched, max_part_len),
            None => Ok(None),
        }
    }

    // The same, of neighbouring parts in which the cells of all entries lie.
    fn touched_after(
        self,
        alloc: Global,
        entries: &[Entry],
        touched: Touched,
        max_part_len: usize,
    ) -> Result<Option<NewFace>, OutOfMemory>
        requires six { self.face < 6 }
        requires layered { IsFaceLayered self.face self.heavy.now (spans_of self.parts.now) (heavy_places_of self.parts.now) }
        requires entries_rise { IsChangeList entries.now }
        requires within_limit { length (changed (face_pairs self.parts.now self.heavy.now) entries.now) ≤ 1000000 }
        requires light { HaveLightCells entries.now (all_of self.heavy.now) }
        requires touched { AreTouched (spans_of self.parts.now) entries.now (face_begin (self.face + 1))
            touched.first touched.end touched.from touched.to }
        ensures face { IfOkSome result (λ new. new.face ≡ self.entry.face) }
        ensures heavy { IfOkSome result (λ new. new.heavy ≡ self.entry.heavy.now) }
        ensures new_face { IfOkSome result (λ new. IsFaceWith self.entry.face
            (changed (face_pairs self.entry.parts.now self.entry.heavy.now) entries.now)
            (spans_of self.entry.parts.now) (heavy_places_of self.entry.parts.now)
            new.first new.end (spans_of new.parts.items) (heavy_places_of new.parts.items) new.heavy) }
    {
        let (_, later) = self.parts.split_at(touched.first);
        let (own, _) = later.split_at(touched.end - touched.first);
        let before = pairs_in_parts(alloc, own)?;
        let light = merge(alloc, before.as_slice(), entries)?;
        let shared = self.heavy.clone()?;
        let Some(made) = over_spans(
            alloc,
            light.as_slice(),
            shared,
            touched.from,
            touched.to,
            max_part_len,
        )?
        else {
            return Ok(None);
        };
        if has_large_part(made.parts.as_slice(), max_part_len) {
            return Ok(None);
        }
        let FaceParts { parts, heavy } = made;
        Ok(Some(NewFace {
            face: self.face,
            first: touched.first,
            end: touched.end,
            parts,
            heavy,
        }))
    }
}

// Whether one of these parts has a large table. O(p) for p parts.
fn has_large_part(parts: &[Part], max_part_len: usize) -> bool {
    parts
        .iter()
        .any(|part| is_large(part.table(), max_part_len))
}

// Whether no entry's cell has heavy pairs. O(m log c) for m entries and c chunks.
fn are_light(heavy: &HeavyPairs, entries: &[Entry]) -> bool
    ensures { IsTrue result ↔ HaveLightCells entries.now (all_of heavy.now) }
{
    for entry in entries {
        if heavy.has_cell(entry.pair.cell) {
            return false;
        }
    }
    true
}

// Of parts that end by the leaf number `last`: those from the first one that an entry's cell touches to the last one, and the next one too
// if one of these two is small. `None` if there is no entry, or a cell lies beside all parts. O(log p + m) for p parts and m entries.
fn touched_by(parts: &[Part], entries: &[Entry], last: u64, max_part_len: usize) -> Option<Touched>
    ensures { IfSome result (λ r. AreTouched (spans_of parts.now) entries.now last r.first r.end r.from r.to) }
{
    let (begin, reach) = span_of(entries);
    let first = last_by(parts, begin);
    let reached = last_by(parts, reach.saturating_sub(1)) + 1;
    if first >= reached || reached > parts.len() {
        return None;
    }
    let end = with_small(parts, reached, max_part_len);
    let from = parts[first].table().from();
    let to = if end < parts.len() {
        parts[end].table().from()
    } else {
        last
    };
    if begin < from || to < reach {
        return None;
    }
    Some(Touched {
        first,
        end,
        from,
        to,
    })
}

// The place after a part, or after the next one too if one of these two is small: it has less than a quarter of `max_part_len` pairs.
fn with_small(parts: &[Part], end: usize, max_part_len: usize) -> usize
    requires some { 0 < end }
    requires within { end ≤ length parts.now }
    ensures from { end ≤ result }
    ensures within { result ≤ length parts.now }
{
    let small = max_part_len / 4;
    if end < parts.len() && pair_count(parts, end - 1).min(pair_count(parts, end)) < small {
        end + 1
    } else {
        end
    }
}

// How many pairs a part has. O(1).
fn pair_count(parts: &[Part], part: usize) -> usize
    requires { part < length parts.now }
{
    parts[part].table().pair_count()
}

// The least leaf number at which an entry's cell begins, and the greatest at which one ends. O(m) for m entries.
fn span_of(entries: &[Entry]) -> (u64, u64)
    ensures begins { EntriesBeginFrom entries.now result.0 }
    ensures ends { EntriesEndBy entries.now result.1 }
{
    let mut begin = u64::MAX;
    let mut reach = 0_u64;
    for entry in entries {
        begin = begin.min(entry.pair.cell.span_start());
        reach = reach.max(entry.pair.cell.span_end());
    }
    (begin, reach)
}

// The pairs of some parts, one part after the other. O(n) for n pairs. `OutOfMemory` if a growth is refused.
fn pairs_in_parts(alloc: Global, parts: &[Part]) -> Result<Vec<FlatHeld>, OutOfMemory>
    ensures { IfOk result (λ all. all.items ≡ held_in (spans_of parts.now)) }
{
    let mut all = Vec::with_capacity(alloc, count_in_parts(parts))?;
    for part in parts {
        all.extend_from_slice(part.table().held())?;
    }
    Ok(all)
}

// How many pairs some parts have. O(p) for p parts.
fn count_in_parts(parts: &[Part]) -> usize
    ensures { result ≤ length (held_in (spans_of parts.now)) }
{
    let mut count = 0_usize;
    for part in parts {
        count = count.saturating_add(part.table().pair_count());
    }
    count
}
