//! What a change makes of one face of a table.
ghost use Rattle.std.specs.Prelude.{◌≡◌, ◌++◌, ◌<◌, ◌≤◌, ◌+◌, ◌*◌, [], IfOk, OnOk, length, take, drop};
ghost use Rattle.s2ix_bag_lists.specs.Faces.{all_of};
ghost use Rattle.s2ix_bag_pairs.specs.Change.{IsChangeList, changed};
ghost use Rattle.s2ix_bag_pairs.specs.Collection.{IsCollection};
ghost use Rattle.s2ix_table_parts.specs.FaceSpans.{AreOnFace, face_begin, heavy_places_of, spans_of, tables_of};
ghost use Rattle.s2ix_table_parts.specs.Neighbours.{AreNeighbours, held_in};
ghost use Rattle.s2ix_table_parts.specs.Layered.{IsFaceLayered, IsFaceWith, face_pairs};
ghost use Rattle.s2ix_table_parts.specs.Parts.{with_parts};

use crate::change::new_parts::{NewFace, NewParts};
use crate::change::parts_changed::{changed_parts, last_by};
use crate::face_parts::{FaceParts, face_parts, has_large};
use crate::faces::face_begin;
use crate::heavy_pairs::HeavyPairs;
use crate::part::{Part, share_under};
use s2id_core::{CellId, OutOfMemory};
use s2ix_bag_lists::HeldParts;
use s2ix_bag_pairs::Entry;
use std::alloc::Global;

/// A face of a table: its parts, and the heavy pairs over them.
#[derive(Clone, Copy, Debug)]
pub struct Face<'a> {
    /// The face, 0 to 5.
    pub face: u8,
    /// Its parts, from its first leaf to its last.
    pub parts: &'a [Part],
    /// The heavy pairs over them.
    pub heavy: &'a HeavyPairs,
}

impl Face<'_> {
    /// What a change makes of the face: `entries` are the change's entries on the face, and `held` has the face's pairs after it. Of these
    /// four ways the first that serves is taken:
    ///
    /// 1. There are no heavy pairs: the parts that an entry touches are made anew, over lists that `held` shares. This doesn't serve if one
    ///    of them becomes large: if it gets more than twice as many pairs as a part should have.
    /// 2. No entry's cell has heavy pairs: the parts from the first to the last one that an entry touches are made anew, and the heavy pairs
    ///    stay. This doesn't serve if a part becomes large, or a light cell lies under some heavy pairs at only some of its leaves.
    /// 3. Some entries have cells with heavy pairs, or cells that go over several parts: the pairs of these cells go into chunks. Only the
    ///    chunks that an entry touches are made anew, and only the parts that an entry touches or over which the heavy pairs change.
    /// 4. All pairs are laid in parts and chunks anew.
    ///
    /// The first two are left out if an entry's cell goes over parts with many pairs, since they would do their work in vain.
    ///
    /// O(p log c + c + m * (log c + log p) + k) for p parts, c chunks, m entries and the k pairs of what is made anew. In the first way each part
    /// between the entries takes O(log b) more, since the lists of `held` lie in b bundles; in the fourth the n pairs of the face take O(n log n)
    /// more. `OutOfMemory` if a growth is refused, or a part, a list or a chunk is shared too often.
    pub fn after(
        self,
        alloc: Global,
        held: &HeldParts,
        entries: &[Entry],
    ) -> Result<NewFace, OutOfMemory>
        requires six { self.face < 6 }
        requires layered { IsFaceLayered self.face self.heavy.now (spans_of self.parts.now) (heavy_places_of self.parts.now) }
        requires made { changed (face_pairs self.parts.now self.heavy.now) entries.now ≡ held.now }
        requires entries_rise { IsChangeList entries.now }
        requires rises { IsCollection held.now }
        requires within_limit { length held.now ≤ 1000000 }
        requires on_face { AreOnFace self.face held.now }
        ensures face { IfOk result (λ new. new.face ≡ self.entry.face) }
        ensures new_face { IfOk result (λ new. IsFaceWith self.entry.face held.now (spans_of self.entry.parts.now) (heavy_places_of self.entry.parts.now)
            new.first new.end (spans_of new.parts.items) (heavy_places_of new.parts.items) new.heavy) }
        ensures before { IfOk result (λ new. 0 < new.first → new.heavy ≡ self.entry.heavy.now) }
        ensures behind { IfOk result (λ new. new.end < length (spans_of self.entry.parts.now) → new.heavy ≡ self.entry.heavy.now) }
    {
        let max_part_len = held.max_part_len();
        if !has_wide(self.parts, entries, max_part_len) {
            if self.heavy.is_empty() {
                let new = self.plain_parts_after(alloc, held, entries)?;
                if !has_large(&new.parts, max_part_len) {
                    return self.with_light(alloc, &new);
                }
            }
            if let Some(new) = self.light_after(alloc, entries, max_part_len)? {
                return Ok(new);
            }
        }
        if let Some(new) = self.layers_after(alloc, entries, max_part_len)? {
            return Ok(new);
        }
        self.made_anew(alloc, held)
    }

    // What a change makes of the parts of a face without heavy pairs, as `changed_parts` does it.
    fn plain_parts_after(
        self,
        alloc: Global,
        held: &HeldParts,
        entries: &[Entry],
    ) -> Result<NewParts, OutOfMemory>
        requires six { self.face < 6 }
        requires neighbours { AreNeighbours (face_begin self.face) (spans_of self.parts.now) (face_begin (self.face + 1)) }
        requires made { changed (held_in (spans_of self.parts.now)) entries.now ≡ held.now }
        requires entries_rise { IsChangeList entries.now }
        requires rises { IsCollection held.now }
        requires within_limit { length held.now ≤ 1000000 }
        requires on_face { AreOnFace self.face held.now }
        ensures order { IfOk result (λ new. new.first ≤ new.end) }
        ensures within { IfOk result (λ new. new.end ≤ length (spans_of self.entry.parts.now)) }
        ensures neighbours { IfOk result (λ new. AreNeighbours (face_begin self.entry.face)
            (with_parts (spans_of self.entry.parts.now) new.first new.end (tables_of new.parts.items))
            (face_begin (self.entry.face + 1))) }
        ensures pairs { IfOk result (λ new. held_in (with_parts (spans_of self.entry.parts.now) new.first new.end (tables_of new.parts.items))
            ≡ held.now) }
    {
        let from = face_begin(self.face);
        let to = face_begin(self.face + 1);
        changed_parts(alloc, self.parts, held.parts(), entries, from, to)
    }

    // The face with new parts in the place of others, without heavy pairs.
    fn with_light(self, alloc: Global, new: &NewParts) -> Result<NewFace, OutOfMemory>
        requires layered { IsFaceLayered self.face [] (spans_of self.parts.now) (heavy_places_of self.parts.now) }
        requires order { new.now.first ≤ new.now.end }
        requires within { new.now.end ≤ length (spans_of self.parts.now) }
        requires neighbours { AreNeighbours (face_begin self.face)
            (with_parts (spans_of self.parts.now) new.now.first new.now.end (tables_of new.now.parts.items))
            (face_begin (self.face + 1)) }
        ensures face { IfOk result (λ face. face.face ≡ self.entry.face) }
        ensures heavy { IfOk result (λ face. face.heavy ≡ []) }
        ensures new_face { IfOk result (λ face. IsFaceWith self.entry.face
            (held_in (with_parts (spans_of self.entry.parts.now) new.now.first new.now.end (tables_of new.now.parts.items)))
            (spans_of self.entry.parts.now) (heavy_places_of self.entry.parts.now)
            face.first face.end (spans_of face.parts.items) (heavy_places_of face.parts.items) face.heavy) }
    {
        let mut parts = Vec::with_capacity(alloc, new.parts.len())?;
        share_under(&mut parts, &new.parts, None)?;
        Ok(NewFace {
            face: self.face,
            first: new.first,
            end: new.end,
            parts,
            heavy: HeavyPairs::none(),
        })
    }

    // All pairs of the face are layered anew: all its parts give way.
    fn made_anew(self, alloc: Global, held: &HeldParts) -> Result<NewFace, OutOfMemory>
        requires six { self.face < 6 }
        requires rises { IsCollection held.now }
        requires within_limit { length held.now ≤ 1000000 }
        requires on_face { AreOnFace self.face held.now }
        ensures face { IfOk result (λ new. new.face ≡ self.entry.face) }
        ensures first { IfOk result (λ new. new.first ≡ 0) }
        ensures end { IfOk result (λ new. new.end ≡ length (spans_of self.entry.parts.now)) }
        ensures new_face { IfOk result (λ new. IsFaceWith self.entry.face held.now (spans_of self.entry.parts.now) (heavy_places_of self.entry.parts.now)
            new.first new.end (spans_of new.parts.items) (heavy_places_of new.parts.items) new.heavy) }
    {
        let new = all_anew(alloc, held, self.face, self.parts.len())?;
        Ok(new)
    }

    /// The face as it is: no part gives way, and the heavy pairs are shared. O(1). `OutOfMemory` if they are shared too often.
    pub fn unchanged(self, alloc: Global) -> Result<NewFace, OutOfMemory>
        requires { IsFaceLayered self.face self.heavy.now (spans_of self.parts.now) (heavy_places_of self.parts.now) }
        ensures face { IfOk result (λ new. new.face ≡ self.entry.face) }
        ensures heavy { IfOk result (λ new. new.heavy ≡ self.entry.heavy.now) }
        ensures new_face { IfOk result (λ new. IsFaceWith self.entry.face
            (face_pairs self.entry.parts.now self.entry.heavy.now)
            (spans_of self.entry.parts.now) (heavy_places_of self.entry.parts.now)
            new.first new.end (spans_of new.parts.items) (heavy_places_of new.parts.items) new.heavy) }
    {
        let heavy = self.heavy.clone()?;
        Ok(NewFace {
            face: self.face,
            first: 0,
            end: 0,
            parts: Vec::new(alloc),
            heavy,
        })
    }
}

// Whether an entry's cell is wide. O(log p + q) for each entry: p parts, and the q parts within its cell until they have more than
// `max_part_len` pairs.
fn has_wide(parts: &[Part], entries: &[Entry], max_part_len: usize) -> bool {
    entries
        .iter()
        .any(|entry| is_wide(parts, entry.pair.cell, max_part_len))
}

// Whether parts that lie wholly within a cell have more than `max_part_len` pairs together. No clause says so: it only saves making parts
// that would be too large and be dropped.
fn is_wide(parts: &[Part], cell: CellId, max_part_len: usize) -> bool {
    let end = cell.span_end();
    let mut count = 0_usize;
    for next in last_by(parts, cell.span_start()) + 2..parts.len() {
        if parts[next].table().from() > end {
            return false;
        }
        count = count.saturating_add(parts[next - 1].table().pair_count());
        if count > max_part_len {
            return true;
        }
    }
    false
}

/// A face that is made anew of the pairs `held`: new parts take the place of all its `count` parts, and new chunks that of its heavy pairs.
/// O(n log n) for n pairs. `OutOfMemory` if a growth is refused, or a list is shared too often.
pub fn all_anew(
    alloc: Global,
    held: &HeldParts,
    face: u8,
    count: usize,
) -> Result<NewFace, OutOfMemory>
    requires six { face < 6 }
    requires rises { IsCollection held.now }
    requires within_limit { length held.now ≤ 1000000 }
    requires on_face { AreOnFace face held.now }
    ensures face { IfOk result (λ new. new.face ≡ face) }
    ensures first { IfOk result (λ new. new.first ≡ 0) }
    ensures end { IfOk result (λ new. new.end ≡ count) }
    ensures layered { IfOk result (λ new. IsFaceLayered face new.heavy (spans_of new.parts.items) (heavy_places_of new.parts.items)) }
    ensures pairs { IfOk result (λ new. face_pairs new.parts.items new.heavy ≡ held.now) }
{
    let FaceParts { parts, heavy } = face_parts(alloc, held, face)?;
    Ok(NewFace {
        face,
        first: 0,
        end: count,
        parts,
        heavy,
    })
}
