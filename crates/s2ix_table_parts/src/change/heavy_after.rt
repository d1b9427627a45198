//! What a change of heavy cells makes of a face: the parts stay within which the heavy pairs don't change, and so do the chunks that it
//! does not touch.
ghost use Rattle.std.specs.Prelude.{◌≡◌, ◌<◌, ◌≤◌, ◌+◌, ◌++◌, ◌%◌, ◌∷◌, [], OnOk, length};
ghost use Rattle.s2id_core.specs.Span.{leaf_end};
ghost use Rattle.s2ix_bag_lists.specs.Faces.{all_of};
ghost use Rattle.s2ix_bag_pairs.specs.Change.{IsChangeList, changed};
ghost use Rattle.s2ix_table_parts.specs.FaceSpans.{AreOnFace, heavy_places_of, spans_of};
ghost use Rattle.s2ix_table_parts.specs.Neighbours.{AreNeighbours, held_in};
ghost use Rattle.s2ix_table_parts.specs.Layered.{AreLightParts, HaveOtherCells, IsFaceLayered, IsFaceWith, IsUnder, face_pairs};
ghost use Rattle.s2ix_table_parts.specs.Made.{IfOkSome};

use crate::change::chunks_after::chunks_after;
use crate::change::face_after::Face;
use crate::change::new_parts::NewFace;
use crate::face_parts::{FaceParts, over_spans};
use crate::faces::face_begin;
use crate::heavy_pairs::HeavyPairs;
use crate::part::{Part, end_of};
use s2id_core::OutOfMemory;
use s2ix_bag_pairs::Entry;
use s2ix_table_heavy::HeavyPlace;
use std::alloc::{AllocError, Global};

impl Face<'_> {
    // What a change of heavy cells makes of the face: of cells that have heavy pairs, or no pairs yet. Its parts stay, shared, and it is
    // found anew which heavy pairs lie over each; where these change within a part, its pairs are laid in parts anew. Chunks are made anew,
    // of at most `max_part_len` pairs, only where the change has entries. `None` if a light cell goes over a leaf number at which the heavy pairs
    // change. O(p log c + c + m + k) for p parts, c chunks, m entries and the k pairs of the parts and chunks made anew. `OutOfMemory` if a
    // growth is refused, or a part or a chunk is shared too often.
    pub(crate) fn heavy_after(
        self,
        alloc: Global,
        entries: &[Entry],
        max_part_len: usize,
    ) -> Result<Option<NewFace>, OutOfMemory>
        requires six { self.face < 6 }
        requires layered { IsFaceLayered self.face self.heavy.now (spans_of self.parts.now) (heavy_places_of self.parts.now) }
        requires entries_rise { IsChangeList entries.now }
        requires apart { HaveOtherCells entries.now (held_in (spans_of self.parts.now)) }
        requires on_face { AreOnFace self.face (changed (all_of self.heavy.now) entries.now) }
        requires within_limit { length (changed (all_of self.heavy.now) entries.now) ≤ 1000000 }
        ensures face { IfOkSome result (λ new. new.face ≡ self.entry.face) }
        ensures first { IfOkSome result (λ new. new.first ≡ 0) }
        ensures end { IfOkSome result (λ new. new.end ≡ length (spans_of self.entry.parts.now)) }
        ensures new_face { IfOkSome result (λ new. IsFaceWith self.entry.face
            (changed (face_pairs self.entry.parts.now self.entry.heavy.now) entries.now)
            (spans_of self.entry.parts.now) (heavy_places_of self.entry.parts.now)
            new.first new.end (spans_of new.parts.items) (heavy_places_of new.parts.items) new.heavy) }
    {
        let chunks = chunks_after(alloc, self.heavy.chunks(), entries, max_part_len)?;
        let heavy = HeavyPairs::over(alloc, chunks)?;
        let from = face_begin(self.face);
        let to = face_begin(self.face + 1);
        let Some(face_parts) = parts_under(alloc, self.parts, heavy, from, to, max_part_len)? else {
            return Ok(None);
        };
        let FaceParts { parts, heavy } = face_parts;
        Ok(Some(NewFace {
            face: self.face,
            first: 0,
            end: self.parts.len(),
            parts,
            heavy,
        }))
    }
}

// Parts over the leaves from one number up to another, under heavy pairs: each is shared if these are the same at all its leaves, else its
// pairs are laid anew, in parts of at most `max_part_len` pairs if they can be cut. `None` if a light cell goes over a leaf number at which the
// heavy pairs change. O(p log c + k) for p parts, c chunks and the k pairs of the parts made anew. `OutOfMemory` if a growth is refused, or
// a part is shared too often.
fn parts_under(
    alloc: Global,
    parts: &[Part],
    heavy: HeavyPairs,
    from: u64,
    to: u64,
    max_part_len: usize,
) -> Result<Option<FaceParts>, OutOfMemory>
    requires neighbours { AreNeighbours from (spans_of parts.now) to }
    requires leaves { to ≤ leaf_end }
    ensures heavy { IfOkSome result (λ f. f.heavy ≡ heavy) }
    ensures parts { IfOkSome result (λ f.
        AreLightParts heavy (held_in (spans_of parts.now)) from (spans_of f.parts.items) (heavy_places_of f.parts.items) to) }
{
    let mut made = Vec::with_capacity(alloc, parts.len())?;
    let mut known = (None, from);
    let mut begin = from;
    for k in 0..parts.len() {
        let end = end_of(parts, k, to);
        known = over_from(&heavy, known, begin, end);
        if known.1 < end {
            let shared = heavy.clone()?;
            let held = parts[k].table().held();
            let Some(laid) = over_spans(alloc, held, shared, begin, end, max_part_len)? else {
                return Ok(None);
            };
            put_laid(&mut made, laid)?;
        } else {
            made.push(parts[k].with_heavy_place(known.0)?)?;
        }
        begin = end;
    }
    Ok(Some(FaceParts { parts: made, heavy }))
}

// Puts the parts of what was laid behind others.
fn put_laid(parts: &mut Vec<Part>, laid: FaceParts) -> Result<(), AllocError>
    ensures { OnOk result (parts.new.items ≡ parts.old.items ++ laid.parts.items) }
{
    let FaceParts {
        parts: mut more,
        ..
    } = laid;
    parts.append(&mut more)
}

// The place that leads to the heavy pairs over a leaf, which is given by its number, and a number up to which they are the same: what is
// `known`, if it reaches `end`, else found anew. O(1), or O(log c) for c chunks.
fn over_from(
    heavy: &HeavyPairs,
    known: (Option<HeavyPlace>, u64),
    leaf: u64,
    end: u64,
) -> (Option<HeavyPlace>, u64)
    requires known { leaf < known.1 → IsUnder heavy.now leaf known.1 known.0 }
    requires odd { leaf % 2 ≡ 1 }
    requires some { leaf < end }
    requires leaves { end ≤ leaf_end }
    ensures { IsUnder heavy.now leaf result.1 result.0 }
{
    if end <= known.1 {
        known
    } else {
        heavy.first_over(leaf)
    }
}
