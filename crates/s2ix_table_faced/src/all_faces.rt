//! The six faces of a table, made one after the other.
ghost use Rattle.std.specs.Prelude.{◌≡◌, ◌++◌, ◌<◌, ◌≤◌, [], IfOk, OnOk, drop, length, set, take};
ghost use Rattle.s2ix_table_faced.specs.FirstParts.{BeginFaces};
ghost use Rattle.s2ix_table_parts.specs.FaceSpans.{heavy_places_of, spans_of};
ghost use Rattle.s2ix_table_faced.specs.Layout.{IsLayout, pairs_of};

use crate::read_faces::read_list;
use s2id_core::{FACES, OutOfMemory};
use s2ix_table_kept::PairReader;
use s2ix_table_parts::{HeavyPairs, NewFace, Part, all_anew};
use std::alloc::Global;

// The parts of all faces, and the heavy pairs of each face.
#[derive(Drop)]
pub(crate) struct AllFaces {
    pub(crate) parts: Vec<Part>,
    pub(crate) heavy: [HeavyPairs; FACES],
}

impl AllFaces {
    // No parts yet, with room for so many, and no heavy pairs. `OutOfMemory` if a growth is refused.
    pub(crate) fn none(alloc: Global, count: usize) -> Result<AllFaces, OutOfMemory>
        ensures parts { IfOk result (λ all. all.parts.items ≡ []) }
        ensures heavy { IfOk result (λ all. length all.heavy ≡ 6) }
    {
        let parts = Vec::with_capacity(alloc, count)?;
        Ok(AllFaces {
            parts,
            heavy: [
                HeavyPairs::none(),
                HeavyPairs::none(),
                HeavyPairs::none(),
                HeavyPairs::none(),
                HeavyPairs::none(),
                HeavyPairs::none(),
            ],
        })
    }

    // Puts the next face behind those that are there. It shares those of the face's parts `before` that stay. O(p) for the p parts of the face.
    // `OutOfMemory` if a growth is refused, or a part is shared too often.
    pub(crate) fn push(&mut self, new: NewFace, before: &[Part]) -> Result<(), OutOfMemory>
        requires face { new.face < 6 }
        requires order { new.first ≤ new.end }
        requires within { new.end ≤ length before.now }
        ensures parts { OnOk result (self.new.parts.items
            ≡ self.old.parts.items ++ (take new.first before.now ++ (new.parts.items ++ drop new.end before.now))) }
        ensures heavy { OnOk result (self.new.heavy ≡ set self.old.heavy new.face new.heavy) }
    {
        let NewFace {
            face,
            first,
            end,
            mut parts,
            heavy,
        } = new;
        let (front, _) = before.split_at(first);
        let (_, back) = before.split_at(end);
        self.parts.extend_from_slice(front)?;
        self.parts.append(&mut parts)?;
        self.parts.extend_from_slice(back)?;
        self.heavy[usize::from(face)] = heavy;
        Ok(())
    }
}

// The six faces of what a reader shows, each in two layers if it must be. O(n log n) for n pairs. `OutOfMemory` if a growth is refused.
pub(crate) fn read_all_faces<B: PairReader>(
    alloc: Global,
    reader: &mut B,
) -> Result<AllFaces, OutOfMemory>
    ensures layout { IfOk result (λ all. IsLayout (spans_of all.parts.items) all.heavy (heavy_places_of all.parts.items)) }
    ensures faces { IfOk result (λ all. BeginFaces (spans_of all.parts.items)) }
    ensures pairs { IfOk result (λ all. pairs_of all.parts.items all.heavy ≡ B.shown reader.old) }
{
    let mut all = AllFaces::none(alloc, 6)?;
    for face in 0..6u8 {
        let list = read_list(alloc, reader, face)?;
        let new = all_anew(alloc, &list, face, 0)?;
        all.push(new, &[])?;
    }
    Ok(all)
}
