ghost use Rattle.std.specs.Prelude.{◌≡◌, ◌<◌, ◌≤◌, ◌↔◌, ◌+◌, ◌*◌, IsTrue, length, take, drop, map, IfOk, OnOk};
ghost use Rattle.s2ix_bag_lists.specs.Faces.{face_start};
ghost use Rattle.s2ix_bag_pairs.specs.Collection.{IsCollectionFrom, AreBelow};
ghost use Rattle.s2ix_bag_pairs.specs.Pair.{rank_of};
ghost use Rattle.s2id_core.specs.BinaryDigits.{binary_digits};
ghost use Rattle.s2ix_table_kept.specs.Faces.{faces, faces_of, held_on, changed_on, changed_count};
ghost use Rattle.s2ix_table_kept.specs.Reading.{HasRead, IsFaceRead, AreChangedRead, two_searches};

use s2id_core::{FACES, OutOfMemory};
use s2ix_bag_changes::Change;
use s2ix_bag_lists::HeldParts;
use s2ix_bag_pairs::Pair;
use s2ix_table_kept::{PairReader, changed_faces};
use std::alloc::Global;

// Whether a pair lies on a face before this one.
fn is_before_face(pair: Pair, face: u8) -> bool
    ensures { IsTrue result ↔ (rank_of pair < face_start face) }
{
    pair.cell.face() < face
}

// How many pairs lie on faces before this one. Each read leaves out at least half of the pairs that are left. If the reader knows where faces
// begin and end, each read leaves out a whole face too, so there are at most six.
fn first_from<B: PairReader>(reader: &mut B, face: u8) -> usize
    ensures within { result ≤ length (B.shown reader.old) }
    ensures below { AreBelow (face_start face) (take result (B.shown reader.old)) }
    ensures rest { IsCollectionFrom (face_start face) (drop result (B.shown reader.old)) }
    ensures same { B.shown reader.new ≡ B.shown reader.old }
    ensures reads { HasRead 0 (binary_digits (length (B.shown reader.old) + 1)) (B.spent reader.old) (B.spent reader.new) }
{
    let mut from = 0;
    let mut to = reader.len();
    while from < to {
        let middle = from + (to - from) / 2;
        let (begin, end) = reader.face_around(middle);
        if is_before_face(reader.read(middle).pair, face) {
            from = end.min(to);
        } else {
            to = begin.max(from);
        }
    }
    from
}

// The pairs held on a face, in rising order, in a list that others may keep too: of a bag it is the bag's own. With p pairs there and n in
// all it reads each of them once and O(log n) more: at most p + 2 * digits(n + 1) reads, for the binary digits of n + 1. `OutOfMemory` if a
// growth is refused, or the list is shared too often; then too it has read at most so many.
pub(crate) fn read_list<B: PairReader>(
    alloc: Global,
    reader: &mut B,
    face: u8,
) -> Result<HeldParts, OutOfMemory>
    requires { face < 6 }
    ensures pairs { IfOk result (λ held. held ≡ held_on face (B.shown reader.old)) }
    ensures same { B.shown reader.new ≡ B.shown reader.old }
    ensures reads { OnOk result (IsFaceRead face (B.shown reader.old) (B.spent reader.old) (B.spent reader.new)) }
    ensures refused { HasRead 0
        (length (held_on face (B.shown reader.old)) + two_searches (B.shown reader.old)) (B.spent reader.old) (B.spent reader.new) }
{
    let first = first_from(reader, face);
    let after = first_from(reader, face + 1);
    reader.read_between(alloc, first, after)
}

// For each face, 0 to 5, on which a change has an entry: the pairs held there, as `read_list` gives them; `None` for the other faces. With p
// pairs on f such faces and n in all it reads each of the p once and O(f log n) more: at most p + 2 * f * digits(n + 1) reads, for the binary
// digits of n + 1. O(m) besides, for m entries. `OutOfMemory` if a growth is refused, or a list is shared too often, after no more reads than
// that.
pub(crate) fn read_changed_lists<B: PairReader>(
    alloc: Global,
    reader: &mut B,
    change: &Change,
) -> Result<[Option<HeldParts>; FACES], OutOfMemory>
    ensures pairs { IfOk result (λ read. read ≡ map (changed_on change.now (B.shown reader.old)) faces) }
    ensures same { B.shown reader.new ≡ B.shown reader.old }
    ensures reads { OnOk result (AreChangedRead change.now (B.shown reader.old) (B.spent reader.old) (B.spent reader.new)) }
    ensures refused { HasRead 0
        (changed_count change.now (B.shown reader.old) + faces_of change.now * two_searches (B.shown reader.old)) (B.spent reader.old) (B.spent reader.new) }
{
    let changed = changed_faces(change);
    let mut read = [None, None, None, None, None, None];
    for face in 0..6u8 {
        if changed[usize::from(face)] {
            read[usize::from(face)] = Some(read_list(alloc, reader, face)?);
        }
    }
    Ok(read)
}
