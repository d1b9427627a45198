//! Where the pairs of a face end in a rising list.
ghost use Rattle.std.specs.Prelude.{◌↔◌, ◌<◌, ◌≤◌, ◌+◌, IsTrue, length, take, drop};
ghost use Rattle.s2ix_bag_lists.specs.Faces.{AreEntriesBelow, face_start};
ghost use Rattle.s2ix_bag_pairs.specs.Change.{IsChangeList, IsChangeListFrom};
ghost use Rattle.s2ix_bag_pairs.specs.Collection.{IsCollection, IsCollectionFrom, AreBelow};
ghost use Rattle.s2ix_bag_pairs.specs.Pair.{rank_of};

use s2ix_bag_held::FlatHeld;
use s2ix_bag_pairs::{Entry, Pair};

// Whether a pair is of a face, or of one before it.
fn is_up_to(pair: Pair, face: usize) -> bool
    ensures { IsTrue result ↔ (rank_of pair < face_start (face + 1)) }
{
    usize::from(pair.cell.face()) <= face
}

// How many held pairs are of a face, or of one before it. O(log n).
pub(crate) fn held_up_to(held: &[FlatHeld], face: usize) -> usize
    requires { IsCollection held.now }
    ensures within { result ≤ length held.now }
    ensures below { AreBelow (face_start (face + 1)) (take result held.now) }
    ensures rest { IsCollectionFrom (face_start (face + 1)) (drop result held.now) }
{
    held.partition_point(|h| is_up_to(h.pair(), face))
}

// How many entries are of a face, or of one before it. O(k) for the answer k.
pub(crate) fn entries_up_to(entries: &[Entry], face: usize) -> usize
    requires { IsChangeList entries.now }
    ensures within { result ≤ length entries.now }
    ensures below { AreEntriesBelow (face_start (face + 1)) (take result entries.now) }
    ensures rest { IsChangeListFrom (face_start (face + 1)) (drop result entries.now) }
{
    let mut count = 0;
    while count < entries.len() && is_up_to(entries[count].pair, face) {
        count += 1;
    }
    count
}
