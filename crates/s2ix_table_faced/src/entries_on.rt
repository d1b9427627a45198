ghost use Rattle.std.specs.Prelude.{◌≡◌, ◌<◌, ◌≤◌, length, take, drop, Contains};
ghost use Rattle.s2id_core.specs.CellId.{face_of};
ghost use Rattle.s2ix_bag_pairs.specs.Change.{IsChangeList};
ghost use Rattle.s2ix_bag_pairs.specs.declared.pair.Entry.{Entry as EntryOf};
ghost use Rattle.s2ix_table_kept.specs.Faces.{entries_on};

use s2ix_bag_pairs::Entry;

// The entries on a face. They stand together, since entries rise. O(m) for m entries.
pub(crate) fn entries_on(entries: &[Entry], face: u8) -> &[Entry]
    requires rises { IsChangeList entries.now }
    requires face { face < 6 }
    ensures entries { result.now ≡ entries_on face entries.now }
    ensures rises { IsChangeList result.now }
{
    let (_, later) = entries.split_at(before_face(entries, face));
    let (own, _) = later.split_at(before_face(later, face + 1));
    own
}

// How many entries lie on faces before this one. O(m) for m entries.
fn before_face(entries: &[Entry], face: u8) -> usize
    requires { IsChangeList entries.now }
    ensures within { result ≤ length entries.now }
    ensures before { (e : EntryOf) → Contains (take result entries.now) e → face_of e.pair.cell < face }
    ensures from { (e : EntryOf) → Contains (drop result entries.now) e → face ≤ face_of e.pair.cell }
{
    let mut count = 0;
    while count < entries.len() {
        if entries[count].pair.cell.face() >= face {
            return count;
        }
        count += 1;
    }
    count
}
