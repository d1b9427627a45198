//! Cells by their numbers, if they follow one another.

ghost use Rattle.std.specs.Prelude.{◌≡◌, ◌≤◌, IsTrue, false, length, take};
ghost use Rattle.s2id_union.specs.Covers.{FollowOneAnother};
ghost use Rattle.s2ix_c_calls.specs.Asked.{AreCells, AreFollowing};

use s2id_core::CellId;

/// Writes the cells of some numbers to the front of `room`, and returns true. At the first number that is no cell's, or whose cell doesn't
/// follow the one before it, it returns false. O(n) for n numbers.
#[inline]
pub(crate) fn write_following(ids: &[u64], room: &mut [CellId]) -> bool
    requires { length ids.now ≤ length room.old }
    ensures cells { IsTrue result → AreCells ids.now (take (length ids.now) room.new) }
    ensures following { IsTrue result → FollowOneAnother (take (length ids.now) room.new) }
    ensures wrong { result ≡ false → AreFollowing ids.now → ⊥ }
{
    let mut end = 0;
    for (place, id) in ids.iter().enumerate() {
        let Some(cell) = CellId::from_raw(*id) else {
            return false;
        };
        if cell.span_start() < end {
            return false;
        }
        room[place] = cell;
        end = cell.span_end();
    }
    true
}
