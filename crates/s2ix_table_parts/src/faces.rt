//! Where faces begin.
ghost use Rattle.std.specs.Prelude.{◌≡◌, ◌≤◌};
ghost use Rattle.s2ix_table_walk.specs.FaceWindows.{face_begin};

use s2id_core::FACE_NUMBERS;

/// The number of the first leaf of a face, 0 to 5; for 6 the number at which the last face ends, `s2id_core::LEAF_END`. O(1).
pub fn face_begin(face: u8) -> u64
    requires { face ≤ 6 }
    ensures { result ≡ face_begin face }
{
    u64::from(face) * FACE_NUMBERS + 1
}
