//! Which part of a table has a leaf or a range, by where the parts begin.
ghost use Rattle.std.specs.Prelude.{◌≡◌, ◌+◌, ◌<◌, ◌≤◌, ℕ, List, length, slice_index_or, AllPairs, Contains};
ghost use Rattle.s2ix_table_spans.specs.Starts.{IsAmong, IsLastStart};
ghost use Rattle.s2ix_table_walk.specs.FaceWindows.{face_begin};
ghost use Rattle.s2ix_table_faced.specs.FirstParts.{AreFirstParts};

use s2id_core::FACES;
use s2ix_table_parts::face_begin;
use s2ix_table_walk::Window;

// An element of a list that is searched by where its elements begin, as those of parts by leaves or by ranges.
pub(crate) trait Begins: Sized {
    // where the elements of a list begin
    ghost begins: { List Self → List ℕ };

    // Where the element at a place begins.
    fn begin_at(list: &[Self], place: usize) -> u64
        requires { place < length list.now }
        ensures { result ≡ slice_index_or (begins list.now) place 0 };
}

impl Begins for u64 {
    ghost begins = { λ starts. starts };

    #[inline]
    fn begin_at(list: &[u64], place: usize) -> u64 {
        list[place]
    }
}

// The last element of a list that begins by a number, if it is among some of them. O(log n) for n of these.
#[inline]
pub(crate) fn last_by<T: Begins>(list: &[T], number: u64, among: Window) -> usize
    requires listed { among.first + among.size ≤ length list.now }
    requires among { IsAmong (T.begins list.now) number among.first among.size }
    ensures { IsLastStart (T.begins list.now) number result }
{
    let mut first = among.first;
    let mut size = among.size;
    while size > 1 {
        let half = size / 2;
        if T::begin_at(list, first + half) <= number {
            first += half;
            size -= half;
        } else {
            size = half;
        }
    }
    first
}

// The number of the part that a face, 0 to 5, begins. O(log p) for p parts.
fn first_part(starts: &[u64], face: u8) -> usize
    requires rises { AllPairs (λ a b. a < b) starts.now }
    requires face { face < 6 }
    requires begins { Contains starts.now (face_begin face) }
    requires first { slice_index_or starts.now 0 0 ≡ 1 }
    ensures listed { result < length starts.now }
    ensures begins { slice_index_or starts.now result 0 ≡ face_begin face }
{
    let size = starts.len();
    last_by(starts, face_begin(face), Window { first: 0, size })
}

// For each face the number of the part that it begins, and after the last face how many parts there are. O(log p) for p parts.
pub(crate) fn first_parts(starts: &[u64]) -> [usize; FACES + 1]
    requires rises { AllPairs (λ a b. a < b) starts.now }
    requires begins { (face : ℕ) → face < 6 → Contains starts.now (face_begin face) }
    requires first { slice_index_or starts.now 0 0 ≡ 1 }
    ensures { AreFirstParts starts.now result }
{
    [
        first_part(starts, 0),
        first_part(starts, 1),
        first_part(starts, 2),
        first_part(starts, 3),
        first_part(starts, 4),
        first_part(starts, 5),
        starts.len(),
    ]
}
