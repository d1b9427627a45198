ghost use Rattle.std.specs.Prelude.{◌≡◌, ℕ, ◌↔◌, ◌+◌, ◌-◌, ◌*◌, ◌%◌, ◌^◌, ◌<◌, ◌≤◌, IsTrue, IsSome, IfSome};
ghost use Rattle.s2id_core.specs.Cell.{IsCellNumber};

/// How many faces the cube has (S2's `kNumFaces`).
pub const FACES: usize = 6;

/// How many numbers begin with the three bits of a face: 2^61 (S2's `kPosBits` is 61).
pub const FACE_NUMBERS: u64 = 1 << 61;

/// The leaf number that would come next after that of the last leaf. Spans may end with it; no cell has it.
pub const LEAF_END: u64 = 0xc000000000000001;

// The number where face 5 ends.
const CURVE_END: u64 = 6 * FACE_NUMBERS;

/// A cell of the S2 curve, named by its 64-bit number: three bits of face, two bits for each child position,
/// a bit 1, then zeros (S2's `S2CellId`). Each value is a cell: there is no invalid `CellId`.
/// Cells are ordered by number.
#[derive(Clone, Copy, PartialEq, Eq, PartialOrd, Ord, Hash)]
pub struct CellId {
    raw: u64,
    pub ghost valid: { IsCellNumber raw },
}

impl CellId {
    ghost use Rattle.s2id_core.specs.Path.{place_of, ancestor};
    ghost use Rattle.s2id_core.specs.CellId.{raw_of, path_of, face_of, level_of};

    /// The cell of a number, or `None` if no cell has it (S2's constructor and `is_valid`).
    pub fn from_raw(raw: u64) -> Option<CellId>
        ensures found { IsSome result ↔ IsCellNumber raw }
        ensures number { IfSome result (λ cell. raw_of cell ≡ raw) }
    {
        let zeros = raw.trailing_zeros();
        if raw >> 61 < 6 && zeros <= 60 && zeros % 2 == 0 {
            Some(CellId { raw })
        } else {
            None
        }
    }

    /// The cell's number (S2's `id()`).
    pub fn raw(self) -> u64
        ensures { result ≡ raw_of self }
    {
        self.raw
    }

    /// The face, 0 to 5 (S2's `face()`).
    pub fn face(self) -> u8
        ensures { result ≡ face_of self }
    {
        (self.raw >> 61) as u8
    }

    /// The level, 0 for a whole face to 30 for a leaf (S2's `level()`).
    pub fn level(self) -> u8
        ensures level { result ≡ level_of self }
        ensures at_most { result ≤ 30 }
    {
        30 - (self.raw.trailing_zeros() / 2) as u8
    }

    /// The lowest bit of the number that is 1, by itself. It is also how many leaves the cell has (S2's `lsb()`).
    pub fn lsb(self) -> u64
        ensures { result ≡ 4 ^ (30 - level_of self) }
    {
        1 << self.raw.trailing_zeros()
    }

    /// Whether the cell is of level 30 (S2's `is_leaf()`).
    pub fn is_leaf(self) -> bool
        ensures { IsTrue result ↔ (level_of self ≡ 30) }
    {
        self.raw % 2 == 1
    }

    /// The place along the whole curve, counted from 0, of this cell's ancestor at a level.
    pub fn place_at(self, level: u8) -> u64
        requires { level ≤ level_of self }
        ensures place { result ≡ place_of (ancestor level (path_of self)) }
        ensures bound { result < 6 * 4 ^ level }
        ensures fits { result < 6 * 2 ^ 60 }
    {
        self.raw >> (61 - 2 * level)
    }

    /// The cell of a level at a place, counted from 0 along the whole curve.
    pub fn at_place(level: u8, place: u64) -> CellId
        requires fine { level ≤ 30 }
        requires within { place < 6 * 4 ^ level }
        ensures level { level_of result ≡ level }
        ensures place { place_of (path_of result) ≡ place }
    {
        CellId {
            raw: (2 * place + 1) << (60 - 2 * level),
        }
    }

    /// The next cell of its level along the curve; after the last of face 5 comes the first of face 0 (S2's `next_wrap()`).
    pub fn next_wrap(self) -> CellId
        ensures level { level_of result ≡ level_of self }
        ensures place { place_of (path_of result)
            ≡ (place_of (path_of self) + 1) % (6 * 4 ^ level_of self) }
    {
        let next = self.raw + 2 * self.lsb();
        CellId {
            raw: if next < CURVE_END {
                next
            } else {
                next - CURVE_END
            },
        }
    }
}
