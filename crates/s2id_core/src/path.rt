ghost use Rattle.std.specs.Prelude.{◌≡◌, ◌↔◌, ◌≤◌, IsSome, IfSome};

use crate::cell_id::CellId;

/// A cell's path for people: the face, a slash, and the child positions from level 1 down, as `0/32` (S2's `ToString`). It does not
/// allocate.
#[derive(Clone, Copy, Debug)]
pub struct PathText {
    bytes: [u8; 32],
    len: usize,
    ghost within: { len ≤ 32 },
}

impl PathText {
    ghost use Rattle.s2id_core.specs.PathTextWords.{text_of_path};

    /// The path's text, ASCII digits and a slash.
    pub fn as_bytes(&self) -> &[u8]
        ensures { result.now ≡ text_of_path self.now }
    {
        &self.bytes[..self.len]
    }
}

impl CellId {
    ghost use Rattle.s2id_core.specs.Path.{IsPath, readable_path};
    ghost use Rattle.s2id_core.specs.CellId.{path_of};
    ghost use Rattle.s2id_core.specs.PathTextWords.{text_of_path};

    /// The cell of a face and child positions from level 1 down; `None` for a face above 5, more than 30 positions, or
    /// a position above 3 (S2's `FromFace` and `child`).
    pub fn from_path(face: u8, digits: &[u8]) -> Option<CellId>
        ensures found { IsSome result ↔ IsPath (record { face = face; digits = digits.now }) }
        ensures path { IfSome result (λ cell.
            path_of cell ≡ record { face = face; digits = digits.now }) }
    {
        if face > 5 || digits.len() > 30 {
            return None;
        }
        let mut place = face as u64;
        for digit in digits {
            if *digit > 3 {
                return None;
            }
            place = 4 * place + *digit as u64;
        }
        Some(CellId::at_place(digits.len() as u8, place))
    }

    /// The cell's path for people (S2's `ToString()`).
    pub fn path(self) -> PathText
        ensures { text_of_path result ≡ readable_path (path_of self) }
    {
        let level = self.level();
        let mut bytes = [b'/'; 32];
        bytes[0] = b'0' + self.face();
        for k in 0..level {
            bytes[k as usize + 2] = b'0' + self.digit(k + 1);
        }
        PathText {
            bytes,
            len: level as usize + 2,
        }
    }
}
