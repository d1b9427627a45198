ghost use Rattle.std.specs.Prelude.{◌≡◌, ◌↔◌, IsTrue, option_map};

use s2id_core::FACE_NUMBERS;
use s2ix_table_heavy::HeavyPlace;

/// Where a table in parts keeps a pair of a chain.
#[derive(Clone, Copy, Debug, PartialEq, Eq)]
pub enum FacedPlace {
    /// In a part.
    Light(PartPlace),
    /// Among the heavy pairs of a face.
    Heavy(FaceHeavyPlace),
}

/// Where a light pair is kept: the number of its part, and its place in that part's table, both counted from 0.
#[derive(Clone, Copy, Debug, PartialEq, Eq)]
pub struct PartPlace {
    pub(crate) part: usize,
    pub(crate) node: u32,
}

/// Where a heavy pair is kept: its face, 0 to 5, and its place among the heavy pairs there.
#[derive(Clone, Copy, Debug, PartialEq, Eq)]
pub struct FaceHeavyPlace {
    pub(crate) face: usize,
    pub(crate) place: HeavyPlace,
}

impl FaceHeavyPlace {
    ghost use Rattle.s2ix_table_faced.specs.Layout.{face_with};
    ghost use Rattle.s2ix_table_faced.specs.PartPlaces.{place_of_face};

    // A place among the heavy pairs of the face on which a leaf number lies.
    #[inline]
    pub(crate) fn there(place: Option<HeavyPlace>, leaf: u64) -> Option<FaceHeavyPlace>
        ensures { result ≡ option_map (place_of_face (face_with leaf)) place }
    {
        match place {
            Some(place) => Some(FaceHeavyPlace {
                face: (leaf / FACE_NUMBERS) as usize,
                place,
            }),
            None => None,
        }
    }

    // Whether two places are one, or both none.
    pub(crate) fn are_one(one: Option<FaceHeavyPlace>, other: Option<FaceHeavyPlace>) -> bool
        ensures { IsTrue result ↔ (one ≡ other) }
    {
        match (one, other) {
            (None, None) => true,
            (Some(one), Some(other)) => one == other,
            _ => false,
        }
    }
}
