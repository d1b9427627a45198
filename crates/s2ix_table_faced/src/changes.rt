ghost use Rattle.std.specs.Prelude.{◌≡◌, ◌≢◌, ◌<◌, ℕ, IfSome, true, false};
ghost use Rattle.s2ix_table_kept.specs.Faces.{has_entry_on};

use s2ix_bag_changes::Change;
use s2ix_table_kept::changed_faces;

// The face on which all entries of a change lie, if it is one.
pub(crate) fn only_face(change: &Change) -> Option<u8>
    ensures six { IfSome result (λ face. face < 6) }
    ensures some { IfSome result (λ face. has_entry_on change.now face ≡ true) }
    ensures only { IfSome result (λ face. (other : ℕ) → other < 6 → other ≢ face → has_entry_on change.now other ≡ false) }
{
    let changed = changed_faces(change);
    let mut only = None;
    for face in 0..6u8 {
        if changed[usize::from(face)] {
            if only.is_some() {
                return None;
            }
            only = Some(face);
        }
    }
    only
}
