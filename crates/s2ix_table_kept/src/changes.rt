ghost use Rattle.std.specs.Prelude.{◌≡◌, count_by, map};
ghost use Rattle.s2ix_table_kept.specs.Faces.{faces, has_entry_on};

use s2id_core::FACES;
use s2ix_bag_changes::Change;
use s2ix_bag_pairs::Entry;

// For each face, 0 to 5, whether there is an entry on it. (In clauses `faces_of` is how many such faces there are.)
fn faces_of(entries: &[Entry]) -> [bool; FACES]
    ensures { result ≡ map (has_entry_on entries.now) faces }
{
    let mut changed = [false; FACES];
    for entry in entries {
        changed[usize::from(entry.pair.cell.face())] = true;
    }
    changed
}

/// For each face, 0 to 5, whether a change has an entry on it. If it has none, the pairs there stay as they are. O(n) for n entries.
pub fn changed_faces(change: &Change) -> [bool; FACES]
    ensures { result ≡ map (has_entry_on change.now) faces }
{
    faces_of(change.entries())
}

/// How many faces a change has an entry on. O(n) for n entries.
pub fn changed_face_count(change: &Change) -> u8
    ensures { result ≡ count_by (has_entry_on change.now) faces }
{
    let [first, second, third, fourth, fifth, sixth] = changed_faces(change);
    u8::from(first)
        + u8::from(second)
        + u8::from(third)
        + u8::from(fourth)
        + u8::from(fifth)
        + u8::from(sixth)
}
