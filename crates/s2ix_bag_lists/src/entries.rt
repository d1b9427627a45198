//! When a list of entries is no change.
ghost use Rattle.std.specs.Prelude.{◌≡◌};
ghost use Rattle.s2ix_bag_lists.specs.Entries.{change_fault, first_unsorted, first_without_difference};

use crate::errors::ChangeError;
use s2ix_bag_pairs::{Entry, Pair};

// The place of the first entry that is not above the one before it. O(m).
fn unsorted_place(entries: &[Entry]) -> Option<usize>
    ensures { result ≡ first_unsorted entries.now }
{
    let mut last: Option<Pair> = None;
    for (place, entry) in entries.iter().enumerate() {
        if let Some(pair) = last {
            if !pair.is_before(entry.pair) {
                return Some(place);
            }
        }
        last = Some(entry.pair);
    }
    None
}

// The place of the first entry whose two counts are equal. O(m).
fn equal_place(entries: &[Entry]) -> Option<usize>
    ensures { result ≡ first_without_difference entries.now }
{
    entries.iter().position(|e| e.before == e.after)
}

/// Why a list of entries is no change, or `None` if it is one: each test goes over all entries, in the order of the errors. It never
/// answers `OutOfMemory`. O(m).
pub fn fault(entries: &[Entry]) -> Option<ChangeError>
    ensures { result ≡ change_fault entries.now }
{
    if let Some(place) = unsorted_place(entries) {
        return Some(ChangeError::Unsorted(place));
    }
    equal_place(entries).map(ChangeError::NoDifference)
}
