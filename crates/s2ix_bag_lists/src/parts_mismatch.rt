//! Whether the entries of a change have the right counts before, part by part.
ghost use Rattle.std.specs.Prelude.{◌≡◌, ◌==◌, ◌<◌, not, length, position};
ghost use Rattle.s2ix_bag_lists.specs.Faces.{all_of};
ghost use Rattle.s2ix_bag_lists.specs.Parts.{AreFilled};
ghost use Rattle.s2ix_bag_lists.specs.View.{lists_in};
ghost use Rattle.s2ix_bag_pairs.specs.Change.{IsChangeList};
ghost use Rattle.s2ix_bag_pairs.specs.Collection.{IsCollection, count_in};

use crate::apply::first_mismatch;
use crate::lists_view::ListsView;
use crate::part_search::{entries_up_to_part, part_of};
use s2ix_bag_pairs::Entry;

/// The place of the first entry whose count before is not that of the held pairs. It searches a part for each run of entries that fall into
/// it, and then goes on in the part from the last entry's place: O(m log n) for m entries and n pairs, and never above O(n + m).
pub(crate) fn mismatch_in_parts(parts: ListsView<'_>, entries: &[Entry]) -> Option<usize>
    requires rises { IsCollection (all_of (lists_in parts)) }
    requires filled { AreFilled (lists_in parts) }
    requires some { 0 < length (lists_in parts) }
    requires entries_rise { IsChangeList entries.now }
    ensures { result ≡ position (λ e. not (e.before == count_in (all_of (lists_in parts.entry)) e.pair)) entries.now }
{
    let mut ahead = parts;
    let mut rest = entries;
    let mut passed = 0;
    while let Some(first) = rest.first() {
        let part = part_of(ahead, first.pair);
        let (own, later) = rest.split_at(entries_up_to_part(ahead, part, rest));
        if let Some(place) = first_mismatch(ahead.at(part).as_slice(), own) {
            return Some(passed + place);
        }
        passed += own.len();
        rest = later;
        (_, ahead) = ahead.split_at(part + 1);
    }
    None
}
