//! Which parts of a list a change may concern.
ghost use Rattle.std.specs.Prelude.{◌≡◌, ◌<◌, ◌≤◌, length};
ghost use Rattle.s2ix_bag_lists.specs.Faces.{all_of};
ghost use Rattle.s2ix_bag_lists.specs.Parts.{AreFilled, IsWindow};
ghost use Rattle.s2ix_bag_lists.specs.View.{lists_in};
ghost use Rattle.s2ix_bag_pairs.specs.Change.{IsChangeList};
ghost use Rattle.s2ix_bag_pairs.specs.Collection.{IsCollection};

use crate::lists_view::ListsView;
use crate::part_search::part_of;
use s2ix_bag_pairs::Entry;

// The parts from that of the first entry to that of the last one, with one neighbour on each side, which may be joined with them: the number
// of the first of these parts, and of the first part behind them.
pub(crate) fn window(parts: ListsView<'_>, entries: &[Entry]) -> (usize, usize)
    requires rises { IsCollection (all_of (lists_in parts)) }
    requires filled { AreFilled (lists_in parts) }
    requires some { 0 < length (lists_in parts) }
    requires entries_rise { IsChangeList entries.now }
    requires some_entry { 0 < length entries.now }
    ensures { IsWindow (lists_in parts.entry) entries.now result.0 result.1 }
{
    let first = part_of(parts, entries[0].pair);
    let last = part_of(parts, entries[entries.len() - 1].pair).max(first);
    (
        first.saturating_sub(1),
        parts.len().min(last.saturating_add(2)),
    )
}
