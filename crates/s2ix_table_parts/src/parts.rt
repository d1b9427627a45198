//! The parts of a table: tables over neighbouring spans. No cell goes over a seam between two of them.
ghost use Rattle.std.specs.Prelude.{◌≡◌, ◌≤◌, ◌%◌, IfOk, length, take, slice_index_or};
ghost use Rattle.s2ix_bag_lists.specs.Faces.{all_of};
ghost use Rattle.s2ix_bag_lists.specs.View.{lists_in};
ghost use Rattle.s2ix_bag_pairs.specs.Collection.{IsCollection};
ghost use Rattle.s2ix_table_spans.specs.SpanTable.{IsInSpan, IsSpanTable};
ghost use Rattle.s2ix_table_parts.specs.FaceSpans.{tables_of};
ghost use Rattle.s2ix_table_parts.specs.Neighbours.{AreNeighbours, held_in};
ghost use Rattle.s2ix_table_parts.specs.Parts.{AreSeams, BeginsFrom, EndsBy};

use s2id_core::OutOfMemory;
use s2ix_bag_held::{FlatHeld, HeldList};
use s2ix_bag_lists::ListsView;
use s2ix_table_spans::SpanTable;
use std::alloc::Global;
use std::sync::Arc;

/// The tables of some pairs over neighbouring spans of leaves, which together go from the leaf number `from` up to `to`. `held` has the
/// pairs, in rising lists, each before the next one, and all cells lie within that span. A table ends and the next one begins between two
/// lists, if no cell before that place reaches over the begin of a cell behind it; a table over one list shares that list. No clause says
/// how many tables there are or where they begin: only the bench shows it. O(n) for n pairs. `OutOfMemory` if a growth is refused, or a list
/// is shared too often.
pub fn parts_over(
    alloc: Global,
    held: ListsView<'_>,
    from: u64,
    to: u64,
) -> Result<Vec<Arc<SpanTable>>, OutOfMemory>
    requires rises { IsCollection (all_of (lists_in held)) }
    requires within_limit { length (all_of (lists_in held)) ≤ 1000000 }
    requires span { IsInSpan (all_of (lists_in held)) from to }
    ensures neighbours { IfOk result (λ parts. AreNeighbours from (tables_of parts.items) to) }
    ensures pairs { IfOk result (λ parts. held_in (tables_of parts.items) ≡ all_of (lists_in held.entry)) }
{
    let all_seams = seams_before(alloc, held, to)?;
    let mut parts = Vec::with_capacity(alloc, held.len() + 1)?;
    let mut rest = held;
    let mut seams = all_seams.as_slice();
    let mut start = from;
    while start < to {
        let count = next_cut(rest, seams, start, to);
        let (own, later) = rest.split_at(count);
        let end = seams[count];
        let (_, ahead) = seams.split_at(count);
        parts.push(part_over(alloc, own, start, end)?)?;
        rest = later;
        seams = ahead;
        start = end;
    }
    Ok(parts)
}

// For each list the least leaf number at which a cell of it or of a later list begins, and `to` at the end. O(n).
pub(crate) fn seams_before(
    alloc: Global,
    held: ListsView<'_>,
    to: u64,
) -> Result<Vec<u64>, OutOfMemory>
    requires { to % 2 ≡ 1 }
    ensures { IfOk result (λ seams. AreSeams (lists_in held.entry) seams.items to) }
{
    let mut seams = Vec::from_elem(alloc, to, held.len() + 1)?;
    let mut least = to;
    let mut left = held.len();
    while left > 0 {
        left -= 1;
        least = least_begin(held.at(left).as_slice(), least);
        seams[left] = least;
    }
    Ok(seams)
}

// The least leaf number at which a cell begins, or `most` if none begins before.
pub(crate) fn least_begin(held: &[FlatHeld], most: u64) -> u64
    requires { most % 2 ≡ 1 }
    ensures odd { result % 2 ≡ 1 }
    ensures by { result ≤ most }
    ensures begins { BeginsFrom held.now result }
{
    let mut least = most;
    for h in held {
        least = least.min(h.cell().span_start());
    }
    least
}

// The greatest leaf number at which a cell ends, or `least` if none ends after.
pub(crate) fn greatest_end(held: &[FlatHeld], least: u64) -> u64
    ensures from { least ≤ result }
    ensures ends { EndsBy held.now result }
{
    let mut greatest = least;
    for h in held {
        greatest = greatest.max(h.cell().span_end());
    }
    greatest
}

// How many lists there are before the first seam that no cell goes over, of lists over the leaves from `from` up to `to`; all lists, if
// there is none before `to`.
pub(crate) fn next_cut(held: ListsView<'_>, seams: &[u64], from: u64, to: u64) -> usize
    requires seams { AreSeams (lists_in held) seams.now to }
    requires span { IsInSpan (all_of (lists_in held)) from to }
    ensures within { result ≤ length (lists_in held.entry) }
    ensures span { IsInSpan (all_of (take result (lists_in held.entry))) from (slice_index_or seams.now result to) }
{
    let mut end = from;
    let mut count = 0;
    while count < held.len() {
        end = greatest_end(held.at(count).as_slice(), end);
        count += 1;
        let seam = seams[count];
        if from < end && end <= seam && seam < to {
            return count;
        }
    }
    count
}

// The table of the pairs of some lists over one span.
fn part_over(
    alloc: Global,
    held: ListsView<'_>,
    from: u64,
    to: u64,
) -> Result<Arc<SpanTable>, OutOfMemory>
    requires rises { IsCollection (all_of (lists_in held)) }
    requires within_limit { length (all_of (lists_in held)) ≤ 1000000 }
    requires span { IsInSpan (all_of (lists_in held)) from to }
    ensures pairs { IfOk result (λ part. part.value.held ≡ all_of (lists_in held.entry)) }
    ensures begins { IfOk result (λ part. part.value.from ≡ from) }
    ensures ends { IfOk result (λ part. part.value.to ≡ to) }
    ensures table { IfOk result (λ part. IsSpanTable part.value) }
{
    let list = in_one_list(alloc, held)?;
    let table = SpanTable::over(alloc, list, from, to)?;
    let shared = Arc::new(alloc, table)?;
    Ok(shared)
}

// The pairs of some lists in one: that list itself, shared, if there is one, else a copy.
pub(crate) fn in_one_list(alloc: Global, held: ListsView<'_>) -> Result<HeldList, OutOfMemory>
    ensures { IfOk result (λ list. list ≡ all_of (lists_in held.entry)) }
{
    if held.len() == 1 {
        let list = held.at(0).clone()?;
        return Ok(list);
    }
    let mut all = Vec::with_capacity(alloc, count_in_lists(held))?;
    let mut rest = held;
    while let Some((list, later)) = rest.split_first() {
        all.extend_from_slice(list.as_slice())?;
        rest = later;
    }
    HeldList::new(alloc, all)
}

// How many pairs some lists have. O(l log b) for l lists in b bundles.
fn count_in_lists(lists: ListsView<'_>) -> usize
    ensures { result ≤ length (all_of (lists_in lists.entry)) }
{
    let mut count = 0_usize;
    for place in 0..lists.len() {
        count = count.saturating_add(lists.at(place).as_slice().len());
    }
    count
}
