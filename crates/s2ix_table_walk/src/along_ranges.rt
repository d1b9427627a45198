//! The walk over the ranges that a target meets: it gives each pair of the meeting list once, in order.
ghost use Rattle.std.specs.Prelude.{◌≡◌, ◌<◌, ◌≤◌, ◌+◌, ◌∷◌, ℕ, [], Some, None, IfSome, IsTrue, IsFalse, length, drop, slice_index_or};
ghost use Rattle.s2id_core.specs.declared.cell_id.CellId.{CellId};
ghost use Rattle.s2id_core.specs.CellId.{raw_of, first_of, end_of};
ghost use Rattle.s2id_union.specs.Covers.{FollowOneAnother};
ghost use Rattle.s2ix_table_walk.specs.Meeting.{meeting_from};
ghost use Rattle.s2ix_table_walk.specs.Places.{IsPlace, LeadsTo, from_place};
ghost use Rattle.s2ix_table_walk.specs.Walking.{front_from, left_of, left_with, ArePassed, IsWalk, IsPaid, looked_at, one_if_some};

use crate::reader::Reader;
use crate::search::{Reached, range_from};
use crate::walk_state::WalkState;
use s2id_core::CellId;
use s2ix_bag_pairs::Held;

// The place of the next pair outwards of the one that was given last, if there are both.
#[inline(always)]
fn next_place<R: Reader>(reader: &R, given: Option<R::Place>) -> Option<R::Place>
    requires { (p : R.Place) → given ≡ Some p → IsPlace (R.shown reader.now).chain p }
    ensures leads { LeadsTo (R.shown reader.now).chain result (drop 1 (from_place (R.shown reader.now).chain given)) }
    ensures fewer { one_if_some result ≤ one_if_some given }
{
    reader.outer(given?)
}

// The pair at a place, if its cell begins at a leaf or after it.
#[inline(always)]
fn new_pair<R: Reader>(reader: &mut R, from: u64, place: Option<R::Place>) -> Option<Held>
    requires { (p : R.Place) → place ≡ Some p → IsPlace (R.shown reader.old).chain p }
    ensures ends { result ≡ None → front_from from (from_place (R.shown reader.old).chain place) ≡ [] }
    ensures gives { IfSome result (λ held. front_from from (from_place (R.shown reader.old).chain place)
        ≡ held ∷ front_from from (drop 1 (from_place (R.shown reader.old).chain place))) }
    ensures some { IfSome result (λ held. one_if_some place ≡ 1) }
    ensures same { R.shown reader.new ≡ R.shown reader.old }
    ensures counts { R.spent reader.new ≡ looked_at place (R.spent reader.old) }
{
    let place = place?;
    let held = reader.node(place);
    if held.pair.cell.span_start() < from {
        return None;
    }
    Some(held)
}

// The next pair that is met, or `None` if all have been. It reads the place after the last pair only now and branches on it at once, so the
// processor goes on before that read has ended.
#[inline(always)]
pub(crate) fn next_met<R: Reader>(
    reader: &mut R,
    cells: &[CellId],
    walk: &mut WalkState<R::Place>,
) -> Option<Held>
    requires follow { FollowOneAnother cells.now }
    requires walk { IsWalk (R.shown reader.old) cells.now walk.old }
    ensures ends { result ≡ None
        → (left_of (R.shown reader.old) cells.now walk.old ≡ []) × (left_of (R.shown reader.old) cells.now walk.new ≡ []) }
    ensures gives { IfSome result (λ held. left_of (R.shown reader.old) cells.now walk.old
        ≡ held ∷ left_of (R.shown reader.old) cells.now walk.new) }
    ensures walk { IsWalk (R.shown reader.old) cells.now walk.new }
    ensures passed { result ≡ None → ArePassed cells.now (length cells.now) walk.new.seen }
    ensures same { R.shown reader.new ≡ R.shown reader.old }
    // (a collection has at most 1,000,000 pairs, so a visit makes at most as many calls)
    ensures paid { (calls : ℕ)
        → calls ≤ 1000000
        → IsPaid (R.shown reader.old) cells.now walk.old calls (R.spent reader.old)
        → IsPaid (R.shown reader.old) cells.now walk.new (calls + one_if_some result) (R.spent reader.new) }
{
    walk.place = next_place(reader, walk.place);
    if let Some(held) = new_pair(reader, walk.from, walk.place) {
        return Some(held);
    }
    walk.place = None;
    loop {
        *walk = advance(reader, cells, *walk)?;
        if let Some(met) = new_pair(reader, walk.from, walk.place) {
            return Some(met);
        }
        walk.place = None;
    }
}

// The walk at the next range that the target meets, with the chain of that range at hand, or `None` if the target
// has no leaf left. All cells that end in the range are passed at once.
#[inline(always)]
fn advance<R: Reader>(
    reader: &mut R,
    cells: &[CellId],
    walk: WalkState<R::Place>,
) -> Option<WalkState<R::Place>>
    requires follow { FollowOneAnother cells.now }
    requires walk { IsWalk (R.shown reader.old) cells.now walk }
    requires done { walk.place ≡ None }
    ensures ends { result ≡ None → meeting_from cells.now walk.seen (R.shown reader.old).pairs ≡ [] }
    ensures passed { result ≡ None → ArePassed cells.now (length cells.now) walk.seen }
    ensures left { IfSome result (λ next. meeting_from cells.now walk.seen (R.shown reader.old).pairs
        ≡ left_with (R.shown reader.old) cells.now next) }
    ensures next { IfSome result (λ next. IsWalk (R.shown reader.old) cells.now next) }
    ensures rises { IfSome result (λ next. walk.seen < next.seen) }
    ensures same { R.shown reader.new ≡ R.shown reader.old }
    ensures unread { result ≡ None → R.spent reader.new ≡ R.spent reader.old }
    ensures paid { IfSome result (λ next. (calls : ℕ)
        → IsPaid (R.shown reader.old) cells.now walk calls (R.spent reader.old)
        → IsPaid (R.shown reader.old) cells.now next calls (R.spent reader.new)) }
{
    let cell = first_beyond(cells, walk.cell, walk.seen);
    if cell >= cells.len() {
        return None;
    }
    let target = cells[cell];
    let Reached { range, known } = range_from(reader, target, walk.range, walk.seen, walk.known);
    let (row, place) = reader.row_and_first(range);
    let last = last_begun(cells, cell, row.limit);
    let last_cell = cells[last];
    let end = last_cell.span_end();
    let (next, seen) = if row.limit <= end {
        (range + 1, row.limit)
    } else {
        (range, end)
    };
    let from = walk.seen;
    Some(WalkState {
        cell: last,
        range: next,
        seen,
        from,
        place,
        known,
    })
}

// The first cell from the k-th on that goes beyond a leaf.
#[inline(always)]
fn first_beyond(cells: &[CellId], k: usize, seen: u64) -> usize
    requires { ArePassed cells.now k seen }
    ensures passed { ArePassed cells.now result seen }
    ensures beyond { (d : CellId) → result < length cells.now → seen < end_of (slice_index_or cells.now result d) }
{
    let mut cell = k;
    while cell < cells.len() {
        if seen < cells[cell].span_end() {
            return cell;
        }
        cell += 1;
    }
    cell
}

// The last cell, from the k-th on, that begins before a leaf. Steps double, then halve; they compare cell numbers, which are quicker to
// read than first leaves. The next cell is tested too: it may begin before the leaf, though its number comes after it. O(log m) if it is
// the m-th.
#[inline(always)]
fn last_begun(cells: &[CellId], k: usize, limit: u64) -> usize
    requires follow { FollowOneAnother cells.now }
    requires within { k < length cells.now }
    requires begins { (d : CellId) → first_of (slice_index_or cells.now k d) < limit }
    ensures from { k ≤ result }
    ensures within { result < length cells.now }
    ensures begins { (d : CellId) → first_of (slice_index_or cells.now result d) < limit }
    ensures last { (d : CellId) → result + 1 < length cells.now → limit ≤ first_of (slice_index_or cells.now (result + 1) d) }
{
    if limit <= cells[k].span_end() {
        return k;
    }
    let mut last = k;
    let mut step = 1usize;
    while is_before(cells, last, step, limit) {
        last += step;
        step = step.saturating_mul(2);
    }
    while step > 1 {
        step /= 2;
        if is_before(cells, last, step, limit) {
            last += step;
        }
    }
    if last < cells.len() - 1 && cells[last + 1].span_start() < limit {
        last += 1;
    }
    last
}

// Whether there is a cell some steps on, and its number is below a leaf's: then it begins before the leaf.
#[inline(always)]
fn is_before(cells: &[CellId], k: usize, step: usize, limit: u64) -> bool
    requires { k < length cells.now }
    ensures within { IsTrue result → k + step < length cells.now }
    ensures begins { (d : CellId) → IsTrue result → first_of (slice_index_or cells.now (k + step) d) < limit }
    ensures after { (d : CellId) → IsFalse result → k + step < length cells.now → limit ≤ raw_of (slice_index_or cells.now (k + step) d) }
{
    step < cells.len() - k && cells[k + step].raw() < limit
}
