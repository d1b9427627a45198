//! Spans of leaves as the fewest cells.

ghost use Rattle.std.specs.Prelude.{◌≡◌, ◌%◌, ◌<◌, ◌≤◌, IfOk};
ghost use Rattle.s2id_core.specs.CellId.{raw_of};
ghost use Rattle.s2id_core.specs.Span.{leaf_end};
ghost use Rattle.s2id_union.specs.Loops.{IsGreatest, AreMaximalBelow, IsAdded};

use s2id_core::{CellId, OutOfMemory};

// The greatest cell that begins at a leaf and ends by the limit: its size is bounded by the zeros at the end of the
// leaf's place and by the width of the span.
fn greatest_at(at: u64, limit: u64) -> CellId
    requires odd { at % 2 ≡ 1 }
    requires odd_limit { limit % 2 ≡ 1 }
    requires some { at < limit }
    requires on_curve { limit ≤ leaf_end }
    ensures { IsGreatest (raw_of result) at limit }
{
    let zeros = (at - 1).trailing_zeros();
    let wide = (limit - at).ilog2();
    let fit = zeros.min(wide).min(61);
    let height = (fit - 1) / 2;
    match CellId::from_raw(at - 1 + (1 << (2 * height))) {
        Some(cell) => cell,
        None => unreachable!(),
    }
}

// Adds the span of leaves from `start` up to and without `limit`, as the fewest cells. O(cells made).
pub(crate) fn add_span(cells: &mut Vec<CellId>, start: u64, limit: u64) -> Result<(), OutOfMemory>
    requires maximal { AreMaximalBelow cells.old.items start }
    requires odd { start % 2 ≡ 1 }
    requires odd_limit { limit % 2 ≡ 1 }
    requires rises { start ≤ limit }
    requires on_curve { limit ≤ leaf_end }
    ensures { IfOk result (λ _. IsAdded cells.old.items cells.new.items start limit) }
{
    let mut at = start;
    while at < limit {
        let cell = greatest_at(at, limit);
        cells.push(cell)?;
        at = cell.span_end();
    }
    Ok(())
}
