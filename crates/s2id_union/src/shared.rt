//! What two unions share, cell by cell.

ghost use Rattle.std.specs.Prelude.{◌≡◌, ◌+◌, ◌<◌, ◌≤◌, ◌↔◌, ℕ, IfOk, OnOk, length};
ghost use Rattle.s2id_core.specs.CellId.{end_of};
ghost use Rattle.s2id_union.specs.Covers.{Covers};
ghost use Rattle.s2id_union.specs.Loops.{AreShared};
ghost use Rattle.s2id_union.specs.Region.{IsNormal};

use s2id_core::{CellId, OutOfMemory};
use std::alloc::Global;

// The normal list of the leaves that two normal lists share. Of two cells that share a leaf one lies within the other, and it is a cell
// of the list. O(n + m).
pub(crate) fn shared_cells(
    alloc: Global,
    first: &[CellId],
    second: &[CellId],
) -> Result<Vec<CellId>, OutOfMemory>
    requires first_normal { IsNormal first.now }
    requires second_normal { IsNormal second.now }
    ensures normal { IfOk result (λ cells. IsNormal cells.items) }
    ensures covers { IfOk result (λ cells. (q : ℕ) → Covers cells.items q ↔ (Covers first.now q × Covers second.now q)) }
{
    let mut cells = Vec::new(alloc);
    let mut i = 0;
    let mut j = 0;
    while i < first.len() && j < second.len() {
        let one = first[i];
        let other = second[j];
        add_shared(&mut cells, one, other)?;
        i = passed(i, one, other);
        j = passed(j, other, one);
    }
    Ok(cells)
}

// Adds what two cells share: the finer one, if they share a leaf.
#[inline(always)]
fn add_shared(cells: &mut Vec<CellId>, one: CellId, other: CellId) -> Result<(), OutOfMemory>
    ensures { OnOk result (AreShared one other cells.old.items cells.new.items) }
{
    if one.span_start() < other.span_end() && other.span_start() < one.span_end() {
        let finer = if one.level() < other.level() {
            other
        } else {
            one
        };
        cells.push(finer)?;
    }
    Ok(())
}

// The place after a cell's, if the cell ends by the end of another, else the cell's.
#[inline(always)]
fn passed(place: usize, cell: CellId, other: CellId) -> usize
    requires { place < 9223372036854775807 }
    ensures ends { end_of cell ≤ end_of other → result ≡ place + 1 }
    ensures stays { end_of other < end_of cell → result ≡ place }
{
    place + usize::from(cell.span_end() <= other.span_end())
}
