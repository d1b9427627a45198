//! The normal form of any list of cells.

ghost use Rattle.std.specs.Prelude.{◌↔◌, ℕ, IfOk, IsTrue};
ghost use Rattle.std.specs.List.Sorted.{IsNonDecreasingBy, IsPermutation};
ghost use Rattle.s2id_core.specs.CellId.{first_of};
ghost use Rattle.s2id_union.specs.Covers.{Covers};
ghost use Rattle.s2id_union.specs.Region.{IsNormal};

use crate::span::add_span;
use s2id_core::{CellId, OutOfMemory};
use std::alloc::Global;

// Whether cells are in the order of their first leaves. O(n).
fn is_in_order(cells: &[CellId]) -> bool
    ensures { IsTrue result ↔ IsNonDecreasingBy (λ c. first_of c) cells.now }
{
    let mut before = 0;
    for cell in cells {
        let first = cell.span_start();
        if first < before {
            return false;
        }
        before = first;
    }
    true
}

// Orders cells by their first leaves. O(n log n).
fn sort_by_first(cells: &mut [CellId])
    ensures permutation { IsPermutation cells.old cells.new }
    ensures sorted { IsNonDecreasingBy (λ c. first_of c) cells.new }
{
    cells.sort_unstable_by_key(|cell| cell.span_start());
}

// The normal list with the region of cells in the order of their first leaves. O(n) steps, and the cells made.
fn join_spans(alloc: Global, sorted: &[CellId]) -> Result<Vec<CellId>, OutOfMemory>
    requires { IsNonDecreasingBy (λ c. first_of c) sorted.now }
    ensures normal { IfOk result (λ cells. IsNormal cells.items) }
    ensures covers { IfOk result (λ cells. (q : ℕ) → Covers cells.items q ↔ Covers sorted.now q) }
{
    let mut cells = Vec::with_capacity(alloc, sorted.len())?;
    let mut start = 1;
    let mut at = 1;
    for cell in sorted {
        let first = cell.span_start();
        let end = cell.span_end();
        if at < first {
            add_span(&mut cells, start, at)?;
            start = first;
            at = end;
        } else if at < end {
            at = end;
        }
    }
    add_span(&mut cells, start, at)?;
    Ok(cells)
}

// The same of cells in any order; it sorts them first. O(n log n), and the cells made.
fn sort_and_join(alloc: Global, cells: &mut [CellId]) -> Result<Vec<CellId>, OutOfMemory>
    ensures normal { IfOk result (λ list. IsNormal list.items) }
    ensures covers { IfOk result (λ list. (q : ℕ) → Covers list.items q ↔ Covers cells.old q) }
{
    sort_by_first(cells);
    join_spans(alloc, cells)
}

// The normal list with the region of some cells. O(n log n), and the cells made; O(n) if they are in order already.
pub(crate) fn normal_list(alloc: Global, cells: &[CellId]) -> Result<Vec<CellId>, OutOfMemory>
    ensures normal { IfOk result (λ list. IsNormal list.items) }
    ensures covers { IfOk result (λ list. (q : ℕ) → Covers list.items q ↔ Covers cells.now q) }
{
    if is_in_order(cells) {
        return join_spans(alloc, cells);
    }
    let mut sorted = Vec::from_slice(alloc, cells)?;
    sort_and_join(alloc, sorted.as_mut_slice())
}
