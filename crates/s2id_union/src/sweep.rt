//! The set operations, as one sweep over the stretches on which both unions are constant.

ghost use Rattle.std.specs.Prelude.{◌≡◌, ◌+◌, ◌%◌, ◌<◌, ◌≤◌, ◌↔◌, ℕ, IsTrue, IfOk};
ghost use Rattle.s2id_core.specs.declared.cell_id.CellId.{CellId};
ghost use Rattle.s2id_core.specs.Span.{leaf_end};
ghost use Rattle.s2id_union.specs.Covers.{Covers, FollowOneAnother};
ghost use Rattle.s2id_union.specs.Loops.{IsAhead, IsReached, IsConstant};
ghost use Rattle.s2id_union.specs.Region.{IsNormal};
ghost use Rattle.s2id_union.specs.Operation.{Keeps};

use crate::span::add_span;
use s2id_core::{CellId, LEAF_END, OutOfMemory};
use std::alloc::Global;

// A set operation.
#[derive(Clone, Copy)]
pub(crate) enum Operation {
    Union,
    Difference,
}

// Whether a set operation keeps what is inside or outside its two sets.
fn keeps(operation: Operation, first: bool, second: bool) -> bool
    ensures { IsTrue result ↔ Keeps operation (IsTrue first) (IsTrue second) }
{
    match operation {
        Operation::Union => first || second,
        Operation::Difference => first && !second,
    }
}

// A stretch of the curve, up to its end, that lies in a union or outside it.
#[derive(Clone, Copy)]
struct Stretch {
    inside: bool,
    end: u64,
}

// The stretch from a place on, if the first k cells are passed.
fn stretch_at(cells: &[CellId], k: usize, at: u64) -> Stretch
    requires follow { FollowOneAnother cells.now }
    requires ahead { IsAhead cells.now k at }
    requires on_curve { at < leaf_end }
    ensures rises { at < result.end }
    ensures on_curve { result.end ≤ leaf_end }
    ensures odd { result.end % 2 ≡ 1 }
    ensures reached { IsReached cells.now k result.end }
    ensures constant { IsConstant cells.now at result.end result.inside }
{
    if k >= cells.len() {
        return Stretch {
            inside: false,
            end: LEAF_END,
        };
    }
    let first = cells[k].span_start();
    if at < first {
        Stretch {
            inside: false,
            end: first,
        }
    } else {
        Stretch {
            inside: true,
            end: cells[k].span_end(),
        }
    }
}

// How many cells are passed at the end of a stretch.
fn pass_cell(cells: &[CellId], k: usize, at: u64, end: u64) -> usize
    requires follow { FollowOneAnother cells.now }
    requires ahead { IsAhead cells.now k at }
    requires rises { at ≤ end }
    requires reached { IsReached cells.now k end }
    ensures { IsAhead cells.now result end }
{
    if k < cells.len() && cells[k].span_end() <= end {
        k + 1
    } else {
        k
    }
}

// The normal list of what a set operation keeps. O(n + m) steps, and the cells made.
pub(crate) fn sweep_both(
    alloc: Global,
    operation: Operation,
    first: &[CellId],
    second: &[CellId],
) -> Result<Vec<CellId>, OutOfMemory>
    requires first_normal { IsNormal first.now }
    requires second_normal { IsNormal second.now }
    ensures normal { IfOk result (λ cells. IsNormal cells.items) }
    ensures covers { IfOk result (λ cells. (q : ℕ) → Covers cells.items q
        ↔ Keeps operation (Covers first.now q) (Covers second.now q)) }
{
    let mut cells = Vec::new(alloc);
    let mut start = 1;
    let mut at = 1;
    let mut i = 0;
    let mut j = 0;
    while at < LEAF_END {
        let of_first = stretch_at(first, i, at);
        let of_second = stretch_at(second, j, at);
        let end = of_first.end.min(of_second.end);
        i = pass_cell(first, i, at, end);
        j = pass_cell(second, j, at, end);
        let kept = keeps(operation, of_first.inside, of_second.inside);
        if !kept {
            add_span(&mut cells, start, at)?;
            start = end;
        }
        at = end;
    }
    add_span(&mut cells, start, at)?;
    Ok(cells)
}
