//! Unions of cells by their numbers.

ghost use Rattle.std.specs.Prelude.{◌≡◌, ◌≢◌, ◌⊎◌, ◌≤◌, ◌<◌, None, length, map, take, IfErr, IfOk, IfSome, OnOk, Contains, List, [], ◌∷◌, ◌++◌};
ghost use Rattle.s2id_core.specs.CellId.{level_of, raw_of};
ghost use Rattle.s2id_union.specs.NormalForm.{normal_form};
ghost use Rattle.s2ix_c_calls.specs.Asked.{AreAllCells, AreCells, IsFirstNoCell, IsOneLeaf, LacksUnion};
ghost use Rattle.s2ix_c_calls.specs.Status.{done, no_cell};
ghost use Rattle.s2id_core.specs.declared.cell_id.CellId.{CellId};

use crate::status::{DONE, NO_CELL, OUT_OF_MEMORY};
use s2id_core::{CellId, OutOfMemory};
use s2id_union::CellUnion;
use s2ix_table_queries::leaf_of;
use std::alloc::Global;

// The place of the first number that is no cell's, counted from 0. It does not allocate.
#[tactic(auto, using(crate::proofs::OfNumbers::first_no_cell, crate::proofs::OfNumbers::no_numbers, crate::proofs::OfNumbers::one_more, crate::proofs::OfNumbers::all_taken))]
fn wrong_cell(ids: &[u64]) -> Option<usize>
    ensures first { IfSome result (IsFirstNoCell ids.now) }
    ensures none { result ≡ None → AreAllCells ids.now }
{
    for (place, id) in ids.iter().enumerate() {
        let Some(_cell) = CellId::from_raw(*id) else {
            return Some(place);
        };
    }
    None
}

/// Looks for the first number that is no cell's: `number` is its place, counted from 0, or 0 if each is a cell's. O(n) for n numbers; it
/// does not allocate.
pub fn check_cells(ids: &[u64], number: &mut usize) -> u32
    ensures right { result ≡ done → (number.new ≡ 0) × AreAllCells ids.now }
    ensures wrong { result ≢ done → (result ≡ no_cell) × IsFirstNoCell ids.now number.new }
{
    *number = 0;
    if let Some(found) = wrong_cell(ids) {
        *number = found;
        return NO_CELL;
    }
    DONE
}

/// Looks for the first number of two lists, one after the other, that is no cell's: its place counts on through the second list. O(n) for n
/// numbers; it does not allocate.
#[tactic(auto, using(crate::proofs::OfNumbers::first_of_first, crate::proofs::OfNumbers::first_of_second))]
pub fn check_both(first: &[u64], second: &[u64], number: &mut usize) -> u32
    ensures right { result ≡ done → (number.new ≡ 0) × AreAllCells first.now × AreAllCells second.now }
    ensures wrong { result ≢ done → (result ≡ no_cell) × IsFirstNoCell (first.now ++ second.now) number.new }
{
    *number = 0;
    if let Some(place) = wrong_cell(first) {
        *number = place;
        return NO_CELL;
    }
    if let Some(place) = wrong_cell(second) {
        *number = first.len() + place;
        return NO_CELL;
    }
    DONE
}

// The leaf of a list of numbers that is that of one leaf alone.
#[tactic(auto, using(crate::proofs::OneLeaf::one_number, crate::proofs::OneLeaf::longer, crate::proofs::OneLeaf::no_leaf))]
pub(crate) fn one_leaf(ids: &[u64]) -> Option<CellId>
    ensures leaf { IfSome result (λ leaf. (level_of leaf ≡ 30) × AreCells ids.now (leaf ∷ [])) }
    ensures none { result ≡ None → IsOneLeaf ids.now → ⊥ }
{
    if ids.len() != 1 {
        return None;
    }
    leaf_of(ids[0])
}

// The cells of numbers that are all cells'.
fn cells_of(alloc: Global, ids: &[u64]) -> Result<Vec<CellId>, OutOfMemory>
    requires { AreAllCells ids.now }
    ensures { IfOk result (λ cells. AreCells ids.now cells.items) }
{
    let mut cells = Vec::with_capacity(alloc, ids.len())?;
    for id in ids {
        match CellId::from_raw(*id) {
            Some(cell) => cells.push(cell)?,
            None => unreachable!(),
        }
    }
    Ok(cells)
}

// The union of cells by numbers that are all cells'.
fn normal_union(alloc: Global, ids: &[u64]) -> Result<CellUnion, OutOfMemory>
    requires { AreAllCells ids.now }
    ensures { IfOk result (λ union. (cells : List CellId) × AreCells ids.now cells × (union ≡ normal_form cells)) }
{
    let cells = cells_of(alloc, ids)?;
    CellUnion::normalise(alloc, cells.as_slice())
}

/// The union of cells by their numbers, or why there is none: the first number that is no cell's, with its place, counted from 0, in
/// `number`; or want of memory, if each is a cell's. O(n log n) for n numbers.
pub fn normal_of(alloc: Global, ids: &[u64], number: &mut usize) -> Result<CellUnion, u32>
    ensures union { IfOk result (λ union. (cells : List CellId) × AreCells ids.now cells × (union ≡ normal_form cells)) }
    ensures right { OnOk result (number.new ≡ 0) }
    ensures refused { IfErr result (λ why. LacksUnion ids.now why number.new) }
{
    let status = check_cells(ids, number);
    if status != DONE {
        return Err(status);
    }
    match normal_union(alloc, ids) {
        Ok(union) => Ok(union),
        Err(_) => Err(OUT_OF_MEMORY),
    }
}

/// Two unions of cells by their numbers, or why there are none: the place of the first number that is no cell's counts on through the
/// second list.
#[tactic(auto, using(crate::proofs::OfNumbers::all_of_both))]
pub fn normals_of(
    alloc: Global,
    first: &[u64],
    second: &[u64],
    number: &mut usize,
) -> Result<(CellUnion, CellUnion), u32>
    ensures first { IfOk result (λ both. (cells : List CellId) × AreCells first.now cells × (both.0 ≡ normal_form cells)) }
    ensures second { IfOk result (λ both. (cells : List CellId) × AreCells second.now cells × (both.1 ≡ normal_form cells)) }
    ensures right { OnOk result (number.new ≡ 0) }
    ensures refused { IfErr result (λ why. LacksUnion (first.now ++ second.now) why number.new) }
{
    let checked = check_both(first, second, number);
    if checked != DONE {
        return Err(checked);
    }
    match (normal_union(alloc, first), normal_union(alloc, second)) {
        (Ok(first), Ok(second)) => Ok((first, second)),
        _ => Err(OUT_OF_MEMORY),
    }
}
