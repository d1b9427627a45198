//! The cells that the fields of a line name, as their normal union. Only this module allocates, and only if each of these fields names a
//! cell.
ghost use Rattle.std.specs.Prelude.{◌≡◌, ◌<◌, ◌∷◌, [], Err, IfErr, IfNone, IfOk, IfSome, MatchResult, Ok, length, true};
ghost use Rattle.s2ix_cli_script.specs.Named.{IsFault, Means, add_union_named, cells_named, cells_with, is_add_union, union_named, union_of};

use crate::fields::{cell_from_field, label_from_field};
use crate::line_fault::{LineError, LineFault};
use s2id_core::CellId;
use s2id_union::CellUnion;
use s2ix_cli_words::Fields;
use s2ix_edit_plan::Edit;
use std::alloc::Global;

/// The edit of `addunion`, whose label and cells the fields LABEL TOKEN.. name; there is at least one token.
///
/// Errors, the first that applies: `BadArguments` for less than two fields, `BadLabel`, `BadToken`; `OutOfMemory` if room for the cells is
/// refused. O(n) for n bytes, and what it takes to normalise the cells.
#[tactic(auto, using(crate::proofs::WantedFields::wanting))]
pub fn add_union_named(alloc: Global, mut fields: Fields<'_>) -> Result<Edit, LineError>
    ensures { Means is_add_union result (add_union_named fields.entry) }
{
    let (Some(label), Some(first)) = (fields.next(), fields.next()) else {
        return Err(LineError::Fault(LineFault::BadArguments));
    };
    let label = label_from_field(label)?;
    let union = union_of(alloc, first, fields)?;
    Ok(Edit::AddUnion { union, label })
}

/// The normal union of the cells that the fields TOKEN.. name; there is at least one.
///
/// Errors, the first that applies: `BadArguments` for no field, `BadToken`; `OutOfMemory` if room for the cells is refused. O(n) for n
/// bytes, and what it takes to normalise the cells.
pub fn union_named(alloc: Global, mut fields: Fields<'_>) -> Result<CellUnion, LineError>
    ensures { Means (λ _. true) result (union_named fields.entry) }
{
    let Some(token) = fields.next() else {
        return Err(LineError::Fault(LineFault::BadArguments));
    };
    union_of(alloc, token, fields)
}

// The normal union of the cells that the fields TOKEN.. name, the first of them and the rest.
#[tactic(auto, using(crate::proofs::WantedFields::wanting))]
fn union_of(alloc: Global, first: &[u8], rest: Fields<'_>) -> Result<CellUnion, LineError>
    ensures { Means (λ _. true) result (union_of (first.now ∷ rest.entry)) }
{
    let cells = read_cells(alloc, first, rest)?;
    Ok(CellUnion::normalise(alloc, &cells)?)
}

// For how many cells there is room at first: a list of so many or fewer is never moved.
const ROOM_AT_FIRST: usize = 16;

// The cells that the fields TOKEN.. name, the first of them and the rest. If room is refused for one, it still reads those after it: only a
// list without a fault wants memory.
#[tactic(auto, using(crate::proofs::WantedFields::wanting))]
fn read_cells(alloc: Global, first: &[u8], mut rest: Fields<'_>) -> Result<Vec<CellId>, LineError>
    ensures { MatchResult result
        (λ cells. cells_named (first.now ∷ rest.entry) ≡ Ok cells.items)
        (λ error. IsFault (λ _. true) error (cells_named (first.now ∷ rest.entry))) }
{
    let first = cell_from_field(first)?;
    let mut cells = Vec::new(alloc);
    let mut has_room = cells.reserve(ROOM_AT_FIRST).is_ok() && cells.push(first).is_ok();
    'tokens: while let Some(cell) = next_cell(&mut rest)? {
        has_room = has_room && cells.push(cell).is_ok();
    }
    if !has_room {
        return Err(LineError::OutOfMemory);
    }
    Ok(cells)
}

// The cell that the next field names, or `None` if no field is left.
#[inline]
fn next_cell(fields: &mut Fields<'_>) -> Result<Option<CellId>, LineFault>
    ensures next { IfOk result (λ next. IfSome next (λ cell. cells_named fields.old ≡ cells_with (Ok cell) (cells_named fields.new))) }
    ensures fewer { IfOk result (λ next. IfSome next (λ _. length fields.new < length fields.old)) }
    ensures end { IfOk result (λ next. IfNone next (fields.old ≡ [])) }
    ensures fault { IfErr result (λ fault. cells_named fields.old ≡ Err fault) }
{
    if let Some(cell) = fields.next_cell() {
        return Ok(Some(cell));
    }
    match fields.next() {
        Some(field) => Ok(Some(cell_from_field(field)?)),
        None => Ok(None),
    }
}
