ghost use Rattle.std.specs.Prelude.{◌≡◌, ◌≢◌, ◌↔◌, ◌⊎◌, ◌+◌, ◌≤◌, false, not, map, IfOk, All, Any, Contains as HasElement};
ghost use Rattle.s2id_core.specs.declared.cell_id.CellId.{CellId};
ghost use Rattle.s2id_core.specs.CellId.{level_of};
ghost use Rattle.s2ix_edit_plan.specs.Grow.{IsNextTo, grown_cells as cells_grown, is_too_fine as is_level_too_fine, overlaps_one};
ghost use Rattle.s2ix_edit_plan.specs.Plan.{AlwaysPlans, AlwaysRefuses, first_copy};
ghost use Rattle.s2ix_edit_plan.specs.Region.{cells_of};

use crate::edit::Edit;
use crate::edits::entries::lacks_label;
use crate::errors::EditError;
use crate::region::label_cells;
use s2id_core::{CellId, OutOfMemory};
use s2id_cube::{BorderError, border, edge_neighbors};
use s2id_union::CellUnion;
use s2ix_bag_changes::{Bag, Change};
use s2ix_bag_pairs::{Entry, Label, Pair};
use std::alloc::Global;

// The change that gives one copy under the label to each cell that the label grows by at a level. It wants memory for the label's cells,
// their normal union, the cells beside them, each border, and the entries.
// O(n + b log b) for n pairs held and b cells beside those of the label: four for each cell of the level or finer,
// and up to 1024 for a coarser one.
pub(crate) fn plan(alloc: Global, bag: &Bag, label: Label, level: u8) -> Result<Change, EditError>
    ensures plan { AlwaysPlans bag.now (Edit.Grow label level) result }
    ensures refused { AlwaysRefuses bag.now (Edit.Grow label level) result }
    ensures pairs { result ≢ Err EditError.TooManyPairs }
    ensures copies { result ≢ Err EditError.TooManyCopies }
    ensures planned { result ≢ Err EditError.NoChange }
{
    if lacks_label(bag, label) {
        return Err(EditError::NoSuchLabel);
    }
    if is_too_fine(bag, label, level) {
        return Err(EditError::TooFine);
    }
    let cells = grown_cells(alloc, bag, label, level)?;
    Ok(Change::from_vec(first_copies(alloc, cells.as_slice(), label)?))
}

// Whether the level is above 30, or more than 8 above the level of a cell of the label. O(n).
fn is_too_fine(bag: &Bag, label: Label, level: u8) -> bool
    ensures { result ≡ is_level_too_fine level (cells_of label bag.now.held) }
{
    level > 30
        || bag
            .of_label(label)
            .any(|held| held.pair.cell.level() + 8 < level)
}

// The cells that the label grows by, in rising order.
fn grown_cells(
    alloc: Global,
    bag: &Bag,
    label: Label,
    level: u8,
) -> Result<Vec<CellId>, OutOfMemory>
    requires { is_level_too_fine level (cells_of label bag.now.held) ≡ false }
    ensures { IfOk result (λ cells. cells.items ≡ cells_grown label level bag.now.held) }
{
    let cells = label_cells(alloc, bag, label)?;
    let region = CellUnion::normalise(alloc, cells.as_slice())?;
    let mut grown = cells_beside(alloc, cells.as_slice(), level)?;
    grown.sort_unstable();
    grown.dedup();
    grown.retain(|cell| is_outside(&region, *cell));
    Ok(grown)
}

// Whether a cell overlaps none of a union's. O(log m) for m cells of the union.
fn is_outside(region: &CellUnion, cell: CellId) -> bool
    ensures { result ≡ not (overlaps_one region.now cell) }
{
    !region.intersects(cell)
}

// The cells of the level beside each of the cells, one cell's after another's.
fn cells_beside(alloc: Global, cells: &[CellId], level: u8) -> Result<Vec<CellId>, OutOfMemory>
    requires level { level ≤ 30 }
    requires near { All (λ cell. level ≤ level_of cell + 8) cells.now }
    ensures { IfOk result (λ beside. (x : CellId)
        → HasElement beside.items x
        ↔ Any (λ cell. IsNextTo level cell x) cells.now) }
{
    let mut beside = Vec::new(alloc);
    for cell in cells {
        add_beside(alloc, &mut beside, *cell, level)?;
    }
    Ok(beside)
}

// Appends the cells of the level that share an edge with a cell of the level inside this cell or, if this cell is not coarser than the
// level, with its ancestor at the level.
fn add_beside(
    alloc: Global,
    beside: &mut Vec<CellId>,
    cell: CellId,
    level: u8,
) -> Result<(), OutOfMemory>
    requires level { level ≤ 30 }
    requires near { level ≤ level_of cell + 8 }
    ensures { IfOk result (λ _. (x : CellId)
        → HasElement beside.new.items x
        ↔ (HasElement beside.old.items x ⊎ IsNextTo level cell x)) }
{
    if let Some(outer) = cell.parent(level) {
        beside.extend_from_slice(&edge_neighbors(outer))?;
    } else {
        match border(alloc, cell, level) {
            Ok(cells) => beside.extend_from_slice(cells.as_slice())?,
            Err(BorderError::Coarser) => unreachable!(),
            Err(BorderError::TooFine) => unreachable!(),
            Err(BorderError::OutOfMemory) => return Err(OutOfMemory),
        }
    }
    Ok(())
}

// The entries that give each of the cells its first copy under the label.
fn first_copies(alloc: Global, cells: &[CellId], label: Label) -> Result<Vec<Entry>, OutOfMemory>
    ensures { IfOk result (λ entries. entries.items ≡ map (first_copy label) cells.now) }
{
    let first_copy = |cell: &CellId| Entry {
        pair: Pair { cell: *cell, label },
        before: 0,
        after: 1,
    };
    Ok(cells.iter().map(first_copy).collect(alloc)?)
}
