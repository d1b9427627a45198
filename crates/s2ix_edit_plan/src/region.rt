//! The region of a label: the leaves of the cells that a bag holds with it.

ghost use Rattle.std.specs.Prelude.{◌≡◌, IfOk};
ghost use Rattle.s2id_union.specs.Region.{HaveSameRegion, IsNormal};
ghost use Rattle.s2ix_edit_plan.specs.Region.{cell_of, cells_of, region_of as region_in};

use s2id_core::{CellId, OutOfMemory};
use s2id_union::CellUnion;
use s2ix_bag_changes::Bag;
use s2ix_bag_pairs::{Held, Label};
use std::alloc::Global;

/// The region of a label: the normal union of the cells that a bag holds with it, which is empty if it holds none. `OutOfMemory` if a
/// growth is refused. O(m log m) for m pairs with the label, besides what [`Bag::of_label`] takes to find them.
pub fn region_of(alloc: Global, bag: &Bag, label: Label) -> Result<CellUnion, OutOfMemory>
    ensures region { IfOk result (λ union. HaveSameRegion union (cells_of label bag.now.held)) }
    ensures form { IfOk result (λ union. union ≡ region_in label bag.now.held) }
    ensures normal { IfOk result IsNormal }
{
    let cells = label_cells(alloc, bag, label)?;
    CellUnion::normalise(alloc, cells.as_slice())
}

// The cells that are held with a label, in rising order. It takes as long as `Bag::of_label` does.
pub(crate) fn label_cells(
    alloc: Global,
    bag: &Bag,
    label: Label,
) -> Result<Vec<CellId>, OutOfMemory>
    ensures { IfOk result (λ cells. cells.items ≡ cells_of label bag.now.held) }
{
    Ok(bag.of_label(label).map(held_cell).collect(alloc)?)
}

// The cell of a held pair.
fn held_cell(held: Held) -> CellId
    ensures { result ≡ cell_of held }
{
    held.pair.cell
}
