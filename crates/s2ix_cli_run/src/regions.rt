//! The regions of two labels beside each other.
ghost use Rattle.std.specs.Prelude.{◌≡◌, IfOk};
ghost use Rattle.s2ix_edit_plan.specs.Region.{common_of, only_of};

use s2id_core::OutOfMemory;
use s2id_union::CellUnion;
use s2ix_bag_pairs::Label;
use s2ix_edit_store::Store;
use s2ix_table_kept::KeptTable;
use std::alloc::Global;

// What the regions of both labels share. A label that isn't held has the empty region.
pub(crate) fn common<T: KeptTable>(
    alloc: Global,
    store: &Store<T>,
    first: Label,
    second: Label,
) -> Result<CellUnion, OutOfMemory>
    ensures { IfOk result (λ union. union ≡ common_of first second store.now.bag.held) }
{
    let first = store.region(first)?;
    let second = store.region(second)?;
    first.intersection(alloc, &second)
}

// The first label's region less the second's.
pub(crate) fn only<T: KeptTable>(
    alloc: Global,
    store: &Store<T>,
    first: Label,
    second: Label,
) -> Result<CellUnion, OutOfMemory>
    ensures { IfOk result (λ union. union ≡ only_of first second store.now.bag.held) }
{
    let first = store.region(first)?;
    let second = store.region(second)?;
    first.difference(alloc, &second)
}
