//! What leads from one store to another.

ghost use Rattle.std.specs.Prelude.{Ok};
ghost use Rattle.s2ix_c_calls.specs.Difference.{rows_between};
ghost use Rattle.s2ix_c_calls.specs.Lists.{Lists};

use crate::changes::{EntryRow, put_entries};
use crate::status::OUT_OF_MEMORY;
use s2ix_bag_changes::Change;
use s2ix_edit::Store;
use std::alloc::Global;

/// The entries of the change that leads from the pairs of one store to those of another, by rising cell, then label.
pub fn difference(
    alloc: Global,
    before: &Store,
    after: &Store,
    out: &mut [EntryRow],
    number: &mut usize,
) -> u32
    ensures { Lists (Ok (rows_between before.now after.now)) result number.new out.old out.new }
{
    *number = 0;
    match Change::between(alloc, before.bag(), after.bag()) {
        Ok(change) => put_entries(change.entries(), out, number),
        Err(_) => OUT_OF_MEMORY,
    }
}
