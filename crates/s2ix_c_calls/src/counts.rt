//! What a store holds, in numbers.

ghost use Rattle.std.specs.Prelude.{◌≡◌, length};
ghost use Rattle.s2ix_table_walk.specs.RangeList.{range_table};
ghost use Rattle.s2ix_c_calls.specs.Asked.{pair_numbered};
ghost use Rattle.s2ix_c_calls.specs.Lists.{Counts};

use crate::asked::pair_of;
use crate::ranges::table_of;
use crate::status::DONE;
use s2ix_edit::Store;
use s2ix_table_queries::RangeTable;

/// How many copies of a cell are held under a label: 0 if the pair is not held.
pub fn count(store: &Store, cell: u64, label: u32, count: &mut u32) -> u32
    ensures { Counts (pair_numbered cell label) store.now result count.new }
{
    match pair_of(cell, label) {
        Ok(pair) => {
            *count = store.bag().count(pair);
            DONE
        }
        Err(why) => {
            *count = 0;
            why
        }
    }
}

/// How many ranges the table of a store has.
pub fn range_count(store: &Store) -> usize
    ensures { result ≡ length (range_table store.now.bag.held) }
{
    table_of(store).range_count()
}
