ghost use Rattle.std.specs.Prelude.{◌≡◌, ◌<◌, flat_map, length};
ghost use Rattle.s2id_core.specs.CellId.{level_of, raw_of};
ghost use Rattle.s2ix_table_walk.specs.Contents.{contents_at};
ghost use Rattle.s2ix_table_walk.specs.Table.{range_at};
ghost use Rattle.s2ix_text_parts.specs.DeviceFaults.{CanCount};
ghost use Rattle.s2ix_text_parts.specs.Puts.{Writes};
ghost use Rattle.s2ix_cli_answers.specs.Ranges.{bounds_text, range_line, spaced_pair};
ghost use Rattle.s2ix_text_write.specs.Lists.{held_line, list_text};

use s2id_core::{CellId, sixteen_digits};
use s2ix_table_queries::{RangeTable, chain_at, contents};
use s2ix_table_walk::RangeRow;
use s2ix_text_parts::{Sink, WriteFault, put_all, put_together};
use s2ix_text_write::{Block, write_end_of_list, write_pair_between};

/// Writes what lies over a leaf as a list of pairs, innermost cell first, the labels of one cell rising. O(log n + m) for
/// n ranges and m pairs over the leaf.
pub fn write_contents<T: RangeTable, K: Sink>(
    table: &T,
    leaf: CellId,
    sink: &mut K,
) -> Result<(), WriteFault>
    requires counts { CanCount (K.fault_count sink.old) }
    requires leaf { level_of leaf ≡ 30 }
    ensures { Writes K.Sink sink.old sink.new result (list_text held_line (contents_at (raw_of leaf) (T.pairs table.now))) }
{
    let mut block = Block::new();
    let mut count = 0;
    for held in chain_at(table, leaf) {
        block.write_line(held, sink)?;
        count += 1;
    }
    block.write_end(count, sink)
}

// Writes the bounds of a range.
#[tactic(auto, unfolding(crate::specs::Ranges::bounds_text))]
fn write_bounds<K: Sink>(range: RangeRow, sink: &mut K) -> Result<(), WriteFault>
    requires { CanCount (K.fault_count sink.old) }
    ensures { Writes K.Sink sink.old sink.new result (bounds_text range.start range.limit) }
{
    let start = sixteen_digits(range.start);
    let limit = sixteen_digits(range.limit);
    put_together(sink, &[start.as_slice(), b" ", limit.as_slice()])
}

// Writes the pairs of a range, innermost cell first, each after a space.
fn write_range_pairs<T: RangeTable, K: Sink>(
    table: &T,
    k: usize,
    sink: &mut K,
) -> Result<(), WriteFault>
    requires counts { CanCount (K.fault_count sink.old) }
    requires within { k < length (T.ranges table.now) }
    ensures { Writes K.Sink sink.old sink.new result (flat_map spaced_pair (range_at (T.ranges table.now) k).contents) }
{
    for held in contents(table, k) {
        write_pair_between(b" ", held, b"", sink)?;
    }
    Ok(())
}

// Writes the line of a range.
fn write_range<T: RangeTable, K: Sink>(table: &T, k: usize, sink: &mut K) -> Result<(), WriteFault>
    requires counts { CanCount (K.fault_count sink.old) }
    requires within { k < length (T.ranges table.now) }
    ensures { Writes K.Sink sink.old sink.new result (range_line (range_at (T.ranges table.now) k)) }
{
    write_bounds(table.range(k), sink)?;
    write_range_pairs(table, k, sink)?;
    put_all(sink, b"\n")
}

/// Writes the ranges of a table as a list, in order: on one line for each its bounds in sixteen hexadecimal digits, and
/// its pairs, innermost cell first, the labels of one cell rising. O(n + m) for n ranges with m pairs in all.
pub fn write_ranges<T: RangeTable, K: Sink>(table: &T, sink: &mut K) -> Result<(), WriteFault>
    requires { CanCount (K.fault_count sink.old) }
    ensures { Writes K.Sink sink.old sink.new result (list_text range_line (T.ranges table.now)) }
{
    for k in 0..table.range_count() {
        write_range(table, k, sink)?;
    }
    write_end_of_list(table.range_count(), sink)
}
