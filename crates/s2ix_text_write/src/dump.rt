ghost use Rattle.std.specs.Prelude.{flat_map};
ghost use Rattle.s2ix_text_write.specs.Dump.{dump_text, end_line, pair_line};
ghost use Rattle.s2ix_text_parts.specs.DeviceFaults.{CanCount};
ghost use Rattle.s2ix_text_parts.specs.Puts.{Writes};

use crate::block::Block;
use itoa::Buffer;
use s2ix_bag_changes::Bag;
use s2ix_text_parts::{Sink, WriteFault, put_all, put_together};

// Writes the lines of all held pairs, in rising order, gathered in blocks.
fn write_pairs<K: Sink>(bag: &Bag, sink: &mut K) -> Result<(), WriteFault>
    requires { CanCount (K.fault_count sink.old) }
    ensures { Writes K.Sink sink.old sink.new result (flat_map pair_line bag.now.held) }
{
    let mut block = Block::new();
    for held in bag.iter() {
        block.write_parts(b' ', held, sink)?;
    }
    block.put(sink)
}

// Writes the last line.
#[tactic(auto, unfolding(crate::specs::Dump::end_line))]
fn write_end<K: Sink>(bag: &Bag, sink: &mut K) -> Result<(), WriteFault>
    requires { CanCount (K.fault_count sink.old) }
    ensures { Writes K.Sink sink.old sink.new result (end_line bag.now.held) }
{
    let mut pairs = Buffer::new();
    let mut copies = Buffer::new();
    put_together(
        sink,
        &[
            b"end ".as_slice(),
            pairs.format(bag.len()).as_bytes(),
            b" ",
            copies.format(bag.copies()).as_bytes(),
            b"\n",
        ],
    )
}

/// Writes the dump of a bag in the second version: one line for each held pair in rising order, between a header and the two sums.
/// O(n) for n pairs.
pub fn write_dump<K: Sink>(bag: &Bag, sink: &mut K) -> Result<(), WriteFault>
    requires { CanCount (K.fault_count sink.old) }
    ensures { Writes K.Sink sink.old sink.new result (dump_text bag.now.held) }
{
    put_all(sink, b"s2ix 2\n")?;
    write_pairs(bag, sink)?;
    write_end(bag, sink)
}
