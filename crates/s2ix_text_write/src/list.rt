ghost use Rattle.std.specs.Prelude.{◌≡◌, ℕ, ◌+◌, ◌≤◌, ◌++◌, List, flat_map, length, take};
ghost use Rattle.s2ix_text_parts.specs.DeviceFaults.{CanCount};
ghost use Rattle.s2ix_text_parts.specs.Puts.{Writes};
ghost use Rattle.s2ix_text_write.specs.Gathered.{Gathers, gathered_in};
ghost use Rattle.s2ix_text_write.specs.Lists.{end_of_list, held_line, label_line, list_text, token_line};

use crate::block::Block;
use crate::places::{LONGEST_LINE, byte_at, end_at, number_at, pair_at, token_at};
use s2id_core::CellId;
use s2ix_bag_pairs::{Held, Label};
use s2ix_text_parts::{Sink, WriteFault, put_all};

/// An item of a list, on a line of its own.
pub trait ListItem: Copy {
    // the line, with its line feed
    ghost line: { Self → List ℕ };

    /// Writes the line at a place of an array, which has room there for 80 bytes, and returns where it ends.
    fn line_at(self, room: &mut [u8], place: usize) -> usize
        requires { place + 80 ≤ length room.old }
        ensures line { take result room.new ≡ take place room.old ++ line self }
        ensures end { result ≤ place + 80 };

    /// Writes the line.
    fn write_line<K: Sink>(self, sink: &mut K) -> Result<(), WriteFault>
        requires { CanCount (K.fault_count sink.old) }
        ensures { Writes K.Sink sink.old sink.new result (line self) }
    {
        let mut line = [0; LONGEST_LINE];
        let len = self.line_at(&mut line, 0);
        put_all(sink, &line[..len])
    }
}

impl ListItem for Held {
    ghost line = { held_line };

    fn line_at(self, room: &mut [u8], place: usize) -> usize {
        pair_at(room, place, b':', self)
    }
}

impl ListItem for Label {
    ghost line = { label_line };

    #[tactic(auto, unfolding(crate::specs::Lists::label_line))]
    fn line_at(self, room: &mut [u8], place: usize) -> usize {
        let place = number_at(room, place, self.get() as u64);
        byte_at(room, place, b'\n')
    }
}

impl ListItem for CellId {
    ghost line = { token_line };

    #[tactic(auto, unfolding(crate::specs::Lists::token_line))]
    fn line_at(self, room: &mut [u8], place: usize) -> usize {
        let place = token_at(room, place, self);
        byte_at(room, place, b'\n')
    }
}

// Gathers the lines of all items, in order.
fn gather_lines<A: ListItem, K: Sink>(
    items: &[A],
    block: &mut Block,
    sink: &mut K,
) -> Result<(), WriteFault>
    requires { CanCount (K.fault_count sink.old) }
    ensures { Gathers K.Sink sink.old sink.new result (gathered_in block.old) (gathered_in block.new) (flat_map A.line items.now) }
{
    for item in items {
        block.write_line(*item, sink)?;
    }
    Ok(())
}

// Writes the lines of all items, in order.
pub(crate) fn write_lines<A: ListItem, K: Sink>(items: &[A], sink: &mut K) -> Result<(), WriteFault>
    requires { CanCount (K.fault_count sink.old) }
    ensures { Writes K.Sink sink.old sink.new result (flat_map A.line items.now) }
{
    let mut block = Block::new();
    gather_lines(items, &mut block, sink)?;
    block.put(sink)
}

/// Writes the last line of a list of `count` items: `end` with their number. `WriteFault` if the sink fails; then a front of the line went
/// out.
pub fn write_end_of_list<K: Sink>(count: usize, sink: &mut K) -> Result<(), WriteFault>
    requires { CanCount (K.fault_count sink.old) }
    ensures { Writes K.Sink sink.old sink.new result (end_of_list count) }
{
    let mut line = [0; LONGEST_LINE];
    let len = end_at(&mut line, 0, count);
    put_all(sink, &line[..len])
}

/// Writes a list: each item on a line of its own, in order, and then `end` with the number of items. O(n) for n items.
pub fn write_list<A: ListItem, K: Sink>(items: &[A], sink: &mut K) -> Result<(), WriteFault>
    requires { CanCount (K.fault_count sink.old) }
    ensures { Writes K.Sink sink.old sink.new result (list_text A.line items.now) }
{
    let mut block = Block::new();
    gather_lines(items, &mut block, sink)?;
    block.write_end(items.len(), sink)
}
