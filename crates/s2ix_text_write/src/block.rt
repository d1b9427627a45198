//! Lines that are gathered before they are put.
ghost use Rattle.std.specs.Prelude.{◌≡◌, ◌+◌, ◌≤◌, ◌++◌, [], OnErr, OnOk};
ghost use Rattle.s2ix_text_parts.specs.DeviceFaults.{CanCount};
ghost use Rattle.s2ix_text_parts.specs.Puts.{Writes};
ghost use Rattle.s2ix_text_write.specs.Lists.{end_of_list, line_between};

use crate::list::ListItem;
use crate::places::{LONGEST_LINE, end_at, pair_at};
use s2ix_bag_pairs::Held;
use s2ix_text_parts::{Sink, WriteFault, put_all};

// How many bytes are gathered at most.
const ROOM: usize = 512;

/// Lines that are gathered before they are put: a sink is called once for some dozens of them. It does not allocate. What it holds goes out
/// with [`Block::write_end`].
#[derive(Debug, Drop)]
pub struct Block {
    bytes: [u8; ROOM],
    len: usize,
    ghost within: { len ≤ 512 },
}

impl Block {
    ghost use Rattle.s2ix_text_write.specs.Gathered.{Gathers, IsGathered, gathered_in};

    /// A block without lines.
    pub fn new() -> Block
        ensures { gathered_in result ≡ [] }
    {
        Block {
            bytes: [0; ROOM],
            len: 0,
        }
    }

    /// Gathers the line of an item. If it may not fit, what is gathered is put first. O(1) beside that. `WriteFault` if the sink fails;
    /// then a front of what was gathered went out.
    pub fn write_line<A: ListItem, K: Sink>(
        &mut self,
        item: A,
        sink: &mut K,
    ) -> Result<(), WriteFault>
        requires { CanCount (K.fault_count sink.old) }
        ensures { Gathers K.Sink sink.old sink.new result (gathered_in self.old) (gathered_in self.new) (A.line item) }
    {
        self.make_room(sink)?;
        self.len = item.line_at(&mut self.bytes, self.len);
        Ok(())
    }

    // Gathers the line of a pair with a byte between its parts.
    pub(crate) fn write_parts<K: Sink>(
        &mut self,
        between: u8,
        held: Held,
        sink: &mut K,
    ) -> Result<(), WriteFault>
        requires { CanCount (K.fault_count sink.old) }
        ensures { Gathers K.Sink sink.old sink.new result (gathered_in self.old) (gathered_in self.new) (line_between between held) }
    {
        self.make_room(sink)?;
        self.len = pair_at(&mut self.bytes, self.len, between, held);
        Ok(())
    }

    /// Puts what is gathered and, after it, the last line of a list of `count` items: `end` with their number. Nothing is gathered then.
    /// `WriteFault` if the sink fails; then a front of all that went out.
    pub fn write_end<K: Sink>(&mut self, count: usize, sink: &mut K) -> Result<(), WriteFault>
        requires { CanCount (K.fault_count sink.old) }
        ensures text { Writes K.Sink sink.old sink.new result (gathered_in self.old ++ end_of_list count) }
        ensures emptied { OnOk result (gathered_in self.new ≡ []) }
    {
        self.make_room(sink)?;
        self.len = end_at(&mut self.bytes, self.len, count);
        self.put(sink)?;
        self.len = 0;
        Ok(())
    }

    // Puts what is gathered.
    pub(crate) fn put<K: Sink>(&self, sink: &mut K) -> Result<(), WriteFault>
        requires { CanCount (K.fault_count sink.old) }
        ensures { Writes K.Sink sink.old sink.new result (gathered_in self.now) }
    {
        put_all(sink, &self.bytes[..self.len])
    }

    // Makes room for one more line: if it may not fit, what is gathered is put.
    #[inline]
    fn make_room<K: Sink>(&mut self, sink: &mut K) -> Result<(), WriteFault>
        requires { CanCount (K.fault_count sink.old) }
        ensures room { OnOk result (self.new.len + 80 ≤ 512) }
        ensures gathered { OnOk result (IsGathered K.Sink sink.old sink.new (gathered_in self.old) (gathered_in self.new)) }
        ensures failed { OnErr result (Writes K.Sink sink.old sink.new result (gathered_in self.old)) }
    {
        if self.len <= ROOM - LONGEST_LINE {
            return Ok(());
        }
        self.put(sink)?;
        self.len = 0;
        Ok(())
    }
}
