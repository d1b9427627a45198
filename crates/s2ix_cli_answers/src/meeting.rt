ghost use Rattle.s2ix_text_parts.specs.DeviceFaults.{CanCount};
ghost use Rattle.s2ix_text_parts.specs.Puts.{Writes};
ghost use Rattle.s2ix_table_walk.specs.Meeting.{meeting_of};
ghost use Rattle.s2ix_text_write.specs.Lists.{held_line, list_text};

use s2id_union::CellUnion;
use s2ix_table_queries::{Meter, RangeTable};
use s2ix_table_walk::Meeting;
use s2ix_text_parts::{Sink, WriteFault};
use s2ix_text_write::Block;

/// Writes the pairs that meet a target as a list, each as it is found: by the first leaf that it shares with the target, then falling
/// level, then rising label. O(k + r + t log n) for k pairs, if the t cells of the target meet r of the n ranges.
pub fn write_meeting<T: RangeTable, K: Sink>(
    table: &T,
    target: &CellUnion,
    sink: &mut K,
) -> Result<(), WriteFault>
    requires { CanCount (K.fault_count sink.old) }
    ensures { Writes K.Sink sink.old sink.new result (list_text held_line (meeting_of target.now (T.pairs table.now))) }
{
    let mut meter = Meter::new(table);
    let mut meeting = Meeting::new(&mut meter, target);
    let mut block = Block::new();
    let mut count = 0;
    while let Some(held) = meeting.advance() {
        block.write_line(held, sink)?;
        count += 1;
    }
    block.write_end(count, sink)
}
