ghost use Rattle.std.specs.Prelude.{flat_map};
ghost use Rattle.s2ix_text_parts.specs.DeviceFaults.{CanCount};
ghost use Rattle.s2ix_text_write.specs.Journal.{change_line, entry_line, group_text, journal_text};
ghost use Rattle.s2ix_text_parts.specs.Puts.{Writes};

use crate::list::{ListItem, write_end_of_list, write_lines};
use crate::places::{byte_at, number_at, token_at};
use itoa::Buffer;
use s2ix_bag_changes::Change;
use s2ix_bag_pairs::Entry;
use s2ix_text_parts::{Sink, WriteFault, put_all, put_together};

impl ListItem for Entry {
    ghost line = { entry_line };

    fn line_at(self, room: &mut [u8], place: usize) -> usize {
        let place = token_at(room, place, self.pair.cell);
        let place = byte_at(room, place, b' ');
        let place = number_at(room, place, self.pair.label.get() as u64);
        let place = byte_at(room, place, b' ');
        let place = number_at(room, place, self.before as u64);
        let place = byte_at(room, place, b' ');
        let place = number_at(room, place, self.after as u64);
        byte_at(room, place, b'\n')
    }
}

// Writes the line above the entries of a change.
#[tactic(auto, unfolding(crate::specs::Journal::change_line))]
fn write_change_line<K: Sink>(entries: &[Entry], sink: &mut K) -> Result<(), WriteFault>
    requires { CanCount (K.fault_count sink.old) }
    ensures { Writes K.Sink sink.old sink.new result (change_line entries.now) }
{
    let mut number = Buffer::new();
    put_together(
        sink,
        &[
            b"change ".as_slice(),
            number.format(entries.len()).as_bytes(),
            b"\n",
        ],
    )
}

// Writes the group of a change.
fn write_group<K: Sink>(change: &Change, sink: &mut K) -> Result<(), WriteFault>
    requires { CanCount (K.fault_count sink.old) }
    ensures { Writes K.Sink sink.old sink.new result (group_text change.now) }
{
    let entries = change.entries();
    write_change_line(entries, sink)?;
    write_lines(entries, sink)
}

// Writes the groups of all changes.
fn write_groups<K: Sink>(changes: &[Change], sink: &mut K) -> Result<(), WriteFault>
    requires { CanCount (K.fault_count sink.old) }
    ensures { Writes K.Sink sink.old sink.new result (flat_map group_text changes.now) }
{
    for change in changes {
        write_group(change, sink)?;
    }
    Ok(())
}

/// Writes the journal of a list of changes in the second version: for each change, the oldest first, a line that counts its entries and one
/// line for each entry, between a header and a line that counts the changes. An empty change is written as `change 0`, which no reader
/// accepts; a store records none. O(n) for n entries in all.
pub fn write_journal<K: Sink>(changes: &[Change], sink: &mut K) -> Result<(), WriteFault>
    requires { CanCount (K.fault_count sink.old) }
    ensures { Writes K.Sink sink.old sink.new result (journal_text changes.now) }
{
    put_all(sink, b"s2ix-journal 2\n")?;
    write_groups(changes, sink)?;
    write_end_of_list(changes.len(), sink)
}
