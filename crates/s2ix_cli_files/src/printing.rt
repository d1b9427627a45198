//! Prints what texts came to.
ghost use Rattle.std.specs.Prelude.{◌≡◌, ◌+◌, Err, IfErr};
ghost use Rattle.s2ix_text_parts.specs.DeviceFaults.{CanCount, IsWantOnlyIf, sink_faults};
ghost use Rattle.s2ix_text_parts.specs.Puts.{Writes};
ghost use Rattle.s2ix_cli_files.specs.Answers.{IsChangeAnswer, IsDumpAnswer, IsRefusalAnswer, Prints, counts_line, journal_of};

use crate::refusal::{TextsError, write_refusal};
use itoa::Buffer;
use s2ix_bag_changes::{Bag, Change};
use s2ix_text_parts::{RunFault, Sink, WriteFault, put_parts};
use s2ix_text_write::{write_dump, write_journal};
use std::slice::from_ref;

// Writes how many pairs and copies a bag holds.
pub(crate) fn write_counts<K: Sink>(bag: &Bag, sink: &mut K) -> Result<(), WriteFault>
    requires { CanCount (K.fault_count sink.old) }
    ensures { Writes K.Sink sink.old sink.new result (counts_line bag.now) }
{
    let mut pairs = Buffer::new();
    let mut copies = Buffer::new();
    put_parts(
        sink,
        &[
            b"ok ".as_slice(),
            pairs.format(bag.len()).as_bytes(),
            b" ",
            copies.format(bag.copies()).as_bytes(),
            b"\n",
        ],
    )
}

// Prints why texts do not come to a bag, and flushes the sink.
pub(crate) fn print_refusal<K: Sink>(error: TextsError, sink: &mut K) -> Result<bool, RunFault>
    requires { CanCount (K.fault_count sink.old) }
    ensures answered { Prints K.Sink (IsRefusalAnswer error) sink.old sink.new result }
    ensures memory { IfErr result (IsWantOnlyIf (error ≡ TextsError.OutOfMemory)) }
    ensures faults { K.fault_count sink.new ≡ K.fault_count sink.old + sink_faults result }
{
    match error {
        TextsError::Refused(refusal) => {
            write_refusal(refusal, sink)?;
            sink.flush()?;
            Ok(false)
        }
        TextsError::OutOfMemory => Err(RunFault::OutOfMemory),
    }
}

// Prints the dump of the bag that changes came to, or the line of what is refused, and flushes the sink.
pub(crate) fn print_dump<K: Sink>(
    outcome: Result<Bag, TextsError>,
    sink: &mut K,
) -> Result<bool, RunFault>
    requires { CanCount (K.fault_count sink.old) }
    ensures answered { Prints K.Sink (IsDumpAnswer outcome) sink.old sink.new result }
    ensures memory { IfErr result (IsWantOnlyIf (outcome ≡ Err TextsError.OutOfMemory)) }
    ensures faults { K.fault_count sink.new ≡ K.fault_count sink.old + sink_faults result }
{
    match outcome {
        Ok(bag) => {
            write_dump(&bag, sink)?;
            sink.flush()?;
            Ok(true)
        }
        Err(error) => print_refusal(error, sink),
    }
}

// Writes the journal of a change, or that of no changes if it has no entries.
fn write_change<K: Sink>(change: &Change, sink: &mut K) -> Result<(), WriteFault>
    requires { CanCount (K.fault_count sink.old) }
    ensures { Writes K.Sink sink.old sink.new result (journal_of change.now) }
{
    if change.entries().is_empty() {
        write_journal(&[], sink)
    } else {
        write_journal(from_ref(change), sink)
    }
}

// Prints the journal of the change that two dumps came to, or the line of what is refused, and flushes the sink.
pub(crate) fn print_change<K: Sink>(
    outcome: Result<Change, TextsError>,
    sink: &mut K,
) -> Result<bool, RunFault>
    requires { CanCount (K.fault_count sink.old) }
    ensures answered { Prints K.Sink (IsChangeAnswer outcome) sink.old sink.new result }
    ensures memory { IfErr result (IsWantOnlyIf (outcome ≡ Err TextsError.OutOfMemory)) }
    ensures faults { K.fault_count sink.new ≡ K.fault_count sink.old + sink_faults result }
{
    match outcome {
        Ok(change) => {
            write_change(&change, sink)?;
            sink.flush()?;
            Ok(true)
        }
        Err(error) => print_refusal(error, sink),
    }
}
