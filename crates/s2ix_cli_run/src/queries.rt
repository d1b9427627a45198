//! The queries that print what the store's table and bag hold.
ghost use Rattle.std.specs.Prelude.{◌≡◌, ◌≢◌, ◌+◌, Err};
ghost use Rattle.s2ix_text_write.specs.Export.{export_line};
ghost use Rattle.s2ix_text_parts.specs.DeviceFaults.{CanCount, sink_faults};
ghost use Rattle.s2ix_table_walk.specs.LabelList.{label_list};
ghost use Rattle.s2ix_table_walk.specs.Meeting.{meeting_of};
ghost use Rattle.s2ix_table_walk.specs.RangeList.{range_table};
ghost use Rattle.s2ix_text_write.specs.Lists.{held_line, label_line, list_text};
ghost use Rattle.s2ix_cli_answers.specs.Ranges.{range_line};
ghost use Rattle.s2ix_cli_run.specs.Line.{RunsLine};
ghost use Rattle.s2ix_cli_run.specs.Step.{at_step, text_step};

use crate::outcome::LineOutcome;
use s2id_core::CellId;
use s2id_union::CellUnion;
use s2ix_cli_answers::{write_contents, write_meeting, write_no, write_ranges};
use s2ix_cli_script::not_leaf_name;
use s2ix_edit_store::Store;
use s2ix_table_kept::KeptTable;
use s2ix_table_queries::RangeTable;
use s2ix_text_parts::{RunFault, Sink, put_parts};
use s2ix_text_write::{export, write_list};
use std::alloc::Global;

// Prints what lies over a leaf.
pub(crate) fn run_at<T: KeptTable, K: Sink>(
    store: &Store<T>,
    sink: &mut K,
    cell: CellId,
) -> Result<LineOutcome, RunFault>
    requires { CanCount (K.fault_count sink.old) }
    ensures runs { RunsLine (at_step store.now cell) store.now store.now (K.taken sink.old) (K.taken sink.new) result }
    ensures memory { result ≢ Err RunFault.OutOfMemory }
    ensures unflushed { K.flush_mark sink.new ≡ K.flush_mark sink.old }
    ensures faults { K.fault_count sink.new ≡ K.fault_count sink.old + sink_faults result }
{
    if !cell.is_leaf() {
        write_no(not_leaf_name(), sink)?;
        return Ok(LineOutcome::Refused);
    }
    write_contents(store.table(), cell, sink)?;
    Ok(LineOutcome::Accepted)
}

// Prints the pairs that meet a target, each as it is found.
pub(crate) fn print_meeting<T: KeptTable, K: Sink>(
    store: &Store<T>,
    sink: &mut K,
    target: &CellUnion,
) -> Result<LineOutcome, RunFault>
    requires { CanCount (K.fault_count sink.old) }
    ensures runs { RunsLine (text_step store.now (list_text held_line (meeting_of target.now store.now.bag.held)))
        store.now store.now (K.taken sink.old) (K.taken sink.new) result }
    ensures memory { result ≢ Err RunFault.OutOfMemory }
    ensures unflushed { K.flush_mark sink.new ≡ K.flush_mark sink.old }
    ensures faults { K.fault_count sink.new ≡ K.fault_count sink.old + sink_faults result }
{
    write_meeting(store.table(), target, sink)?;
    Ok(LineOutcome::Accepted)
}

// Prints the labels of the pairs that meet a target.
pub(crate) fn print_labels<T: KeptTable, K: Sink>(
    alloc: Global,
    store: &Store<T>,
    sink: &mut K,
    target: &CellUnion,
) -> Result<LineOutcome, RunFault>
    requires { CanCount (K.fault_count sink.old) }
    ensures runs { RunsLine (text_step store.now (list_text label_line (label_list (meeting_of target.now store.now.bag.held))))
        store.now store.now (K.taken sink.old) (K.taken sink.new) result }
    ensures unflushed { K.flush_mark sink.new ≡ K.flush_mark sink.old }
    ensures faults { K.fault_count sink.new ≡ K.fault_count sink.old + sink_faults result }
{
    write_list(&store.table().labels(alloc, target)?, sink)?;
    Ok(LineOutcome::Accepted)
}

// Prints the ranges of the store's table.
pub(crate) fn print_ranges<T: KeptTable, K: Sink>(
    store: &Store<T>,
    sink: &mut K,
) -> Result<LineOutcome, RunFault>
    requires { CanCount (K.fault_count sink.old) }
    ensures runs { RunsLine (text_step store.now (list_text range_line (range_table store.now.bag.held)))
        store.now store.now (K.taken sink.old) (K.taken sink.new) result }
    ensures memory { result ≢ Err RunFault.OutOfMemory }
    ensures unflushed { K.flush_mark sink.new ≡ K.flush_mark sink.old }
    ensures faults { K.fault_count sink.new ≡ K.fault_count sink.old + sink_faults result }
{
    write_ranges(store.table(), sink)?;
    Ok(LineOutcome::Accepted)
}

// Prints the export of what the store holds.
pub(crate) fn print_export<T: KeptTable, K: Sink>(
    alloc: Global,
    store: &Store<T>,
    sink: &mut K,
) -> Result<LineOutcome, RunFault>
    requires { CanCount (K.fault_count sink.old) }
    ensures runs { RunsLine (text_step store.now (export_line store.now.bag.held))
        store.now store.now (K.taken sink.old) (K.taken sink.new) result }
    ensures unflushed { K.flush_mark sink.new ≡ K.flush_mark sink.old }
    ensures faults { K.fault_count sink.new ≡ K.fault_count sink.old + sink_faults result }
{
    let text = export(alloc, store.bag())?;
    put_parts(sink, &[text.as_bytes(), b"\n"])?;
    Ok(LineOutcome::Accepted)
}
