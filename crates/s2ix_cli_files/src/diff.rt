ghost use Rattle.std.specs.Prelude.{◌≡◌, ◌+◌, IfErr};
ghost use Rattle.s2ix_text_parts.specs.DeviceFaults.{CanCount, IsWantOnlyIf, sink_faults};
ghost use Rattle.s2ix_text_parts.specs.LineFaults.{IsFromLine};
ghost use Rattle.s2ix_text.specs.DumpFaults.{dump_fault};
ghost use Rattle.s2ix_cli_files.specs.Answers.{DiffAnswers, Prints};
ghost use Rattle.s2ix_cli_files.specs.Widest.{widest};

use crate::printing::print_change;
use crate::reads::texts_compared;
use s2ix_bag_pairs::Limits;
use s2ix_text_parts::{RunFault, Sink};
use std::alloc::Global;

/// Reads two dumps under the widest limits, and prints the journal of the one change from the first's bag to the second's: if both hold the
/// same, the journal of no changes. Else it prints the first thing that is refused: `no NAME LINE` for a line of the first dump,
/// `no second NAME LINE` for one of the second. It returns whether all was accepted. O(n) for n bytes in both. Errors: `OutOfMemory` and
/// `Write`, as `s2ix_cli_files` says.
pub fn diff_texts<K: Sink>(
    alloc: Global,
    first: &[u8],
    second: &[u8],
    sink: &mut K,
) -> Result<bool, RunFault>
    requires { CanCount (K.fault_count sink.old) }
    ensures answered { Prints K.Sink (DiffAnswers widest first.now second.now) sink.old sink.new result }
    ensures memory { IfErr result (IsWantOnlyIf (IsFromLine 2 (dump_fault widest first.now))) }
    ensures faults { K.fault_count sink.new ≡ K.fault_count sink.old + sink_faults result }
{
    print_change(
        texts_compared(alloc, first, second, Limits::default()),
        sink,
    )
}
