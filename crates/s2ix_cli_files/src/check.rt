ghost use Rattle.std.specs.Prelude.{◌≡◌, ◌+◌, IfErr};
ghost use Rattle.s2ix_text_parts.specs.DeviceFaults.{CanCount, IsWantOnlyIf, sink_faults};
ghost use Rattle.s2ix_text_parts.specs.LineFaults.{IsFromLine};
ghost use Rattle.s2ix_text.specs.DumpFaults.{dump_fault};
ghost use Rattle.s2ix_cli_files.specs.Answers.{CheckAnswers, Prints};
ghost use Rattle.s2ix_cli_files.specs.Widest.{widest};

use crate::printing::{print_refusal, write_counts};
use crate::reads::dump_read;
use s2ix_bag_pairs::Limits;
use s2ix_text_parts::{RunFault, Sink};
use std::alloc::Global;

/// Reads a dump under the widest limits, and prints what it holds: `ok PAIRS COPIES`, or `no NAME LINE` for its first faulty line. It
/// returns whether the dump was accepted. O(n) for n bytes, and one growth. Errors: `OutOfMemory` and `Write`, as `s2ix_cli_files` says.
pub fn check_text<K: Sink>(alloc: Global, text: &[u8], sink: &mut K) -> Result<bool, RunFault>
    requires { CanCount (K.fault_count sink.old) }
    ensures answered { Prints K.Sink (CheckAnswers widest text.now) sink.old sink.new result }
    ensures memory { IfErr result (IsWantOnlyIf (IsFromLine 2 (dump_fault widest text.now))) }
    ensures faults { K.fault_count sink.new ≡ K.fault_count sink.old + sink_faults result }
{
    match dump_read(alloc, text, Limits::default()) {
        Ok(bag) => {
            write_counts(&bag, sink)?;
            sink.flush()?;
            Ok(true)
        }
        Err(error) => print_refusal(error, sink),
    }
}
