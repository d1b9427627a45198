ghost use Rattle.std.specs.Prelude.{◌≡◌, ◌+◌, IfErr};
ghost use Rattle.s2ix_text_parts.specs.DeviceFaults.{CanCount, IsWantOnlyIf, sink_faults};
ghost use Rattle.s2ix_text_parts.specs.LineFaults.{IsFromLine};
ghost use Rattle.s2ix_text.specs.DumpFaults.{dump_fault};
ghost use Rattle.s2ix_cli_files.specs.Answers.{ReplayAnswers, RewindAnswers, Prints};
ghost use Rattle.s2ix_cli_files.specs.Widest.{widest};

use crate::printing::print_dump;
use crate::reads::{texts_replayed, texts_rewound};
use s2ix_bag_pairs::Limits;
use s2ix_text_parts::{RunFault, Sink};
use std::alloc::Global;

/// Reads a dump and then a journal under the widest limits, applies the journal's changes to the dump's bag, and prints the dump of what
/// they lead to. Else it prints the first thing that is refused: `no NAME LINE` for a line of the dump, `no journal NAME LINE` for one of
/// the journal, `no Mismatch CHANGE ENTRY`, `no TooManyCopies CHANGE` or `no TooManyPairs CHANGE` for a change, all counted from 1. It
/// returns whether all was accepted. It takes the time of the readers and of [`replay`](s2ix_bag::replay). Errors: `OutOfMemory` and
/// `Write`, as `s2ix_cli_files` says.
pub fn replay_texts<K: Sink>(
    alloc: Global,
    dump: &[u8],
    journal: &[u8],
    sink: &mut K,
) -> Result<bool, RunFault>
    requires { CanCount (K.fault_count sink.old) }
    ensures answered { Prints K.Sink (ReplayAnswers widest dump.now journal.now) sink.old sink.new result }
    ensures memory { IfErr result (IsWantOnlyIf (IsFromLine 2 (dump_fault widest dump.now))) }
    ensures faults { K.fault_count sink.new ≡ K.fault_count sink.old + sink_faults result }
{
    print_dump(
        texts_replayed(alloc, dump, journal, Limits::default()),
        sink,
    )
}

/// Reads a dump and then a journal under the widest limits, takes the journal's changes back from the dump's bag, the last first, and
/// prints the dump of what was before them. Else it prints the first thing that is refused, as [`replay_texts`] does. It returns whether
/// all was accepted. It takes the time of the readers and of [`rewind`](s2ix_bag::rewind). Errors: `OutOfMemory` and `Write`, as
/// `s2ix_cli_files` says.
pub fn rewind_texts<K: Sink>(
    alloc: Global,
    dump: &[u8],
    journal: &[u8],
    sink: &mut K,
) -> Result<bool, RunFault>
    requires { CanCount (K.fault_count sink.old) }
    ensures answered { Prints K.Sink (RewindAnswers widest dump.now journal.now) sink.old sink.new result }
    ensures memory { IfErr result (IsWantOnlyIf (IsFromLine 2 (dump_fault widest dump.now))) }
    ensures faults { K.fault_count sink.new ≡ K.fault_count sink.old + sink_faults result }
{
    print_dump(texts_rewound(alloc, dump, journal, Limits::default()), sink)
}
