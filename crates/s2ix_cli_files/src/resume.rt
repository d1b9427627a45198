ghost use Rattle.std.specs.Prelude.{◌≡◌, ◌+◌, IfErr, IfOk, IfSome};
ghost use Rattle.s2ix_text_parts.specs.DeviceFaults.{CanCount, IsWantOnlyIf, sink_faults};
ghost use Rattle.s2ix_text_parts.specs.LineFaults.{IsFromLine};
ghost use Rattle.s2ix_text.specs.DumpFaults.{dump_fault};
ghost use Rattle.s2ix_cli_files.specs.Answers.{Prints, ResumeAnswers, is_loaded};
ghost use Rattle.s2ix_cli_files.specs.Reads.{Resumes};

use crate::printing::print_refusal;
use crate::reads::texts_resumed;
use s2ix_bag_pairs::Limits;
use s2ix_edit_store::Store;
use s2ix_table_kept::KeptTable;
use s2ix_text_parts::{RunFault, Sink};
use std::alloc::Global;

/// Reads a dump and then the journal that led to it under limits, and gives the store that goes on from there: its bag is the dump's, and
/// the journal's changes can be undone. Else it prints the first thing that is refused, as [`rewind_texts`](crate::rewind_texts) does, and
/// returns `None`. It takes the time of the readers and of [`Store::with_history`]. Errors: `OutOfMemory` and `Write`, as
/// `s2ix_cli_files` says.
pub fn resume_texts<T: KeptTable, K: Sink>(
    alloc: Global,
    dump: &[u8],
    journal: &[u8],
    limits: Limits,
    sink: &mut K,
) -> Result<Option<Store<T>>, RunFault>
    requires { CanCount (K.fault_count sink.old) }
    ensures answered { Prints K.Sink (ResumeAnswers limits dump.now journal.now) sink.old sink.new (is_loaded result) }
    ensures store { IfOk result (λ resumed. IfSome resumed (Resumes limits dump.now journal.now)) }
    ensures memory { IfErr result (IsWantOnlyIf (IsFromLine 2 (dump_fault limits dump.now))) }
    ensures faults { K.fault_count sink.new ≡ K.fault_count sink.old + sink_faults result }
{
    match texts_resumed(alloc, dump, journal, limits) {
        Ok(store) => Ok(Some(store)),
        Err(error) => {
            print_refusal(error, sink)?;
            Ok(None)
        }
    }
}
