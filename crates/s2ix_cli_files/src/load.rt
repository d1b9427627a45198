ghost use Rattle.std.specs.Prelude.{◌≡◌, ◌+◌, IfErr, IfOk, IfSome};
ghost use Rattle.s2ix_bag_pairs.specs.Collection.{LimitedCollection};
ghost use Rattle.s2ix_edit_plan.specs.State.{starting_at};
ghost use Rattle.s2ix_text_parts.specs.DeviceFaults.{CanCount, IsWantOnlyIf, sink_faults};
ghost use Rattle.s2ix_text_parts.specs.LineFaults.{IsFromLine};
ghost use Rattle.s2ix_text.specs.DumpFaults.{dump_fault};
ghost use Rattle.s2ix_cli_files.specs.Answers.{LoadAnswers, Prints, is_loaded};
ghost use Rattle.s2ix_cli_files.specs.Reads.{DumpReads};

use crate::printing::print_refusal;
use crate::reads::dump_read;
use s2ix_bag_pairs::Limits;
use s2ix_edit_store::Store;
use s2ix_table_kept::KeptTable;
use s2ix_text_parts::{RunFault, Sink};
use std::alloc::Global;

/// Reads a dump under limits, and gives the store that starts from its bag. If the dump is refused, it prints `no NAME LINE` for the first
/// faulty line, and returns `None`. O(n) for n bytes, and what [`Store::from_bag`] takes. Errors: `OutOfMemory` and `Write`, as
/// `s2ix_cli_files` says.
pub fn load_text<T: KeptTable, K: Sink>(
    alloc: Global,
    text: &[u8],
    limits: Limits,
    sink: &mut K,
) -> Result<Option<Store<T>>, RunFault>
    requires { CanCount (K.fault_count sink.old) }
    ensures answered { Prints K.Sink (LoadAnswers limits text.now) sink.old sink.new (is_loaded result) }
    ensures store { IfOk result (λ loaded. IfSome loaded (λ store.
        (bag : LimitedCollection) × DumpReads limits text.now (Ok bag) × (store ≡ starting_at bag))) }
    ensures memory { IfErr result (IsWantOnlyIf (IsFromLine 2 (dump_fault limits text.now))) }
    ensures faults { K.fault_count sink.new ≡ K.fault_count sink.old + sink_faults result }
{
    match dump_read(alloc, text, limits) {
        Ok(bag) => {
            let store = Store::from_bag(alloc, bag)?;
            Ok(Some(store))
        }
        Err(error) => {
            print_refusal(error, sink)?;
            Ok(None)
        }
    }
}
