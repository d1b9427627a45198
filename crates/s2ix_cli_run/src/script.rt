//! A run: the lines of a script, one after the other.
ghost use Rattle.std.specs.Prelude.{◌≡◌, ◌+◌, ℕ, List, IfErr};
ghost use Rattle.std.specs.Io.KnownBytes.{Consumes};
ghost use Rattle.s2ix_text_parts.specs.DeviceFaults.{CanCount, source_faults, sink_faults, IsPatient};
ghost use Rattle.s2ix_cli_run.specs.InTurn.{AnswersBeforeAsking};
ghost use Rattle.s2ix_cli_run.specs.Run.{Ran, Flushes, source_end};

use crate::coming::{PieceEnd, run_last, run_piece};
use crate::held_line::HeldLine;
use crate::run_end::{RunEnd, RunOptions};
use s2ix_edit_store::Store;
use s2ix_table_kept::KeptTable;
use s2ix_text_parts::{RunFault, Sink, Source};
use std::alloc::Global;

// How many bytes are asked for at once.
const PIECE: usize = 32768;

/// Carries out the lines of a script over a store, and writes their answers: all of them, or with `stop` up to and including the first
/// refused. Each line is carried out as soon as its line feed, or the end of the input, has come, and what was written is flushed before
/// another piece is asked for. A line that is refused prints `no` with the refusal's name and changes nothing. At most `turns` pieces are
/// read, and at most `LONGEST_LINE` bytes of a line are held. The run ends, whatever the source gives.
///
/// The first fault ends the run: `Read` and `Write` at the first fault of the source and the sink (a failed flush is `Write`),
/// `OutOfMemory` if a growth was refused, `ReaderTooLong` if `turns` pieces were read and none was the end. After `Read` and
/// `ReaderTooLong` all lines whose ends were read are carried out, and their whole output is flushed: no line is lost. If memory was
/// refused at a line, that line has changed nothing and printed nothing; it is an edit, an undo, a redo, a line with a list of cells, or
/// one that asks for regions or an export. If the sink failed in a line's answer, the store keeps what that line did, and a front of its
/// answer went out. After `Write` and `OutOfMemory` no flush follows. O(n) for n bytes of input, and what their lines take.
pub fn run<T: KeptTable, S: Source, K: Sink>(
    alloc: Global,
    source: &mut S,
    sink: &mut K,
    store: &mut Store<T>,
    options: RunOptions,
) -> Result<RunEnd, RunFault>
    requires source_counts { CanCount (S.fault_count source.old) }
    requires sink_counts { CanCount (K.fault_count sink.old) }
    ensures ran { (input : List ℕ) × Consumes (S.left source.old) (S.left source.new) input
        × Ran result (source_end S.left S.gives options.turns source.old source.new) input
        (record {
          stop = options.stop;
          store_before = store.old;
          store_after = store.new;
          taken_before = K.taken sink.old;
          taken_after = K.taken sink.new;
        }) }
    ensures answered { AnswersBeforeAsking S.Source K.Sink store.old result source.old sink.old source.new }
    ensures flushed { Flushes K.flushes result sink.old sink.new }
    ensures too_long { IfErr result (λ fault. IsPatient S.gives fault options.turns source.old source.new) }
    ensures source_faults { S.fault_count source.new ≡ S.fault_count source.old + source_faults result }
    ensures sink_faults { K.fault_count sink.new ≡ K.fault_count sink.old + sink_faults result }
{
    let mut piece = [0; PIECE];
    let mut held = HeldLine::new();
    let mut so_far = RunEnd::NONE;
    'pieces: for _turn in 0..options.turns {
        let count = source.piece(&mut piece)?;
        if count == 0 {
            let so_far = run_last(alloc, store, sink, &mut held, so_far)?;
            sink.flush()?;
            return Ok(so_far);
        }
        let text = &piece[..count];
        let end = run_piece(alloc, store, sink, &mut held, so_far, text, options.stop)?;
        sink.flush()?;
        match end {
            PieceEnd::GoesOn(more) => so_far = more,
            PieceEnd::Stops(more) => return Ok(more),
        }
    }
    Err(RunFault::ReaderTooLong)
}
