//! The lines of a script, each carried out as soon as its line feed has come.
ghost use Rattle.std.specs.Prelude.{◌≡◌, ◌+◌, ◌++◌, ◌∷◌, ℕ, Bool, List, [], Some, IfErr, OnOk, IfSome, IfNone};
ghost use Rattle.s2ix_text_parts.specs.DeviceFaults.{CanCount, sink_faults, IsWantOnlyIf};
ghost use Rattle.s2ix_cli_run.specs.Line.{RunsLine, is_refused};
ghost use Rattle.s2ix_cli_run.specs.Step.{step_of};
ghost use Rattle.s2ix_cli_run.specs.LineWants.{LineWants};
ghost use Rattle.s2ix_cli_run.specs.Coming.{kept_of};
ghost use Rattle.s2ix_cli_run.specs.Piece.{HasNoFeed, RunsPiece, RunsLast};

use crate::held_line::HeldLine;
use crate::line::run_line;
use crate::outcome::LineOutcome;
use crate::run_end::RunEnd;
use bstr::ByteSlice;
use s2ix_cli_answers::write_no;
use s2ix_cli_script::LineFault;
use s2ix_edit_store::Store;
use s2ix_table_kept::KeptTable;
use s2ix_text_parts::{RunFault, Sink};
use std::alloc::Global;

// How the lines of a piece ended.
#[derive(Drop)]
pub(crate) enum PieceEnd {
    // All that have ended are carried out.
    GoesOn(RunEnd),
    // One was refused that ends the run.
    Stops(RunEnd),
}

// Carries out the lines that end in a piece, and holds what is left after them. With `stop` the first refused line is the last one.
pub(crate) fn run_piece<T: KeptTable, K: Sink>(
    alloc: Global,
    store: &mut Store<T>,
    sink: &mut K,
    held: &mut HeldLine,
    so_far: RunEnd,
    piece: &[u8],
    stop: bool,
) -> Result<PieceEnd, RunFault>
    requires { CanCount (K.fault_count sink.old) }
    ensures runs { (front : List ℕ) → held.old ≡ kept_of front
        → RunsPiece result front piece.now
        (record {
          stop = stop;
          store_before = store.old;
          store_after = store.new;
          taken_before = K.taken sink.old;
          taken_after = K.taken sink.new;
        }) held.new so_far }
    ensures faults { K.fault_count sink.new ≡ K.fault_count sink.old + sink_faults result }
{
    let mut so_far = so_far;
    let mut rest = piece;
    'lines: while let Some((end, after)) = first_ended(rest) {
        let outcome = run_one(alloc, store, sink, held, end)?;
        so_far = so_far.with(outcome);
        if stop && is_refused(outcome) {
            return Ok(PieceEnd::Stops(so_far));
        }
        rest = after;
    }
    held.push(rest);
    Ok(PieceEnd::GoesOn(so_far))
}

// Carries out what is held at the end of the input, which is its last line if it has a byte.
pub(crate) fn run_last<T: KeptTable, K: Sink>(
    alloc: Global,
    store: &mut Store<T>,
    sink: &mut K,
    held: &mut HeldLine,
    so_far: RunEnd,
) -> Result<RunEnd, RunFault>
    requires { CanCount (K.fault_count sink.old) }
    ensures runs { (stop : Bool) (front : List ℕ) → held.old ≡ kept_of front
        → RunsLast result front
        (record {
          stop = stop;
          store_before = store.old;
          store_after = store.new;
          taken_before = K.taken sink.old;
          taken_after = K.taken sink.new;
        }) so_far }
    ensures faults { K.fault_count sink.new ≡ K.fault_count sink.old + sink_faults result }
{
    if held.is_empty() {
        return Ok(so_far);
    }
    let outcome = run_one(alloc, store, sink, held, b"")?;
    Ok(so_far.with(outcome))
}

// Carries out a line of which these are the last bytes. One that lies whole in them isn't copied.
#[inline(always)]
fn run_one<T: KeptTable, K: Sink>(
    alloc: Global,
    store: &mut Store<T>,
    sink: &mut K,
    held: &mut HeldLine,
    end: &[u8],
) -> Result<LineOutcome, RunFault>
    requires { CanCount (K.fault_count sink.old) }
    ensures runs { (front : List ℕ) → held.old ≡ kept_of front
        → RunsLine (step_of store.old (front ++ end.now)) store.old store.new (K.taken sink.old) (K.taken sink.new) result }
    ensures memory { (front : List ℕ) → held.old ≡ kept_of front → IfErr result (IsWantOnlyIf (LineWants store.old (front ++ end.now))) }
    ensures held { OnOk result (held.new ≡ kept_of []) }
    ensures faults { K.fault_count sink.new ≡ K.fault_count sink.old + sink_faults result }
{
    if held.is_empty() {
        return run_line(alloc, store, sink, end);
    }
    held.push(end);
    let outcome = run_held(alloc, store, sink, held)?;
    held.clear();
    Ok(outcome)
}

// Carries out a line that is held whole.
#[inline(never)]
fn run_held<T: KeptTable, K: Sink>(
    alloc: Global,
    store: &mut Store<T>,
    sink: &mut K,
    held: &HeldLine,
) -> Result<LineOutcome, RunFault>
    requires { CanCount (K.fault_count sink.old) }
    ensures runs { (line : List ℕ) → held.now ≡ kept_of line
        → RunsLine (step_of store.old line) store.old store.new (K.taken sink.old) (K.taken sink.new) result }
    ensures memory { (line : List ℕ) → held.now ≡ kept_of line → IfErr result (IsWantOnlyIf (LineWants store.old line)) }
    ensures faults { K.fault_count sink.new ≡ K.fault_count sink.old + sink_faults result }
{
    match held.line() {
        Some(line) => run_line(alloc, store, sink, line),
        None => {
            write_no(LineFault::LineTooLong.name(), sink)?;
            Ok(LineOutcome::Refused)
        }
    }
}

// The bytes up to the first line feed, and those after it, or `None` if there is no line feed.
fn first_ended(text: &[u8]) -> Option<(&[u8], &[u8])>
    ensures some { IfSome result (λ cut. (text.now ≡ cut.0.now ++ 10 ∷ cut.1.now) × HasNoFeed cut.0.now) }
    ensures none { IfNone result (HasNoFeed text.now) }
{
    let end = text.find_byte(b'\n')?;
    Some((&text[..end], &text[end + 1..]))
}

// Whether a line that came out so was refused.
fn is_refused(outcome: LineOutcome) -> bool
    ensures { result ≡ is_refused outcome }
{
    matches!(outcome, LineOutcome::Refused)
}
