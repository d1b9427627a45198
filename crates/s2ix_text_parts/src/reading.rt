//! Reading a source whole.
ghost use Rattle.std.specs.Prelude.{◌≡◌, ◌≢◌, ◌↔◌, ℕ, ◌+◌, ◌++◌, List, Err, IfOk, IfErr, OnOk, OnErr};
ghost use Rattle.std.specs.Io.KnownBytes.{Consumes, IsAtEnd};
ghost use Rattle.s2ix_text_parts.specs.DeviceFaults.{CanCount, source_faults, IsPatient, IsWantOnlyIf};
ghost use Rattle.s2ix_text_parts.specs.Pieces.{ReadsToEnd, ReadsWithin};

use crate::run_fault::RunFault;
use crate::source::Source;
use s2id_core::OutOfMemory;
use std::alloc::Global;

// How many bytes are asked for at once.
const PIECE: usize = 4096;

// Appends a piece to what was read before it.
fn append(text: &mut Vec<u8>, piece: &[u8]) -> Result<(), OutOfMemory>
    ensures { OnOk result (text.new.items ≡ text.old.items ++ piece.now) }
{
    text.extend_from_slice(piece)?;
    Ok(())
}

/// Reads a source to its end, and returns all its bytes in order. O(n) for n bytes, and at most `turns` calls of `piece`.
///
/// It returns `Read` at the first fault of the source, `OutOfMemory` if a growth was refused, and `ReaderTooLong` if `turns` pieces were
/// read and none was the end. With 0 turns it asks the source nothing, and always returns `ReaderTooLong`. After a fault, what was read is
/// lost.
pub fn read_whole<S: Source>(alloc: Global, source: &mut S, turns: u64) -> Result<Vec<u8>, RunFault>
    requires { CanCount (S.fault_count source.old) }
    ensures whole { IfOk result (λ text. Consumes (S.left source.old) (S.left source.new) text.items × IsAtEnd (S.left source.new)) }
    ensures in_turns { OnOk result (ReadsToEnd S.gives turns source.old source.new) }
    ensures stopped { OnErr result ((input : List ℕ) × Consumes (S.left source.old) (S.left source.new) input) }
    ensures memory { IfErr result (IsWantOnlyIf (ReadsWithin S.gives turns source.old source.new)) }
    ensures too_long { IfErr result (λ fault. IsPatient S.gives fault turns source.old source.new) }
    ensures no_turn { turns ≡ 0 → result ≡ Err RunFault.ReaderTooLong }
    ensures failed { result ≡ Err RunFault.Read ↔ S.fault_count source.new ≡ S.fault_count source.old + 1 }
    ensures no_write { result ≢ Err RunFault.Write }
    ensures faults { S.fault_count source.new ≡ S.fault_count source.old + source_faults result }
{
    let mut text = Vec::new(alloc);
    let mut piece = [0; PIECE];
    'pieces: for _turn in 0..turns {
        let count = source.piece(&mut piece)?;
        if count == 0 {
            return Ok(text);
        }
        append(&mut text, &piece[..count])?;
    }
    Err(RunFault::ReaderTooLong)
}
