ghost use Rattle.std.specs.Prelude.{◌≡◌, ◌↔◌, ◌+◌, ◌-◌, ◌<◌, ◌≤◌, Some, IfOk, IsErr, MatchResult, length, max, min, take};
ghost use Rattle.std.specs.Io.KnownBytes.{Consumes, IsAtEnd, Keeps};
ghost use Rattle.s2ix_text_parts.specs.DeviceFaults.{CanCount, read_faults};
ghost use Rattle.s2ix_text_parts.specs.Pieces.{Gave};

use crate::source::{ReadFault, Source};

/// A source over a slice. It does not allocate. Use it to run a script, or to read a file, that is in memory already. For tests it can give
/// short pieces, and fail.
#[derive(Debug, Drop)]
pub struct SliceSource<'a> {
    left: &'a [u8],
    piece_len: usize,
    calls_to_fault: u64,
    faults: u64,
    ghost gives_some: { 0 < piece_len },
}

impl<'a> SliceSource<'a> {
    ghost use Rattle.s2ix_text_parts.specs.Devices.{piece_len_of, source_fault_at};

    /// A source of `text` that gives at most `piece_len` bytes a call (at least one), and whose call number `fault_at` fails. Calls count
    /// from 1: at 0 none fails.
    pub fn new(text: &'a [u8], piece_len: usize, fault_at: u64) -> SliceSource<'a>
        ensures left { ⟦<SliceSource<'a> as Source>⟧.left result ≡ Some text.now }
        ensures faults { ⟦<SliceSource<'a> as Source>⟧.fault_count result ≡ 0 }
        ensures piece_len { piece_len_of result ≡ max piece_len 1 }
        ensures fault_at { source_fault_at result ≡ fault_at }
    {
        SliceSource {
            left: text,
            piece_len: piece_len.max(1),
            calls_to_fault: fault_at,
            faults: 0,
        }
    }
}

impl<'a> Source for SliceSource<'a> {
    ghost use Rattle.s2ix_text_parts.specs.Devices.{bytes_left_of, piece_len_of, source_fault_at};

    ghost left = { λ s. Some (bytes_left_of s) };

    ghost gives = { λ old n new. Gave (Some (bytes_left_of old)) n (Some (bytes_left_of new)) };

    ghost fault_count = { λ s. s.faults };

    fn piece(&mut self, buf: &mut [u8]) -> Result<usize, ReadFault>
        requires room { 0 < length buf.old }
        requires counts { CanCount (⟦<SliceSource<'a> as Source>⟧.fault_count self.old) }
        ensures bound { IfOk result (λ n. n ≤ length buf.new) }
        ensures bytes { MatchResult result
            (λ n. Consumes (Some (bytes_left_of self.old)) (Some (bytes_left_of self.new)) (take n buf.new))
            (λ _. Keeps (Some (bytes_left_of self.old)) (Some (bytes_left_of self.new))) }
        ensures call { IfOk result (λ n. ⟦<SliceSource<'a> as Source>⟧.gives self.old n self.new) }
        ensures end { IfOk result (λ n. n ≡ 0 → IsAtEnd (Some (bytes_left_of self.new))) }
        ensures faults { ⟦<SliceSource<'a> as Source>⟧.fault_count self.new
            ≡ ⟦<SliceSource<'a> as Source>⟧.fault_count self.old + read_faults result }
        ensures number { IfOk result (λ n. n
            ≡ min (min (piece_len_of self.old) (length buf.old)) (length (bytes_left_of self.old))) }
        ensures fails { IsErr result ↔ (source_fault_at self.old ≡ 1) }
        ensures fault_at { source_fault_at self.new ≡ source_fault_at self.old - 1 }
        ensures piece_len { piece_len_of self.new ≡ piece_len_of self.old }
    {
        let is_fault = self.calls_to_fault == 1;
        self.calls_to_fault = self.calls_to_fault.saturating_sub(1);
        if is_fault {
            self.faults += 1;
            return Err(ReadFault);
        }
        let count = self.piece_len.min(buf.len()).min(self.left.len());
        let (front, rest) = self.left.split_at(count);
        buf[..count].copy_from_slice(front);
        self.left = rest;
        Ok(count)
    }

    fn faults(&self) -> u64 {
        self.faults
    }
}
