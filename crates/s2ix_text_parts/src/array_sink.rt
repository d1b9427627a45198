ghost use Rattle.std.specs.Prelude.{◌≡◌, ◌↔◌, ◌+◌, ◌-◌, ◌<◌, ◌≤◌, Some, [], length, min, take, IfOk, IsErr, IsOk, OnOk, OnErr, MatchResult};
ghost use Rattle.std.specs.Io.KnownBytes.{Appends, Keeps};
ghost use Rattle.arrayvec.specs.ArrayVec.{array_vec_len};
ghost use Rattle.s2ix_text_parts.specs.DeviceFaults.{CanCount, write_faults};

use crate::sink::{Sink, WriteFault};
use arrayvec::ArrayVec;

/// A sink that keeps up to `ROOM` bytes in itself and never allocates. Of the bytes that it is offered it takes the first, as many as fit,
/// and fails only if it is full. [`ArraySink::kept`] returns what it took.
#[derive(Debug, Drop)]
pub struct ArraySink<const ROOM: usize> {
    kept: ArrayVec<u8, ROOM>,
    faults: u64,
    ghost fails_if_full: { 0 < faults → array_vec_len kept ≡ ROOM },
}

impl<const ROOM: usize> ArraySink<ROOM> {
    /// A sink that has taken nothing yet.
    pub fn new() -> ArraySink<ROOM>
        ensures taken { ⟦<ArraySink<ROOM> as Sink>⟧.taken result ≡ Some [] }
        ensures faults { ⟦<ArraySink<ROOM> as Sink>⟧.fault_count result ≡ 0 }
    {
        ArraySink {
            kept: ArrayVec::new(),
            faults: 0,
        }
    }

    /// What the sink took so far.
    pub fn kept(&self) -> &[u8]
        ensures taken { ⟦<ArraySink<ROOM> as Sink>⟧.taken self.now ≡ Some result.now }
        ensures fits { length result.now ≤ ROOM }
        ensures full { 0 < ⟦<ArraySink<ROOM> as Sink>⟧.fault_count self.now → length result.now ≡ ROOM }
    {
        self.kept.as_slice()
    }
}

impl<const ROOM: usize> Sink for ArraySink<ROOM> {
    ghost use Rattle.s2ix_text_parts.specs.Devices.{kept_len_of};

    ghost taken = { λ s. Some s.kept.items };

    ghost flushes = { λ old new. new ≡ old };

    ghost flush_mark = { λ _. 0 };

    ghost fault_count = { λ s. s.faults };

    fn put(&mut self, bytes: &[u8]) -> Result<usize, WriteFault>
        requires room { 0 < length bytes.now }
        requires counts { CanCount (⟦<ArraySink<ROOM> as Sink>⟧.fault_count self.old) }
        ensures bound { IfOk result (λ n. n ≤ length bytes.now) }
        ensures progress { IfOk result (λ n. 0 < n) }
        ensures bytes { MatchResult result
            (λ n. Appends (⟦<ArraySink<ROOM> as Sink>⟧.taken self.old) (⟦<ArraySink<ROOM> as Sink>⟧.taken self.new) (take n bytes.now))
            (λ _. Keeps (⟦<ArraySink<ROOM> as Sink>⟧.taken self.old) (⟦<ArraySink<ROOM> as Sink>⟧.taken self.new)) }
        ensures unflushed { ⟦<ArraySink<ROOM> as Sink>⟧.flush_mark self.new ≡ ⟦<ArraySink<ROOM> as Sink>⟧.flush_mark self.old }
        ensures faults { ⟦<ArraySink<ROOM> as Sink>⟧.fault_count self.new
            ≡ ⟦<ArraySink<ROOM> as Sink>⟧.fault_count self.old + write_faults result }
        ensures number { IfOk result (λ n. n ≡ min (ROOM - kept_len_of self.old) (length bytes.now)) }
        ensures fails { IsErr result ↔ (kept_len_of self.old ≡ ROOM) }
    {
        let count = self.kept.remaining_capacity().min(bytes.len());
        if count == 0 || self.kept.try_extend_from_slice(&bytes[..count]).is_err() {
            self.faults += 1;
            return Err(WriteFault);
        }
        Ok(count)
    }

    fn flush(&mut self) -> Result<(), WriteFault>
        requires { CanCount (⟦<ArraySink<ROOM> as Sink>⟧.fault_count self.old) }
        ensures bytes { Keeps (⟦<ArraySink<ROOM> as Sink>⟧.taken self.old) (⟦<ArraySink<ROOM> as Sink>⟧.taken self.new) }
        ensures call { OnOk result (⟦<ArraySink<ROOM> as Sink>⟧.flushes self.old self.new) }
        ensures failed { OnErr result
            (⟦<ArraySink<ROOM> as Sink>⟧.flush_mark self.new ≡ ⟦<ArraySink<ROOM> as Sink>⟧.flush_mark self.old) }
        ensures faults { ⟦<ArraySink<ROOM> as Sink>⟧.fault_count self.new
            ≡ ⟦<ArraySink<ROOM> as Sink>⟧.fault_count self.old + write_faults result }
        ensures succeeds { IsOk result }
    {
        Ok(())
    }

    fn faults(&self) -> u64 {
        self.faults
    }
}
