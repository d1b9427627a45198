ghost use Rattle.std.specs.Prelude.{◌≡◌, ◌+◌, ◌<◌, ◌≤◌, Some, [], length, take, IfOk, IsOk, OnOk, OnErr, MatchResult};
ghost use Rattle.std.specs.Io.KnownBytes.{Appends, Keeps};
ghost use Rattle.s2ix_text_parts.specs.DeviceFaults.{CanCount, write_faults};

use crate::sink::{Sink, WriteFault};
use std::alloc::Global;

/// A sink that keeps in memory all that it is offered. It fails only if a growth is refused. After a run or a call over texts,
/// [`VecSink::kept`] returns what was printed.
#[derive(Debug, Drop)]
pub struct VecSink {
    kept: Vec<u8>,
    faults: u64,
}

impl VecSink {
    /// A sink that has taken nothing yet.
    pub fn new(alloc: Global) -> VecSink
        ensures taken { ⟦<VecSink as Sink>⟧.taken result ≡ Some [] }
        ensures faults { ⟦<VecSink as Sink>⟧.fault_count result ≡ 0 }
    {
        VecSink {
            kept: Vec::new(alloc),
            faults: 0,
        }
    }

    /// What the sink took so far.
    pub fn kept(&self) -> &[u8]
        ensures { ⟦<VecSink as Sink>⟧.taken self.now ≡ Some result.now }
    {
        &self.kept
    }
}

impl Sink for VecSink {
    ghost taken = { λ s. Some s.kept.items };

    ghost flushes = { λ old new. new ≡ old };

    ghost flush_mark = { λ _. 0 };

    ghost fault_count = { λ s. s.faults };

    fn put(&mut self, bytes: &[u8]) -> Result<usize, WriteFault>
        requires room { 0 < length bytes.now }
        requires counts { CanCount (⟦<VecSink as Sink>⟧.fault_count self.old) }
        ensures bound { IfOk result (λ n. n ≤ length bytes.now) }
        ensures progress { IfOk result (λ n. 0 < n) }
        ensures bytes { MatchResult result
            (λ n. Appends (⟦<VecSink as Sink>⟧.taken self.old) (⟦<VecSink as Sink>⟧.taken self.new) (take n bytes.now))
            (λ _. Keeps (⟦<VecSink as Sink>⟧.taken self.old) (⟦<VecSink as Sink>⟧.taken self.new)) }
        ensures unflushed { ⟦<VecSink as Sink>⟧.flush_mark self.new ≡ ⟦<VecSink as Sink>⟧.flush_mark self.old }
        ensures faults { ⟦<VecSink as Sink>⟧.fault_count self.new ≡ ⟦<VecSink as Sink>⟧.fault_count self.old + write_faults result }
        ensures whole { IfOk result (λ n. n ≡ length bytes.now) }
    {
        if self.kept.extend_from_slice(bytes).is_err() {
            self.faults += 1;
            return Err(WriteFault);
        }
        Ok(bytes.len())
    }

    fn flush(&mut self) -> Result<(), WriteFault>
        requires { CanCount (⟦<VecSink as Sink>⟧.fault_count self.old) }
        ensures bytes { Keeps (⟦<VecSink as Sink>⟧.taken self.old) (⟦<VecSink as Sink>⟧.taken self.new) }
        ensures call { OnOk result (⟦<VecSink as Sink>⟧.flushes self.old self.new) }
        ensures failed { OnErr result (⟦<VecSink as Sink>⟧.flush_mark self.new ≡ ⟦<VecSink as Sink>⟧.flush_mark self.old) }
        ensures faults { ⟦<VecSink as Sink>⟧.fault_count self.new ≡ ⟦<VecSink as Sink>⟧.fault_count self.old + write_faults result }
        ensures succeeds { IsOk result }
    {
        Ok(())
    }

    fn faults(&self) -> u64 {
        self.faults
    }
}
