ghost use Rattle.std.specs.Prelude.{◌≡◌, ◌↔◌, ◌+◌, ◌-◌, ◌<◌, ◌≤◌, Some, [], length, max, min, take, IfOk, OnOk, OnErr, IsErr, IsTrue, MatchResult, vec_len};
ghost use Rattle.std.specs.Io.KnownBytes.{Appends, Keeps};
ghost use Rattle.s2ix_text_parts.specs.DeviceFaults.{CanCount, write_faults};

use crate::sink::{Sink, WriteFault};
use std::alloc::Global;

/// A sink that keeps what it takes; a call of `put` fails too if there is no memory to keep it. After a run, or a call over texts,
/// [`KeepingSink::kept`] is what that printed. For tests it can take little in a put, and fail.
#[derive(Debug, Drop)]
pub struct KeepingSink {
    kept: Vec<u8>,
    flushed_len: usize,
    put_len: usize,
    calls_to_fault: u64,
    is_flush_failing: bool,
    faults: u64,
    ghost takes_some: { 0 < put_len },
}

impl KeepingSink {
    ghost use Rattle.s2ix_text_parts.specs.Devices.{flush_fails, flushed_len_of, put_len_of, sink_fault_at};

    /// A sink that takes at most `put_len` bytes a call (at least one), whose call number `fault_at` of `put` fails, and whose `flush`
    /// fails if `is_flush_failing`. Calls count from 1: at 0 none fails.
    pub fn new(alloc: Global, put_len: usize, fault_at: u64, is_flush_failing: bool) -> KeepingSink
        ensures taken { ⟦<KeepingSink as Sink>⟧.taken result ≡ Some [] }
        ensures flushed { flushed_len_of result ≡ 0 }
        ensures faults { ⟦<KeepingSink as Sink>⟧.fault_count result ≡ 0 }
        ensures put_len { put_len_of result ≡ max put_len 1 }
        ensures fault_at { sink_fault_at result ≡ fault_at }
        ensures flush { flush_fails result ≡ is_flush_failing }
    {
        KeepingSink {
            kept: Vec::new(alloc),
            flushed_len: 0,
            put_len: put_len.max(1),
            calls_to_fault: fault_at,
            is_flush_failing,
            faults: 0,
        }
    }

    /// How many bytes the sink had taken at its last `flush` that succeeded, and 0 before the first.
    pub fn flushed_len(&self) -> usize
        ensures { result ≡ flushed_len_of self.now }
    {
        self.flushed_len
    }

    /// What the sink took so far.
    pub fn kept(&self) -> &[u8]
        ensures { ⟦<KeepingSink as Sink>⟧.taken self.now ≡ Some result.now }
    {
        &self.kept
    }
}

impl Sink for KeepingSink {
    ghost use Rattle.s2ix_text_parts.specs.Devices.{flush_fails, flushed_len_of, put_len_of, sink_fault_at};

    ghost taken = { λ s. Some s.kept.items };

    ghost flushes = { λ old new. (new.kept ≡ old.kept) × (new.flushed_len ≡ vec_len old.kept) };

    ghost flush_mark = { flushed_len_of };

    ghost fault_count = { λ s. s.faults };

    fn put(&mut self, bytes: &[u8]) -> Result<usize, WriteFault>
        requires room { 0 < length bytes.now }
        requires counts { CanCount (⟦<KeepingSink as Sink>⟧.fault_count self.old) }
        ensures bound { IfOk result (λ n. n ≤ length bytes.now) }
        ensures progress { IfOk result (λ n. 0 < n) }
        ensures bytes { MatchResult result
            (λ n. Appends (⟦<KeepingSink as Sink>⟧.taken self.old) (⟦<KeepingSink as Sink>⟧.taken self.new) (take n bytes.now))
            (λ _. Keeps (⟦<KeepingSink as Sink>⟧.taken self.old) (⟦<KeepingSink as Sink>⟧.taken self.new)) }
        ensures unflushed { flushed_len_of self.new ≡ flushed_len_of self.old }
        ensures faults { ⟦<KeepingSink as Sink>⟧.fault_count self.new ≡ ⟦<KeepingSink as Sink>⟧.fault_count self.old + write_faults result }
        ensures number { IfOk result (λ n. n ≡ min (put_len_of self.old) (length bytes.now)) }
        ensures fails { sink_fault_at self.old ≡ 1 → IsErr result }
        ensures fault_at { sink_fault_at self.new ≡ sink_fault_at self.old - 1 }
        ensures put_len { put_len_of self.new ≡ put_len_of self.old }
        ensures flush { flush_fails self.new ≡ flush_fails self.old }
    {
        let is_fault = self.calls_to_fault == 1;
        self.calls_to_fault = self.calls_to_fault.saturating_sub(1);
        let count = self.put_len.min(bytes.len());
        if is_fault || self.kept.extend_from_slice(&bytes[..count]).is_err() {
            self.faults += 1;
            return Err(WriteFault);
        }
        Ok(count)
    }

    fn flush(&mut self) -> Result<(), WriteFault>
        requires { CanCount (⟦<KeepingSink as Sink>⟧.fault_count self.old) }
        ensures bytes { Keeps (⟦<KeepingSink as Sink>⟧.taken self.old) (⟦<KeepingSink as Sink>⟧.taken self.new) }
        ensures call { OnOk result (⟦<KeepingSink as Sink>⟧.flushes self.old self.new) }
        ensures failed { OnErr result (⟦<KeepingSink as Sink>⟧.flush_mark self.new ≡ ⟦<KeepingSink as Sink>⟧.flush_mark self.old) }
        ensures faults { ⟦<KeepingSink as Sink>⟧.fault_count self.new ≡ ⟦<KeepingSink as Sink>⟧.fault_count self.old + write_faults result }
        ensures fails { IsErr result ↔ IsTrue (flush_fails self.old) }
        ensures fault_at { sink_fault_at self.new ≡ sink_fault_at self.old }
        ensures put_len { put_len_of self.new ≡ put_len_of self.old }
        ensures flush { flush_fails self.new ≡ flush_fails self.old }
    {
        if self.is_flush_failing {
            self.faults += 1;
            return Err(WriteFault);
        }
        self.flushed_len = self.kept.len();
        Ok(())
    }

    fn faults(&self) -> u64 {
        self.faults
    }
}
