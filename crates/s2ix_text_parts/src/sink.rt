ghost use Rattle.std.specs.Prelude.{◌≡◌, ℕ, ◌+◌, ◌<◌, ◌≤◌, List, length, take, IfOk, OnOk, OnErr, MatchResult};
ghost use Rattle.std.specs.declared.option.Option.{Option};
ghost use Rattle.std.specs.Io.KnownBytes.{Keeps, Appends};
ghost use Rattle.s2ix_text_parts.specs.DeviceFaults.{CanCount, write_faults};

use thiserror::Error;

/// A sink failed to take bytes. This error carries nothing: the sink itself counts how often it failed.
#[derive(Clone, Copy, Debug, PartialEq, Eq, Hash, Error)]
#[error("write fault")]
pub struct WriteFault;

/// What bytes go to. It may take less than it is given, and may fail at any call.
pub trait Sink {
    // The bytes that the sink took so far, if they are known.
    ghost taken: { Self → Option (List ℕ) };

    // A call of `flush` that succeeded may lead from the first state of the sink to the second.
    ghost flushes: { Self → Self → Type 0 };

    // What the last call of `flush` that succeeded left: no other call changes it. So a call that leaves it at every sink did not flush.
    ghost flush_mark: { Self → ℕ };

    // How many calls of `put` and `flush` have failed so far.
    ghost fault_count: { Self → ℕ };

    /// Offers `bytes`, and returns how many of them the sink took, from the front: at least one. A call that fails took none, and counts as
    /// one fault.
    fn put(&mut self, bytes: &[u8]) -> Result<usize, WriteFault>
        requires room { 0 < length bytes.now }
        requires counts { CanCount (fault_count self.old) }
        ensures bound { IfOk result (λ n. n ≤ length bytes.now) }
        ensures progress { IfOk result (λ n. 0 < n) }
        ensures bytes { MatchResult result
            (λ n. Appends (taken self.old) (taken self.new) (take n bytes.now))
            (λ _. Keeps (taken self.old) (taken self.new)) }
        ensures unflushed { flush_mark self.new ≡ flush_mark self.old }
        ensures faults { fault_count self.new ≡ fault_count self.old + write_faults result };

    /// Passes on what the sink took and still holds back. A call that fails counts as one fault.
    fn flush(&mut self) -> Result<(), WriteFault>
        requires { CanCount (fault_count self.old) }
        ensures bytes { Keeps (taken self.old) (taken self.new) }
        ensures call { OnOk result (flushes self.old self.new) }
        ensures failed { OnErr result (flush_mark self.new ≡ flush_mark self.old) }
        ensures faults { fault_count self.new ≡ fault_count self.old + write_faults result };

    /// How many calls of `put` and `flush` have failed so far.
    fn faults(&self) -> u64
        ensures { result ≡ fault_count self.now };
}
