ghost use Rattle.std.specs.Prelude.{◌≡◌, ℕ, ◌+◌, ◌<◌, ◌≤◌, List, length, take, IfOk, MatchResult};
ghost use Rattle.std.specs.declared.option.Option.{Option};
ghost use Rattle.std.specs.Io.KnownBytes.{Keeps, Consumes, IsAtEnd};
ghost use Rattle.s2ix_text_parts.specs.DeviceFaults.{CanCount, read_faults};

use thiserror::Error;

/// A source failed to give bytes. This error carries nothing: the source itself counts how often it failed.
#[derive(Clone, Copy, Debug, PartialEq, Eq, Hash, Error)]
#[error("read fault")]
pub struct ReadFault;

/// What bytes come from, piece by piece. It may fail at any piece.
pub trait Source {
    // The bytes that are still to come, if they are known.
    ghost left: { Self → Option (List ℕ) };

    // A call of `piece` that gave so many bytes may lead from the first state of the source to the second.
    ghost gives: { Self → ℕ → Self → Type 0 };

    // How many calls of `piece` have failed so far.
    ghost fault_count: { Self → ℕ };

    /// Reads the next bytes into the front of `buf`, and returns how many: at most as many as `buf` has room for, and none only at the end
    /// of the input. A call that fails has read nothing, and counts as one fault.
    fn piece(&mut self, buf: &mut [u8]) -> Result<usize, ReadFault>
        requires room { 0 < length buf.old }
        requires counts { CanCount (fault_count self.old) }
        ensures bound { IfOk result (λ n. n ≤ length buf.new) }
        ensures bytes { MatchResult result
            (λ n. Consumes (left self.old) (left self.new) (take n buf.new))
            (λ _. Keeps (left self.old) (left self.new)) }
        ensures call { IfOk result (λ n. gives self.old n self.new) }
        ensures end { IfOk result (λ n. n ≡ 0 → IsAtEnd (left self.new)) }
        ensures faults { fault_count self.new ≡ fault_count self.old + read_faults result };

    /// How many calls of `piece` have failed so far.
    fn faults(&self) -> u64
        ensures { result ≡ fault_count self.now };
}
