ghost use Rattle.std.specs.Prelude.{◌≡◌, ℕ, ◌<◌, ◌≤◌, ◌+◌, ◌-◌, Some, length, take, drop, slice_get, IfOk, OnOk};
ghost use Rattle.s2ix_bag_lists.specs.Faces.{face_start};
ghost use Rattle.s2ix_bag_pairs.specs.Collection.{AreBelow, Collection, IsCollectionFrom};
ghost use Rattle.s2ix_table_kept.specs.Reading.{HasRead, IsRead, with_read, with_reads};

use s2id_core::OutOfMemory;
use s2ix_bag_held::FlatHeld;
use s2ix_bag_lists::HeldParts;
use s2ix_bag_pairs::Held;
use std::alloc::Global;

/// Something that reads the held pairs of a bag, in rising order, and counts each that it reads. No call gives a pair that it doesn't
/// count; a list that is handed on whole counts with all of its pairs, though perhaps nobody looks at them.
pub trait PairReader {
    // the held pairs that it reads
    ghost shown: { Self → Collection };

    // how many pairs were read so far
    ghost spent: { Self → ℕ };

    /// How many pairs are held, at most 1,000,000.
    fn len(&self) -> usize
        ensures { result ≡ length (shown self.now) };

    /// The pair at a place in rising order, counted from 0, with its count: one read.
    fn read(&mut self, k: usize) -> Held
        requires { k < length (shown self.old) }
        ensures held { slice_get (shown self.old) k ≡ Some result }
        ensures same { shown self.new ≡ shown self.old }
        ensures counts { spent self.new ≡ with_read (spent self.old) };

    /// Two places around `k`: all pairs from the first one to before the second are of one face. A reader that knows where the face of the pair
    /// at `k` begins and ends gives these places; the default body knows of `k` alone. If the pair at `k` comes before a face, so do all of
    /// them; if it does not, none of them does. It reads no pair. O(1).
    fn face_around(&self, k: usize) -> (usize, usize)
        requires { k < length (shown self.now) }
        ensures begins { result.0 ≤ k }
        ensures ends { k < result.1 }
        ensures within { result.1 ≤ length (shown self.now) }
        ensures below { (face : ℕ) → AreBelow (face_start face) (take (k + 1) (shown self.now))
            → AreBelow (face_start face) (take result.1 (shown self.now)) }
        ensures from { (face : ℕ) → IsCollectionFrom (face_start face) (drop k (shown self.now))
            → IsCollectionFrom (face_start face) (drop result.0 (shown self.now)) }
    {
        (k, k + 1)
    }

    /// The pairs from one place to before another, in rising order, with their counts: a read for each. The list may be one that others
    /// keep too; that of the default body, which reads pair by pair, is a new one. `OutOfMemory` if a growth is refused or the list is
    /// shared too often; then at most `to - from` reads were counted.
    fn read_between(
        &mut self,
        alloc: Global,
        from: usize,
        to: usize,
    ) -> Result<HeldParts, OutOfMemory>
        requires rises { from ≤ to }
        requires within { to ≤ length (shown self.old) }
        ensures pairs { IfOk result (λ held. held ≡ take (to - from) (drop from (shown self.old))) }
        ensures same { shown self.new ≡ shown self.old }
        ensures counts { OnOk result (spent self.new ≡ with_reads (to - from) (spent self.old)) }
        ensures refused { HasRead 0 (to - from) (spent self.old) (spent self.new) }
    {
        let mut held = Vec::with_capacity(alloc, to - from)?;
        let mut place = from;
        while place < to {
            held.push(FlatHeld::new(self.read(place)))?;
            place += 1;
        }
        HeldParts::new(alloc, held)
    }

    /// How many pairs were read so far, in a count that stops at 2^64 - 1.
    fn reads(&self) -> u64
        ensures { result ≡ spent self.now };

    // what it reads is what a bag holds
    ghost is_read: { (reader : Self) → IsRead (shown reader) };
}
