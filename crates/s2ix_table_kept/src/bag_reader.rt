ghost use Rattle.std.specs.Prelude.{◌≡◌, ◌≤◌, ◌-◌, length, take, drop, IfOk};
ghost use Rattle.s2ix_bag_pairs.specs.Collection.{IsCollection};
ghost use Rattle.s2ix_bag_pairs.specs.OneProof.{IsCollection-prop};

use crate::pair_reader::PairReader;
use s2id_core::OutOfMemory;
use s2ix_bag_changes::Bag;
use s2ix_bag_held::FlatHeld;
use s2ix_bag_lists::HeldParts;
use s2ix_bag_pairs::Held;
use std::alloc::Global;

/// A reader of a bag that counts what is read of it.
#[derive(Debug, Drop)]
pub struct BagReader<'a> {
    bag: &'a Bag,
    len: usize,
    // how many pairs stand before the part that was read last
    before: usize,
    // the pairs of that part; none before the first read
    own: &'a [FlatHeld],
    reads: u64,
    ghost counted: { len ≡ length bag.now.held },
    ghost rises: { IsCollection bag.now.held } by { IsCollection-prop 0 bag.now.held },
    ghost within_limit: { length bag.now.held ≤ 1000000 },
    ghost near: { before ≤ 1000000 },
    ghost part: { take (length own.now) (drop before bag.now.held) ≡ own.now },
}

impl<'a> BagReader<'a> {
    /// A reader of a bag that has read nothing. O(1).
    pub fn new(bag: &'a Bag) -> BagReader<'a>
        ensures shown { ⟦<BagReader<'a> as PairReader>⟧.shown result ≡ bag.now.held }
        ensures unread { ⟦<BagReader<'a> as PairReader>⟧.spent result ≡ 0 }
    {
        BagReader {
            bag,
            len: bag.len(),
            before: 0,
            own: &[],
            reads: 0,
        }
    }

    // The pairs from one place to before another: the bag's own list if they are all those of a face, else a copy.
    fn listed(&self, alloc: Global, from: usize, to: usize) -> Result<HeldParts, OutOfMemory>
        requires rises { from ≤ to }
        requires within { to ≤ length self.now.bag.now.held }
        ensures { IfOk result (λ held. held ≡ take (to - from) (drop from self.now.bag.now.held)) }
    {
        if from < to {
            let (before, list) = self.bag.face_at(from);
            if before == from && list.len() == to - from {
                return Ok(list.clone()?);
            }
        }
        HeldParts::new(alloc, self.copied(alloc, from, to)?)
    }

    // A copy of the pairs from one place to before another: a block of each part between them, in one growth.
    fn copied(&self, alloc: Global, from: usize, to: usize) -> Result<Vec<FlatHeld>, OutOfMemory>
        requires rises { from ≤ to }
        requires within { to ≤ length self.now.bag.now.held }
        ensures { IfOk result (λ held. held.items ≡ take (to - from) (drop from self.now.bag.now.held)) }
    {
        let mut held = Vec::with_capacity(alloc, to - from)?;
        let mut place = from;
        while place < to {
            let (before, part) = self.bag.part_at(place);
            let part = part.as_slice();
            let block = &part[place - before..part.len().min(to - before)];
            held.extend_from_slice(block)?;
            place += block.len();
        }
        Ok(held)
    }
}

impl PairReader for BagReader<'_> {
    ghost shown = { λ reader. reader.bag.now.held };

    ghost spent = { λ reader. reader.reads };

    ghost is_read = { λ reader. record { is_collection = reader.rises; within_limit = reader.within_limit } };

    fn len(&self) -> usize {
        self.len
    }

    fn read(&mut self, k: usize) -> Held {
        self.reads = self.reads.saturating_add(1);
        // a place before the part at hand wraps to a number that is far greater than its length
        if let Some(held) = self.own.get(k.wrapping_sub(self.before)) {
            return held.held();
        }
        let (before, part) = self.bag.part_at(k);
        self.before = before;
        self.own = part.as_slice();
        part.at(k - before)
    }

    fn face_around(&self, k: usize) -> (usize, usize) {
        let (before, list) = self.bag.face_at(k);
        (before, before + list.len())
    }

    fn read_between(
        &mut self,
        alloc: Global,
        from: usize,
        to: usize,
    ) -> Result<HeldParts, OutOfMemory> {
        let held = self.listed(alloc, from, to)?;
        self.reads = self.reads.saturating_add((to - from) as u64);
        Ok(held)
    }

    fn reads(&self) -> u64 {
        self.reads
    }
}
