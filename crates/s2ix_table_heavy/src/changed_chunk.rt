//! What a change within one chunk makes of it. The other chunks stay, and so do all marks.
ghost use Rattle.std.specs.Prelude.{◌≡◌, ◌+◌, ◌<◌, ◌≤◌, IfOk, IfSome, IsTrue, [], Contains, drop, length, set, slice_index_or, take};
ghost use Rattle.s2ix_bag_lists.specs.Faces.{all_of};
ghost use Rattle.s2ix_bag_pairs.specs.Change.{IsChangeList, changed};
ghost use Rattle.s2ix_bag_pairs.specs.Pair.{rank_of};
ghost use Rattle.s2ix_bag_pairs.specs.declared.pair.Entry.{Entry as EntryOf};
ghost use Rattle.s2ix_bag_pairs.specs.declared.pair.Held.{Held as HeldOf};
ghost use Rattle.s2ix_table_spans.specs.Blocks.{HoldsCell};
ghost use Rattle.s2ix_table_heavy.specs.ChangedChunk.{FitsChunk, IsPairOf, LieAlike};

use crate::heavy_table::HeavyTable;
use s2id_core::OutOfMemory;
use s2ix_bag_held::HeldList;
use s2ix_bag_lists::merge;
use s2ix_bag_pairs::{Entry, Held, Pair};
use std::alloc::Global;

/// A chunk after a change, to be put into its place.
#[derive(Debug, Drop)]
pub struct ChangedChunk {
    /// The chunk's number, counted from 0.
    pub number: usize,
    /// Its pairs after the change.
    pub held: HeldList,
}

impl HeavyTable {
    /// What a change makes of the chunk into which all its entries fall: their pairs have its cell, and come behind all pairs in front of it
    /// and before all pairs behind it. `None` if there is no such chunk, or if it would have no pair left or more than `max_len`.
    /// O(log c + m + k) for m entries and the k pairs of the chunk. `OutOfMemory` if a growth is refused.
    pub fn changed_chunk(
        &self,
        alloc: Global,
        entries: &[Entry],
        max_len: usize,
    ) -> Result<Option<ChangedChunk>, OutOfMemory>
        requires { IsChangeList entries.now }
        ensures fits { IfOk result (λ made. IfSome made (λ chunk. length (changed (all_of self.now) entries.now) ≤ 1000000
            → FitsChunk self.now chunk.number chunk.held)) }
        ensures pairs { IfOk result (λ made. IfSome made (λ chunk.
            all_of (set self.now chunk.number chunk.held) ≡ changed (all_of self.now) entries.now)) }
        ensures alike { IfOk result (λ made. IfSome made (λ chunk. length (changed (all_of self.now) entries.now) ≤ 1000000
            → LieAlike self.now (set self.now chunk.number chunk.held))) }
        ensures cells { IfOk result (λ made. IfSome made (λ _. (e : EntryOf) → Contains entries.now e
            → HoldsCell (all_of self.now) e.pair.cell)) }
        ensures at_most { IfOk result (λ made. IfSome made (λ chunk. length chunk.held ≤ max_len)) }
    {
        let Some(first) = entries.first() else {
            return Ok(None);
        };
        let number = self.chunk_near(first.pair);
        if number >= self.chunks.len() || !self.takes_all(number, entries) {
            return Ok(None);
        }
        let held = merge(alloc, self.chunks[number].as_slice(), entries)?;
        if held.is_empty() || held.len() > max_len {
            return Ok(None);
        }
        let held = HeldList::new(alloc, held)?;
        Ok(Some(ChangedChunk { number, held }))
    }

    /// Puts a changed chunk into its place. O(1).
    pub fn set_chunk(&mut self, chunk: ChangedChunk)
        requires { FitsChunk self.old chunk.number chunk.held }
        ensures { self.new ≡ set self.old chunk.number chunk.held }
    {
        self.chunks[chunk.number] = chunk.held;
    }

    /// Another table, with a changed chunk in its place. The two share the other chunks. O(c). `OutOfMemory` if a growth is refused, or a
    /// chunk is shared too often.
    pub fn with_chunk(&self, alloc: Global, chunk: ChangedChunk) -> Result<HeavyTable, OutOfMemory>
        requires { FitsChunk self.now chunk.number chunk.held }
        ensures { IfOk result (λ table. table ≡ set self.now chunk.number chunk.held) }
    {
        let mut chunks = self.chunks.clone()?;
        chunks[chunk.number] = chunk.held;
        HeavyTable::over(alloc, chunks)
    }

    // The chunk that has a pair or would take it in, if one has the pair's cell. No clause says so: `takes` looks at it. O(log c).
    fn chunk_near(&self, pair: Pair) -> usize {
        let mut low = 0;
        let mut high = self.chunks.len();
        while low < high {
            let middle = low + (high - low) / 2;
            if pair.is_before(self.first_held(middle).pair) {
                high = middle;
            } else {
                low = middle + 1;
            }
        }
        if low > 0 && self.first_held(low - 1).pair.cell == pair.cell {
            low - 1
        } else {
            low
        }
    }

    // Whether all entries are of pairs that a chunk has or would take in. O(m) for m entries.
    fn takes_all(&self, number: usize, entries: &[Entry]) -> bool
        requires { number < length self.now }
        ensures { IsTrue result → (e : EntryOf) → Contains entries.now e → IsPairOf self.now number e.pair }
    {
        for entry in entries {
            if !self.takes(number, entry.pair) {
                return false;
            }
        }
        true
    }

    // Whether a pair has the cell of a chunk, and comes after all pairs before the chunk and before all behind it. O(1).
    fn takes(&self, number: usize, pair: Pair) -> bool
        requires { number < length self.now }
        ensures { IsTrue result → IsPairOf self.now number pair }
    {
        if self.first_held(number).pair.cell != pair.cell {
            return false;
        }
        self.follows_front(number, pair) && self.precedes_back(number, pair)
    }

    // Whether a pair comes after all pairs before a chunk. O(1).
    fn follows_front(&self, number: usize, pair: Pair) -> bool
        requires { number < length self.now }
        ensures { IsTrue result → (h : HeldOf) → Contains (all_of (take number self.now)) h → rank_of h.pair < rank_of pair }
    {
        number == 0 || self.last_held(number - 1).pair.is_before(pair)
    }

    // Whether a pair comes before all pairs behind a chunk. O(1).
    fn precedes_back(&self, number: usize, pair: Pair) -> bool
        requires { number < length self.now }
        ensures { IsTrue result → (h : HeldOf) → Contains (all_of (drop (number + 1) self.now)) h → rank_of pair < rank_of h.pair }
    {
        number >= self.chunks.len() - 1 || pair.is_before(self.first_held(number + 1).pair)
    }

    // The first pair of a chunk. O(1).
    fn first_held(&self, number: usize) -> Held
        requires { number < length self.now }
        ensures one_cell { (h : HeldOf) → Contains (slice_index_or self.now number []) h → h.pair.cell ≡ result.pair.cell }
        ensures least { (h : HeldOf) → Contains (all_of (drop number self.now)) h → rank_of result.pair ≤ rank_of h.pair }
    {
        self.chunks[number].at(0)
    }

    // The last pair of a chunk. O(1).
    fn last_held(&self, number: usize) -> Held
        requires { number < length self.now }
        ensures { (h : HeldOf) → Contains (all_of (take (number + 1) self.now)) h → rank_of h.pair ≤ rank_of result.pair }
    {
        let own = &self.chunks[number];
        own.at(own.as_slice().len() - 1)
    }
}
