//! What lies over each of thousands of leaves, which are sorted first: as they rise, each lies near the one before, and so does what the table
//! has over it.
ghost use Rattle.std.specs.Prelude.{◌≡◌, ◌≢◌, ◌≤◌, ◌<◌, ◌+◌, ◌-◌, ◌++◌, None, IfSome, length, map, slice_index_or, take};
ghost use Rattle.s2ix_bag_pairs.specs.Collection.{Collection};
ghost use Rattle.s2ix_table_walk.specs.Contents.{contents_at};
ghost use Rattle.s2ix_table_queries.specs.Leaf.{leaf_numbered};
ghost use Rattle.s2ix_table_queries.specs.ManyLeaves.{AreAnswered, IsNoLeaf, LacksRoom, over_first};

use crate::bookmark::BATCH;
use crate::each::{Done, Each, EachStop, answer_from, at_each};
use crate::leaf::leaf_of;
use crate::leaf_sorter::{LeafSorter, MOST_SORTED, mostly_rise};
use crate::of_held::OfHeld;
use crate::table::RangeTable;
use s2id_core::OutOfMemory;
use std::alloc::Global;

// At least so many leaves are sorted, a batch of them apart, which is answered before. Fewer are quicker answered as they come.
const MANY: usize = 4_096;

const LEAST_SORTED: usize = MANY - BATCH;

// In a table of fewer ranges the next leaf is quickly found wherever it lies.
const MANY_RANGES: usize = 1_024;

// The smallest chunk of leaves that is sorted, if there are as many: its buffers stay in a processor's own cache. A large table has a larger
// one, with a leaf for so many ranges, so that several leaves lie in one part.
const LEAST_CHUNK: usize = 8_192;

const RANGES_TO_LEAF: usize = 32;

// If more pairs than this lie over each leaf, leaves are answered as they come: most of the time is that of copying the pairs.
const MOST_ITEMS: usize = 8;

// Buffers for a chunk of leaves: the sorted leaves, and what `at_each` puts for them.
#[derive(Drop)]
struct Buffers<R> {
    sorter: LeafSorter,
    ends: Vec<usize>,
    items: Vec<R>,
}

impl<R: OfHeld> Buffers<R> {
    // Buffers for so many leaves, with twice as many items for each as those that are done have, and four more; `item` fills them.
    // `OutOfMemory` if a growth is refused.
    fn for_leaves(
        alloc: Global,
        count: usize,
        done: Done,
        item: R,
    ) -> Result<Buffers<R>, OutOfMemory> {
        let sorter = LeafSorter::with_room(alloc, count)?;
        let ends = Vec::from_elem(alloc, 0, count)?;
        let room = 2 * (done.pairs / done.leaves.max(1)).min(MOST_ITEMS) + 4;
        let items = Vec::from_elem(alloc, item, count.saturating_mul(room))?;
        Ok(Buffers {
            sorter,
            ends,
            items,
        })
    }
}

// The first `count` of some leaves, and what `at_each` put for them.
#[derive(Clone, Copy)]
struct Answered<'a, R> {
    leaves: &'a [u64],
    count: usize,
    ends: &'a [usize],
    items: &'a [R],
}

impl<'a, R: OfHeld> Answered<'a, R> {
    // The items of the leaf at an index. `None` if it isn't answered, or has another number than this. O(1).
    #[inline(always)]
    fn items_at(&self, index: usize, number: u64) -> Option<&'a [R]>
        ensures items { (held : Collection) → AreAnswered R.of held self.now.leaves.now self.now.count self.now.ends.now self.now.items.now
            → IfSome result (λ items. items.now ≡ map R.of (contents_at number held)) }
        ensures leaf { (held : Collection) → AreAnswered R.of held self.now.leaves.now self.now.count self.now.ends.now self.now.items.now
            → IfSome result (λ items. leaf_numbered number ≢ None) }
    {
        if index >= self.count.min(self.leaves.len()).min(self.ends.len()) {
            return None;
        }
        let start = end_before(self.ends, index);
        let end = self.ends[index];
        if self.leaves[index] != number || start > end || end > self.items.len() {
            return None;
        }
        Some(&self.items[start..end])
    }
}

// Where the items of all leaves before an index end.
#[inline(always)]
fn end_before(ends: &[usize], index: usize) -> usize
    requires listed { index ≤ length ends.now }
    ensures first { index ≡ 0 → result ≡ 0 }
    ensures before { 0 < index → result ≡ slice_index_or ends.now (index - 1) 0 }
{
    if index == 0 { 0 } else { ends[index - 1] }
}

// Puts items into a buffer, from a place of it on; returns where they end, or `None` if there is no room for them all.
#[inline(always)]
fn put_items<R: Copy>(items: &[R], out: &mut [R], from: usize) -> Option<usize>
    requires room { from ≤ length out.old }
    ensures same { length out.new ≡ length out.old }
    ensures none { result ≡ None → out.new ≡ out.old }
    ensures end { IfSome result (λ end. end ≡ from + length items.now) }
    ensures within { IfSome result (λ end. end ≤ length out.old) }
    ensures put { IfSome result (λ end. take end out.new ≡ take from out.old ++ items.now) }
{
    if items.len() > out.len() - from {
        return None;
    }
    for k in 0..items.len() {
        out[from + k] = items[k];
    }
    Some(from + items.len())
}

// Copies answers to where the order of the caller's leaves wants them, for the leaves after those that are done. `ranks` has for each of these
// leaves its index in what is answered. It stops at the first leaf that has no answer there, or no room. No clause says how many it answers:
// this only saves work.
fn copy_answers<T: RangeTable, R: OfHeld>(
    table: &T,
    leaves: &[u64],
    answered: &Answered<'_, R>,
    ranks: &[u16],
    before: Done,
    ends: &mut [usize],
    out: &mut [R],
) -> Done
    requires answered { AreAnswered R.of (T.pairs table.now) answered.now.leaves.now answered.now.count answered.now.ends.now
        answered.now.items.now }
    requires before { AreAnswered R.of (T.pairs table.now) leaves.now before.leaves ends.old out.old }
    requires count { before.pairs ≡ length (over_first before.leaves leaves.now (T.pairs table.now)) }
    requires room { before.pairs ≤ length out.old }
    ensures same { length out.new ≡ length out.old }
    ensures listed { length ends.new ≡ length ends.old }
    ensures answered { AreAnswered R.of (T.pairs table.now) leaves.now result.leaves ends.new out.new }
    ensures count { result.pairs ≡ length (over_first result.leaves leaves.now (T.pairs table.now)) }
    ensures room { result.pairs ≤ length out.old }
{
    let mut done = before;
    for rank in ranks {
        if done.leaves >= leaves.len() || done.leaves >= ends.len() {
            return done;
        }
        let Some(items) = answered.items_at(usize::from(*rank), leaves[done.leaves]) else {
            return done;
        };
        let Some(end) = put_items(items, out, done.pairs) else {
            return done;
        };
        ends[done.leaves] = end;
        done = Done {
            leaves: done.leaves + 1,
            pairs: end,
        };
    }
    done
}

// How many numbers at the front of a list are leaves'. O(n) for n numbers.
fn leading_leaves(numbers: &[u64]) -> usize
    ensures { result ≤ length numbers.now }
{
    let mut count = 0;
    while count < numbers.len() && leaf_of(numbers[count]).is_some() {
        count += 1;
    }
    count
}

// How many leaves are sorted next: those that are left, up to the first number that is no leaf's, but at most a chunk, and at most as many as
// there is room for if as many pairs lie over each as over those that are done. 0 if these are too many to a leaf.
fn next_count<R>(leaves: &[u64], chunk: usize, done: Done, ends: &[usize], out: &[R]) -> usize
    requires { done.leaves ≤ length leaves.now }
    ensures { result ≤ length leaves.now - done.leaves }
{
    if done.pairs > done.leaves.saturating_mul(MOST_ITEMS) {
        return 0;
    }
    let ends_left = ends.len().saturating_sub(done.leaves);
    let room_left = out.len().saturating_sub(done.pairs);
    let fitting = room_left.saturating_mul(done.leaves) / done.pairs.max(1);
    let most = (leaves.len() - done.leaves)
        .min(chunk)
        .min(ends_left)
        .min(fitting);
    leading_leaves(&leaves[done.leaves..done.leaves + most])
}

// Answers a batch of leaves as they come, which tells how many pairs lie over a leaf.
fn answer_sample<T: RangeTable, R: OfHeld>(
    table: &T,
    leaves: &[u64],
    ends: &mut [usize],
    out: &mut [R],
) -> Done
    ensures same { length out.new ≡ length out.old }
    ensures listed { length ends.new ≡ length ends.old }
    ensures answered { AreAnswered R.of (T.pairs table.now) leaves.now result.leaves ends.new out.new }
    ensures count { result.pairs ≡ length (over_first result.leaves leaves.now (T.pairs table.now)) }
    ensures room { result.pairs ≤ length out.old }
{
    let sample = &leaves[..leaves.len().min(BATCH)];
    let each = at_each(table, sample, ends, out);
    Done {
        leaves: each.answered,
        pairs: end_before(ends, each.answered),
    }
}

// Sorts so many leaves after those that are done, asks `at_each` for them, and copies the answers. It may answer fewer, as `copy_answers` says.
fn answer_chunk<T: RangeTable, R: OfHeld>(
    table: &T,
    leaves: &[u64],
    count: usize,
    buffers: &mut Buffers<R>,
    before: Done,
    ends: &mut [usize],
    out: &mut [R],
) -> Done
    requires listed { count ≤ length leaves.now - before.leaves }
    requires before { AreAnswered R.of (T.pairs table.now) leaves.now before.leaves ends.old out.old }
    requires count { before.pairs ≡ length (over_first before.leaves leaves.now (T.pairs table.now)) }
    requires room { before.pairs ≤ length out.old }
    ensures same { length out.new ≡ length out.old }
    ensures listed { length ends.new ≡ length ends.old }
    ensures answered { AreAnswered R.of (T.pairs table.now) leaves.now result.leaves ends.new out.new }
    ensures count { result.pairs ≡ length (over_first result.leaves leaves.now (T.pairs table.now)) }
    ensures room { result.pairs ≤ length out.old }
{
    let chunk = &leaves[before.leaves..before.leaves + count];
    let sorted_count = buffers.sorter.sort(chunk);
    let sorter = &buffers.sorter;
    let sorted = &sorter.leaves[..sorted_count.min(sorter.leaves.len())];
    let each = at_each(table, sorted, &mut buffers.ends, &mut buffers.items);
    let answered = Answered {
        leaves: sorted,
        count: each.answered,
        ends: &buffers.ends,
        items: &buffers.items,
    };
    let ranks = &sorter.ranks[..sorted_count.min(sorter.ranks.len())];
    copy_answers(table, leaves, &answered, ranks, before, ends, out)
}

// Answers leaves chunk by chunk, each sorted, after a batch as they come. It leaves all to its caller if they are few or the table is small,
// and the rest if the first chunk mostly rises or the buffers are refused. It ends after a chunk that isn't answered whole.
fn answer_in_order<T: RangeTable, R: OfHeld>(
    alloc: Global,
    table: &T,
    leaves: &[u64],
    ends: &mut [usize],
    out: &mut [R],
) -> Done
    ensures same { length out.new ≡ length out.old }
    ensures listed { length ends.new ≡ length ends.old }
    ensures answered { AreAnswered R.of (T.pairs table.now) leaves.now result.leaves ends.new out.new }
    ensures count { result.pairs ≡ length (over_first result.leaves leaves.now (T.pairs table.now)) }
    ensures room { result.pairs ≤ length out.old }
{
    if leaves.len() < MANY || table.range_count() < MANY_RANGES {
        return Done::NONE;
    }
    let chunk = (table.range_count() / RANGES_TO_LEAF)
        .max(LEAST_CHUNK)
        .min(MOST_SORTED);
    let mut done = answer_sample(table, leaves, ends, out);
    let mut count = next_count(leaves, chunk, done, ends, out);
    if count < LEAST_SORTED
        || mostly_rise(&leaves[done.leaves..done.leaves + count])
        || out.is_empty()
    {
        return done;
    }
    let Ok(mut buffers) = Buffers::for_leaves(alloc, count, done, out[0]) else {
        return done;
    };
    while count >= LEAST_SORTED {
        let next = answer_chunk(table, leaves, count, &mut buffers, done, ends, out);
        if next.leaves < done.leaves + count {
            return next;
        }
        done = next;
        count = next_count(leaves, chunk, done, ends, out);
    }
    done
}

/// Puts what lies over each of some leaves into `out`, as [`at_each`] does, and is quicker for thousands of leaves in no order over a table
/// that isn't small: it sorts them first. It doesn't if there are fewer than 4,096 leaves, or fewer than 1,024 ranges, or if the first leaves
/// mostly rise, or if more than 8 pairs lie over each on average. It sorts 8,192 leaves at once, or up to 65,536 over a large table, but no
/// more than `out` seems to have room for. For each of these it allocates 26 bytes, and room for 4 items and for twice as many as lie over
/// the first leaves; if this is refused, it sorts none. O(log n + k) for each leaf with k pairs over it, and as much for each that it has
/// sorted and then doesn't answer, since there is no room.
pub fn at_many<T: RangeTable, R: OfHeld>(
    alloc: Global,
    table: &T,
    leaves: &[u64],
    ends: &mut [usize],
    out: &mut [R],
) -> Each
    ensures answered { AreAnswered R.of (T.pairs table.now) leaves.now result.answered ends.new out.new }
    ensures all { result.stop ≡ EachStop.All → result.answered ≡ length leaves.now }
    ensures no_leaf { result.stop ≡ EachStop.NoLeaf → IsNoLeaf leaves.now result.answered }
    ensures no_room { result.stop ≡ EachStop.NoRoom → LacksRoom (T.pairs table.now) leaves.now result.answered ends.old out.old }
    ensures ends { length ends.new ≡ length ends.old }
    ensures out { length out.new ≡ length out.old }
{
    let done = answer_in_order(alloc, table, leaves, ends, out);
    answer_from(table, leaves, done, ends, out)
}
