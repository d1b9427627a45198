//! What lies over each of many leaves.
ghost use Rattle.std.specs.Prelude.{◌≡◌, ◌≤◌, ◌<◌, ◌+◌, ◌-◌, ◌++◌, ℕ, None, Some, IfSome, drop, length, map, take};
ghost use Rattle.s2id_core.specs.CellId.{level_of, raw_of};
ghost use Rattle.s2ix_bag_pairs.specs.Collection.{Collection};
ghost use Rattle.s2ix_table_walk.specs.Contents.{contents_at};
ghost use Rattle.s2ix_table_walk.specs.Links.{AreLinked};
ghost use Rattle.s2ix_table_walk.specs.Places.{IsPlace, from_place};
ghost use Rattle.s2ix_table_queries.specs.LeafContents.{AreContents};
ghost use Rattle.s2ix_table_queries.specs.ManyLeaves.{AreAnswered, AreOver, IsBatchAt, IsNoLeaf, LacksRoom, leaf_in, over_first};

use crate::bookmark::{BATCH, Bookmark};
use crate::leaf::leaf_of;
use crate::leaf_contents::LeafContents;
use crate::of_held::OfHeld;
use crate::table::RangeTable;
use s2id_core::CellId;
use s2ix_bag_held::FlatHeld;

/// How far [`at_each`] came.
#[derive(Clone, Copy, Debug, PartialEq, Eq)]
pub struct Each {
    /// How many leaves are answered: those at the front of the list.
    pub answered: usize,
    /// Why it answered no more leaves.
    pub stop: EachStop,
}

/// Why [`at_each`] ended.
#[derive(Clone, Copy, Debug, PartialEq, Eq)]
pub enum EachStop {
    /// All leaves are answered.
    All,
    /// The next number is no leaf's.
    NoLeaf,
    /// There is no room for what lies over the next leaf, or for its end.
    NoRoom,
}

// Puts the pairs of a chain that is kept in lists into a buffer, from a place of it on; returns where they end, or `None` if there is no room
// for them all.
#[inline(always)]
fn put_linked<R: OfHeld>(
    held: &[FlatHeld],
    outer: &[u32],
    first: u32,
    out: &mut [R],
    from: usize,
) -> Option<usize>
    requires lists { length outer.now ≡ length held.now }
    requires room { from ≤ length out.old }
    ensures same { length out.new ≡ length out.old }
    ensures before { take from out.new ≡ take from out.old }
    ensures end { (chain : ℕ → Collection) → AreLinked held.now outer.now chain
        → IfSome result (λ end. end ≡ from + length (chain first)) }
    ensures within { IfSome result (λ end. end ≤ length out.old) }
    ensures put { (chain : ℕ → Collection) → AreLinked held.now outer.now chain
        → IfSome result (λ end. take end out.new ≡ take from out.old ++ map R.of (chain first)) }
    ensures short { (chain : ℕ → Collection) → AreLinked held.now outer.now chain
        → result ≡ None → length out.old < from + length (chain first) }
{
    let mut at = from;
    let mut place = first as usize;
    while place < held.len() {
        if at >= out.len() {
            return None;
        }
        out[at] = R::of_held(held[place].held());
        at += 1;
        place = outer[place] as usize;
    }
    Some(at)
}

// Puts the pairs of a chain into a buffer, from a place of it on; returns where they end, or `None` if there is no room for them all.
#[inline]
fn put_chain<T: RangeTable, R: OfHeld>(
    table: &T,
    first: Option<T::Place>,
    out: &mut [R],
    from: usize,
) -> Option<usize>
    requires place { (p : T.Place) → first ≡ Some p → IsPlace (T.chain table.now) p }
    requires room { from ≤ length out.old }
    ensures same { length out.new ≡ length out.old }
    ensures before { take from out.new ≡ take from out.old }
    ensures end { IfSome result (λ end. end ≡ from + length (from_place (T.chain table.now) first)) }
    ensures within { IfSome result (λ end. end ≤ length out.old) }
    ensures put { IfSome result (λ end. take end out.new ≡ take from out.old ++ map R.of (from_place (T.chain table.now) first)) }
    ensures short { result ≡ None → length out.old < from + length (from_place (T.chain table.now) first) }
{
    let mut at = from;
    let mut next = first;
    while let Some(place) = next {
        if at >= out.len() {
            return None;
        }
        out[at] = R::of_held(table.held_at(place));
        at += 1;
        next = table.outer(place);
    }
    Some(at)
}

// Puts what lies over a leaf into a buffer, from a place of it on; returns where it ends, or `None` if there is no room for it all.
#[inline(always)]
fn put_leaf<T: RangeTable, R: OfHeld>(
    table: &T,
    contents: &LeafContents<'_, T::Place>,
    leaf: CellId,
    out: &mut [R],
    from: usize,
) -> Option<usize>
    requires contents { AreContents (T.chain table.now) (T.pairs table.now) contents.now.start contents.now.limit
        contents.now.held.now contents.now.outers.now contents.now.innermost contents.now.rest }
    requires leaf { level_of leaf ≡ 30 }
    requires from { contents.now.start ≤ raw_of leaf }
    requires limit { raw_of leaf < contents.now.limit }
    requires room { from ≤ length out.old }
    ensures same { length out.new ≡ length out.old }
    ensures before { take from out.new ≡ take from out.old }
    ensures end { IfSome result (λ end. end ≡ from + length (contents_at (raw_of leaf) (T.pairs table.now))) }
    ensures within { IfSome result (λ end. end ≤ length out.old) }
    ensures put { IfSome result (λ end. take end out.new ≡ take from out.old ++ map R.of (contents_at (raw_of leaf) (T.pairs table.now))) }
    ensures short { result ≡ None → length out.old < from + length (contents_at (raw_of leaf) (T.pairs table.now)) }
{
    let at = put_linked(
        contents.held,
        contents.outers,
        contents.innermost,
        out,
        from,
    )?;
    put_chain(table, contents.rest, out, at)
}

// Copies the items from one place on up to another behind themselves; returns where the copies end, or `None` if there is no room for them
// all.
#[inline(always)]
fn put_again<R: Copy>(out: &mut [R], from: usize, end: usize) -> Option<usize>
    requires order { from ≤ end }
    requires room { end ≤ length out.old }
    ensures same { length out.new ≡ length out.old }
    ensures none { result ≡ None → out.new ≡ out.old }
    ensures short { result ≡ None → length out.old < end + (end - from) }
    ensures end { IfSome result (λ after. after ≡ end + (end - from)) }
    ensures within { IfSome result (λ after. after ≤ length out.old) }
    ensures put { IfSome result (λ after. take after out.new ≡ take end out.old ++ drop from (take end out.old)) }
{
    let count = end - from;
    if count > out.len() - end {
        return None;
    }
    for k in 0..count {
        out[end + k] = out[from + k];
    }
    Some(end + count)
}

// The leaves of some numbers that follow one another in a list.
#[derive(Drop)]
struct Batch {
    leaves: [CellId; BATCH],
    count: usize,
}

// The leaves of the numbers from a place on: at most as many as a batch has, up to the first number that is no leaf's. `None` if that is
// the one at the place.
#[inline]
fn batch_at(numbers: &[u64], from: usize) -> Option<Batch>
    requires { from < length numbers.now }
    ensures batch { IfSome result (λ batch. IsBatchAt numbers.now from batch.leaves batch.count) }
    ensures some { IfSome result (λ batch. 0 < batch.count) }
    ensures none { result ≡ None → leaf_in numbers.now from ≡ None }
{
    let first = leaf_of(numbers[from])?;
    let mut leaves = [first; BATCH];
    let mut count = 1;
    while count < BATCH && count < numbers.len() - from {
        let Some(leaf) = leaf_of(numbers[from + count]) else {
            break;
        };
        leaves[count] = leaf;
        count += 1;
    }
    Some(Batch { leaves, count })
}

// How many leaves are answered, and how many pairs are put for these.
#[derive(Clone, Copy)]
pub(crate) struct Done {
    pub(crate) leaves: usize,
    pub(crate) pairs: usize,
}

impl Done {
    pub(crate) const NONE: Done = Done {
        leaves: 0,
        pairs: 0,
    };
}

// Answers the leaves from one on that lie in the span of contents, as `put_same` says. It is not inlined, so that the loop has the
// processor's registers for itself.
#[inline(never)]
fn put_run<T: RangeTable, R: OfHeld>(
    table: &T,
    contents: &LeafContents<'_, T::Place>,
    leaves: &[u64],
    from: usize,
    before: Done,
    ends: &mut [usize],
    out: &mut [R],
) -> Done
    requires before { AreAnswered R.of (T.pairs table.now) leaves.now before.leaves ends.old out.old }
    requires count { before.pairs ≡ length (over_first before.leaves leaves.now (T.pairs table.now)) }
    requires room { before.pairs ≤ length out.old }
    requires order { from ≤ before.pairs }
    requires over { AreOver R.of (T.pairs table.now) contents.now.start contents.now.limit (drop from (take before.pairs out.old)) }
    ensures same { length out.new ≡ length out.old }
    ensures listed { length ends.new ≡ length ends.old }
    ensures answered { AreAnswered R.of (T.pairs table.now) leaves.now result.leaves ends.new out.new }
    ensures count { result.pairs ≡ length (over_first result.leaves leaves.now (T.pairs table.now)) }
    ensures room { result.pairs ≤ length out.old }
    ensures more { before.leaves ≤ result.leaves }
{
    let mut last = from;
    let mut done = before;
    while done.leaves < leaves.len() && done.leaves < ends.len() {
        let number = leaves[done.leaves];
        if !contents.has_leaf(number) {
            return done;
        }
        let Some(_leaf) = leaf_of(number) else {
            return done;
        };
        let Some(after) = put_again(out, last, done.pairs) else {
            return done;
        };
        ends[done.leaves] = after;
        last = done.pairs;
        done = Done {
            leaves: done.leaves + 1,
            pairs: after,
        };
    }
    done
}

// Answers the leaves from one on that lie in the span of contents, as long as there is room. What lies over them is put already, for the leaf
// before them: it is what was put from the place `from` on. No clause says how many are answered: this only saves work.
#[inline(always)]
fn put_same<T: RangeTable, R: OfHeld>(
    table: &T,
    contents: &LeafContents<'_, T::Place>,
    leaves: &[u64],
    from: usize,
    before: Done,
    ends: &mut [usize],
    out: &mut [R],
) -> Done
    requires before { AreAnswered R.of (T.pairs table.now) leaves.now before.leaves ends.old out.old }
    requires count { before.pairs ≡ length (over_first before.leaves leaves.now (T.pairs table.now)) }
    requires room { before.pairs ≤ length out.old }
    requires order { from ≤ before.pairs }
    requires over { AreOver R.of (T.pairs table.now) contents.now.start contents.now.limit (drop from (take before.pairs out.old)) }
    ensures same { length out.new ≡ length out.old }
    ensures listed { length ends.new ≡ length ends.old }
    ensures answered { AreAnswered R.of (T.pairs table.now) leaves.now result.leaves ends.new out.new }
    ensures count { result.pairs ≡ length (over_first result.leaves leaves.now (T.pairs table.now)) }
    ensures room { result.pairs ≤ length out.old }
    ensures more { before.leaves ≤ result.leaves }
{
    if before.leaves < leaves.len() && contents.has_leaf(leaves[before.leaves]) {
        put_run(table, contents, leaves, from, before, ends, out)
    } else {
        before
    }
}

// Answers the leaves of a batch in order, as long as there is room, and those behind it that lie in the same span as its last one. `last` is
// the bookmark of the leaf that was answered last.
#[inline]
fn put_batch<T: RangeTable, R: OfHeld>(
    table: &T,
    leaves: &[u64],
    batch: &Batch,
    last: &mut Bookmark,
    before: Done,
    ends: &mut [usize],
    out: &mut [R],
) -> Done
    requires before { AreAnswered R.of (T.pairs table.now) leaves.now before.leaves ends.old out.old }
    requires count { before.pairs ≡ length (over_first before.leaves leaves.now (T.pairs table.now)) }
    requires room { before.pairs ≤ length out.old }
    requires batch { IsBatchAt leaves.now before.leaves batch.now.leaves batch.now.count }
    ensures same { length out.new ≡ length out.old }
    ensures listed { length ends.new ≡ length ends.old }
    ensures answered { AreAnswered R.of (T.pairs table.now) leaves.now result.leaves ends.new out.new }
    ensures count { result.pairs ≡ length (over_first result.leaves leaves.now (T.pairs table.now)) }
    ensures room { result.pairs ≤ length out.old }
    ensures short { result.leaves < before.leaves + batch.now.count
        → LacksRoom (T.pairs table.now) leaves.now result.leaves ends.old out.old }
{
    let mut bookmarks = [Bookmark::none(); BATCH];
    let count = batch.count.min(ends.len() - before.leaves);
    let has_looked = table.look_for(&batch.leaves[..count], &mut bookmarks);
    let mut done = before;
    for k in 0..batch.count {
        if before.leaves + k < done.leaves {
            continue;
        }
        let leaf = batch.leaves[k];
        if done.leaves >= ends.len() {
            return done;
        }
        let bookmark = if has_looked { bookmarks[k] } else { *last };
        let contents = table.contents_near(leaf, bookmark);
        *last = contents.bookmark;
        let from = done.pairs;
        let Some(end) = put_leaf(table, &contents, leaf, out, from) else {
            return done;
        };
        ends[done.leaves] = end;
        let next = Done {
            leaves: done.leaves + 1,
            pairs: end,
        };
        done = put_same(table, &contents, leaves, from, next, ends, out);
    }
    done
}

// Answers the leaves after those that are done, as `at_each` says.
pub(crate) fn answer_from<T: RangeTable, R: OfHeld>(
    table: &T,
    leaves: &[u64],
    before: Done,
    ends: &mut [usize],
    out: &mut [R],
) -> Each
    requires before { AreAnswered R.of (T.pairs table.now) leaves.now before.leaves ends.old out.old }
    requires count { before.pairs ≡ length (over_first before.leaves leaves.now (T.pairs table.now)) }
    requires room { before.pairs ≤ length out.old }
    ensures answered { AreAnswered R.of (T.pairs table.now) leaves.now result.answered ends.new out.new }
    ensures all { result.stop ≡ EachStop.All → result.answered ≡ length leaves.now }
    ensures no_leaf { result.stop ≡ EachStop.NoLeaf → IsNoLeaf leaves.now result.answered }
    ensures no_room { result.stop ≡ EachStop.NoRoom → LacksRoom (T.pairs table.now) leaves.now result.answered ends.old out.old }
    ensures ends { length ends.new ≡ length ends.old }
    ensures out { length out.new ≡ length out.old }
{
    let mut last = Bookmark::none();
    let mut done = before;
    while done.leaves < leaves.len() {
        let Some(batch) = batch_at(leaves, done.leaves) else {
            return Each {
                answered: done.leaves,
                stop: EachStop::NoLeaf,
            };
        };
        let next = done.leaves + batch.count;
        done = put_batch(table, leaves, &batch, &mut last, done, ends, out);
        if done.leaves < next {
            return Each {
                answered: done.leaves,
                stop: EachStop::NoRoom,
            };
        }
    }
    Each {
        answered: done.leaves,
        stop: EachStop::All,
    }
}

/// Puts what lies over each of some leaves into `out`: what [`chain_at`](crate::chain_at) gives for the first leaf, then for the next, and so
/// on. `ends[k]` gets how many pairs are put for `leaves[k]` and all leaves before it. The leaves are given by their numbers, in any order,
/// repeated or not. It answers leaves up to the first number that is no leaf's, or as many as both buffers have room for; past the answers
/// both buffers may be overwritten. It does not allocate. O(log n + k) for each leaf with k pairs over it, and O(log n) for each of at most
/// 63 more that it looks for before room ends; leaves that rise are quickest.
pub fn at_each<T: RangeTable, R: OfHeld>(
    table: &T,
    leaves: &[u64],
    ends: &mut [usize],
    out: &mut [R],
) -> Each
    ensures answered { AreAnswered R.of (T.pairs table.now) leaves.now result.answered ends.new out.new }
    ensures all { result.stop ≡ EachStop.All → result.answered ≡ length leaves.now }
    ensures no_leaf { result.stop ≡ EachStop.NoLeaf → IsNoLeaf leaves.now result.answered }
    ensures no_room { result.stop ≡ EachStop.NoRoom → LacksRoom (T.pairs table.now) leaves.now result.answered ends.old out.old }
    ensures ends { length ends.new ≡ length ends.old }
    ensures out { length out.new ≡ length out.old }
{
    answer_from(table, leaves, Done::NONE, ends, out)
}
