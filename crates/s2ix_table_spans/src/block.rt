//! The block of pairs in which a new list of pairs differs from a table's.
ghost use Rattle.std.specs.Prelude.{◌≡◌, ◌⊎◌, ◌+◌, ◌-◌, ◌<◌, ◌≤◌, IsTrue, IfSome, Contains, length, take, drop};
ghost use Rattle.s2id_core.specs.CellId.{raw_of, first_of, end_of};
ghost use Rattle.s2ix_bag_pairs.specs.Collection.{IsCollection};
ghost use Rattle.s2ix_bag_pairs.specs.declared.pair.Held.{Held};
ghost use Rattle.s2ix_table_spans.specs.Blocks.{AreWithin, IsBeside, IsExchange, moved, placed};

use s2id_core::CellId;
use s2ix_bag_held::FlatHeld;

// The pairs within a cell: `old` of a table's `count` pairs, from the place `start` on, and `new` ones that are to stand there.
#[derive(Clone, Copy)]
pub(crate) struct Block {
    pub(crate) cell: CellId,
    pub(crate) start: usize,
    pub(crate) old: usize,
    pub(crate) new: usize,
    pub(crate) count: usize,
}

impl Block {
    // Whether a place is one of the table's block.
    #[inline]
    pub(crate) fn has(self, place: u32) -> bool
        requires { self.start + self.old ≤ 1000000 }
        ensures has { IsTrue result → (self.start ≤ place) × (place < self.start + self.old) }
        ensures beside { IsBeside self.start self.old place ⊎ IsTrue result }
    {
        let place = place as usize;
        self.start <= place && place < self.start + self.old
    }

    // Where a place beside the block is once the new pairs stand there. What is after all places stays so. All numbers have 32 bits, so that
    // the processor moves four places at once.
    #[inline]
    pub(crate) fn moved(self, place: u32) -> u32
        requires fits { self.start + self.old ≤ self.count }
        requires within_limit { self.count ≤ 1000000 }
        requires new_within_limit { self.new ≤ 1000000 }
        ensures { result ≡ moved self.start self.old self.new self.count place }
    {
        if place < self.start as u32 {
            place
        } else {
            place.min(self.count as u32).saturating_sub(self.old as u32) + self.new as u32
        }
    }

    // Where a place among the new pairs is among all pairs, or a base if it is none of these.
    #[inline]
    pub(crate) fn placed(self, place: u32, base: u32) -> u32
        requires within_limit { self.start ≤ 1000000 }
        requires new_within_limit { self.new ≤ 1000000 }
        ensures { result ≡ placed self.start self.new base place }
    {
        if place < self.new as u32 {
            self.start as u32 + place
        } else {
            base
        }
    }
}

// How much two lists have in common: as many pairs in front, and as many at the end.
#[derive(Clone, Copy)]
pub(crate) struct Common {
    pub(crate) front: usize,
    pub(crate) end: usize,
}

// What a table's pairs and new ones have in common. O(n).
pub(crate) fn in_common(held: &[FlatHeld], next: &[FlatHeld]) -> Common
    ensures held { result.front + result.end ≤ length held.now }
    ensures next { result.front + result.end ≤ length next.now }
    ensures front { take result.front next.now ≡ take result.front held.now }
    ensures end { drop (length next.now - result.end) next.now ≡ drop (length held.now - result.end) held.now }
{
    let front = common_front(held, next);
    let end = common_end(held, next, front);
    Common { front, end }
}

// Whether two pairs are the same, with the same count.
#[inline]
fn is_same(one: FlatHeld, other: FlatHeld) -> bool
    ensures { IsTrue result → one ≡ other }
{
    one.held() == other.held()
}

// How many pairs are the same in front.
fn common_front(held: &[FlatHeld], next: &[FlatHeld]) -> usize
    ensures held { result ≤ length held.now }
    ensures next { result ≤ length next.now }
    ensures same { take result next.now ≡ take result held.now }
{
    let most = held.len().min(next.len());
    let mut front = 0;
    while front < most && is_same(held[front], next[front]) {
        front += 1;
    }
    front
}

// How many pairs are the same at the end, of those after the first ones.
fn common_end(held: &[FlatHeld], next: &[FlatHeld], front: usize) -> usize
    requires held { front ≤ length held.now }
    requires next { front ≤ length next.now }
    ensures held { front + result ≤ length held.now }
    ensures next { front + result ≤ length next.now }
    ensures same { drop (length next.now - result) next.now ≡ drop (length held.now - result) held.now }
{
    let most = held.len().min(next.len()) - front;
    let mut end = 0;
    while end < most && is_same(held[held.len() - 1 - end], next[next.len() - 1 - end]) {
        end += 1;
    }
    end
}

// The block of the cell of a table's pair, if all that the lists don't have in common is within that cell and the new list holds it too.
// O(log n).
pub(crate) fn block_of(
    held: &[FlatHeld],
    next: &[FlatHeld],
    common: Common,
    place: usize,
    own: usize,
) -> Option<Block>
    requires rises { IsCollection held.now }
    requires next_rises { IsCollection next.now }
    requires held { common.front + common.end ≤ length held.now }
    requires next { common.front + common.end ≤ length next.now }
    requires front { take common.front next.now ≡ take common.front held.now }
    requires end { drop (length next.now - common.end) next.now ≡ drop (length held.now - common.end) held.now }
    requires place { place < length held.now }
    requires own { own < length next.now }
    ensures block { IfSome result (λ block. IsExchange held.now next.now block.cell block.start block.old block.new) }
    ensures count { IfSome result (λ block. block.count ≡ length held.now) }
{
    let cell = held[place].cell();
    if next[own].cell() != cell {
        return None;
    }
    if !has_changes(held, next, common, cell) {
        return None;
    }
    let end = held.len() - common.end;
    let start = lesser_count(&held[..common.front], cell.span_start());
    let after = common.end - lesser_count(&held[end..], cell.span_end() - 1);
    let block = Block {
        cell,
        start,
        old: held.len() - after - start,
        new: next.len() - after - start,
        count: held.len(),
    };
    if !are_within(&held[start..start + block.old], cell) {
        return None;
    }
    if !are_within(&next[start..start + block.new], cell) {
        return None;
    }
    Some(block)
}

// Whether all that two lists don't have in common is within a cell. O(1).
#[inline]
fn has_changes(held: &[FlatHeld], next: &[FlatHeld], common: Common, cell: CellId) -> bool
    requires rises { IsCollection held.now }
    requires next_rises { IsCollection next.now }
    requires held { common.front + common.end ≤ length held.now }
    requires next { common.front + common.end ≤ length next.now }
    ensures old { IsTrue result → AreWithin cell (take (length held.now - common.end - common.front) (drop common.front held.now)) }
    ensures new { IsTrue result → AreWithin cell (take (length next.now - common.end - common.front) (drop common.front next.now)) }
{
    are_within(&held[common.front..held.len() - common.end], cell)
        && are_within(&next[common.front..next.len() - common.end], cell)
}

// How many of rising pairs have cells with a lesser number. O(log n).
fn lesser_count(pairs: &[FlatHeld], number: u64) -> usize
    requires rises { IsCollection pairs.now }
    ensures within { result ≤ length pairs.now }
    ensures lesser { (h : Held) → Contains (take result pairs.now) h → raw_of h.pair.cell < number }
    ensures rest { (h : Held) → Contains (drop result pairs.now) h → number ≤ raw_of h.pair.cell }
{
    pairs.partition_point(|h| h.cell().raw() < number)
}

// Whether rising pairs lie within a cell, by the first and the last one.
fn are_within(pairs: &[FlatHeld], cell: CellId) -> bool
    requires rises { IsCollection pairs.now }
    ensures from { IsTrue result → (h : Held) → Contains pairs.now h → first_of cell ≤ raw_of h.pair.cell }
    ensures to { IsTrue result → (h : Held) → Contains pairs.now h → raw_of h.pair.cell + 1 < end_of cell }
{
    if pairs.is_empty() {
        return true;
    }
    cell.span_start() <= pairs[0].cell().raw()
        && pairs[pairs.len() - 1].cell().raw() < cell.span_end() - 1
}
