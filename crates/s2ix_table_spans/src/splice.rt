//! A table after a change, of the one before it: only the leaves of one cell are swept.
ghost use Rattle.std.specs.Prelude.{◌≡◌, ◌⊎◌, ◌+◌, ◌-◌, ◌<◌, ◌≤◌, ◌++◌, IfOk, IfSome, OnOk, Contains, length, take, drop, map};
ghost use Rattle.s2ix_bag_pairs.specs.Collection.{IsCollection};
ghost use Rattle.s2ix_table_spans.specs.Blocks.{HoldsCell, IsBeside, IsBlockAt, AreOverCell, IsExchange, around, moved, placed, joined_places};
ghost use Rattle.s2ix_table_spans.specs.Chains.{chain_of};
ghost use Rattle.s2ix_table_spans.specs.Nodes.{AreNodes};
ghost use Rattle.s2ix_table_spans.specs.SpanTable.{IsInSpan};
ghost use Rattle.s2ix_table_walk.specs.Stretches.{IsSample};

use crate::block::{Block, Common, block_of, in_common};
use crate::nodes::Nodes;
use crate::places::last_start;
use s2id_core::{CellId, OutOfMemory};
use s2ix_bag_held::FlatHeld;
use std::alloc::Global;

// What a table keeps of its pairs over the leaves from one number up to another.
#[derive(Clone, Copy)]
pub(crate) struct Before<'a> {
    pub(crate) held: &'a [FlatHeld],
    pub(crate) outer: &'a [u32],
    pub(crate) starts: &'a [u64],
    pub(crate) firsts: &'a [u32],
    pub(crate) sample: &'a [u64],
    pub(crate) from: u64,
    pub(crate) to: u64,
}

// The ranges over a cell: those from the place `first` on, up to and without `last`.
#[derive(Clone, Copy)]
struct CellRanges {
    first: usize,
    last: usize,
}

impl Before<'_> {
    // The block in which new pairs differ from the table's: that of the innermost cell over the first change that both lists hold and that
    // has all changes.
    pub(crate) fn changed_block(self, next: &[FlatHeld]) -> Option<Block>
        requires nodes { AreNodes self.held.now self.from self.to self.outer.now self.starts.now self.firsts.now }
        requires sample { IsSample (length self.starts.now - 2) (drop 1 self.starts.now) self.sample.now }
        requires rises { IsCollection next.now }
        requires span { IsInSpan next.now self.from self.to }
        ensures block { IfSome result (λ block. IsExchange self.entry.held.now next.now block.cell block.start block.old block.new) }
        ensures count { IfSome result (λ block. block.count ≡ length self.entry.held.now) }
    {
        let common = in_common(self.held, next);
        let changed = first_change(self.held, next, common)?;
        let range = last_start(self.starts, self.sample, changed.cell().span_start());
        let mut place = self.firsts[range] as usize;
        while place < self.held.len() {
            if let Some(own) = place_in_next(self.held, next, common, place) {
                if let Some(block) = block_of(self.held, next, common, place, own) {
                    return Some(block);
                }
            }
            place = self.outer[place] as usize;
        }
        None
    }

    // What a table keeps of new pairs: beside the block places are moved, and the leaves of its cell are swept. What leads out of the
    // block leads to the innermost pair around it.
    pub(crate) fn spliced(
        self,
        alloc: Global,
        next: &[FlatHeld],
        block: Block,
    ) -> Result<Nodes, OutOfMemory>
        requires nodes { AreNodes self.held.now self.from self.to self.outer.now self.starts.now self.firsts.now }
        requires sample { IsSample (length self.starts.now - 2) (drop 1 self.starts.now) self.sample.now }
        requires rises { IsCollection next.now }
        requires within_limit { length next.now ≤ 1000000 }
        requires span { IsInSpan next.now self.from self.to }
        requires block { IsExchange self.held.now next.now block.cell block.start block.old block.new }
        requires count { block.count ≡ length self.held.now }
        ensures { IfOk result (λ nodes. AreNodes next.now self.entry.from self.entry.to nodes.outer.items nodes.starts.items nodes.firsts.items) }
    {
        let pairs = &next[block.start..block.start + block.new];
        let own = Nodes::with_room(alloc, pairs, block.cell.span_start(), block.cell.span_end())?;
        let base = block.moved(self.base(block));
        let ranges = self.ranges_over(block.cell);
        self.joined(alloc, block, base, ranges, &own)
    }

    // The place of the innermost pair around a block.
    fn base(self, block: Block) -> u32
        requires nodes { AreNodes self.held.now self.from self.to self.outer.now self.starts.now self.firsts.now }
        requires fits { block.start + block.old ≤ length self.held.now }
        requires some { 0 < block.old }
        requires block { IsBlockAt self.held.now block.cell block.start block.old }
        ensures around { chain_of self.entry.held.now result
            ≡ around block.cell (take block.start self.entry.held.now) (drop (block.start + block.old) self.entry.held.now) }
        ensures beside { IsBeside block.start block.old result }
    {
        let mut place = block.start as u32;
        while block.has(place) {
            place = self.outer[place as usize];
        }
        place
    }

    // The ranges over a cell that is held.
    fn ranges_over(self, cell: CellId) -> CellRanges
        requires nodes { AreNodes self.held.now self.from self.to self.outer.now self.starts.now self.firsts.now }
        requires sample { IsSample (length self.starts.now - 2) (drop 1 self.starts.now) self.sample.now }
        requires holds { HoldsCell self.held.now cell }
        ensures { AreOverCell self.entry.starts.now cell self.entry.to result.first result.last }
    {
        let first = last_start(self.starts, self.sample, cell.span_start());
        let end = cell.span_end();
        let last = if end < self.to {
            last_start(self.starts, self.sample, end)
        } else {
            self.starts.len()
        };
        CellRanges { first, last }
    }

    // The lists beside a block and those of the block itself, put together.
    fn joined(
        self,
        alloc: Global,
        block: Block,
        base: u32,
        ranges: CellRanges,
        own: &Nodes,
    ) -> Result<Nodes, OutOfMemory>
        requires within_limit { block.count ≤ 1000000 }
        requires new_within_limit { block.new ≤ 1000000 }
        requires fits { block.start + block.old ≤ block.count }
        requires outer { length self.outer.now ≡ block.count }
        requires starts { length self.starts.now ≤ 2000001 }
        requires firsts { length self.firsts.now ≡ length self.starts.now }
        requires own_outer { length own.now.outer.items ≤ 1000000 }
        requires own_starts { length own.now.starts.items ≤ 2000001 }
        requires own_firsts { length own.now.firsts.items ≤ 2000001 }
        requires rises { ranges.first ≤ ranges.last }
        requires within { ranges.last ≤ length self.starts.now }
        ensures outer { IfOk result (λ nodes. nodes.outer.items ≡ joined_places block.start block.old block.new block.count base
            (take block.start self.entry.outer.now) own.now.outer.items (drop (block.start + block.old) self.entry.outer.now)) }
        ensures starts { IfOk result (λ nodes. nodes.starts.items
            ≡ take ranges.first self.entry.starts.now ++ (own.now.starts.items ++ drop ranges.last self.entry.starts.now)) }
        ensures firsts { IfOk result (λ nodes. nodes.firsts.items ≡ joined_places block.start block.old block.new block.count base
            (take ranges.first self.entry.firsts.now) own.now.firsts.items (drop ranges.last self.entry.firsts.now)) }
    {
        let (front, _) = self.outer.split_at(block.start);
        let (_, after) = self.outer.split_at(block.start + block.old);
        let outer = joined_places(alloc, block, base, front, own.outer.as_slice(), after)?;
        let (front, _) = self.firsts.split_at(ranges.first);
        let (_, after) = self.firsts.split_at(ranges.last);
        let firsts = joined_places(alloc, block, base, front, own.firsts.as_slice(), after)?;
        let (front, _) = self.starts.split_at(ranges.first);
        let (_, after) = self.starts.split_at(ranges.last);
        let starts = joined_starts(alloc, front, own.starts.as_slice(), after)?;
        Ok(Nodes {
            outer,
            starts,
            firsts,
        })
    }
}

// The place among new pairs of a table's pair that both have in common.
fn place_in_next(
    held: &[FlatHeld],
    next: &[FlatHeld],
    common: Common,
    place: usize,
) -> Option<usize>
    requires held { common.front + common.end ≤ length held.now }
    requires next { common.front + common.end ≤ length next.now }
    requires place { place < length held.now }
    ensures { IfSome result (λ own. own < length next.now) }
{
    if place < common.front {
        return Some(place);
    }
    if place < held.len() - common.end {
        return None;
    }
    Some(place + next.len() - held.len())
}

// The first pair that two lists don't have in common, if there is one.
fn first_change(held: &[FlatHeld], next: &[FlatHeld], common: Common) -> Option<FlatHeld>
    requires held { common.front + common.end ≤ length held.now }
    requires next { common.front + common.end ≤ length next.now }
    ensures { IfSome result (λ h. Contains held.now h ⊎ Contains next.now h) }
{
    let unlike = common.front + common.end;
    if unlike < next.len() {
        Some(next[common.front])
    } else if unlike < held.len() {
        Some(held[common.front])
    } else {
        None
    }
}

// The places beside a block, each where it is now, around those of the block itself.
fn joined_places(
    alloc: Global,
    block: Block,
    base: u32,
    front: &[u32],
    own: &[u32],
    after: &[u32],
) -> Result<Vec<u32>, OutOfMemory>
    requires fits { block.start + block.old ≤ block.count }
    requires within_limit { block.count ≤ 1000000 }
    requires new_within_limit { block.new ≤ 1000000 }
    requires room { length front.now + length own.now + length after.now ≤ 10000000 }
    ensures { IfOk result (λ places. places.items
        ≡ joined_places block.start block.old block.new block.count base front.now own.now after.now) }
{
    let mut places = Vec::with_capacity(alloc, front.len() + own.len() + after.len())?;
    push_moved(&mut places, block, front)?;
    push_placed(&mut places, block, base, own)?;
    push_moved(&mut places, block, after)?;
    Ok(places)
}

// Appends places beside a block, each where it is now.
fn push_moved(places: &mut Vec<u32>, block: Block, beside: &[u32]) -> Result<(), OutOfMemory>
    requires fits { block.start + block.old ≤ block.count }
    requires within_limit { block.count ≤ 1000000 }
    requires new_within_limit { block.new ≤ 1000000 }
    ensures { OnOk result (places.new.items ≡ places.old.items ++ map (moved block.start block.old block.new block.count) beside.now) }
{
    let first = places.len();
    places.extend_from_slice(beside)?;
    move_all(&mut places[first..], block);
    Ok(())
}

// Moves places beside a block to where each is now.
fn move_all(places: &mut [u32], block: Block)
    requires fits { block.start + block.old ≤ block.count }
    requires within_limit { block.count ≤ 1000000 }
    requires new_within_limit { block.new ≤ 1000000 }
    ensures { places.new ≡ map (moved block.start block.old block.new block.count) places.old }
{
    for place in places.iter_mut() {
        *place = block.moved(*place);
    }
}

// Appends the places of a block among all pairs.
fn push_placed(
    places: &mut Vec<u32>,
    block: Block,
    base: u32,
    own: &[u32],
) -> Result<(), OutOfMemory>
    requires within_limit { block.start ≤ 1000000 }
    requires new_within_limit { block.new ≤ 1000000 }
    ensures { OnOk result (places.new.items ≡ places.old.items ++ map (placed block.start block.new base) own.now) }
{
    let first = places.len();
    places.extend_from_slice(own)?;
    place_all(&mut places[first..], block, base);
    Ok(())
}

// Moves places among the new pairs of a block to where each is among all pairs.
fn place_all(places: &mut [u32], block: Block, base: u32)
    requires within_limit { block.start ≤ 1000000 }
    requires new_within_limit { block.new ≤ 1000000 }
    ensures { places.new ≡ map (placed block.start block.new base) places.old }
{
    for place in places.iter_mut() {
        *place = block.placed(*place, base);
    }
}

// Three lists of starts, one after the other.
fn joined_starts(
    alloc: Global,
    front: &[u64],
    own: &[u64],
    after: &[u64],
) -> Result<Vec<u64>, OutOfMemory>
    requires { length front.now + length own.now + length after.now ≤ 10000000 }
    ensures { IfOk result (λ starts. starts.items ≡ front.now ++ (own.now ++ after.now)) }
{
    let mut starts = Vec::with_capacity(alloc, front.len() + own.len() + after.len())?;
    starts.extend_from_slice(front)?;
    starts.extend_from_slice(own)?;
    starts.extend_from_slice(after)?;
    Ok(starts)
}
