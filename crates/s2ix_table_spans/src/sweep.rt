//! The sweep over the starts and ends of held cells, which makes ranges and chains.
ghost use Rattle.std.specs.Prelude.{◌≡◌, ◌<◌, ◌≤◌, ◌+◌, length, IfOk};
ghost use Rattle.s2ix_bag_pairs.specs.Collection.{IsCollection};
ghost use Rattle.s2ix_table_spans.specs.Order.{IsSweepOrder, ArePlaces};
ghost use Rattle.s2ix_table_spans.specs.SpanTable.{IsInSpan};
ghost use Rattle.s2ix_table_spans.specs.Sweep.{IsFresh, IsSwept, start_at, last_at};

use crate::pass::{Frontier, Pass};
use s2id_core::OutOfMemory;
use s2ix_bag_held::FlatHeld;
use std::alloc::Global;

// The sweep over the leaves from one number up to another, with room for what it writes.
pub(crate) fn sweep_span(
    alloc: Global,
    held: &[FlatHeld],
    order: &[u32],
    stack: &mut [u64],
    from: u64,
    to: u64,
) -> Result<Pass, OutOfMemory>
    requires rises { IsCollection held.now }
    requires within_limit { length held.now ≤ 1000000 }
    requires order { IsSweepOrder held.now order.now }
    requires span { IsInSpan held.now from to }
    requires room { length stack.old ≡ length held.now + 1 }
    ensures { IfOk result (λ pass. IsSwept held.now from to pass) }
{
    let len = held.len();
    let room = 2 * len + 1;
    let outer = Vec::from_elem(alloc, len as u32, len)?;
    let starts = Vec::from_elem(alloc, from, room)?;
    let firsts = Vec::from_elem(alloc, len as u32, room)?;
    let mut pass = Pass {
        outer,
        starts,
        firsts,
        frontier: Frontier {
            count: 0,
            at: from,
            top: len as u32,
        },
    };
    sweep(held, order, &mut pass, stack, to);
    Ok(pass)
}

// Goes over the leaves up to `to`: a cell is taken off where it ends, and put on where it begins. The last numbers in the open cells are
// kept beside the chain, after one that stands for none: no bound lies after it.
fn sweep(held: &[FlatHeld], order: &[u32], pass: &mut Pass, lasts: &mut [u64], to: u64)
    requires rises { IsCollection held.now }
    requires within_limit { length held.now ≤ 1000000 }
    requires order { IsSweepOrder held.now order.now }
    requires span { IsInSpan held.now pass.old.frontier.at to }
    requires fresh { IsFresh held.now pass.old }
    requires room { length lasts.old ≡ length held.now + 1 }
    ensures { IsSwept held.now pass.old.frontier.at to pass.new }
{
    lasts[0] = u64::MAX;
    let mut frontier = pass.frontier;
    let mut depth = 0;
    let mut k = 0;
    loop {
        let bound = next_start(held, order, k, to);
        while lasts[depth] < bound {
            frontier = pass.write_until(frontier, lasts[depth] + 1);
            frontier.top = pass.outer[frontier.top as usize];
            depth -= 1;
        }
        frontier = pass.write_until(frontier, bound);
        if k >= order.len() {
            pass.frontier = frontier;
            return;
        }
        let place = order[k];
        pass.outer[place as usize] = frontier.top;
        frontier.top = place;
        depth += 1;
        lasts[depth] = last_in(held, place);
        k += 1;
    }
}

// Where the k-th cell of the sweep begins, and if all have begun, the end of the span.
fn next_start(held: &[FlatHeld], order: &[u32], k: usize, to: u64) -> u64
    requires { ArePlaces held.now order.now }
    ensures { result ≡ start_at held.now order.now to k }
{
    if k < order.len() {
        held[order[k] as usize].cell().span_start()
    } else {
        to
    }
}

// The last number in the cell of a place.
fn last_in(held: &[FlatHeld], place: u32) -> u64
    requires { place < length held.now }
    ensures { result ≡ last_at held.now place }
{
    held[place as usize].cell().span_end() - 1
}
