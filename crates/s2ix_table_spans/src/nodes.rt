//! What a table keeps beside its pairs.
ghost use Rattle.std.specs.Prelude.{◌≡◌, ◌≤◌, length, take, IfOk};
ghost use Rattle.s2ix_bag_pairs.specs.Collection.{IsCollection};
ghost use Rattle.s2ix_table_spans.specs.Nodes.{AreNodes};
ghost use Rattle.s2ix_table_spans.specs.SpanTable.{IsInSpan};

use crate::order::sweep_order;
use crate::sweep::sweep_span;
use s2id_core::OutOfMemory;
use s2ix_bag_held::FlatHeld;
use std::alloc::Global;

// Where each pair leads outwards, the starts of the ranges, and beside each start the place of its innermost pair.
#[derive(Drop)]
pub(crate) struct Nodes {
    pub(crate) outer: Vec<u32>,
    pub(crate) starts: Vec<u64>,
    pub(crate) firsts: Vec<u32>,
}

impl Nodes {
    // Those of pairs over the leaves from one number up to another, by a sweep, in lists that have room for no more. The sweep's own lists are
    // given back whole: if they shrank in place, they would leave gaps in memory into which few lists fit. O(n) for n pairs. `OutOfMemory` if
    // a growth is refused.
    pub(crate) fn over(
        alloc: Global,
        pairs: &[FlatHeld],
        from: u64,
        to: u64,
    ) -> Result<Nodes, OutOfMemory>
        requires rises { IsCollection pairs.now }
        requires within_limit { length pairs.now ≤ 1000000 }
        requires span { IsInSpan pairs.now from to }
        ensures { IfOk result (λ nodes. AreNodes pairs.now from to nodes.outer.items nodes.starts.items nodes.firsts.items) }
    {
        let Nodes {
            outer,
            starts,
            firsts,
        } = Nodes::with_room(alloc, pairs, from, to)?;
        Ok(Nodes {
            outer,
            starts: Vec::from_slice(alloc, &starts)?,
            firsts: Vec::from_slice(alloc, &firsts)?,
        })
    }

    // The same in lists that have room for the most ranges that there could be, for a caller that soon lets them go.
    pub(crate) fn with_room(
        alloc: Global,
        pairs: &[FlatHeld],
        from: u64,
        to: u64,
    ) -> Result<Nodes, OutOfMemory>
        requires rises { IsCollection pairs.now }
        requires within_limit { length pairs.now ≤ 1000000 }
        requires span { IsInSpan pairs.now from to }
        ensures { IfOk result (λ nodes. AreNodes pairs.now from to nodes.outer.items nodes.starts.items nodes.firsts.items) }
    {
        let mut stack = Vec::from_elem(alloc, 0, pairs.len() + 1)?;
        let order = sweep_order(alloc, pairs, stack.as_mut_slice())?;
        let pass = sweep_span(
            alloc,
            pairs,
            order.as_slice(),
            stack.as_mut_slice(),
            from,
            to,
        )?;
        let starts = first_ones(pass.starts, pass.frontier.count);
        let firsts = first_ones(pass.firsts, pass.frontier.count);
        Ok(Nodes {
            outer: pass.outer,
            starts,
            firsts,
        })
    }
}

// The first elements of a list, in its own room.
fn first_ones<T: Drop>(mut list: Vec<T>, len: usize) -> Vec<T>
    ensures { result.items ≡ take len list.items }
{
    list.truncate(len);
    list
}
