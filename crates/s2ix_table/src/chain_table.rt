ghost use Rattle.s2ix_table_walk.specs.Shown.{one_border};
ghost use Rattle.std.specs.Prelude.{◌≡◌, ◌≤◌, IfOk, length};
ghost use Rattle.s2ix_bag_pairs.specs.Collection.{IsCollection};
ghost use Rattle.s2ix_bag_pairs.specs.OneProof.{IsCollection-prop};
ghost use Rattle.s2ix_table_walk.specs.Table.{IsRangeTable, leaf_end};
ghost use Rattle.s2ix_table_spans.specs.Chains.{chain_of};
ghost use Rattle.s2ix_table_spans.specs.Once.{KeepsOnce};
ghost use Rattle.s2ix_table_spans.specs.OneProof.{chains_once-prop};

use s2id_core::{CellId, LEAF_END, OutOfMemory};
use s2ix_bag_changes::Bag;
use s2ix_bag_held::HeldList;
use s2ix_bag_pairs::Held;
use s2ix_table_faced::SharesChains;
use s2ix_table_queries::{Bookmark, LeafContents, RangeTable};
use s2ix_table_spans::SpanTable;
use s2ix_table_walk::RangeRow;
use std::alloc::Global;

/// A range table that keeps one node for each held pair: the pair, and the place of the next one outwards. Each range has the place of its
/// innermost pair, so ranges share their chains (S2's `S2CellIndex`, its cell tree). Building takes O(n) for n pairs.
#[derive(Debug, Drop)]
pub struct ChainTable {
    pub(crate) span: SpanTable,
    ghost rises: { IsCollection span.held } by { IsCollection-prop 0 span.held },
    ghost within_limit: { length span.held ≤ 1000000 },
    ghost begins: { span.from ≡ 1 },
    ghost ends: { span.to ≡ leaf_end },
    ghost table: { IsRangeTable span.held span.ranges },
    ghost once: { KeepsOnce (chain_of span.held) } by { chains_once-prop span.held },
}

// What a bag holds, in its order. O(n) for n pairs.
fn flat_pairs(alloc: Global, bag: &Bag) -> Result<HeldList, OutOfMemory>
    ensures list { IfOk result (λ held. held ≡ bag.now.held) }
    ensures rises { IfOk result (λ held. IsCollection held) }
    ensures within_limit { IfOk result (λ held. length held ≤ 1000000) }
{
    HeldList::new(alloc, bag.flat(alloc)?)
}

impl RangeTable for ChainTable {
    type Place = u32;

    ghost pairs = { λ t. t.span.held };

    ghost ranges = { λ t. t.span.ranges };

    ghost chain = { λ t p. chain_of t.span.held p };

    ghost is_collection = { λ t. t.rises };

    ghost is_table = { λ t. t.table };

    ghost are_borders = { λ t. one_border t.table.some };

    ghost within_limit = { λ t. t.within_limit };

    fn build(alloc: Global, bag: &Bag) -> Result<Self, OutOfMemory> {
        let held = flat_pairs(alloc, bag)?;
        let span = SpanTable::over(alloc, held, 1, LEAF_END)?;
        Ok(ChainTable { span })
    }

    #[inline]
    fn range_count(&self) -> usize {
        self.span.range_count()
    }

    #[inline]
    fn range(&self, k: usize) -> RangeRow {
        self.span.range(k)
    }

    #[inline]
    fn first(&self, k: usize) -> Option<u32> {
        self.span.first(k)
    }

    // it is one part
    #[inline]
    fn border(&self, _m: usize) -> usize {
        0
    }

    #[inline]
    fn held_at(&self, place: u32) -> Held {
        self.span.held_at(place)
    }

    #[inline]
    fn outer(&self, place: u32) -> Option<u32> {
        self.span.outer(place)
    }

    #[inline]
    fn find(&self, leaf: CellId) -> usize {
        self.span.find(leaf)
    }

    #[inline(always)]
    fn contents_near(&self, leaf: CellId, bookmark: Bookmark) -> LeafContents<'_, u32> {
        let range = self.span.find_near(leaf, bookmark.range);
        let row = self.span.range(range);
        LeafContents {
            start: row.start,
            limit: row.limit,
            held: self.span.held(),
            outers: self.span.outers(),
            innermost: self.span.innermost(range),
            rest: None,
            bookmark: Bookmark { part: 0, range },
        }
    }
}

impl SharesChains for ChainTable {
    ghost keeps_once = { λ t. t.once };
}
