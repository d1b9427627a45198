//! Range tables: which labelled cells of a collection meet a union of cells (S2's `S2CellIndex`).
//!
//! The cells of a bag cut the curve into ranges of leaves over which the same pairs lie. A [`RangeTable`] keeps these ranges in order, and
//! for each of them a chain of the pairs over it, the innermost cell first. A table is built of a bag; only a [`FacedTable`] takes changes.
//! A query reads the ranges that its target meets, and O(log n) more for each cell of the target; it allocates only for the list that it
//! returns.
//!
//! ```
//! let table = ChainTable::build(alloc, &bag)?;
//! let target = CellUnion::normalise(alloc, &[zone])?;
//! let met: Vec<Held> = table.meeting(alloc, &target)?; // the pairs that share a leaf with the target, each once
//! let labels: Vec<Label> = table.labels(alloc, &target)?; // their labels, each once, rising
//! let none_twice = table.visit(&target, &mut |held: Held| held.count < 2); // one call for each pair, until it returns false
//! let innermost = chain_at(&table, leaf).next(); // the innermost pair over one leaf
//! let each = at_each(&table, &leaves, &mut ends, &mut labels); // the labels over many leaves, one leaf after the other
//! for (k, row) in ranges(&table) { /* contents(&table, k) lie over the leaves from row.start up to row.limit */ }
//! ```
//!
//! | Question | Call | Cost |
//! |---|---|---|
//! | Which pairs meet a union? | [`RangeTable::visit`], [`RangeTable::meeting`] | O(k + r + t log n) for k pairs, r ranges and t cells |
//! | Which labels meet it? | [`RangeTable::labels`] | the same, and the sorting of the labels |
//! | Which pairs lie over a leaf? | [`chain_at`] | O(log n + k) |
//! | Which pairs lie over each of many leaves? | [`at_each`] | the same for each, and less for many, most of all if they rise |
//! | And over each of thousands, in no order? | [`at_many`], which puts them in order first | the same, and memory for that, if it gets it |
//! | Which range has a leaf? | [`RangeTable::find`], [`RangeIter::seek`] | O(log n) |
//! | What lies over each range? | [`ranges`], [`contents`] | O(1) a step, but O(log p) for `contents` in a table of p parts |
//! | What did a query read? | a [`Cost`], from `visit_counted`, or from a [`Meter`] after a [`walk`] | as `visit` |
//!
//! A table of n pairs has at most 2 * n + 1 ranges. The ranges of a [`ChainTable`] share their chains, so that it has each pair once.
//! A [`FacedTable`] is made of parts over neighbouring leaves, each with shared chains of its own, and makes anew only the parts that a
//! change touches ([`FacedTable::rebuild`], over a [`BagReader`]): a store keeps one. Where a part would become too long, the cells within
//! which more pairs lie than a part should have are *heavy*: their pairs lie in chunks over the parts, so one label over a whole face makes
//! no part longer. [`CopiedTable`] has a list for each range, and is slow to build: tests compare the others with it.
//!
//! The crates below this one: `s2ix_table_walk` defines the ranges of a bag and what meets a target, finds it, and counts what it reads;
//! `s2ix_table_queries` has the trait with its queries; `s2ix_table_spans` builds the shared chains over a span of leaves;
//! `s2ix_table_heavy` keeps the pairs of heavy cells; `s2ix_table_parts` makes the parts of a face, and what a change makes of them;
//! `s2ix_table_kept` says what a store asks of its table, and has the readers of a bag; `s2ix_table_faced` has `FacedTable`. Here are the tables
//! that take no changes, which no store waits for.
#![tactic(auto)]

mod chain_table;
mod copied;
mod copied_filter;
mod copied_pairs;
mod copied_range;
pub mod laws;

pub use chain_table::ChainTable;
pub use copied::{CopiedPlace, CopiedTable};
pub use s2ix_table_faced::{
    BagReader, FaceHeavyPlace, FacedPlace, FacedTable, KeptTable, PairReader, PartPlace,
    SharesChains, changed_face_count,
};
pub use s2ix_table_heavy::HeavyPlace;
pub use s2ix_table_queries::{
    BATCH, Bookmark, ChainIter, Each, EachStop, LeafContents, Meter, OfHeld, RangeIter, RangeTable,
    Stretch, Visit, at_each, at_many, cell_of, chain_at, contents, leaf_of, ranges,
};
pub use s2ix_table_spans::SpanTable;
pub use s2ix_table_walk::{Cost, LeafWindow, Meeting, RangeRow, Reader, Window, walk};
