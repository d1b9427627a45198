//! The trait of range tables, and what is asked of any of them: what meets a union, what lies over a leaf, and range by range.
//!
//! A [`RangeTable`] keeps the ranges of a bag in order, and a chain of pairs for each. What meets a union is found by the `Meeting` of
//! `s2ix_table_walk`, through a [`Meter`], which counts what is read; `find`, [`chain_at`], [`at_each`], [`at_many`] and [`ranges`] read the
//! table itself.
#![tactic(auto)]

mod bookmark;
mod each;
mod iter;
mod labels;
pub mod laws;
mod leaf;
mod leaf_contents;
mod leaf_sorter;
mod many;
mod marks;
mod meter;
mod of_held;
mod rising;
mod stretch;
mod table;
mod visit;

pub use bookmark::{BATCH, Bookmark};
pub use each::{Each, EachStop, at_each};
pub use iter::{ChainIter, RangeIter, chain_at, contents, ranges};
pub use leaf::{cell_of, leaf_of};
pub use leaf_contents::LeafContents;
pub use many::at_many;
pub use meter::Meter;
pub use of_held::OfHeld;
pub use stretch::Stretch;
pub use table::RangeTable;
pub use visit::Visit;
