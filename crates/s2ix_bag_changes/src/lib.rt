//! Bags and changes: what a change makes of a bag, and what takes it back.
//!
//! A [`Bag`] is a finite map from pairs of a cell and a label to counts above 0, within stated limits. A [`Change`] lists what differs
//! between two bags: each pair with its count before and after. [`Bag::applied`] makes a new bag, with what the old one holds after a change,
//! and [`Bag::reverted`] makes one in which a change is taken back. The old bag stays as it is. The pairs of a bag lie in parts. The new bag
//! copies only parts in which a count changes, and perhaps their neighbours, and shares all others with the old one. To carry out a list of
//! changes, use `replay` or `rewind` of `s2ix_bag`.
#![tactic(auto)]

mod bag;
mod change;
mod label_iter;
pub mod laws;
mod revert;
mod same;

pub use bag::Bag;
pub use change::Change;
pub use label_iter::LabelIter;
