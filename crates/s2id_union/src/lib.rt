//! Sets of leaves of the S2 curve, each in its one normal form as a list of cells (S2's `S2CellUnion`).
//!
//! A [`CellUnion`] is made of any cells by [`CellUnion::normalise`], of a span of leaves by [`CellUnion::from_leaves`], or of two unions by
//! a set operation. It tells whether it contains a cell, or shares a leaf with one. Two unions with the same leaves have the same cells, so
//! `==` compares sets of leaves.
//!
//! A union is never changed in place. S2's `Denormalize`, `Expand` and areas have no counterpart here.
#![tactic(auto)]

mod cell_union;
mod count;
mod error;
mod join;
pub mod laws;
mod same;
mod search;
mod shared;
mod span;
mod sweep;

pub use cell_union::CellUnion;
pub use error::RangeError;
