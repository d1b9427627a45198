//! Labelled cells: what a collection counts, and how large one may be.
//!
//! A [`Pair`] is a cell under a [`Label`]; a [`Held`] is a pair with the count that a collection has of it, and an [`Entry`] a pair with
//! its counts before and after a change. [`Limits`] say how large a collection and its history may be. Collections of pairs, and the
//! changes between two of them, are defined here as lists; `s2ix_bag` has the types that hold them.
#![tactic(auto)]

mod label;
pub mod laws;
mod limits;
mod pair;

pub use label::Label;
pub use limits::Limits;
pub use pair::{Entry, Held, Pair};
