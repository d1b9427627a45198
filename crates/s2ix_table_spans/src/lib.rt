//! The ranges over one span of leaves, with shared chains: one node for each held pair, which all ranges over its cell use.
//!
//! A [`SpanTable`] is swept together from the pairs of its span, or made from the table before a change, of which it copies what the change
//! leaves alone. By a law a pair has one place in it.
#![tactic(auto)]

mod block;
pub mod laws;
mod nodes;
mod order;
mod pass;
mod places;
mod sample;
mod span_table;
mod splice;
mod sweep;

pub use places::{is_last_start, step_ahead};
pub use span_table::SpanTable;
