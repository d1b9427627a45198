//! The ranges of leaves over which the same pairs lie, and the one walk that finds what meets a target, with what it costs.
//!
//! The leaves of the curve fall into maximal spans over which the same pairs lie, the ranges; the pairs over one of them are its contents,
//! the innermost cell first. The [`laws`] say of these definitions that each is the only one of its kind.
//!
//! A [`Reader`] gives the ranges of a table and the pairs over them, and counts both. [`walk`] finds a target's meeting list only through a
//! reader; [`Meeting`] is the same loop as an iterator.
//!
//! A walk does not allocate. It begins with a reader that has read nothing, so a reader serves one walk, and then has its cost. That cost
//! is bounded by what the walk gives, by the ranges that the target meets and by the target's cells: see [`walk`].
#![tactic(auto)]

mod along_ranges;
mod borders;
mod cost;
pub mod laws;
mod meeting;
mod power;
mod reader;
mod row;
mod sample;
mod search;
mod search_state;
mod walk_state;
mod walking;
mod window;

pub use cost::Cost;
pub use meeting::Meeting;
pub use reader::Reader;
pub use row::RangeRow;
pub use sample::SAMPLE_STEP;
pub use walking::walk;
pub use window::{LeafWindow, Window};
