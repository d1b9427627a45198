//! For tests: cells from plain texts, and calls that are made again after they gave up. It promises nothing: a test compares what it makes
//! of these with what its rows say.
#![tactic(auto)]

mod calls;
mod cells;

pub use calls::{SET_UP, TOLD, tell};
pub use cells::{are_cells, cell_of, cells_of};
