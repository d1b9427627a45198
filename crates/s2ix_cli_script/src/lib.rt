//! Scripts: what a line asks for, what its fields name, and the names by which lines are refused.
//!
//! [`meaning`] reads one line and gives the [`Instruction`] that it asks for, nothing for a comment or a line without a field, or the first
//! fault. Beneath it, each call takes the fields after a line's word, and gives what they name (cells, labels, pairs, unions, edits) or a
//! [`LineFault`]: too few or too many fields, else the fault of the first unfit one. Only a list of cells allocates ([`LineError`]).
//! Nothing is carried out here: `s2ix_cli_run` does that over a store.
#![tactic(auto)]

mod cells;
mod edits;
mod fault_names;
mod fields;
mod instruction;
pub mod laws;
mod line_fault;
mod line_meaning;
mod plain;
mod refusal_names;
mod words;

pub use cells::{add_union_named, union_named};
pub use edits::{drop_named, grow_named, normal_named, relabel_named, revert_named};
pub use fields::{cell_named, label_named, labels_named, pair_named};
pub use instruction::Instruction;
pub use line_fault::{LineError, LineFault};
pub use line_meaning::{LONGEST_LINE, meaning};
pub use refusal_names::{edit_error_name, not_leaf_name, redo_error_name, undo_error_name};
