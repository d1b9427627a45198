//! The store: a collection with its history, over any range table that follows changes.
//!
//! A [`Store`] is at one place of a history of collections: an accepted [`Edit`] makes the next one and records the change between the
//! two, `undo` goes back by one, `redo` on by one. Its table is any [`KeptTable`](s2ix_table_kept::KeptTable), so neither the store nor what
//! is made with it waits for the proof of one. The door, `s2ix_edit`, says which table a `Store` has.
#![tactic(auto)]

mod given;
mod held_labels;
mod history_error;
mod join_error;
mod joining;
pub mod laws;
mod record_error;
mod shared_table;
mod steps;
mod store;

pub use held_labels::HeldLabel;
pub use history_error::HistoryError;
pub use join_error::JoinError;
pub use record_error::RecordError;
pub use s2ix_edit_plan::{
    Edit, EditError, RedoError, RemoveError, UndoError, plan, plan_removals, plan_rows, region_of,
};
pub use store::Store;
