//! An editable collection: edits that record exactly what they change, undo and redo.
//!
//! A [`Store`] is at one place of a history of collections. An accepted [`Edit`] makes the next collection
//! and records the change between the two; `undo` goes back by one, `redo` on by one, and `forget` keeps
//! only the collection. A refused step leaves the store as it was. The store keeps the range table of its collection
//! beside it, for queries.
//!
//! Bag and table are kept in parts of some hundred pairs. A step makes anew only the parts that it changes, and writes a number or two for
//! each part behind the first one. A copy of a store shares bag and table, until one of the two takes a step: this step then makes lists of its own
//! of all parts. A store drops no change by itself: when the number of changes that can be undone reaches the limit, edits are refused until
//! some are undone, joined or forgotten.
//!
//! `s2ix_edit_plan` plans edits. `s2ix_edit_store` has the store, over any table that follows changes, so it doesn't wait for the proof of one.
//! Here is said which table that is: a [`StoreTable`].
#![tactic(auto)]

pub mod laws;
mod store_table;

pub use s2ix_edit_plan::{
    Edit, EditError, RedoError, RemoveError, UndoError, plan, plan_removals, plan_rows, region_of,
};
pub use s2ix_edit_store::{HeldLabel, HistoryError, JoinError, RecordError};
pub use store_table::{Store, StoreTable};
