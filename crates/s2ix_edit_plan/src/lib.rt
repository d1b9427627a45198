//! Edits of a collection: what each makes of it, when it is refused, and the change that carries it out.
//!
//! An [`Edit`] makes the next collection of one. [`plan`] says which counts it changes in a bag, and changes nothing itself: the bag
//! applies the planned change, and the store of `s2ix_edit` records it with its history. So edits, and the reasons why steps
//! are refused, can be named without a store: [`EditError`] for a plan or an edit, [`RemoveError`] for rows that are removed, [`UndoError`] and
//! [`RedoError`] for an undo and a redo.
#![tactic(auto)]

mod edit;
mod edits;
mod errors;
pub mod laws;
mod region;

pub use edit::Edit;
pub use edits::plan;
pub use edits::removals::plan_removals;
pub use edits::rows::plan_rows;
pub use errors::{EditError, RedoError, RemoveError, UndoError};
pub use region::region_of;
