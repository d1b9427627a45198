//! Bags: collections of labelled cells with counts, and the changes between two of them.
//!
//! A [`Bag`] is a finite map from pairs of a cell and a label to counts above 0, within stated [`Limits`]. A [`Change`] lists what differs
//! between two bags: each pair with its count before and after. If a bag has the counts before, applying the change gives the bag with the
//! counts after. A change can be taken back even after later ones: its difference is subtracted from each count. This is refused if a count
//! would fall below 0 or pass a limit.
//!
//! [`Bag::applied`] and [`Bag::reverted`] leave their bag as it is and give another one, which shares the parts of its list that the
//! change leaves alone. [`Change::between`], [`Change::from_entries`] and [`Change::inverse`] make changes, and [`Bag::reverting`] makes
//! the change that takes another one back. [`replay`] does changes in their order, [`rewind`] takes them back from the last to the first; a
//! [`ReplayError`] has the number of the one that doesn't fit. A bag has no history: `s2ix_edit` keeps one.
#![tactic(auto)]

pub mod laws;
mod reached;
mod replay_error;
mod replay_refusal;
mod replaying;

pub use replay_error::ReplayError;
pub use replaying::{replay, rewind};
pub use s2ix_bag_changes::{Bag, Change, LabelIter};
pub use s2ix_bag_held::{FlatHeld, HeldList};
pub use s2ix_bag_lists::{
    ApplyError, ChangeError, HeldIter, HeldParts, ListsView, RevertError, SharedLists,
};
pub use s2ix_bag_pairs::{Entry, Held, Label, Limits, Pair};
