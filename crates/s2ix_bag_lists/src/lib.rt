//! What bags and changes are made of: rising lists of held pairs and of entries.
//!
//! Over slices: calls find a count in a list of held pairs, merge a change into one, compare two lists, and test whether a list of entries
//! is a change ([`fault`]). The other calls require that their lists are in order, and do not test it.
//!
//! As a whole: a [`FaceLists`] holds the pairs of a collection, and contracts see them as one rising list. It keeps the pairs of each face
//! in a [`HeldParts`], which cuts them into parts, lists of `s2ix_bag_held`, and keeps these in bundles of at most 64 ([`SharedLists`]). All
//! of it is shared: a copy raises six counters. A change copies only the parts on which it has entries, and a part on either side of one if
//! the two are joined, as short ones are. It counts one more owner of each part in the bundles that it touches, and of each other bundle. Each
//! part has a filter of its labels, so that a search for a label's pairs passes over most parts that have none. Costs are for n held pairs and
//! m entries.
#![tactic(auto)]

mod apply;
mod bundle;
mod bundle_search;
mod compare;
mod cut;
mod entries;
mod errors;
mod face_ends;
mod held_iter;
mod held_parts;
pub mod laws;
mod lists;
mod lists_view;
mod merged_parts;
mod part_list;
mod part_search;
mod parts_mismatch;
mod same;
mod search;
mod shared_lists;
mod window;

pub use apply::{gains, has_count_above, losses, merge};
pub use compare::{differences, exchanged_entries};
pub use entries::fault;
pub use errors::{ApplyError, ChangeError, RevertError};
pub use held_iter::HeldIter;
pub use held_parts::HeldParts;
pub use lists::FaceLists;
pub use lists_view::ListsView;
pub use search::count_of;
pub use shared_lists::SharedLists;
