//! Lists of held pairs that several owners share, each with a filter of its labels.
//!
//! A [`FlatHeld`] is a held pair in 16 bytes. A [`HeldList`] is a list of them; its clone has the same pairs, and copies none. So a bag,
//! the bags that a change makes of it, and their range tables share such lists.
//!
//! A list's filter lets the labels of all its pairs through, and may let others through. A search for the pairs of a label first asks
//! [`HeldList::may_have`], and passes over the list if the filter stops the label. [`HeldList::with_filter`] makes a filter from the pairs.
//! [`HeldList::changed_to`] adds the labels of a change to the filter that the list had before it, and makes it anew once many have come.
//! [`HeldList::new`] makes a list whose filter stops no label.
#![tactic(auto)]

mod filtered_held;
mod flat;
mod held_list;
mod label_filter;
pub mod laws;

pub use flat::FlatHeld;
pub use held_list::HeldList;
