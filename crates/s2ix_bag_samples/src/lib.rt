//! Pairs, lists, bags and changes from plain texts, for tests. It promises nothing: a test compares what it makes of these with what its
//! rows say.
//!
//! A pair with its count is a text TOKEN:LABEL:COUNT, as in lists that the program prints, and an entry of a change is a text
//! TOKEN:LABEL:BEFORE:AFTER. White space stands between some of them. What is no such text, and what memory was wanted for, is `None`.
#![tactic(auto)]

mod bags;
mod changes;
mod lists;
mod pairs;

pub use bags::{LimitRow, WIDEST, bag_of, holds_pairs, limits_of};
pub use changes::{are_changes, change_of, changes_of, lists_entries};
pub use lists::{are_flat_pairs, are_labels, are_pairs, list_of};
pub use pairs::{held_of, label_of, pair_of};
