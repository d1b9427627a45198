//! What a store and its range table say to each other.
//!
//! A [`KeptTable`] is a range table that follows the changes of its collection: what a store asks of the table that it keeps. It reads the
//! bag that a change has made through a [`PairReader`], which counts what is read; a [`BagReader`] reads a bag. The one such table is the
//! `FacedTable` of `s2ix_table_faced`. A store is proved over any, so it doesn't wait for that one.
#![tactic(auto)]

mod bag_reader;
mod changes;
mod kept_table;
mod pair_reader;

pub use bag_reader::BagReader;
pub use changes::{changed_face_count, changed_faces};
pub use kept_table::KeptTable;
pub use pair_reader::PairReader;
