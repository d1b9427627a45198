//! The table that a store keeps: a range table in parts, which shares its chains and takes changes.
//!
//! A [`FacedTable`] is made of parts over neighbouring leaves, each with shared chains of its own, and of the heavy pairs over them. It makes
//! anew only the parts that a change touches ([`FacedTable::rebuild`]). It reads a bag face by face, through a [`PairReader`] that counts
//! what is read. So it is a [`KeptTable`]: `s2ix_table_kept` says what a store asks of its table, and has the readers. How the parts of six
//! faces become one table is here too: `s2ix_table_parts` makes those of one face. The door of this house, `s2ix_table`, gives all this out
//! beside the tables that take no changes.
#![tactic(auto)]

mod all_faces;
mod blocks;
mod changes;
mod copies;
mod entries_on;
mod faced_table;
mod heavy_faces;
mod heavy_within;
pub mod laws;
mod layout;
mod looking;
mod offset;
mod part_begins;
mod part_place;
mod read_faces;
mod shares_chains;
mod starts;

pub use faced_table::FacedTable;
pub use part_place::{FaceHeavyPlace, FacedPlace, PartPlace};
pub use s2ix_table_kept::{BagReader, KeptTable, PairReader, changed_face_count};
pub use shares_chains::SharesChains;
