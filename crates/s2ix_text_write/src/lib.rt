//! Dumps, journals, lists and JSON: the texts that are written. A bag has a dump and a list of changes a journal; pairs, labels and cells are
//! lists with an end line. Dumps and journals have two [`Version`]s, and the second is the one that is written. A bag also has an
//! [`export`], one line of JSON for other programs.
//!
//! A call that writes to a sink does not allocate and does not flush. It ends at the first fault of the sink; then a front of its text
//! went out. [`export`] builds a tree and the whole text in memory, and nothing reads an export back: to keep a bag, write its dump.
#![tactic(auto)]

mod block;
mod dump;
mod exporting;
mod journal;
pub mod laws;
mod list;
mod pair;
mod places;
mod version;

pub use block::Block;
pub use dump::write_dump;
pub use exporting::export;
pub use journal::write_journal;
pub use list::{ListItem, write_end_of_list, write_list};
pub use pair::write_pair_between;
pub use version::Version;
