//! What answers a line of a script, but for plain lists: what lies over a leaf, what meets a target, a table's ranges, and answers of one
//! line.
//!
//! A call that writes does not allocate and does not flush. It ends at the first fault of the sink; then a front of its text went out.
#![tactic(auto)]

mod answers;
mod meeting;
mod ranges;

pub use answers::{write_neighbors, write_no, write_ok, write_path, write_square};
pub use meeting::write_meeting;
pub use ranges::{write_contents, write_ranges};
