//! What the exports of `s2ix_c` do with the store of a handle. Each has the name of its export without `s2ix_`; `at_each` and `meet_each`
//! also put the labels of `s2ix_labels_at_each` and `s2ix_labels_each`.

pub use crate::changes::change;
pub use crate::counts::{count, range_count};
pub use crate::difference::difference;
pub use crate::each::{at_each, meet_each};
pub use crate::edits::{add_all, add_union, edit};
pub use crate::held_labels::held_labels;
pub use crate::line::line;
pub use crate::line_kind::line_kind;
pub use crate::listing::{of_label, pairs};
pub use crate::queries::{at, labels, meet, meet_from, region};
pub use crate::ranges::{contents, find, next_full, previous_full, range, ranges};
pub use crate::recording::record;
pub use crate::removing::remove_all;
pub use crate::steps::{clear, join, redo, undo};
pub use crate::texts::{dump, export, journal, journal_from};
