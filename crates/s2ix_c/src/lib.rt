//! The index for C, and for what calls C: stores in handles, and cells and unions of cells by their numbers. `include/s2ix.h` declares
//! what is exported, and says what C must see to.
//!
//! An export carries out one call of a store, and its contract restates that call's. A refused call leaves the store as it was, and its
//! status says why. A list goes to a buffer of the caller: the call tells how many items there are, also if the buffer is too short. Then
//! `s2ix_at`, `s2ix_contents`, `s2ix_meet` and `s2ix_labels` write as many as it has room for, and the other calls none. For many leaves or
//! targets there are as many lists as the buffer has room for.
#![tactic(auto)]

mod cell_unions;
mod cells;
mod changes;
mod counts;
mod difference;
mod each;
mod edits;
mod handles;
mod held_labels;
pub mod laws;
mod line;
mod listing;
mod queries;
mod ranges;
mod recording;
mod removing;
mod replaying;
mod resuming;
mod status;
mod steps;
mod texts;
mod version;
