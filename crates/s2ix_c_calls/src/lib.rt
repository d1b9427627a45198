//! What the calls for C do: with a store once it is out of its handle, and with numbers that name cells, labels and edits.
//!
//! A call answers with a status, and puts lists, texts and numbers where its caller wants them. [`calls`] has the calls on a store, by the
//! names of the exports of `s2ix_c`, which says there what each does to a handle. A [`Handle`] is open, and owns a store, or closed; its
//! caller passes it on and never looks inside.
//!
//! [`answer_line`] carries out one line of a script, with its answer in a buffer of the caller. It tests the room of the buffer before the
//! store takes a step, so a call that is made again with a longer buffer never does an edit twice. `s2ix_cli_run` says what a line comes
//! to, and prints its answer.
#![tactic(auto)]

mod address;
mod answer;
mod asked;
pub mod calls;
mod chains;
mod changes;
mod counts;
mod difference;
mod each;
mod edits;
mod following;
mod front;
mod handle;
mod held_labels;
pub mod laws;
mod line;
mod line_kind;
mod listing;
mod meetings;
mod no_answer;
mod queries;
mod question;
mod ranges;
mod recording;
mod removing;
mod replaying;
mod resuming;
mod rows;
pub mod status;
mod steps;
mod texts;
mod unions;

pub use answer::answer_line;
pub use asked::{add_of, drop_of, grow_of, normalise_of, relabel_of, remove_of};
pub use changes::EntryRow;
pub use each::OfTarget;
pub use edits::{refuse_rows, refuse_union};
pub use handle::Handle;
pub use held_labels::LabelRow;
pub use no_answer::NoAnswer;
pub use ranges::LeafRange;
pub use recording::refuse_change;
pub use replaying::{Direction, LedError, Refused, refused_of, texts_led};
pub use resuming::{apply_text, texts_resumed};
pub use rows::{Row, put_bytes, put_cells};
pub use unions::{check_both, check_cells, normal_of, normals_of};
