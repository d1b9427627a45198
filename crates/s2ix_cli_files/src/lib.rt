//! What the program does with whole files: a dump is loaded or checked, a dump with a journal is replayed, rewound or gone on from, and two
//! dumps are compared.
//!
//! Each call makes an answer: a text, and whether all was accepted. If a file or a change is refused, the text is one line with the name
//! of the refusal and its numbers. A call reads the texts and does the changes before it puts the first byte, and flushes after the last.
//!
//! Each call returns `OutOfMemory` if a growth was refused; then nothing went out. It never does so if line 1 of the dump is faulty. It
//! returns `Write` if the sink failed, in a call of `put` or of `flush`; then a front of the text went out.
#![tactic(auto)]

mod check;
mod diff;
pub mod laws;
mod load;
mod names;
mod printing;
mod reads;
mod refusal;
mod replay;
mod resume;

pub use check::check_text;
pub use diff::diff_texts;
pub use load::load_text;
pub use names::{dump_fault_name, journal_fault_name};
pub use refusal::{Refusal, TextsError};
pub use replay::{replay_texts, rewind_texts};
pub use resume::resume_texts;
