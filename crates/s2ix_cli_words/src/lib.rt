//! The fields of a script's line, and the program's own words, with what is printed if these ask for no command.
//!
//! [`Fields`] gives the fields of a line one after the other; white space separates them. There is a call for each kind of number, with a
//! range of its own: it returns `None` for any other text. None of these calls allocates, and none knows the words of scripts.
//!
//! [`command_of`] gives the [`Command`] that the program's words ask for, with its files and limits, or a [`WordsFault`] with the text of
//! the usage, of the help or of the version; [`not_utf8`] is the usage of a word that is no text. It opens no file: that is done when the
//! command is carried out. A word is printed with escapes for its control characters.
//!
//! [`program`] is the tree of the words as clap knows it, by which they are matched: it says which words belong together, as an option and
//! its value. The text of a limit's range ([`range_text`]) is made from the limit itself, for the help ([`LimitHelp`]) and for a limit that
//! is refused ([`limit_error`]).
//!
//! [`first_fault`] says how a run came out after its output was flushed, and [`status`] gives each [`Ending`] its exit status, 0 to 4.
//! [`turns`] is the number of pieces after which an input is too long.
#![tactic(auto)]

mod arguments;
mod command;
mod ending;
mod fields;
mod flushing;
mod help;
mod input;
mod instructions;
pub mod laws;
mod limits;
mod numbers;
mod shown;
mod tree;
mod usage;
mod words;
mod words_fault;

pub use command::{Command, Start};
pub use ending::{Ending, status};
pub use fields::Fields;
pub use flushing::first_fault;
pub use input::turns;
pub use limits::{LimitHelp, range_text};
pub use numbers::{change_number_spelled, copies_spelled, label_spelled, level_spelled};
pub use tree::{limit_error, lone_journal_error, program};
pub use usage::not_utf8;
pub use words::command_of;
pub use words_fault::WordsFault;
