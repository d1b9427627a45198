//! Scripts and the program: lines of text in, edits and queries carried out over a store, lines of text out.
//!
//! [`run`] reads a script from a source piece by piece, carries out each line as soon as its line feed has come, and writes the answers.
//! What it writes follows from the store and from what it reads. A refused line prints `no` with its reason and changes nothing. After a
//! fault the store keeps the effects of the lines already carried out. A [`RunEnd`] says how many lines there were and how many were
//! refused; [`RunOptions`] say whether the first refused line ends the run, and how many pieces it may read. [`command_of`] reads the
//! program's words; `check_text`, `load_text`, `resume_texts`, `replay_texts`, `rewind_texts` and `diff_texts` work on whole texts.
//!
//! ```
//! let loaded: Option<Store> = load_text(alloc, dump_bytes, limits, &mut sink)?;
//! let Some(mut store) = loaded else { return Ok(()) };
//! let options = RunOptions { stop: false, turns: 1_000_000 };
//! let end: RunEnd = run(alloc, &mut source, &mut sink, &mut store, options)?;
//! assert!(end.refused <= end.lines);
//! let accepted: bool = check_text(alloc, dump_bytes, &mut sink)?;
//! let replayed: bool = replay_texts(alloc, dump_bytes, journal_bytes, &mut sink)?;
//! let command: Command = command_of(alloc, &words)?;
//! ```
//!
//! `docs/FORMATS.md` lists the instructions and their answers. A line has at most [`LONGEST_LINE`] bytes; a run asks its source for at
//! most `turns` pieces. It holds one piece and one line at a time, both on the stack, some 96 KiB, and allocates only for what its lines
//! ask for. [`RunFault`] says what ended a run early: a read, a write, want of memory, or a source that did not end within `turns`
//! pieces.
//!
//! The crates below this one: `s2ix_cli_words` reads the program's words and cuts a line into fields; `s2ix_cli_script` says what a line
//! asks for; `s2ix_cli_answers` writes what queries find; `s2ix_cli_run` carries lines out; `s2ix_cli_files` works on whole texts.
#![tactic(auto)]

pub mod laws;

pub use s2ix_cli_answers::{
    write_contents, write_meeting, write_neighbors, write_no, write_ok, write_path, write_ranges,
    write_square,
};
pub use s2ix_cli_files::{
    Refusal, TextsError, check_text, diff_texts, dump_fault_name, journal_fault_name, load_text,
    replay_texts, resume_texts, rewind_texts,
};
pub use s2ix_cli_run::{
    LineOutcome, RunEnd, RunOptions, is_question, run, run_instruction, run_line,
};
pub use s2ix_cli_script::{
    Instruction, LONGEST_LINE, LineError, LineFault, add_union_named, cell_named, drop_named,
    edit_error_name, grow_named, label_named, labels_named, meaning, normal_named, not_leaf_name,
    pair_named, redo_error_name, relabel_named, revert_named, undo_error_name, union_named,
};
pub use s2ix_cli_words::{
    Command, Ending, Fields, LimitHelp, Start, WordsFault, change_number_spelled, command_of,
    copies_spelled, first_fault, label_spelled, level_spelled, limit_error, lone_journal_error,
    not_utf8, program, range_text, status, turns,
};
pub use s2ix_text_parts::{RunFault, read_whole};
