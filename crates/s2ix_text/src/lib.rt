//! Texts: a bag as a dump, a list of changes as a journal, both read back, and the sources and sinks that bytes go through.
//!
//! Each text has two versions. A bag has exactly one dump in each version that can hold it. A list of changes, none of them empty, has
//! exactly one journal in each version that can hold it. A reader accepts these texts and no other, if its limits allow what they hold; a
//! journal can be replayed over the bag that it began with, and rewound from the bag that it led to.
//!
//! ```
//! let mut sink = ToWrite::new(file);
//! write_dump(&bag, &mut sink)?;
//! write_journal(store.done(), &mut sink)?;
//! let before: Bag = read_dump(alloc, dump_bytes, limits)?;
//! let changes: Vec<Change> = read_journal(alloc, journal_bytes, limits)?;
//! let after: Bag = replay(alloc, &before, &changes)?;
//! let line: String = export(alloc, &bag)?; // one line of JSON
//! ```
//!
//! A [`Source`] gives bytes piece by piece, a [`Sink`] takes them, and each counts its faults; [`FromRead`] and [`ToWrite`] make them of
//! std's readers and writers. Writing doesn't allocate and doesn't flush, and ends at the sink's first fault. A text is read when it is
//! whole in memory, and reading returns the first faulty line and its fault ([`DumpError`], [`JournalError`]), in the order of
//! `docs/FORMATS.md`. Each call that reads or writes takes O(n) for n bytes; [`replay`] and [`rewind`] take O(n + m log n) for n pairs and m
//! entries in all changes.
//!
//! The crates below this one: `s2ix_text_parts` has sources and sinks, and cuts lines into parts; `s2ix_text_write` writes dumps, journals,
//! lists and JSON. Here are the two readers. [`replay`] and [`rewind`] are of `s2ix_bag`.
#![tactic(auto)]

mod change_line;
mod dump;
mod dump_error;
mod entry_line;
mod group;
mod journal;
mod journal_error;
pub mod laws;
mod numbers;
mod pair_line;
mod parts;
mod push;

pub use dump::read_dump;
pub use dump_error::{DumpError, DumpFault};
pub use journal::read_journal;
pub use journal_error::{JournalError, JournalFault};
pub use s2ix_bag::{ReplayError, replay, rewind};
pub use s2ix_text_parts::{
    ArraySink, FromRead, KeepingSink, ReadFault, RunFault, Sink, SliceSource, Source, ToWrite,
    VecSink, WriteFault, cell_written, count_written, cut_line, cut_part, first_part,
    label_written, number_in_front, number_written, put_all, put_parts, put_together, read_whole,
    three_parts, token_in_front,
};
pub use s2ix_text_write::{
    Block, ListItem, Version, export, write_dump, write_end_of_list, write_journal, write_list,
    write_pair_between,
};
