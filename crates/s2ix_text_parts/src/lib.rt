//! What texts are made of: the sources and sinks that bytes go through, lines cut into parts, and the cell, the label or the number that a
//! part writes.
//!
//! A [`Source`] gives bytes piece by piece, a [`Sink`] takes them, and each counts its faults. There are adapters of std's readers and
//! writers, sinks that keep what is printed ([`VecSink`] in memory, [`ArraySink`] in a fixed room of its own), devices in memory that can be
//! made to fail, and calls that read a whole input or put a whole text. A failed call may be made again. A call requires that the count can
//! rise by one; it has 64 bits, so a caller who starts with a new device has nothing to test.
//!
//! The calls that cut and read parts do not allocate. Each reads exactly what the writers of `s2ix_text_write` print: no other spelling of
//! a number or a token. The definitions find the first faulty line of a text, given what is wrong with each line.
#![tactic(auto)]

mod array_sink;
mod cuts;
mod from_read;
mod front;
mod keeping_sink;
pub mod laws;
mod put;
mod reading;
mod run_fault;
mod short_text;
mod sink;
mod slice_source;
mod source;
mod to_write;
mod vec_sink;
mod written;

pub use array_sink::ArraySink;
pub use cuts::{cut_line, cut_part, first_part, three_parts};
pub use from_read::FromRead;
pub use front::{number_in_front, token_in_front};
pub use keeping_sink::KeepingSink;
pub use put::{put_all, put_parts};
pub use reading::read_whole;
pub use run_fault::RunFault;
pub use short_text::put_together;
pub use sink::{Sink, WriteFault};
pub use slice_source::SliceSource;
pub use source::{ReadFault, Source};
pub use to_write::ToWrite;
pub use vec_sink::VecSink;
pub use written::{cell_written, count_written, label_written, number_written};
