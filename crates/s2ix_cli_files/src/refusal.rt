//! Why texts are refused, and the line that says so.
ghost use Rattle.std.specs.Prelude.{◌≡◌};
ghost use Rattle.s2ix_text_parts.specs.DeviceFaults.{CanCount};
ghost use Rattle.s2ix_text_parts.specs.Puts.{Writes};
ghost use Rattle.s2ix_cli_files.specs.Refusals.{error_of_dump, error_of_journal, error_of_replay, line_numbered_twice, numbered_line, refusal_line};

use crate::names::{dump_fault_name, journal_fault_name};
use itoa::Buffer;
use s2ix_bag::ReplayError;
use s2ix_text::{DumpError, DumpFault, JournalError, JournalFault};
use s2ix_text_parts::{Sink, WriteFault, put_parts};

/// What is refused first in the texts. A call prints it as a line.
#[derive(Clone, Copy, Debug, PartialEq, Eq)]
pub enum Refusal {
    /// A line of the dump, or of the first of two, counted from 1.
    Dump { line: usize, fault: DumpFault },
    /// A line of the second of two dumps, counted from 1.
    Second { line: usize, fault: DumpFault },
    /// A line of the journal, counted from 1.
    Journal { line: usize, fault: JournalFault },
    /// An entry of one of the journal's changes, both counted from 1, whose count is not the bag's.
    Mismatch { change: usize, entry: usize },
    /// A change of the journal, counted from 1, that would make a count above the limit.
    TooManyCopies { change: usize },
    /// A change of the journal, counted from 1, that would make more distinct pairs than the limit.
    TooManyPairs { change: usize },
}

/// Why texts lead to no bag. No public call returns it: a call prints the refusal, or returns `OutOfMemory`.
#[derive(Clone, Copy, Debug, PartialEq, Eq)]
pub enum TextsError {
    /// Something in them is refused.
    Refused(Refusal),
    /// A growth was refused.
    OutOfMemory,
}

impl From<DumpError> for TextsError {
    ghost from_gives = { λ error made. made ≡ error_of_dump error };

    fn from(error: DumpError) -> TextsError {
        match error {
            DumpError::At { line, fault } => TextsError::Refused(Refusal::Dump { line, fault }),
            DumpError::OutOfMemory => TextsError::OutOfMemory,
        }
    }
}

impl From<JournalError> for TextsError {
    ghost from_gives = { λ error made. made ≡ error_of_journal error };

    fn from(error: JournalError) -> TextsError {
        match error {
            JournalError::At { line, fault } => {
                TextsError::Refused(Refusal::Journal { line, fault })
            }
            JournalError::OutOfMemory => TextsError::OutOfMemory,
        }
    }
}

impl From<ReplayError> for TextsError {
    ghost from_gives = { λ error made. made ≡ error_of_replay error };

    fn from(error: ReplayError) -> TextsError {
        match error {
            ReplayError::Mismatch { change, entry } => {
                TextsError::Refused(Refusal::Mismatch { change, entry })
            }
            ReplayError::TooManyCopies { change } => {
                TextsError::Refused(Refusal::TooManyCopies { change })
            }
            ReplayError::TooManyPairs { change } => {
                TextsError::Refused(Refusal::TooManyPairs { change })
            }
            ReplayError::OutOfMemory => TextsError::OutOfMemory,
        }
    }
}

// Writes a name and one number after what stands before them, on a line of their own.
fn write_numbered<K: Sink>(
    before: &[u8],
    name: &str,
    number: usize,
    sink: &mut K,
) -> Result<(), WriteFault>
    requires { CanCount (K.fault_count sink.old) }
    ensures { Writes K.Sink sink.old sink.new result (numbered_line before.now name.now number) }
{
    let mut digits = Buffer::new();
    put_parts(
        sink,
        &[
            before,
            name.as_bytes(),
            b" ",
            digits.format(number).as_bytes(),
            b"\n",
        ],
    )
}

// Writes `no` with a name and two numbers, on a line of their own.
fn write_numbered_twice<K: Sink>(
    name: &str,
    first: usize,
    second: usize,
    sink: &mut K,
) -> Result<(), WriteFault>
    requires { CanCount (K.fault_count sink.old) }
    ensures { Writes K.Sink sink.old sink.new result (line_numbered_twice name.now first second) }
{
    let mut first_digits = Buffer::new();
    let mut second_digits = Buffer::new();
    put_parts(
        sink,
        &[
            b"no ",
            name.as_bytes(),
            b" ",
            first_digits.format(first).as_bytes(),
            b" ",
            second_digits.format(second).as_bytes(),
            b"\n",
        ],
    )
}

// Writes the line of a refusal.
pub(crate) fn write_refusal<K: Sink>(refusal: Refusal, sink: &mut K) -> Result<(), WriteFault>
    requires { CanCount (K.fault_count sink.old) }
    ensures { Writes K.Sink sink.old sink.new result (refusal_line refusal) }
{
    match refusal {
        Refusal::Dump { line, fault } => write_numbered(b"no ", dump_fault_name(fault), line, sink),
        Refusal::Second { line, fault } => {
            write_numbered(b"no second ", dump_fault_name(fault), line, sink)
        }
        Refusal::Journal { line, fault } => {
            write_numbered(b"no journal ", journal_fault_name(fault), line, sink)
        }
        Refusal::Mismatch { change, entry } => write_numbered_twice(
            "Mismatch", change, entry, sink,
        ),
        Refusal::TooManyCopies { change } => write_numbered(b"no ", "TooManyCopies", change, sink),
        Refusal::TooManyPairs { change } => write_numbered(b"no ", "TooManyPairs", change, sink),
    }
}
