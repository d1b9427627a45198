//! The names by which faults of texts are printed.
ghost use Rattle.std.specs.Prelude.{◌≡◌};
ghost use Rattle.s2ix_cli_files.specs.Names.{dump_fault_name, journal_fault_name};

use s2ix_text::{DumpFault, JournalFault};

/// The name by which a dump with this fault is answered, as `no NAME LINE`.
pub fn dump_fault_name(fault: DumpFault) -> &'static str
    ensures { result.now ≡ dump_fault_name fault }
{
    match fault {
        DumpFault::Truncated => "Truncated",
        DumpFault::BadHeader => "BadHeader",
        DumpFault::BadEnd => "BadEnd",
        DumpFault::BadLine => "BadLine",
        DumpFault::BadToken => "BadToken",
        DumpFault::BadLabel => "BadLabel",
        DumpFault::BadCount => "BadCount",
        DumpFault::Unsorted => "Unsorted",
        DumpFault::TooManyCopies => "TooManyCopies",
        DumpFault::TooManyPairs => "TooManyPairs",
        DumpFault::TrailingBytes => "TrailingBytes",
    }
}

/// The name by which a journal with this fault is answered, as `no journal NAME LINE`.
pub fn journal_fault_name(fault: JournalFault) -> &'static str
    ensures { result.now ≡ journal_fault_name fault }
{
    match fault {
        JournalFault::Truncated => "Truncated",
        JournalFault::BadHeader => "BadHeader",
        JournalFault::BadEnd => "BadEnd",
        JournalFault::BadLine => "BadLine",
        JournalFault::BadToken => "BadToken",
        JournalFault::BadLabel => "BadLabel",
        JournalFault::BadCount => "BadCount",
        JournalFault::NoDifference => "NoDifference",
        JournalFault::Unsorted => "Unsorted",
        JournalFault::TooManyCopies => "TooManyCopies",
        JournalFault::TooManyChanges => "TooManyChanges",
        JournalFault::TrailingBytes => "TrailingBytes",
    }
}
