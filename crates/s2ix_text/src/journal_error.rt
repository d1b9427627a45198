ghost use Rattle.std.specs.Prelude.{◌≡◌};
ghost use Rattle.s2ix_text.specs.declared.journal_error.JournalError.TheVariants.{OutOfMemory};

use std::alloc::AllocError;
use std::fmt;
use thiserror::Error;

/// What is wrong with a line of a journal. If several are due on one line, the first of this list is returned.
#[derive(Clone, Copy, Debug, PartialEq, Eq, Error)]
pub enum JournalFault {
    /// A line is expected here, and what is left of the text has no line feed.
    Truncated,
    /// The first line is neither `s2ix-journal 1` nor `s2ix-journal 2`.
    BadHeader,
    /// The line is outside a group, its first part is `end`, and it is not `end CHANGES` with the right number.
    BadEnd,
    /// The line isn't `change` with one more part (outside a group) or four parts (inside one), or a part is empty.
    BadLine,
    /// The first part is no cell's canonical token.
    BadToken,
    /// The second part is no canonical number of at most 2147483647.
    BadLabel,
    /// The number of entries is no canonical number from 1 to 2000000, or a count is none from 0 to the greatest of the header's version:
    /// 65535, or 4294967295.
    BadCount,
    /// The counts before and after are equal.
    NoDifference,
    /// The pair is not above that of the line before in its group.
    Unsorted,
    /// A count is above the limit.
    TooManyCopies,
    /// The groups above are as many changes as the limit allows.
    TooManyChanges,
    /// Bytes follow the end line.
    TrailingBytes,
}

impl JournalFault {
    ghost use Rattle.s2ix_text.specs.FaultTexts.{journal_fault_text};

    // What is wrong, in words.
    fn text(self) -> &'static str
        ensures { result.now ≡ journal_fault_text self }
    {
        match self {
            JournalFault::Truncated => "a line is missing or has no line feed",
            JournalFault::BadHeader =>
                "the first line is neither `s2ix-journal 1` nor `s2ix-journal 2`",
            JournalFault::BadEnd => "the end line doesn't count the groups above it",
            JournalFault::BadLine =>
                "neither `change` and a number, nor the four parts of an entry",
            JournalFault::BadToken => "the first part is no canonical token",
            JournalFault::BadLabel => "the second part is no canonical number of a label",
            JournalFault::BadCount => "a number that is not canonical or out of its range",
            JournalFault::NoDifference => "the counts before and after are equal",
            JournalFault::Unsorted => "the pair is not above that of the line before",
            JournalFault::TooManyCopies => "a count above the limit",
            JournalFault::TooManyChanges => "more changes than the limit",
            JournalFault::TrailingBytes => "bytes behind the end line",
        }
    }
}

/// `{}` prints what is wrong, in words.
impl fmt::Display for JournalFault {
    ghost use Rattle.std.specs.Prelude.{Some};
    ghost use Rattle.s2ix_text.specs.FaultTexts.{journal_fault_text};

    ghost output = { λ fault. Some (journal_fault_text fault) };

    fn fmt<W: fmt::Write>(&self, f: &mut fmt::Formatter<W>) -> fmt::Result {
        f.write_str(self.text())
    }
}

/// Why [`read_journal`](crate::read_journal) refused a text.
#[derive(Clone, Copy, Debug, PartialEq, Eq, Error)]
pub enum JournalError {
    /// The first line with a fault, counted from 1.
    #[error("line {line}: {fault}")]
    At { line: usize, fault: JournalFault },
    /// A growth was refused.
    #[error("out of memory")]
    OutOfMemory,
}

impl From<AllocError> for JournalError {
    ghost from_gives = { λ _ error. error ≡ OutOfMemory };

    fn from(_: AllocError) -> Self {
        JournalError::OutOfMemory
    }
}
