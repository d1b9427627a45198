ghost use Rattle.std.specs.Prelude.{◌≡◌};

use s2id_core::OutOfMemory;
use std::fmt;
use thiserror::Error;

/// What is wrong with a line of a dump. If several are due on one line, the first of this list is returned.
#[derive(Clone, Copy, Debug, PartialEq, Eq, Error)]
pub enum DumpFault {
    /// A line is expected here, and what is left of the text has no line feed.
    Truncated,
    /// The first line is neither `s2ix 1` nor `s2ix 2`.
    BadHeader,
    /// The line's first part is `end`, and the line is not `end PAIRS COPIES` with the right numbers.
    BadEnd,
    /// The line isn't three parts with one space between each two, or a part is empty.
    BadLine,
    /// The first part is no cell's canonical token.
    BadToken,
    /// The second part is no canonical number of at most 2147483647.
    BadLabel,
    /// The third part is no canonical number from 1 to the greatest count of the header's version: 65535, or 4294967295.
    BadCount,
    /// The pair is not above that of the line before.
    Unsorted,
    /// The count is above the limit.
    TooManyCopies,
    /// The lines above have as many pairs as the limit allows.
    TooManyPairs,
    /// Bytes follow the end line.
    TrailingBytes,
}

impl DumpFault {
    ghost use Rattle.s2ix_text.specs.FaultTexts.{dump_fault_text};

    // What is wrong, in words.
    fn text(self) -> &'static str
        ensures { result.now ≡ dump_fault_text self }
    {
        match self {
            DumpFault::Truncated => "a line is missing or has no line feed",
            DumpFault::BadHeader => "the first line is neither `s2ix 1` nor `s2ix 2`",
            DumpFault::BadEnd => "the end line doesn't count the lines above it",
            DumpFault::BadLine => "not three parts with one space between each two",
            DumpFault::BadToken => "the first part is no canonical token",
            DumpFault::BadLabel => "the second part is no canonical number of a label",
            DumpFault::BadCount => {
                "the third part is no canonical number from 1 to the greatest count of the header's version: 65535, or 4294967295"
            }
            DumpFault::Unsorted => "the pair is not above that of the line before",
            DumpFault::TooManyCopies => "a count above the limit",
            DumpFault::TooManyPairs => "more pairs than the limit",
            DumpFault::TrailingBytes => "bytes behind the end line",
        }
    }
}

/// `{}` prints what is wrong, in words.
impl fmt::Display for DumpFault {
    ghost use Rattle.std.specs.Prelude.{Some};
    ghost use Rattle.s2ix_text.specs.FaultTexts.{dump_fault_text};

    ghost output = { λ fault. Some (dump_fault_text fault) };

    fn fmt<W: fmt::Write>(&self, f: &mut fmt::Formatter<W>) -> fmt::Result {
        f.write_str(self.text())
    }
}

/// Why [`read_dump`](crate::read_dump) refused a text.
#[derive(Clone, Copy, Debug, PartialEq, Eq, Error)]
pub enum DumpError {
    /// The first line with a fault, counted from 1.
    #[error("line {line}: {fault}")]
    At { line: usize, fault: DumpFault },
    /// A growth was refused.
    #[error("out of memory")]
    OutOfMemory,
}

impl From<OutOfMemory> for DumpError {
    ghost use Rattle.std.specs.Prelude.{◌≡◌};
    ghost use Rattle.s2ix_text.specs.declared.dump_error.DumpError.TheVariants.{OutOfMemory};

    ghost from_gives = { λ _ error. error ≡ OutOfMemory };

    fn from(_: OutOfMemory) -> Self {
        DumpError::OutOfMemory
    }
}
