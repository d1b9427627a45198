ghost use Rattle.std.specs.Prelude.{◌≡◌, ◌+◌, min, if◌then◌else◌};
ghost use Rattle.s2ix_cli_run.specs.Line.{is_counted, is_refused};
ghost use Rattle.s2ix_cli_run.specs.Script.{MOST};

use crate::outcome::LineOutcome;

/// Whether a refused line ends a run, and how many pieces it may read.
#[derive(Clone, Copy, Debug, PartialEq, Eq)]
pub struct RunOptions {
    /// Whether the first refused line ends the run.
    pub stop: bool,
    /// How many pieces may be read, with the empty one at the end. With 0 nothing is read, and the run ends with `ReaderTooLong`.
    pub turns: u64,
}

/// What a run returns if it reaches the end of its script. Both numbers stop at 2^64 - 1.
#[derive(Clone, Copy, Debug, PartialEq, Eq)]
pub struct RunEnd {
    /// How many lines were carried out or refused; blank lines and comments do not count.
    pub lines: u64,
    /// How many of them were refused.
    pub refused: u64,
}

impl RunEnd {
    // The counts before the first line.
    pub(crate) const NONE: RunEnd = RunEnd {
        lines: 0,
        refused: 0,
    };

    // The counts with one more line.
    pub(crate) fn with(self, outcome: LineOutcome) -> RunEnd
        ensures lines { result.lines ≡ min (self.lines + (if is_counted outcome then 1 else 0)) MOST }
        ensures refused { result.refused ≡ min (self.refused + (if is_refused outcome then 1 else 0)) MOST }
    {
        match outcome {
            LineOutcome::PassedOver => self,
            LineOutcome::Accepted => RunEnd {
                lines: self.lines.saturating_add(1),
                refused: self.refused,
            },
            LineOutcome::Refused => RunEnd {
                lines: self.lines.saturating_add(1),
                refused: self.refused.saturating_add(1),
            },
        }
    }
}
