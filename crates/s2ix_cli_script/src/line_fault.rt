ghost use Rattle.std.specs.Prelude.{◌≡◌};

use s2id_core::{OutOfMemory, TokenError};
use thiserror::Error;

/// What is wrong with a line. Its length is tested first, then its word, the number of its further fields, and each of these fields from
/// the left.
#[derive(Clone, Copy, Debug, PartialEq, Eq, Error)]
pub enum LineFault {
    /// The line has more than 65,536 bytes.
    #[error("more than 65536 bytes")]
    LineTooLong,
    /// The first field is no word of a script.
    #[error("no word of a script")]
    BadCommand,
    /// The number of further fields does not fit the word.
    #[error("number of fields does not fit the word")]
    BadArguments,
    /// A field that should name a cell is no spelling of one.
    #[error("field is no spelling of a cell")]
    BadToken,
    /// A field that should name a label is no script number of at most 2147483647.
    #[error("field is no label")]
    BadLabel,
    /// A field that should be a number of copies is no script number from 1 to 4294967295.
    #[error("field is no number of copies")]
    BadCount,
    /// A field that should be a level is no script number of at most 30.
    #[error("field is no level")]
    BadLevel,
    /// A field that should be a change's number is no script number from 1 to 100000.
    #[error("field is no number of a change")]
    BadNumber,
}

impl From<TokenError> for LineFault {
    ghost use Rattle.s2ix_cli_script.specs.declared.line_fault.LineFault.TheVariants.{BadToken};

    ghost from_gives = { λ _ fault. fault ≡ BadToken };

    fn from(_: TokenError) -> LineFault {
        LineFault::BadToken
    }
}

/// Why the meaning of a line was not found.
#[derive(Clone, Copy, Debug, PartialEq, Eq, Error)]
pub enum LineError {
    /// Something is wrong with the line.
    #[error("{0}")]
    Fault(LineFault),
    /// A growth was refused while the cells of the line were gathered.
    #[error("out of memory")]
    OutOfMemory,
}

impl From<LineFault> for LineError {
    ghost use Rattle.s2ix_cli_script.specs.declared.line_fault.LineError.TheVariants.{Fault};

    ghost from_gives = { λ fault error. error ≡ Fault fault };

    fn from(fault: LineFault) -> LineError {
        LineError::Fault(fault)
    }
}

impl From<OutOfMemory> for LineError {
    ghost use Rattle.s2ix_cli_script.specs.declared.line_fault.LineError.TheVariants.{OutOfMemory};

    ghost from_gives = { λ _ error. error ≡ OutOfMemory };

    fn from(_: OutOfMemory) -> LineError {
        LineError::OutOfMemory
    }
}
