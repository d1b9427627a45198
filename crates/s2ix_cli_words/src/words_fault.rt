ghost use Rattle.std.specs.Prelude.{◌≡◌};
ghost use Rattle.s2ix_cli_words.specs.declared.words_fault.WordsFault.TheVariants.{OutOfMemory};

use std::alloc::AllocError;
use thiserror::Error;

/// Why the program's words name no command.
#[derive(Debug, Drop, Error)]
pub enum WordsFault {
    /// The words ask for nothing that the program knows. The text says what is wrong with them.
    #[error("{0}")]
    Usage(String),
    /// The words ask for help. This is it.
    #[error("{0}")]
    HelpAsked(String),
    /// The words ask for the version. This is it, on a line.
    #[error("{0}")]
    VersionAsked(String),
    /// A growth was refused.
    #[error("out of memory")]
    OutOfMemory,
}

impl From<AllocError> for WordsFault {
    ghost from_gives = { λ _ fault. fault ≡ OutOfMemory };

    fn from(_: AllocError) -> WordsFault {
        WordsFault::OutOfMemory
    }
}
