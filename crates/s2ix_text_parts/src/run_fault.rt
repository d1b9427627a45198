ghost use Rattle.std.specs.Prelude.{◌≡◌};
ghost use Rattle.s2ix_text_parts.specs.declared.run_fault.RunFault.TheVariants.{OutOfMemory, Read, Write};

use crate::sink::WriteFault;
use crate::source::ReadFault;
use thiserror::Error;

/// What ended a run, or the reading of a whole source, before its end: the first of these that happened.
#[derive(Clone, Copy, Debug, PartialEq, Eq, Error)]
pub enum RunFault {
    /// The source failed.
    #[error("read fault")]
    Read,
    /// The sink failed.
    #[error("write fault")]
    Write,
    /// A growth was refused.
    #[error("out of memory")]
    OutOfMemory,
    /// As many pieces as allowed were read, and none was the end.
    #[error("reader too long")]
    ReaderTooLong,
}

impl From<ReadFault> for RunFault {
    ghost from_gives = { λ _ fault. fault ≡ Read };

    fn from(_fault: ReadFault) -> RunFault {
        RunFault::Read
    }
}

impl From<WriteFault> for RunFault {
    ghost from_gives = { λ _ fault. fault ≡ Write };

    fn from(_fault: WriteFault) -> RunFault {
        RunFault::Write
    }
}

impl From<s2id_core::OutOfMemory> for RunFault {
    ghost from_gives = { λ _ fault. fault ≡ OutOfMemory };

    fn from(_error: s2id_core::OutOfMemory) -> RunFault {
        RunFault::OutOfMemory
    }
}
