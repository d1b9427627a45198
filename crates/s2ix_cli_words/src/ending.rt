ghost use Rattle.std.specs.Prelude.{◌≡◌};
ghost use Rattle.std.specs.Process.{exit_status};
ghost use Rattle.s2ix_cli_words.specs.Statuses.{status_of};

use s2ix_text_parts::RunFault;
use std::process::ExitCode;

/// What the program came to.
#[derive(Clone, Copy, Debug, PartialEq, Eq)]
pub enum Ending {
    /// All was accepted, or help or version was printed.
    Accepted,
    /// A refusal was printed.
    Refused,
    /// The words ask for nothing that the program does.
    Usage,
    /// A device failed, an input had more pieces than are read, or a growth was refused.
    Fault(RunFault),
}

/// The exit status: 0 if all was accepted, 1 if a refusal was printed, 2 for usage, 4 for `OutOfMemory`, and 3 for any other fault.
pub fn status(ending: Ending) -> ExitCode
    ensures { exit_status result ≡ status_of ending }
{
    ExitCode::from(match ending {
        Ending::Accepted => 0,
        Ending::Refused => 1,
        Ending::Usage => 2,
        Ending::Fault(RunFault::OutOfMemory) => 4,
        Ending::Fault(RunFault::Read | RunFault::Write | RunFault::ReaderTooLong) => 3,
    })
}
