//! The names by which faulty lines are answered.
ghost use Rattle.std.specs.Prelude.{◌≡◌};
ghost use Rattle.s2ix_cli_script.specs.FaultNames.{fault_name};

use crate::line_fault::LineFault;

impl LineFault {
    /// The name by which a line with this fault is answered, as `no NAME`.
    pub fn name(self) -> &'static str
        ensures { result.now ≡ fault_name self }
    {
        match self {
            LineFault::LineTooLong => "LineTooLong",
            LineFault::BadCommand => "BadCommand",
            LineFault::BadArguments => "BadArguments",
            LineFault::BadToken => "BadToken",
            LineFault::BadLabel => "BadLabel",
            LineFault::BadCount => "BadCount",
            LineFault::BadLevel => "BadLevel",
            LineFault::BadNumber => "BadNumber",
        }
    }
}
