ghost use Rattle.std.specs.Prelude.{◌≡◌};
ghost use Rattle.s2ix_cli_words.specs.Flushing.{flushed_end};

use s2ix_text_parts::{RunFault, WriteFault};

/// How a run came out once its output was flushed: the first fault, or else whether all was accepted. The flush comes last, so a flush that
/// fails is the first fault only if the run had none.
pub fn first_fault(
    ended: Result<bool, RunFault>,
    flushed: Result<(), WriteFault>,
) -> Result<bool, RunFault>
    ensures { result ≡ flushed_end ended flushed }
{
    let accepted = ended?;
    flushed?;
    Ok(accepted)
}
