ghost use Rattle.std.specs.Prelude.{◌≡◌};
ghost use Rattle.s2ix_cli_run.specs.Asking.{is_question as asks_question};

use s2ix_cli_script::Instruction;

/// Whether an instruction changes nothing, whatever the store: it is no edit, undo, redo or `forget`.
pub fn is_question(instruction: &Instruction) -> bool
    ensures { result ≡ asks_question instruction.now }
{
    !matches!(
        instruction,
        Instruction::Edit(_) | Instruction::Undo | Instruction::Redo | Instruction::Forget
    )
}
