//! What fields ask for that is no edit and on no union.
ghost use Rattle.std.specs.Prelude.{◌≡◌};
ghost use Rattle.s2ix_cli_script.specs.Meaning.{bare, common_named, only_named};

use crate::fields::labels_named;
use crate::instruction::Instruction;
use crate::line_fault::LineFault;
use s2ix_cli_words::Fields;

// An instruction that takes no field.
pub(crate) fn bare(
    instruction: Instruction,
    fields: &mut Fields<'_>,
) -> Result<Instruction, LineFault>
    ensures { result ≡ bare instruction fields.old }
{
    match fields.next() {
        None => Ok(instruction),
        Some(_) => Err(LineFault::BadArguments),
    }
}

// What `common` asks for, whose labels the two fields LABEL LABEL name.
pub(crate) fn common_named(fields: &mut Fields<'_>) -> Result<Instruction, LineFault>
    ensures { result ≡ common_named fields.old }
{
    let (first, second) = labels_named(fields)?;
    Ok(Instruction::Common(first, second))
}

// What `only` asks for, whose labels the two fields LABEL LABEL name.
pub(crate) fn only_named(fields: &mut Fields<'_>) -> Result<Instruction, LineFault>
    ensures { result ≡ only_named fields.old }
{
    let (first, second) = labels_named(fields)?;
    Ok(Instruction::Only(first, second))
}
