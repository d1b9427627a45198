//! What a line of a script asks for.
ghost use Rattle.std.specs.Prelude.{◌≡◌, ◌==◌, slice_index};
ghost use Rattle.s2ix_cli_script.specs.Named.{Means};
ghost use Rattle.s2ix_cli_script.specs.Meaning.{asks_on_union, meaning_of, meaning_of_fields};

use crate::instruction::Instruction;
use crate::line_fault::{LineError, LineFault};
use crate::words::asked_by;
use s2ix_cli_words::Fields;
use std::alloc::Global;

/// The most bytes that a line of a script may have, its line feed not counted.
pub const LONGEST_LINE: usize = 65536;

/// What a line asks for: nothing if it has no field, or its first field begins with `#`. The line comes without its line feed. Unicode's
/// white space separates its fields; bytes that are no UTF-8 separate nothing. O(n) for n bytes, and what it takes to normalise a list of
/// cells. It allocates only for such a list, and only if the line asks for something.
///
/// The first of these faults that applies is returned: too long, no word of a script, a number of fields that does not fit the word, then
/// the first unfit field from the left.
#[tactic(auto, using(crate::proofs::Comments::comment_means), unfolding(crate::specs::Meaning::meaning_of))]
pub fn meaning(alloc: Global, line: &[u8]) -> Result<Option<Instruction>, LineError>
    ensures { Means asks_on_union result (meaning_of line.now) }
{
    if line.len() > LONGEST_LINE {
        return Err(LineError::Fault(LineFault::LineTooLong));
    }
    if is_comment(line) {
        return Ok(None);
    }
    meaning_of_fields(alloc, Fields::new(line))
}

// What the fields of a line ask for.
#[tactic(auto, using(crate::proofs::WantedLines::line_fault))]
fn meaning_of_fields(
    alloc: Global,
    mut fields: Fields<'_>,
) -> Result<Option<Instruction>, LineError>
    ensures { Means asks_on_union result (meaning_of_fields fields.entry) }
{
    let Some(word) = fields.next() else {
        return Ok(None);
    };
    if is_comment(word) {
        return Ok(None);
    }
    Ok(Some(asked_by(alloc, word, fields)?))
}

// Whether a line with this first field, or that begins so, is a comment.
fn is_comment(text: &[u8]) -> bool
    ensures { result ≡ (slice_index text.now 0 == 35) }
{
    matches!(text, [b'#', ..])
}
