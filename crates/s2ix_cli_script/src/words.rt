//! The words of a script, and what the fields after each ask for.
ghost use Rattle.std.specs.Prelude.{◌≡◌};
ghost use Rattle.std.specs.Str.{bytes_eq};
ghost use Rattle.s2ix_cli_script.specs.Named.{Means};
ghost use Rattle.s2ix_cli_script.specs.Meaning.{asked_by, asked_for, is_on_union, word_in, words};

use crate::cells::{add_union_named, union_named};
use crate::edits::{
    add_named, drop_named, grow_named, normal_named, relabel_named, remove_named, revert_named,
};
use crate::fields::{cell_named, label_named};
use crate::instruction::Instruction;
use crate::line_fault::{LineError, LineFault};
use crate::plain::{bare, common_named, only_named};
use s2ix_cli_words::{Fields, each_instruction};
use std::alloc::Global;

/// The first field of a line that asks for something.
#[derive(Clone, Copy)]
pub(crate) enum Word {
    Add,
    Remove,
    AddUnion,
    Drop,
    Relabel,
    Grow,
    Normal,
    Revert,
    Undo,
    Redo,
    Forget,
    At,
    Meet,
    Labels,
    Ranges,
    Region,
    Common,
    Only,
    Path,
    Neighbors,
    Face,
    Dump,
    Journal,
    Export,
}

// What a word and the fields after it ask for.
pub(crate) fn asked_by(
    alloc: Global,
    word: &[u8],
    fields: Fields<'_>,
) -> Result<Instruction, LineError>
    ensures { Means is_on_union result (asked_by word.now fields.entry) }
{
    match word_named(word) {
        Some(word) => asked_for(alloc, word, fields),
        None => Err(LineError::Fault(LineFault::BadCommand)),
    }
}

// Returns the `Word` of the first row whose word has the text's bytes.
macro_rules! return_named {
    ($text:ident; $($name:ident $word:literal $fields:literal $meaning:literal,)*) => {
        $(if is($text, $word) {
            return Some(Word::$name);
        })*
    };
}

// The `Word` that a text spells, or `None`.
fn word_named(text: &[u8]) -> Option<Word>
    ensures { result ≡ word_in words text.now }
{
    each_instruction!(return_named text;);
    None
}

// Whether a text has exactly a word's bytes.
#[inline(always)]
fn is(text: &[u8], word: &str) -> bool
    ensures { result ≡ bytes_eq text.now word.now }
{
    text == word.as_bytes()
}

// What the fields after a word ask for.
#[tactic(auto, using(crate::proofs::WantedFields::wanting))]
fn asked_for(alloc: Global, word: Word, mut fields: Fields<'_>) -> Result<Instruction, LineError>
    ensures { Means is_on_union result (asked_for word fields.entry) }
{
    match word {
        Word::Add => Ok(Instruction::Edit(add_named(&mut fields)?)),
        Word::Remove => Ok(Instruction::Edit(remove_named(&mut fields)?)),
        Word::AddUnion => Ok(Instruction::Edit(add_union_named(alloc, fields)?)),
        Word::Drop => Ok(Instruction::Edit(drop_named(&mut fields)?)),
        Word::Relabel => Ok(Instruction::Edit(relabel_named(&mut fields)?)),
        Word::Grow => Ok(Instruction::Edit(grow_named(&mut fields)?)),
        Word::Normal => Ok(Instruction::Edit(normal_named(&mut fields)?)),
        Word::Revert => Ok(Instruction::Edit(revert_named(&mut fields)?)),
        Word::Undo => Ok(bare(Instruction::Undo, &mut fields)?),
        Word::Redo => Ok(bare(Instruction::Redo, &mut fields)?),
        Word::Forget => Ok(bare(Instruction::Forget, &mut fields)?),
        Word::At => Ok(Instruction::At(cell_named(&mut fields)?)),
        Word::Meet => Ok(Instruction::Meet(union_named(alloc, fields)?)),
        Word::Labels => Ok(Instruction::Labels(union_named(alloc, fields)?)),
        Word::Ranges => Ok(bare(Instruction::Ranges, &mut fields)?),
        Word::Region => Ok(Instruction::Region(label_named(&mut fields)?)),
        Word::Common => Ok(common_named(&mut fields)?),
        Word::Only => Ok(only_named(&mut fields)?),
        Word::Path => Ok(Instruction::Path(cell_named(&mut fields)?)),
        Word::Neighbors => Ok(Instruction::Neighbors(cell_named(&mut fields)?)),
        Word::Face => Ok(Instruction::Face(cell_named(&mut fields)?)),
        Word::Dump => Ok(bare(Instruction::Dump, &mut fields)?),
        Word::Journal => Ok(bare(Instruction::Journal, &mut fields)?),
        Word::Export => Ok(bare(Instruction::Export, &mut fields)?),
    }
}
