//! The line of a held pair.
ghost use Rattle.std.specs.Prelude.{◌≡◌, ◌≤◌, ◌++◌, ◌∷◌, ℕ, false, IfErr, IfNone, IfOk, IfSome, List, Some};
ghost use Rattle.s2ix_bag_pairs.specs.declared.pair.Held.{Held};
ghost use Rattle.s2ix_text_write.specs.Version.{dump_header, greatest_in};
ghost use Rattle.s2ix_text.specs.DumpFaults.{is_end, line_fault};
ghost use Rattle.s2ix_text.specs.PairLines.{IsCommonFront, IsCut, IsDumped, IsNext, held_written, last_pair, line_text, place_below};
ghost use Rattle.s2ix_text_parts.specs.Written.{comes_before};

use crate::dump_error::DumpFault;
use s2ix_bag_held::FlatHeld;
use s2ix_bag_pairs::{Held, Label, Limits, Pair};
use s2ix_text_parts::{
    cell_written, count_written, label_written, number_in_front, three_parts, token_in_front,
};
use s2ix_text_write::Version;

// The held pair that a line writes, with a count of at most `greatest`, or the first fault of its parts.
fn held_written(greatest: u32, line: &[u8]) -> Result<Held, DumpFault>
    ensures { result ≡ held_written greatest line.now }
{
    let Some((token, label, count)) = three_parts(line) else {
        return Err(DumpFault::BadLine);
    };
    let Some(cell) = cell_written(token) else {
        return Err(DumpFault::BadToken);
    };
    let Some(label) = label_written(label) else {
        return Err(DumpFault::BadLabel);
    };
    let Some(count) = count_written(greatest, count) else {
        return Err(DumpFault::BadCount);
    };
    Ok(Held {
        pair: Pair { cell, label },
        count,
    })
}

// Whether a pair comes after the last of those before, if there is one.
fn comes_after_pairs(before: &[FlatHeld], pair: Pair) -> bool
    ensures { result ≡ comes_before (last_pair before.now) (Some pair) }
{
    match before.last() {
        Some(last) => last.pair().is_before(pair),
        None => true,
    }
}

// The held pair of the line that follows those of the pairs before, in a dump of a version, or the fault of that line.
pub(crate) fn next_held(
    limits: Limits,
    version: Version,
    before: &[FlatHeld],
    line: &[u8],
) -> Result<Held, DumpFault>
    requires dumped { IsDumped limits (dump_header version) before.now }
    requires pair { is_end line.now ≡ false }
    ensures next { IfOk result (IsNext limits (dump_header version) before.now line.now) }
    ensures fault { IfErr result (λ fault. line_fault (place_below limits (dump_header version) before.now line.now) ≡ Some fault) }
{
    let next = held_written(version.greatest_count(), line)?;
    if !comes_after_pairs(before, next.pair) {
        return Err(DumpFault::Unsorted);
    }
    if next.count > limits.count() {
        return Err(DumpFault::TooManyCopies);
    }
    if before.len() >= limits.pairs() as usize {
        return Err(DumpFault::TooManyPairs);
    }
    Ok(next)
}

// The held pair whose line stands at the front of a text, and what is after that line, if it has the common shape.
#[inline]
fn held_in_front(greatest: u32, text: &[u8]) -> Option<(Held, &[u8])>
    ensures line { IfSome result (λ read. text.now ≡ line_text read.0 ++ 10 ∷ read.1.now) }
    ensures some { IfSome result (λ read. 1 ≤ read.0.count) }
    ensures within_limit { IfSome result (λ read. read.0.count ≤ greatest) }
    ensures none { IfNone result ((held : Held) (rest : List ℕ) → ¬ IsCommonFront greatest text.now held rest) }
{
    let (cell, after) = token_in_front(text)?;
    let (label, after) = number_in_front(after, b' ')?;
    let (count, after) = number_in_front(after, b'\n')?;
    let label = Label::new(label)?;
    if count == 0 || count > greatest {
        return None;
    }
    let held = Held {
        pair: Pair { cell, label },
        count,
    };
    Some((held, after))
}

// The held pair that follows those of the pairs before, in a dump of a version, and what is after its line, if that line stands at the
// front of a text and has the common shape. If it answers nothing, no line of the common shape stands there that is the next.
#[inline]
pub(crate) fn next_in_front<'a>(
    limits: Limits,
    version: Version,
    before: &[FlatHeld],
    text: &'a [u8],
) -> Option<(Held, &'a [u8])>
    requires dumped { IsDumped limits (dump_header version) before.now }
    ensures line { IfSome result (λ read. IsCut text.now (line_text read.0) read.1.now) }
    ensures next { IfSome result (λ read. IsNext limits (dump_header version) before.now (line_text read.0) read.0) }
    ensures none { IfNone result ((held : Held) (rest : List ℕ) → IsCommonFront (greatest_in version) text.now held rest
        → ¬ IsNext limits (dump_header version) before.now (line_text held) held) }
{
    let (next, after) = held_in_front(version.greatest_count(), text)?;
    if !comes_after_pairs(before, next.pair) || next.count > limits.count() {
        return None;
    }
    if before.len() >= limits.pairs() as usize {
        return None;
    }
    Some((next, after))
}
