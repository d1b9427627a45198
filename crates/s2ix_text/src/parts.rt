//! A line cut into the parts of a line of a journal.
ghost use Rattle.std.specs.Prelude.{◌≡◌, ◌∷◌, [], false, true, IfNone, IfSome};
ghost use Rattle.s2ix_text_parts.specs.Lines.{has_parts, parts_of};

use s2ix_text_parts::cut_part;

// The parts of a line that has exactly two, none of them empty.
pub(crate) fn two_parts(line: &[u8]) -> Option<(&[u8], &[u8])>
    ensures none { IfNone result (has_parts 2 line.now ≡ false) }
    ensures some { IfSome result (λ _. has_parts 2 line.now ≡ true) }
    ensures parts { IfSome result (λ parts. parts_of line.now ≡ parts.0.now ∷ parts.1.now ∷ []) }
{
    let (first, second) = cut_part(line)?;
    if cut_part(second).is_some() {
        return None;
    }
    if first.is_empty() || second.is_empty() {
        return None;
    }
    Some((first, second))
}

// The parts of a line that has exactly four, none of them empty.
pub(crate) fn four_parts(line: &[u8]) -> Option<(&[u8], &[u8], &[u8], &[u8])>
    ensures none { IfNone result (has_parts 4 line.now ≡ false) }
    ensures some { IfSome result (λ _. has_parts 4 line.now ≡ true) }
    ensures parts { IfSome result (λ parts. parts_of line.now ≡ parts.0.now ∷ parts.1.now ∷ parts.2.now ∷ parts.3.now ∷ []) }
{
    let (first, after) = cut_part(line)?;
    let (second, rest) = cut_part(after)?;
    let (third, fourth) = cut_part(rest)?;
    if cut_part(fourth).is_some() {
        return None;
    }
    if first.is_empty() || second.is_empty() || third.is_empty() || fourth.is_empty() {
        return None;
    }
    Some((first, second, third, fourth))
}
