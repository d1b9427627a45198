//! A text cut into lines, and a line into parts.
ghost use Rattle.std.specs.Prelude.{◌≡◌, ◌∷◌, ◌++◌, [], false, true, IfNone, IfSome};
ghost use Rattle.s2ix_text_parts.specs.Lines.{has_parts, lines_of, part, parts_of, pieces_at};

use memchr::memchr;

// A text up to the first byte `end`, and what is after that; `None` if it has none.
fn cut_at(text: &[u8], end: u8) -> Option<(&[u8], &[u8])>
    ensures none { IfNone result (pieces_at end text.now ≡ text.now ∷ []) }
    ensures cut { IfSome result (λ cut. text.now ≡ cut.0.now ++ end ∷ cut.1.now) }
    ensures piece { IfSome result (λ cut. pieces_at end text.now ≡ cut.0.now ∷ pieces_at end cut.1.now) }
{
    let place = memchr(end, text)?;
    Some((&text[..place], &text[place + 1..]))
}

/// A text up to its first line feed, and what is after that; `None` if it has no line feed. O(n) for the n bytes of the line.
#[tactic(auto, unfolding(crate::specs::Lines::lines_of))]
pub fn cut_line(text: &[u8]) -> Option<(&[u8], &[u8])>
    ensures none { IfNone result (lines_of text.now ≡ text.now ∷ []) }
    ensures cut { IfSome result (λ cut. text.now ≡ cut.0.now ++ 10 ∷ cut.1.now) }
    ensures line { IfSome result (λ cut. lines_of text.now ≡ cut.0.now ∷ lines_of cut.1.now) }
{
    cut_at(text, b'\n')
}

/// A line up to its first space, and what is after that; `None` if it has no space. O(n) for the n bytes of the part.
#[tactic(auto, unfolding(crate::specs::Lines::parts_of))]
pub fn cut_part(line: &[u8]) -> Option<(&[u8], &[u8])>
    ensures none { IfNone result (parts_of line.now ≡ line.now ∷ []) }
    ensures part { IfSome result (λ cut. parts_of line.now ≡ cut.0.now ∷ parts_of cut.1.now) }
{
    cut_at(line, b' ')
}

/// The first part of a line: all of it if it has no space. O(n) for the n bytes of the part.
pub fn first_part(line: &[u8]) -> &[u8]
    ensures { result.now ≡ part 0 line.now }
{
    match cut_part(line) {
        Some((part, _)) => part,
        None => line,
    }
}

/// The parts of a line that has exactly three, none of them empty; `None` for any other line. O(n) for its n bytes.
pub fn three_parts(line: &[u8]) -> Option<(&[u8], &[u8], &[u8])>
    ensures none { IfNone result (has_parts 3 line.now ≡ false) }
    ensures some { IfSome result (λ _. has_parts 3 line.now ≡ true) }
    ensures parts { IfSome result (λ parts. parts_of line.now ≡ parts.0.now ∷ parts.1.now ∷ parts.2.now ∷ []) }
{
    let (first, rest) = cut_part(line)?;
    let (second, third) = cut_part(rest)?;
    if cut_part(third).is_some() {
        return None;
    }
    if first.is_empty() || second.is_empty() || third.is_empty() {
        return None;
    }
    Some((first, second, third))
}
