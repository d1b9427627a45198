//! What the parts of a line write.
ghost use Rattle.std.specs.Prelude.{◌≡◌, ◌≢◌, ◌^◌, ◌<◌, ℕ, IfNone, IfSome, Some};
ghost use Rattle.s2ix_text_parts.specs.Written.{cell_written, count_written, label_written, number_written};

use itoa::Buffer;
use s2id_core::CellId;
use s2ix_bag_pairs::Label;
use std::str;

/// The cell that a text names by its canonical token: what `CellId::token` prints, and no other spelling. O(1): no text of more than 16
/// bytes is one.
pub fn cell_written(text: &[u8]) -> Option<CellId>
    ensures { result ≡ cell_written text.now }
{
    let cell = CellId::from_token(text).ok()?;
    if text == cell.token().as_bytes() {
        Some(cell)
    } else {
        None
    }
}

/// The number below 2^32 that a text writes in canonical digits, as printing gives them. O(n) for n bytes.
pub fn number_written(text: &[u8]) -> Option<u32>
    ensures some { IfSome result (λ n. number_written text.now ≡ Some n) }
    ensures none { IfNone result ((n : ℕ) → n < 2 ^ 32 → number_written text.now ≢ Some n) }
{
    let number = str::from_utf8(text).ok()?.parse::<u32>().ok()?;
    let mut digits = Buffer::new();
    if text == digits.format(number).as_bytes() {
        Some(number)
    } else {
        None
    }
}

/// The label whose number a text writes, in canonical digits. O(n) for n bytes.
pub fn label_written(text: &[u8]) -> Option<Label>
    ensures { result ≡ label_written text.now }
{
    Label::new(number_written(text)?)
}

/// The count of a pair that is held, from 1 to `greatest`, which a text writes in canonical digits. O(n) for n bytes.
pub fn count_written(greatest: u32, text: &[u8]) -> Option<u32>
    ensures { result ≡ count_written greatest text.now }
{
    let count = number_written(text)?;
    if count == 0 || count > greatest {
        return None;
    }
    Some(count)
}
