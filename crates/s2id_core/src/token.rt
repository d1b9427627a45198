ghost use Rattle.std.specs.Prelude.{◌≡◌, ℕ, ◌↔◌, ◌<◌, ◌≤◌, min, length, IfOk, IfErr, IsErrOf};
ghost use Rattle.std.specs.Char.{digit_value};
ghost use Rattle.std.specs.Result.{result_ok};
ghost use Rattle.s2id_core.specs.Token.{Spells, IsFirstNotHex, canonical_token};

use crate::cell_id::CellId;
use crate::hexadecimal::sixteen_digits;
use thiserror::Error;

/// Why a text is no token. The faults are tested in this order.
#[derive(Clone, Copy, Debug, PartialEq, Eq, Error)]
pub enum TokenError {
    /// The text has no bytes.
    #[error("empty token")]
    Empty,
    /// The text has more than 16 bytes.
    #[error("token of more than 16 bytes")]
    TooLong,
    /// The byte at this place, counted from 0, is the first that is no hexadecimal digit.
    #[error("byte {0} of the token is no hexadecimal digit")]
    NotHex(usize),
    /// The text is a number that no cell has.
    #[error("token of no cell")]
    NotACell,
}

/// A cell's canonical token: its number in 16 lower-case hexadecimal digits without the zeros at the end (S2's `ToToken`). It does not
/// allocate.
#[derive(Clone, Copy, Debug)]
pub struct Token {
    bytes: [u8; 16],
    len: usize,
    ghost within: { len ≤ 16 },
}

impl Token {
    ghost use Rattle.s2id_core.specs.TokenText.{text_of_token};

    /// The token's text, ASCII digits and lower-case letters.
    pub fn as_bytes(&self) -> &[u8]
        ensures { result.now ≡ text_of_token self.now }
    {
        &self.bytes[..self.len]
    }
}

// What each byte is worth as a hexadecimal digit of either case; 16 if it is none.
const DIGIT_VALUES: [u8; 256] = [
    16, 16, 16, 16, 16, 16, 16, 16, 16, 16, 16, 16, 16, 16, 16, 16, 16, 16, 16, 16, 16, 16, 16, 16,
    16, 16, 16, 16, 16, 16, 16, 16, 16, 16, 16, 16, 16, 16, 16, 16, 16, 16, 16, 16, 16, 16, 16, 16,
    0, 1, 2, 3, 4, 5, 6, 7, 8, 9, 16, 16, 16, 16, 16, 16, 16, 10, 11, 12, 13, 14, 15, 16, 16, 16,
    16, 16, 16, 16, 16, 16, 16, 16, 16, 16, 16, 16, 16, 16, 16, 16, 16, 16, 16, 16, 16, 16, 16, 10,
    11, 12, 13, 14, 15, 16, 16, 16, 16, 16, 16, 16, 16, 16, 16, 16, 16, 16, 16, 16, 16, 16, 16, 16,
    16, 16, 16, 16, 16, 16, 16, 16, 16, 16, 16, 16, 16, 16, 16, 16, 16, 16, 16, 16, 16, 16, 16, 16,
    16, 16, 16, 16, 16, 16, 16, 16, 16, 16, 16, 16, 16, 16, 16, 16, 16, 16, 16, 16, 16, 16, 16, 16,
    16, 16, 16, 16, 16, 16, 16, 16, 16, 16, 16, 16, 16, 16, 16, 16, 16, 16, 16, 16, 16, 16, 16, 16,
    16, 16, 16, 16, 16, 16, 16, 16, 16, 16, 16, 16, 16, 16, 16, 16, 16, 16, 16, 16, 16, 16, 16, 16,
    16, 16, 16, 16, 16, 16, 16, 16, 16, 16, 16, 16, 16, 16, 16, 16, 16, 16, 16, 16, 16, 16, 16, 16,
    16, 16, 16, 16, 16, 16, 16, 16, 16, 16, 16, 16, 16, 16,
];

impl CellId {
    ghost use Rattle.s2id_core.specs.declared.cell_id.CellId.{CellId};
    ghost use Rattle.s2id_core.specs.Cell.{IsCellNumber};
    ghost use Rattle.s2id_core.specs.CellId.{raw_of};
    ghost use Rattle.s2id_core.specs.Spelled.{cell_spelled};
    ghost use Rattle.s2id_core.specs.TokenText.{text_of_token};

    /// The cell that a text spells: 1 to 16 hexadecimal digits of either case; digits missing on the right are zeros (S2's `FromToken`).
    /// The faults are tested in the order of `TokenError`.
    pub fn from_token(text: &[u8]) -> Result<CellId, TokenError>
        ensures spelled { IfOk result (λ cell. Spells text.now (raw_of cell)) }
        ensures accepted { (cell : CellId) → Spells text.now (raw_of cell) → result ≡ Ok cell }
        ensures cell { result_ok result ≡ cell_spelled text.now }
        ensures empty { IsErrOf result TokenError.Empty ↔ (length text.now ≡ 0) }
        ensures too_long { IsErrOf result TokenError.TooLong ↔ (16 < length text.now) }
        ensures not_hex { (place : ℕ)
            → IsErrOf result (TokenError.NotHex place)
            ↔ ((length text.now ≤ 16) × IsFirstNotHex text.now place) }
        ensures not_a_cell { IsErrOf result TokenError.NotACell
            ↔ ((n : ℕ) × Spells text.now n × ¬ IsCellNumber n) }
    {
        if text.is_empty() {
            return Err(TokenError::Empty);
        }
        if text.len() > 16 {
            return Err(TokenError::TooLong);
        }
        match spelled_number(text) {
            Ok(number) => CellId::from_raw(number).ok_or(TokenError::NotACell),
            Err(place) => Err(TokenError::NotHex(place)),
        }
    }

    /// The cell's canonical token (S2's `ToToken`).
    pub fn token(self) -> Token
        ensures { text_of_token result ≡ canonical_token (raw_of self) }
    {
        let raw = self.raw();
        Token {
            bytes: sixteen_digits(raw),
            len: 16 - raw.trailing_zeros() as usize / 4,
        }
    }
}

// The number that 1 to 16 hexadecimal digits spell, or the place of the first byte that is none.
fn spelled_number(text: &[u8]) -> Result<u64, usize>
    requires some { 0 < length text.now }
    requires at_most { length text.now ≤ 16 }
    ensures spelled { IfOk result (Spells text.now) }
    ensures fault { IfErr result (IsFirstNotHex text.now) }
{
    let mut number = 0u64;
    for (place, byte) in text.iter().enumerate() {
        let digit = worth(*byte);
        if digit > 15 {
            return Err(place);
        }
        number = number * 16 + digit as u64;
    }
    Ok(number << (64 - 4 * text.len()))
}

// What a byte is worth as a hexadecimal digit of either case; 16 if it is none.
#[inline]
fn worth(byte: u8) -> u8
    ensures { result ≡ min 16 (digit_value byte) }
{
    DIGIT_VALUES[byte as usize]
}
