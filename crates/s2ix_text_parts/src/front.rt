//! What stands at the front of a text, read in one pass over its bytes.
//!
//! Each call answers only what is sure. For a text too short for a fixed number of steps it returns `None`: then the readers of a line's
//! parts decide.
ghost use Rattle.std.specs.Prelude.{◌≡◌, ◌^◌, ◌<◌, ◌≤◌, ◌++◌, ◌∷◌, All, decimal, length, slice_index, take, IfNone, IfSome};
ghost use Rattle.std.specs.Char.{digit_value};
ghost use Rattle.std.specs.Str.Parse.{AllDigits, digits_value};
ghost use Rattle.s2id_core.specs.CellId.{raw_of};
ghost use Rattle.s2id_core.specs.Token.{IsLowerHex, canonical_token};
ghost use Rattle.s2ix_text_parts.specs.Fronts.{HasNoCellInFront, HasNoNumberInFront};

use s2id_core::CellId;

// What each byte is worth as a hexadecimal digit, of lower case alone; 16 if it is none.
const LOWER_VALUES: [u8; 256] = [
    16, 16, 16, 16, 16, 16, 16, 16, 16, 16, 16, 16, 16, 16, 16, 16, 16, 16, 16, 16, 16, 16, 16, 16,
    16, 16, 16, 16, 16, 16, 16, 16, 16, 16, 16, 16, 16, 16, 16, 16, 16, 16, 16, 16, 16, 16, 16, 16,
    0, 1, 2, 3, 4, 5, 6, 7, 8, 9, 16, 16, 16, 16, 16, 16, 16, 16, 16, 16, 16, 16, 16, 16, 16, 16,
    16, 16, 16, 16, 16, 16, 16, 16, 16, 16, 16, 16, 16, 16, 16, 16, 16, 16, 16, 16, 16, 16, 16, 10,
    11, 12, 13, 14, 15, 16, 16, 16, 16, 16, 16, 16, 16, 16, 16, 16, 16, 16, 16, 16, 16, 16, 16, 16,
    16, 16, 16, 16, 16, 16, 16, 16, 16, 16, 16, 16, 16, 16, 16, 16, 16, 16, 16, 16, 16, 16, 16, 16,
    16, 16, 16, 16, 16, 16, 16, 16, 16, 16, 16, 16, 16, 16, 16, 16, 16, 16, 16, 16, 16, 16, 16, 16,
    16, 16, 16, 16, 16, 16, 16, 16, 16, 16, 16, 16, 16, 16, 16, 16, 16, 16, 16, 16, 16, 16, 16, 16,
    16, 16, 16, 16, 16, 16, 16, 16, 16, 16, 16, 16, 16, 16, 16, 16, 16, 16, 16, 16, 16, 16, 16, 16,
    16, 16, 16, 16, 16, 16, 16, 16, 16, 16, 16, 16, 16, 16, 16, 16, 16, 16, 16, 16, 16, 16, 16, 16,
    16, 16, 16, 16, 16, 16, 16, 16, 16, 16, 16, 16, 16, 16,
];

/// The cell whose canonical token stands at the front of a text, up to a space, and what is after that space.
///
/// `None` also for a text of less than 17 bytes. One look at each byte of the token, so O(1).
#[inline]
pub fn token_in_front(text: &[u8]) -> Option<(CellId, &[u8])>
    ensures cell { IfSome result (λ read. text.now ≡ canonical_token (raw_of read.0) ++ 32 ∷ read.1.now) }
    ensures none { IfNone result (16 < length text.now → HasNoCellInFront text.now) }
{
    if text.len() <= 16 {
        return None;
    }
    let (number, len) = lower_digits(text);
    if len == 0 || text[len] != b' ' || text[len - 1] == b'0' {
        return None;
    }
    let cell = CellId::from_raw(number << (64 - 4 * len))?;
    Some((cell, &text[len + 1..]))
}

/// The number whose canonical digits stand at the front of a text, up to the byte `end`, and what is after that byte.
///
/// `None` also for a number of ten digits or more, and for a text of less than 10 bytes. The byte `end` must be no digit, since no number
/// ends before one. One look at each byte of the number, so O(1).
#[inline]
pub fn number_in_front(text: &[u8], end: u8) -> Option<(u32, &[u8])>
    ensures number { IfSome result (λ read. text.now ≡ decimal read.0 ++ end ∷ read.1.now) }
    ensures small { IfSome result (λ read. read.0 < 10 ^ 9) }
    ensures none { IfNone result (9 < length text.now → 10 ≤ digit_value end → HasNoNumberInFront end text.now) }
{
    if text.len() <= 9 {
        return None;
    }
    let (number, len) = decimal_digits(text);
    if len == 0 || text[len] != end {
        return None;
    }
    if len > 1 && text[0] == b'0' {
        return None;
    }
    Some((number, &text[len + 1..]))
}

// The number that the first hexadecimal digits of a text write, all of lower case, and how many these are; 16 at most.
#[inline]
fn lower_digits(text: &[u8]) -> (u64, usize)
    requires { 16 < length text.now }
    ensures at_most { result.1 ≤ 16 }
    ensures digits { All IsLowerHex (take result.1 text.now) }
    ensures stop { result.1 < 16 → ¬ IsLowerHex (slice_index text.now result.1) }
    ensures value { result.0 ≡ digits_value 16 (take result.1 text.now) }
{
    let mut number = 0u64;
    for place in 0..16 {
        let digit = lower_worth(text[place]);
        if digit > 15 {
            return (number, place);
        }
        number = number * 16 + digit as u64;
    }
    (number, 16)
}

// The number that the first decimal digits of a text write, and how many these are; 9 at most.
#[inline]
fn decimal_digits(text: &[u8]) -> (u32, usize)
    requires { 9 < length text.now }
    ensures at_most { result.1 ≤ 9 }
    ensures digits { AllDigits 10 (take result.1 text.now) }
    ensures stop { result.1 < 9 → 10 ≤ digit_value (slice_index text.now result.1) }
    ensures value { result.0 ≡ digits_value 10 (take result.1 text.now) }
{
    let mut number = 0u32;
    for place in 0..9 {
        let digit = decimal_worth(text[place]);
        if digit > 9 {
            return (number, place);
        }
        number = number * 10 + digit as u32;
    }
    (number, 9)
}

// What a byte is worth as a decimal digit; above 9 if it is none.
#[inline]
fn decimal_worth(byte: u8) -> u8
    ensures digit { digit_value byte < 10 → result ≡ digit_value byte }
    ensures other { 10 ≤ digit_value byte → 10 ≤ result }
{
    byte.wrapping_sub(b'0')
}

// What a byte is worth as a hexadecimal digit of lower case; 16 if it is none.
#[inline]
fn lower_worth(byte: u8) -> u8
    ensures digit { IsLowerHex byte → result ≡ digit_value byte }
    ensures other { ¬ IsLowerHex byte → result ≡ 16 }
{
    LOWER_VALUES[byte as usize]
}
