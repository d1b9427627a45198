//! The numbers and labels that fields write.
ghost use Rattle.std.specs.Prelude.{◌≡◌};
ghost use Rattle.s2ix_cli_words.specs.Fields.{change_number_spelled, copies_spelled, label_spelled, level_spelled, script_number};

use s2ix_bag_pairs::Label;

// The most digits that a number in a script has.
const MOST_DIGITS: usize = 10;

// The number that 1 to 10 decimal digits write; leading zeros are accepted.
fn script_number(text: &[u8]) -> Option<u64>
    ensures { result ≡ script_number text.now }
{
    if text.is_empty() || text.len() > MOST_DIGITS {
        return None;
    }
    let mut value: u64 = 0;
    for byte in text {
        if !byte.is_ascii_digit() {
            return None;
        }
        value = value * 10 + u64::from(*byte - b'0');
    }
    Some(value)
}

/// The label that a field names: 1 to 10 decimal digits of at most 2147483647, leading zeros accepted.
pub fn label_spelled(text: &[u8]) -> Option<Label>
    ensures { result ≡ label_spelled text.now }
{
    let value = script_number(text)?;
    Label::new(u32::try_from(value).ok()?)
}

/// The number of copies that a field names, from 1 to 4294967295, in 1 to 10 decimal digits.
pub fn copies_spelled(text: &[u8]) -> Option<u32>
    ensures { result ≡ copies_spelled text.now }
{
    match script_number(text)? {
        copies @ 1..=4294967295 => Some(copies as u32),
        _ => None,
    }
}

/// The level that a field names, from 0 to 30, in 1 to 10 decimal digits.
pub fn level_spelled(text: &[u8]) -> Option<u8>
    ensures { result ≡ level_spelled text.now }
{
    match script_number(text)? {
        level @ 0..=30 => Some(level as u8),
        _ => None,
    }
}

/// The number of a change that a field names, from 1 to 100000, in 1 to 10 decimal digits.
pub fn change_number_spelled(text: &[u8]) -> Option<u32>
    ensures { result ≡ change_number_spelled text.now }
{
    match script_number(text)? {
        number @ 1..=100000 => Some(number as u32),
        _ => None,
    }
}
