ghost use Rattle.std.specs.Prelude.{◌≡◌, ◌/◌, ◌%◌};
ghost use Rattle.std.specs.Char.{digit_char};
ghost use Rattle.s2id_core.specs.Token.{sixteen_digits as digits_of};

// The two hexadecimal digits of each byte, one pair after the other.
const PAIRS: [u8; 512] = *b"\
    000102030405060708090a0b0c0d0e0f101112131415161718191a1b1c1d1e1f\
    202122232425262728292a2b2c2d2e2f303132333435363738393a3b3c3d3e3f\
    404142434445464748494a4b4c4d4e4f505152535455565758595a5b5c5d5e5f\
    606162636465666768696a6b6c6d6e6f707172737475767778797a7b7c7d7e7f\
    808182838485868788898a8b8c8d8e8f909192939495969798999a9b9c9d9e9f\
    a0a1a2a3a4a5a6a7a8a9aaabacadaeafb0b1b2b3b4b5b6b7b8b9babbbcbdbebf\
    c0c1c2c3c4c5c6c7c8c9cacbcccdcecfd0d1d2d3d4d5d6d7d8d9dadbdcdddedf\
    e0e1e2e3e4e5e6e7e8e9eaebecedeeeff0f1f2f3f4f5f6f7f8f9fafbfcfdfeff";

/// A number in sixteen lower-case hexadecimal digits, the highest first. It does not allocate.
pub fn sixteen_digits(number: u64) -> [u8; 16]
    ensures { result ≡ digits_of number }
{
    let mut digits = [0u8; 16];
    for pair in 0..8 {
        let byte = (number >> (56 - 8 * pair) & 255) as u8;
        digits[2 * pair] = high_digit(byte);
        digits[2 * pair + 1] = low_digit(byte);
    }
    digits
}

// The digit that writes the upper half of a byte.
#[inline]
fn high_digit(byte: u8) -> u8
    ensures { result ≡ digit_char (byte / 16) }
{
    PAIRS[2 * byte as usize]
}

// The digit that writes the lower half of a byte.
#[inline]
fn low_digit(byte: u8) -> u8
    ensures { result ≡ digit_char (byte % 16) }
{
    PAIRS[2 * byte as usize + 1]
}
