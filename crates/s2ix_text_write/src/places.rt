//! Parts of a line, written at a place of an array, which has room there for the longest: so no copy has a length of its own.
ghost use Rattle.std.specs.Prelude.{◌≡◌, ◌+◌, ◌≤◌, ◌++◌, ◌∷◌, [], decimal, length, take};
ghost use Rattle.s2id_core.specs.CellId.{raw_of};
ghost use Rattle.s2id_core.specs.Token.{canonical_token};
ghost use Rattle.s2ix_text_write.specs.Lists.{end_of_list, line_between};

use itoa::write_digits;
use s2id_core::{CellId, sixteen_digits};
use s2ix_bag_pairs::Held;

// How many bytes a line has at most, whatever its numbers: that of an entry has a token of 16, three numbers of 20, and four bytes after
// these.
pub(crate) const LONGEST_LINE: usize = 80;

// Writes the line of a held pair at a place, with a byte between its parts, and answers where it ends.
#[inline]
pub(crate) fn pair_at(room: &mut [u8], place: usize, between: u8, held: Held) -> usize
    requires { place + 59 ≤ length room.old }
    ensures line { take result room.new ≡ take place room.old ++ line_between between held }
    ensures end { result ≤ place + 59 }
{
    let place = token_at(room, place, held.pair.cell);
    let place = byte_at(room, place, between);
    let place = number_at(room, place, held.pair.label.get() as u64);
    let place = byte_at(room, place, between);
    let place = number_at(room, place, held.count as u64);
    byte_at(room, place, b'\n')
}

// Writes the last line of a list of `count` items at a place, and answers where it ends.
#[inline]
pub(crate) fn end_at(room: &mut [u8], place: usize, count: usize) -> usize
    requires { place + 59 ≤ length room.old }
    ensures line { take result room.new ≡ take place room.old ++ end_of_list count }
    ensures end { result ≤ place + 59 }
{
    room[place..place + 4].copy_from_slice(b"end ");
    let place = number_at(room, place + 4, count as u64);
    byte_at(room, place, b'\n')
}

// Writes a byte at a place, and answers where it ends.
#[inline]
pub(crate) fn byte_at(room: &mut [u8], place: usize, byte: u8) -> usize
    requires { place + 1 ≤ length room.old }
    ensures byte { take result room.new ≡ take place room.old ++ byte ∷ [] }
    ensures end { result ≡ place + 1 }
{
    room[place] = byte;
    place + 1
}

// Writes a cell's token at a place, and answers where it ends.
#[inline]
pub(crate) fn token_at(room: &mut [u8], place: usize, cell: CellId) -> usize
    requires { place + 16 ≤ length room.old }
    ensures token { take result room.new ≡ take place room.old ++ canonical_token (raw_of cell) }
    ensures end { result ≤ place + 16 }
{
    let raw = cell.raw();
    room[place..place + 16].copy_from_slice(&sixteen_digits(raw));
    place + 16 - raw.trailing_zeros() as usize / 4
}

// Writes a number at a place, and answers where it ends.
#[inline]
pub(crate) fn number_at(room: &mut [u8], place: usize, number: u64) -> usize
    requires { place + 20 ≤ length room.old }
    ensures number { take result room.new ≡ take place room.old ++ decimal number }
    ensures end { result ≤ place + 20 }
{
    let end = place + digits_of(number);
    let _start = write_digits(number, room, end);
    end
}

// How many digits write a number.
#[inline]
fn digits_of(number: u64) -> usize
    ensures digits { result ≡ length (decimal number) }
    ensures at_most { result ≤ 20 }
{
    match number {
        0..10 => 1,
        10..100 => 2,
        100..1_000 => 3,
        1_000..10_000 => 4,
        10_000..100_000 => 5,
        100_000..1_000_000 => 6,
        1_000_000..10_000_000 => 7,
        10_000_000..100_000_000 => 8,
        100_000_000..1_000_000_000 => 9,
        1_000_000_000..10_000_000_000 => 10,
        10_000_000_000..100_000_000_000 => 11,
        100_000_000_000..1_000_000_000_000 => 12,
        1_000_000_000_000..10_000_000_000_000 => 13,
        10_000_000_000_000..100_000_000_000_000 => 14,
        100_000_000_000_000..1_000_000_000_000_000 => 15,
        1_000_000_000_000_000..10_000_000_000_000_000 => 16,
        10_000_000_000_000_000..100_000_000_000_000_000 => 17,
        100_000_000_000_000_000..1_000_000_000_000_000_000 => 18,
        1_000_000_000_000_000_000..10_000_000_000_000_000_000 => 19,
        _ => 20,
    }
}
