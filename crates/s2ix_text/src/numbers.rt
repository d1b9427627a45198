//! The numbers that the lines of a journal write.
ghost use Rattle.std.specs.Prelude.{◌≡◌};
ghost use Rattle.s2ix_text.specs.Numbers.{side_written, size_written};

use s2ix_text_parts::number_written;

const FEWEST_ENTRIES: u32 = 1;

const MOST_ENTRIES: u32 = 2_000_000;

// The count before or after a change, from 0 to `greatest`, which a text writes.
pub(crate) fn side_written(greatest: u32, text: &[u8]) -> Option<u32>
    ensures { result ≡ side_written greatest text.now }
{
    let count = number_written(text)?;
    if count <= greatest { Some(count) } else { None }
}

// The number of entries of a change, from 1 to 2000000, which a text writes.
pub(crate) fn size_written(text: &[u8]) -> Option<u32>
    ensures { result ≡ size_written text.now }
{
    let size = number_written(text)?;
    if size < FEWEST_ENTRIES {
        return None;
    }
    if size <= MOST_ENTRIES {
        Some(size)
    } else {
        None
    }
}
