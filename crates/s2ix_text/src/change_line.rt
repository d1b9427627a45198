//! The lines outside groups: those that begin one, and the end line.
ghost use Rattle.std.specs.Prelude.{◌≡◌, ◌↔◌, IsTrue, true};
ghost use Rattle.s2ix_text.specs.JournalFaults.{end_text, is_end};
ghost use Rattle.s2ix_text.specs.JournalLines.{next_size};

use crate::journal_error::JournalFault;
use crate::numbers::size_written;
use crate::parts::two_parts;
use itoa::Buffer;
use s2ix_bag_pairs::Limits;

// Whether a line with the first part `end` is the end line of so many groups.
pub(crate) fn is_end_of(groups: usize, line: &[u8]) -> bool
    requires { is_end line.now ≡ true }
    ensures { IsTrue result ↔ (line.now ≡ end_text groups) }
{
    let Some((_, number)) = two_parts(line) else {
        return false;
    };
    let mut digits = Buffer::new();
    number == digits.format(groups).as_bytes()
}

// How many entries the group has that a line begins, below so many groups; or the fault of the line.
pub(crate) fn next_size(limits: Limits, groups: usize, line: &[u8]) -> Result<u32, JournalFault>
    ensures { result ≡ next_size limits groups line.now }
{
    let Some((word, number)) = two_parts(line) else {
        return Err(JournalFault::BadLine);
    };
    if word != b"change".as_slice() {
        return Err(JournalFault::BadLine);
    }
    let Some(size) = size_written(number) else {
        return Err(JournalFault::BadCount);
    };
    if groups >= limits.changes() as usize {
        return Err(JournalFault::TooManyChanges);
    }
    Ok(size)
}
