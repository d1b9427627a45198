//! The line of an entry.
ghost use Rattle.std.specs.Prelude.{◌≡◌, Some};
ghost use Rattle.s2ix_text.specs.JournalLines.{entry_written, last_pair, next_entry};
ghost use Rattle.s2ix_text_parts.specs.Written.{comes_before};

use crate::journal_error::JournalFault;
use crate::numbers::side_written;
use crate::parts::four_parts;
use s2ix_bag_pairs::{Entry, Limits, Pair};
use s2ix_text_parts::{cell_written, label_written};

// The entry that a line writes with counts up to `greatest`, or the first fault of its parts.
fn entry_written(greatest: u32, line: &[u8]) -> Result<Entry, JournalFault>
    ensures { result ≡ entry_written greatest line.now }
{
    let Some((token, label, before, after)) = four_parts(line) else {
        return Err(JournalFault::BadLine);
    };
    let Some(cell) = cell_written(token) else {
        return Err(JournalFault::BadToken);
    };
    let Some(label) = label_written(label) else {
        return Err(JournalFault::BadLabel);
    };
    let Some(before) = side_written(greatest, before) else {
        return Err(JournalFault::BadCount);
    };
    let Some(after) = side_written(greatest, after) else {
        return Err(JournalFault::BadCount);
    };
    Ok(Entry {
        pair: Pair { cell, label },
        before,
        after,
    })
}

// Whether a pair comes after the last of the entries before, if there is one.
fn comes_after_entries(before: &[Entry], pair: Pair) -> bool
    ensures { result ≡ comes_before (last_pair before.now) (Some pair) }
{
    match before.last() {
        Some(last) => last.pair.is_before(pair),
        None => true,
    }
}

// The entry of the line that follows those of the entries before in its group, with counts up to `greatest`; or the fault of that line.
pub(crate) fn next_entry(
    greatest: u32,
    limits: Limits,
    before: &[Entry],
    line: &[u8],
) -> Result<Entry, JournalFault>
    ensures { result ≡ next_entry greatest limits (last_pair before.now) line.now }
{
    let next = entry_written(greatest, line)?;
    if next.before == next.after {
        return Err(JournalFault::NoDifference);
    }
    if !comes_after_entries(before, next.pair) {
        return Err(JournalFault::Unsorted);
    }
    if next.before > limits.count() || next.after > limits.count() {
        return Err(JournalFault::TooManyCopies);
    }
    Ok(next)
}
