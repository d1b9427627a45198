//! The entries of a group.
ghost use Rattle.std.specs.Prelude.{◌≡◌, ◌<◌, ◌≤◌, ◌+◌, ◌*◌, ◌^◌, ◌∷◌, ◌++◌, [], ℕ, false, flat_map, length, slice_index_or, vec_capacity, List, IfErr, IfOk, IsOk, OnOk};
ghost use Rattle.s2ix_text_write.specs.Journal.{entry_line};
ghost use Rattle.s2ix_text.specs.JournalFaults.{IsJournalError, read_above, greatest_count, line_fault};
ghost use Rattle.s2ix_text.specs.JournalLines.{at_group};
ghost use Rattle.s2ix_text.specs.Journals.{AreEntries};
ghost use Rattle.s2ix_text_parts.specs.LineFaults.{fault_below};
ghost use Rattle.s2ix_text_parts.specs.Lines.{is_nil, lines_of};

use crate::entry_line::next_entry;
use crate::journal_error::{JournalError, JournalFault};
use crate::push::push;
use s2ix_bag_pairs::{Entry, Limits};
use s2ix_text_parts::cut_line;
use std::alloc::{AllocError, Global};

// The bytes of the shortest line of an entry, as `1 0 0 1`, with its line feed.
const SHORTEST_LINE: usize = 8;

// Room for so many entries, but no more than so many bytes can write.
fn room_for_entries(alloc: Global, size: usize, text: &[u8]) -> Result<Vec<Entry>, AllocError>
    ensures empty { IfOk result (λ room. room.items ≡ []) }
    ensures within_size { IfOk result (λ room. vec_capacity room ≤ size) }
    ensures written { IfOk result (λ room. vec_capacity room * 8 ≤ length text.now) }
    ensures memory { length text.now < 8 → IsOk result }
{
    Vec::with_capacity(alloc, size.min(text.len() / SHORTEST_LINE))
}

// The entries of a group of this size, with counts up to `greatest`, whose first line has this number, and the text below them; or the
// first line of the group with a fault, and the first fault of that line. O(n) for n bytes of the group, and one growth, of at most three
// bytes for each byte of the text.
pub(crate) fn read_group(
    alloc: Global,
    greatest: u32,
    limits: Limits,
    size: u32,
    number: usize,
    text: &[u8],
) -> Result<(Vec<Entry>, &[u8]), JournalError>
    requires number { number + size < 2 ^ 64 }
    ensures entries { IfOk result (λ read. AreEntries greatest limits read.0.items) }
    ensures size { IfOk result (λ read. length read.0.items ≡ size) }
    ensures text { IfOk result (λ read. text.now ≡ flat_map entry_line read.0.items ++ read.1.now) }
    ensures refused { (above : List (List ℕ)) (groups : ℕ) → is_nil above ≡ false → length above + 1 ≡ number
        → read_above above ≡ at_group size groups → greatest_count (slice_index_or above 0 []) ≡ greatest
        → IfErr result (λ error. IsJournalError error (fault_below line_fault limits above (lines_of text.now))) }
{
    let wanted = size as usize;
    let mut entries = room_for_entries(alloc, wanted, text)?;
    let mut rest = text;
    while entries.len() < wanted {
        let line_number = number + entries.len();
        let Some((line, below)) = cut_line(rest) else {
            return Err(JournalError::At {
                line: line_number,
                fault: JournalFault::Truncated,
            });
        };
        match next_entry(greatest, limits, entries.as_slice(), line) {
            Ok(next) => push(&mut entries, next)?,
            Err(fault) => return Err(JournalError::At {
                line: line_number,
                fault,
            }),
        }
        rest = below;
    }
    Ok((entries, rest))
}
