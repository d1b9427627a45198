//! Journals, read back.
ghost use Rattle.std.specs.Prelude.{◌≡◌, ◌≢◌, ◌↔◌, ◌<◌, ◌≤◌, ◌∷◌, ◌++◌, [], ℕ, Err, false, true, flat_map, length, max, All, IfErr, IfOk, List, MatchResult, None, OnOk};
ghost use Rattle.s2ix_bag_pairs.specs.Change.{IsChangeList};
ghost use Rattle.s2ix_bag_pairs.specs.Limits.{changes_limit, count_limit};
ghost use Rattle.s2ix_bag_pairs.specs.declared.pair.Entry.{Entry};
ghost use Rattle.s2ix_text_write.specs.Journal.{IsJournalText, group_text, last_line};
ghost use Rattle.s2ix_text_write.specs.Version.{journal_version};
ghost use Rattle.s2ix_text.specs.declared.journal_error.JournalError.TheVariants.{OutOfMemory};
ghost use Rattle.s2ix_text.specs.JournalFaults.{IsJournalError, after_of_line, before_of_line, read_above, greatest_count, is_end, journal_fault, line_fault};
ghost use Rattle.s2ix_text.specs.Forms.{lacks_counts, lacks_form};
ghost use Rattle.s2ix_text.specs.JournalLines.{lines_down_to};
ghost use Rattle.s2ix_text.specs.Journals.{AreGroups, AreWithin, IsJournal};
ghost use Rattle.s2ix_text_parts.specs.LineFaults.{fault_below};
ghost use Rattle.s2ix_text_parts.specs.Lines.{lines_of, part};
ghost use Rattle.s2ix_text_parts.specs.NumberedLines.{line_at, lines_above, place_at};
ghost use Rattle.s2ix_text_parts.specs.Written.{cell_written, comes_before, label_written, pair_written};

use crate::change_line::{is_end_of, next_size};
use crate::group::read_group;
use crate::journal_error::{JournalError, JournalFault};
use crate::push::push;
use s2ix_bag_changes::Change;
use s2ix_bag_pairs::Limits;
use s2ix_text_parts::{cut_line, first_part};
use s2ix_text_write::Version;
use std::alloc::Global;

// What is read below the header of a journal whose counts go up to `greatest`.
fn read_groups(
    alloc: Global,
    greatest: u32,
    limits: Limits,
    text: &[u8],
) -> Result<Vec<Change>, JournalError>
    ensures groups { IfOk result (λ changes. AreGroups greatest limits changes.items) }
    ensures text { IfOk result (λ changes. text.now ≡ flat_map group_text changes.items ++ last_line changes.items) }
    ensures refused { (header : List ℕ) → greatest_count header ≡ greatest
        → IfErr result (λ error. IsJournalError error (fault_below line_fault limits (lines_down_to header []) (lines_of text.now))) }
{
    let mut changes = Vec::new(alloc);
    let mut number = 2;
    let mut rest = text;
    while let Some((line, below)) = cut_line(rest) {
        if first_part(line) == b"end".as_slice() {
            if !is_end_of(changes.len(), line) {
                return Err(JournalError::At {
                    line: number,
                    fault: JournalFault::BadEnd,
                });
            }
            if !below.is_empty() {
                return Err(JournalError::At {
                    line: number + 1,
                    fault: JournalFault::TrailingBytes,
                });
            }
            return Ok(changes);
        }
        match next_size(limits, changes.len(), line) {
            Ok(size) => {
                let (entries, after) = read_group(
                    alloc,
                    greatest,
                    limits,
                    size,
                    number + 1,
                    below,
                )?;
                push(&mut changes, Change::from_vec(entries))?;
                number += 1 + size as usize;
                rest = after;
            }
            Err(fault) => return Err(JournalError::At {
                line: number,
                fault,
            }),
        }
    }
    Err(JournalError::At {
        line: number,
        fault: JournalFault::Truncated,
    })
}

/// Reads a journal of either version under limits. It returns the changes whose journal the text is, the oldest first, or the first line
/// that has a fault, with the first fault of that line.
///
/// Lines count from 1. `OutOfMemory` may be returned instead of a fault on line 2 or later. O(n) for n bytes. It allocates once for each
/// change, at most three bytes for each byte of the text in all, and then what the list takes.
pub fn read_journal(alloc: Global, text: &[u8], limits: Limits) -> Result<Vec<Change>, JournalError>
    ensures changes { IfOk result (λ changes. All IsChangeList changes.items) }
    ensures within { IfOk result (λ changes. AreWithin limits changes.items) }
    ensures text { IfOk result (λ changes. IsJournalText text.now changes.items) }
    ensures every { (cs : List (List Entry)) → IsJournal limits cs → IsJournalText text.now cs
        → MatchResult result (λ changes. changes.items ≡ cs) (λ error. error ≡ OutOfMemory) }
    ensures accepted { OnOk result (journal_fault limits text.now ≡ None) }
    ensures refused { IfErr result (λ error. IsJournalError error (journal_fault limits text.now)) }

    // Each refusal by itself. Those of the first line are answered wherever they stand.
    ensures no_feed { (result ≡ Err (JournalError.At 1 JournalFault.Truncated)) ↔ (length (lines_of text.now) ≡ 1) }
    ensures bad_header { (result ≡ Err (JournalError.At 1 JournalFault.BadHeader))
        ↔ ((1 < length (lines_of text.now)) × (journal_version (line_at 1 text.now) ≡ None)) }

    // In place of the others `OutOfMemory` may come, but only below a header.
    ensures memory { result ≡ Err JournalError.OutOfMemory → journal_version (line_at 1 text.now) ≢ None }
    ensures truncated { (line : ℕ) → result ≡ Err (JournalError.At line JournalFault.Truncated) → line ≡ length (lines_of text.now) }
    ensures bad_end { (line : ℕ) → result ≡ Err (JournalError.At line JournalFault.BadEnd) → is_end (line_at line text.now) ≡ true }
    ensures bad_line { (line : ℕ) → result ≡ Err (JournalError.At line JournalFault.BadLine)
        → lacks_form (place_at limits line text.now) ≡ true }
    ensures bad_token { (line : ℕ) → result ≡ Err (JournalError.At line JournalFault.BadToken)
        → cell_written (part 0 (line_at line text.now)) ≡ None }
    ensures bad_label { (line : ℕ) → result ≡ Err (JournalError.At line JournalFault.BadLabel)
        → label_written (part 1 (line_at line text.now)) ≡ None }
    ensures bad_count { (line : ℕ) → result ≡ Err (JournalError.At line JournalFault.BadCount)
        → lacks_counts (place_at limits line text.now) ≡ true }
    ensures no_difference { (line : ℕ) → result ≡ Err (JournalError.At line JournalFault.NoDifference)
        → before_of_line (place_at limits line text.now) ≡ after_of_line (place_at limits line text.now) }
    ensures unsorted { (line : ℕ) → result ≡ Err (JournalError.At line JournalFault.Unsorted)
        → comes_before (read_above (lines_above line text.now)).last (pair_written (line_at line text.now)) ≡ false }
    ensures too_many_copies { (line : ℕ) → result ≡ Err (JournalError.At line JournalFault.TooManyCopies)
        → count_limit limits < max (before_of_line (place_at limits line text.now)) (after_of_line (place_at limits line text.now)) }
    ensures too_many_changes { (line : ℕ) → result ≡ Err (JournalError.At line JournalFault.TooManyChanges)
        → changes_limit limits ≤ (read_above (lines_above line text.now)).groups }
    ensures trailing { (line : ℕ) → result ≡ Err (JournalError.At line JournalFault.TrailingBytes)
        → (read_above (lines_above line text.now)).over ≡ true }
{
    let Some((header, below)) = cut_line(text) else {
        return Err(JournalError::At {
            line: 1,
            fault: JournalFault::Truncated,
        });
    };
    let Some(version) = Version::of_journal(header) else {
        return Err(JournalError::At {
            line: 1,
            fault: JournalFault::BadHeader,
        });
    };
    read_groups(alloc, version.greatest_count(), limits, below)
}
