//! Dumps, read back.
ghost use Rattle.std.specs.Prelude.{◌≡◌, ◌≢◌, ◌<◌, ◌≤◌, ◌+◌, ◌-◌, ◌*◌, ◌∷◌, ◌++◌, [], ℕ, Err, false, flat_map, length, vec_capacity, IfErr, IfNone, IfOk, IfSome, IsOk, MatchResult, None, OnOk, IsTrue, ◌↔◌, true};
ghost use Rattle.std.specs.List.{count_by, list_any};
ghost use Rattle.s2ix_bag_pairs.specs.Collection.{Collection, IsBag, copies_in};
ghost use Rattle.s2ix_bag_pairs.specs.Limits.{count_limit, pairs_limit};
ghost use Rattle.s2ix_text_write.specs.Dump.{IsDump, end_line, pair_line};
ghost use Rattle.s2ix_text_write.specs.Version.{dump_header, dump_version};
ghost use Rattle.s2ix_text.specs.DumpFaults.{IsDumpError, dump_fault, end_text, greatest_count, is_end, line_fault};
ghost use Rattle.s2ix_text_parts.specs.LineFaults.{fault_below};
ghost use Rattle.s2ix_text_parts.specs.Lines.{has_parts, lines_of, part};
ghost use Rattle.s2ix_text_parts.specs.NumberedLines.{line_at, lines_above};
ghost use Rattle.s2ix_text_parts.specs.Written.{cell_written, comes_before, count_of_line, count_written, label_written, pair_written};
ghost use Rattle.s2ix_text.specs.Feeds.{is_feed};
ghost use Rattle.s2ix_text.specs.PairLines.{IsCut, IsDumped, IsNext, line_text, lines_down_to};

use crate::dump_error::{DumpError, DumpFault};
use crate::pair_line::{next_held, next_in_front};
use crate::push::push;
use itoa::Buffer;
use s2id_core::OutOfMemory;
use s2ix_bag_changes::Bag;
use s2ix_bag_held::FlatHeld;
use s2ix_bag_pairs::{Held, Limits};
use s2ix_text_parts::{cut_line, first_part, three_parts};
use s2ix_text_write::Version;
use std::alloc::Global;

// Whether a line with the first part `end` is the end line of so many pairs and copies.
fn is_end_of(pairs: usize, copies: u64, line: &[u8]) -> bool
    requires { is_end line.now ≡ true }
    ensures { IsTrue result ↔ (line.now ≡ end_text pairs copies) }
{
    let Some((_, pairs_text, copies_text)) = three_parts(line) else {
        return false;
    };
    let mut pairs_digits = Buffer::new();
    let mut copies_digits = Buffer::new();
    let same_pairs = pairs_text == pairs_digits.format(pairs).as_bytes();
    let same_copies = copies_text == copies_digits.format(copies).as_bytes();
    same_pairs && same_copies
}

// How many bytes are counted at once: no more than a `u8` can count.
const BLOCK: usize = 128;

// The bytes of the shortest line of a pair, as `1 0 1`, with its line feed.
const SHORTEST_LINE: usize = 6;

// Room for as many pairs as a text has line feeds, but no more than the limit, and no more than so many bytes can write.
#[tactic(auto, using(crate::proofs::Counted::lines_counted))]
fn room_for_pairs(alloc: Global, limits: Limits, text: &[u8]) -> Result<Vec<FlatHeld>, OutOfMemory>
    ensures empty { IfOk result (λ room. room.items ≡ []) }
    ensures within_limit { IfOk result (λ room. vec_capacity room ≤ pairs_limit limits) }
    ensures written { IfOk result (λ room. vec_capacity room * 6 ≤ length text.now) }
    ensures lines { IfOk result (λ room. vec_capacity room < length (lines_of text.now)) }
    ensures memory { length text.now < 6 → IsOk result }
{
    let lines = feeds_of(text).min(text.len() / SHORTEST_LINE);
    Ok(Vec::with_capacity(alloc, lines.min(limits.pairs() as usize))?)
}

// How many line feeds a text has.
fn feeds_of(text: &[u8]) -> usize
    ensures { result ≤ count_by is_feed text.now }
{
    let mut feeds = 0usize;
    for block in text.chunks(BLOCK) {
        feeds = feeds.saturating_add(feeds_in(block));
    }
    feeds
}

// How many line feeds a block has.
fn feeds_in(block: &[u8]) -> usize
    ensures { result ≤ count_by is_feed block.now }
{
    let mut feeds = 0u8;
    for byte in block {
        feeds = feeds.wrapping_add(u8::from(*byte == b'\n'));
    }
    usize::from(feeds)
}

// The next held pair of a dump of a version and what is after its line, below the lines of the pairs before, which have so many copies; or
// nothing, if what is left is the end line.
fn next_line<'a>(
    limits: Limits,
    version: Version,
    before: &[FlatHeld],
    copies: u64,
    text: &'a [u8],
) -> Result<Option<(Held, &'a [u8])>, DumpError>
    requires dumped { IsDumped limits (dump_header version) before.now }
    requires sum { copies ≡ copies_in before.now }
    ensures next { IfOk result (λ line. IfSome line (λ read. IsCut text.now (line_text read.0) read.1.now)) }
    ensures fits { IfOk result (λ line. IfSome line (λ read. IsNext limits (dump_header version) before.now (line_text read.0) read.0)) }
    ensures end { IfOk result (λ line. IfNone line (text.now ≡ end_line before.now)) }
    ensures accepted { IfOk result (λ line. IfNone line
        (fault_below line_fault limits (lines_down_to (dump_header version) before.now) (lines_of text.now) ≡ None)) }
    ensures refused { IfErr result (λ error. IsDumpError error
        (fault_below line_fault limits (lines_down_to (dump_header version) before.now) (lines_of text.now))) }
{
    if let Some(read) = next_in_front(limits, version, before, text) {
        return Ok(Some(read));
    }
    let number = before.len() + 2;
    let Some((line, below)) = cut_line(text) else {
        return Err(DumpError::At {
            line: number,
            fault: DumpFault::Truncated,
        });
    };
    if first_part(line) != b"end".as_slice() {
        return match next_held(limits, version, before, line) {
            Ok(next) => Ok(Some((next, below))),
            Err(fault) => Err(DumpError::At {
                line: number,
                fault,
            }),
        };
    }
    if !is_end_of(before.len(), copies, line) {
        return Err(DumpError::At {
            line: number,
            fault: DumpFault::BadEnd,
        });
    }
    if !below.is_empty() {
        return Err(DumpError::At {
            line: number + 1,
            fault: DumpFault::TrailingBytes,
        });
    }
    Ok(None)
}

// What is read of a dump of a version below its header, into a list that is empty at first.
fn read_below(
    limits: Limits,
    version: Version,
    room: Vec<FlatHeld>,
    text: &[u8],
) -> Result<Vec<FlatHeld>, DumpError>
    requires room { room.items ≡ [] }
    ensures dumped { IfOk result (λ held. IsDumped limits (dump_header version) held.items) }
    ensures text { IfOk result (λ held. text.now ≡ flat_map pair_line held.items ++ end_line held.items) }
    ensures accepted { OnOk result (fault_below line_fault limits (lines_down_to (dump_header version) []) (lines_of text.now) ≡ None) }
    ensures refused { IfErr result (λ error. IsDumpError error
        (fault_below line_fault limits (lines_down_to (dump_header version) []) (lines_of text.now))) }
{
    let mut held = room;
    let mut copies = 0;
    let mut rest = text;
    while let Some((next, below)) = next_line(limits, version, held.as_slice(), copies, rest)? {
        copies += u64::from(next.count);
        let Ok(()) = push(&mut held, FlatHeld::new(next)) else {
            return Err(DumpError::OutOfMemory);
        };
        rest = below;
    }
    Ok(held)
}

/// Reads a dump of either version under limits. It returns the bag whose dump the text is, or the first line that has a fault, with the
/// first fault of that line.
///
/// Lines count from 1. `OutOfMemory` may be returned instead of a fault on line 2 or later. O(n) for n bytes. It allocates once for all
/// pairs, at most three bytes for each byte of the text, and then what the bag takes.
pub fn read_dump(alloc: Global, text: &[u8], limits: Limits) -> Result<Bag, DumpError>
    ensures limits { IfOk result (λ bag. bag.limits ≡ limits) }
    ensures within { IfOk result IsBag }
    ensures text { IfOk result (λ bag. IsDump text.now bag.held) }
    ensures every { (hs : Collection) → IsBag (record { limits = limits; held = hs }) → IsDump text.now hs
        → MatchResult result (λ bag. bag.held ≡ hs) (λ error. error ≡ DumpError.OutOfMemory) }
    ensures accepted { OnOk result (dump_fault limits text.now ≡ None) }
    ensures refused { IfErr result (λ error. IsDumpError error (dump_fault limits text.now)) }

    // Each refusal by itself. Those of the first line are answered wherever they stand.
    ensures no_feed { (result ≡ Err (DumpError.At 1 DumpFault.Truncated)) ↔ (length (lines_of text.now) ≡ 1) }
    ensures bad_header { (result ≡ Err (DumpError.At 1 DumpFault.BadHeader))
        ↔ ((1 < length (lines_of text.now)) × (dump_version (line_at 1 text.now) ≡ None)) }

    // In place of the others `OutOfMemory` may come, but only below a header.
    ensures memory { result ≡ Err DumpError.OutOfMemory → dump_version (line_at 1 text.now) ≢ None }
    ensures truncated { (line : ℕ) → result ≡ Err (DumpError.At line DumpFault.Truncated) → line ≡ length (lines_of text.now) }
    ensures bad_end { (line : ℕ) → result ≡ Err (DumpError.At line DumpFault.BadEnd) → is_end (line_at line text.now) ≡ true }
    ensures bad_line { (line : ℕ) → result ≡ Err (DumpError.At line DumpFault.BadLine) → has_parts 3 (line_at line text.now) ≡ false }
    ensures bad_token { (line : ℕ) → result ≡ Err (DumpError.At line DumpFault.BadToken)
        → cell_written (part 0 (line_at line text.now)) ≡ None }
    ensures bad_label { (line : ℕ) → result ≡ Err (DumpError.At line DumpFault.BadLabel)
        → label_written (part 1 (line_at line text.now)) ≡ None }
    ensures bad_count { (line : ℕ) → result ≡ Err (DumpError.At line DumpFault.BadCount)
        → count_written (greatest_count (line_at 1 text.now)) (part 2 (line_at line text.now)) ≡ None }
    ensures unsorted { (line : ℕ) → result ≡ Err (DumpError.At line DumpFault.Unsorted)
        → comes_before (pair_written (line_at (line - 1) text.now)) (pair_written (line_at line text.now)) ≡ false }
    ensures too_many_copies { (line : ℕ) → result ≡ Err (DumpError.At line DumpFault.TooManyCopies)
        → count_limit limits < count_of_line (greatest_count (line_at 1 text.now)) (line_at line text.now) }
    ensures too_many_pairs { (line : ℕ) → result ≡ Err (DumpError.At line DumpFault.TooManyPairs) → pairs_limit limits + 2 ≤ line }
    ensures trailing { (line : ℕ) → result ≡ Err (DumpError.At line DumpFault.TrailingBytes)
        → list_any is_end (lines_above line text.now) ≡ true }
{
    let Some((header, below)) = cut_line(text) else {
        return Err(DumpError::At {
            line: 1,
            fault: DumpFault::Truncated,
        });
    };
    let Some(version) = Version::of_dump(header) else {
        return Err(DumpError::At {
            line: 1,
            fault: DumpFault::BadHeader,
        });
    };
    let room = room_for_pairs(alloc, limits, below)?;
    let held = read_below(limits, version, room, below)?;
    Ok(Bag::from_held(alloc, limits, held.as_slice())?)
}
