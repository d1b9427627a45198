//! What a change of heavy cells makes of their chunks: only those that it touches are made anew.
ghost use Rattle.std.specs.Prelude.{◌≡◌, ◌↔◌, ℕ, ◌+◌, ◌*◌, ◌<◌, ◌≤◌, ◌++◌, IfOk, IsTrue, OnOk, drop, length, take};
ghost use Rattle.s2ix_bag_lists.specs.Faces.{AreEntriesBelow, all_of};
ghost use Rattle.s2ix_bag_lists.specs.Parts.{AreEntriesUpTo};
ghost use Rattle.s2ix_bag_pairs.specs.Change.{IsChangeList, IsChangeListFrom, changed};
ghost use Rattle.s2ix_bag_pairs.specs.Collection.{IsCollection};
ghost use Rattle.s2ix_bag_pairs.specs.Pair.{rank_of};
ghost use Rattle.s2ix_table_heavy.specs.Chunks.{AreChunks, IsOfOneCell};

use s2id_core::OutOfMemory;
use s2ix_bag_held::{FlatHeld, HeldList};
use s2ix_bag_lists::merge;
use s2ix_bag_pairs::{Entry, Pair};
use s2ix_table_heavy::cut_into_chunks;
use std::alloc::Global;

// The chunks once a change is applied: those without an entry are shared, the others made anew, in chunks of at most `max_part_len` pairs, but at
// least one. A cell that has no chunk yet gets chunks of its own, at its place in the order. O(c + m + k) for c chunks, m entries and the k
// pairs of the chunks made anew. `OutOfMemory` if a growth is refused, or a chunk is shared too often.
pub(crate) fn chunks_after(
    alloc: Global,
    chunks: &[HeldList],
    entries: &[Entry],
    max_part_len: usize,
) -> Result<Vec<HeldList>, OutOfMemory>
    requires chunks { AreChunks chunks.now }
    requires entries_rise { IsChangeList entries.now }
    requires within_limit { length (changed (all_of chunks.now) entries.now) ≤ 1000000 }
    ensures chunks { IfOk result (λ made. AreChunks made.items) }
    ensures pairs { IfOk result (λ made. all_of made.items ≡ changed (all_of chunks.now) entries.now) }
{
    let mut made = Vec::with_capacity(alloc, chunks.len())?;
    let mut ahead = chunks;
    let mut rest = entries;
    while !ahead.is_empty() {
        let (own, behind) = rest.split_at(own_count(ahead, rest));
        put_changed(alloc, &mut made, &ahead[0], own, max_part_len)?;
        rest = behind;
        (_, ahead) = ahead.split_at(1);
    }
    put_cut(alloc, &mut made, &[], rest, max_part_len)?;
    Ok(made)
}

// How many entries are the first chunk's: if the next chunk has the same cell, those before its first pair, else those up to the last one
// of the first chunk's cell. O(k) for the answer k.
fn own_count(chunks: &[HeldList], entries: &[Entry]) -> usize
    requires chunks { AreChunks chunks.now }
    requires some { 0 < length chunks.now }
    requires entries_rise { IsChangeList entries.now }
    ensures within { result ≤ length entries.now }
    ensures cut { AreEntriesUpTo chunks.now 0 entries.now result }
{
    let cell = chunks[0].at(0).pair.cell;
    if chunks.len() > 1 {
        let next = chunks[1].at(0).pair;
        if next.cell == cell {
            return count_before(entries, cell.raw(), next.label.get());
        }
    }
    count_before(entries, cell.raw() + 1, 0)
}

// Whether a pair comes before the one with a cell number and a label.
fn is_before(pair: Pair, number: u64, label: u32) -> bool
    requires { label ≤ 2147483647 }
    ensures { IsTrue result ↔ (rank_of pair < number * 2147483648 + label) }
{
    let own = pair.cell.raw();
    if own == number {
        pair.label.get() < label
    } else {
        own < number
    }
}

// How many entries come before the pair with a cell number and a label. O(k) for the answer k.
fn count_before(entries: &[Entry], number: u64, label: u32) -> usize
    requires rises { IsChangeList entries.now }
    requires label { label ≤ 2147483647 }
    ensures within { result ≤ length entries.now }
    ensures below { AreEntriesBelow (number * 2147483648 + label) (take result entries.now) }
    ensures rest { IsChangeListFrom (number * 2147483648 + label) (drop result entries.now) }
{
    let mut count = 0;
    while count < entries.len() && is_before(entries[count].pair, number, label) {
        count += 1;
    }
    count
}

// Appends what entries make of a chunk and of cells before it: the chunk itself, shared, if there are no entries, else new chunks.
fn put_changed(
    alloc: Global,
    chunks: &mut Vec<HeldList>,
    own: &HeldList,
    entries: &[Entry],
    max_part_len: usize,
) -> Result<(), OutOfMemory>
    requires chunks { AreChunks chunks.old.items }
    requires some { 0 < length own.now }
    requires held_rise { IsCollection own.now }
    requires one_cell { IsOfOneCell own.now }
    requires entries_rise { IsChangeList entries.now }
    requires rises { IsCollection (all_of chunks.old.items ++ changed own.now entries.now) }
    requires within_limit { length (all_of chunks.old.items ++ changed own.now entries.now) ≤ 1000000 }
    ensures chunks { OnOk result (AreChunks chunks.new.items) }
    ensures pairs { OnOk result (all_of chunks.new.items ≡ all_of chunks.old.items ++ changed own.now entries.now) }
{
    if entries.is_empty() {
        let shared = own.clone()?;
        chunks.push(shared)?;
        return Ok(());
    }
    put_cut(alloc, chunks, own.as_slice(), entries, max_part_len)
}

// Appends what entries make of held pairs, in new chunks of about the same length.
fn put_cut(
    alloc: Global,
    chunks: &mut Vec<HeldList>,
    own: &[FlatHeld],
    entries: &[Entry],
    max_part_len: usize,
) -> Result<(), OutOfMemory>
    requires chunks { AreChunks chunks.old.items }
    requires held_rise { IsCollection own.now }
    requires entries_rise { IsChangeList entries.now }
    requires rises { IsCollection (all_of chunks.old.items ++ changed own.now entries.now) }
    requires within_limit { length (all_of chunks.old.items ++ changed own.now entries.now) ≤ 1000000 }
    ensures chunks { OnOk result (AreChunks chunks.new.items) }
    ensures pairs { OnOk result (all_of chunks.new.items ≡ all_of chunks.old.items ++ changed own.now entries.now) }
{
    let held = merge(alloc, own, entries)?;
    put_chunks(
        alloc,
        chunks,
        held.as_slice(),
        even_len(held.len(), max_part_len),
    )
}

// Appends held pairs that come after all others, in chunks of at most `max_part_len` pairs, but at least one.
pub(crate) fn put_chunks(
    alloc: Global,
    chunks: &mut Vec<HeldList>,
    held: &[FlatHeld],
    max_part_len: usize,
) -> Result<(), OutOfMemory>
    requires chunks { AreChunks chunks.old.items }
    requires rises { IsCollection (all_of chunks.old.items ++ held.now) }
    requires within_limit { length (all_of chunks.old.items ++ held.now) ≤ 1000000 }
    ensures chunks { OnOk result (AreChunks chunks.new.items) }
    ensures pairs { OnOk result (all_of chunks.new.items ≡ all_of chunks.old.items ++ held.now) }
{
    let mut new = cut_into_chunks(alloc, held, max_part_len)?;
    chunks.append(&mut new)?;
    Ok(())
}

// How long chunks of at most `max_part_len` pairs are if so many pairs lie evenly in as few of them as can be. No clause says so: if all chunks but
// the last were full, the next pair would cut each of them again.
fn even_len(len: usize, max_part_len: usize) -> usize {
    len.div_ceil(len.div_ceil(max_part_len.max(1)).max(1))
}
