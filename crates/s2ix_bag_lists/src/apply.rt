ghost use Rattle.std.specs.Prelude.{◌≡◌, ◌==◌, ◌++◌, not, nat_lt, [], count_by, position, IfOk, OnOk};
ghost use Rattle.std.specs.List.{list_any};
ghost use Rattle.s2ix_bag_pairs.specs.Change.{IsChangeList, changed};
ghost use Rattle.s2ix_bag_pairs.specs.Collection.{IsCollection, count_in, held_with};

use crate::search::{count_first, next_from, past_pair};
use s2id_core::OutOfMemory;
use s2ix_bag_held::FlatHeld;
use s2ix_bag_pairs::{Entry, Held, Pair};
use std::alloc::Global;

// The place of the first entry whose count before is not that of the held pairs. It searches from place to place in growing steps:
// O(m log n) for m entries and n pairs, and never above O(n + m).
pub(crate) fn first_mismatch(held: &[FlatHeld], entries: &[Entry]) -> Option<usize>
    requires held_rise { IsCollection held.now }
    requires entries_rise { IsChangeList entries.now }
    ensures { result ≡ position (λ e. not (e.before == count_in held.now e.pair)) entries.now }
{
    let mut rest = held;
    for (place, entry) in entries.iter().enumerate() {
        let (_, from_pair) = rest.split_at(next_from(rest, entry.pair));
        if count_first(from_pair, entry.pair) != entry.before {
            return Some(place);
        }
        rest = from_pair;
    }
    None
}

/// How many entries have a pair that is not held before. O(m).
pub fn gains(entries: &[Entry]) -> usize
    ensures { result ≡ count_by (λ e. e.before == 0) entries.now }
{
    entries.iter().filter(|e| e.before == 0).count()
}

/// How many entries have a pair that is not held after. O(m).
pub fn losses(entries: &[Entry]) -> usize
    ensures { result ≡ count_by (λ e. e.after == 0) entries.now }
{
    entries.iter().filter(|e| e.after == 0).count()
}

/// Whether an entry's count after is above the limit. O(m).
pub fn has_count_above(entries: &[Entry], limit: u32) -> bool
    ensures { result ≡ list_any (λ e. nat_lt limit e.after) entries.now }
{
    entries.iter().any(|e| limit < e.after)
}

// Appends a pair that is held if its count is above 0.
fn push_held(out: &mut Vec<FlatHeld>, pair: Pair, count: u32) -> Result<(), OutOfMemory>
    ensures { OnOk result (out.new.items ≡ out.old.items ++ held_with pair count []) }
{
    if count > 0 {
        out.push(FlatHeld::new(Held { pair, count }))?;
    }
    Ok(())
}

/// The held pairs once a change is applied: each pair of an entry has the entry's count after. One growth if the counts before are right;
/// `OutOfMemory` if a growth is refused. O(n + m).
pub fn merge(
    alloc: Global,
    held: &[FlatHeld],
    entries: &[Entry],
) -> Result<Vec<FlatHeld>, OutOfMemory>
    requires held_rise { IsCollection held.now }
    requires entries_rise { IsChangeList entries.now }
    ensures { IfOk result (λ v. v.items ≡ changed held.now entries.now) }
{
    let mut out = Vec::with_capacity(alloc, held.len().saturating_add(gains(entries)))?;
    let mut rest = held;
    for entry in entries {
        let (smaller, from_pair) = rest.split_at(next_from(rest, entry.pair));
        out.extend_from_slice(smaller)?;
        push_held(&mut out, entry.pair, entry.after)?;
        rest = past_pair(from_pair, entry.pair);
    }
    out.extend_from_slice(rest)?;
    Ok(out)
}
