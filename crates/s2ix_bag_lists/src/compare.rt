ghost use Rattle.std.specs.Prelude.{◌≡◌, ◌++◌, [], map, IfOk, OnOk};
ghost use Rattle.s2ix_bag_pairs.specs.Change.{change_between, entry_with, removal_of, inverse_of};
ghost use Rattle.s2ix_bag_pairs.specs.Collection.{IsCollection};

use crate::search::{count_first, next_from, past_pair};
use s2id_core::OutOfMemory;
use s2ix_bag_held::FlatHeld;
use s2ix_bag_pairs::{Entry, Pair};
use std::alloc::Global;

// Appends an entry for each held pair, which is held no more.
fn push_removals(out: &mut Vec<Entry>, held: &[FlatHeld]) -> Result<(), OutOfMemory>
    ensures { OnOk result (out.new.items ≡ out.old.items ++ map removal_of held.now) }
{
    for h in held {
        out.push(Entry {
            pair: h.pair(),
            before: h.count(),
            after: 0,
        })?;
    }
    Ok(())
}

// Appends an entry for a pair whose two counts differ.
fn push_difference(
    out: &mut Vec<Entry>,
    pair: Pair,
    before: u32,
    after: u32,
) -> Result<(), OutOfMemory>
    ensures { OnOk result (out.new.items ≡ out.old.items ++ entry_with pair before after []) }
{
    if before != after {
        out.push(Entry {
            pair,
            before,
            after,
        })?;
    }
    Ok(())
}

/// The entries of the change that leads from `old` to `new`: the pairs whose counts differ, with both counts, rising. `OutOfMemory` if a
/// growth is refused. O(k + n) for their k and n pairs.
pub fn differences(
    alloc: Global,
    old: &[FlatHeld],
    new: &[FlatHeld],
) -> Result<Vec<Entry>, OutOfMemory>
    requires old_rise { IsCollection old.now }
    requires new_rise { IsCollection new.now }
    ensures { IfOk result (λ v. v.items ≡ change_between old.now new.now) }
{
    let mut out = Vec::new(alloc);
    let mut rest = old;
    for flat in new {
        let held = flat.held();
        let (smaller, from_pair) = rest.split_at(next_from(rest, held.pair));
        push_removals(&mut out, smaller)?;
        push_difference(
            &mut out,
            held.pair,
            count_first(from_pair, held.pair),
            held.count,
        )?;
        rest = past_pair(from_pair, held.pair);
    }
    push_removals(&mut out, rest)?;
    Ok(out)
}

/// The entries with their two counts exchanged. `OutOfMemory` if a growth is refused. O(m).
pub fn exchanged_entries(alloc: Global, entries: &[Entry]) -> Result<Vec<Entry>, OutOfMemory>
    ensures { IfOk result (λ v. v.items ≡ inverse_of entries.now) }
{
    let exchanged = |e: &Entry| Entry {
        pair: e.pair,
        before: e.after,
        after: e.before,
    };
    Ok(entries.iter().map(exchanged).collect(alloc)?)
}
