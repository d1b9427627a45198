//! One change in place of several that follow each other.

ghost use Rattle.std.specs.Prelude.{◌≡◌, ◌<◌, ◌≤◌, ◌+◌, ◌++◌, [], get_or, length, IfOk, vec_capacity, vec_len};
ghost use Rattle.s2ix_bag_pairs.specs.Change.{IsChangeList, entry_with};
ghost use Rattle.s2ix_edit_store.specs.Joining.{DoesAll, followed_by};

use s2id_core::OutOfMemory;
use s2ix_bag_changes::Change;
use s2ix_bag_pairs::Entry;
use std::alloc::Global;

// Appends an entry for a pair that two changes have, unless the count after the later one is that before the older one.
fn push_both(out: &mut Vec<Entry>, older: Entry, newer: Entry)
    requires room { vec_len out.old < vec_capacity out.old }
    ensures pushed { out.new.items ≡ out.old.items ++ entry_with newer.pair older.before newer.after [] }
    ensures one { vec_len out.new ≤ vec_len out.old + 1 }
    ensures capacity { vec_capacity out.new ≡ vec_capacity out.old }
{
    if older.before != newer.after {
        out.push_reserved(Entry {
            pair: newer.pair,
            before: older.before,
            after: newer.after,
        });
    }
}

// The entries of the one change for a change and a later one. All room is made first. O(n + m) for their n and m entries.
fn merged(alloc: Global, older: &[Entry], newer: &[Entry]) -> Result<Vec<Entry>, OutOfMemory>
    requires older_rises { IsChangeList older.now }
    requires newer_rises { IsChangeList newer.now }
    ensures { IfOk result (λ v. v.items ≡ followed_by older.now newer.now) }
{
    let mut out = Vec::with_capacity(alloc, older.len() + newer.len())?;
    let mut i = 0;
    let mut k = 0;
    while i < older.len() && k < newer.len() {
        let one = older[i];
        let other = newer[k];
        if one.pair.is_before(other.pair) {
            out.push_reserved(one);
            i += 1;
        } else if other.pair.is_before(one.pair) {
            out.push_reserved(other);
            k += 1;
        } else {
            push_both(&mut out, one, other);
            i += 1;
            k += 1;
        }
    }
    let (_, last_older) = older.split_at(i);
    let (_, last_newer) = newer.split_at(k);
    out.extend_from_slice(last_older)?;
    out.extend_from_slice(last_newer)?;
    Ok(out)
}

// The one change that does what these do, in their order. They are merged by halves: O(m log k) for m entries in k changes.
pub(crate) fn joined_change(alloc: Global, changes: &[Change]) -> Result<Change, OutOfMemory>
    requires some { 0 < length changes.now }
    ensures { IfOk result (DoesAll changes.now) }
{
    if changes.len() == 1 {
        return Ok(changes[0].clone()?);
    }
    let (older, newer) = changes.split_at(changes.len() / 2);
    let older = joined_change(alloc, older)?;
    let newer = joined_change(alloc, newer)?;
    let entries = merged(alloc, older.entries(), newer.entries())?;
    Ok(Change::from_vec(entries))
}

// How many entries the first of these changes has; 0 if there is none.
pub(crate) fn first_size(changes: &[Change]) -> usize
    ensures { result ≡ length (get_or changes.now 0 []) }
{
    match changes.first() {
        Some(change) => change.entries().len(),
        None => 0,
    }
}
