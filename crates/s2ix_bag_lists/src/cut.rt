//! How held pairs are cut into parts: at places that no cell crosses, if one is near.
ghost use Rattle.std.specs.Prelude.{◌≡◌, ◌<◌, ◌≤◌, length, IfOk, IfSome};
ghost use Rattle.s2ix_bag_lists.specs.Faces.{all_of};
ghost use Rattle.s2ix_bag_lists.specs.Parts.{AreFilled};

use s2id_core::OutOfMemory;
use s2ix_bag_held::{FlatHeld, HeldList};
use std::alloc::Global;

// For each pair the least leaf number at which its cell or a later one begins.
fn first_leaves(alloc: Global, held: &[FlatHeld]) -> Result<Vec<u64>, OutOfMemory>
    ensures { IfOk result (λ leaves. length leaves.items ≡ length held.now) }
{
    let mut leaves = vec![in alloc; u64::MAX; held.len()]?;
    let mut least = u64::MAX;
    for place in (0..held.len()).rev() {
        least = least.min(held[place].cell().span_start());
        leaves[place] = least;
    }
    Ok(leaves)
}

// For each pair whether a part may end with it: all cells up to it end before those that follow begin.
fn clean_ends(alloc: Global, held: &[FlatHeld]) -> Result<Vec<bool>, OutOfMemory>
    ensures { IfOk result (λ ends. length ends.items ≡ length held.now) }
{
    let leaves = first_leaves(alloc, held)?;
    let mut ends = vec![in alloc; true; held.len()]?;
    let mut greatest = 0;
    for place in 1..held.len() {
        greatest = greatest.max(held[place - 1].cell().span_end());
        ends[place - 1] = greatest <= leaves[place];
    }
    Ok(ends)
}

// The first number of pairs, from `least` up to `most`, with which a part may end.
fn first_end(ends: &[bool], least: usize, most: usize) -> Option<usize>
    requires { most ≤ length ends.now }
    ensures { IfSome result (λ len. (0 < len) × (len ≤ length ends.now)) }
{
    let mut len = least.max(1);
    while len <= most {
        if ends[len - 1] {
            return Some(len);
        }
        len += 1;
    }
    None
}

// The last number of pairs, up to `most` and above `least`, with which a part may end.
fn last_end(ends: &[bool], least: usize, most: usize) -> Option<usize>
    requires { most ≤ length ends.now }
    ensures { IfSome result (λ len. (0 < len) × (len ≤ length ends.now)) }
{
    let mut len = most;
    while len > least {
        if ends[len - 1] {
            return Some(len);
        }
        len -= 1;
    }
    None
}

// With how many pairs, from `least` up to `most`, a part ends if at each of these ends a cell reaches across. Such a cell contains the
// cells at both sides: the part ends where the finest cell that does so is coarsest, and at the last of such ends. So parts are cut between
// light cells, though a label lies over all of them.
fn coarsest_end(held: &[FlatHeld], least: usize, most: usize) -> usize
    requires { most < length held.now }
    ensures some { 0 < result }
    ensures within { result ≤ length held.now }
{
    let mut end = most.max(1);
    let mut coarsest = u8::MAX;
    let mut len = least.max(1);
    while len <= most {
        let level = common_level(&held[len - 1], &held[len]);
        if level <= coarsest {
            coarsest = level;
            end = len;
        }
        len += 1;
    }
    end
}

// The level of the finest cell that contains the cells of two pairs; 0 if there is none.
fn common_level(one: &FlatHeld, other: &FlatHeld) -> u8 {
    one.cell().common_level(other.cell()).unwrap_or(0)
}

// How many pairs the next part takes of those that are left: about three quarters of `max_part_len`, which leaves it room to grow.
fn piece_len(held: &[FlatHeld], ends: &[bool], max_part_len: usize) -> usize
    requires as_many { length ends.now ≡ length held.now }
    requires some { 0 < length ends.now }
    ensures some { 0 < result }
    ensures within { result ≤ length ends.now }
{
    if ends.len() <= max_part_len {
        return ends.len();
    }
    let quarter = max_part_len / 4;
    let usual = max_part_len - quarter;
    if let Some(len) = first_end(ends, usual, max_part_len) {
        return len;
    }
    if let Some(len) = last_end(ends, quarter, usual) {
        return len;
    }
    coarsest_end(held, quarter, usual)
}

/// Held pairs, cut into parts of at most `max_part_len` pairs, but at least one. O(n). `OutOfMemory` if a growth is refused.
pub(crate) fn cut(
    alloc: Global,
    held: &[FlatHeld],
    max_part_len: usize,
) -> Result<Vec<HeldList>, OutOfMemory>
    ensures whole { IfOk result (λ parts. all_of parts.items ≡ held.now) }
    ensures filled { IfOk result (λ parts. AreFilled parts.items) }
{
    let ends = clean_ends(alloc, held)?;
    cut_at(alloc, held, &ends, max_part_len)
}

// The same, if it is known with which pairs a part may end.
fn cut_at(
    alloc: Global,
    held: &[FlatHeld],
    ends: &[bool],
    max_part_len: usize,
) -> Result<Vec<HeldList>, OutOfMemory>
    requires { length ends.now ≡ length held.now }
    ensures whole { IfOk result (λ parts. all_of parts.items ≡ held.now) }
    ensures filled { IfOk result (λ parts. AreFilled parts.items) }
{
    let mut parts = Vec::new(alloc);
    let mut rest = held;
    let mut rest_ends = ends;
    while !rest.is_empty() {
        let len = piece_len(rest, rest_ends, max_part_len);
        let (own, later) = rest.split_at(len);
        parts.push(HeldList::with_filter(alloc, Vec::from_slice(alloc, own)?)?)?;
        rest = later;
        (_, rest_ends) = rest_ends.split_at(len);
    }
    Ok(parts)
}

/// The same of pairs that need no copy if they fit into one part.
pub(crate) fn pieces(
    alloc: Global,
    held: Vec<FlatHeld>,
    max_part_len: usize,
) -> Result<Vec<HeldList>, OutOfMemory>
    ensures whole { IfOk result (λ parts. all_of parts.items ≡ held.items) }
    ensures filled { IfOk result (λ parts. AreFilled parts.items) }
{
    if held.is_empty() || held.len() > max_part_len {
        return cut(alloc, &held, max_part_len);
    }
    let mut parts = Vec::with_capacity(alloc, 1)?;
    parts.push(HeldList::with_filter(alloc, held)?)?;
    Ok(parts)
}
