//! The range that has a leaf, found by reading few ranges.
ghost use Rattle.std.specs.Prelude.{◌≡◌, ℕ, ◌+◌, ◌-◌, ◌*◌, ◌^◌, ◌%◌, ◌<◌, ◌≤◌, length, max};
ghost use Rattle.s2id_core.specs.CellId.{first_of, end_of};
ghost use Rattle.s2ix_table_walk.specs.Table.{range_at, IsFound, leaf_end};
ghost use Rattle.s2id_core.specs.BinaryDigits.{binary_digits};
ghost use Rattle.s2ix_table_walk.specs.Costs.{NoFewerProbes};
ghost use Rattle.s2ix_table_walk.specs.Searching.{AreGroups, IsWindow};
ghost use Rattle.s2ix_table_walk.specs.Walking.{IsKnown};

use crate::borders::{in_one_part, side};
use crate::power::power_within;
use crate::reader::Reader;
use crate::sample::SAMPLE_STEP;
use crate::search_state::Candidates;
use crate::walk_state::KnownWindow;
use crate::window::Window;
use s2id_core::CellId;

// A range that a walk has come to, and the window that is known there.
#[derive(Clone, Copy)]
pub(crate) struct Reached {
    pub(crate) range: usize,
    pub(crate) known: KnownWindow,
}

// The range that has a leaf, of some that have it among them: each probe halves those that are left. It first reads ranges at borders,
// until those that are left are in one part; in a large table it then reads every 16th of these.
#[inline(always)]
fn search<R: Reader>(reader: &mut R, leaf: u64, candidates: Candidates) -> Reached
    requires within { leaf < leaf_end }
    requires among { IsWindow (R.shown reader.old).ranges leaf candidates.among.first candidates.among.size }
    requires known { IsKnown (R.shown reader.old) candidates.known }
    ensures found { IsFound (R.shown reader.old).ranges result.range leaf }
    ensures known { IsKnown (R.shown reader.old) result.known }
    ensures same { R.shown reader.new ≡ R.shown reader.old }
    ensures looks { (R.spent reader.new).looks ≡ (R.spent reader.old).looks }
    ensures kept { NoFewerProbes (R.spent reader.old) (R.spent reader.new) }
    ensures probes { (R.spent reader.new).probes
        ≤ (R.spent reader.old).probes + binary_digits (length (R.shown reader.old).ranges + 1) }
{
    let Candidates { among, known } = in_one_part(reader, leaf, candidates);
    let range = halve_part(reader, leaf, among);
    Reached { range, known }
}

// In a table of more ranges than this a search waits for memory at its probes.
const FAR: usize = 32768;

// The range that has a leaf, of some in one part: each probe halves those that are left.
#[inline(always)]
fn halve_part<R: Reader>(reader: &mut R, leaf: u64, among: Window) -> usize
    requires within { leaf < leaf_end }
    requires among { IsWindow (R.shown reader.old).ranges leaf among.first among.size }
    ensures found { IsFound (R.shown reader.old).ranges result leaf }
    ensures same { R.shown reader.new ≡ R.shown reader.old }
    ensures looks { (R.spent reader.new).looks ≡ (R.spent reader.old).looks }
    ensures kept { NoFewerProbes (R.spent reader.old) (R.spent reader.new) }
    ensures probes { (R.spent reader.new).probes ≤ (R.spent reader.old).probes + binary_digits (among.size - 1) }
{
    if reader.range_count() <= FAR {
        return halve(reader, leaf, among);
    }
    let group = in_one_group(reader, leaf, among);
    halve_far(reader, leaf, group)
}

// Of some ranges of a large table at most 16, if halving groups of 16 takes no more probes than halving ranges, and else all of them. The
// starts of these groups lie close together in memory.
#[inline(always)]
fn in_one_group<R: Reader>(reader: &mut R, leaf: u64, among: Window) -> Window
    requires among { IsWindow (R.shown reader.old).ranges leaf among.first among.size }
    ensures window { IsWindow (R.shown reader.old).ranges leaf result.first result.size }
    ensures same { R.shown reader.new ≡ R.shown reader.old }
    ensures looks { (R.spent reader.new).looks ≡ (R.spent reader.old).looks }
    ensures kept { NoFewerProbes (R.spent reader.old) (R.spent reader.new) }
    ensures probes { (R.spent reader.new).probes + binary_digits (result.size - 1)
        ≤ (R.spent reader.old).probes + binary_digits (among.size - 1) }
{
    if among.size <= SAMPLE_STEP {
        return among;
    }
    let first = reader.sampled_by(among.first);
    let end = among.first + among.size;
    let groups = (end - first - 1) / SAMPLE_STEP + 1;
    if groups > power_within(among.size - 1) / 8 {
        return among;
    }
    let left = halve_groups(reader, leaf, first, end, groups);
    Window {
        first: left,
        size: SAMPLE_STEP.min(end - left),
    }
}

// The first range of the group that has a leaf, of some groups of 16 ranges from one range on, the last of which ends with the range before
// `end`. Each probe halves the groups that are left by a branch, as `halve_far` does.
#[inline(always)]
fn halve_groups<R: Reader>(
    reader: &mut R,
    leaf: u64,
    from: usize,
    end: usize,
    groups: usize,
) -> usize
    requires { AreGroups (R.shown reader.old).ranges leaf from end groups }
    ensures group { AreGroups (R.shown reader.old).ranges leaf result end 1 }
    ensures same { R.shown reader.new ≡ R.shown reader.old }
    ensures looks { (R.spent reader.new).looks ≡ (R.spent reader.old).looks }
    ensures kept { NoFewerProbes (R.spent reader.old) (R.spent reader.new) }
    ensures probes { (R.spent reader.new).probes ≤ (R.spent reader.old).probes + binary_digits (groups - 1) }
{
    let mut first = from;
    let mut left = groups;
    while left > 1 {
        let half = left / 2;
        if reader.sampled_start(first + half * SAMPLE_STEP) <= leaf {
            first += half * SAMPLE_STEP;
        }
        left -= half;
    }
    first
}

// The range that has a leaf, in a large table: each probe halves those that are left by a branch, so that the processor asks for the next
// range before it has this one.
#[inline(always)]
fn halve_far<R: Reader>(reader: &mut R, leaf: u64, among: Window) -> usize
    requires within { leaf < leaf_end }
    requires among { IsWindow (R.shown reader.old).ranges leaf among.first among.size }
    ensures found { IsFound (R.shown reader.old).ranges result leaf }
    ensures same { R.shown reader.new ≡ R.shown reader.old }
    ensures looks { (R.spent reader.new).looks ≡ (R.spent reader.old).looks }
    ensures kept { NoFewerProbes (R.spent reader.old) (R.spent reader.new) }
    ensures probes { (R.spent reader.new).probes ≤ (R.spent reader.old).probes + binary_digits (among.size - 1) }
{
    let mut first = among.first;
    let mut left = among.size;
    while left > 1 {
        let half = left / 2;
        if reader.start(first + half) <= leaf {
            first += half;
        }
        left -= half;
    }
    first
}

// The range that has a leaf, in a table that the processor has at hand: each probe halves those that are left, and no branch depends on
// what is read.
#[inline(always)]
fn halve<R: Reader>(reader: &mut R, leaf: u64, among: Window) -> usize
    requires within { leaf < leaf_end }
    requires among { IsWindow (R.shown reader.old).ranges leaf among.first among.size }
    ensures found { IsFound (R.shown reader.old).ranges result leaf }
    ensures same { R.shown reader.new ≡ R.shown reader.old }
    ensures looks { (R.spent reader.new).looks ≡ (R.spent reader.old).looks }
    ensures kept { NoFewerProbes (R.spent reader.old) (R.spent reader.new) }
    ensures probes { (R.spent reader.new).probes ≤ (R.spent reader.old).probes + binary_digits (among.size - 1) }
{
    if among.size <= 1 {
        return among.first;
    }
    let window = narrow(reader, leaf, among);
    let mut first = window.first;
    let mut half = window.size / 2;
    while half > 0 {
        first += half * begun(reader.start(first + half), leaf);
        half /= 2;
    }
    first
}

// Of some ranges, more than one, the first or the last ones, so many that halving leaves none over: the greatest power of two below their
// number.
#[inline(always)]
fn narrow<R: Reader>(reader: &mut R, leaf: u64, among: Window) -> Window
    requires within { leaf < leaf_end }
    requires among { IsWindow (R.shown reader.old).ranges leaf among.first among.size }
    requires more { 1 < among.size }
    ensures window { IsWindow (R.shown reader.old).ranges leaf result.first result.size }
    ensures power { (k : ℕ) × (result.size ≡ 2 ^ k) }
    ensures same { R.shown reader.new ≡ R.shown reader.old }
    ensures looks { (R.spent reader.new).looks ≡ (R.spent reader.old).looks }
    ensures kept { NoFewerProbes (R.spent reader.old) (R.spent reader.new) }
    ensures probes { (R.spent reader.new).probes + binary_digits (result.size - 1)
        ≤ (R.spent reader.old).probes + binary_digits (among.size - 1) }
{
    let size = power_within(among.size - 1);
    let over = among.size - size;
    let first = among.first + over * begun(reader.start(among.first + over), leaf);
    Window { first, size }
}

// The ranges in which to search for a cell's first leaf, from one on that begins by that leaf. It takes one probe at most: within the known
// window a range near at hand, and else the window of the leaf.
#[inline(always)]
fn ahead<R: Reader>(reader: &mut R, cell: CellId, from: usize, known: KnownWindow) -> Candidates
    requires known { IsKnown (R.shown reader.old) known }
    requires from { from < length (R.shown reader.old).ranges }
    requires start { (range_at (R.shown reader.old).ranges from).start ≤ first_of cell }
    ensures known { IsKnown (R.shown reader.old) result.known }
    ensures window { IsWindow (R.shown reader.old).ranges (first_of cell) result.among.first result.among.size }
    ensures same { R.shown reader.new ≡ R.shown reader.old }
    ensures looks { (R.spent reader.new).looks ≡ (R.spent reader.old).looks }
    ensures kept { NoFewerProbes (R.spent reader.old) (R.spent reader.new) }
    ensures probes { (R.spent reader.new).probes ≤ (R.spent reader.old).probes + 1 }
{
    let leaf = cell.span_start();
    if leaf < known.until {
        let rest = Window {
            first: from,
            size: known.end - from,
        };
        let among = near(reader, leaf, rest, known);
        return Candidates { among, known };
    }
    let window = reader.window(leaf);
    let end = window.ranges.first + window.ranges.size;
    let first = from.max(window.ranges.first);
    let among = Window {
        first,
        size: end - first,
    };
    let known = KnownWindow {
        until: window.until,
        end,
        borders: window.borders,
        part_end: 0,
    };
    Candidates { among, known }
}

// How many ranges ahead a search probes before it takes all of those of the known window.
const NEAR: usize = 16;

// Of some ranges those before one that is near at hand, or that one and the rest. It is the 16th one if that is in the part at hand, and
// else the one at the next border.
#[inline(always)]
fn near<R: Reader>(reader: &mut R, leaf: u64, among: Window, known: KnownWindow) -> Window
    requires among { IsWindow (R.shown reader.old).ranges leaf among.first among.size }
    requires borders { known.borders.first + known.borders.size ≤ length (R.shown reader.old).borders }
    ensures window { IsWindow (R.shown reader.old).ranges leaf result.first result.size }
    ensures same { R.shown reader.new ≡ R.shown reader.old }
    ensures looks { (R.spent reader.new).looks ≡ (R.spent reader.old).looks }
    ensures kept { NoFewerProbes (R.spent reader.old) (R.spent reader.new) }
    ensures probes { (R.spent reader.new).probes ≤ (R.spent reader.old).probes + 1 }
{
    if among.size <= NEAR {
        return among;
    }
    if among.first + NEAR < known.part_end {
        let begins = reader.start(among.first + NEAR);
        return side(among, NEAR, begins, leaf);
    }
    if known.borders.size == 0 {
        return among;
    }
    let border = reader.border(known.borders.first);
    if border <= among.first || border - among.first >= among.size {
        return among;
    }
    let begins = reader.border_start(known.borders.first);
    side(among, border - among.first, begins, leaf)
}

// 1 if what begins at a leaf number has begun by a leaf, else 0: the top bit of a difference, so that no branch depends on it.
#[inline(always)]
fn begun(start: u64, leaf: u64) -> usize
    requires odd { start % 2 ≡ 1 }
    requires leaf { leaf < leaf_end }
    ensures by { start ≤ leaf → result ≡ 1 }
    ensures after { leaf < start → result ≡ 0 }
{
    let after = leaf - leaf / 2;
    ((start / 2).wrapping_sub(after) >> 63) as usize
}

// The range that has the first leaf of a cell from `seen` on: that at hand, or the one with the cell's first leaf.
#[inline(always)]
pub(crate) fn range_from<R: Reader>(
    reader: &mut R,
    cell: CellId,
    range: usize,
    seen: u64,
    known: KnownWindow,
) -> Reached
    requires beyond { seen < end_of cell }
    requires at_hand { seen < leaf_end → IsFound (R.shown reader.old).ranges range seen }
    requires known { IsKnown (R.shown reader.old) known }
    ensures found { IsFound (R.shown reader.old).ranges result.range (max seen (first_of cell)) }
    ensures known { IsKnown (R.shown reader.old) result.known }
    ensures same { R.shown reader.new ≡ R.shown reader.old }
    ensures looks { (R.spent reader.new).looks ≡ (R.spent reader.old).looks }
    ensures at_hand { first_of cell ≤ seen → R.spent reader.new ≡ R.spent reader.old }
    ensures kept { NoFewerProbes (R.spent reader.old) (R.spent reader.new) }
    ensures probes { (R.spent reader.new).probes
        ≤ (R.spent reader.old).probes + binary_digits (length (R.shown reader.old).ranges + 1) + 1 }
{
    let start = cell.span_start();
    if seen < start {
        let candidates = ahead(reader, cell, range, known);
        search(reader, start, candidates)
    } else {
        Reached { range, known }
    }
}
