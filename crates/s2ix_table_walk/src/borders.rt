//! The ranges among which a search looks, narrowed to one part of the table by where parts begin.
ghost use Rattle.std.specs.Prelude.{◌≡◌, ◌+◌, ◌-◌, ◌^◌, ◌<◌, ◌≤◌, List, length, max};
ghost use Rattle.s2id_core.specs.BinaryDigits.{binary_digits};
ghost use Rattle.s2ix_table_walk.specs.Costs.{NoFewerProbes};
ghost use Rattle.s2ix_table_walk.specs.Searching.{IsNarrowing, IsWindow};
ghost use Rattle.s2ix_table_walk.specs.Table.{Range, range_at};
ghost use Rattle.s2ix_table_walk.specs.Walking.{IsKnown};

use crate::power::power_within;
use crate::reader::Reader;
use crate::search_state::{Candidates, Narrowing};
use crate::walk_state::KnownWindow;
use crate::window::Window;

// Of some ranges those in one part, which is brought to hand. If all lie in the part at hand already, it reads nothing.
#[inline(always)]
pub(crate) fn in_one_part<R: Reader>(
    reader: &mut R,
    leaf: u64,
    candidates: Candidates,
) -> Candidates
    requires among { IsWindow (R.shown reader.old).ranges leaf candidates.among.first candidates.among.size }
    requires known { IsKnown (R.shown reader.old) candidates.known }
    ensures window { IsWindow (R.shown reader.old).ranges leaf result.among.first result.among.size }
    ensures known { IsKnown (R.shown reader.old) result.known }
    ensures same { R.shown reader.new ≡ R.shown reader.old }
    ensures looks { (R.spent reader.new).looks ≡ (R.spent reader.old).looks }
    ensures kept { NoFewerProbes (R.spent reader.old) (R.spent reader.new) }
    ensures probes { (R.spent reader.new).probes + binary_digits (result.among.size - 1)
        ≤ (R.spent reader.old).probes + binary_digits (length (R.shown reader.old).ranges + 1) }
{
    let Candidates { among, known } = candidates;
    if among.first + among.size <= known.part_end {
        return candidates;
    }
    let begun = begin_narrowing(reader, leaf, among, known);
    let at = narrow_by_borders(reader, leaf, begun);
    let known = part_known(reader, at.low, known);
    Candidates {
        among: at.among,
        known,
    }
}

// A search by borders before its first probe.
#[inline(always)]
fn begin_narrowing<R: Reader>(reader: &R, leaf: u64, among: Window, known: KnownWindow) -> Narrowing
    requires among { IsWindow (R.shown reader.now).ranges leaf among.first among.size }
    requires borders { known.borders.first + known.borders.size ≤ length (R.shown reader.now).borders }
    ensures narrowing { IsNarrowing (R.shown reader.now) leaf result }
    ensures room { binary_digits result.room ≤ binary_digits (length (R.shown reader.now).ranges + 1) }
{
    let low = known.borders.first;
    let high = low + known.borders.size;
    let room = power_within(reader.range_count());
    Narrowing {
        among,
        low,
        high,
        room,
    }
}

// The ranges that are left when no border lies inside of them.
#[inline(always)]
fn narrow_by_borders<R: Reader>(reader: &mut R, leaf: u64, begun: Narrowing) -> Narrowing
    requires { IsNarrowing (R.shown reader.old) leaf begun }
    ensures narrowing { IsNarrowing (R.shown reader.old) leaf result }
    ensures same { R.shown reader.new ≡ R.shown reader.old }
    ensures looks { (R.spent reader.new).looks ≡ (R.spent reader.old).looks }
    ensures kept { NoFewerProbes (R.spent reader.old) (R.spent reader.new) }
    ensures probes { (R.spent reader.new).probes + binary_digits result.room ≤ (R.spent reader.old).probes + binary_digits begun.room }
{
    let mut at = begun;
    while at.low < at.high {
        at = narrowed(reader, leaf, at);
    }
    at
}

// A search by borders after its next step: it leaves out the borders that do not lie inside of the ranges, or reads one range and leaves
// the ranges on one side of it.
#[inline(always)]
fn narrowed<R: Reader>(reader: &mut R, leaf: u64, at: Narrowing) -> Narrowing
    requires narrowing { IsNarrowing (R.shown reader.old) leaf at }
    requires some { at.low < at.high }
    ensures narrowing { IsNarrowing (R.shown reader.old) leaf result }
    ensures fewer { result.high - result.low + result.among.size < at.high - at.low + at.among.size }
    ensures same { R.shown reader.new ≡ R.shown reader.old }
    ensures looks { (R.spent reader.new).looks ≡ (R.spent reader.old).looks }
    ensures kept { NoFewerProbes (R.spent reader.old) (R.spent reader.new) }
    ensures probes { (R.spent reader.new).probes + binary_digits result.room ≤ (R.spent reader.old).probes + binary_digits at.room }
{
    let next = next_border(at);
    let border = reader.border(next);
    if border <= at.among.first {
        return Narrowing {
            low: next + 1,
            ..at
        };
    }
    let before = border - at.among.first;
    if before >= at.among.size {
        return Narrowing { high: next, ..at };
    }
    let room = at.room / 2;
    // more ranges on a side of the border than the probe may leave: it reads the range in the middle
    if before > at.room || at.among.size - before > at.room {
        let half = at.among.size / 2;
        let begins = reader.start(at.among.first + half);
        let among = side(at.among, half, begins, leaf);
        return Narrowing { among, room, ..at };
    }
    let begins = reader.border_start(next);
    let among = side(at.among, before, begins, leaf);
    let (low, high) = if begins <= leaf {
        (next + 1, at.high)
    } else {
        (at.low, next)
    };
    Narrowing {
        among,
        low,
        high,
        room,
    }
}

// The border at which a search looks next: the middle one of those left.
#[inline(always)]
fn next_border(at: Narrowing) -> usize
    requires { at.low < at.high }
    ensures from { at.low ≤ result }
    ensures before { result < at.high }
{
    at.low + (at.high - at.low) / 2
}

// One side of some ranges that are parted at one of them: those before it, or it and those after it if it begins by the leaf.
#[inline(always)]
pub(crate) fn side(among: Window, before: usize, begins: u64, leaf: u64) -> Window
    requires some { 0 < before }
    requires inside { before < among.size }
    requires fits { among.first + among.size < 2 ^ 64 }
    ensures window { (ranges : List Range)
        → IsWindow ranges leaf among.first among.size
        → begins ≡ (range_at ranges (among.first + before)).start
        → IsWindow ranges leaf result.first result.size }
    ensures some { 0 < result.size }
    ensures fewer { result.size < among.size }
    ensures at_most { result.size ≤ max before (among.size - before) }
{
    if begins <= leaf {
        Window {
            first: among.first + before,
            size: among.size - before,
        }
    } else {
        Window {
            first: among.first,
            size: before,
        }
    }
}

// What is known once a search has come to the ranges before a border: the part that ends there is brought to hand. No border may have this
// number: then it is the last part of the window, or the table is one part.
#[inline(always)]
fn part_known<R: Reader>(reader: &mut R, next: usize, known: KnownWindow) -> KnownWindow
    requires known { IsKnown (R.shown reader.old) known }
    requires next { next ≤ length (R.shown reader.old).borders }
    ensures known { IsKnown (R.shown reader.old) result }
    ensures same { R.shown reader.new ≡ R.shown reader.old }
    ensures counts { R.spent reader.new ≡ R.spent reader.old }
{
    reader.go_to(next.wrapping_sub(1));
    let end = known.borders.first + known.borders.size;
    if next >= end {
        return KnownWindow {
            borders: Window {
                first: next,
                size: 0,
            },
            part_end: known.end,
            ..known
        };
    }
    KnownWindow {
        borders: Window {
            first: next,
            size: end - next,
        },
        part_end: reader.border(next),
        ..known
    }
}
