//! The labels of the pairs that a target meets.
ghost use Rattle.std.specs.Prelude.{◌≡◌, ◌↔◌, ◌⊎◌, ◌<◌, IfOk, OnOk, Contains};
ghost use Rattle.s2id_union.specs.Covers.{FollowOneAnother};
ghost use Rattle.s2ix_bag_pairs.specs.declared.label.Label.{Label as LabelHeld};
ghost use Rattle.s2ix_bag_pairs.specs.declared.pair.Held.{Held};
ghost use Rattle.s2ix_table_walk.specs.Meeting.{meeting_of};

use crate::meter::Meter;
use crate::table::RangeTable;
use s2id_core::{CellId, OutOfMemory};
use s2ix_bag_pairs::Label;
use s2ix_table_walk::Meeting;
use std::alloc::Global;

// How many labels a list has room for from its first one on.
const ROOM: usize = 16;

// How many looks for labels there are at first.
const LOOKS: usize = 192;

// Labels are spread over slots. For each slot, the place in a list at which a label of that slot was put last, in half a word: it is only
// where to look first.
type Places = [u32; 128];

// The last place that fits there.
const LAST_PLACE: usize = 0xffffffff;

// The labels of the meeting list of a target's cells, in its order. If the cells lie near one another, few labels come twice: the pairs of a
// label mostly lie near one another too.
pub(crate) fn gather<T: RangeTable>(
    alloc: Global,
    table: &T,
    cells: &[CellId],
) -> Result<Vec<Label>, OutOfMemory>
    requires { FollowOneAnother cells.now }
    ensures { IfOk result (λ labels. (label : LabelHeld)
        → Contains labels.items label
        ↔ ((held : Held) × Contains (meeting_of cells.now (T.pairs table.now)) held × (held.pair.label ≡ label))) }
{
    let mut meter = Meter::new(table);
    let mut meeting = Meeting::of_cells(&mut meter, cells);
    let mut labels = Vec::new(alloc);
    let mut places = [0; 128];
    let mut looks = LOOKS;
    while let Some(held) = meeting.advance() {
        put(held.pair.label, &mut looks, &mut labels, &mut places)?;
    }
    Ok(labels)
}

// Puts a label after those of a list, unless it is found at the place that its slot has. It is looked for while there are `looks` left: a look
// that finds it gives one more, and one in vain takes three. So none are left if far fewer than three in four find theirs: the processor can't
// foresee which, and would wait for each pair in turn.
#[inline(always)]
fn put(
    label: Label,
    looks: &mut usize,
    labels: &mut Vec<Label>,
    places: &mut Places,
) -> Result<(), OutOfMemory>
    ensures { OnOk result ((other : LabelHeld)
        → Contains labels.new.items other ↔ (Contains labels.old.items other ⊎ (other ≡ label))) }
{
    if *looks > 0 {
        let slot = slot_of(label);
        let place = places[slot] as usize;
        if place < labels.len() && labels[place] == label {
            *looks = looks.wrapping_add(1);
            return Ok(());
        }
        places[slot] = labels.len().min(LAST_PLACE) as u32;
        *looks = looks.saturating_sub(3);
    }
    if labels.is_empty() {
        labels.reserve(ROOM)?;
    }
    labels.push(label)?;
    Ok(())
}

// The slot of a label, by the top bits of a product, so that labels at equal distances don't crowd into a few slots.
#[inline(always)]
fn slot_of(label: Label) -> usize
    ensures { result < 128 }
{
    (label.get().wrapping_mul(0x9e3779b1) >> 25) as usize
}
