//! The pairs that meet a target, put into a buffer of the caller straight from the walk over a table, with no list between them.

ghost use Rattle.std.specs.Prelude.{◌≡◌, ◌<◌, ◌≤◌, ◌++◌, [], length, map, take, drop};
ghost use Rattle.s2id_union.specs.Covers.{FollowOneAnother};
ghost use Rattle.s2ix_table_walk.specs.Meeting.{meeting_of};
ghost use Rattle.s2ix_table_walk.specs.Meetings.{left_in};
ghost use Rattle.s2ix_c_calls.specs.Lists.{IsFilled, IsPut, row_of};
ghost use Rattle.s2ix_c_calls.specs.Status.{done};

use crate::question::Question;
use crate::rows::{Row, put_labels, row_for};
use crate::status::{DONE, NO_ROOM, OUT_OF_MEMORY};
use s2id_core::CellId;
use s2ix_edit::Store;
use s2ix_table_queries::{Meter, RangeTable};
use s2ix_table_walk::{Meeting, Reader};
use std::alloc::Global;

// (the three loops are taken into their callers, so that the compiler keeps where a walk stands in registers)

// Writes the pairs that a meeting has still to give to the front of `out` while there is room. Returns how many are written.
#[inline(always)]
fn write_met<R: Reader>(meeting: &mut Meeting<'_, R>, out: &mut [Row]) -> usize
    ensures rows { take result out.new ++ map row_of (left_in meeting.new) ≡ map row_of (left_in meeting.old) }
    ensures after { drop result out.new ≡ drop result out.old }
    ensures room { result ≤ length out.old }
    ensures full { result < length out.old → left_in meeting.new ≡ [] }
{
    let mut count = 0;
    while count < out.len() {
        let Some(held) = meeting.advance() else {
            return count;
        };
        out[count] = row_for(held);
        count += 1;
    }
    count
}

// Passes over some of the pairs that a meeting has still to give, or over all if it has fewer.
#[inline(always)]
fn pass_met<R: Reader>(meeting: &mut Meeting<'_, R>, count: usize)
    ensures { left_in meeting.new ≡ drop count (left_in meeting.old) }
{
    let mut passed = 0;
    while passed < count {
        let Some(_held) = meeting.advance() else {
            return;
        };
        passed += 1;
    }
}

// How many pairs a meeting has still to give.
#[inline(always)]
fn count_met<R: Reader>(meeting: &mut Meeting<'_, R>) -> usize
    requires { length (left_in meeting.old) ≤ 1000000 }
    ensures { result ≡ length (left_in meeting.old) }
{
    let mut left = 0;
    while let Some(_held) = meeting.advance() {
        left += 1;
    }
    left
}

// Puts the pairs that the cells of a target meet to the front of `out` as far as it has room; `number` is how many there are. It does not
// allocate.
fn put_met<T: RangeTable>(table: &T, cells: &[CellId], out: &mut [Row], number: &mut usize) -> u32
    requires { FollowOneAnother cells.now }
    ensures { IsFilled (map row_of (meeting_of cells.now (T.pairs table.now))) result number.new out.old out.new }
{
    let mut meter = Meter::new(table);
    let mut meeting = Meeting::of_cells(&mut meter, cells);
    let count = write_met(&mut meeting, out);
    *number = count;
    if count < out.len() {
        return DONE;
    }
    let more = count_met(&mut meeting);
    *number = count + more;
    if more > 0 {
        return NO_ROOM;
    }
    DONE
}

// Puts the pairs that the cells of a target meet, from a place on, counted from 0, to the front of `out`: as many as it has room for. The
// answer is how many are put. It does not allocate.
fn put_met_from<T: RangeTable>(table: &T, cells: &[CellId], from: usize, out: &mut [Row]) -> usize
    requires { FollowOneAnother cells.now }
    ensures { IsPut (map row_of (take (length out.old) (drop from (meeting_of cells.now (T.pairs table.now))))) done result out.old out.new }
{
    let mut meter = Meter::new(table);
    let mut meeting = Meeting::of_cells(&mut meter, cells);
    pass_met(&mut meeting, from);
    write_met(&mut meeting, out)
}

/// The pairs that meet a target.
#[derive(Clone, Copy)]
pub(crate) struct Met;

impl Question for Met {
    ghost use Rattle.std.specs.Prelude.{map};
    ghost use Rattle.s2ix_table_walk.specs.Meeting.{meeting_of};
    ghost use Rattle.s2ix_c_calls.specs.Lists.{IsFilled, row_of};

    type Item = Row;

    ghost answers = { λ _ cells held status number old new. IsFilled (map row_of (meeting_of cells held)) status number old new };

    fn answer(
        &self,
        alloc: Global,
        store: &Store,
        cells: &[CellId],
        out: &mut [Row],
        number: &mut usize,
    ) -> u32 {
        put_met(store.table(), cells, out, number)
    }
}

/// The pairs that meet a target, from a place on, counted from 0: as many as there is room for.
#[derive(Clone, Copy)]
pub(crate) struct MetFrom {
    pub(crate) from: usize,
}

impl Question for MetFrom {
    ghost use Rattle.std.specs.Prelude.{◌≡◌, length, map, take, drop};
    ghost use Rattle.s2ix_table_walk.specs.Meeting.{meeting_of};
    ghost use Rattle.s2ix_c_calls.specs.Lists.{IsPut, row_of};
    ghost use Rattle.s2ix_c_calls.specs.Status.{done};

    type Item = Row;

    ghost answers = { λ page cells held status number old new.
        (status ≡ done) × IsPut (map row_of (take (length old) (drop page.from (meeting_of cells held)))) done number old new };

    fn answer(
        &self,
        alloc: Global,
        store: &Store,
        cells: &[CellId],
        out: &mut [Row],
        number: &mut usize,
    ) -> u32 {
        *number = put_met_from(store.table(), cells, self.from, out);
        DONE
    }
}

/// The labels of the pairs that meet a target.
#[derive(Clone, Copy)]
pub(crate) struct LabelsMet;

impl Question for LabelsMet {
    ghost use Rattle.std.specs.Prelude.{◌⊎◌, map};
    ghost use Rattle.s2ix_bag_pairs.specs.Label.{value_of};
    ghost use Rattle.s2ix_table_walk.specs.LabelList.{label_list};
    ghost use Rattle.s2ix_table_walk.specs.Meeting.{meeting_of};
    ghost use Rattle.s2ix_c_calls.specs.Lists.{IsFilled, IsRefused};
    ghost use Rattle.s2ix_c_calls.specs.Status.{out_of_memory};

    type Item = u32;

    ghost answers = { λ _ cells held status number old new.
        IsFilled (map value_of (label_list (meeting_of cells held))) status number old new ⊎ IsRefused out_of_memory status number old new };

    fn answer(
        &self,
        alloc: Global,
        store: &Store,
        cells: &[CellId],
        out: &mut [u32],
        number: &mut usize,
    ) -> u32 {
        let Ok(list) = store.table().labels_of_cells(alloc, cells) else {
            *number = 0;
            return OUT_OF_MEMORY;
        };
        put_labels(list.as_slice(), out, number)
    }
}
