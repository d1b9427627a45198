//! Lists in buffers of the caller.

ghost use Rattle.std.specs.Prelude.{◌≡◌, ◌≢◌, ◌≤◌, [], length, map, All, IfOk, IfSome, IsErr, IsNone};
ghost use Rattle.s2ix_c_calls.specs.Asked.{AreRight, IsFirstWrong, NameHeld, held_asked};
ghost use Rattle.s2ix_c_calls.specs.Lists.{IsFilled, IsPut, row_of};
ghost use Rattle.s2id_core.specs.CellId.{raw_of};
ghost use Rattle.s2ix_bag_pairs.specs.Label.{value_of};

use crate::asked::pair_of;
use crate::status::{DONE, NO_ROOM};
use s2id_core::{CellId, OutOfMemory};
use s2ix_bag_pairs::{Held, Label};
use s2ix_table_queries::OfHeld;
use std::alloc::Global;

/// A pair that a store holds, with its count.
#[repr(C)]
#[derive(Clone, Copy)]
pub struct Row {
    /// The number of the cell.
    pub cell: u64,
    /// The label.
    pub label: u32,
    /// How many copies are held.
    pub count: u32,
}

impl OfHeld for Row {
    ghost of = { row_of };

    #[inline]
    fn of_held(held: Held) -> Row {
        row_for(held)
    }
}

// A held pair as a row.
#[inline]
pub(crate) fn row_for(held: Held) -> Row
    ensures { result ≡ row_of held }
{
    Row {
        cell: held.pair.cell.raw(),
        label: held.pair.label.get(),
        count: held.count,
    }
}

// The pair that a row names, with its count; or the status of the first of its numbers that is wrong.
pub(crate) fn held_for(row: Row) -> Result<Held, u32>
    ensures { result ≡ held_asked row }
{
    match pair_of(row.cell, row.label) {
        Ok(pair) => Ok(Held {
            pair,
            count: row.count,
        }),
        Err(why) => Err(why),
    }
}

// What is wrong with the first row that names no pair, if there is one; then `number` is its place, counted from 0, else 0. It does not
// allocate.
#[tactic(auto, using(crate::proofs::OfRows::first_wrong, crate::proofs::OfRows::right_more, crate::proofs::OfRows::all_right))]
pub(crate) fn wrong_row(rows: &[Row], number: &mut usize) -> Option<u32>
    ensures wrong { IfSome result (IsFirstWrong rows.now number.new) }
    ensures right { IsNone result → AreRight rows.now × (number.new ≡ 0) }
{
    *number = 0;
    for (place, row) in rows.iter().enumerate() {
        if let Err(why) = held_for(*row) {
            *number = place;
            return Some(why);
        }
    }
    None
}

// The pairs that rows name, with their counts. No memory is wanted if there are no rows.
pub(crate) fn held_list(alloc: Global, rows: &[Row]) -> Result<Vec<Held>, OutOfMemory>
    requires { AreRight rows.now }
    ensures rows { IfOk result (λ list. NameHeld rows.now list.items) }
    ensures memory { IsErr result → rows.now ≢ [] }
{
    let mut list = Vec::with_capacity(alloc, rows.len())?;
    for row in rows {
        let Ok(held) = held_for(*row) else {
            unreachable!()
        };
        list.push(held)?;
    }
    Ok(list)
}

// Puts labels to the front of `out` as far as it has room; `number` is how many there are.
pub(crate) fn put_labels(list: &[Label], out: &mut [u32], number: &mut usize) -> u32
    ensures { IsFilled (map value_of list.now) result number.new out.old out.new }
{
    let count = list.len().min(out.len());
    for place in 0..count {
        out[place] = list[place].get();
    }
    *number = list.len();
    if list.len() > out.len() {
        return NO_ROOM;
    }
    DONE
}

// What a buffer of the caller keeps of an item of a list.
pub(crate) trait OfItem<I>: Copy {
    ghost use Rattle.std.specs.Prelude.{◌≡◌};

    // what is kept of an item
    ghost of: { I → Self };

    // which items can be kept
    ghost fits: { I → Type 0 };

    // What is kept of an item.
    fn of_item(item: I) -> Self
        requires { fits item }
        ensures { result ≡ of item };
}

impl OfItem<CellId> for u64 {
    ghost use Rattle.std.specs.Prelude.{IsTrue, true};
    ghost use Rattle.s2id_core.specs.CellId.{raw_of};

    ghost of = { raw_of };

    ghost fits = { λ _. IsTrue true };

    #[inline]
    fn of_item(cell: CellId) -> u64 {
        cell.raw()
    }
}

// Puts a list to the front of `out`, if it has room for it; `number` is how many items there are.
pub(crate) fn put_list<I: Copy, R: OfItem<I>>(list: &[I], out: &mut [R], number: &mut usize) -> u32
    requires { All R.fits list.now }
    ensures { IsPut (map R.of list.now) result number.new out.old out.new }
{
    *number = list.len();
    if list.len() > out.len() {
        return NO_ROOM;
    }
    for (place, item) in list.iter().enumerate() {
        out[place] = R::of_item(*item);
    }
    DONE
}

/// Puts cells to the front of `out`, if it has room for them; `number` is how many there are.
pub fn put_cells(list: &[CellId], out: &mut [u64], number: &mut usize) -> u32
    ensures { IsPut (map raw_of list.now) result number.new out.old out.new }
{
    put_list(list, out, number)
}

/// Puts a text to the front of `out`, if it has room for it; `number` is how many bytes it has.
pub fn put_bytes(text: &[u8], out: &mut [u8], number: &mut usize) -> u32
    ensures { IsPut text.now result number.new out.old out.new }
{
    *number = text.len();
    if text.len() > out.len() {
        return NO_ROOM;
    }
    out[..text.len()].copy_from_slice(text);
    DONE
}
