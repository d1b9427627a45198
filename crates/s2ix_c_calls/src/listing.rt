//! The pairs of a store, in rising order. No call here changes it.

ghost use Rattle.std.specs.Prelude.{◌≡◌, ◌≤◌, drop, length, map, take};
ghost use Rattle.s2ix_bag_pairs.specs.Label.{label_numbered};
ghost use Rattle.s2ix_bag_pairs.specs.OfLabel.{held_of as held_with};
ghost use Rattle.s2ix_c_calls.specs.Lists.{IsPut, Puts, PutsPage, row_of, rows_with};
ghost use Rattle.s2ix_c_calls.specs.Status.{done};

use crate::rows::{Row, row_for};
use crate::status::{DONE, NO_LABEL, NO_ROOM};
use s2ix_bag_changes::Bag;
use s2ix_bag_held::FlatHeld;
use s2ix_bag_pairs::Label;
use s2ix_edit::Store;

// Writes some pairs as rows to the front of `out`, which has room for them.
#[inline]
fn write_rows(held: &[FlatHeld], out: &mut [Row])
    requires { length held.now ≤ length out.old }
    ensures front { take (length held.now) out.new ≡ map row_of held.now }
    ensures after { drop (length held.now) out.new ≡ drop (length held.now) out.old }
{
    for (place, flat) in held.iter().enumerate() {
        out[place] = row_for(flat.held());
    }
}

// Writes the pairs from a place on: as many as the buffer has room for. O(p log q + k) for k of them in p parts of a bag that has q.
fn write_page(bag: &Bag, from: usize, out: &mut [Row]) -> usize
    ensures { IsPut (map row_of (take (length out.old) (drop from bag.now.held))) done result out.old out.new }
{
    let rest = bag.len().saturating_sub(from);
    let count = rest.min(out.len());
    let mut put = 0;
    while put < count {
        let (before, part) = bag.part_at(from + put);
        let part = part.as_slice();
        let block = &part[from + put - before..part.len().min(from + count - before)];
        write_rows(block, &mut out[put..]);
        put += block.len();
    }
    count
}

/// The pairs from a place on, counted from 0 in rising order: as many as the buffer has room for. `number` is how many are put.
pub fn pairs(store: &Store, from: usize, out: &mut [Row], number: &mut usize) -> u32
    ensures { PutsPage from store.now result number.new out.old out.new }
{
    *number = write_page(store.bag(), from, out);
    DONE
}

// How many pairs have a label. O(n) at worst for all n pairs.
fn count_labelled(store: &Store, label: Label) -> usize
    ensures { result ≡ length (held_with label store.now.bag.held) }
{
    let mut count = 0;
    for _held in store.bag().of_label(label) {
        count += 1;
    }
    count
}

// Writes the pairs of a label to the front of `out`, which has room for them. O(n) at worst for all n pairs.
fn write_labelled(store: &Store, label: Label, out: &mut [Row])
    requires { length (held_with label store.now.bag.held) ≤ length out.old }
    ensures front { take (length (held_with label store.now.bag.held)) out.new ≡ map row_of (held_with label store.now.bag.held) }
    ensures after { drop (length (held_with label store.now.bag.held)) out.new
        ≡ drop (length (held_with label store.now.bag.held)) out.old }
{
    let mut count = 0;
    for held in store.bag().of_label(label) {
        out[count] = row_for(held);
        count += 1;
    }
}

/// The pairs of a label, by rising cell. It does not allocate: it looks for them once to count, and once to write.
pub fn of_label(store: &Store, label: u32, out: &mut [Row], number: &mut usize) -> u32
    ensures { Puts (rows_with (label_numbered label) store.now) result number.new out.old out.new }
{
    *number = 0;
    let Some(label) = Label::new(label) else {
        return NO_LABEL;
    };
    *number = count_labelled(store, label);
    if *number > out.len() {
        return NO_ROOM;
    }
    write_labelled(store, label, out);
    DONE
}
