//! The labels that a store holds pairs of.

ghost use Rattle.std.specs.Prelude.{Ok};
ghost use Rattle.s2ix_c_calls.specs.HeldLabels.{label_rows};
ghost use Rattle.s2ix_c_calls.specs.Lists.{PutsGathered};

use crate::rows::{OfItem, put_list};
use crate::status::OUT_OF_MEMORY;
use s2ix_edit::{HeldLabel, Store};

/// A label that is held: how many pairs it has, and how many copies they have together.
#[repr(C)]
#[derive(Clone, Copy)]
pub struct LabelRow {
    /// The label.
    pub label: u32,
    /// How many pairs have it.
    pub pairs: u32,
    /// The sum of their counts.
    pub copies: u64,
}

impl OfItem<HeldLabel> for LabelRow {
    ghost use Rattle.std.specs.Prelude.{◌<◌, ◌^◌};
    ghost use Rattle.s2ix_c_calls.specs.HeldLabels.{label_row_of};

    ghost of = { label_row_of };

    ghost fits = { λ total. total.pairs < 2 ^ 32 };

    #[inline]
    fn of_item(total: HeldLabel) -> LabelRow {
        LabelRow {
            label: total.label.get(),
            pairs: total.pairs as u32,
            copies: total.copies,
        }
    }
}

/// The labels of the held pairs, each once and rising, with how many pairs have it and how many copies these have together. If no pair is
/// held, no memory is wanted.
pub fn held_labels(store: &Store, out: &mut [LabelRow], number: &mut usize) -> u32
    ensures { PutsGathered (Ok (label_rows store.now)) result number.new out.old out.new }
{
    *number = 0;
    match store.held_labels() {
        Ok(list) => put_list(list.as_slice(), out, number),
        Err(_) => OUT_OF_MEMORY,
    }
}
