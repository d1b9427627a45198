//! What edits, undos and redos are made of: a bag after a change; its range table, to which the bag hands its lists of the faces that the
//! change has entries on; and a change that is shifted from one list to the other. What can want memory comes first, the table last of it.

ghost use Rattle.std.specs.Prelude.{◌≡◌, ◌<◌, ◌≤◌, ◌+◌, ◌-◌, ◌*◌, drop, length, None, IfOk, IfErr, OnOk, OnErr, vec_capacity, vec_len};
ghost use Rattle.s2ix_bag_lists.specs.Apply.{apply_refusal, first_mismatch};
ghost use Rattle.s2ix_bag_pairs.specs.Change.{changed};
ghost use Rattle.s2ix_bag_pairs.specs.Collection.{IsBag};
ghost use Rattle.s2ix_edit_plan.specs.Errors.{IsEditRefusal};
ghost use Rattle.s2ix_edit_plan.specs.Plan.{entries_refusal};
ghost use Rattle.s2ix_table_kept.specs.Faces.{changed_count, faces_of};
ghost use Rattle.s2ix_table_kept.specs.Reading.{two_searches};
ghost use Rattle.s2ix_edit_store.specs.Steps.{IsShifted, with_held};

use crate::shared_table::SharedTable;
use s2id_core::OutOfMemory;
use s2ix_bag_changes::{Bag, Change};
use s2ix_bag_lists::ApplyError;
use s2ix_edit_plan::EditError;
use s2ix_table_kept::{BagReader, KeptTable, PairReader};
use std::alloc::Global;

// Makes a table that of a bag to which a change has led from the table's bag, and returns how many pairs were read for it. With p pairs on the
// f faces of the change and n in all, p to p + 2 * f * digits(n + 1) pairs are read. If a growth is refused the table stays.
pub(crate) fn rebuild_for<T: KeptTable>(
    alloc: Global,
    table: &mut SharedTable<T>,
    bag: &Bag,
    change: &Change,
) -> Result<u64, OutOfMemory>
    requires { changed table.old change.now ≡ bag.now.held }
    ensures table { OnOk result (table.new ≡ bag.now.held) }
    ensures unchanged { OnErr result (table.new ≡ table.old) }
    ensures reads_all { IfOk result (λ reads. changed_count change.now bag.now.held ≤ reads) }
    ensures reads_few { IfOk result (λ reads.
        reads ≤ changed_count change.now bag.now.held + faces_of change.now * two_searches bag.now.held) }
{
    let mut reader = BagReader::new(bag);
    table.rebuild(alloc, &mut reader, change)?;
    Ok(reader.reads())
}

// The bag that planned entries make of a bag, or why a store refuses the entries.
pub(crate) fn apply_planned(alloc: Global, bag: &Bag, change: &Change) -> Result<Bag, EditError>
    requires matches { first_mismatch bag.now change.now ≡ None }
    ensures made { IfOk result (λ after. after ≡ with_held bag.now (changed bag.now.held change.now)) }
    ensures within { IfOk result (λ after. IsBag after) }
    ensures fits { OnOk result (apply_refusal bag.now change.now ≡ None) }
    ensures accepted { OnOk result (entries_refusal bag.now change.now ≡ None) }
    ensures refused { IfErr result (λ error.
        IsEditRefusal error (entries_refusal bag.now change.now)) }
    ensures memory { result ≡ Err EditError.OutOfMemory → entries_refusal bag.now change.now ≡ None }
{
    if change.entries().is_empty() {
        return Err(EditError::NoChange);
    }
    match bag.applied(alloc, change) {
        Ok(after) => Ok(after),
        Err(ApplyError::Mismatch(_)) => unreachable!(),
        Err(ApplyError::TooManyCopies) => Err(EditError::TooManyCopies),
        Err(ApplyError::TooManyPairs) => Err(EditError::TooManyPairs),
        Err(ApplyError::OutOfMemory) => Err(EditError::OutOfMemory),
    }
}

// The bag that a recorded change makes of a bag. It can fail only for want of memory.
pub(crate) fn apply_recorded(alloc: Global, bag: &Bag, change: &Change) -> Result<Bag, OutOfMemory>
    requires fits { apply_refusal bag.now change.now ≡ None }
    ensures made { IfOk result (λ next. next ≡ with_held bag.now (changed bag.now.held change.now)) }
    ensures within { IfOk result (λ next. IsBag next) }
{
    match bag.applied(alloc, change) {
        Ok(next) => Ok(next),
        Err(ApplyError::Mismatch(_)) => unreachable!(),
        Err(ApplyError::TooManyCopies) => unreachable!(),
        Err(ApplyError::TooManyPairs) => unreachable!(),
        Err(ApplyError::OutOfMemory) => Err(OutOfMemory),
    }
}

// Makes room for so many changes more. The list stays.
pub(crate) fn make_room(changes: &mut Vec<Change>, more: usize) -> Result<(), OutOfMemory>
    ensures unchanged { changes.new.items ≡ changes.old.items }
    ensures room { OnOk result (vec_len changes.new + more ≤ vec_capacity changes.new) }
{
    changes.reserve(more)?;
    Ok(())
}

// Shifts the last change of one list to the end of the other, which has room for it, and returns how many pairs it has.
pub(crate) fn shift_last(from: &mut Vec<Change>, to: &mut Vec<Change>) -> usize
    requires some { 0 < vec_len from.old }
    requires room { vec_len to.old < vec_capacity to.old }
    ensures { IsShifted from.old.items to.old.items from.new.items to.new.items result }
{
    let Some(change) = from.pop() else {
        unreachable!()
    };
    let number = change.entries().len();
    to.push_reserved(change);
    number
}

// Drops all changes but the last ones, so many. It does not allocate.
pub(crate) fn keep_newest(changes: &mut Vec<Change>, newest: usize)
    ensures { changes.new.items ≡ drop (length changes.old.items - newest) changes.old.items }
{
    let number = changes.len();
    if number > newest {
        changes.drain(..number - newest);
    }
}
