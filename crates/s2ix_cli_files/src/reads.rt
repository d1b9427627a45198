//! What texts come to.
ghost use Rattle.std.specs.Prelude.{◌≡◌, None, Ok, IfErr, IfOk, OnOk, take};
ghost use Rattle.s2ix_bag.specs.Replay.{first_refusal, rewind_refusal, way_back, with_numbers};
ghost use Rattle.s2ix_bag_pairs.specs.Collection.{LimitedCollection};
ghost use Rattle.s2ix_bag_pairs.specs.Limits.{changes_limit};
ghost use Rattle.s2ix_edit_store.specs.Given.{led_by, record_refusal};
ghost use Rattle.s2ix_text.specs.DumpFaults.{dump_fault};
ghost use Rattle.s2ix_text.specs.JournalFaults.{journal_fault};
ghost use Rattle.s2ix_text_parts.specs.LineFaults.{IsFromLine};
ghost use Rattle.s2ix_cli_files.specs.Reads.{DumpReads, JournalReads, Resumes, RewindLeads, SecondReads, TextsDiffer, TextsReplay, TextsRewind};
ghost use Rattle.s2ix_cli_files.specs.Refusals.{IsRefusedBy, IsWantOf};

use crate::refusal::{Refusal, TextsError};
use s2ix_bag::{replay, rewind};
use s2ix_bag_changes::{Bag, Change};
use s2ix_bag_pairs::Limits;
use s2ix_edit_store::{HistoryError, Store};
use s2ix_table_kept::KeptTable;
use s2ix_text::{DumpError, read_dump, read_journal};
use std::alloc::Global;

// The bag of a dump.
pub(crate) fn dump_read(alloc: Global, text: &[u8], limits: Limits) -> Result<Bag, TextsError>
    ensures bag { IfOk result (λ bag. DumpReads limits text.now (Ok bag)) }
    ensures accepted { OnOk result (dump_fault limits text.now ≡ None) }
    ensures refused { IfErr result (IsRefusedBy (DumpReads limits text.now)) }
    ensures memory { IfErr result (IsWantOf (IsFromLine 2 (dump_fault limits text.now))) }
{
    Ok(read_dump(alloc, text, limits)?)
}

// The changes of a journal.
fn journal_read(alloc: Global, text: &[u8], limits: Limits) -> Result<Vec<Change>, TextsError>
    ensures changes { IfOk result (λ changes. JournalReads limits text.now (Ok changes.items)) }
    ensures refused { IfErr result (IsRefusedBy (JournalReads limits text.now)) }
    ensures memory { IfErr result (IsWantOf (IsFromLine 2 (journal_fault limits text.now))) }
{
    Ok(read_journal(alloc, text, limits)?)
}

// The bag that a dump and a journal come to when they are replayed.
pub(crate) fn texts_replayed(
    alloc: Global,
    dump: &[u8],
    journal: &[u8],
    limits: Limits,
) -> Result<Bag, TextsError>
    ensures bag { IfOk result (λ bag. TextsReplay limits dump.now journal.now (Ok bag)) }
    ensures refused { IfErr result (IsRefusedBy (TextsReplay limits dump.now journal.now)) }
    ensures memory { IfErr result (IsWantOf (IsFromLine 2 (dump_fault limits dump.now))) }
{
    let bag = dump_read(alloc, dump, limits)?;
    let changes = journal_read(alloc, journal, limits)?;
    Ok(replay(alloc, &bag, changes.as_slice())?)
}

// The bag that a dump and a journal come to when they are rewound.
pub(crate) fn texts_rewound(
    alloc: Global,
    dump: &[u8],
    journal: &[u8],
    limits: Limits,
) -> Result<Bag, TextsError>
    ensures bag { IfOk result (λ bag. TextsRewind limits dump.now journal.now (Ok bag)) }
    ensures refused { IfErr result (IsRefusedBy (TextsRewind limits dump.now journal.now)) }
    ensures memory { IfErr result (IsWantOf (IsFromLine 2 (dump_fault limits dump.now))) }
{
    let bag = dump_read(alloc, dump, limits)?;
    let changes = journal_read(alloc, journal, limits)?;
    Ok(rewind(alloc, &bag, changes.as_slice())?)
}

// The store that goes on from a dump, with the changes of a journal done.
pub(crate) fn texts_resumed<T: KeptTable>(
    alloc: Global,
    dump: &[u8],
    journal: &[u8],
    limits: Limits,
) -> Result<Store<T>, TextsError>
    ensures store { IfOk result (Resumes limits dump.now journal.now) }
    ensures first { OnOk result ((first : LimitedCollection) × TextsRewind limits dump.now journal.now (Ok first)) }
    ensures refused { IfErr result (IsRefusedBy (TextsRewind limits dump.now journal.now)) }
    ensures memory { IfErr result (IsWantOf (IsFromLine 2 (dump_fault limits dump.now))) }
{
    let bag = dump_read(alloc, dump, limits)?;
    let changes = journal_read(alloc, journal, limits)?;
    store_led(alloc, bag, changes)
}

// The store of a bag and the changes that led to it, which it may record.
fn store_led<T: KeptTable>(
    alloc: Global,
    bag: Bag,
    changes: Vec<Change>,
) -> Result<Store<T>, TextsError>
    requires recordable { record_refusal (changes_limit bag.limits) changes.items ≡ None }
    ensures store { IfOk result (λ store. store ≡ led_by bag changes.items) }
    ensures accepted { OnOk result (rewind_refusal bag changes.items ≡ None) }
    ensures refused { IfErr result (IsRefusedBy (RewindLeads bag changes.items)) }
    ensures memory { IfErr result (IsWantOf (first_refusal bag (take 1 (way_back (with_numbers changes.items))) ≡ None)) }
{
    match Store::with_history(alloc, bag, changes) {
        Ok(store) => Ok(store),
        Err(HistoryError::JournalFull) => unreachable!(),
        Err(HistoryError::NoChange { change: _ }) => unreachable!(),
        Err(HistoryError::Mismatch { change, entry }) => {
            Err(TextsError::Refused(Refusal::Mismatch { change, entry }))
        }
        Err(HistoryError::TooManyCopies { change }) => {
            Err(TextsError::Refused(Refusal::TooManyCopies { change }))
        }
        Err(HistoryError::TooManyPairs { change }) => {
            Err(TextsError::Refused(Refusal::TooManyPairs { change }))
        }
        Err(HistoryError::OutOfMemory) => Err(TextsError::OutOfMemory),
    }
}

// The bag of the second of two dumps.
fn second_read(alloc: Global, text: &[u8], limits: Limits) -> Result<Bag, TextsError>
    ensures bag { IfOk result (λ bag. SecondReads limits text.now (Ok bag)) }
    ensures refused { IfErr result (IsRefusedBy (SecondReads limits text.now)) }
    ensures memory { IfErr result (IsWantOf (IsFromLine 2 (dump_fault limits text.now))) }
{
    match read_dump(alloc, text, limits) {
        Ok(bag) => Ok(bag),
        Err(DumpError::At { line, fault }) => {
            Err(TextsError::Refused(Refusal::Second { line, fault }))
        }
        Err(DumpError::OutOfMemory) => Err(TextsError::OutOfMemory),
    }
}

// The change that leads from the bag of one dump to that of another.
pub(crate) fn texts_compared(
    alloc: Global,
    first: &[u8],
    second: &[u8],
    limits: Limits,
) -> Result<Change, TextsError>
    ensures change { IfOk result (λ change. TextsDiffer limits first.now second.now (Ok change)) }
    ensures refused { IfErr result (IsRefusedBy (TextsDiffer limits first.now second.now)) }
    ensures memory { IfErr result (IsWantOf (IsFromLine 2 (dump_fault limits first.now))) }
{
    let old = dump_read(alloc, first, limits)?;
    let new = second_read(alloc, second, limits)?;
    match Change::between(alloc, &old, &new) {
        Ok(change) => Ok(change),
        Err(_) => Err(TextsError::OutOfMemory),
    }
}
