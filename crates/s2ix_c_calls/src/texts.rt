//! What a store holds as a dump or as JSON, and its changes as a journal.

ghost use Rattle.std.specs.Prelude.{◌≡◌, Ok, Some, None, IfSome, IfNone};
ghost use Rattle.s2ix_text_write.specs.Dump.{dump_text};
ghost use Rattle.s2ix_text_write.specs.Journal.{journal_text};
ghost use Rattle.s2ix_c_calls.specs.Journals.{numbered_on, journal_from};
ghost use Rattle.s2ix_c_calls.specs.Lists.{Lists};
ghost use Rattle.s2ix_text_write.specs.Export.{export_text};

use crate::rows::put_bytes;
use crate::status::{NO_SUCH_CHANGE, OUT_OF_MEMORY};
use s2ix_bag_changes::Change;
use s2ix_edit::Store;
use s2ix_text_parts::VecSink;
use s2ix_text_write::{write_dump, write_journal};
use std::alloc::Global;

/// The dump of what is held, of the second version.
pub fn dump(alloc: Global, store: &Store, out: &mut [u8], number: &mut usize) -> u32
    ensures { Lists (Ok (dump_text store.now.bag.held)) result number.new out.old out.new }
{
    *number = 0;
    let mut sink = VecSink::new(alloc);
    match write_dump(store.bag(), &mut sink) {
        Ok(()) => put_bytes(sink.kept(), out, number),
        Err(_) => OUT_OF_MEMORY,
    }
}

/// The journal of the changes that can be undone, the oldest first, of the second version.
pub fn journal(alloc: Global, store: &Store, out: &mut [u8], number: &mut usize) -> u32
    ensures { Lists (Ok (journal_text store.now.done)) result number.new out.old out.new }
{
    put_journal(alloc, store.done(), out, number)
}

// Puts the journal of changes to the front of `out`, if it has room for it; `number` is how many bytes it has.
fn put_journal(alloc: Global, changes: &[Change], out: &mut [u8], number: &mut usize) -> u32
    ensures { Lists (Ok (journal_text changes.now)) result number.new out.old out.new }
{
    *number = 0;
    let mut sink = VecSink::new(alloc);
    match write_journal(changes, &mut sink) {
        Ok(()) => put_bytes(sink.kept(), out, number),
        Err(_) => OUT_OF_MEMORY,
    }
}

// The changes from the one with a number on, counted from 1; none from the number after the last on.
fn from_number(changes: &[Change], number: u32) -> Option<&[Change]>
    ensures some { IfSome result (λ rest. numbered_on number changes.now ≡ Some rest.now) }
    ensures none { IfNone result (numbered_on number changes.now ≡ None) }
{
    let place = (number as usize).checked_sub(1)?;
    if place > changes.len() {
        return None;
    }
    Some(&changes[place..])
}

/// The journal of the changes that can be undone, from the one with a number on, counted from 1, of the second version. The number after the
/// last is that of the journal of no changes.
pub fn journal_from(
    alloc: Global,
    store: &Store,
    change: u32,
    out: &mut [u8],
    number: &mut usize,
) -> u32
    ensures { Lists (journal_from change store.now) result number.new out.old out.new }
{
    match from_number(store.done(), change) {
        Some(changes) => put_journal(alloc, changes, out, number),
        None => {
            *number = 0;
            NO_SUCH_CHANGE
        }
    }
}

/// The export of what is held: one line of compact JSON, without a line feed.
pub fn export(alloc: Global, store: &Store, out: &mut [u8], number: &mut usize) -> u32
    ensures { Lists (Ok (export_text store.now.bag.held)) result number.new out.old out.new }
{
    *number = 0;
    match s2ix_text_write::export(alloc, store.bag()) {
        Ok(text) => put_bytes(text.as_bytes(), out, number),
        Err(_) => OUT_OF_MEMORY,
    }
}
