//! What a store holds as a dump or as JSON, and its changes as a journal.
#![tactic(auto, using(crate::proofs::Through::through_open, crate::proofs::Through::through_closed))]

ghost use Rattle.std.specs.Prelude.{◌≡◌, Ok};
ghost use Rattle.s2ix_c_calls.specs.Handle.{held_of};
ghost use Rattle.s2ix_text_write.specs.Export.{export_text};
ghost use Rattle.s2ix_text_write.specs.Dump.{dump_text};
ghost use Rattle.s2ix_text_write.specs.Journal.{journal_text};
ghost use Rattle.s2ix_c.specs.Calls.{Through};
ghost use Rattle.s2ix_c_calls.specs.Journals.{journal_from};
ghost use Rattle.s2ix_c_calls.specs.Lists.{Lists};
ghost use Rattle.s2ix_c_calls.specs.Status.{closed};

use crate::handles::with_store;
use s2ix_c_calls::{Handle, calls};
use std::alloc::Global;

/// The dump of what is held, of the second version.
#[unsafe(no_mangle)]
pub extern "C" fn s2ix_dump(
    alloc: Global,
    handle: &mut Handle,
    out: &mut [u8],
    number: &mut usize,
) -> u32
    ensures { Through (λ s t. (t ≡ s) × Lists (Ok (dump_text s.bag.held)) result number.new out.old out.new)
        ((result ≡ closed) × (number.new ≡ 0) × (out.new ≡ out.old)) (held_of handle.old) (held_of handle.new) }
{
    *number = 0;
    with_store!(
        alloc,
        handle,
        |store| calls::dump(alloc, &store, out, number)
    )
}

/// The journal of the changes that can be undone, the oldest first, of the second version.
#[unsafe(no_mangle)]
pub extern "C" fn s2ix_journal(
    alloc: Global,
    handle: &mut Handle,
    out: &mut [u8],
    number: &mut usize,
) -> u32
    ensures { Through (λ s t. (t ≡ s) × Lists (Ok (journal_text s.done)) result number.new out.old out.new)
        ((result ≡ closed) × (number.new ≡ 0) × (out.new ≡ out.old)) (held_of handle.old) (held_of handle.new) }
{
    *number = 0;
    with_store!(
        alloc,
        handle,
        |store| calls::journal(alloc, &store, out, number)
    )
}

/// The journal of the changes that can be undone, from the one with a number on, counted from 1, of the second version. The number after the
/// last is that of the journal of no changes.
#[unsafe(no_mangle)]
pub extern "C" fn s2ix_journal_from(
    alloc: Global,
    handle: &mut Handle,
    change: u32,
    out: &mut [u8],
    number: &mut usize,
) -> u32
    ensures { Through (λ s t. (t ≡ s) × Lists (journal_from change s) result number.new out.old out.new)
        ((result ≡ closed) × (number.new ≡ 0) × (out.new ≡ out.old)) (held_of handle.old) (held_of handle.new) }
{
    *number = 0;
    with_store!(
        alloc,
        handle,
        |store| calls::journal_from(alloc, &store, change, out, number)
    )
}

/// The export of what is held: one line of compact JSON, without a line feed.
#[unsafe(no_mangle)]
pub extern "C" fn s2ix_export(
    alloc: Global,
    handle: &mut Handle,
    out: &mut [u8],
    number: &mut usize,
) -> u32
    ensures { Through (λ s t. (t ≡ s) × Lists (Ok (export_text s.bag.held)) result number.new out.old out.new)
        ((result ≡ closed) × (number.new ≡ 0) × (out.new ≡ out.old)) (held_of handle.old) (held_of handle.new) }
{
    *number = 0;
    with_store!(
        alloc,
        handle,
        |store| calls::export(alloc, &store, out, number)
    )
}
