//! Undo, redo, changes that are joined or forgotten, over a handle.
#![tactic(auto, using(crate::proofs::Through::through_open, crate::proofs::Through::through_closed))]

ghost use Rattle.std.specs.Prelude.{◌≡◌};
ghost use Rattle.s2ix_edit.specs.Steps.{after_forget, after_forget_older};
ghost use Rattle.s2ix_c_calls.specs.Handle.{held_of};
ghost use Rattle.s2ix_c.specs.Calls.{Through};
ghost use Rattle.s2ix_c_calls.specs.Resuming.{IsJoined};
ghost use Rattle.s2ix_c_calls.specs.Stores.{IsRedone, IsUndone};
ghost use Rattle.s2ix_c_calls.specs.Status.{closed, done};

use crate::handles::with_store;
use s2ix_c_calls::status::DONE;
use s2ix_c_calls::{Handle, calls};
use std::alloc::Global;

/// Takes the last change back; `number` is how many pairs it had.
#[unsafe(no_mangle)]
pub extern "C" fn s2ix_undo(alloc: Global, handle: &mut Handle, number: &mut usize) -> u32
    ensures { Through (IsUndone result number.new) ((result ≡ closed) × (number.new ≡ 0)) (held_of handle.old) (held_of handle.new) }
{
    *number = 0;
    with_store!(alloc, handle, |store| calls::undo(&mut store, number))
}

/// Redoes the change that was undone last; `number` is how many pairs it has.
#[unsafe(no_mangle)]
pub extern "C" fn s2ix_redo(alloc: Global, handle: &mut Handle, number: &mut usize) -> u32
    ensures { Through (IsRedone result number.new) ((result ≡ closed) × (number.new ≡ 0)) (held_of handle.old) (held_of handle.new) }
{
    *number = 0;
    with_store!(alloc, handle, |store| calls::redo(&mut store, number))
}

/// Keeps the collection and drops all changes: nothing is left to undo or redo.
#[unsafe(no_mangle)]
pub extern "C" fn s2ix_forget(alloc: Global, handle: &mut Handle) -> u32
    ensures { Through (λ s t. (t ≡ after_forget s) × (result ≡ done)) (result ≡ closed) (held_of handle.old) (held_of handle.new) }
{
    with_store!(alloc, handle, |store| {
        store.forget();
        DONE
    })
}

/// Keeps the newest changes that can be undone, at most so many, and drops those before them. What can be redone stays.
#[unsafe(no_mangle)]
pub extern "C" fn s2ix_forget_older(alloc: Global, handle: &mut Handle, newest: usize) -> u32
    ensures { Through (λ s t. (t ≡ after_forget_older s newest) × (result ≡ done)) (result ≡ closed)
        (held_of handle.old) (held_of handle.new) }
{
    with_store!(alloc, handle, |store| {
        store.forget_older(newest);
        DONE
    })
}

/// Makes one change of the last ones that can be undone, so many of them; `number` is how many pairs it has, 0 if the changes are gone. What
/// is held stays, and so does what can be redone.
#[unsafe(no_mangle)]
pub extern "C" fn s2ix_join(
    alloc: Global,
    handle: &mut Handle,
    last: usize,
    number: &mut usize,
) -> u32
    ensures { Through (IsJoined last result number.new) ((result ≡ closed) × (number.new ≡ 0))
        (held_of handle.old) (held_of handle.new) }
{
    *number = 0;
    with_store!(alloc, handle, |store| calls::join(&mut store, last, number))
}
