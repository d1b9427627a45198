//! Handles, opened and closed.

ghost use Rattle.std.specs.Prelude.{◌≡◌, ◌↔◌, ◌≢◌, ◌⊎◌, Some, None, []};
ghost use Rattle.s2ix_bag_pairs.specs.declared.limits.Limits.{Limits};
ghost use Rattle.s2ix_bag_pairs.specs.Ranges.{AreLimits};
ghost use Rattle.s2ix_edit_plan.specs.State.{starting_at};
ghost use Rattle.s2ix_c_calls.specs.Handle.{held_of};
ghost use Rattle.s2ix_c.specs.Calls.{HasFaultIn, IsCopied, Loads, MayWantMemory, Opens, Through};
ghost use Rattle.s2ix_c_calls.specs.Stores.{IsCleared};
ghost use Rattle.s2ix_c_calls.specs.Status.{closed, done, no_dump, no_limits, out_of_memory};

use s2ix_bag_pairs::Limits;
use s2ix_c_calls::status::{DONE, NO_DUMP, NO_LIMITS, OUT_OF_MEMORY};
use s2ix_c_calls::{Handle, calls};
use s2ix_edit::Store;
use s2ix_text::{DumpError, read_dump};
use std::alloc::Global;

// Makes a call with the store of a handle, and gives its status. The handle is closed during the call, and has the store again after it. If
// the handle was closed before, nothing is called, and the status is that of a closed handle, or what the last argument gives.
macro_rules! with_store {
    ($alloc:expr, $handle:expr, |$store:ident| $call:expr) => {
        with_store!($alloc, $handle, |$store| $call, || s2ix_c_calls::status::CLOSED)
    };
    ($alloc:expr, $handle:expr, |$store:ident| $call:expr, || $closed:expr) => {
        match $handle.take($alloc) {
            Some(mut $store) => {
                let status = $call;
                *$handle = s2ix_c_calls::Handle::of($alloc, $store);
                status
            }
            None => $closed,
        }
    };
}

pub(crate) use with_store;

// Puts a store into a handle.
pub(crate) fn keep(alloc: Global, handle: &mut Handle, store: Store) -> u32
    ensures kept { result ≡ done → held_of handle.new ≡ Some store }
    ensures refused { result ≢ done → (result ≡ out_of_memory) × (held_of handle.new ≡ held_of handle.old) }
{
    let Ok(store) = Box::new(alloc, store) else {
        return OUT_OF_MEMORY;
    };
    *handle = Handle::of(alloc, store);
    DONE
}

/// Opens a handle of an empty store: of at most `pairs` pairs, `copies` of each and `changes` to undo. If the call is not refused, it frees
/// the store that the handle had.
#[unsafe(no_mangle)]
pub extern "C" fn s2ix_open(
    alloc: Global,
    handle: &mut Handle,
    pairs: u32,
    copies: u32,
    changes: u32,
) -> u32
    ensures opened { result ≡ done
        → Opens pairs copies changes (λ limits. starting_at (record { limits = limits; held = [] })) (held_of handle.new) }
    ensures refused { result ≢ done → held_of handle.new ≡ held_of handle.old }
    ensures limits { (result ≡ no_limits) ↔ (AreLimits pairs copies changes → ⊥) }
    ensures answers { (result ≡ done) ⊎ (result ≡ no_limits) ⊎ (result ≡ out_of_memory) }
{
    let Some(limits) = Limits::new(pairs, copies, changes) else {
        return NO_LIMITS;
    };
    let Ok(store) = Store::new(alloc, limits) else {
        return OUT_OF_MEMORY;
    };
    keep(alloc, handle, store)
}

/// Closes a handle, and frees all that its store had. A closed one stays closed.
#[unsafe(no_mangle)]
pub extern "C" fn s2ix_close(alloc: Global, handle: &mut Handle)
    ensures { held_of handle.new ≡ None }
{
    *handle = Handle::closed(alloc);
}

/// Opens a handle of the store that starts from a dump's collection. If the call is not refused, it frees the store that the handle had. If
/// the text is no dump, `line` is the first line with a fault, from 1; else it is 0.
#[unsafe(no_mangle)]
pub extern "C" fn s2ix_load(
    alloc: Global,
    handle: &mut Handle,
    text: &[u8],
    pairs: u32,
    copies: u32,
    changes: u32,
    line: &mut usize,
) -> u32
    ensures loaded { result ≡ done → Loads text.now pairs copies changes (held_of handle.new) }
    ensures refused { result ≢ done → held_of handle.new ≡ held_of handle.old }
    ensures limits { (result ≡ no_limits) ↔ (AreLimits pairs copies changes → ⊥) }
    ensures fault { result ≡ no_dump → HasFaultIn text.now pairs copies changes line.new }
    ensures no_fault { result ≢ no_dump → line.new ≡ 0 }
    ensures memory { result ≡ out_of_memory → MayWantMemory text.now pairs copies changes }
    ensures answers { (result ≡ done) ⊎ (result ≡ no_limits) ⊎ (result ≡ no_dump) ⊎ (result ≡ out_of_memory) }
{
    *line = 0;
    let Some(limits) = Limits::new(pairs, copies, changes) else {
        return NO_LIMITS;
    };
    let bag = match read_dump(alloc, text, limits) {
        Ok(bag) => bag,
        Err(DumpError::At { line: at, .. }) => {
            *line = at;
            return NO_DUMP;
        }
        Err(DumpError::OutOfMemory) => return OUT_OF_MEMORY,
    };
    let Ok(store) = Store::from_bag(alloc, bag) else {
        return OUT_OF_MEMORY;
    };
    keep(alloc, handle, store)
}

// A store that starts from what another holds.
fn copy_into(alloc: Global, store: &Store, copy: &mut Handle) -> u32
    ensures { IsCopied store.now result (held_of copy.old) (held_of copy.new) }
{
    let Ok(other) = store.copied() else {
        return OUT_OF_MEMORY;
    };
    keep(alloc, copy, other)
}

/// Opens `copy` of a store that starts from what the handle's holds, with nothing to undo or redo. A store that `copy` had is freed, if the
/// call is not refused.
#[tactic(auto, using(crate::proofs::Through::through_open, crate::proofs::Through::through_closed))]
#[unsafe(no_mangle)]
pub extern "C" fn s2ix_copy(alloc: Global, handle: &mut Handle, copy: &mut Handle) -> u32
    ensures { Through (λ s t. (t ≡ s) × IsCopied s result (held_of copy.old) (held_of copy.new))
        ((result ≡ closed) × (held_of copy.new ≡ held_of copy.old)) (held_of handle.old) (held_of handle.new) }
{
    with_store!(alloc, handle, |store| copy_into(alloc, &store, copy))
}

/// Drops all pairs and all changes, and keeps the limits: nothing is left to undo or redo.
#[tactic(auto, using(crate::proofs::Through::through_open, crate::proofs::Through::through_closed))]
#[unsafe(no_mangle)]
pub extern "C" fn s2ix_clear(alloc: Global, handle: &mut Handle) -> u32
    ensures { Through (IsCleared result) (result ≡ closed) (held_of handle.old) (held_of handle.new) }
{
    with_store!(alloc, handle, |store| calls::clear(alloc, &mut store))
}
