//! Stores that go on from a dump and a journal, and a journal's changes done over a handle.

ghost use Rattle.std.specs.Prelude.{◌≡◌, ◌↔◌, ◌≢◌, ◌⊎◌};
ghost use Rattle.s2ix_bag_pairs.specs.Ranges.{AreLimits};
ghost use Rattle.s2ix_c.specs.Calls.{Through};
ghost use Rattle.s2ix_c_calls.specs.Handle.{held_of};
ghost use Rattle.s2ix_c_calls.specs.Replaying.{refused_at};
ghost use Rattle.s2ix_c_calls.specs.Resuming.{IsApplied, OpensResumed, RefusesResumed};
ghost use Rattle.s2ix_c_calls.specs.Status.{closed, done, no_limits};

use crate::handles::{keep, with_store};
use crate::replaying::tell;
use s2ix_bag_pairs::Limits;
use s2ix_c_calls::status::{DONE, NO_LIMITS};
use s2ix_c_calls::{Handle, apply_text, texts_resumed};
use s2ix_edit::Store;
use std::alloc::Global;

/// Opens a handle of the store that a dump and a journal were written of: it stands at the dump's collection, and the journal's changes,
/// the last of which led there, can be undone as if it had done them. Nothing can be redone. If the call is not refused, it frees the store
/// that the handle had. `place` and `entry` are as in `s2ix_rewind`.
#[unsafe(no_mangle)]
pub extern "C" fn s2ix_resume(
    alloc: Global,
    handle: &mut Handle,
    dump: &[u8],
    journal: &[u8],
    pairs: u32,
    copies: u32,
    changes: u32,
    place: &mut usize,
    entry: &mut usize,
) -> u32
    ensures resumed { result ≡ done → OpensResumed dump.now journal.now pairs copies changes (held_of handle.new) }
    ensures unchanged { result ≢ done → held_of handle.new ≡ held_of handle.old }
    ensures limits { (result ≡ no_limits) ↔ (AreLimits pairs copies changes → ⊥) }
    ensures refused { result ≢ done → result ≢ no_limits
        → RefusesResumed dump.now journal.now pairs copies changes (refused_at result place.new entry.new) }
    ensures no_place { (result ≡ done) ⊎ (result ≡ no_limits) → (place.new ≡ 0) × (entry.new ≡ 0) }
{
    *place = 0;
    *entry = 0;
    let Some(limits) = Limits::new(pairs, copies, changes) else {
        return NO_LIMITS;
    };
    match texts_resumed(alloc, dump, journal, limits) {
        Ok(store) => keep(alloc, handle, store),
        Err(error) => tell(error, place, entry),
    }
}

// Does a journal's changes on a store.
fn apply(
    alloc: Global,
    store: &mut Store,
    journal: &[u8],
    number: &mut usize,
    place: &mut usize,
    entry: &mut usize,
) -> u32
    ensures { IsApplied journal.now result number.new place.new entry.new store.old store.new }
{
    *number = 0;
    *place = 0;
    *entry = 0;
    match apply_text(alloc, store, journal) {
        Ok(changed) => {
            *number = changed;
            DONE
        }
        Err(error) => tell(error, place, entry),
    }
}

/// Does a journal's changes, each one of its own that can be undone; `number` is how many pairs have another count than before. All are
/// done, or none. If something in the journal is refused, `place` is the line or the change that is refused first, and `entry` is the entry
/// of that change whose count is not the one that is held.
#[tactic(auto, using(crate::proofs::Through::through_open, crate::proofs::Through::through_closed))]
#[unsafe(no_mangle)]
pub extern "C" fn s2ix_apply(
    alloc: Global,
    handle: &mut Handle,
    journal: &[u8],
    number: &mut usize,
    place: &mut usize,
    entry: &mut usize,
) -> u32
    ensures { Through (IsApplied journal.now result number.new place.new entry.new)
        ((result ≡ closed) × (number.new ≡ 0) × (place.new ≡ 0) × (entry.new ≡ 0)) (held_of handle.old) (held_of handle.new) }
{
    *number = 0;
    *place = 0;
    *entry = 0;
    with_store!(
        alloc,
        handle,
        |store| apply(alloc, &mut store, journal, number, place, entry)
    )
}
