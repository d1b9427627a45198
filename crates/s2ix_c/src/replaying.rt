//! Stores that start from where a dump and a journal lead.

ghost use Rattle.std.specs.Prelude.{◌≡◌, ◌↔◌, ◌≢◌, ◌⊎◌, Some};
ghost use Rattle.s2ix_bag_pairs.specs.Ranges.{AreLimits};
ghost use Rattle.s2ix_edit_plan.specs.State.{starting_at};
ghost use Rattle.s2ix_c_calls.specs.Handle.{held_of};
ghost use Rattle.s2ix_c_calls.specs.declared.replaying.Direction.TheVariants.{Back, Forward};
ghost use Rattle.s2ix_c_calls.specs.Replaying.{IsOfTexts, OpensLed, RefusesIn, refused_at, refused_by};
ghost use Rattle.s2ix_c_calls.specs.Status.{done, no_limits, out_of_memory};

use crate::handles::keep;
use s2ix_bag_changes::Bag;
use s2ix_bag_pairs::Limits;
use s2ix_c_calls::status::{NO_LIMITS, OUT_OF_MEMORY};
use s2ix_c_calls::{Direction, Handle, LedError, refused_of, texts_led};
use s2ix_edit::Store;
use std::alloc::Global;

// Puts a store that starts from a bag into a handle.
fn keep_bag(alloc: Global, handle: &mut Handle, bag: Bag) -> u32
    ensures kept { result ≡ done → held_of handle.new ≡ Some (starting_at bag) }
    ensures refused { result ≢ done → (result ≡ out_of_memory) × (held_of handle.new ≡ held_of handle.old) }
{
    match Store::from_bag(alloc, bag) {
        Ok(store) => keep(alloc, handle, store),
        Err(_) => OUT_OF_MEMORY,
    }
}

// Tells what is refused in texts: where, and the status.
pub(crate) fn tell(error: LedError, place: &mut usize, entry: &mut usize) -> u32
    ensures refused { refused_at result place.new entry.new ≡ refused_by error }
    ensures status { IsOfTexts result }
{
    let refused = refused_of(error);
    *place = refused.place;
    *entry = refused.entry;
    refused.status
}

// Opens a handle of the store that starts from where a dump and a journal lead, or tells what is refused first.
fn open_led(
    alloc: Global,
    handle: &mut Handle,
    direction: Direction,
    dump: &[u8],
    journal: &[u8],
    pairs: u32,
    copies: u32,
    changes: u32,
    place: &mut usize,
    entry: &mut usize,
) -> u32
    ensures led { result ≡ done → OpensLed direction dump.now journal.now pairs copies changes (held_of handle.new) }
    ensures unchanged { result ≢ done → held_of handle.new ≡ held_of handle.old }
    ensures limits { (result ≡ no_limits) ↔ (AreLimits pairs copies changes → ⊥) }
    ensures refused { result ≢ done → result ≢ no_limits
        → RefusesIn direction dump.now journal.now pairs copies changes (refused_at result place.new entry.new) }
    ensures no_place { (result ≡ done) ⊎ (result ≡ no_limits) → (place.new ≡ 0) × (entry.new ≡ 0) }
{
    *place = 0;
    *entry = 0;
    let Some(limits) = Limits::new(pairs, copies, changes) else {
        return NO_LIMITS;
    };
    match texts_led(alloc, direction, dump, journal, limits) {
        Ok(bag) => keep_bag(alloc, handle, bag),
        Err(error) => tell(error, place, entry),
    }
}

/// Opens a handle of the store that starts from a dump's collection after a journal's changes, with nothing to undo or redo. If the call is
/// not refused, it frees the store that the handle had. If something in the texts is refused, `place` is the line or the change that is
/// refused first, and `entry` is the entry of that change whose count is not the one that is held.
#[unsafe(no_mangle)]
pub extern "C" fn s2ix_replay(
    alloc: Global,
    handle: &mut Handle,
    dump: &[u8],
    journal: &[u8],
    pairs: u32,
    copies: u32,
    changes: u32,
    place: &mut usize,
    entry: &mut usize,
) -> u32
    ensures replayed { result ≡ done → OpensLed Forward dump.now journal.now pairs copies changes (held_of handle.new) }
    ensures unchanged { result ≢ done → held_of handle.new ≡ held_of handle.old }
    ensures limits { (result ≡ no_limits) ↔ (AreLimits pairs copies changes → ⊥) }
    ensures refused { result ≢ done → result ≢ no_limits
        → RefusesIn Forward dump.now journal.now pairs copies changes (refused_at result place.new entry.new) }
    ensures no_place { (result ≡ done) ⊎ (result ≡ no_limits) → (place.new ≡ 0) × (entry.new ≡ 0) }
{
    open_led(
        alloc,
        handle,
        Direction::Forward,
        dump,
        journal,
        pairs,
        copies,
        changes,
        place,
        entry,
    )
}

/// Opens a handle of the store that starts from a dump's collection before a journal's changes, the last of which is taken back first, with
/// nothing to undo or redo. Else as `s2ix_replay`.
#[unsafe(no_mangle)]
pub extern "C" fn s2ix_rewind(
    alloc: Global,
    handle: &mut Handle,
    dump: &[u8],
    journal: &[u8],
    pairs: u32,
    copies: u32,
    changes: u32,
    place: &mut usize,
    entry: &mut usize,
) -> u32
    ensures rewound { result ≡ done → OpensLed Back dump.now journal.now pairs copies changes (held_of handle.new) }
    ensures unchanged { result ≢ done → held_of handle.new ≡ held_of handle.old }
    ensures limits { (result ≡ no_limits) ↔ (AreLimits pairs copies changes → ⊥) }
    ensures refused { result ≢ done → result ≢ no_limits
        → RefusesIn Back dump.now journal.now pairs copies changes (refused_at result place.new entry.new) }
    ensures no_place { (result ≡ done) ⊎ (result ≡ no_limits) → (place.new ≡ 0) × (entry.new ≡ 0) }
{
    open_led(
        alloc,
        handle,
        Direction::Back,
        dump,
        journal,
        pairs,
        copies,
        changes,
        place,
        entry,
    )
}
