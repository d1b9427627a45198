//! Laws: functions that do nothing; their contracts state facts about definitions.
ghost use Rattle.std.specs.Prelude.{◌≡◌, ◌↔◌};
ghost use Rattle.s2ix_bag_pairs.specs.declared.pair.Held.{Held};
ghost use Rattle.s2ix_bag_pairs.specs.Collection.{Collection};

use crate::flat::FlatHeld;
use crate::held_list::HeldList;

/// The clone of a flat held pair stands for the same held pair, and cloning never fails.
pub fn cloned_flat_pairs_are_the_same()
    ensures same { (held copy : Held) → ⟦<FlatHeld as Clone>⟧.is_clone held copy ↔ (copy ≡ held) }
    ensures never_fails { (held : Held) → ⟦<FlatHeld as Clone>⟧.is_infallible held }
{}

/// A clone of a list of held pairs holds the same pairs with the same counts.
pub fn cloned_held_lists_are_the_same()
    ensures { (list copy : Collection) → ⟦<HeldList as Clone>⟧.is_clone list copy ↔ (copy ≡ list) }
{}
