//! Laws: functions that do nothing; their contracts state facts about definitions.
ghost use Rattle.std.specs.Prelude.{◌≡◌, ◌↔◌, IsTrue};
ghost use Rattle.s2ix_bag.specs.declared.replay_error.ReplayError.{ReplayError};
ghost use Rattle.s2ix_bag.specs.Laws.{RewindTakesReplayBack, ReplayTakesRewindBack};

use crate::replay_error::ReplayError;
pub use s2ix_bag_changes::laws::{
    cloned_bags_are_the_same, cloned_changes_are_the_same,
    cloned_label_iterators_have_the_same_rest, equal_bags_are_one, equal_changes_are_one,
};

/// If a bag accepts a replay, the result accepts the rewind, which gives the bag again.
pub fn rewind_takes_replay_back()
    ensures { RewindTakesReplayBack }
{}

/// If a bag accepts a rewind, the result accepts the replay, which gives the bag again.
pub fn replay_takes_rewind_back()
    ensures { ReplayTakesRewindBack }
{}

/// Two refusals of a list of changes are equal exactly if they are the same.
pub fn equal_replay_errors_are_one()
    ensures { (a b : ReplayError) → IsTrue (⟦<ReplayError as PartialEq>⟧.eq a b) ↔ (a ≡ b) }
{}

/// A clone of a refusal of a list of changes is the same, and cloning never fails.
pub fn cloned_replay_errors_are_the_same()
    ensures same { (a copy : ReplayError) → ⟦<ReplayError as Clone>⟧.is_clone a copy ↔ (copy ≡ a) }
    ensures never_fails { (a : ReplayError) → ⟦<ReplayError as Clone>⟧.is_infallible a }
{}
