//! Laws: functions that do nothing; their contracts state facts about definitions.
ghost use Rattle.std.specs.Prelude.{◌≡◌, ◌↔◌};
ghost use Rattle.s2ix_c.specs.declared.cells.Square.{Square};

use crate::cells::Square;

/// A clone of a square is the same, and cloning never fails.
pub fn cloned_squares_are_the_same()
    ensures same { (a copy : Square) → ⟦<Square as Clone>⟧.is_clone a copy ↔ (copy ≡ a) }
    ensures never_fails { (a : Square) → ⟦<Square as Clone>⟧.is_infallible a }
{}
