//! Laws: functions that do nothing; their contracts state facts about definitions.
ghost use Rattle.std.specs.Prelude.{◌≡◌, ◌≢◌, ◌↔◌, ℕ, List, [], All, IsTrue};
ghost use Rattle.s2ix_cli_words.specs.Fields.{HasNoWhiteSpace, AreInLineOrder, fields_of};
ghost use Rattle.s2ix_cli_words.specs.declared.ending.Ending.{Ending};

use crate::ending::Ending;
use crate::fields::Fields;

/// No field is empty.
pub fn no_field_is_empty()
    ensures { (line : List ℕ) → All (λ field. field ≢ []) (fields_of line) }
{}

/// No character of a field is white space; bytes that are no UTF-8 are read as U+FFFD.
pub fn no_field_has_white_space()
    ensures { (line : List ℕ) → All HasNoWhiteSpace (fields_of line) }
{}

/// The fields stand in the line in their order, with white space between each two of them, and around them is nothing
/// else.
pub fn fields_stand_in_order()
    ensures { (line : List ℕ) → AreInLineOrder (fields_of line) line }
{}

/// A clone of a line's fields has the same still to come, and cloning never fails.
pub fn cloned_fields_have_the_same_rest<'a>()
    ensures same { (fields copy : List (List ℕ)) → ⟦<Fields<'a> as Clone>⟧.is_clone fields copy ↔ (copy ≡ fields) }
    ensures never_fails { (fields : List (List ℕ)) → ⟦<Fields<'a> as Clone>⟧.is_infallible fields }
{}

/// Two ends of the program are equal exactly if they are the same.
pub fn equal_endings_are_one()
    ensures { (a b : Ending) → IsTrue (⟦<Ending as PartialEq>⟧.eq a b) ↔ (a ≡ b) }
{}

/// A clone of an end of the program is the same, and cloning never fails.
pub fn cloned_endings_are_the_same()
    ensures same { (a copy : Ending) → ⟦<Ending as Clone>⟧.is_clone a copy ↔ (copy ≡ a) }
    ensures never_fails { (a : Ending) → ⟦<Ending as Clone>⟧.is_infallible a }
{}
