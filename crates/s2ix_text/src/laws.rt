//! Laws: functions that do nothing; their contracts state facts about definitions.
ghost use Rattle.std.specs.Prelude.{◌≡◌, ◌↔◌, IsTrue};
ghost use Rattle.s2ix_text.specs.declared.dump_error.DumpError.{DumpError};
ghost use Rattle.s2ix_text.specs.declared.dump_error.DumpFault.{DumpFault};
ghost use Rattle.s2ix_text.specs.DumpLaws.{DumpsHaveNoFault, NoFaultyLineIsAccepted, WrittenDumpsAreReadBack};
ghost use Rattle.s2ix_text.specs.declared.journal_error.JournalError.{JournalError};
ghost use Rattle.s2ix_text.specs.declared.journal_error.JournalFault.{JournalFault};
ghost use Rattle.s2ix_text.specs.JournalLaws.{JournalsHaveNoFault, NoFaultyJournalLineIsAccepted, WrittenJournalsAreReadBack};

use crate::dump_error::{DumpError, DumpFault};
use crate::journal_error::{JournalError, JournalFault};
pub use s2ix_text_parts::laws as parts;
pub use s2ix_text_write::laws as writing;

/// A text has no fault exactly if it is a dump, in either version, of a collection within the limits.
pub fn dumps_have_no_fault()
    ensures { DumpsHaveNoFault }
{}

/// The dump of a bag in each version that can hold it has no fault under its limits, and no other bag has that text: so reading it gives
/// the bag.
pub fn written_dumps_are_read_back()
    ensures { WrittenDumpsAreReadBack }
{}

/// In a text without a fault no line has one. So a text with a faulty line is never accepted.
pub fn no_faulty_line_is_accepted()
    ensures { NoFaultyLineIsAccepted }
{}

/// Two faults of dumps are equal exactly if they are the same.
pub fn equal_dump_faults_are_one()
    ensures { (a b : DumpFault) → IsTrue (⟦<DumpFault as PartialEq>⟧.eq a b) ↔ (a ≡ b) }
{}

/// A clone of a fault of a dump is the same, and cloning never fails.
pub fn cloned_dump_faults_are_the_same()
    ensures same { (a copy : DumpFault) → ⟦<DumpFault as Clone>⟧.is_clone a copy ↔ (copy ≡ a) }
    ensures never_fails { (a : DumpFault) → ⟦<DumpFault as Clone>⟧.is_infallible a }
{}

/// Two errors of `read_dump` are equal exactly if they are the same.
pub fn equal_dump_errors_are_one()
    ensures { (a b : DumpError) → IsTrue (⟦<DumpError as PartialEq>⟧.eq a b) ↔ (a ≡ b) }
{}

/// A clone of an error of `read_dump` is the same, and cloning never fails.
pub fn cloned_dump_errors_are_the_same()
    ensures same { (a copy : DumpError) → ⟦<DumpError as Clone>⟧.is_clone a copy ↔ (copy ≡ a) }
    ensures never_fails { (a : DumpError) → ⟦<DumpError as Clone>⟧.is_infallible a }
{}

/// A text has no fault exactly if it is a journal, in either version, of a list of changes within the limits.
pub fn journals_have_no_fault()
    ensures { JournalsHaveNoFault }
{}

/// The journal of changes within limits in each version that can hold them has no fault under these limits, and no other such changes have
/// that text: so reading it gives them.
pub fn written_journals_are_read_back()
    ensures { WrittenJournalsAreReadBack }
{}

/// In a text without a fault no line has one. So a text with a faulty line is never accepted.
pub fn no_faulty_journal_line_is_accepted()
    ensures { NoFaultyJournalLineIsAccepted }
{}

/// Two faults of journals are equal exactly if they are the same.
pub fn equal_journal_faults_are_one()
    ensures { (a b : JournalFault) → IsTrue (⟦<JournalFault as PartialEq>⟧.eq a b) ↔ (a ≡ b) }
{}

/// A clone of a fault of a journal is the same, and cloning never fails.
pub fn cloned_journal_faults_are_the_same()
    ensures same { (a copy : JournalFault) → ⟦<JournalFault as Clone>⟧.is_clone a copy ↔ (copy ≡ a) }
    ensures never_fails { (a : JournalFault) → ⟦<JournalFault as Clone>⟧.is_infallible a }
{}

/// Two errors of `read_journal` are equal exactly if they are the same.
pub fn equal_journal_errors_are_one()
    ensures { (a b : JournalError) → IsTrue (⟦<JournalError as PartialEq>⟧.eq a b) ↔ (a ≡ b) }
{}

/// A clone of an error of `read_journal` is the same, and cloning never fails.
pub fn cloned_journal_errors_are_the_same()
    ensures same { (a copy : JournalError) → ⟦<JournalError as Clone>⟧.is_clone a copy ↔ (copy ≡ a) }
    ensures never_fails { (a : JournalError) → ⟦<JournalError as Clone>⟧.is_infallible a }
{}
