//! Laws: functions that do nothing; their contracts state facts about definitions.
ghost use Rattle.std.specs.Prelude.{◌≡◌, ◌↔◌, IsTrue};
ghost use Rattle.s2ix_text_write.specs.declared.version.Version.{Version};
ghost use Rattle.s2ix_text_write.specs.WritingLaws.{BagsHaveDumps, DumpsTellBagsApart, DumpsTellCollectionsApart, DumpsTellVersionsApart, JournalsTellListsApart, JournalsTellVersionsApart, WritableChangesHaveJournals};
ghost use Rattle.s2ix_text_write.specs.ExportLaws.{ExportsTellBagsApart};

use crate::version::Version;

/// A text is a dump of one collection alone, in whichever version; so two bags with one dump hold the same.
pub fn dumps_tell_collections_apart()
    ensures collections { DumpsTellCollectionsApart }
    ensures bags { DumpsTellBagsApart }
{}

/// No text is a dump of both versions.
pub fn dumps_tell_versions_apart()
    ensures { DumpsTellVersionsApart }
{}

/// The second version can hold each bag, so what is written of a bag is a dump of it.
pub fn bags_have_dumps()
    ensures { BagsHaveDumps }
{}

/// A text is a journal of one list of changes alone, in whichever version.
pub fn journals_tell_lists_apart()
    ensures { JournalsTellListsApart }
{}

/// No journal is of both versions.
pub fn journals_tell_versions_apart()
    ensures { JournalsTellVersionsApart }
{}

/// What is written of writable changes is a journal of them.
pub fn writable_changes_have_journals()
    ensures { WritableChangesHaveJournals }
{}

/// Two versions are equal exactly if they are the same.
pub fn equal_versions_are_one()
    ensures { (a b : Version) → IsTrue (⟦<Version as PartialEq>⟧.eq a b) ↔ (a ≡ b) }
{}

/// A clone of a version is the same, and cloning never fails.
pub fn cloned_versions_are_the_same()
    ensures same { (a copy : Version) → ⟦<Version as Clone>⟧.is_clone a copy ↔ (copy ≡ a) }
    ensures never_fails { (a : Version) → ⟦<Version as Clone>⟧.is_infallible a }
{}

/// Two bags with one export hold the same.
pub fn exports_tell_bags_apart()
    ensures { ExportsTellBagsApart }
{}
