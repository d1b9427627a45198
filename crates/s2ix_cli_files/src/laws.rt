//! Laws: functions that do nothing; their contracts state facts about definitions.
ghost use Rattle.std.specs.Prelude.{◌≡◌, ◌↔◌, ℕ, IsTrue, None, Some, true, List, [], slice_get};
ghost use Rattle.s2ix_bag_pairs.specs.Collection.{Collection};
ghost use Rattle.s2ix_bag_pairs.specs.declared.limits.Limits.{Limits};
ghost use Rattle.s2ix_bag_pairs.specs.declared.pair.Entry.{Entry};
ghost use Rattle.s2ix_edit_plan.specs.declared.edit.Edit.{Edit};
ghost use Rattle.s2ix_edit_plan.specs.State.{State, history_of};
ghost use Rattle.s2ix_edit_store.specs.Steps.{after_edit, after_undo};
ghost use Rattle.s2ix_edit_store.specs.Store.{IsStore};
ghost use Rattle.s2ix_text_write.specs.Dump.{dump_text};
ghost use Rattle.s2ix_text_write.specs.Journal.{IsJournalText, journal_text};
ghost use Rattle.s2ix_text.specs.JournalFaults.{journal_fault};
ghost use Rattle.s2ix_text.specs.Journals.{IsJournal};
ghost use Rattle.s2ix_cli_files.specs.declared.refusal.Refusal.{Refusal};
ghost use Rattle.s2ix_cli_files.specs.declared.refusal.TextsError.{TextsError};
ghost use Rattle.s2ix_cli_files.specs.Answers.{CheckAnswers, DiffAnswers, LoadAnswers, ReplayAnswers, ResumeAnswers, RewindAnswers};
ghost use Rattle.s2ix_cli_files.specs.Laws.{BytesComeBack, ComesBack, DiffsLead, DoneLeadsBackToFirst, DoneLeadsFromFirst, HasOne};
ghost use Rattle.s2ix_cli_files.specs.Reads.{Resumes};
ghost use Rattle.s2ix_edit_store.specs.Given.{led_by};
ghost use Rattle.s2ix_cli_files.specs.Widest.{widest};

use crate::refusal::{Refusal, TextsError};

/// Each call has exactly one answer to the texts that it is given.
pub fn texts_have_one_answer()
    ensures load { (limits : Limits) (text : List ℕ) → HasOne (LoadAnswers limits text) }
    ensures check { (limits : Limits) (text : List ℕ) → HasOne (CheckAnswers limits text) }
    ensures replay { (limits : Limits) (dump journal : List ℕ) → HasOne (ReplayAnswers limits dump journal) }
    ensures rewind { (limits : Limits) (dump journal : List ℕ) → HasOne (RewindAnswers limits dump journal) }
    ensures resume { (limits : Limits) (dump journal : List ℕ) → HasOne (ResumeAnswers limits dump journal) }
    ensures diff { (limits : Limits) (first second : List ℕ) → HasOne (DiffAnswers limits first second) }
{}

/// If all of a dump and a journal is accepted, what was replayed and the same journal are rewound to the dump that is written of the same
/// collection: a dump of the second version comes back byte for byte, one of the first as that of the second.
pub fn rewind_takes_replayed_text_back()
    ensures collection { ComesBack ReplayAnswers RewindAnswers }
    ensures bytes { BytesComeBack ReplayAnswers RewindAnswers }
{}

/// If all of a dump and a journal is accepted, what was rewound and the same journal are replayed to the dump that is written of the same
/// collection, byte for byte if the dump is of the second version.
pub fn replay_takes_rewound_text_back()
    ensures collection { ComesBack RewindAnswers ReplayAnswers }
    ensures bytes { BytesComeBack RewindAnswers ReplayAnswers }
{}

/// The changes that a store has done lead from the first collection of its history to its bag.
pub fn done_leads_from_first()
    ensures { DoneLeadsFromFirst }
{}

/// They can be taken back from its bag, and lead to the first collection.
pub fn done_leads_back_to_first()
    ensures { DoneLeadsBackToFirst }
{}

/// What a store has done can be written and read back: its changes are those of a journal within its limits, what is written of them is
/// that journal, in which the limits find no fault, and no other list of changes has that text.
pub fn stores_have_journals()
    ensures changes { (s : State) → IsStore s → IsJournal s.bag.limits s.done }
    ensures text { (s : State) → IsStore s → IsJournalText (journal_text s.done) s.done }
    ensures accepted { (s : State) → IsStore s → journal_fault s.bag.limits (journal_text s.done) ≡ None }
    ensures one { (s : State) (changes : List (List Entry))
        → IsStore s
        → IsJournalText (journal_text s.done) changes
        → changes ≡ s.done }
{}

/// The dump of the first collection of a store's history and the journal of what it has done are replayed to the dump of its bag; the dump
/// of its bag and that journal are rewound to the first dump. Each is byte for byte, and read under the widest limits, as
/// [`replay_texts`](crate::replay_texts) and [`rewind_texts`](crate::rewind_texts) read them.
pub fn journals_lead_along_a_history()
    ensures replay { (s : State) (first : Collection)
        → IsStore s
        → slice_get (history_of s).collections 0 ≡ Some first
        → ReplayAnswers widest (dump_text first) (journal_text s.done) (record { text = dump_text s.bag.held; accepted = true }) }
    ensures rewind { (s : State) (first : Collection)
        → IsStore s
        → slice_get (history_of s).collections 0 ≡ Some first
        → RewindAnswers widest (dump_text s.bag.held) (journal_text s.done) (record { text = dump_text first; accepted = true }) }
{}

/// The dump and the journal of a store are the store again, but for what could be redone and how many faces its last step rebuilt: all is
/// accepted, and no other store goes on from these texts.
pub fn stores_go_on_from_their_texts()
    ensures accepted { (s : State)
        → IsStore s
        → ResumeAnswers s.bag.limits (dump_text s.bag.held) (journal_text s.done) (record { text = []; accepted = true }) }
    ensures store { (s : State)
        → IsStore s
        → Resumes s.bag.limits (dump_text s.bag.held) (journal_text s.done) (led_by s.bag s.done) }
    ensures one { (s other : State)
        → IsStore s
        → Resumes s.bag.limits (dump_text s.bag.held) (journal_text s.done) other
        → other ≡ led_by s.bag s.done }
{}

/// What two dumps differ by leads from the first to the second: replayed over the first, the journal of the change gives the dump of what
/// the second holds, and rewound from the second that of what the first holds.
pub fn diffs_lead_from_dump_to_dump()
    ensures { DiffsLead }
{}

/// An edit and then an undo restore the dump too, byte for byte.
pub fn undo_restores_the_dump()
    ensures { (s : State) (edit : Edit)
        → IsStore s
        → dump_text (after_undo (after_edit s edit)).bag.held ≡ dump_text s.bag.held }
{}

/// Two refusals of texts are equal exactly if they are the same.
pub fn equal_refusals_are_one()
    ensures { (a b : Refusal) → IsTrue (⟦<Refusal as PartialEq>⟧.eq a b) ↔ (a ≡ b) }
{}

/// A clone of a refusal is the same, and cloning never fails.
pub fn cloned_refusals_are_the_same()
    ensures same { (a copy : Refusal) → ⟦<Refusal as Clone>⟧.is_clone a copy ↔ (copy ≡ a) }
    ensures never_fails { (a : Refusal) → ⟦<Refusal as Clone>⟧.is_infallible a }
{}

/// Two errors of texts are equal exactly if they are the same.
pub fn equal_texts_errors_are_one()
    ensures { (a b : TextsError) → IsTrue (⟦<TextsError as PartialEq>⟧.eq a b) ↔ (a ≡ b) }
{}

/// A clone of an error of texts is the same, and cloning never fails.
pub fn cloned_texts_errors_are_the_same()
    ensures same { (a copy : TextsError) → ⟦<TextsError as Clone>⟧.is_clone a copy ↔ (copy ≡ a) }
    ensures never_fails { (a : TextsError) → ⟦<TextsError as Clone>⟧.is_infallible a }
{}
