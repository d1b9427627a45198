//! The bags to which a dump and a journal lead.

ghost use Rattle.std.specs.Prelude.{◌≡◌, None, Err, IfOk, IfErr, OnOk};
ghost use Rattle.s2ix_bag.specs.declared.replay_error.ReplayError.TheVariants.{OutOfMemory};
ghost use Rattle.s2ix_bag.specs.Replay.{IsReplayError};
ghost use Rattle.s2ix_c_calls.specs.Replaying.{IsLedError, IsOfTexts, LeadTo, first_refusal_by, led_by, refusal_by, refused_by};

use crate::status::{
    JOURNAL_FULL, MISMATCH, NO_CHANGE, NO_DUMP, NO_JOURNAL, OUT_OF_MEMORY, TOO_MANY_COPIES,
    TOO_MANY_PAIRS,
};
use s2ix_bag::{ReplayError, replay, rewind};
use s2ix_bag_changes::{Bag, Change};
use s2ix_bag_pairs::Limits;
use s2ix_edit::HistoryError;
use s2ix_text::{DumpError, JournalError, read_dump, read_journal};
use std::alloc::Global;

/// Which way a journal's changes lead from a dump's collection.
#[derive(Clone, Copy)]
pub enum Direction {
    /// They are done to it, the first of them first.
    Forward,
    /// They are taken back from it, the last of them first.
    Back,
}

/// Why texts lead to no bag, or to no store: the first of these that is due.
#[derive(Drop)]
pub enum LedError {
    /// The dump is not read.
    Dump(DumpError),
    /// The journal is not read.
    Journal(JournalError),
    /// A change is refused.
    Replay(ReplayError),
    /// The changes are refused as those of a store.
    History(HistoryError),
}

impl From<DumpError> for LedError {
    ghost use Rattle.s2ix_c_calls.specs.declared.replaying.LedError.TheVariants.{Dump};

    ghost from_gives = { λ error made. made ≡ Dump error };

    fn from(error: DumpError) -> LedError {
        LedError::Dump(error)
    }
}

impl From<JournalError> for LedError {
    ghost use Rattle.s2ix_c_calls.specs.declared.replaying.LedError.TheVariants.{Journal};

    ghost from_gives = { λ error made. made ≡ Journal error };

    fn from(error: JournalError) -> LedError {
        LedError::Journal(error)
    }
}

impl From<ReplayError> for LedError {
    ghost use Rattle.s2ix_c_calls.specs.declared.replaying.LedError.TheVariants.{Replay};

    ghost from_gives = { λ error made. made ≡ Replay error };

    fn from(error: ReplayError) -> LedError {
        LedError::Replay(error)
    }
}

impl From<HistoryError> for LedError {
    ghost use Rattle.s2ix_c_calls.specs.declared.replaying.LedError.TheVariants.{History};

    ghost from_gives = { λ error made. made ≡ History error };

    fn from(error: HistoryError) -> LedError {
        LedError::History(error)
    }
}

/// What a caller is told of texts that are refused.
#[derive(Clone, Copy)]
pub struct Refused {
    /// The status.
    pub status: u32,
    /// The line or the change that is refused, counted from 1; 0 if memory was wanted.
    pub place: usize,
    /// The entry of that change whose count is not the one that is held, counted from 1; else 0.
    pub entry: usize,
}

/// What an error tells: its status, and the line, or the change and the entry, that it is about.
pub fn refused_of(error: LedError) -> Refused
    ensures refused { result ≡ refused_by error }
    ensures status { IsOfTexts result.status }
{
    let (status, place, entry) = match error {
        LedError::Dump(DumpError::At { line, .. }) => (NO_DUMP, line, 0),
        LedError::Journal(JournalError::At { line, .. }) => (NO_JOURNAL, line, 0),
        LedError::Replay(ReplayError::Mismatch { change, entry }) => (MISMATCH, change, entry),
        LedError::Replay(ReplayError::TooManyCopies { change }) => (TOO_MANY_COPIES, change, 0),
        LedError::Replay(ReplayError::TooManyPairs { change }) => (TOO_MANY_PAIRS, change, 0),
        LedError::History(HistoryError::JournalFull) => (JOURNAL_FULL, 0, 0),
        LedError::History(HistoryError::NoChange { change }) => (NO_CHANGE, change, 0),
        LedError::History(HistoryError::Mismatch { change, entry }) => (MISMATCH, change, entry),
        LedError::History(HistoryError::TooManyCopies { change }) => (TOO_MANY_COPIES, change, 0),
        LedError::History(HistoryError::TooManyPairs { change }) => (TOO_MANY_PAIRS, change, 0),
        LedError::Dump(DumpError::OutOfMemory)
        | LedError::Journal(JournalError::OutOfMemory)
        | LedError::Replay(ReplayError::OutOfMemory)
        | LedError::History(HistoryError::OutOfMemory) => (OUT_OF_MEMORY, 0, 0),
    };
    Refused {
        status,
        place,
        entry,
    }
}

// The bag to which changes lead.
fn led(
    alloc: Global,
    direction: Direction,
    bag: &Bag,
    changes: &[Change],
) -> Result<Bag, ReplayError>
    ensures bag { IfOk result (λ reached. reached ≡ led_by direction bag.now changes.now) }
    ensures accepted { OnOk result (refusal_by direction bag.now changes.now ≡ None) }
    ensures refused { IfErr result (λ error. IsReplayError error (refusal_by direction bag.now changes.now)) }
    ensures memory { result ≡ Err OutOfMemory → first_refusal_by direction bag.now changes.now ≡ None }
{
    match direction {
        Direction::Forward => replay(alloc, bag, changes),
        Direction::Back => rewind(alloc, bag, changes),
    }
}

/// The bag to which a journal's changes lead from a dump's collection, or what is refused first in the two texts. The dump is read first,
/// then the journal, and then the changes are made.
pub fn texts_led(
    alloc: Global,
    direction: Direction,
    dump: &[u8],
    journal: &[u8],
    limits: Limits,
) -> Result<Bag, LedError>
    ensures bag { IfOk result (LeadTo direction limits dump.now journal.now) }
    ensures refused { IfErr result (IsLedError direction limits dump.now journal.now) }
{
    let bag = read_dump(alloc, dump, limits)?;
    let changes = read_journal(alloc, journal, limits)?;
    Ok(led(alloc, direction, &bag, changes.as_slice())?)
}
