//! The numbers that calls answer with. `include/s2ix.h` names them.

ghost use Rattle.std.specs.Prelude.{◌≡◌};
ghost use Rattle.s2ix_c_calls.specs.Status.{edit_status};
ghost use Rattle.s2ix_c_calls.specs.Texts.{status_text};

use s2ix_edit_plan::EditError;

/// The call is carried out.
pub const DONE: u32 = 0;
/// The handle is closed.
pub const CLOSED: u32 = 1;
/// Memory was refused.
pub const OUT_OF_MEMORY: u32 = 2;
/// A number is no cell's, or no leaf's in a call that takes a leaf.
pub const NO_CELL: u32 = 3;
/// A number is no label's.
pub const NO_LABEL: u32 = 4;
/// Limits are out of their ranges.
pub const NO_LIMITS: u32 = 5;
/// No change can be undone.
pub const NOTHING_TO_UNDO: u32 = 6;
/// No change can be redone.
pub const NOTHING_TO_REDO: u32 = 7;

/// The caller's buffer is too short.
pub const NO_ROOM: u32 = 8;

/// A text is no dump.
pub const NO_DUMP: u32 = 9;

/// The changes to undo are as many as the limit allows.
pub const JOURNAL_FULL: u32 = 16;
/// Fewer copies are held than are to be removed.
pub const NOT_HELD: u32 = 18;
/// A level is too fine.
pub const TOO_FINE: u32 = 19;
/// No change has the number.
pub const NO_SUCH_CHANGE: u32 = 20;
/// Nothing would change.
pub const NO_CHANGE: u32 = 22;
/// A count would pass the limit.
pub const TOO_MANY_COPIES: u32 = 23;
/// The number of pairs would pass the limit.
pub const TOO_MANY_PAIRS: u32 = 24;
/// A level is coarser than the cell's.
pub const COARSER: u32 = 25;
/// The bounds are no span of leaves, or of a list.
pub const NO_SPAN: u32 = 26;
/// No range is at a place, or none that has a pair over it.
pub const NO_RANGE: u32 = 27;
/// A text is no journal.
pub const NO_JOURNAL: u32 = 28;
/// A change has another count than is held.
pub const MISMATCH: u32 = 29;
/// Fewer changes can be undone than are to be joined.
pub const TOO_FEW_CHANGES: u32 = 30;
/// An entry of a list is not above the one before it.
pub const UNSORTED: u32 = 31;
/// The two counts of an entry of a list are equal.
pub const NO_DIFFERENCE: u32 = 32;

/// The status of a refused edit.
pub fn status_of(error: EditError) -> u32
    ensures { result ≡ edit_status error }
{
    match error {
        EditError::JournalFull => JOURNAL_FULL,
        EditError::NoSuchLabel => 17,
        EditError::NotHeld => NOT_HELD,
        EditError::TooFine => TOO_FINE,
        EditError::NoSuchChange => NO_SUCH_CHANGE,
        EditError::BelowZero => 21,
        EditError::NoChange => NO_CHANGE,
        EditError::TooManyCopies => TOO_MANY_COPIES,
        EditError::TooManyPairs => TOO_MANY_PAIRS,
        EditError::OutOfMemory => OUT_OF_MEMORY,
    }
}

/// What a status says, in words.
pub fn text_of(status: u32) -> &'static str
    ensures { result.now ≡ status_text status }
{
    match status {
        0 => "done",
        1 => "the handle is closed",
        2 => "out of memory",
        3 => "a number is no cell's, or no leaf's",
        4 => "a number is no label's",
        5 => "limits are out of their ranges",
        6 => "nothing to undo",
        7 => "nothing to redo",
        8 => "the buffer is too short",
        9 => "the text is no dump",
        16 => "the journal is full",
        17 => "no pair of the label is held",
        18 => "too few copies are held",
        19 => "the level is too fine",
        20 => "no change has the number",
        21 => "a count would be below 0",
        22 => "nothing would change",
        23 => "a count would pass the limit",
        24 => "the number of pairs would pass the limit",
        25 => "the level is coarser than the cell's",
        26 => "the bounds are no span",
        27 => "no range is at the place",
        28 => "the text is no journal",
        29 => "a change has another count than is held",
        30 => "fewer changes can be undone",
        31 => "an entry is not above the one before it",
        32 => "an entry has two equal counts",
        _ => "no status",
    }
}
