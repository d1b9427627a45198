//! Limits of a journal, and the texts of errors that are written by hand.
use s2ix_bag::Limits;
use s2ix_text::{DumpError, DumpFault, JournalError, JournalFault, read_journal};
use std::alloc::Global;
use std::fmt::Display;

// Four copies of a pair, and three changes.
const FOUR_COPIES: &[u8] = b"s2ix-journal 2\nchange 1\n04 8 0 4\nend 1\n";

const THREE_CHANGES: &[u8] =
    b"s2ix-journal 2\nchange 1\n04 8 0 1\nchange 1\n04 8 1 2\nchange 1\n04 8 2 3\nend 3\n";

// The program reads journals under the widest limits alone, so no other test meets narrower ones.
#[test]
fn a_journal_keeps_to_limits(rt: HostRuntime) {
    let limits = Limits::new(1, 3, 2).expect(&rt, "limits");
    let told = read_journal(rt.alloc(), FOUR_COPIES, limits).err();
    let (line, fault) = (3, JournalFault::TooManyCopies);
    assert!(rt; told == Some(JournalError::At { line, fault }));
    let told = read_journal(rt.alloc(), THREE_CHANGES, limits).err();
    let (line, fault) = (6, JournalFault::TooManyChanges);
    assert!(rt; told == Some(JournalError::At { line, fault }));
}

// Whether an error has a text.
fn has_text<E: Display>(alloc: Global, error: &E, wanted: &str) -> bool {
    match format!(in alloc; "{error}") {
        Ok(text) => text.as_str() == wanted,
        Err(_) => false,
    }
}

#[test]
fn errors_of_readers_have_texts(rt: HostRuntime) {
    let (line, fault) = (3, DumpFault::TooManyPairs);
    let dump = DumpError::At { line, fault };
    assert!(rt; has_text(rt.alloc(), &dump, "line 3: more pairs than the limit"));
    let (line, fault) = (12, JournalFault::NoDifference);
    let journal = JournalError::At { line, fault };
    let wanted = "line 12: the counts before and after are equal";
    assert!(rt; has_text(rt.alloc(), &journal, wanted));
}
