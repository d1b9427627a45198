//! Inputs that are read whole, and dumps and journals that are read.
use s2id_samples::{TOLD, answer, tell};
use s2ix_bag::Limits;
use s2ix_bag_samples::{holds_pairs, lists_entries};
use s2ix_text::{DumpError, DumpFault, SliceSource, read_dump, read_journal, read_whole};
use std::alloc::Global;
use std::process::Abort;

// Two pairs added, and the second taken to the first's label.
const JOURNAL: &[u8] =
    b"s2ix-journal 1\nchange 1\n04 9 0 2\nchange 1\n04 3 0 1\nchange 2\n04 3 1 3\n04 9 2 0\nend 3\n";

#[test]
fn refused_readings(rt: HostRuntime) {
    let text = answer!(
        &rt,
        read_whole(rt.alloc(), &mut SliceSource::new(JOURNAL, 9, 0), 100)
    );
    assert!(rt; text.as_slice() == JOURNAL);
}

#[test]
fn refused_dumps(rt: HostRuntime) {
    let dump = b"s2ix 1\n04 3 3\nend 1 3\n";
    let bag = answer!(&rt, read_dump(rt.alloc(), dump, Limits::default()));
    assert!(rt; holds_pairs(&bag, "04:3:3"));
}

#[test]
fn refused_journals(rt: HostRuntime) {
    let changes = answer!(&rt, read_journal(rt.alloc(), JOURNAL, Limits::default()));
    let last = changes.last().expect(&rt, "a change");
    assert!(rt; changes.len() == 3 && lists_entries(last, "04:3:1:3 04:9:2:0"));
}

// Texts that are no dump, with the line of the first fault.
const FAULTY: [(&[u8], usize, DumpFault); 5] = [
    (b"s2ix 1\n04 9 1\n", 3, DumpFault::Truncated),
    (b"s2ix 1\n1 7 1\n04 9 1\nend 2 2\n", 3, DumpFault::Unsorted),
    (b"s2ix 1\nend 0 0\nx\n", 3, DumpFault::TrailingBytes),
    (b"s2ix 1\n040 9 1\nend 1 1\n", 2, DumpFault::BadToken),
    (b"", 1, DumpFault::Truncated),
];

fn check_fault(rt: &(impl Abort + Print), alloc: Global, text: &[u8], wanted: DumpError) {
    let mut told = read_dump(alloc, text, Limits::default()).err();
    if let Some(error) = &told {
        if *error != wanted {
            tell(rt, error).expect(rt, TOLD);
            told = read_dump(alloc, text, Limits::default()).err();
        }
    }
    assert!(rt; told == Some(wanted));
}

#[test]
fn refused_faulty_dumps(rt: HostRuntime) {
    for &(text, line, fault) in &FAULTY {
        check_fault(&rt, rt.alloc(), text, DumpError::At { line, fault });
    }
}
