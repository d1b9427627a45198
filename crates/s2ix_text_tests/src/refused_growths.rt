//! Readers whose growths are counted, as `tests/hostile` counts them: a text of nine pairs asks for as many as one of a pair.
use s2ix_bag::Limits;
use s2ix_text::{read_dump, read_journal};

const DUMP: &[u8] = b"s2ix 2\n1 1 1\nend 1 1\n";

const DUMP_OF_NINE: &[u8] =
    b"s2ix 2\n1 1 1\n1 2 1\n1 3 1\n1 4 1\n1 5 1\n1 6 1\n1 7 1\n1 8 1\n1 9 1\nend 9 9\n";

const JOURNAL: &[u8] = b"s2ix-journal 2\nchange 1\n1 1 0 1\nend 1\n";

const JOURNAL_OF_NINE: &[u8] =
    b"s2ix-journal 2\nchange 9\n1 1 0 1\n1 2 0 1\n1 3 0 1\n1 4 0 1\n1 5 0 1\n1 6 0 1\n1 7 0 1\n1 8 0 1\n1 9 0 1\nend 1\n";

#[test]
fn a_dump_of_a_pair(rt: HostRuntime) {
    let bag = read_dump(rt.alloc(), DUMP, Limits::default()).expect(&rt, "a dump");
    assert!(rt; bag.len() == 1);
}

#[test]
fn a_dump_of_nine_pairs(rt: HostRuntime) {
    let bag = read_dump(rt.alloc(), DUMP_OF_NINE, Limits::default()).expect(&rt, "a dump");
    assert!(rt; bag.len() == 9);
}

#[test]
fn a_change_of_a_pair(rt: HostRuntime) {
    let changes = read_journal(rt.alloc(), JOURNAL, Limits::default()).expect(&rt, "a journal");
    assert!(rt; changes.len() == 1);
}

#[test]
fn a_change_of_nine_pairs(rt: HostRuntime) {
    let changes = read_journal(rt.alloc(), JOURNAL_OF_NINE, Limits::default()).expect(
        &rt,
        "a journal",
    );
    assert!(rt; changes.len() == 1);
}
