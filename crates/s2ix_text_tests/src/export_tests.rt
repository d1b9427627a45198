//! A bag as one line of JSON.
use s2ix_bag::Limits;
use s2ix_text::{export, read_dump};

// The pairs rise by cell, and not as texts; the last has the greatest label and the greatest count.
const DUMP: &[u8] = b"s2ix 2\n04 9 1\n1 7 10\n1 2147483647 4294967295\nend 3 4294967306\n";

const EXPORTED: &str =
    "{\"pairs\":[[\"04\",9,1],[\"1\",7,10],[\"1\",2147483647,4294967295]],\"version\":1}";

#[test]
fn an_export_holds_the_pairs_in_rising_order(rt: HostRuntime) {
    let bag = read_dump(rt.alloc(), DUMP, Limits::default()).expect(&rt, "a dump");
    let text = export(rt.alloc(), &bag).expect(&rt, "memory");
    assert!(rt; text.as_str() == EXPORTED);
}
