//! The calls over whole texts.
use s2id_samples::{TOLD, tell};
use s2ix_bag::Limits;
use s2ix_cli::{check_text, diff_texts, load_text, replay_texts, resume_texts, rewind_texts};
use s2ix_edit::Store;
use s2ix_text::{KeepingSink, RunFault};
use std::alloc::Global;
use std::process::Abort;

const EMPTY: &[u8] = b"s2ix 1\nend 0 0\n";

const DUMP: &[u8] = b"s2ix 1\n04 3 3\nend 1 3\n";

// Two pairs added, and the second taken to the first's label.
const JOURNAL: &[u8] =
    b"s2ix-journal 1\nchange 1\n04 9 0 2\nchange 1\n04 3 0 1\nchange 2\n04 3 1 3\n04 9 2 0\nend 3\n";

// The same in the second version, in which dumps are written.
const EMPTY_SECOND: &[u8] = b"s2ix 2\nend 0 0\n";

const DUMP_SECOND: &[u8] = b"s2ix 2\n04 3 3\nend 1 3\n";

const JOURNAL_SECOND: &[u8] =
    b"s2ix-journal 2\nchange 1\n04 9 0 2\nchange 1\n04 3 0 1\nchange 2\n04 3 1 3\n04 9 2 0\nend 3\n";

// Texts that are no dump, with what is told of them.
const FAULTY: [(&[u8], &[u8]); 5] = [
    (b"s2ix 1\n04 9 1\n", b"no Truncated 3\n"),
    (b"s2ix 1\n1 7 1\n04 9 1\nend 2 2\n", b"no Unsorted 3\n"),
    (b"s2ix 1\nend 0 0\nx\n", b"no TrailingBytes 3\n"),
    (b"s2ix 1\n040 9 1\nend 1 1\n", b"no BadToken 2\n"),
    (b"", b"no Truncated 1\n"),
];

// A call over whole texts.
#[derive(Clone, Copy)]
enum Call {
    Load(&'static [u8]),
    Resume(&'static [u8], &'static [u8]),
    Check(&'static [u8]),
    Replay(&'static [u8], &'static [u8]),
    Rewind(&'static [u8], &'static [u8]),
    Diff(&'static [u8], &'static [u8]),
}

// How many changes can be undone in a store, or `None` if there is none.
fn changes_done(store: Option<Store>) -> Option<usize> {
    Some(store?.done().len())
}

// Whether there is a store.
fn is_there(store: Option<Store>) -> bool {
    store.is_some()
}

// What a call answers, and where it wrote to.
fn called(alloc: Global, call: Call) -> (Result<bool, RunFault>, KeepingSink) {
    let mut sink = KeepingSink::new(alloc, 100, 0, false);
    let answer = match call {
        Call::Load(dump) => match load_text(alloc, dump, Limits::default(), &mut sink) {
            Ok(store) => Ok(is_there(store)),
            Err(fault) => Err(fault),
        },
        Call::Resume(dump, journal) => {
            match resume_texts(alloc, dump, journal, Limits::default(), &mut sink) {
                Ok(store) => Ok(changes_done(store) == Some(3)),
                Err(fault) => Err(fault),
            }
        }
        Call::Check(dump) => check_text(alloc, dump, &mut sink),
        Call::Replay(dump, journal) => replay_texts(alloc, dump, journal, &mut sink),
        Call::Rewind(dump, journal) => rewind_texts(alloc, dump, journal, &mut sink),
        Call::Diff(first, second) => diff_texts(alloc, first, second, &mut sink),
    };
    (answer, sink)
}

// Looks at what a call that gave up had written: nothing, or if its sink had no room for all, a front.
fn check_given_up(rt: &impl Abort, fault: RunFault, sink: &KeepingSink, wanted: &[u8]) {
    let is_front = sink.kept().len() < wanted.len() && wanted.starts_with(sink.kept());
    let has_no_room = fault == RunFault::Write && is_front;
    assert!(rt; sink.flushed_len() == 0 && (has_no_room || sink.kept().is_empty()));
}

// Makes a call, twice if the first gave up: before it wrote, or because its sink had no room for all.
fn check_call(
    rt: &(impl Abort + Print),
    alloc: Global,
    call: Call,
    is_accepted: bool,
    wanted: &[u8],
) {
    let (mut answer, mut sink) = called(alloc, call);
    if let Err(fault) = answer {
        tell(rt, &fault).expect(rt, TOLD);
        check_given_up(rt, fault, &sink, wanted);
        (answer, sink) = called(alloc, call);
    }
    assert!(rt; answer == Ok(is_accepted));
    assert!(rt; sink.kept() == wanted && sink.flushed_len() == wanted.len());
}

#[test]
fn refused_texts(rt: HostRuntime) {
    check_call(&rt, rt.alloc(), Call::Load(DUMP), true, b"");
    check_call(&rt, rt.alloc(), Call::Check(DUMP), true, b"ok 1 3\n");
    let (replayed, rewound) = (Call::Replay(EMPTY, JOURNAL), Call::Rewind(DUMP, JOURNAL));
    check_call(&rt, rt.alloc(), replayed, true, DUMP_SECOND);
    check_call(&rt, rt.alloc(), rewound, true, EMPTY_SECOND);
}

#[test]
fn refused_histories(rt: HostRuntime) {
    check_call(&rt, rt.alloc(), Call::Resume(DUMP, JOURNAL), true, b"");
    let resumed = Call::Resume(DUMP_SECOND, JOURNAL_SECOND);
    check_call(&rt, rt.alloc(), resumed, true, b"");
    let (other, faulty) = (Call::Resume(EMPTY, JOURNAL), Call::Resume(DUMP, EMPTY));
    check_call(&rt, rt.alloc(), other, false, b"no Mismatch 3 1\n");
    check_call(&rt, rt.alloc(), faulty, false, b"no journal BadHeader 1\n");
}

// Two dumps, with the journal of the change from the first to the second.
const DIFFS: [(&[u8], &[u8], &[u8]); 4] = [
    (EMPTY, EMPTY_SECOND, b"s2ix-journal 2\nend 0\n"),
    (DUMP, DUMP_SECOND, b"s2ix-journal 2\nend 0\n"),
    (
        EMPTY,
        DUMP_SECOND,
        b"s2ix-journal 2\nchange 1\n04 3 0 3\nend 1\n",
    ),
    (
        DUMP,
        b"s2ix 2\n04 3 1\n1 7 2\nend 2 3\n",
        b"s2ix-journal 2\nchange 2\n04 3 3 1\n1 7 0 2\nend 1\n",
    ),
];

#[test]
fn refused_diffs(rt: HostRuntime) {
    for &(first, second, journal) in &DIFFS {
        let compared = Call::Diff(first, second);
        check_call(&rt, rt.alloc(), compared, true, journal);
        check_call(&rt, rt.alloc(), Call::Replay(first, journal), true, second);
    }
    let (first, second) = (Call::Diff(JOURNAL, JOURNAL), Call::Diff(DUMP, JOURNAL));
    check_call(&rt, rt.alloc(), first, false, b"no BadHeader 1\n");
    check_call(&rt, rt.alloc(), second, false, b"no second BadHeader 1\n");
}

// A dump and a journal of either version, with what is written of them.
const VERSIONS: [(&[u8], &[u8], &[u8]); 2] = [
    (EMPTY_SECOND, JOURNAL_SECOND, DUMP_SECOND),
    (
        b"s2ix 1\n04 9 1\nend 1 1\n",
        b"s2ix-journal 1\nend 0\n",
        b"s2ix 2\n04 9 1\nend 1 1\n",
    ),
];

#[test]
fn refused_texts_of_both_versions(rt: HostRuntime) {
    for &(dump, journal, written) in &VERSIONS {
        let replayed = Call::Replay(dump, journal);
        check_call(&rt, rt.alloc(), replayed, true, written);
    }
    let (dump, journal, written) = VERSIONS[1];
    let rewound = Call::Rewind(dump, journal);
    check_call(&rt, rt.alloc(), rewound, true, written);
    check_call(&rt, rt.alloc(), Call::Check(dump), true, b"ok 1 1\n");
}

#[test]
fn refused_faulty_texts(rt: HostRuntime) {
    for &(text, told) in &FAULTY {
        check_call(&rt, rt.alloc(), Call::Check(text), false, told);
        check_call(&rt, rt.alloc(), Call::Load(text), false, told);
    }
    let (other, faulty) = (Call::Replay(DUMP, JOURNAL), Call::Rewind(DUMP, EMPTY));
    check_call(&rt, rt.alloc(), other, false, b"no Mismatch 2 1\n");
    check_call(&rt, rt.alloc(), faulty, false, b"no journal BadHeader 1\n");
    let first = Call::Replay(EMPTY_SECOND, b"s2ix-journal 2\nchange 1\n04 9 1 2\nend 1\n");
    check_call(&rt, rt.alloc(), first, false, b"no Mismatch 1 1\n");
}
