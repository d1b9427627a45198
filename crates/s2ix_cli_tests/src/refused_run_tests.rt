//! Runs of scripts, which stop at the line that memory is refused for.
use s2id_samples::{SET_UP, TOLD, tell};
use s2ix_bag::Limits;
use s2ix_cli::{RunEnd, RunOptions, run};
use s2ix_edit::Store;
use s2ix_text::{KeepingSink, RunFault, SliceSource};
use std::alloc::Global;
use std::process::Abort;

// A line of a script, and the answer to it.
type Line = (&'static [u8], &'static [u8]);

const SCRIPTS: [&[Line]; 9] = [
    &[
        (b"add 04 9 2\n", b"ok 1\n"),
        (b"add 04 3\n", b"ok 1\n"),
        (b"relabel 9 3\n", b"ok 2\n"),
        (b"dump\n", b"s2ix 2\n04 3 3\nend 1 3\n"),
        (b"undo\n", b"ok 2\n"),
        (b"dump\n", b"s2ix 2\n04 3 1\n04 9 2\nend 2 3\n"),
    ],
    &[
        (b"add 04 1\n", b"ok 1\n"),
        (b"add 0c 1\n", b"ok 1\n"),
        (b"add 14 1 5\n", b"ok 1\n"),
        (b"add 1c 1\n", b"ok 1\n"),
        (b"normal 1\n", b"ok 5\n"),
        (b"dump\n", b"s2ix 2\n1 1 1\nend 1 1\n"),
        (b"undo\n", b"ok 5\n"),
        (
            b"dump\n",
            b"s2ix 2\n04 1 1\n0c 1 1\n14 1 5\n1c 1 1\nend 4 8\n",
        ),
    ],
    &[
        (b"add 1 4\n", b"ok 1\n"),
        (b"grow 4 0\n", b"ok 4\n"),
        (b"grow 4 0\n", b"ok 1\n"),
        (b"grow 4 0\n", b"no NoChange\n"),
        (b"region 4\n", b"1\n3\n5\n7\n9\nb\nend 6\n"),
        (b"labels 7\n", b"4\nend 1\n"),
    ],
    &[
        (b"add 04 9 2\n", b"ok 1\n"),
        (b"add 04 3\n", b"ok 1\n"),
        (b"relabel 9 3\n", b"ok 2\n"),
        (
            b"journal\n",
            b"s2ix-journal 2\nchange 1\n04 9 0 2\nchange 1\n04 3 0 1\nchange 2\n04 3 1 3\n04 9 2 0\nend 3\n",
        ),
        (b"undo\n", b"ok 2\n"),
        (b"redo\n", b"ok 2\n"),
        (b"forget\n", b"ok 0\n"),
        (b"undo\n", b"no NothingToUndo\n"),
        (b"journal\n", b"s2ix-journal 2\nend 0\n"),
    ],
    &[
        (b"add 1 1\n", b"ok 1\n"),
        (b"add 04 2\n", b"ok 1\n"),
        (b"common 1 2\n", b"04\nend 1\n"),
        (b"only 1 2\n", b"0c\n14\n1c\nend 3\n"),
        (b"region 3\n", b"end 0\n"),
    ],
    &[
        (b"addunion 6 1c 14 0c 04\n", b"ok 1\n"),
        (b"dump\n", b"s2ix 2\n1 6 1\nend 1 1\n"),
        (b"drop 6\n", b"ok 1\n"),
        (b"drop 6\n", b"no NoSuchLabel\n"),
    ],
    &[
        (b"path 1\n", b"0/\n"),
        (b"path 1d\n", b"0/32\n"),
        (b"face 1d\n", b"0 2 0 2 3\n"),
        (b"export\n", b"{\"pairs\":[],\"version\":1}\n"),
        (b"add 04 9\n", b"ok 1\n"),
        (b"export\n", b"{\"pairs\":[[\"04\",9,1]],\"version\":1}\n"),
    ],
    &[
        (b"add 04 9 2\n", b"ok 1\n"),
        (b"add 04 3\n", b"ok 1\n"),
        (b"relabel 9 3\n", b"ok 2\n"),
        (b"revert 1\n", b"no BelowZero\n"),
        (b"revert 3\n", b"ok 2\n"),
        (b"revert 1\n", b"ok 1\n"),
        (b"export\n", b"{\"pairs\":[[\"04\",3,1]],\"version\":1}\n"),
        (b"revert 3\n", b"no BelowZero\n"),
        (b"undo\n", b"ok 1\n"),
        (b"revert 5\n", b"no NoSuchChange\n"),
        (b"revert 0\n", b"no BadNumber\n"),
    ],
    &[
        (b"add 04 9 2\n", b"ok 1\n"),
        (b"add 04 9 3\n", b"ok 1\n"),
        (b"revert 1\n", b"ok 1\n"),
        (b"export\n", b"{\"pairs\":[[\"04\",9,3]],\"version\":1}\n"),
        (b"undo\n", b"ok 1\n"),
        (b"export\n", b"{\"pairs\":[[\"04\",9,5]],\"version\":1}\n"),
        (b"redo\n", b"ok 1\n"),
    ],
];

fn started(rt: &impl Abort, alloc: Global) -> Store {
    Store::new(alloc, Limits::default()).expect(rt, SET_UP)
}

// The text of some lines.
fn text_of(rt: &impl Abort, alloc: Global, lines: &[Line]) -> Vec<u8> {
    let mut text = Vec::new(alloc);
    for (line, _) in lines {
        text.extend_from_slice(line).expect(rt, SET_UP);
    }
    text
}

// Runs a text over a store. Says how the run ended, and where it wrote to.
fn ran(alloc: Global, store: &mut Store, text: &[u8]) -> (Result<RunEnd, RunFault>, KeepingSink) {
    let mut source = SliceSource::new(text, 16, 0);
    let mut sink = KeepingSink::new(alloc, 100, 0, false);
    let options = RunOptions {
        stop: false,
        turns: 100,
    };
    let end = run(alloc, &mut source, &mut sink, store, options);
    (end, sink)
}

// How many of some lines a text begins with the answers to, and what is after them.
fn answered_front<'a>(text: &'a [u8], lines: &[Line]) -> (usize, &'a [u8]) {
    let (mut count, mut rest) = (0usize, text);
    for (_, answer) in lines {
        let Some(after) = rest.strip_prefix(answer) else {
            return (count, rest);
        };
        count = count.wrapping_add(1);
        rest = after;
    }
    (count, rest)
}

// Whether a run carried out all of some lines, and wrote exactly their answers.
fn is_whole(end: Result<RunEnd, RunFault>, kept: &[u8], lines: &[Line]) -> bool {
    let is_end = matches!(end, Ok(end) if u64::try_from(lines.len()) == Ok(end.lines));
    let (count, rest) = answered_front(kept, lines);
    is_end && count == lines.len() && rest.is_empty()
}

// How many lines a run carried out that gave up with a fault, by what it wrote: their answers, of which a sink without room has a prefix of
// the last.
fn carried(rt: &impl Abort, fault: RunFault, kept: &[u8], lines: &[Line]) -> usize {
    let (count, rest) = answered_front(kept, lines);
    if fault == RunFault::OutOfMemory {
        assert!(rt; rest.is_empty() && count < lines.len());
        return count;
    }
    let (_, answer) = lines.get(count).expect(rt, "an answer that was cut");
    assert!(rt; fault == RunFault::Write && answer.starts_with(rest));
    count.wrapping_add(1)
}

// Looks that a store is the one that some lines lead to.
fn check_store(rt: &impl Abort, alloc: Global, store: &Store, lines: &[Line]) {
    let text = text_of(rt, alloc, lines);
    let mut model = started(rt, alloc);
    let (end, sink) = ran(alloc, &mut model, &text);
    assert!(rt; is_whole(end, sink.kept(), lines));
    let are_same = [
        store.bag() == model.bag(),
        store.done() == model.done(),
        store.undone() == model.undone(),
        store.faces_rebuilt() == model.faces_rebuilt(),
    ];
    assert!(rt; are_same == [true; 4], "{are_same:?}");
}

// Runs the rest of a script over a store.
fn check_rest(rt: &impl Abort, alloc: Global, store: &mut Store, lines: &[Line]) {
    let text = text_of(rt, alloc, lines);
    let (end, sink) = ran(alloc, store, &text);
    assert!(rt; is_whole(end, sink.kept(), lines));
}

// Runs a script; if the run gives up, its store is that of the lines that it carried out, and the rest is carried out over it.
fn check_run(rt: &(impl Abort + Print), alloc: Global, script: &[Line]) {
    let text = text_of(rt, alloc, script);
    let mut store = started(rt, alloc);
    let (end, sink) = ran(alloc, &mut store, &text);
    let Err(fault) = end else {
        assert!(rt; is_whole(end, sink.kept(), script));
        return;
    };
    tell(rt, &fault).expect(rt, TOLD);
    let count = carried(rt, fault, sink.kept(), script);
    let (lines, rest) = script.split_at_checked(count).expect(rt, "so many lines");
    check_store(rt, alloc, &store, lines);
    check_rest(rt, alloc, &mut store, rest);
}

#[test]
fn refused_runs(rt: HostRuntime) {
    for script in SCRIPTS {
        check_run(&rt, rt.alloc(), script);
    }
}
