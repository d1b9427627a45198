//! Each piece is answered, and the answers are flushed, before another one is asked for: a reader sees at each of its calls how much a
//! writer has flushed. No contract says so, since none orders what is done to a source and what is done to a sink.
use s2ix_bag::Limits;
use s2ix_cli::{RunOptions, run};
use s2ix_edit::Store;
use s2ix_text::{FromRead, RunFault, ToWrite};
use std::alloc::Global;
use std::cell::Cell;
use std::io::{self, Read, Write};

// The pieces of a script, each with the number of bytes that are flushed when it is asked for.
const PIECES: [(&[u8], usize); 6] = [
    (b"add 04 9\n", 0),
    (b"add 1c 2\n# ", 5),
    (b"\nadd 04 9\nbad\nadd 1c 2\nad", 10),
    (b"d 04 9\ndu", 34),
    (b"mp", 39),
    (b"", 39),
];

// How many bytes are written in all: the last line asks for a dump of two pairs.
const WHOLE: usize = 68;

// A reader that gives a piece a call, and looks at each call at how many bytes are flushed.
#[derive(Drop)]
struct Watching<'a> {
    pieces: &'a [(&'a [u8], usize)],
    given: usize,
    flushed: &'a Cell<usize>,
    // how many bytes were flushed at the first call at which they were others than they should be
    first_other: Option<usize>,
}

impl Read for Watching<'_> {
    fn read(&mut self, buf: &mut [u8]) -> io::Result<usize> {
        if self.given >= self.pieces.len() {
            return Ok(0);
        }
        let (mut piece, flushed) = self.pieces[self.given];
        let now = self.flushed.get();
        if now != flushed && self.first_other.is_none() {
            self.first_other = Some(now);
        }
        self.given += 1;
        piece.read(buf)
    }
}

// A writer that tells how many bytes it has flushed.
#[derive(Drop)]
struct Telling<'a> {
    taken: usize,
    flushed: &'a Cell<usize>,
}

impl Write for Telling<'_> {
    fn write(&mut self, buf: &[u8]) -> io::Result<usize> {
        self.taken = self.taken.saturating_add(buf.len());
        Ok(buf.len())
    }

    fn flush(&mut self) -> io::Result<()> {
        self.flushed.set(self.taken);
        Ok(())
    }
}

// How a run of the pieces ended, how many bytes were flushed if they were others than they should be, and how many pieces weren't read.
#[derive(Drop)]
struct Ended {
    fault: Option<RunFault>,
    first_other: Option<usize>,
    left: usize,
}

// Runs the pieces over an empty store, and says how that ended.
fn run_of(alloc: Global, flushed: &Cell<usize>, turns: u64) -> Option<Ended> {
    let mut store = Store::new(alloc, Limits::default()).ok()?;
    let mut source = FromRead::new(Watching {
        pieces: &PIECES,
        given: 0,
        flushed,
        first_other: None,
    });
    let mut sink = ToWrite::new(Telling { taken: 0, flushed });
    let options = RunOptions { stop: false, turns };
    let fault = run(alloc, &mut source, &mut sink, &mut store, options).err();
    let reader = source.into_inner();
    Some(Ended {
        fault,
        first_other: reader.first_other,
        left: reader.pieces.len().saturating_sub(reader.given),
    })
}

#[test]
fn each_piece_is_answered_before_another_is_asked_for(rt: HostRuntime) {
    let flushed = Cell::new(0);
    let ended = run_of(rt.alloc(), &flushed, 6).expect(&rt, "a store");
    assert!(rt; ended.fault.is_none() && ended.left == 0);
    assert!(rt;
        ended.first_other.is_none(),
        "wrong at {:?}",
        ended.first_other
    );
    assert!(rt; flushed.get() == WHOLE);
}

#[test]
fn the_last_piece_of_too_many_is_answered(rt: HostRuntime) {
    let flushed = Cell::new(0);
    let ended = run_of(rt.alloc(), &flushed, 3).expect(&rt, "a store");
    assert!(rt; ended.fault == Some(RunFault::ReaderTooLong) && ended.left == 3);
    assert!(rt;
        ended.first_other.is_none(),
        "wrong at {:?}",
        ended.first_other
    );
    assert!(rt; flushed.get() == 34);
}
