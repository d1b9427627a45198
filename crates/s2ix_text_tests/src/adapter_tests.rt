//! What is asked of std's readers and writers. No contract speaks of it, since std's traits have no relation for a
//! call.
use s2id_core::CellId;
use s2id_samples::cell_of;
use s2ix_text::{FromRead, ReadFault, Sink, Source, ToWrite, WriteFault, put_together, write_list};
use std::io;
use std::io::{ErrorKind, Read, Write};

// Faults of std's that a caller might want to try again, and one that it might not.
const KINDS: [ErrorKind; 3] = [
    ErrorKind::Interrupted,
    ErrorKind::WouldBlock,
    ErrorKind::BrokenPipe,
];

// How often something was called, and which of its calls fails, counted from 1, and with which kind of error.
#[derive(Clone, Copy)]
struct Calls {
    count: u64,
    fault_at: u64,
    kind: ErrorKind,
}

impl Calls {
    fn new(fault_at: u64, kind: ErrorKind) -> Calls {
        Calls {
            count: 0,
            fault_at,
            kind,
        }
    }

    // Counts one more call, and fails if it is the one that does.
    fn next(&mut self) -> io::Result<()> {
        self.count = self.count.saturating_add(1);
        if self.count == self.fault_at {
            return Err(io::Error::from(self.kind));
        }
        Ok(())
    }
}

// A reader over a slice that counts its calls and fails at one of them.
#[derive(Drop)]
struct CountingReader<'a> {
    left: &'a [u8],
    reads: Calls,
}

impl Read for CountingReader<'_> {
    fn read(&mut self, buf: &mut [u8]) -> io::Result<usize> {
        self.reads.next()?;
        self.left.read(buf)
    }
}

// A writer that counts its calls and the bytes that it takes, and fails at one call of each kind. It takes at most
// `put_len` bytes a call.
#[derive(Clone, Copy)]
struct CountingWriter {
    taken: usize,
    put_len: usize,
    writes: Calls,
    flushes: Calls,
}

impl Write for CountingWriter {
    fn write(&mut self, buf: &[u8]) -> io::Result<usize> {
        self.writes.next()?;
        let count = buf.len().min(self.put_len);
        self.taken = self.taken.saturating_add(count);
        Ok(count)
    }

    fn flush(&mut self) -> io::Result<()> {
        self.flushes.next()
    }
}

// A writer none of whose bytes is taken yet.
fn writer_of(put_len: usize, fault_at: u64, kind: ErrorKind) -> CountingWriter {
    CountingWriter {
        taken: 0,
        put_len,
        writes: Calls::new(fault_at, kind),
        flushes: Calls::new(fault_at, kind),
    }
}

// A reader that fails at its second call.
fn reader_of(left: &[u8], kind: ErrorKind) -> CountingReader<'_> {
    CountingReader {
        left,
        reads: Calls::new(2, kind),
    }
}

#[test]
fn each_piece_is_one_read(rt: HostRuntime) {
    for kind in KINDS {
        let mut source = FromRead::new(reader_of(b"hello", kind));
        let mut buf = [0; 3];
        assert!(rt; source.piece(&mut buf) == Ok(3) && buf == *b"hel");
        assert!(rt;
            source.piece(&mut buf) == Err(ReadFault),
            "no fault at {kind:?}"
        );
        assert!(rt; source.piece(&mut buf) == Ok(2) && buf == *b"lol");
        assert!(rt; source.piece(&mut buf) == Ok(0) && source.faults() == 1);
        assert!(rt; source.into_inner().reads.count == 4);
    }
}

#[test]
fn each_put_is_one_write_and_each_flush_one_flush(rt: HostRuntime) {
    for kind in KINDS {
        let mut sink = ToWrite::new(writer_of(9, 2, kind));
        assert!(rt; sink.put(b"he") == Ok(2));
        assert!(rt; sink.put(b"ha") == Err(WriteFault), "no fault at {kind:?}");
        assert!(rt; sink.put(b"llo") == Ok(3));
        assert!(rt; sink.flush() == Ok(()));
        assert!(rt; sink.flush() == Err(WriteFault), "no fault at {kind:?}");
        assert!(rt; sink.flush() == Ok(()) && sink.faults() == 2);
        let writer = sink.into_inner();
        assert!(rt; writer.writes.count == 3 && writer.flushes.count == 3 && writer.taken == 5);
    }
}

#[test]
fn a_put_of_which_none_is_taken_is_one_write_and_a_fault(rt: HostRuntime) {
    let mut sink = ToWrite::new(writer_of(0, 0, ErrorKind::WriteZero));
    assert!(rt; sink.put(b"hello") == Err(WriteFault));
    assert!(rt; sink.faults() == 1 && sink.into_inner().writes.count == 1);
}

// How often a writer is called for the parts of a text.
fn writes_of_parts(parts: &[&[u8]]) -> Option<u64> {
    let mut sink = ToWrite::new(writer_of(1_000, 0, ErrorKind::Other));
    put_together(&mut sink, parts).ok()?;
    Some(sink.into_inner().writes.count)
}

// How often a writer is called for a list of cells.
fn writes_of_list(cells: &[CellId]) -> Option<u64> {
    let mut sink = ToWrite::new(writer_of(1_000, 0, ErrorKind::Other));
    write_list(cells, &mut sink).ok()?;
    Some(sink.into_inner().writes.count)
}

// 80 bytes: as many as are gathered before they are put.
const GATHERED: &[u8] =
    b"0123456789abcdef0123456789abcdef0123456789abcdef0123456789abcdef0123456789abcdef";

// A line of at most 80 bytes is one put, and so is a list of 25 leaves, whose lines have 17 bytes each.
#[test]
fn short_texts_go_out_at_once_and_long_ones_in_blocks(rt: HostRuntime) {
    assert!(rt; writes_of_parts(&[b"ok ", b"", b"2", b"\n"]) == Some(1));
    assert!(rt; writes_of_parts(&[GATHERED, b""]) == Some(1));
    assert!(rt; writes_of_parts(&[GATHERED, b"\n"]) == Some(2));
    let leaf = cell_of("0000000000000001").expect(&rt, "a leaf");
    assert!(rt; writes_of_list(&[leaf; 25]) == Some(1));
    assert!(rt; writes_of_list(&[leaf; 26]) == Some(2));
}
