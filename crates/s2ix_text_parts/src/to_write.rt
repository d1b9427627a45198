ghost use Rattle.std.specs.Prelude.{◌≡◌};
ghost use Rattle.std.specs.Io.KnownBytes.{Keeps};
ghost use Rattle.s2ix_text_parts.specs.Adapters.{writer_of, writer_faults};

use crate::sink::{Sink, WriteFault};
use std::io::Write;

/// A sink over a writer of std's. The sink takes what the writer takes, and each error of the writer is a fault. If the writer takes none
/// of a piece, that is a fault too, since the sink would never be done. Each put and each flush is one call of the writer.
#[derive(Debug, Drop)]
pub struct ToWrite<W> {
    inner: W,
    faults: u64,
}

impl<W: Write> ToWrite<W> {
    /// A sink that took the bytes that `inner` holds, with no fault so far.
    pub fn new(inner: W) -> ToWrite<W>
        ensures writer { writer_of result ≡ inner }
        ensures faults { writer_faults result ≡ 0 }
    {
        ToWrite { inner, faults: 0 }
    }

    /// The writer, with what it took. It is not flushed.
    pub fn into_inner(self) -> W
        ensures { result ≡ writer_of self }
    {
        let ToWrite { inner, faults: _ } = self;
        inner
    }
}

impl<W: Write> Sink for ToWrite<W> {
    ghost taken = { λ s. W.contents (writer_of s) };

    ghost flushes = { λ old new. Keeps (W.contents (writer_of old)) (W.contents (writer_of new)) };

    ghost flush_mark = { λ _. 0 };

    ghost fault_count = { writer_faults };

    fn put(&mut self, bytes: &[u8]) -> Result<usize, WriteFault> {
        match self.inner.write(bytes) {
            Ok(count) if count > 0 => Ok(count),
            _ => {
                self.faults += 1;
                Err(WriteFault)
            }
        }
    }

    fn flush(&mut self) -> Result<(), WriteFault> {
        match self.inner.flush() {
            Ok(()) => Ok(()),
            Err(_) => {
                self.faults += 1;
                Err(WriteFault)
            }
        }
    }

    fn faults(&self) -> u64 {
        self.faults
    }
}
