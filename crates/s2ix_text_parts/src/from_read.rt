ghost use Rattle.std.specs.Prelude.{◌≡◌};
ghost use Rattle.s2ix_text_parts.specs.Adapters.{reader_of, reader_faults};
ghost use Rattle.s2ix_text_parts.specs.Pieces.{Gave};

use crate::source::{ReadFault, Source};
use std::io::Read;

/// A source over a reader of std's. It gives what the reader gives, and each error of the reader is a fault. Each piece is one call of the
/// reader.
#[derive(Debug, Drop)]
pub struct FromRead<R> {
    inner: R,
    faults: u64,
}

impl<R: Read> FromRead<R> {
    /// A source of the bytes that `inner` has left, with no fault so far.
    pub fn new(inner: R) -> FromRead<R>
        ensures reader { reader_of result ≡ inner }
        ensures faults { reader_faults result ≡ 0 }
    {
        FromRead { inner, faults: 0 }
    }

    /// The reader, with the bytes that it has left.
    pub fn into_inner(self) -> R
        ensures { result ≡ reader_of self }
    {
        let FromRead { inner, faults: _ } = self;
        inner
    }
}

impl<R: Read> Source for FromRead<R> {
    ghost left = { λ s. R.remaining (reader_of s) };

    ghost gives = { λ old n new. Gave (R.remaining (reader_of old)) n (R.remaining (reader_of new)) };

    ghost fault_count = { reader_faults };

    fn piece(&mut self, buf: &mut [u8]) -> Result<usize, ReadFault> {
        match self.inner.read(buf) {
            Ok(count) => Ok(count),
            Err(_) => {
                self.faults += 1;
                Err(ReadFault)
            }
        }
    }

    fn faults(&self) -> u64 {
        self.faults
    }
}
