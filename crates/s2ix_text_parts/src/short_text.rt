//! Putting a short text at once.
ghost use Rattle.s2ix_text_parts.specs.DeviceFaults.{CanCount};
ghost use Rattle.s2ix_text_parts.specs.Puts.{Writes, text_of_parts};

use crate::put::{put_all, put_parts};
use crate::sink::{Sink, WriteFault};
use arrayvec::ArrayVec;

// How many bytes are gathered at most: no line of an answer has more.
const LONGEST: usize = 80;

/// Puts the texts of `parts` one after the other, as one text: up to 80 bytes at once, so that the sink is called once for a short line.
/// O(n) for n bytes. `WriteFault` if the sink fails; then a front of the text went out.
#[inline(always)]
pub fn put_together<K: Sink>(sink: &mut K, parts: &[&[u8]]) -> Result<(), WriteFault>
    requires { CanCount (K.fault_count sink.old) }
    ensures { Writes K.Sink sink.old sink.new result (text_of_parts parts.now) }
{
    let mut text = ArrayVec::<u8, LONGEST>::new();
    for part in parts {
        if text.try_extend_from_slice(part).is_err() {
            return put_parts(sink, parts);
        }
    }
    put_all(sink, text.as_slice())
}
