ghost use Rattle.s2ix_text_parts.specs.DeviceFaults.{CanCount};
ghost use Rattle.s2ix_text_parts.specs.Puts.{Writes, text_of_parts};

use crate::sink::{Sink, WriteFault};

/// Puts all of `bytes`, piece by piece: if the sink takes less than it is offered, the rest is offered next. It ends at the first fault;
/// then a front of `bytes` went out. At most one call of `put` for each byte.
pub fn put_all<K: Sink>(sink: &mut K, bytes: &[u8]) -> Result<(), WriteFault>
    requires { CanCount (K.fault_count sink.old) }
    ensures { Writes K.Sink sink.old sink.new result bytes.now }
{
    let mut rest = bytes;
    while !rest.is_empty() {
        let count = sink.put(rest)?;
        rest = &rest[count..];
    }
    Ok(())
}

/// Puts the texts of `parts` one after the other, as one text. It ends at the first fault; then a front of that text went out. At most one
/// call of `put` for each byte.
pub fn put_parts<K: Sink>(sink: &mut K, parts: &[&[u8]]) -> Result<(), WriteFault>
    requires { CanCount (K.fault_count sink.old) }
    ensures { Writes K.Sink sink.old sink.new result (text_of_parts parts.now) }
{
    for part in parts {
        put_all(sink, part)?;
    }
    Ok(())
}
