ghost use Rattle.std.specs.Prelude.{◌++◌};
ghost use Rattle.s2ix_text_parts.specs.DeviceFaults.{CanCount};
ghost use Rattle.s2ix_text_parts.specs.Puts.{Writes};
ghost use Rattle.s2ix_text_write.specs.Lists.{pair_text};

use itoa::Buffer;
use s2ix_bag_pairs::Held;
use s2ix_text_parts::{Sink, WriteFault, put_together};

/// Writes a held pair as queries print it (`TOKEN:LABEL:COUNT`), between two texts. `WriteFault` if the sink fails; then a front of it all
/// went out.
#[tactic(auto, unfolding(crate::specs::Lists::pair_text))]
pub fn write_pair_between<K: Sink>(
    before: &[u8],
    held: Held,
    after: &[u8],
    sink: &mut K,
) -> Result<(), WriteFault>
    requires { CanCount (K.fault_count sink.old) }
    ensures { Writes K.Sink sink.old sink.new result (before.now ++ (pair_text held ++ after.now)) }
{
    let token = held.pair.cell.token();
    let mut label = Buffer::new();
    let mut count = Buffer::new();
    put_together(
        sink,
        &[
            before,
            token.as_bytes(),
            b":",
            label.format(held.pair.label.get()).as_bytes(),
            b":",
            count.format(held.count).as_bytes(),
            after,
        ],
    )
}
