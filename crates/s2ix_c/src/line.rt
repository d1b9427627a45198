//! A line of a script, carried out on a store, with its answer in a buffer.

ghost use Rattle.std.specs.Prelude.{◌≡◌};
ghost use Rattle.s2ix_c_calls.specs.Handle.{held_of};
ghost use Rattle.s2ix_c.specs.Calls.{Through};
ghost use Rattle.s2ix_c_calls.specs.Line.{IsCarriedOut};
ghost use Rattle.s2ix_c_calls.specs.LineKind.{TellsKind};
ghost use Rattle.s2ix_c_calls.specs.Status.{closed};

use crate::handles::with_store;
use s2ix_c_calls::{Handle, calls};
use std::alloc::Global;

/// Carries a line of a script out, and puts its answer to the front of `out`; `number` is how many bytes it has. With too little room
/// nothing is done, and `number` is how much the line wants.
#[tactic(auto, using(crate::proofs::Through::through_open, crate::proofs::Through::through_closed))]
#[unsafe(no_mangle)]
pub extern "C" fn s2ix_line(
    alloc: Global,
    handle: &mut Handle,
    line: &[u8],
    out: &mut [u8],
    number: &mut usize,
) -> u32
    ensures { Through (IsCarriedOut line.now result number.new out.old out.new)
        ((result ≡ closed) × (number.new ≡ 0) × (out.new ≡ out.old)) (held_of handle.old) (held_of handle.new) }
{
    *number = 0;
    with_store!(
        alloc,
        handle,
        |store| calls::line(alloc, &mut store, line, out, number)
    )
}

/// What a line of a script would do: `kind` is one of `S2IX_LINE_..` in `s2ix.h`. It needs no store.
#[unsafe(no_mangle)]
pub extern "C" fn s2ix_line_kind(alloc: Global, line: &[u8], kind: &mut u8) -> u32
    ensures { TellsKind line.now result kind.new }
{
    calls::line_kind(alloc, line, kind)
}
