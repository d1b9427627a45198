//! Which library a program runs over.

ghost use Rattle.std.specs.Prelude.{codes};
ghost use Rattle.s2ix_c_calls.specs.Lists.{IsPut};

use s2ix_c_calls::put_bytes;

/// The version of the library, as bytes with no zero after them.
#[unsafe(no_mangle)]
pub extern "C" fn s2ix_version(out: &mut [u8], number: &mut usize) -> u32
    ensures { IsPut (codes "1.1.0") result number.new out.old out.new }
{
    put_bytes("1.1.0".as_bytes(), out, number)
}
