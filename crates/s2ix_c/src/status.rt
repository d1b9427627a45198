//! What the numbers that calls answer with say.

ghost use Rattle.s2ix_c_calls.specs.Lists.{IsPut};
ghost use Rattle.s2ix_c_calls.specs.Texts.{status_text};

use s2ix_c_calls::put_bytes;
use s2ix_c_calls::status::text_of;

/// What a status says, in words, as bytes with no zero after them.
#[unsafe(no_mangle)]
pub extern "C" fn s2ix_status_text(status: u32, out: &mut [u8], number: &mut usize) -> u32
    ensures { IsPut (status_text status) result number.new out.old out.new }
{
    put_bytes(text_of(status).as_bytes(), out, number)
}
