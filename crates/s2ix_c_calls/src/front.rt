//! Texts at the front of a buffer.
ghost use Rattle.std.specs.Prelude.{◌≡◌, ◌≢◌, ◌≤◌, Err, length};
ghost use Rattle.s2ix_c_calls.specs.InBuffer.{IsAtFront, IsWithin, Puts};

use crate::no_answer::NoAnswer;

// Puts a text to the front of `out`, if it has room for it.
pub(crate) fn put_text(text: &[u8], out: &mut [u8]) -> Result<usize, NoAnswer>
    ensures text { Puts text.now out.old out.new result }
    ensures memory { result ≢ Err NoAnswer.OutOfMemory }
    ensures room { IsWithin (length text.now) (length out.old) result }
{
    let needed = text.len();
    if out.len() < needed {
        return Err(NoAnswer::NoRoom { needed });
    }
    Ok(put_front(text, out))
}

// Puts a text to the front of `out`, which has room for it.
pub(crate) fn put_front(text: &[u8], out: &mut [u8]) -> usize
    requires { length text.now ≤ length out.old }
    ensures { IsAtFront text.now result out.old out.new }
{
    out[..text.len()].copy_from_slice(text);
    text.len()
}
