//! What leads from the store of one handle to that of another.

ghost use Rattle.std.specs.Prelude.{◌≡◌, Ok};
ghost use Rattle.s2ix_c_calls.specs.Difference.{rows_between};
ghost use Rattle.s2ix_c_calls.specs.Handle.{held_of};
ghost use Rattle.s2ix_c_calls.specs.Lists.{Lists};
ghost use Rattle.s2ix_c_calls.specs.Status.{closed};
ghost use Rattle.s2ix_c.specs.Difference.{OfBoth};

use s2ix_c_calls::status::CLOSED;
use s2ix_c_calls::{EntryRow, Handle, calls};
use std::alloc::Global;

/// The entries of the change that leads from the pairs of one store to those of another: exactly the pairs whose counts differ, by rising
/// cell, then label.
#[unsafe(no_mangle)]
pub extern "C" fn s2ix_difference(
    alloc: Global,
    before: &mut Handle,
    after: &mut Handle,
    out: &mut [EntryRow],
    number: &mut usize,
) -> u32
    ensures list { OfBoth (λ s t. Lists (Ok (rows_between s t)) result number.new out.old out.new)
        ((result ≡ closed) × (number.new ≡ 0) × (out.new ≡ out.old)) (held_of before.old) (held_of after.old) }
    ensures unchanged { (held_of before.new ≡ held_of before.old) × (held_of after.new ≡ held_of after.old) }
{
    *number = 0;
    let Some(first) = before.take(alloc) else {
        return CLOSED;
    };
    let Some(second) = after.take(alloc) else {
        *before = Handle::of(alloc, first);
        return CLOSED;
    };
    let status = calls::difference(alloc, &first, &second, out, number);
    *before = Handle::of(alloc, first);
    *after = Handle::of(alloc, second);
    status
}
