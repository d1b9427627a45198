//! Copies of a table's lists. They have room for some parts more: a change of a copy puts a few new ones beside those that give way, and a list
//! without room for them would be copied once more, into twice the room.
ghost use Rattle.std.specs.Prelude.{◌≡◌, IfOk};

use s2id_core::OutOfMemory;
use s2ix_table_parts::Part;
use std::alloc::Global;

// For how many parts more there is room.
const MORE: usize = 16;

// These parts, each shared once more. O(p) for p parts. `OutOfMemory` if a growth is refused, or a part is shared too often.
pub(crate) fn shared_parts(alloc: Global, parts: &[Part]) -> Result<Vec<Part>, OutOfMemory>
    ensures { IfOk result (λ copy. copy.items ≡ parts.now) }
{
    let mut copy: Vec<Part> = Vec::with_capacity(alloc, parts.len().saturating_add(MORE))?;
    copy.extend_from_slice(parts)?;
    Ok(copy)
}

// A copy of what a table keeps for each part. O(p) for p parts. `OutOfMemory` if a growth is refused.
pub(crate) fn copy_of<T: Copy>(alloc: Global, list: &[T]) -> Result<Vec<T>, OutOfMemory>
    ensures { IfOk result (λ copy. copy.items ≡ list.now) }
{
    let mut copy = Vec::with_capacity(alloc, list.len().saturating_add(MORE))?;
    copy.extend_from_slice(list)?;
    Ok(copy)
}
