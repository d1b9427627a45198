ghost use Rattle.std.specs.Prelude.{◌≡◌, ◌≤◌, IfOk, length};
ghost use Rattle.s2ix_bag_pairs.specs.Collection.{IsCollection};

use s2id_core::OutOfMemory;
use s2ix_bag_changes::Bag;
use s2ix_bag_pairs::Held;
use std::alloc::Global;

// The pairs that a bag holds, in its order, as a list. O(n) for n pairs.
pub(crate) fn held_pairs(alloc: Global, bag: &Bag) -> Result<Vec<Held>, OutOfMemory>
    ensures list { IfOk result (λ held. held.items ≡ bag.now.held) }
    ensures rises { IfOk result (λ held. IsCollection held.items) }
    ensures within_limit { IfOk result (λ held. length held.items ≤ 1000000) }
{
    let mut list = Vec::with_capacity(alloc, bag.len())?;
    for held in bag.iter() {
        list.push(held)?;
    }
    Ok(list)
}
