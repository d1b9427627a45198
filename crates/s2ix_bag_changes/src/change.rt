ghost use Rattle.std.specs.Prelude.{◌≡◌, IfErr, IfOk, None, OnOk};
ghost use Rattle.s2ix_bag_pairs.specs.Change.{IsChangeList, change_between, inverse_of};
ghost use Rattle.s2ix_bag_pairs.specs.Collection.{IsCollection};
ghost use Rattle.s2ix_bag_lists.specs.Entries.{IsChangeError, change_fault};

use crate::bag::Bag;
use s2id_core::OutOfMemory;
use s2ix_bag_held::FlatHeld;
use s2ix_bag_lists::{ChangeError, differences, exchanged_entries, fault};
use s2ix_bag_pairs::Entry;
use std::alloc::{AllocError, Global};
use std::marker::Model;

/// What differs between two bags: entries in strictly rising order of their pairs, each with two different
/// counts. Contracts see a change as the list of its entries.
#[derive(Debug, Drop)]
pub struct Change {
    entries: Vec<Entry>,
}

impl Model for Change {
    ghost use Rattle.std.specs.Prelude.{List};
    ghost use Rattle.s2ix_bag_pairs.specs.declared.pair.Entry.{Entry};
    ghost use Rattle.s2ix_bag_pairs.specs.Change.{IsChangeList};

    ghost Value = { List Entry };

    ghost view = { λ c. c.entries.items };

    ghost invariant = { λ c. IsChangeList c.entries.items };
}

impl Change {
    /// The change with these entries. It does not allocate.
    pub fn from_vec(entries: Vec<Entry>) -> Change
        requires { IsChangeList entries.items }
        ensures { result ≡ entries.items }
    {
        Change { entries }
    }

    /// The change with a copy of these entries. The empty list is a change too. Before it allocates, it tests the two faults in their
    /// order, each over all entries. `OutOfMemory` if a growth is refused. O(n).
    pub fn from_entries(alloc: Global, entries: &[Entry]) -> Result<Change, ChangeError>
        ensures list { IfOk result (λ change. change ≡ entries.now) }
        ensures accepted { OnOk result (change_fault entries.now ≡ None) }
        ensures refused { IfErr result (λ error. IsChangeError error (change_fault entries.now)) }
    {
        if let Some(error) = fault(entries) {
            return Err(error);
        }
        let entries = Vec::from_slice(alloc, entries)?;
        Ok(Change { entries })
    }

    /// The change that leads from `old` to `new`: exactly the pairs whose counts differ. O(n + m) for their n and m pairs. `OutOfMemory` if
    /// a growth is refused.
    pub fn between(alloc: Global, old: &Bag, new: &Bag) -> Result<Change, OutOfMemory>
        ensures { IfOk result (λ change. change ≡ change_between old.now.held new.now.held) }
    {
        let old = old.flat(alloc)?;
        let new = new.flat(alloc)?;
        Change::between_lists(alloc, &old, &new)
    }

    /// The same between two lists of held pairs, each rising strictly with counts above 0: what a bag holds, or a part of it. O(n + m) for
    /// their n and m pairs. `OutOfMemory` if a growth is refused.
    pub fn between_lists(
        alloc: Global,
        old: &[FlatHeld],
        new: &[FlatHeld],
    ) -> Result<Change, OutOfMemory>
        requires old_rise { IsCollection old.now }
        requires new_rise { IsCollection new.now }
        ensures { IfOk result (λ change. change ≡ change_between old.now new.now) }
    {
        let entries = differences(alloc, old, new)?;
        Ok(Change { entries })
    }

    /// The entries, in strictly rising order of their pairs.
    pub fn entries(&self) -> &[Entry]
        ensures list { result.now ≡ self.now }
        ensures rises { IsChangeList self.now }
    {
        self.entries.as_slice()
    }

    /// The change that takes this one back: the same pairs with their two counts exchanged. O(n) for n entries. `OutOfMemory` if a growth
    /// is refused.
    pub fn inverse(&self, alloc: Global) -> Result<Change, OutOfMemory>
        ensures { IfOk result (λ change. change ≡ inverse_of self.now) }
    {
        let entries = exchanged_entries(alloc, self.entries.as_slice())?;
        Ok(Change { entries })
    }
}

/// A change with the same entries. O(n) for n entries.
impl Clone for Change {
    ghost is_clone = { λ change copy. copy ≡ change };

    fn clone(&self) -> Result<Change, AllocError> {
        let entries = self.entries.clone()?;
        Ok(Change { entries })
    }
}
