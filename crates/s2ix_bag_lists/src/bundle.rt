ghost use Rattle.std.specs.Prelude.{◌≡◌, IfOk};

use s2id_core::OutOfMemory;
use s2ix_bag_held::HeldList;
use std::alloc::{AllocError, Global};
use std::marker::Model;
use std::sync::Arc;

/// Lists of held pairs that several lists of lists share. Contracts see them.
#[derive(Debug, Drop)]
pub(crate) struct Bundle {
    lists: Arc<Vec<HeldList>>,
}

impl Model for Bundle {
    ghost use Rattle.std.specs.Prelude.{List};
    ghost use Rattle.s2ix_bag_pairs.specs.Collection.{Collection};

    ghost Value = { List Collection };

    ghost view = { λ bundle. bundle.lists.value.items };
}

impl Bundle {
    /// These lists, to be shared. `OutOfMemory` if a growth is refused. O(1).
    pub(crate) fn new(alloc: Global, lists: Vec<HeldList>) -> Result<Bundle, OutOfMemory>
        ensures { IfOk result (λ bundle. bundle ≡ lists.items) }
    {
        let lists = Arc::new(alloc, lists)?;
        Ok(Bundle { lists })
    }

    /// The lists. O(1).
    pub(crate) fn as_slice(&self) -> &[HeldList]
        ensures { result.now ≡ self.now }
    {
        self.lists.as_slice()
    }
}

/// The same lists, shared once more. O(1).
impl Clone for Bundle {
    ghost is_clone = { λ bundle copy. copy ≡ bundle };

    fn clone(&self) -> Result<Bundle, AllocError> {
        Ok(Bundle {
            lists: self.lists.clone()?,
        })
    }
}
