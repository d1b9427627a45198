ghost use Rattle.std.specs.Prelude.{◌↔◌, IsTrue, IsSome};

use crate::address::Address;
use s2ix_edit::Store;
use std::alloc::Global;
use std::mem::replace;

/// The address of a store, or none: a handle is open or closed. Contracts see it by `held_of`, the state of its store, or `None`.
#[repr(C)]
pub struct Handle {
    address: Address,
    is_open: bool,
    ghost opened: { IsTrue is_open ↔ IsSome address.state },
}

impl Handle {
    ghost use Rattle.std.specs.Prelude.{◌≡◌, Some, None, MatchOption};
    ghost use Rattle.s2ix_c_calls.specs.Handle.{held_of};

    /// A closed handle. It does not allocate. O(1).
    pub fn closed(alloc: Global) -> Handle
        ensures { held_of result ≡ None }
    {
        Handle {
            address: Address::null(alloc),
            is_open: false,
        }
    }

    /// An open handle of a store. It does not allocate. O(1).
    pub fn of(alloc: Global, store: Box<Store, Global>) -> Handle
        ensures { held_of result ≡ Some store.value }
    {
        Handle {
            address: Address::of(alloc, store),
            is_open: true,
        }
    }

    /// The store of an open handle; `None` of a closed one. O(1).
    pub fn into_store(self) -> Option<Box<Store, Global>>
        ensures { MatchOption result (held_of self ≡ None) (λ store. held_of self ≡ Some store.value) }
    {
        let Handle { address, is_open } = self;
        if is_open {
            Some(address.into_box())
        } else {
            None
        }
    }

    /// Takes the store out of a handle, which is closed then. O(1).
    pub fn take(&mut self, alloc: Global) -> Option<Box<Store, Global>>
        ensures store { MatchOption result (held_of self.old ≡ None) (λ store. held_of self.old ≡ Some store.value) }
        ensures closed { held_of self.new ≡ None }
    {
        replace(self, Handle::closed(alloc)).into_store()
    }
}

impl Drop for Handle {
    fn drop(self) {
        drop(self.into_store());
    }
}
