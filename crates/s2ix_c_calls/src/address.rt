//! The address of a boxed store, as a value that owns what lies there. This is the only module with a raw pointer: its three functions, and
//! that an address may go to another thread, are proved by hand.
ghost use Rattle.std.specs.Prelude.{◌≡◌, Option, None, Some, IsSome};
ghost use Rattle.s2ix_edit_plan.specs.State.{State};
ghost use Rattle.s2ix_c_calls.specs.Address.{code_of_state, owned_at};

use s2ix_edit::Store;
use std::alloc::Global;
use std::marker::{Model, Send};
use std::ptr::null_mut;

/// Where a store lies, with the store itself; or null, with nothing. `state` is that of the store. Dropping one frees nothing:
/// call `into_box` first if it is not null.
#[repr(C)]
#[derive(Drop)]
pub struct Address {
    start: *mut u8,
    alloc: Global,
    pub ghost state: { Option State } by { code_of_state },
}

impl Model for Address {
    ghost also_owns = { λ a. owned_at a.state a.alloc a.start };
}

// It may go to another thread, since the store there may, and any thread may free a block of the heap.
unsafe impl Send for Address {}

impl Address {
    /// The null address.
    pub fn null(alloc: Global) -> Address
        ensures { result.state ≡ None }
    {
        Address {
            start: null_mut(),
            alloc,
        }
    }

    /// The address of a boxed store.
    pub fn of(alloc: Global, store: Box<Store, Global>) -> Address
        ensures { result.state ≡ Some store.value }
    {
        let start = Box::into_raw(store) as *mut u8;
        Address { start, alloc }
    }

    /// The boxed store of an address that is not null.
    pub fn into_box(self) -> Box<Store, Global>
        requires { IsSome self.state }
        ensures { self.state ≡ Some result.value }
    {
        let Address { start, alloc } = self;
        unsafe { Box::from_raw(alloc, start as *mut Store) }
    }
}
