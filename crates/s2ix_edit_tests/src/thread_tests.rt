//! What may go to another thread, and what several threads may read at once: the bounds hold, or the calls below are refused.
use s2ix_bag::Bag;
use s2ix_c_calls::Handle;
use s2ix_edit::Store;
use s2ix_table::{ChainTable, FacedTable};

// Whether a value may go to another thread.
fn may_go<T: Send>() -> bool {
    true
}

// Whether several threads may read a value at once.
fn may_be_read_at_once<T: Sync>() -> bool {
    true
}

#[test]
fn stores_and_their_parts_cross_threads(rt: HostRuntime) {
    assert!(rt;
        may_go::<Bag>() && may_go::<ChainTable>() && may_go::<FacedTable>() && may_go::<Store>()
    );
    assert!(rt; may_be_read_at_once::<Bag>() && may_be_read_at_once::<ChainTable>());
    assert!(rt; may_be_read_at_once::<FacedTable>() && may_be_read_at_once::<Store>());
}

#[test]
fn a_handle_goes_to_another_thread(rt: HostRuntime) {
    assert!(rt; may_go::<Handle>());
}
