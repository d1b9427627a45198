//! Where a walk over the ranges that a target meets stands.
use crate::window::Window;

// All leaves of the target before `seen` have been seen. `cell` is the target's first cell that may go beyond them,
// `range` the range that has `seen`, and `place` the pair of the chain at hand that was given last, or the chain's first
// one if none was: of the chain those pairs are new whose cells begin at `from` or later.
#[derive(Clone, Copy)]
pub(crate) struct WalkState<P> {
    pub(crate) cell: usize,
    pub(crate) range: usize,
    pub(crate) seen: u64,
    pub(crate) from: u64,
    pub(crate) place: Option<P>,
    pub(crate) known: KnownWindow,
}

// The window that a walk has asked for last: each leaf that it has not passed yet, before the number `until`, is in a range before `end`.
// That is none before it asks. The walk has not passed its `borders`, and the part at hand ends before the range `part_end`, which is 0 if
// no part is at hand.
#[derive(Clone, Copy)]
pub(crate) struct KnownWindow {
    pub(crate) until: u64,
    pub(crate) end: usize,
    pub(crate) borders: Window,
    pub(crate) part_end: usize,
}

impl KnownWindow {
    ghost use Rattle.std.specs.Prelude.{◌≡◌, ◌+◌};

    // No window is known.
    pub(crate) fn none() -> KnownWindow
        ensures until { result.until ≡ 0 }
        ensures end { result.end ≡ 0 }
        ensures borders { result.borders.first + result.borders.size ≡ 0 }
    {
        KnownWindow {
            until: 0,
            end: 0,
            borders: Window { first: 0, size: 0 },
            part_end: 0,
        }
    }
}
