//! What a search for a range has come to.
use crate::walk_state::KnownWindow;
use crate::window::Window;

// Some ranges, and the window that is known once they are.
#[derive(Clone, Copy)]
pub(crate) struct Candidates {
    pub(crate) among: Window,
    pub(crate) known: KnownWindow,
}

// Some ranges, and the borders from `low` on and before `high`, among which are all borders that lie inside of these ranges and were not
// read yet. The next probe may leave `room` ranges: a power of two, or 0 if no probe is left.
#[derive(Clone, Copy)]
pub(crate) struct Narrowing {
    pub(crate) among: Window,
    pub(crate) low: usize,
    pub(crate) high: usize,
    pub(crate) room: usize,
}
