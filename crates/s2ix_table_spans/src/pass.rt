//! Where a sweep over the leaves has come to, and what it has written.
ghost use Rattle.std.specs.Prelude.{◌≡◌, ◌<◌, ◌≤◌, length};

// The cells that are open at `at` are the chain from `top` outwards; `top` is no place if none is open. The ranges up to `at` are
// written, `count` of them. A sweep hands it on by value, so that it stays in registers while the lists are written.
#[derive(Clone, Copy)]
pub(crate) struct Frontier {
    pub(crate) count: usize,
    pub(crate) at: u64,
    pub(crate) top: u32,
}

// The lists that a sweep writes, and where it stands before it begins and once it has ended: meanwhile it hands that on by itself. The
// first `count` starts and firsts are the ranges.
#[derive(Drop)]
pub(crate) struct Pass {
    pub(crate) outer: Vec<u32>,
    pub(crate) starts: Vec<u64>,
    pub(crate) firsts: Vec<u32>,
    pub(crate) frontier: Frontier,
}

impl Pass {
    ghost use Rattle.s2ix_table_spans.specs.Pass.{IsWritten, with_frontier};

    // Writes the range from where a sweep stands up to a bound, unless it has no leaf; where the sweep stands then. The place after the
    // ranges is written in either case and counted if the range has a leaf, so that no branch depends on it.
    pub(crate) fn write_until(&mut self, frontier: Frontier, bound: u64) -> Frontier
        requires starts { frontier.count < length self.old.starts.items }
        requires firsts { frontier.count < length self.old.firsts.items }
        requires within_limit { length self.old.starts.items ≤ 2000001 }
        ensures { IsWritten bound (with_frontier frontier self.old) (with_frontier result self.new) }
    {
        self.starts[frontier.count] = frontier.at;
        self.firsts[frontier.count] = frontier.top;
        Frontier {
            count: frontier.count + usize::from(frontier.at < bound),
            at: frontier.at.max(bound),
            top: frontier.top,
        }
    }
}
