ghost use Rattle.std.specs.Prelude.{◌≡◌, IfOk, codes, string_bytes};
ghost use Rattle.s2ix_cli_words.specs.Help.{limit_text, range_of};

use s2ix_bag_pairs::Limits;
use std::alloc::{AllocError, Global};

/// What help tells of the limits of a run, made from the widest.
#[derive(Debug, Drop)]
pub struct LimitHelp {
    /// Of `--max-pairs`.
    pub pairs: String,
    /// Of `--max-count`.
    pub count: String,
    /// Of `--max-changes`.
    pub changes: String,
}

impl LimitHelp {
    /// The help on each limit: what it bounds, its range, and its default, which is the greatest of the range. It fails only if a growth is
    /// refused.
    pub fn new(alloc: Global) -> Result<LimitHelp, AllocError>
        ensures pairs { IfOk result (λ help. string_bytes help.pairs ≡ limit_text (codes "Holds N pairs at most") 1000000) }
        ensures count { IfOk result (λ help. string_bytes help.count ≡ limit_text (codes "Holds N copies of a pair at most") 4294967295) }
        ensures changes { IfOk result (λ help. string_bytes help.changes ≡ limit_text (codes "Keeps N changes to undo at most") 100000) }
    {
        let widest = Limits::default();
        let pairs = limit_help(alloc, "Holds N pairs at most", widest.pairs())?;
        let count = limit_help(alloc, "Holds N copies of a pair at most", widest.count())?;
        let changes = limit_help(alloc, "Keeps N changes to undo at most", widest.changes())?;
        Ok(LimitHelp {
            pairs,
            count,
            changes,
        })
    }
}

// What help tells of a limit.
fn limit_help(alloc: Global, what: &str, greatest: u32) -> Result<String, AllocError>
    ensures { IfOk result (λ text. string_bytes text ≡ limit_text what.now greatest) }
{
    let range = range_text(alloc, greatest)?;
    format!(in alloc; "{what}: {range} [default: {greatest}]")
}

/// The range of a limit, from 1 to the greatest, as help and the refusal of a limit tell it. It fails only if a growth is refused.
pub fn range_text(alloc: Global, greatest: u32) -> Result<String, AllocError>
    ensures text { IfOk result (λ text. string_bytes text ≡ range_of greatest) }
{
    format!(in alloc; "1 to {greatest}")
}
