ghost use Rattle.std.specs.Prelude.{◌≡◌, ◌≤◌, ◌↔◌, IsSome, IfSome};
ghost use Rattle.s2ix_bag_pairs.specs.Ranges.{AreLimits};

/// How large a collection and its history may be.
#[derive(Clone, Copy, Debug, PartialEq, Eq, Hash)]
pub struct Limits {
    pairs: u32,
    count: u32,
    changes: u32,
    pub ghost in_range: { AreLimits pairs count changes },
}

impl Limits {
    ghost use Rattle.s2ix_bag_pairs.specs.Limits.{pairs_limit, count_limit, changes_limit};

    /// Limits of at most `pairs` distinct pairs (1 to 1,000,000), `count` copies of a pair (1 to 4,294,967,295) and `changes` that can be
    /// undone (1 to 100,000), or `None` if one of them is out of its range.
    pub fn new(pairs: u32, count: u32, changes: u32) -> Option<Limits>
        ensures valid { IsSome result ↔ AreLimits pairs count changes }
        ensures pairs { IfSome result (λ limits. pairs_limit limits ≡ pairs) }
        ensures count { IfSome result (λ limits. count_limit limits ≡ count) }
        ensures changes { IfSome result (λ limits. changes_limit limits ≡ changes) }
    {
        let valid = (1..=1_000_000).contains(&pairs)
            && count >= 1
            && (1..=100_000).contains(&changes);
        if valid {
            Some(Limits {
                pairs,
                count,
                changes,
            })
        } else {
            None
        }
    }

    /// The greatest number of distinct pairs.
    pub fn pairs(self) -> u32
        ensures { result ≡ pairs_limit self }
    {
        self.pairs
    }

    /// The greatest count of one pair.
    pub fn count(self) -> u32
        ensures { result ≡ count_limit self }
    {
        self.count
    }

    /// The greatest number of changes that a history keeps.
    pub fn changes(self) -> u32
        ensures { result ≡ changes_limit self }
    {
        self.changes
    }
}

/// The widest limits: 1,000,000 pairs, 4,294,967,295 copies of a pair and 100,000 changes.
impl Default for Limits {
    ghost use Rattle.s2ix_bag_pairs.specs.Limits.{IsWidest};

    ghost is_default = { IsWidest };

    fn default() -> Self {
        Limits {
            pairs: 1_000_000,
            count: u32::MAX,
            changes: 100_000,
        }
    }
}
