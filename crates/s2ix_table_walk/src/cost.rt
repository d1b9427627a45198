/// What reading a table has cost, in counts that stop at 2^64 - 1.
#[derive(Clone, Copy, Debug, PartialEq, Eq, Hash)]
pub struct Cost {
    /// How many looks there were: pairs that were read.
    pub looks: u64,
    /// How many probes there were: ranges that were read, and windows that were asked for.
    pub probes: u64,
}

impl Cost {
    ghost use Rattle.std.specs.Prelude.{◌≡◌};
    ghost use Rattle.s2ix_table_walk.specs.Costs.{no_cost, with_look, with_probe};

    /// Nothing was read.
    pub fn none() -> Cost
        ensures { result ≡ no_cost }
    {
        Cost {
            looks: 0,
            probes: 0,
        }
    }

    /// Counts one look more.
    pub fn add_look(&mut self)
        ensures { self.new ≡ with_look self.old }
    {
        self.looks = self.looks.saturating_add(1);
    }

    /// Counts one probe more.
    pub fn add_probe(&mut self)
        ensures { self.new ≡ with_probe self.old }
    {
        self.probes = self.probes.saturating_add(1);
    }
}
