ghost use Rattle.std.specs.Prelude.{◌≡◌, ◌≤◌, ◌↔◌, IsSome, IfSome};

/// The name of a region: a number from 0 to 2147483647 (S2's `S2CellIndex::Label`).
#[derive(Clone, Copy, Debug, PartialEq, Eq, PartialOrd, Ord, Hash)]
pub struct Label {
    value: u32,
    pub ghost in_range: { value ≤ 2147483647 },
}

impl Label {
    ghost use Rattle.s2ix_bag_pairs.specs.Label.{label_numbered, value_of};

    /// The label with this number, or `None` above 2147483647.
    pub fn new(value: u32) -> Option<Label>
        ensures valid { IsSome result ↔ (value ≤ 2147483647) }
        ensures value { IfSome result (λ label. value_of label ≡ value) }
        ensures label { result ≡ label_numbered value }
    {
        if value <= 2147483647 {
            Some(Label { value })
        } else {
            None
        }
    }

    /// The label's number.
    pub fn get(self) -> u32
        ensures { result ≡ value_of self }
    {
        self.value
    }
}
