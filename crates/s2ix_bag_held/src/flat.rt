ghost use Rattle.std.specs.Prelude.{◌≡◌};

use s2id_core::CellId;
use s2ix_bag_pairs::{Held, Label, Pair};
use std::marker::Model;

/// A held pair in 16 bytes, for long lists; `Held` takes 24. Contracts see the [`Held`] that it stands for.
#[derive(Clone, Copy, Debug)]
pub struct FlatHeld {
    cell: CellId,
    label: Label,
    count: u32,
}

impl Model for FlatHeld {
    ghost use Rattle.s2ix_bag_pairs.specs.declared.pair.Held.{Held};

    ghost Value = { Held };

    ghost view = { λ flat. record { pair = record { cell = flat.cell; label = flat.label }; count = flat.count } };

    ghost inverse = { λ held. record { cell = held.pair.cell; label = held.pair.label; count = held.count } };
}

impl FlatHeld {
    /// A held pair, kept flat.
    pub fn new(held: Held) -> FlatHeld
        ensures { result ≡ held }
    {
        FlatHeld {
            cell: held.pair.cell,
            label: held.pair.label,
            count: held.count,
        }
    }

    /// The held pair that it stands for.
    pub fn held(self) -> Held
        ensures { result ≡ self }
    {
        Held {
            pair: self.pair(),
            count: self.count,
        }
    }

    /// The pair's cell.
    pub fn cell(self) -> CellId
        ensures { result ≡ self.pair.cell }
    {
        self.cell
    }

    /// The pair.
    pub fn pair(self) -> Pair
        ensures { result ≡ self.pair }
    {
        Pair {
            cell: self.cell,
            label: self.label,
        }
    }

    /// The count, in copies.
    pub fn count(self) -> u32
        ensures { result ≡ self.count }
    {
        self.count
    }
}
