ghost use Rattle.std.specs.Prelude.{◌≡◌};

use s2id_core::OutOfMemory;
use thiserror::Error;

/// Why there is no border. The faults are tested in this order.
#[derive(Clone, Copy, Debug, PartialEq, Eq, Error)]
pub enum BorderError {
    /// The level is below the cell's.
    #[error("level is coarser than the cell's")]
    Coarser,
    /// The level is above 30, or more than 8 above the cell's.
    #[error("level is too fine")]
    TooFine,
    /// A growth was refused.
    #[error("out of memory")]
    OutOfMemory,
}

impl From<OutOfMemory> for BorderError {
    ghost use Rattle.s2id_cube.specs.declared.error.BorderError.TheVariants as refusal;

    ghost from_gives = { λ _ error. error ≡ refusal.OutOfMemory };

    fn from(_: OutOfMemory) -> Self {
        BorderError::OutOfMemory
    }
}
