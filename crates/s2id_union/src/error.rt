ghost use Rattle.std.specs.Prelude.{◌≡◌};

use s2id_core::OutOfMemory;
use thiserror::Error;

/// Why there is no union of a span of leaves.
#[derive(Clone, Copy, Debug, PartialEq, Eq, Error)]
pub enum RangeError {
    /// A bound is even, or not `1 <= start <= limit <= LEAF_END`.
    #[error("no span of leaves")]
    BadRange,
    /// A growth was refused.
    #[error("out of memory")]
    OutOfMemory,
}

impl From<OutOfMemory> for RangeError {
    ghost use Rattle.s2id_union.specs.declared.error.RangeError.TheVariants as refusal;

    ghost from_gives = { λ _ error. error ≡ refusal.OutOfMemory };

    fn from(_: OutOfMemory) -> Self {
        RangeError::OutOfMemory
    }
}
