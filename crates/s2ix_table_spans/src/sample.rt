//! A short list of starts, which a search reads first.
ghost use Rattle.std.specs.Prelude.{◌-◌, length, drop, IfOk};
ghost use Rattle.s2ix_table_walk.specs.Stretches.{IsSample};

use s2id_core::OutOfMemory;
use s2ix_table_walk::SAMPLE_STEP;
use std::alloc::Global;

// The starts at 16, 32 and so on but for the last start.
pub(crate) fn sample_of(alloc: Global, starts: &[u64]) -> Result<Vec<u64>, OutOfMemory>
    ensures { IfOk result (λ sample. IsSample (length starts.now - 2) (drop 1 starts.now) sample.items) }
{
    let count = starts.len().saturating_sub(2);
    let mut sample = Vec::with_capacity(alloc, count / SAMPLE_STEP)?;
    let mut k = SAMPLE_STEP;
    while k <= count {
        sample.push(starts[k])?;
        k += SAMPLE_STEP;
    }
    Ok(sample)
}
