/// A sample has every 16th start of some ranges, for a search that waits for memory.
pub const SAMPLE_STEP: usize = 16;
