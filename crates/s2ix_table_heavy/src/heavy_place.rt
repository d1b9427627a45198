/// Where a heavy pair is kept: the number of its chunk, and its number within the chunk, both counted from 0.
#[derive(Clone, Copy, Debug, PartialEq, Eq)]
pub struct HeavyPlace {
    pub(crate) chunk: u32,
    pub(crate) node: u32,
}
