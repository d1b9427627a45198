use s2ix_bag_pairs::Held;

// A range with its own list of the pairs that lie over it.
#[derive(Debug, Drop)]
pub(crate) struct CopiedRange {
    pub(crate) start: u64,
    pub(crate) limit: u64,
    pub(crate) contents: Vec<Held>,
}
