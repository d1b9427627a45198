use thiserror::Error;

/// Why a line was not carried out. Nothing has changed then.
#[derive(Clone, Copy, Debug, PartialEq, Eq, Error)]
pub enum NoAnswer {
    /// A growth was refused.
    #[error("out of memory")]
    OutOfMemory,
    /// The buffer is too short for the answer.
    #[error("{needed} bytes of room are needed")]
    NoRoom {
        /// How many bytes of room the line wants.
        needed: usize,
    },
}
