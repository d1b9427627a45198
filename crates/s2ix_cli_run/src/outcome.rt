/// How a line came out, as a run counts it.
#[derive(Clone, Copy, Debug, PartialEq, Eq)]
pub enum LineOutcome {
    /// A blank line or a comment, which does not count.
    PassedOver,
    /// What the line asks for was done, and its answer printed.
    Accepted,
    /// The line changed nothing, and `no` with the refusal's name was printed.
    Refused,
}
