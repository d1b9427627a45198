/// How many leaves [`at_each`](crate::at_each) looks for at once.
pub const BATCH: usize = 64;

/// Where a table was read last: a part of it, and a range of that part. A table starts from there when it is read again, and is quicker if
/// that is nearby. Any bookmark is accepted, also one of another table: no clause says what it is.
#[derive(Clone, Copy, Debug, PartialEq, Eq)]
pub struct Bookmark {
    /// The number of the part; 0 if the table is one part.
    pub part: usize,
    /// The place of the range among those of the part.
    pub range: usize,
}

impl Bookmark {
    ghost use Rattle.std.specs.Prelude.{◌≡◌};
    ghost use Rattle.s2ix_table_queries.specs.Bookmarks.{no_bookmark};

    /// The bookmark of a table that wasn't read yet: its part and its range have the greatest number of their type, and no part and no range
    /// has that. O(1).
    pub fn none() -> Bookmark
        ensures { result ≡ no_bookmark }
    {
        Bookmark {
            part: usize::MAX,
            range: usize::MAX,
        }
    }
}
