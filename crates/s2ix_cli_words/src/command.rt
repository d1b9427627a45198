use s2ix_bag_pairs::Limits;

/// What a run begins with.
#[derive(Debug, Drop)]
pub enum Start {
    /// The empty collection.
    Empty,
    /// A dump, with nothing to undo.
    Dump {
        /// The file with the dump.
        dump: String,
    },
    /// A dump and the changes that led to it, which can be undone.
    History {
        /// The file with the dump.
        dump: String,
        /// The file with the journal of the changes.
        journal: String,
    },
}

/// What the program is asked to do.
#[derive(Debug, Drop)]
pub enum Command {
    /// To carry out the script on standard input.
    Run {
        /// What to begin with.
        start: Start,
        /// How large the collection and its history may be.
        limits: Limits,
        /// To end after the first refused line.
        stop: bool,
    },
    /// To read a dump, and print how many pairs and copies it has.
    Check {
        /// The file with the dump.
        file: String,
    },
    /// To print a dump after the changes of a journal.
    Replay {
        /// The file with the dump.
        dump: String,
        /// The file with the journal.
        journal: String,
    },
    /// To print a dump before the changes of a journal.
    Rewind {
        /// The file with the dump.
        dump: String,
        /// The file with the journal.
        journal: String,
    },
    /// To print the journal of the change between two dumps.
    Diff {
        /// The file with the dump before the change.
        first: String,
        /// The file with the dump after it.
        second: String,
    },
}
