//! The versions of dumps and journals.
ghost use Rattle.std.specs.Prelude.{◌≡◌};
ghost use Rattle.s2ix_text_write.specs.Version.{dump_version, greatest_in, journal_version};

/// A version of the formats of dumps and journals, which a text names on its first line.
///
/// The versions differ only in their headers and in the greatest count. The second is the one that is written.
#[derive(Clone, Copy, Debug, PartialEq, Eq)]
pub enum Version {
    /// Counts up to 65,535.
    First,
    /// Counts up to 4,294,967,295.
    Second,
}

impl Version {
    /// The version whose dumps have this first line, without its line feed, or `None` if no dump has it.
    #[tactic(auto, unfolding(crate::specs::Version::dump_version))]
    pub fn of_dump(header: &[u8]) -> Option<Version>
        ensures { result ≡ dump_version header.now }
    {
        if header == b"s2ix 1".as_slice() {
            Some(Version::First)
        } else if header == b"s2ix 2".as_slice() {
            Some(Version::Second)
        } else {
            None
        }
    }

    /// The version whose journals have this first line, without its line feed, or `None` if no journal has it.
    #[tactic(auto, unfolding(crate::specs::Version::journal_version))]
    pub fn of_journal(header: &[u8]) -> Option<Version>
        ensures { result ≡ journal_version header.now }
    {
        if header == b"s2ix-journal 1".as_slice() {
            Some(Version::First)
        } else if header == b"s2ix-journal 2".as_slice() {
            Some(Version::Second)
        } else {
            None
        }
    }

    /// The greatest count that a text of this version writes.
    pub fn greatest_count(self) -> u32
        ensures { result ≡ greatest_in self }
    {
        match self {
            Version::First => 65_535,
            Version::Second => u32::MAX,
        }
    }
}
