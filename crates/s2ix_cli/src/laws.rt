//! Laws: functions that do nothing; their contracts state facts about definitions.
ghost use Rattle.s2ix_cli.specs.Laws.{JournalLeadsBack, JournalLeadsOn};

pub use s2ix_cli_files::laws as files;
pub use s2ix_cli_run::laws as run;
pub use s2ix_cli_script::laws as script;
pub use s2ix_cli_words::laws as words;

/// A script prints a dump before anything is done, and a journal and a second dump at its end. If no line between forgets what was done, a
/// replay of the journal leads from the first dump to the second, and a rewind from the second to the first, byte for byte.
pub fn journal_leads_from_dump_to_dump()
    ensures replay { JournalLeadsOn }
    ensures rewind { JournalLeadsBack }
{}
