//! What was given after the word of a subcommand.
ghost use Rattle.std.specs.Prelude.{◌≡◌, ◌↔◌, ℕ, Some, IfErr, IfNone, IfOk, IfSome, IsTrue, codes, option_map, string_bytes};
ghost use Rattle.clap.specs.Words.{first_of, found_of, rows_of, subcommand_rows_of};
ghost use Rattle.s2ix_bag_pairs.specs.declared.limits.Limits.{Limits as OfLimits};
ghost use Rattle.s2ix_cli_words.specs.Shown.{ArePlain, Says};
ghost use Rattle.s2ix_cli_words.specs.Words.{AreGiven, IsFile, IsGiven, IsMet, IsOf, IsUsage, Lacks, Refuses, BeginsWith};

use crate::command::{Command, Start};
use crate::usage::{limit_usage, lone_journal_usage, usage};
use crate::words_fault::WordsFault;
use clap::ArgMatches;
use s2ix_bag_pairs::Limits;
use std::alloc::Global;

// What is printed if the name of a file is missing.
const NO_FILE: &str =
    "error: the name of a file is missing\n\nFor more information, try '--help'.\n";

// What is printed if no command is named.
const NO_COMMAND: &str = "error: a command is wanted\n\nFor more information, try '--help'.\n";

// The command that was met, of those that clap matched.
pub(crate) fn command_met(alloc: Global, matches: &ArgMatches<'_>) -> Result<Command, WordsFault>
    ensures met { IfOk result (IsMet (subcommand_rows_of matches.now)) }
    ensures refused { IfErr result (Refuses (IsMet (subcommand_rows_of matches.now))) }
    ensures plain { IfErr result (Says ArePlain) }
{
    match matches.subcommand() {
        Some((word, given)) => command_given(alloc, word, given),
        None => Err(usage(alloc, NO_COMMAND)),
    }
}

// The command of a word and what was given after it.
fn command_given(alloc: Global, word: &str, given: &ArgMatches<'_>) -> Result<Command, WordsFault>
    ensures given { IfOk result (IsOf word.now (rows_of (found_of given.now))) }
    ensures refused { IfErr result (Refuses (IsOf word.now (rows_of (found_of given.now)))) }
    ensures plain { IfErr result (Says ArePlain) }
{
    match word {
        "run" => run_given(alloc, given),
        "check" => {
            let file = file_given(alloc, given, "FILE")?;
            Ok(Command::Check { file })
        }
        "replay" => {
            let dump = file_given(alloc, given, "DUMP")?;
            let journal = file_given(alloc, given, "JOURNAL")?;
            Ok(Command::Replay { dump, journal })
        }
        "rewind" => {
            let dump = file_given(alloc, given, "DUMP")?;
            let journal = file_given(alloc, given, "JOURNAL")?;
            Ok(Command::Rewind { dump, journal })
        }
        "diff" => {
            let first = file_given(alloc, given, "FIRST")?;
            let second = file_given(alloc, given, "SECOND")?;
            Ok(Command::Diff { first, second })
        }
        _ => Err(usage(alloc, NO_COMMAND)),
    }
}

// `run` with what was given to its options.
fn run_given(alloc: Global, given: &ArgMatches<'_>) -> Result<Command, WordsFault>
    ensures given { IfOk result (IsOf (codes "run") (rows_of (found_of given.now))) }
    ensures refused { IfErr result (Refuses (IsOf (codes "run") (rows_of (found_of given.now)))) }
    ensures plain { IfErr result (Says ArePlain) }
{
    let Some(limits) = limits_given(given) else {
        return Err(limits_fault(alloc, given));
    };
    let start = start_given(alloc, given)?;
    let stop = has_flag(given, "stop");
    Ok(Command::Run {
        start,
        limits,
        stop,
    })
}

// The limits that were given, or `None` if one is no number or out of its range.
fn limits_given(given: &ArgMatches<'_>) -> Option<Limits>
    ensures given { IfSome result (AreGiven (rows_of (found_of given.now))) }
    ensures refused { IfNone result ((limits : OfLimits) → AreGiven (rows_of (found_of given.now)) limits → ⊥) }
{
    let widest = Limits::default();
    let pairs = number_given(given, "max-pairs", widest.pairs())?;
    let count = number_given(given, "max-count", widest.count())?;
    let changes = number_given(given, "max-changes", widest.changes())?;
    Limits::new(pairs, count, changes)
}

// What is printed of the first limit that is no number in its range.
fn limits_fault(alloc: Global, given: &ArgMatches<'_>) -> WordsFault
    ensures usage { IsUsage result }
    ensures plain { Says ArePlain result }
{
    let widest = Limits::default();
    if let Some(fault) = limit_fault(alloc, given, "max-pairs", widest.pairs()) {
        return fault;
    }
    if let Some(fault) = limit_fault(alloc, given, "max-count", widest.count()) {
        return fault;
    }
    match limit_fault(alloc, given, "max-changes", widest.changes()) {
        Some(fault) => fault,
        // (not reached: nothing is printed of limits that are all in their ranges)
        None => usage(alloc, NO_COMMAND),
    }
}

// What is printed of the limit given to an option, or `None` if it is a number from 1 to `greatest`, or none was given.
fn limit_fault(
    alloc: Global,
    given: &ArgMatches<'_>,
    option: &str,
    greatest: u32,
) -> Option<WordsFault>
    ensures usage { IfSome result IsUsage }
    ensures plain { IfSome result (Says ArePlain) }
{
    let text = text_given(given, option)?;
    match text.parse::<u32>() {
        Ok(number) if number >= 1 && number <= greatest => None,
        _ => Some(limit_usage(alloc, option, text, greatest)),
    }
}

// The number given to an option, `default` if none was, or `None` if it is no number.
fn number_given(given: &ArgMatches<'_>, option: &str, default: u32) -> Option<u32>
    ensures given { IfSome result (IsGiven default (first_of option.now (rows_of (found_of given.now)))) }
    ensures refused { IfNone result ((n : ℕ) → IsGiven default (first_of option.now (rows_of (found_of given.now))) n → ⊥) }
{
    match text_given(given, option) {
        Some(text) => text.parse().ok(),
        None => Some(default),
    }
}

// What to begin with: of the two files a journal is given only with a dump.
fn start_given(alloc: Global, given: &ArgMatches<'_>) -> Result<Start, WordsFault>
    ensures given { IfOk result (BeginsWith (rows_of (found_of given.now))) }
    ensures refused { IfErr result (Refuses (BeginsWith (rows_of (found_of given.now)))) }
    ensures plain { IfErr result (Says ArePlain) }
{
    match text_given(given, "load") {
        Some(dump) => loaded_given(alloc, given, dump),
        None => match text_given(given, "journal") {
            Some(_) => Err(lone_journal_usage(alloc)),
            None => Ok(Start::Empty),
        },
    }
}

// What to begin with if this dump was given.
fn loaded_given(alloc: Global, given: &ArgMatches<'_>, dump: &str) -> Result<Start, WordsFault>
    requires { first_of (codes "load") (rows_of (found_of given.now)) ≡ Some dump.now }
    ensures given { IfOk result (BeginsWith (rows_of (found_of given.now))) }
    ensures refused { IfErr result (Refuses (BeginsWith (rows_of (found_of given.now)))) }
    ensures plain { IfErr result (Says ArePlain) }
{
    let dump = String::from_str(alloc, dump)?;
    match text_given(given, "journal") {
        Some(journal) => {
            let journal = String::from_str(alloc, journal)?;
            Ok(Start::History { dump, journal })
        }
        None => Ok(Start::Dump { dump }),
    }
}

// Whether a flag was given.
fn has_flag(given: &ArgMatches<'_>, flag: &str) -> bool
    ensures { IsTrue result ↔ (first_of flag.now (rows_of (found_of given.now)) ≡ Some (codes "true")) }
{
    match text_given(given, flag) {
        Some(text) => text == "true",
        None => false,
    }
}

// The name of a file, as it was given.
fn file_given(alloc: Global, given: &ArgMatches<'_>, name: &str) -> Result<String, WordsFault>
    ensures given { IfOk result (IsFile name.now (rows_of (found_of given.now))) }
    ensures refused { IfErr result (Lacks name.now (rows_of (found_of given.now))) }
    ensures plain { IfErr result (Says ArePlain) }
{
    match text_given(given, name) {
        Some(file) => Ok(String::from_str(alloc, file)?),
        None => Err(usage(alloc, NO_FILE)),
    }
}

// The text given to an argument.
fn text_given<'a>(given: &ArgMatches<'a>, name: &str) -> Option<&'a str>
    ensures { option_map (λ text. text.now) result ≡ first_of name.now (rows_of (found_of given.now)) }
{
    given.get_str(name)
}
