ghost use Rattle.std.specs.Prelude.{◌≡◌, IfErr, IfOk, map, string_bytes};
ghost use Rattle.clap.specs.Words.{kind_of};
ghost use Rattle.s2ix_cli_words.specs.Shown.{ArePlain, Says};
ghost use Rattle.s2ix_cli_words.specs.Words.{AreRefused, AskFor, IsToldAs};

use crate::arguments::command_met;
use crate::command::Command;
use crate::limits::LimitHelp;
use crate::shown::words_text;
use crate::tree::program;
use crate::words_fault::WordsFault;
use clap::Error;
use clap::error::ErrorKind;
use std::alloc::Global;

/// The command that the program's words ask for. The words are those after the program's own name.
///
/// The words are read by clap: an option is given once at most, as `--max-pairs 5` or `--max-pairs=5`, options come in any order, and
/// after `--` each word is a file. A limit is read as Rust reads a `u32`, and one that is not given is as wide as it may be.
/// O(n) for words of n bytes.
///
/// A word is printed with escapes for its control characters: what is printed has none but line feeds.
///
/// It returns `HelpAsked` and `VersionAsked` if the words ask for these, `Usage` if they ask for no command or a limit is out of its range,
/// and `OutOfMemory` if a growth was refused.
pub fn command_of(alloc: Global, words: &[String]) -> Result<Command, WordsFault>
    ensures asked { IfOk result (AskFor (map string_bytes words.now)) }
    ensures refused { IfErr result (AreRefused (map string_bytes words.now)) }
    ensures plain { IfErr result (Says ArePlain) }
{
    let limits = LimitHelp::new(alloc)?;
    command_with_limits(alloc, &limits, words)
}

// The command that the words ask for, with this help on limits.
fn command_with_limits<'a>(
    alloc: Global,
    limits: &'a LimitHelp,
    words: &'a [String],
) -> Result<Command, WordsFault>
    ensures asked { IfOk result (AskFor (map string_bytes words.now)) }
    ensures refused { IfErr result (AreRefused (map string_bytes words.now)) }
    ensures plain { IfErr result (Says ArePlain) }
{
    match program(alloc, limits)?.try_get_matches_from(words) {
        Ok(matches) => command_met(alloc, &matches),
        Err(error) => Err(refusal(alloc, words, &error)),
    }
}

// What clap says of words that it refuses, or its help or version.
fn refusal(alloc: Global, words: &[String], error: &Error) -> WordsFault
    ensures kind { IsToldAs (kind_of error.now) result }
    ensures plain { Says ArePlain result }
{
    let Ok(text) = words_text(alloc, words, error) else {
        return WordsFault::OutOfMemory;
    };
    match error.kind() {
        ErrorKind::OutOfMemory => WordsFault::OutOfMemory,
        ErrorKind::DisplayHelp => WordsFault::HelpAsked(text),
        ErrorKind::DisplayVersion => WordsFault::VersionAsked(text),
        _ => WordsFault::Usage(text),
    }
}
