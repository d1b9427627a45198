//! The words that the program knows, as clap is told of them.
ghost use Rattle.std.specs.Prelude.{◌≡◌, IfOk, false};
ghost use Rattle.clap.specs.Words.{App, Shape, app_of, kind_of, rule_of, with_subcommand};
ghost use Rattle.clap.specs.declared.error.ErrorKind.TheVariants.{MissingRequiredArgument, ValueValidation};
ghost use Rattle.s2ix_cli_words.specs.Tree.{
  IsSubcommand,
  IsCommand,
  check_words,
  dashed_rule,
  diff_words,
  file_rule,
  flag_rule,
  option_rule,
  own_words,
  program,
  run_words,
  texts_words,
};

use crate::help::{AFTER_PROGRAM, AFTER_RUN, DUMP, FIRST, JOURNAL, SECOND, VERSION};
use crate::limits::{LimitHelp, range_text};
use clap::error::ErrorKind;
use clap::{Arg, ArgAction, Command, Error};
use std::alloc::{AllocError, Global};

/// All the words that the program knows: `run`, `check`, `replay`, `rewind` and `diff` with their options and files, one of which must be named,
/// and those that ask for help or the version. They are read without the program's own name before them. It fails only if a growth is
/// refused.
pub fn program<'a>(alloc: Global, limits: &'a LimitHelp) -> Result<Command<'a>, AllocError>
    ensures { IfOk result (λ command. app_of command ≡ program) }
{
    let command = name(alloc)?;
    let command = with(command, run(alloc, limits))?;
    let command = with(command, check(alloc))?;
    let replay = "Prints the dump after the changes of the journal";
    let command = with(command, texts(alloc, "replay", replay))?;
    let rewind = "Prints the dump before the changes of the journal";
    let command = with(command, texts(alloc, "rewind", rewind))?;
    with(command, diff(alloc))
}

// The program without its subcommands.
fn name<'a>(alloc: Global) -> Result<Command<'a>, AllocError>
    ensures { IfOk result (IsCommand own_words) }
{
    Command::new(alloc, "s2ix")
        .about("An editable index of labelled cells of the S2 curve")
        .after_help(AFTER_PROGRAM)
        .version(VERSION)
        .no_binary_name(true)
        .subcommand_required(true)
        .bin_name("s2ix")
}

// A command with one subcommand more, if that could be made.
fn with<'a>(
    command: Command<'a>,
    added: Result<Command<'a>, AllocError>,
) -> Result<Command<'a>, AllocError>
    ensures { (words : App) (shape : Shape) → IsCommand words command.entry → IfOk added.entry (IsSubcommand shape) → IfOk result (IsCommand (with_subcommand words shape)) }
{
    command.subcommand(added?)
}

// `run` with its options.
fn run<'a>(alloc: Global, limits: &'a LimitHelp) -> Result<Command<'a>, AllocError>
    ensures { IfOk result (IsSubcommand run_words) }
{
    Command::new(alloc, "run")
        .about("Carries out the script on standard input")
        .after_help(AFTER_RUN)
        .arg(option(
            alloc,
            "load",
            "FILE",
            "Begins with the dump in FILE, else with no pairs",
        ))?
        .arg(option(
            alloc,
            "journal",
            "FILE",
            "Can undo the changes of the journal in FILE, which led to that dump",
        ))?
        .arg(option(alloc, "max-pairs", "N", limits.pairs.as_str()))?
        .arg(option(alloc, "max-count", "N", limits.count.as_str()))?
        .arg(option(alloc, "max-changes", "N", limits.changes.as_str()))?
        .arg(flag(alloc, "stop", "Ends after the first refused line"))
}

/// What clap says of a value that is no number in the range of its option, a limit of `run`. It fails only if a growth is refused.
pub fn limit_error(
    alloc: Global,
    option: &str,
    value: &str,
    greatest: u32,
) -> Result<Error, AllocError>
    ensures { IfOk result (λ error. kind_of error ≡ ValueValidation) }
{
    let range = range_text(alloc, greatest)?;
    let message = format!(in alloc; "invalid value '{value}' for '--{option} <N>': {range}")?;
    let limits = LimitHelp::new(alloc)?;
    let mut run = run(alloc, &limits)?.bin_name("s2ix run")?;
    run.error(ErrorKind::ValueValidation, message.as_str())
}

/// What clap says of a journal for a run that is given no dump. It fails only if a growth is refused.
pub fn lone_journal_error(alloc: Global) -> Result<Error, AllocError>
    ensures { IfOk result (λ error. kind_of error ≡ MissingRequiredArgument) }
{
    let limits = LimitHelp::new(alloc)?;
    let mut run = run(alloc, &limits)?.bin_name("s2ix run")?;
    run.error(
        ErrorKind::MissingRequiredArgument,
        "'--journal <FILE>' is the journal of a dump, and there is no '--load <FILE>'",
    )
}

// `check` with its file.
fn check<'a>(alloc: Global) -> Result<Command<'a>, AllocError>
    ensures { IfOk result (IsSubcommand check_words) }
{
    Command::new(alloc, "check")
        .about("Reads the dump in FILE, and prints how many pairs and copies it has")
        .arg(file(alloc, "FILE", DUMP))
}

// A subcommand with a dump and a journal.
fn texts<'a>(alloc: Global, name: &'a str, about: &'a str) -> Result<Command<'a>, AllocError>
    ensures { IfOk result (IsSubcommand (texts_words name.now)) }
{
    Command::new(alloc, name)
        .about(about)
        .arg(file(alloc, "DUMP", DUMP))?
        .arg(file(alloc, "JOURNAL", JOURNAL))
}

// `diff` with its two dumps.
fn diff<'a>(alloc: Global) -> Result<Command<'a>, AllocError>
    ensures { IfOk result (IsSubcommand diff_words) }
{
    Command::new(alloc, "diff")
        .about("Prints the journal of the one change from the first dump to the second")
        .arg(file(alloc, "FIRST", FIRST))?
        .arg(file(alloc, "SECOND", SECOND))
}

// `--NAME VALUE`, which may be left out.
fn option<'a>(alloc: Global, name: &'a str, value: &'a str, help: &'a str) -> Arg<'a>
    ensures rule { rule_of result ≡ option_rule name.now }
    ensures local { result.global ≡ false }
{
    dashed(alloc, name, help).value_name(value)
}

// `--NAME`, which may be left out.
fn flag<'a>(alloc: Global, name: &'a str, help: &'a str) -> Arg<'a>
    ensures rule { rule_of result ≡ flag_rule name.now }
    ensures local { result.global ≡ false }
{
    dashed(alloc, name, help).action(ArgAction::SetTrue)
}

// What is named after two dashes.
fn dashed<'a>(alloc: Global, name: &'a str, help: &'a str) -> Arg<'a>
    ensures rule { rule_of result ≡ dashed_rule name.now }
    ensures local { result.global ≡ false }
{
    Arg::new(alloc, name).long(name).help(help)
}

// The name of a file, which must be given.
fn file<'a>(alloc: Global, name: &'a str, help: &'a str) -> Arg<'a>
    ensures rule { rule_of result ≡ file_rule name.now }
    ensures local { result.global ≡ false }
{
    Arg::new(alloc, name).required(true).help(help)
}
