//! The program `s2ix`: carries out the command that its words name, over files and standard input, prints the answer, and ends with a
//! status.
#![tactic(auto)]

mod asked;
mod commands;

use asked::asked;
use commands::run_command;
use s2ix_cli_words::{Ending, WordsFault, status};
use s2ix_text::RunFault;
use std::process::ExitCode;

// Does what the words ask for. Help and the version go to standard output, and usage to standard error.
fn end(rt: &HostRuntime) -> Ending {
    match asked(rt) {
        Ok(command) => match run_command(rt, &command) {
            Ok(true) => Ending::Accepted,
            Ok(false) => Ending::Refused,
            Err(fault) => Ending::Fault(fault),
        },
        Err(WordsFault::HelpAsked(text)) => print(rt, text.as_str()),
        Err(WordsFault::VersionAsked(text)) => print(rt, text.as_str()),
        Err(WordsFault::Usage(text)) => {
            let _ = eprint!(rt; "{text}");
            Ending::Usage
        }
        Err(WordsFault::OutOfMemory) => Ending::Fault(RunFault::OutOfMemory),
    }
}

// Prints help or the version.
fn print(rt: &HostRuntime, text: &str) -> Ending {
    match print!(rt; "{text}") {
        Ok(()) => Ending::Accepted,
        Err(_) => Ending::Fault(RunFault::Write),
    }
}

fn main(rt: HostRuntime) -> ExitCode {
    let ended = end(&rt);
    if let Ending::Fault(fault) = ended {
        let _ = eprintln!(rt; "s2ix: {fault}");
    }
    status(ended)
}
