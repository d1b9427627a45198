//! Each command carried out, over files, standard input and standard output.
ghost use Rattle.std.specs.Prelude.{◌≡◌, IfOk};
ghost use Rattle.s2ix_text.specs.Adapters.{writer_faults};

use s2ix_bag::Limits;
use s2ix_cli_files::{check_text, diff_texts, load_text, replay_texts, resume_texts, rewind_texts};
use s2ix_cli_run::RunOptions;
use s2ix_cli_words::{Command, Start, first_fault, turns};
use s2ix_edit::Store;
use s2ix_text::{FromRead, RunFault, Sink, ToWrite, read_whole};
use std::fs::File;
use std::io::{BufWriter, Stdout};

// How many bytes the block has whose size glibc's allocator learns: with what it adds to a block, no more than 32 MiB.
const LARGEST_KEPT: usize = 31 << 20;

// Carries out a command, and says whether all was accepted. What was written before a fault goes out too.
pub(crate) fn run_command(rt: &HostRuntime, command: &Command) -> Result<bool, RunFault> {
    match command {
        Command::Run {
            start,
            limits,
            stop,
        } => run(rt, start, *limits, *stop),
        Command::Check { file } => check(rt, file.as_str()),
        Command::Replay { dump, journal } => replay(rt, dump.as_str(), journal.as_str()),
        Command::Rewind { dump, journal } => rewind(rt, dump.as_str(), journal.as_str()),
        Command::Diff { first, second } => diff(rt, first.as_str(), second.as_str()),
    }
}

// Runs the script on standard input over an empty store, the dump in a file, or a dump and the journal that led to it.
fn run(rt: &HostRuntime, start: &Start, limits: Limits, stop: bool) -> Result<bool, RunFault> {
    match begun(rt, start, limits)? {
        Some(store) => run_over(rt, store, stop),
        None => Ok(false),
    }
}

// The store that a run begins with, or `None` once a refusal is printed.
fn begun(rt: &HostRuntime, start: &Start, limits: Limits) -> Result<Option<Store>, RunFault> {
    match start {
        Start::Empty => Ok(Some(Store::new(rt.alloc(), limits)?)),
        Start::Dump { dump } => load_file(rt, dump.as_str(), limits),
        Start::History { dump, journal } => {
            resume_files(rt, dump.as_str(), journal.as_str(), limits)
        }
    }
}

// The store of the dump in a file, or `None` once its fault is printed.
fn load_file(rt: &HostRuntime, file: &str, limits: Limits) -> Result<Option<Store>, RunFault> {
    keep_pages(rt);
    let text = file_text(rt, file)?;
    let mut sink = output(rt)?;
    load_text(rt.alloc(), text.as_slice(), limits, &mut sink)
}

// The store that goes on from the dump in a file, with the journal's changes done, or `None` once a refusal is printed.
fn resume_files(
    rt: &HostRuntime,
    dump: &str,
    journal: &str,
    limits: Limits,
) -> Result<Option<Store>, RunFault> {
    keep_pages(rt);
    let dump = file_text(rt, dump)?;
    let journal = file_text(rt, journal)?;
    let mut sink = output(rt)?;
    resume_texts(
        rt.alloc(),
        dump.as_slice(),
        journal.as_slice(),
        limits,
        &mut sink,
    )
}

// Takes a large block and gives it back. From then on glibc's allocator keeps freed blocks up to that size. So the tables reuse the memory
// of the list of read pairs, which the system need not clear. If there is no room, nothing is lost.
fn keep_pages(rt: &HostRuntime) {
    let _given_back = Vec::<u8>::with_capacity(rt.alloc(), LARGEST_KEPT);
}

// Runs the script on standard input over a store.
fn run_over(rt: &HostRuntime, mut store: Store, stop: bool) -> Result<bool, RunFault> {
    let mut source = FromRead::new(rt.stdin());
    let mut sink = output(rt)?;
    let options = RunOptions {
        stop,
        turns: turns(),
    };
    let accepted = match s2ix_cli_run::run(
        rt.alloc(),
        &mut source,
        &mut sink,
        &mut store,
        options,
    ) {
        Ok(end) => Ok(end.refused == 0),
        Err(fault) => Err(fault),
    };
    first_fault(accepted, sink.flush())
}

// Reads a dump.
fn check(rt: &HostRuntime, file: &str) -> Result<bool, RunFault> {
    let text = file_text(rt, file)?;
    let mut sink = output(rt)?;
    check_text(rt.alloc(), text.as_slice(), &mut sink)
}

// Prints a dump after a journal's changes.
fn replay(rt: &HostRuntime, dump: &str, journal: &str) -> Result<bool, RunFault> {
    let dump = file_text(rt, dump)?;
    let journal = file_text(rt, journal)?;
    let mut sink = output(rt)?;
    replay_texts(rt.alloc(), dump.as_slice(), journal.as_slice(), &mut sink)
}

// Prints a dump before a journal's changes.
fn rewind(rt: &HostRuntime, dump: &str, journal: &str) -> Result<bool, RunFault> {
    let dump = file_text(rt, dump)?;
    let journal = file_text(rt, journal)?;
    let mut sink = output(rt)?;
    rewind_texts(rt.alloc(), dump.as_slice(), journal.as_slice(), &mut sink)
}

// Prints the journal of the change between two dumps.
fn diff(rt: &HostRuntime, first: &str, second: &str) -> Result<bool, RunFault> {
    let first = file_text(rt, first)?;
    let second = file_text(rt, second)?;
    let mut sink = output(rt)?;
    diff_texts(rt.alloc(), first.as_slice(), second.as_slice(), &mut sink)
}

// All of a file. One that can't be opened is a fault of reading.
fn file_text(rt: &HostRuntime, name: &str) -> Result<Vec<u8>, RunFault> {
    let Ok(file) = File::open(rt, name) else {
        return Err(RunFault::Read);
    };
    read_whole(rt.alloc(), &mut FromRead::new(file), turns())
}

// Standard output with a buffer.
fn output(rt: &HostRuntime) -> Result<ToWrite<BufWriter<Stdout>>, RunFault>
    ensures { IfOk result (λ sink. writer_faults sink ≡ 0) }
{
    match BufWriter::new(rt.alloc(), rt.stdout()) {
        Ok(writer) => Ok(ToWrite::new(writer)),
        Err(_) => Err(RunFault::OutOfMemory),
    }
}
