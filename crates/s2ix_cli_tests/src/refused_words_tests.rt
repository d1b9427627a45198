//! What the program's words ask for, read once more when memory was refused.
use s2id_samples::{SET_UP, answer};
use s2ix_bag::Limits;
use s2ix_cli::{Command, Start, command_of};
use std::alloc::Global;
use std::process::Abort;

const WORDS: [&str; 7] = ["run", "--load", "a", "--max-pairs", "3", "--journal", "b"];

const DIFF: [&str; 3] = ["diff", "a", "b"];

fn words_of(rt: &impl Abort, alloc: Global, words: &[&str]) -> Vec<String> {
    let mut texts = Vec::new(alloc);
    for word in words {
        let text = String::from_str(alloc, word).expect(rt, SET_UP);
        texts.push(text).expect(rt, SET_UP);
    }
    texts
}

// The dump, the journal and the limits of a run that goes on after a refused line.
fn run_named(command: &Command) -> Option<(&str, &str, Limits)> {
    match command {
        Command::Run {
            start: Start::History { dump, journal },
            limits,
            stop: false,
        } => Some((dump.as_str(), journal.as_str(), *limits)),
        _ => None,
    }
}

#[test]
fn refused_words(rt: HostRuntime) {
    let words = words_of(&rt, rt.alloc(), &WORDS);
    let command = answer!(&rt, command_of(rt.alloc(), words.as_slice()));
    let (dump, journal, limits) = run_named(&command).expect(&rt, "a run with a history");
    assert!(&rt; dump == "a" && journal == "b" && limits.pairs() == 3);
}

// Whether a command compares the dumps in `a` and in `b`.
fn is_diff(command: &Command) -> bool {
    match command {
        Command::Diff { first, second } => first.as_str() == "a" && second.as_str() == "b",
        _ => false,
    }
}

#[test]
fn refused_words_of_a_diff(rt: HostRuntime) {
    let words = words_of(&rt, rt.alloc(), &DIFF);
    let command = answer!(&rt, command_of(rt.alloc(), words.as_slice()));
    assert!(&rt; is_diff(&command));
}
