//! The parts of what the program's words are read with, and told of.
use s2ix_cli::{
    LimitHelp, WordsFault, limit_error, lone_journal_error, not_utf8, program, range_text,
};
use std::alloc::Global;

#[test]
fn help_and_refusals_are_made(rt: HostRuntime) {
    let range = range_text(rt.alloc(), 7).expect(&rt, "a range");
    assert!(rt; range.as_str() == "1 to 7");
    let help = LimitHelp::new(rt.alloc()).expect(&rt, "help on limits");
    let changes = "Keeps N changes to undo at most: 1 to 100000 [default: 100000]";
    assert!(rt; help.changes.as_str() == changes);
    assert!(rt; program(rt.alloc(), &help).is_ok());
    assert!(rt; limit_error(rt.alloc(), "max-pairs", "0", 7).is_ok());
    assert!(rt; lone_journal_error(rt.alloc()).is_ok());
}

// Whether a word that is no UTF-8 is told with escapes.
fn is_told(alloc: Global) -> bool {
    match not_utf8(alloc, b"a\xff\x1b\xc3\xa9") {
        WordsFault::Usage(text) => {
            text.starts_with("error: the word 'a\\xff\\x1b\\xc3\\xa9' is no UTF-8\n")
        }
        _ => false,
    }
}

#[test]
fn a_word_that_is_no_utf8_is_told(rt: HostRuntime) {
    assert!(rt; is_told(rt.alloc()));
}
